//! What ports send to the server.
use crate::batches::Batch;
use tb_records::Request;

/// What one port sends in one step.
#[derive(Drop)]
pub struct Order {
    /// The port's number, from 0.
    pub port: u32,
    pub what: What,
}

/// A request, a few requests, or the close: no more come.
#[derive(Drop)]
pub enum What {
    One(Request),
    Many(Batch),
    Close,
}
