//! One client's session as data: what it may send, and what it takes for a reply.
//!
//! - `faults`: `CallFault`, why a call makes no request; `FieldFault`, why no client has some stored fields.
//! - `callers`: `Caller`, the state of a session, which calls and replies move on, as values or as frames.
//! - `laws`: the laws of a client, a network and a server: functions that do nothing.
//!
//! specs/Clients is the model of `Caller`: what each call and each reply makes of it.
#![tactic(auto)]

mod callers;
mod faults;
pub mod laws;

pub use callers::{Caller, Heard, Phase};
pub use faults::{CallFault, FieldFault};
