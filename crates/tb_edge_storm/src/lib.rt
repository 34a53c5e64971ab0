//! `storm`: many client threads at once, each with a port and a seat of its own, next to one server thread.
//!
//! Modules, each over those before it:
//!
//! - `scale`: how many clients there are, and how many transfers each makes.
//! - `stage`: what the server's thread reports to the clients: it has begun, it has ended.
//! - `totals`: what a storm leaves, and its lines.
//! - `faults`: why a storm does not end well.
//! - `calls`: what the clients call.
//! - `network`: what carries their requests, and delivers some again that were answered.
//! - `clients`: a client's thread: a `Caller` of tb_caller, which registers and creates.
//! - `playing`: all clients, and what the server took of their ports.
//! - `outcomes`: which fault is reported if there are several.
//! - `storms`: `storm`, the server's thread, and the lines.
#![tactic(auto)]

mod calls;
mod clients;
mod faults;
mod network;
mod outcomes;
mod playing;
mod scale;
mod stage;
mod storms;
mod totals;

pub use faults::StormFault;
pub use storms::storm;
pub use totals::Totals;
