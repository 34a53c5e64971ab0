//! Ports, one server thread, and the queue between them.
//!
//! Modules, each over those before it:
//!
//! - `limits`: `PortCount`.
//! - `batches`: `Batch`, one to eight requests that go together.
//! - `orders`: `Order`, what a port sends in one step.
//! - `rule`: what the holders of passes know, and the steps of the queue.
//! - `calling`: a seat asked again until it has the reply.
//! - `ports`: `Port`, `Closed`, through which a client thread sends its requests; a port naps first if the queue is full.
//! - `gates`: `Moments`, where moments come from; `Gate`, what each request passes; `Open`, a gate that lets all pass.
//! - `inbox`: the server's end of the queue.
//! - `clerk`: what the requests of an order do to the history, each in its turn.
//! - `ends`: `Ended`, why a run ends.
//! - `finished`: `Finished`, a run that has ended, and the places of each port's requests.
//! - `server`: `Server`, the loop over orders.
//! - `starting`: `service`, a server and its ports.
//! - `laws`: what follows about a run and the places of its ports: functions that do nothing.
#![tactic(auto)]

mod batches;
mod calling;
mod clerk;
mod ends;
mod finished;
mod gates;
mod inbox;
pub mod laws;
mod limits;
mod orders;
mod ports;
mod rule;
mod server;
mod starting;

pub use ends::Ended;
pub use finished::Finished;
pub use gates::{Gate, Moments, Open};
pub use limits::PortCount;
pub use ports::{Closed, Port};
pub use server::Server;
pub use starting::service;
