//! The server inside another program: calls for C, and for languages that call C, over a handle that the caller keeps.
//! embed/tb_embed.h declares them.
//!
//! Modules, each over those before it:
//!
//! - `outcomes`: `Outcome`, the outcome of a call, and its status.
//! - `loose`: a box as its pointer, and back.
//! - `held`: a server behind a pointer that the caller keeps, or no server.
//! - `servers`: `TbServer`, the handle.
//! - `rooms`: the caller's buffer, as a writer.
//! - `replies`: how long a reply is, and that its numbers fit.
//! - `handles`: a handle opened.
//! - `asking`: one frame read, served and answered.
//! - `showing`: accounts and transfers shown outside sessions.
//! - `calls`: what C calls over a server.
//! - `steps`: a client's session as C keeps it, and the outcome of a call over it.
//! - `calling`: what the calls over a client's session do.
//! - `callers`: what C calls over a client's session.
//! - `laws`: laws of the calls: functions that do nothing.
//! - `tests`: the calls, made as C makes them.
#![tactic(auto)]

mod asking;
pub mod callers;
mod calling;
pub mod calls;
mod handles;
pub mod held;
pub mod laws;
pub mod loose;
pub mod outcomes;
mod replies;
mod rooms;
pub mod servers;
mod showing;
pub mod steps;
#[cfg(test)]
mod tests;

pub use servers::TbServer;
pub use steps::TbCaller;
