//! What the server's programs share: the words of their forms `run`, `dump` and `replay`, and what each form does from a
//! reader to a writer. Also the exit status and the line of each fault, and the way from the system's input and output to
//! them.
//!
//! Modules, each over those before it:
//!
//! - `arguments`: what the words of the command line ask for, the numbers in them, and `with_clients_range`, what a text says
//!   of a number of clients.
//! - `lines`: the line that reports a fault.
//! - `commands`: each form over any reader and writer, and the exit status and line of each outcome.
//! - `host`: `serve`, the way from arguments, input and output to a form.
#![tactic(auto)]

mod arguments;
mod commands;
mod host;
mod lines;

pub use arguments::{Form, number, read_clients_max, read_profile};
pub use commands::{CommandFault, refuse};
pub use host::{fault_of, serve, words};
pub use lines::{LINE_BYTES, line_of, put_line};
