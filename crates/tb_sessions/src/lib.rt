//! The sessions of clients: how a request relates to what its client sent last, and which session ends if there are too many.
//!
//! Modules, each over those before it:
//!
//! - `classes`: `Class`, how a request relates to its client's session.
//! - `rows`: `Row`, what is kept of a client; the class of a request by it.
//! - `eviction`: the client that is evicted next: the first one in the second map, after it was moved up to its row's commit number if it was at an
//!   earlier one.
//! - `table`: `Sessions`, rows by client in one `AvlMap`, and a second from a commit number to its client.
//!
//! A client is in the second map at its row's commit number, or at one that its row had before. Only in a full table
//! is the first client moved up to its row's number, and only while it is at an earlier one.
#![tactic(auto)]

mod classes;
mod eviction;
mod rows;
mod table;

pub use classes::Class;
pub use rows::Row;
pub use table::Sessions;
