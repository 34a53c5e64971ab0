//! What several tests and tools make or do: accounts, transfers and bodies of requests, each named by the fields in which it
//! differs (ledger 700 and code 10 otherwise). Also input in turns, waiting for a thread, and freeing what a call did not
//! take.
//!
//! Modules:
//!
//! - `records`: accounts and transfers, as they are asked for and as they are found.
//! - `bodies`: what requests carry.
//! - `waiting`: whether another thread has begun, or a number is as great.
//! - `turns`: a reader that waits for answers, and a writer that holds them back.
//! - `outcomes`: whether a call took what it was passed.
#![tactic(auto)]

mod bodies;
mod outcomes;
mod records;
mod turns;
mod waiting;

pub use bodies::{creation, lookup, transfers};
pub use outcomes::is_taken;
pub use records::{
    account, account_with, at, found, held, linked, post, transfer, transfer_with, void,
    with_timeout,
};
pub use turns::{Holding, Turn, Waiting};
pub use waiting::{has_begun, reaches};
