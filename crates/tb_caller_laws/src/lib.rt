//! What holds of the clients of a server: over a file, across crashes; over seats, and over ports.
//!
//! - `laws`: functions that do nothing.
#![tactic(auto)]

pub mod laws;
