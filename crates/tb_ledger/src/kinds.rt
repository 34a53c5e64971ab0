//! The kinds of event: each is judged by the current tables, and changes them if it is accepted. Each group of tests is decided before the next looks
//! anything up.

mod account;
pub(crate) mod resolving;
mod transfer;
mod two_party;
