//! Storms: client threads before a server.
//!
//! Module:
//!
//! - `tests`: lines and totals.
mod tests;
