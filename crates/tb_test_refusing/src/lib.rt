//! An allocator over another one, for tests: it refuses one allocation, or all from one on, and counts its blocks and bytes.
//!
//! Module:
//!
//! - `heap`: `Refusing`, the allocator, and what it counts.
#![tactic(auto)]

pub mod heap;

pub use heap::{Refusing, Tally};
