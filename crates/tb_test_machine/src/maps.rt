//! The map in use, at the keys that the books have.
//!
//! Module:
//!
//! - `map_tests`: how far a search goes, and what becomes of spare nodes.
mod map_tests;
