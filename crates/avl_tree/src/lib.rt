//! An ordered map whose nodes are boxed, balanced and reserved before they are used.
//!
//! Modules, each over those before it:
//!
//! - `tree`: a tree and its nodes, stored heights, rotations.
//! - `walks`: searches from the root: a key, the first entry, the nodes that a search visits.
//! - `eight`: eight searches, interleaved, so that their waits for memory overlap.
//! - `range`: the entries from one key to another.
//! - `updates`: a value changed in place.
//! - `pairs`: the values of two keys changed by one walk.
//! - `edits`: a value exchanged, an entry inserted or removed, and the way back up balanced.
//! - `freeing`: trees that are freed, two at a time, so that their waits for memory overlap.
//! - `spare`: nodes that have memory and no entry yet.
//! - `map`: `AvlMap`, all that callers use.
//! - `worked_rows`: the fewest nodes of a tree by its height, for the first heights (public).
#![tactic(auto)]

mod edits;
mod eight;
mod freeing;
mod map;
mod pairs;
mod range;
mod spare;
mod tree;
mod updates;
mod walks;
pub mod worked_rows;

pub use map::AvlMap;
