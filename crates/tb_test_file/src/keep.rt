//! Kept ledgers over a file in memory: they are served, opened again, dumped and copied.
//!
//! Modules, each over those before it:
//!
//! - `scripts`: scripts by the bytes of the formats, and what serves them.
//! - `dumps`: the history of a file, read without a write.
//! - `openings`: a file that is opened, of which one call fails.
//! - `rounds`: a machine in a pool, and the limits of a commit.
//! - `salvaging`: files that are salvaged or backed up.
pub mod dumps;
mod openings;
mod rounds;
mod salvaging;
pub mod scripts;
