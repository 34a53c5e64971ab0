//! Journals over a file in memory: worked examples, byte for byte, and what a crash or a call that fails leaves; and a file of the
//! system that is long.
//!
//! Modules, each over those before it:
//!
//! - `rows`: a file's bytes, call by call.
//! - `files`: what a crash leaves of a file in memory.
//! - `openings`: files opened, refused or created over.
//! - `failing`: a device that fails at one call.
//! - `readings`: files read record by record, and snapshots of them.
//! - `sparse`: a file of more than 5 GiB.
mod failing;
mod files;
mod openings;
mod readings;
mod rows;
mod sparse;
