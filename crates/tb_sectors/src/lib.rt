//! Batches in a file, each durable after one write and one sync, over a disk whose sectors are old or new after a crash.
//!
//! Modules:
//!
//! - `devices`: `SectorFile`, a file on such a disk, and `RangeFile`, one on a disk of which nothing is assumed: what a crash may leave.
//! - `memory`: `MemorySectors` and `MemoryRanges`, such files in memory, whose calls can fail.
//! - `checksums`: CRC-32C.
//! - `tables`: the remainders of each byte with zeros after it, for CRC-32C.
//! - `encoding`: a batch as the bytes of its sectors.
//! - `reading`: `SectorReader`, the sectors of a file taken in order.
//! - `records`: records in the bytes of a batch, and in those of a stream.
//! - `writing`: a batch with one sync or two, what clears a torn one, and zeros ahead of the batches.
//! - `laws`: what holds of such a disk, and of every journal in the stamped format.
#![tactic(auto)]

mod checksums;
mod devices;
mod encoding;
pub mod laws;
mod memory;
mod reading;
mod records;
mod tables;
mod writing;

pub use devices::{RangeFile, SectorFault, SectorFile};
pub use encoding::{BYTES_IN_A_SECTOR, SECTOR_BYTES, push_batch, push_cleared, push_closed_batch};
pub use memory::{MemoryRanges, MemorySectors};
pub use reading::SectorReader;
pub use records::{STREAM_BEGINS, first_length, push_record};
pub use writing::{
    RESERVE_MAX, RESERVE_MIN, clear, close_latch, commit, commit_after_latch, next_reserve, reserve,
};
