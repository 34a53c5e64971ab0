//! A journal: records in a file, each durable before it counts, and read again after a crash at any moment.
//!
//! Modules:
//!
//! - `faults`: why a call on a device or a journal failed.
//! - `devices`: `Device`, what a read returns, and what a crash may leave.
//! - `memory`: a file in memory that tears and fails, and reports what a crash may leave of it.
//! - `systems`: `System`, POSIX's calls on an open file.
//! - `posix`: `Posix`, a device over them.
//! - `real`: `Real`, the same over a file of the system, locked, of which nothing is known.
//! - `tables`: the remainders that CRC-32C looks up.
//! - `written`: `Written`, what writes a record where it waits.
//! - `batches`: records that wait, as the bytes that a commit writes.
//! - `journals`: `Journal`, with `append` and `commit`: blocks are written after the closed latch and synced, and then the latch is opened.
//! - `reading`: what is at the head of some bytes: the end, a whole block, or damage. CRC-32C, sixteen bytes at a time.
//! - `growing`: `Growing`, a file that another process appends to while it is read.
//! - `hops`: the blocks in a piece of it, followed by their lengths.
//! - `snapshots`: `Snapshot`, such a file as it was at one moment, as a device.
//! - `laws`: what holds of every file that grows.
//! - `scans`: `Scan`, a file read record by record, ahead in pieces of 64 KiB or one whole block; `read_journal`, to its end.
//! - `seeking`: `Seek`, which seeks a record at any offset of a file by its checksum, for example after damage.
//! - `opening`: `look`, what a file has; `create`, a journal in an empty file; `Journal::open` and `recover`, which cut off what follows the records.
//!
//! specs/Contents is what a file's bytes represent, specs/Device what each call of a device does, specs/Scans what was read of
//! a file, specs/Steps, Opening and Creating what the journal's calls leave.
#![tactic(auto)]

mod batches;
mod devices;
mod faults;
mod growing;
mod hops;
mod journals;
pub mod laws;
mod memory;
mod opening;
mod posix;
mod reading;
mod real;
mod scans;
mod seeking;
mod snapshots;
mod systems;
mod tables;
mod written;

pub use batches::LATCH_BYTES;
pub use devices::Device;
pub use faults::JournalFault;
pub use growing::Growing;
pub use journals::{FILE_BYTES_MAX, Journal, RECORD_BYTES_MAX};
pub use memory::Memory;
pub use opening::{FileContent, NotOpened, OpenFault, create, look, recover};
pub use posix::Posix;
pub use reading::{Extent, Refusal, checksum_of};
pub use real::{FileFault, HostFile, Real, sync_folder};
pub use scans::{Scan, read_journal};
pub use seeking::Seek;
pub use snapshots::Snapshot;
pub use systems::System;
pub use written::Written;
