//! Tests of the library that writes batches over sectors, only by its public calls: so it is not proved a second time for its tests.
//!
//! Modules:
//!
//! - `steps`: what each test wants, and files of a few sectors.
//! - `mixes`: each combination of old and new sectors that a crash amid a commit may leave.
//! - `latches`: what is after a closed latch, and commits with two syncs.
//! - `rot`: each byte of a small file damaged.
//! - `records`: records in the bytes of batches.
//! - `devices`: a commit and a reserve over a file in memory, and calls that fail.
#![tactic(auto)]

#[cfg(test)]
mod devices;
#[cfg(test)]
mod latches;
#[cfg(test)]
mod mixes;
#[cfg(test)]
mod records;
#[cfg(test)]
mod rot;
#[cfg(test)]
mod steps;
