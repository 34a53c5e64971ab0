//! What machines, scripts and dumps do, only by public calls: worked examples, value for value and byte for byte.
//!
//! Modules, each over those before it:
//!
//! - `scripts`: scripts and wanted replies, put together field by field.
//! - `fixtures`: transfers that balance and that close, besides those of tb_test_fixtures.
//! - `rows`: accounts and transfers as data.
//! - `steps`: a script as data: each step with its reply.
//! - `frames`: frames in hexadecimal.
//! - `machines`: requests as data, and machines that they move on.
//! - `records`: what the machine's own lookups find.
//! - `forms`: `run`, `dump` and `replay` as one call, of whose reads and writes one may go wrong.
//! - `serving`: scripts served.
//! - `accounts`: accounts that are created or refused.
//! - `amounts`: balancing, and sums that would pass 128 bits.
//! - `chains`: chains undone or left open, and failed ids.
//! - `pending`: posts, voids, closing and expiry.
//! - `sessions`: registers, repeats, refusals and evictions, by scripts.
//! - `asking`: no call is repeated, and what was read gets its reply.
//! - `faults`: scripts that end before their time.
//! - `dumps`: scripts dumped, dumps replayed.
mod accounts;
mod amounts;
mod asking;
mod chains;
mod dumps;
mod faults;
mod fixtures;
mod forms;
pub(crate) mod frames;
pub(crate) mod machines;
mod pending;
mod records;
pub(crate) mod rows;
pub(crate) mod scripts;
mod serving;
mod sessions;
mod steps;
