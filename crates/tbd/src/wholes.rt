//! The whole entries among bytes that a start cuts off.

use crate::host_names::HostNames;
use std::alloc::{AllocError, Global};
use std::format;
use tb_edge_names::open_to_read;
use tb_file_journal::{Scan, checksum_of};

/// The latch at the end of a journal's records.
const CLOSED: &[u8] = &[90, 195, 150, 105];

/// `count` whole entries, the first of which has the number `first`.
#[derive(Clone, Copy)]
pub struct Wholes {
    first: u64,
    count: u64,
}

/// The record of the block that the bytes begin with, after its latch, and the bytes after it; None if it is not whole.
fn block(bytes: &[u8]) -> Option<(&[u8], &[u8])> {
    match bytes {
        [a, b, c, s, t, u, v, rest @ ..] => {
            let len = u32::from_le_bytes([*a, *b, *c, 0]) as usize;
            let sum = u32::from_le_bytes([*s, *t, *u, *v]);
            let (record, behind) = rest.split_at_checked(len)?;
            if checksum_of(&[*a, *b, *c], record) == sum {
                Some((record, behind))
            } else {
                None
            }
        }
        _ => None,
    }
}

/// The number of the entry of a record: its commit number.
fn number(record: &[u8]) -> Option<u64> {
    match record {
        [a, b, c, d, e, f, g, h, ..] => {
            Some(u64::from_le_bytes([*a, *b, *c, *d, *e, *f, *g, *h]))
        }
        _ => None,
    }
}

/// The number of the next entry in the history of the file of this path, whose records end before this offset. None if they
/// are not read.
fn next_number(rt: &HostRuntime, path: &str, at: usize) -> Option<u64> {
    let mut file = open_to_read(&mut HostNames::new(rt), path).ok()?.file;
    let mut scan = Scan::start(rt.alloc(), &mut file).ok()?;
    let mut last = 0_u64;
    for _ in 0..at {
        match scan.next(&mut file) {
            // A ledger's head has fewer bytes than a number.
            Ok(true) => last = number(scan.record()).unwrap_or(0),
            _ => break,
        }
    }
    Some(last.saturating_add(1))
}

impl Wholes {
    /// The entries that bytes begin with, if they would continue the history of the file of this path; the bytes are in that
    /// file from this offset on. The file is read only if there is an entry.
    pub fn behind(rt: &HostRuntime, path: &str, at: usize, bytes: &[u8]) -> Wholes {
        let wholes = Wholes::of(bytes);
        if wholes.count > 0 && next_number(rt, path, at) == Some(wholes.first) {
            wholes
        } else {
            Wholes { first: 0, count: 0 }
        }
    }

    /// The entries that bytes begin with after a latch, each of which has the next number.
    fn of(bytes: &[u8]) -> Wholes {
        let mut wholes = Wholes { first: 0, count: 0 };
        let mut rest = bytes;
        for _ in 0..bytes.len() {
            let Some((record, behind)) = block(rest) else {
                break;
            };
            if !wholes.takes(number(record)) {
                break;
            }
            match behind.split_at_checked(CLOSED.len()) {
                Some((latch, next)) if latch != CLOSED => rest = next,
                _ => break,
            }
        }
        wholes
    }

    /// Counts the entry of this number, if that is the next one.
    fn takes(&mut self, number: Option<u64>) -> bool {
        let Some(number) = number else {
            return false;
        };
        if self.count == 0 {
            self.first = number;
        }
        let next = self.first.saturating_add(self.count);
        if number == next {
            self.count = self.count.saturating_add(1);
        }
        number == next
    }

    /// How many they are, and their numbers.
    pub fn text(self, alloc: Global) -> Result<String, AllocError> {
        let first = self.first;
        match self.count {
            0 => format!(in alloc; "0 whole entries"),
            1 => format!(in alloc; "1 whole entry ({first})"),
            count => {
                let last = first.saturating_add(count).saturating_sub(1);
                format!(in alloc; "{count} whole entries ({first} to {last})")
            }
        }
    }
}
