//! Each byte of a small file damaged.
use crate::mixes::{created, expect_stream, sectors};
use crate::steps::{FILE_BYTES, expect, over, sure};
use std::alloc::Global;
use std::process::Abort;
use tb_sectors::SectorReader;

// The batches of the file take two sectors; the others are reserved.
const TAKEN: usize = 2;

/// A file of eight sectors: the batch `head` in the first one, the batch `second` in the next one, and zeros.
pub(crate) fn two_batches(rt: &impl Abort, alloc: Global) -> [u8; 4096] {
    let head = created(rt, alloc);
    over(rt, &head, 1, &sectors(rt, alloc, 1, 0, &[], b"second"))
}

/// With this change of one byte the file is damaged at its sector, or at the end of the batches if that is earlier. One byte alone closes no latch.
fn expect_named(rt: &impl Abort, alloc: Global, file: &[u8; 4096], at: usize, change: u8) {
    let mut rotten = *file;
    expect(rt, at < FILE_BYTES);
    rotten[at] ^= change;
    let place = at % 512;
    if place == 14 || place == 15 {
        expect_stream(rt, alloc, &rotten, b"head", b"second");
    } else {
        let mut reader = SectorReader::new(alloc);
        let damaged = sure(rt, reader.read_on(&rotten));
        expect(rt, damaged == Some((at / 512).min(TAKEN)));
    }
}

#[test]
fn each_byte_with_one_bit_changed_is_named(rt: HostRuntime) {
    let alloc = rt.alloc();
    let file = two_batches(&rt, alloc);
    for at in 0..FILE_BYTES {
        expect_named(&rt, alloc, &file, at, 1 << (at % 8) as u32);
    }
}

#[test]
fn each_byte_inverted_is_named(rt: HostRuntime) {
    let alloc = rt.alloc();
    let file = two_batches(&rt, alloc);
    for at in 0..FILE_BYTES {
        expect_named(&rt, alloc, &file, at, 255);
    }
}
