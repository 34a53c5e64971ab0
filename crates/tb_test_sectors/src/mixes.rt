//! Each combination of old and new sectors that a crash amid a commit may leave.
use crate::steps::{expect, expect_bytes, mixed, over, sure};
use std::alloc::Global;
use std::process::Abort;
use tb_sectors::{SectorReader, push_batch, push_cleared};

// A batch that takes three sectors, and the end of the one before it.
const BATCH: [u8; 1400] = [7; 1400];

/// The sectors of a batch.
pub(crate) fn sectors(
    rt: &impl Abort,
    alloc: Global,
    number: u64,
    begun: u16,
    kept: &[u8],
    bytes: &[u8],
) -> Vec<u8> {
    let mut out = Vec::new(alloc);
    expect(rt, number < 100);
    expect(rt, begun < 100);
    expect(rt, kept.len() <= 492);
    sure(rt, push_batch(&mut out, number, begun, kept, bytes));
    out
}

/// A file of eight sectors whose first one has the batch `head`.
pub(crate) fn created(rt: &impl Abort, alloc: Global) -> [u8; 4096] {
    let head = sectors(rt, alloc, 0, 0, &[], b"head");
    over(rt, &[0; 4096], 0, &head)
}

/// A file is read to its end, and has this stream.
pub(crate) fn expect_stream(
    rt: &impl Abort,
    alloc: Global,
    file: &[u8; 4096],
    first: &[u8],
    more: &[u8],
) {
    let mut reader = SectorReader::new(alloc);
    let damaged = sure(rt, reader.read_on(file));
    expect(rt, damaged.is_none());
    expect(rt, reader.whole().len() == first.len() + more.len());
    let (head, rest) = reader.whole().split_at(first.len());
    expect_bytes(rt, head, first);
    expect_bytes(rt, rest, more);
}

/// Each of the combinations of eight sectors reads as the batch whole, if all of its sectors are there, or as not there.
fn expect_all_or_none(
    rt: &impl Abort,
    alloc: Global,
    old: &[u8; 4096],
    new: &[u8; 4096],
    changed: u32,
) {
    for mask in 0..256u32 {
        let left = mixed(old, new, mask);
        if mask & changed == changed {
            expect_stream(rt, alloc, &left, b"head", &BATCH);
        } else {
            expect_stream(rt, alloc, &left, b"head", &[]);
        }
    }
}

#[test]
fn a_batch_that_shares_a_sector_is_whole_or_not_there(rt: HostRuntime) {
    let alloc = rt.alloc();
    let old = created(&rt, alloc);
    let new = over(&rt, &old, 0, &sectors(&rt, alloc, 1, 1, b"head", &BATCH));
    expect_all_or_none(&rt, alloc, &old, &new, 0b111);
}

#[test]
fn a_batch_in_new_sectors_is_whole_or_not_there(rt: HostRuntime) {
    let alloc = rt.alloc();
    let old = created(&rt, alloc);
    let new = over(&rt, &old, 1, &sectors(&rt, alloc, 1, 0, &[], &BATCH));
    expect_all_or_none(&rt, alloc, &old, &new, 0b1110);
}

#[test]
fn a_torn_end_is_cleared(rt: HostRuntime) {
    let alloc = rt.alloc();
    let old = created(&rt, alloc);
    let new = over(&rt, &old, 0, &sectors(&rt, alloc, 1, 1, b"head", &BATCH));
    let mut cleared = Vec::new(alloc);
    sure(&rt, push_cleared(&mut cleared, 1, 1, b"head", 2));
    for mask in 0..8u32 {
        let left = mixed(&old, &new, mask);
        expect_bytes(&rt, &over(&rt, &left, 0, &cleared), &old);
    }
}

#[test]
fn a_lost_write_is_damage_at_the_next_sector(rt: HostRuntime) {
    let alloc = rt.alloc();
    let old = created(&rt, alloc);
    // A second batch shares the first sector, which loses it; a third one begins in the next sector.
    let left = over(&rt, &old, 1, &sectors(&rt, alloc, 2, 0, &[], b"third"));
    let mut reader = SectorReader::new(alloc);
    expect(&rt, sure(&rt, reader.read_on(&left)) == Some(1));
}

#[test]
fn a_blank_first_sector_begins_no_empty_journal(rt: HostRuntime) {
    let alloc = rt.alloc();
    let left = over(
        &rt,
        &[0; 4096],
        1,
        &sectors(&rt, alloc, 1, 0, &[], b"second"),
    );
    let mut reader = SectorReader::new(alloc);
    expect(&rt, sure(&rt, reader.read_on(&left)) == Some(0));
}

#[test]
fn zeros_are_an_empty_journal(rt: HostRuntime) {
    let mut reader = SectorReader::new(rt.alloc());
    expect(&rt, sure(&rt, reader.read_on(&[0; 4096])).is_none());
    expect(&rt, reader.count() == 0);
}

/// The bytes of a sector, byte by byte: number 2, two batches begun, six bytes used, the last batch ends after six; and its checksum, which was computed
/// bit by bit elsewhere.
#[test]
fn the_bytes_of_a_sector(rt: HostRuntime) {
    let alloc = rt.alloc();
    let found = sectors(&rt, alloc, 1, 1, b"head", b"ab");
    expect(&rt, found.len() == 512);
    let (stamp, rest) = found.split_at(20);
    expect_bytes(
        &rt,
        stamp,
        &[
            2, 0, 0, 0, 0, 0, 0, 0, 2, 0, 6, 0, 6, 0, 0, 0, 200, 234, 189, 35,
        ],
    );
    let (bytes, zeros) = rest.split_at(6);
    expect_bytes(&rt, bytes, b"headab");
    expect(&rt, zeros.iter().all(|byte| *byte == 0));
}
