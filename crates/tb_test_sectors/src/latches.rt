//! Closed latches: what is after one does not count, and commits with two syncs.
use crate::mixes::expect_stream;
use crate::rot::two_batches;
use crate::steps::{FILE_BYTES, expect, expect_bytes, sure};
use std::alloc::Global;
use std::process::Abort;
use tb_sectors::{
    MemoryRanges, SectorReader, close_latch, commit_after_latch, push_batch, push_closed_batch,
};

/// The file with these two bytes for the latch of its first sector.
fn latched(file: &[u8; 4096], latch: [u8; 2]) -> [u8; 4096] {
    let mut new = *file;
    new[14..16].copy_from_slice(&latch);
    new
}

#[test]
fn nothing_after_a_closed_latch_counts(rt: HostRuntime) {
    let alloc = rt.alloc();
    let file = latched(&two_batches(&rt, alloc), [90, 195]);
    expect_stream(&rt, alloc, &file, b"head", &[]);
    for at in 512..FILE_BYTES {
        let mut torn = file;
        expect(&rt, at < FILE_BYTES);
        torn[at] ^= 255;
        expect_stream(&rt, alloc, &torn, b"head", &[]);
    }
}

#[test]
fn any_other_bytes_are_an_open_latch(rt: HostRuntime) {
    let alloc = rt.alloc();
    let file = two_batches(&rt, alloc);
    for byte in 0..255u8 {
        if byte != 90 {
            expect_stream(&rt, alloc, &latched(&file, [byte, 195]), b"head", b"second");
        }
        if byte != 195 {
            expect_stream(&rt, alloc, &latched(&file, [90, byte]), b"head", b"second");
        }
    }
}

/// A journal whose commits have two syncs, with the batch `head`, on a disk of which nothing is assumed.
fn closed_head(rt: &impl Abort, alloc: Global) -> MemoryRanges {
    let mut head = Vec::new(alloc);
    sure(rt, push_closed_batch(&mut head, 0, b"head"));
    expect(rt, head.len() == 512);
    sure(rt, MemoryRanges::new(alloc, head))
}

/// The sectors of a batch after the batch of this number, with a closed latch at the end.
fn closed_sectors(rt: &impl Abort, alloc: Global, number: u64, bytes: &[u8]) -> Vec<u8> {
    let mut out = Vec::new(alloc);
    expect(rt, number < 100);
    sure(rt, push_closed_batch(&mut out, number, bytes));
    out
}

/// Commits with two syncs, and returns whether the batch was acknowledged.
fn is_committed(rt: &impl Abort, file: &mut MemoryRanges, end: usize, sectors: &[u8]) -> bool {
    expect(rt, 512 <= end);
    expect(rt, end <= file.bytes().len());
    commit_after_latch(file, end, sectors).is_ok()
}

/// A file is read up to its closed latch, and has so many bytes in so many sectors.
fn expect_read(rt: &impl Abort, alloc: Global, file: &[u8], bytes: usize, count: usize) {
    expect(rt, file.len() % 512 == 0);
    expect(rt, file.len() < 10_000);
    let mut reader = SectorReader::new(alloc);
    expect(rt, sure(rt, reader.read_on(file)).is_none());
    expect(rt, reader.whole().len() == bytes);
    expect(rt, reader.count() == count);
}

/// The latch of a sector has these bytes.
fn expect_latch(rt: &impl Abort, file: &[u8], sector: usize, latch: [u8; 2]) {
    expect(rt, sector < 10);
    expect(rt, sector * 512 + 16 <= file.len());
    expect_bytes(rt, &file[sector * 512 + 14..sector * 512 + 16], &latch);
}

#[test]
fn a_commit_with_two_syncs_leaves_the_last_latch_closed(rt: HostRuntime) {
    let alloc = rt.alloc();
    let mut file = closed_head(&rt, alloc);
    expect_latch(&rt, file.bytes(), 0, [90, 195]);
    expect_read(&rt, alloc, file.bytes(), 4, 1);
    let large = closed_sectors(&rt, alloc, 1, &[7; 1400]);
    expect(&rt, is_committed(&rt, &mut file, 512, &large));
    expect_read(&rt, alloc, file.bytes(), 1404, 4);
    for sector in 0..3 {
        expect_latch(&rt, file.bytes(), sector, [0, 0]);
    }
    expect_latch(&rt, file.bytes(), 3, [90, 195]);
    let small = closed_sectors(&rt, alloc, 2, b"third");
    expect(&rt, is_committed(&rt, &mut file, 2048, &small));
    expect_read(&rt, alloc, file.bytes(), 1409, 5);
}

/// The two writes and the two syncs of a commit fail in turn: until the latch was opened, the batch does not count.
#[test]
fn each_call_of_a_commit_with_two_syncs_fails(rt: HostRuntime) {
    let alloc = rt.alloc();
    let second = closed_sectors(&rt, alloc, 1, b"second");
    for call in 1..6 {
        let mut file = closed_head(&rt, alloc);
        file.fail_at(call);
        expect(
            &rt,
            is_committed(&rt, &mut file, 512, &second) == (call == 5),
        );
        if call < 4 {
            expect_read(&rt, alloc, file.bytes(), 4, 1);
        } else {
            expect_read(&rt, alloc, file.bytes(), 10, 2);
        }
    }
}

#[test]
fn a_journal_with_one_sync_goes_on_with_two(rt: HostRuntime) {
    let alloc = rt.alloc();
    let mut head = Vec::new(alloc);
    sure(&rt, push_batch(&mut head, 0, 0, &[], b"head"));
    expect(&rt, head.len() == 512);
    let mut file = sure(&rt, MemoryRanges::new(alloc, head));
    expect(&rt, file.bytes().len() == 512);
    sure(&rt, close_latch(&mut file, 512));
    expect_latch(&rt, file.bytes(), 0, [90, 195]);
    let second = closed_sectors(&rt, alloc, 1, b"second");
    expect(&rt, is_committed(&rt, &mut file, 512, &second));
    expect_read(&rt, alloc, file.bytes(), 10, 2);
}
