//! Records in the bytes of batches.
use crate::mixes::sectors;
use crate::steps::{expect, expect_bytes, over, sure};
use std::alloc::Global;
use std::process::Abort;
use tb_sectors::{STREAM_BEGINS, SectorReader, first_length, push_record};

/// A record in three bytes of its length and its own.
fn spelled(rt: &impl Abort, alloc: Global, content: &[u8]) -> Vec<u8> {
    let mut bytes = Vec::new(alloc);
    expect(rt, content.len() < 16_777_216);
    sure(rt, push_record(&mut bytes, content));
    bytes
}

#[test]
fn a_record_is_after_three_bytes_of_its_length(rt: HostRuntime) {
    let alloc = rt.alloc();
    expect_bytes(&rt, &spelled(&rt, alloc, b"ab"), &[2, 0, 0, 97, 98]);
    let large = spelled(&rt, alloc, &[7; 70_000]);
    expect(&rt, large.len() == 70_003);
    let (length, _) = large.split_at(3);
    expect_bytes(&rt, length, &[112, 17, 1]);
}

#[test]
fn a_record_is_whole_or_not_there(rt: HostRuntime) {
    expect(&rt, first_length(&[]).is_none());
    expect(&rt, first_length(&[0, 0]).is_none());
    expect(&rt, first_length(&[0, 0, 0]) == Some(0));
    expect(&rt, first_length(&[2, 0, 0, 97]).is_none());
    expect(&rt, first_length(&[2, 0, 0, 97, 98, 5]) == Some(2));
    expect(&rt, first_length(&[0, 1, 0, 97, 98, 5]).is_none());
}

/// A journal of one record, read back from its sectors.
#[test]
fn a_record_is_read_back(rt: HostRuntime) {
    let alloc = rt.alloc();
    let head = sectors(&rt, alloc, 0, 0, &[], &STREAM_BEGINS);
    let batch = sectors(
        &rt,
        alloc,
        1,
        1,
        &STREAM_BEGINS,
        &spelled(&rt, alloc, b"ab"),
    );
    let file = over(&rt, &over(&rt, &[0; 4096], 0, &head), 0, &batch);
    let mut reader = SectorReader::new(alloc);
    expect(&rt, sure(&rt, reader.read_on(&file)).is_none());
    expect_bytes(&rt, reader.whole(), b"TBJRNL03\x02\x00\x00ab");
}
