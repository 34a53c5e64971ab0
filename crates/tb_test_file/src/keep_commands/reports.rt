//! How far a long file was read.
use crate::steps::{expect_given, expect_same, file_of, sure};
use std::alloc::Global;
use std::process::Abort;
use tb_edge_file::Reported;
use tb_file_journal::Device;
use tb_records::Counting;

/// The offsets of reads.
const FAR: &[usize] = &[0, 63_999_999, 64_000_000, 127_999_999, 200_000_000];

/// Reads at these offsets, reported to a writer or not.
fn read_far(rt: &impl Abort, alloc: Global, told: &mut Vec<u8>, reports: bool) {
    let memory = file_of(rt, alloc, &[]);
    let file = Reported::new(alloc, memory, "ledger", Counting::new(told), reports);
    let mut file = sure(rt, file);
    for at in FAR {
        expect_same(rt, file.read_at(*at, &mut [0; 8]), Ok(0));
    }
    drop(file);
}

/// Reads at these offsets are reported each 64 MB, and no others; nothing is reported if nobody asked.
#[test]
fn a_long_read_is_reported(rt: HostRuntime) {
    let alloc = rt.alloc();
    let mut told = Vec::new(alloc);
    read_far(&rt, alloc, &mut told, false);
    read_far(&rt, alloc, &mut told, true);
    let want: &[u8] = b"tbd: reading ledger, 64 of 0 MB\ntbd: reading ledger, 200 of 0 MB\n";
    expect_given(&rt, told, want);
}
