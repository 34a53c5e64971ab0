//! A file of more than 5 GiB: what is beyond 4 GiB is written and read where it belongs.
use crate::steps::{copy_of, expect_given, expect_same, sure};
use std::alloc::Global;
use std::fs;
use std::process::Abort;
use tb_file_journal::{Device, Real};

/// Where the file goes on after a hole.
const FAR_BYTES: usize = 5 << 30;

/// What reads of twelve bytes return. An offset cut to 32 bits would be 1 GiB.
const READ: &[(usize, &[u8])] = &[
    (FAR_BYTES - 1, b"\0far away"),
    (1 << 30, &[0; 12]),
    (0, b"head\0\0\0\0\0\0\0\0"),
];

fn expect_read(rt: &impl Abort, alloc: Global, real: &mut Real, at: usize, want: &[u8]) {
    let mut found = copy_of(rt, alloc, &[7; 12]);
    let count = sure(rt, real.read_at(at, &mut found));
    found.truncate(count);
    expect_given(rt, found, want);
}

#[test]
fn bytes_behind_four_gigabytes(rt: HostRuntime) {
    let path = "bytes_behind_four_gigabytes.bin";
    drop(fs::remove_file(&rt, path));
    let mut real = sure(&rt, Real::make(&rt, path));
    sure(&rt, real.write_at(0, b"head"));
    sure(&rt, real.cut(FAR_BYTES));
    expect_same(&rt, real.len(), Ok(FAR_BYTES));
    sure(&rt, real.write_at(FAR_BYTES, b"far away"));
    sure(&rt, real.sync());
    expect_same(&rt, real.len(), Ok(FAR_BYTES + 8));
    for (at, want) in READ {
        expect_read(&rt, rt.alloc(), &mut real, *at, want);
    }
    drop(real);
    sure(&rt, fs::remove_file(&rt, path));
}
