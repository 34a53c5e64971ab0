//! A file that is salvaged and one that is backed up, as new files.
use crate::keep::dumps::kept_file;
use crate::keep::scripts::{COUNT, bytes_of, kept_bytes};
use crate::steps::{expect_equal, expect_same, file_of, sure};
use tb_file::{backup, salvage};

/// Where the entries of the script's file end.
const END: u64 = 725;

#[test]
fn a_whole_file_is_taken_over_whole(rt: HostRuntime) {
    let alloc = rt.alloc();
    let mut from = kept_file(&rt, alloc);
    let salvaged = sure(&rt, salvage(alloc, &mut from, file_of(&rt, alloc, &[])));
    drop(from);
    expect_same(&rt, (salvaged.end, salvaged.stop), (END, None));
    let left = bytes_of(&rt, alloc, salvaged.keeper);
    expect_equal(&rt, left, kept_bytes(&rt, alloc, COUNT));
}

#[test]
fn a_backup_is_the_same_file(rt: HostRuntime) {
    let alloc = rt.alloc();
    let mut from = kept_file(&rt, alloc);
    let keeper = sure(&rt, backup(alloc, &mut from, file_of(&rt, alloc, &[])));
    drop(from);
    let left = bytes_of(&rt, alloc, keeper);
    expect_equal(&rt, left, kept_bytes(&rt, alloc, COUNT));
}
