//! A machine whose records are in a pool, and the limits of a commit.
use crate::keep::scripts::{COUNT, kept, script, served};
use crate::steps::{expect, expect_equal, expect_given, file_of, rules, sure};
use bumpalo::Bump;
use std::alloc::Global;
use std::process::Abort;
use tb_file::{BATCH_BYTES_MAX, HELD_BYTES_MAX, Keeper};

/// The replies that serving the pairs of the script from `first` on over a file gives, with the machine's records in a pool, and the bytes of the
/// file then.
fn kept_in_pool(rt: &impl Abort, alloc: Global, bytes: &[u8], first: usize) -> (Vec<u8>, Vec<u8>) {
    let file = file_of(rt, alloc, bytes);
    let script = script(rt, alloc, first, COUNT);
    let pool = Bump::new(alloc);
    let keeper = sure(rt, Keeper::start(alloc, &pool, file, rules(rt)));
    let kept = served(rt, alloc, keeper, &script);
    drop(pool);
    drop(script);
    kept
}

#[test]
fn a_machine_in_a_pool_tells_and_keeps_the_same(rt: HostRuntime) {
    let alloc = rt.alloc();
    let (told, bytes) = kept_in_pool(&rt, alloc, &[], 0);
    let (want, file) = kept(&rt, alloc, COUNT);
    expect_given(&rt, want, &told);
    expect_given(&rt, file, &bytes);
    // Opened in another pool: the last request is a repeat.
    let (again, left) = kept_in_pool(&rt, alloc, &bytes, COUNT - 1);
    expect_equal(&rt, left, bytes);
    expect(&rt, told.ends_with(&again));
    drop(told);
    drop(again);
}

#[test]
fn limits_of_a_commit(rt: HostRuntime) {
    expect(&rt, HELD_BYTES_MAX == 1048576);
    expect(&rt, BATCH_BYTES_MAX == 4194304);
}
