//! A commit and a reserve over a file in memory.
use crate::steps::{expect, expect_bytes, sure};
use tb_sectors::{
    MemorySectors, RESERVE_MAX, RESERVE_MIN, SectorFault, SectorFile, commit, next_reserve, reserve,
};

#[test]
fn a_reserve_and_a_commit_are_one_write_and_one_sync_each(rt: HostRuntime) {
    let alloc = rt.alloc();
    let mut file = sure(&rt, MemorySectors::new(alloc, Vec::new(alloc)));
    sure(&rt, reserve(&mut file, 0, &[0; 1024]));
    expect_bytes(&rt, file.bytes(), &[0; 1024]);
    expect(&rt, file.moments() == 2);
    sure(&rt, commit(&mut file, 0, &[7; 512]));
    expect(&rt, file.moments() == 4);
    let (sector, zeros) = file.bytes().split_at(512);
    expect_bytes(&rt, sector, &[7; 512]);
    expect_bytes(&rt, zeros, &[0; 512]);
}

#[test]
fn a_reserve_doubles_a_file_within_two_bounds(rt: HostRuntime) {
    expect(&rt, next_reserve(0) == RESERVE_MIN);
    expect(&rt, next_reserve(100_000) == 100_000);
    expect(&rt, next_reserve(1 << 30) == RESERVE_MAX);
}

/// A failed write changes nothing that is read; after a failed sync no later one adds a moment at which the file is durable.
#[test]
fn each_call_fails_in_turn(rt: HostRuntime) {
    let alloc = rt.alloc();
    let mut file = sure(&rt, MemorySectors::new(alloc, Vec::new(alloc)));
    file.fail_at(1);
    expect(
        &rt,
        commit(&mut file, 0, &[7; 512]) == Err(SectorFault::Failed),
    );
    expect_bytes(&rt, file.bytes(), &[]);
    expect(&rt, file.moments() == 1);
    file.fail_at(3);
    expect(&rt, file.len() == Ok(0));
    expect(
        &rt,
        commit(&mut file, 0, &[7; 512]) == Err(SectorFault::Failed),
    );
    expect_bytes(&rt, file.bytes(), &[7; 512]);
    expect(&rt, file.moments() == 2);
    expect(&rt, file.sync() == Ok(()));
    expect(&rt, file.moments() == 2);
    file.fail_at(1);
    expect(
        &rt,
        file.read_at(0, &mut [0; 4]) == Err(SectorFault::Failed),
    );
    file.fail_at(1);
    expect(&rt, file.len() == Err(SectorFault::Failed));
}
