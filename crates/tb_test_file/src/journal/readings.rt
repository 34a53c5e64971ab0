//! Files that are read record by record, and snapshots of them.
use crate::journal::rows::THREE_RECORDS;
use crate::steps::{expect, expect_bytes, expect_same, file_of, sure};
use std::alloc::Global;
use tb_file_journal::{Device, JournalFault, Memory, OpenFault, Scan, Snapshot, read_journal};

const RECORDS: &[&[u8]] = &[b"ab", b"", b"second"];

#[test]
fn a_snapshot_is_read_record_by_record(rt: HostRuntime) {
    let alloc = rt.alloc();
    let file = file_of(&rt, alloc, &THREE_RECORDS);
    let mut snapshot = sure(&rt, Snapshot::new(alloc, file));
    let mut scan = sure(&rt, Scan::start(alloc, &mut snapshot));
    for want in RECORDS {
        expect_same(&rt, scan.next(&mut snapshot), Ok(true));
        expect_bytes(&rt, scan.record(), want);
    }
    expect_same(&rt, scan.next(&mut snapshot), Ok(false));
    sure(&rt, snapshot.refresh());
    scan.go_on();
    expect_same(&rt, scan.next(&mut snapshot), Ok(false));
    let extent = scan.extent();
    drop(scan);
    drop(snapshot);
    expect_same(&rt, (extent.end, extent.count), (49, 3));
}

#[test]
fn a_snapshot_is_not_written(rt: HostRuntime) {
    let alloc = rt.alloc();
    let file = file_of(&rt, alloc, &THREE_RECORDS);
    let mut snapshot = sure(&rt, Snapshot::new(alloc, file));
    let refused = Err(JournalFault::Failed);
    expect_same(&rt, snapshot.write_at(18, &[255]), refused);
    expect_same(&rt, snapshot.cut(8), refused);
    expect_same(&rt, snapshot.sync(), Ok(()));
    expect_same(&rt, snapshot.file_len(), Ok(53));
    drop(snapshot);
}

/// The bytes before a record of 131,072 bytes, each of them 7.
const BEFORE: [u8; 19] = [
    84, 66, 74, 82, 78, 76, 48, 50, //
    255, 255, 255, 255, 0, 0, 2, 0xc6, 0x41, 0x8f, 0xbd,
];

const CLOSED: [u8; 4] = [90, 195, 150, 105];

/// The file of that record, which is read in several pieces, if there is memory for it.
fn long_file(alloc: Global) -> Option<Memory> {
    let mut bytes = Vec::from_slice(alloc, &BEFORE).ok()?;
    bytes.resize(BEFORE.len() + 131_072, 7).ok()?;
    bytes.extend_from_slice(&CLOSED).ok()?;
    Memory::new(alloc, bytes).ok()
}

/// If no memory is left, the fault says so: `rt try --test --fail-alloc n` refuses the nth allocation of each test, including that of the window
/// and its growth.
#[test]
fn a_growth_may_be_refused(rt: HostRuntime) {
    let alloc = rt.alloc();
    if let Some(mut file) = long_file(alloc) {
        let found = read_journal(alloc, &mut file);
        drop(file);
        match found {
            Ok(extent) => expect(&rt, extent.count == 1),
            Err(fault) => expect_same(&rt, fault, OpenFault::Device(JournalFault::Memory)),
        }
    }
}
