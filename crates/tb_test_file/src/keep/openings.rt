//! A file that is opened, of which one call fails.
use crate::keep::scripts::{COUNT, kept_bytes};
use crate::steps::{expect_same, file_of, rules};
use std::alloc::Global;
use std::process::Abort;
use tb_file::{Keeper, StartFault};
use tb_file_journal::{JournalFault, OpenFault};

/// Why a file of these bytes is not opened if its call of this number fails.
fn fault_at(rt: &impl Abort, alloc: Global, bytes: &[u8], number: u64) -> Option<StartFault> {
    let mut file = file_of(rt, alloc, bytes);
    file.fail_at(number);
    match Keeper::open(alloc, alloc, file, rules(rt)) {
        Ok(keeper) => {
            drop(keeper);
            None
        }
        Err(failed) => {
            let fault = failed.fault;
            drop(failed);
            Some(fault)
        }
    }
}

/// A fault of a sync, and one of another call.
const UNSYNCED: Option<StartFault> = Some(StartFault::Journal(OpenFault::Device(
    JournalFault::SyncFailed,
)));

const FAILED: Option<StartFault> = Some(StartFault::Journal(OpenFault::Device(
    JournalFault::Failed,
)));

/// What is reported if each call of an opening fails in turn: a sync, reads of the file and of its end, its length, and a cut and its sync.
const FAULTS: &[(u64, Option<StartFault>)] = &[
    (1, UNSYNCED),
    (2, FAILED),
    (3, FAILED),
    (4, FAILED),
    (5, FAILED),
    (6, UNSYNCED),
    (7, None),
];

#[test]
fn each_call_of_an_opening_fails_once(rt: HostRuntime) {
    let alloc = rt.alloc();
    let bytes = kept_bytes(&rt, alloc, COUNT);
    for (number, want) in FAULTS {
        expect_same(&rt, fault_at(&rt, alloc, &bytes, *number), *want);
    }
    drop(bytes);
}
