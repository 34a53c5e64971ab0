//! A device that fails at one call.
use crate::journal::rows::ONE_RECORD;
use crate::steps::{expect_same, file_of, sure};
use std::alloc::Global;
use std::process::Abort;
use tb_file_journal::{JournalFault, OpenFault, recover};

/// Opens a journal of one record and commits another, over a device whose call of this number fails in this way.
fn committed(
    rt: &impl Abort,
    alloc: Global,
    number: u64,
    why: JournalFault,
) -> Result<(), OpenFault> {
    let mut file = file_of(rt, alloc, &ONE_RECORD);
    file.fail_with(number, why);
    match recover(alloc, file) {
        Ok(mut journal) => {
            sure(rt, journal.append(b"second"));
            let committed = journal.commit();
            drop(journal);
            match committed {
                Ok(()) => Ok(()),
                Err(fault) => Err(OpenFault::Device(fault)),
            }
        }
        Err(failed) => {
            let fault = failed.fault;
            drop(failed);
            Err(fault)
        }
    }
}

/// How that ends.
fn want_at(number: u64, why: JournalFault) -> Result<(), OpenFault> {
    match number {
        // Opening a journal takes a sync, two looks, a cut and a sync. A commit takes a write, a sync, a write and a sync.
        1 | 5 | 7 | 9 => Err(OpenFault::Device(JournalFault::SyncFailed)),
        2..=4 | 6 | 8 => Err(OpenFault::Device(why)),
        _ => Ok(()),
    }
}

/// Each failure keeps its name.
const FAULTS: &[JournalFault] = &[
    JournalFault::Failed,
    JournalFault::Full,
    JournalFault::Memory,
];

#[test]
fn each_call_of_a_small_run_fails_once(rt: HostRuntime) {
    for number in 0..=10u64 {
        for why in FAULTS {
            let found = committed(&rt, rt.alloc(), number, *why);
            expect_same(&rt, found, want_at(number, *why));
        }
    }
}
