//! What is reported of faults of the system.
use crate::steps::expect_same;
use std::io::{self, ErrorKind};
use tb_edge_file::{KeepCommandFault, OpeningFault, opening_fault, words_fault};
use tb_file_journal::{FileFault, JournalFault};

/// What is reported of a fault.
fn opening_of(fault: FileFault) -> OpeningFault {
    let found = opening_fault(&fault);
    drop(fault);
    found
}

/// What is reported of arguments that the system gave this error for.
fn words_fault_of(kind: ErrorKind) -> KeepCommandFault {
    let error = io::Error::from(kind);
    let found = words_fault(&error);
    drop(error);
    found
}

/// What is reported of the system's errors.
const ERRORS: &[(ErrorKind, OpeningFault)] = &[
    (ErrorKind::NotFound, OpeningFault::Missing),
    (ErrorKind::PermissionDenied, OpeningFault::Forbidden),
    (ErrorKind::OutOfMemory, OpeningFault::NoMemory),
    (ErrorKind::NotADirectory, OpeningFault::Unopened),
    (ErrorKind::IsADirectory, OpeningFault::NotAFile),
];

#[test]
fn a_fault_of_the_system_is_told_as_what_it_is(rt: HostRuntime) {
    expect_same(&rt, opening_of(FileFault::Locked), OpeningFault::Locked);
    let unsynced = opening_of(FileFault::Sync(JournalFault::SyncFailed));
    expect_same(&rt, unsynced, OpeningFault::SyncFailed);
    let unsynced = opening_of(FileFault::Sync(JournalFault::Memory));
    expect_same(&rt, unsynced, OpeningFault::NoMemory);
    for (kind, want) in ERRORS {
        let found = opening_of(FileFault::System(io::Error::from(*kind)));
        expect_same(&rt, found, *want);
    }
    let words = words_fault_of(ErrorKind::OutOfMemory);
    expect_same(&rt, words, KeepCommandFault::NoMemory);
    let words = words_fault_of(ErrorKind::InvalidData);
    expect_same(&rt, words, KeepCommandFault::Usage);
}
