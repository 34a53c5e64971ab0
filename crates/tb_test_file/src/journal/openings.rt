//! Files that are opened, refused or created over: worked examples.
use crate::journal::rows::{NO_RECORDS, ONE_RECORD, THREE_RECORDS};
use crate::steps::{copy_of, expect_given, expect_same, file_of};
use std::alloc::Global;
use std::process::Abort;
use tb_file_journal::{
    Journal, JournalFault, Memory, NotOpened, OpenFault, Refusal, create, recover,
};

/// The file of a record without bytes, whose checksum is that of three bytes of 0.
const EMPTY_RECORD: [u8; 23] = [
    84, 66, 74, 82, 78, 76, 48, 50, //
    255, 255, 255, 255, 0, 0, 0, 122, 163, 100, 96, //
    90, 195, 150, 105,
];

/// The same, and three bytes after its closed latch.
const MORE_BEHIND: [u8; 26] = [
    84, 66, 74, 82, 78, 76, 48, 50, //
    255, 255, 255, 255, 0, 0, 0, 122, 163, 100, 96, //
    90, 195, 150, 105, 1, 2, 3,
];

/// The same file, in which a byte of the checksum is another.
const BAD_CHECKSUM: [u8; 23] = [
    84, 66, 74, 82, 78, 76, 48, 50, //
    255, 255, 255, 255, 0, 0, 0, 123, 163, 100, 96, //
    90, 195, 150, 105,
];

/// The same file, cut within its closed latch.
const CUT_SHORT: [u8; 21] = [
    84, 66, 74, 82, 78, 76, 48, 50, //
    255, 255, 255, 255, 0, 0, 0, 122, 163, 100, 96, //
    90, 195,
];

/// The record without bytes ends there.
const DAMAGED_AT_THE_END: Result<usize, OpenFault> = Err(OpenFault::Refused(Refusal::Damaged {
    at: 19,
}));

/// Compares what opening a file returns, the number of its records or a fault, and the file's bytes then.
fn expect_opened(
    rt: &impl Abort,
    alloc: Global,
    opened: Result<Journal<Memory>, NotOpened<Memory>>,
    want: Result<usize, OpenFault>,
    left: &[u8],
) {
    match opened {
        Ok(journal) => {
            expect_same(rt, Ok(journal.count()), want);
            expect_given(rt, copy_of(rt, alloc, journal.device().bytes()), left);
            drop(journal);
        }
        Err(failed) => {
            expect_same(rt, Err(failed.fault), want);
            expect_given(rt, copy_of(rt, alloc, failed.device.bytes()), left);
            drop(failed);
        }
    }
}

/// Opens a file of these bytes.
fn expect_recovered(
    rt: &impl Abort,
    alloc: Global,
    bytes: &[u8],
    want: Result<usize, OpenFault>,
    left: &[u8],
) {
    let opened = recover(alloc, file_of(rt, alloc, bytes));
    expect_opened(rt, alloc, opened, want, left);
}

/// Files that are opened. What is behind the closed latch is cut off, and a file that is refused stays as it was.
const OPENED: &[(&[u8], Result<usize, OpenFault>, &[u8])] = &[
    (&ONE_RECORD, Ok(1), &ONE_RECORD),
    (&THREE_RECORDS, Ok(3), &THREE_RECORDS),
    (&MORE_BEHIND, Ok(1), &EMPTY_RECORD),
    (
        &BAD_CHECKSUM,
        Err(OpenFault::Refused(Refusal::Damaged { at: 8 })),
        &BAD_CHECKSUM,
    ),
    (&CUT_SHORT, DAMAGED_AT_THE_END, &CUT_SHORT),
    (
        b"hello",
        Err(OpenFault::Refused(Refusal::NotAJournal)),
        b"hello",
    ),
];

#[test]
fn files_are_opened_or_refused(rt: HostRuntime) {
    for (bytes, want, left) in OPENED {
        expect_recovered(&rt, rt.alloc(), bytes, *want, left);
    }
}

/// Latches that are open, though some of their bytes are those of a closed one.
const OPEN: &[[u8; 4]] = &[
    [90, 255, 255, 255],
    [90, 195, 255, 255],
    [90, 195, 150, 255],
    [90, 195, 150, 104],
    [90, 195, 151, 105],
    [90, 194, 150, 105],
    [91, 195, 150, 105],
    [0, 0, 0, 0],
];

/// Records end at no such latch: they go on after it, and at the end of a file it is damage.
#[test]
fn four_bytes_close_a_latch(rt: HostRuntime) {
    for latch in OPEN {
        let [w, x, y, z] = *latch;
        let first = [
            84, 66, 74, 82, 78, 76, 48, 50, //
            w, x, y, z, 0, 0, 0, 122, 163, 100, 96, //
            90, 195, 150, 105,
        ];
        expect_recovered(&rt, rt.alloc(), &first, Ok(1), &first);
        let last = [
            84, 66, 74, 82, 78, 76, 48, 50, //
            255, 255, 255, 255, 0, 0, 0, 122, 163, 100, 96, //
            w, x, y, z,
        ];
        expect_recovered(&rt, rt.alloc(), &last, DAMAGED_AT_THE_END, &last);
    }
}

/// Files that a journal is created in: an empty one, one of a creation that was cut short, and another file, which is left alone.
const CREATED: &[(&[u8], Result<usize, OpenFault>, &[u8])] = &[
    (&[], Ok(0), &NO_RECORDS),
    (&[84, 66, 0, 0], Ok(0), &NO_RECORDS),
    (
        b"hello",
        Err(OpenFault::Device(JournalFault::NotEmpty)),
        b"hello",
    ),
];

#[test]
fn journals_are_created_in_blank_files(rt: HostRuntime) {
    let alloc = rt.alloc();
    for (bytes, want, left) in CREATED {
        let opened = create(alloc, file_of(&rt, alloc, bytes));
        expect_opened(&rt, alloc, opened, *want, left);
    }
}
