//! The bytes of a journal's file, call by call.
use crate::steps::{expect_bytes, expect_same, file_of, sure};
use std::alloc::AllocError;
use std::process::Abort;
use tb_file_journal::{Journal, Memory, Written, create};

/// The file of a journal without records: `TBJRNL02`, and a closed latch.
pub(crate) const NO_RECORDS: [u8; 12] = [84, 66, 74, 82, 78, 76, 48, 50, 90, 195, 150, 105];

/// One record, `ab`. The checksum of `02 00 00 61 62` is 2693f789.
pub(crate) const ONE_RECORD: [u8; 25] = [
    84, 66, 74, 82, 78, 76, 48, 50, //
    255, 255, 255, 255, 2, 0, 0, 0x89, 0xf7, 0x93, 0x26, 97, 98, //
    90, 195, 150, 105,
];

/// The records `ab`, an empty one, and `second`.
pub(crate) const THREE_RECORDS: [u8; 53] = [
    84, 66, 74, 82, 78, 76, 48, 50, //
    255, 255, 255, 255, 2, 0, 0, 0x89, 0xf7, 0x93, 0x26, 97, 98, //
    255, 255, 255, 255, 0, 0, 0, 0x7a, 0xa3, 0x64, 0x60, //
    255, 255, 255, 255, 6, 0, 0, 0x53, 0x98, 0x6c, 0xa5, 115, 101, 99, 111, 110, 100, //
    90, 195, 150, 105,
];

/// Bytes that are written straight to where they wait.
#[derive(Clone, Copy)]
struct Bytes<'a> {
    bytes: &'a [u8],
}

impl<'a> Written for Bytes<'a> {
    ghost bytes = { λ b. b.bytes.now };

    fn write(&self, out: &mut Vec<u8>) -> Result<(), AllocError> {
        out.extend_from_slice(self.bytes)
    }
}

/// Compares the bytes of a journal's file, the number of the records in it, the number of those that wait, and the number of the bytes that
/// wait: one closed latch if no record waits.
fn expect_journal(
    rt: &impl Abort,
    journal: &Journal<Memory>,
    bytes: &[u8],
    counts: (usize, usize, usize),
) {
    expect_bytes(rt, journal.device().bytes(), bytes);
    let found = (journal.count(), journal.waiting(), journal.waiting_bytes());
    expect_same(rt, found, counts);
}

#[test]
fn a_record_counts_when_it_is_committed(rt: HostRuntime) {
    let alloc = rt.alloc();
    let mut journal = sure(&rt, create(alloc, file_of(&rt, alloc, &[])));
    expect_journal(&rt, &journal, &NO_RECORDS, (0, 0, 4));
    sure(&rt, journal.append(b"ab"));
    // A latch, a length, a checksum, two bytes, and the latch after them.
    expect_journal(&rt, &journal, &NO_RECORDS, (0, 1, 17));
    sure(&rt, journal.commit());
    expect_journal(&rt, &journal, &ONE_RECORD, (1, 0, 4));
    sure(&rt, journal.append_written(&Bytes { bytes: b"" }));
    sure(&rt, journal.append_written(&Bytes { bytes: b"second" }));
    expect_journal(&rt, &journal, &ONE_RECORD, (1, 2, 32));
    sure(&rt, journal.commit());
    expect_journal(&rt, &journal, &THREE_RECORDS, (3, 0, 4));
    drop(journal);
}
