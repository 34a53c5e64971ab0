//! What a crash leaves of a file in memory: worked examples.
use crate::steps::{expect, expect_bytes, expect_given, expect_same, file_of, sure};
use std::alloc::Global;
use std::process::Abort;
use tb_file_journal::{Device, JournalFault, Memory};

/// A file `abcdef`.
const SIX: [u8; 6] = [97, 98, 99, 100, 101, 102];

/// A call on a file.
#[derive(Clone, Copy)]
enum Call {
    Write(usize, &'static [u8]),
    Cut(usize),
    Sync,
    Len,
    /// The call of this number from here on fails; or it fails with this fault.
    FailAt(u64),
    FailWith(u64, JournalFault),
}

/// A result without a number, as 0.
fn numbered(answer: Result<(), JournalFault>) -> Result<usize, JournalFault> {
    match answer {
        Ok(()) => Ok(0),
        Err(fault) => Err(fault),
    }
}

/// What a call returns.
fn answer(rt: &impl Abort, file: &mut Memory, call: Call) -> Result<usize, JournalFault> {
    match call {
        Call::Write(at, bytes) => {
            expect(rt, file.bytes().len() >= at);
            numbered(file.write_at(at, bytes))
        }
        Call::Cut(len) => {
            expect(rt, file.bytes().len() >= len);
            numbered(file.cut(len))
        }
        Call::Sync => numbered(file.sync()),
        Call::Len => file.len(),
        Call::FailAt(number) => {
            file.fail_at(number);
            Ok(0)
        }
        Call::FailWith(number, why) => {
            file.fail_with(number, why);
            Ok(0)
        }
    }
}

/// The file `abcdef` after these calls, each of which returns this result.
fn after_calls(
    rt: &impl Abort,
    alloc: Global,
    calls: &[(Call, Result<usize, JournalFault>)],
) -> Memory {
    let mut file = file_of(rt, alloc, &SIX);
    for (call, want) in calls {
        expect_same(rt, answer(rt, &mut file, *call), *want);
    }
    file
}

/// Calls on the file `abcdef`, each with its result, and what they leave: this many moments, these bytes, and rows of what crashes leave, each at
/// a moment, with these bytes in the place of what was torn.
struct Case {
    calls: &'static [(Call, Result<usize, JournalFault>)],
    moments: usize,
    bytes: &'static [u8],
    left: &'static [(usize, &'static [u8], &'static [u8])],
}

fn expect_case(rt: &impl Abort, alloc: Global, case: &Case) {
    let file = after_calls(rt, alloc, case.calls);
    expect_bytes(rt, file.bytes(), case.bytes);
    expect(rt, file.moments() == case.moments);
    for (moment, torn, want) in case.left {
        expect(rt, *moment <= file.moments());
        expect_given(rt, sure(rt, file.after_crash(*moment, torn)), want);
    }
    drop(file);
}

const CASES: &[Case] = &[
    // A write is torn.
    Case {
        calls: &[(Call::Write(4, &[88, 89, 90]), Ok(0))],
        moments: 1,
        bytes: &[97, 98, 99, 100, 88, 89, 90],
        left: &[
            (0, &[7], &SIX),
            (1, &[7], &[97, 98, 99, 100, 7, 102]),
            (1, &[7, 8, 9, 10], &[97, 98, 99, 100, 7, 8, 9]),
        ],
    },
    // A cut leaves a length between.
    Case {
        calls: &[(Call::Cut(2), Ok(0))],
        moments: 1,
        bytes: &[97, 98],
        left: &[(1, &[], &[97, 98]), (1, &[0], &[97, 98, 99])],
    },
    // Nothing is torn behind a sync.
    Case {
        calls: &[(Call::Write(1, &[66]), Ok(0)), (Call::Sync, Ok(0))],
        moments: 2,
        bytes: &[97, 66, 99, 100, 101, 102],
        left: &[(2, &[7, 7], &[97, 66, 99, 100, 101, 102])],
    },
    // Nothing is kept behind a sync that failed.
    Case {
        calls: &[
            (Call::Write(1, &[66]), Ok(0)),
            (Call::FailAt(1), Ok(0)),
            (Call::Sync, Err(JournalFault::SyncFailed)),
            (Call::Sync, Ok(0)),
        ],
        moments: 1,
        bytes: &[97, 66, 99, 100, 101, 102],
        left: &[(1, &[7, 7], &[97, 7, 99, 100, 101, 102])],
    },
    // A call fails with the fault that is named.
    Case {
        calls: &[
            (Call::FailWith(1, JournalFault::Full), Ok(0)),
            (Call::Write(1, &[66]), Err(JournalFault::Full)),
            (Call::FailWith(1, JournalFault::Memory), Ok(0)),
            (Call::Len, Err(JournalFault::Memory)),
            (Call::FailWith(1, JournalFault::NotEmpty), Ok(0)),
            (Call::Len, Err(JournalFault::Failed)),
            (Call::FailWith(1, JournalFault::Memory), Ok(0)),
            (Call::Sync, Err(JournalFault::SyncFailed)),
        ],
        moments: 1,
        bytes: &SIX,
        left: &[],
    },
    // One call fails.
    Case {
        calls: &[
            (Call::FailAt(2), Ok(0)),
            (Call::Sync, Ok(0)),
            (Call::Len, Err(JournalFault::Failed)),
            (Call::Len, Ok(6)),
        ],
        moments: 1,
        bytes: &SIX,
        left: &[],
    },
];

#[test]
fn what_a_crash_leaves(rt: HostRuntime) {
    for case in CASES {
        expect_case(&rt, rt.alloc(), case);
    }
}
