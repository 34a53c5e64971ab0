//! The requests of worked examples, what they leave, and which of them ask for memory.
use crate::machine::machines::{Ask, Turn};
use crate::machine::rows::TransferRow as Row;
use tb_records::{CreateTransferResult, EventResult, Profile};

/// The moment at which most requests come.
pub(crate) const EARLY_NS: u64 = 10;

/// A moment at which a pending transfer that came at the early one with a timeout of a second has expired.
const LATE_NS: u64 = 2_000_000_000;

/// By a profile: the results of the last request, and what is pending and what was posted from account 1 to account 2.
pub(crate) type Left<'a> = (Profile, &'a [EventResult], (u128, u128));

/// Requests, what they leave, and which of them ask for memory.
#[derive(Clone, Copy)]
pub(crate) struct Rows<'a> {
    pub turns: &'a [Turn<'a>],
    pub left: [Left<'a>; 2],
    /// The commit numbers of the entries at which an allocation of the ledger's rows is made.
    pub growths: &'a [u64],
    /// How many chunks a pool of the rows asks for, and at which entries.
    pub chunks: (u64, &'a [u64]),
}

const REGISTER: Turn<'static> = (EARLY_NS, 0, Ask::Register);

const ACCOUNTS: Turn<'static> = (EARLY_NS, 1, Ask::TwoAccounts);

const LOOKUP: Turn<'static> = (EARLY_NS, 2, Ask::Lookup(&[2, 9, 1]));

/// From the first register to the transfer of 100.
const FIRST: [Turn<'static>; 4] = [
    REGISTER,
    ACCOUNTS,
    LOOKUP,
    (EARLY_NS, 3, Ask::Transfers(&[Row::Plain(11, 1, 2, 100)])),
];

/// A chain that its second event breaks, and that event's id again.
const CHAIN: [Turn<'static>; 5] = [
    REGISTER,
    ACCOUNTS,
    LOOKUP,
    (
        EARLY_NS,
        3,
        Ask::Transfers(&[
            Row::Linked(50, 1, 2, 1),
            Row::Linked(51, 99, 2, 1),
            Row::Plain(52, 1, 2, 1),
        ]),
    ),
    (
        EARLY_NS,
        4,
        Ask::Transfers(&[Row::Plain(51, 1, 2, 1), Row::Plain(53, 1, 2, 5)]),
    ),
];

/// Pending transfers, a post and a void, a chain that breaks after a post, and a post that comes too late.
const PENDING: [Turn<'static>; 7] = [
    REGISTER,
    ACCOUNTS,
    LOOKUP,
    (
        EARLY_NS,
        3,
        Ask::Transfers(&[
            Row::Timed(1, 20, 40),
            Row::Timed(1, 21, 30),
            Row::Timed(1, 22, 20),
        ]),
    ),
    (
        EARLY_NS,
        4,
        Ask::Transfers(&[Row::Post(23, 20, u128::MAX), Row::Void(24, 21, 0)]),
    ),
    (
        EARLY_NS,
        5,
        Ask::Transfers(&[Row::LinkedPost(25, 22, u128::MAX), Row::Plain(26, 99, 2, 1)]),
    ),
    (
        LATE_NS,
        6,
        Ask::Transfers(&[Row::Timed(1, 27, 5), Row::Post(28, 22, u128::MAX)]),
    ),
];

/// By profile 2 the id that broke the chain has failed permanently.
const FAILED: EventResult = EventResult {
    index: 0,
    result: CreateTransferResult::IdAlreadyFailed as u32,
};

const EXPIRED: EventResult = EventResult {
    index: 1,
    result: CreateTransferResult::PendingTransferExpired as u32,
};

/// Where the broken chain had made capacity and left no row, the entry after it asks for no memory.
pub(crate) const WORKED: [Rows<'static>; 3] = [
    Rows {
        turns: &FIRST,
        left: [(Profile::One, &[], (0, 100)), (Profile::Two, &[], (0, 100))],
        growths: &[2, 4],
        chunks: (2, &[2]),
    },
    Rows {
        turns: &CHAIN,
        left: [
            (Profile::One, &[], (0, 6)),
            (Profile::Two, &[FAILED], (0, 5)),
        ],
        growths: &[2, 4],
        chunks: (3, &[2, 4]),
    },
    Rows {
        turns: &PENDING,
        left: [
            (Profile::One, &[EXPIRED], (5, 40)),
            (Profile::Two, &[EXPIRED], (5, 40)),
        ],
        growths: &[2, 4, 5, 6],
        chunks: (3, &[2, 4]),
    },
];
