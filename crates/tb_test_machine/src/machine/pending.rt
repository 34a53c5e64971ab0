//! Pending transfers: their posts and voids, the closing of an account, and expiry.
use crate::machine::rows::{AccountRow, TransferRow as Row};
use crate::machine::serving::{PROFILES, serve};
use crate::machine::steps::{BEGIN, Step};
use tb_records::{AccountFlag, CreateTransferResult as Outcome, Operation, Profile};

/// Posts of the whole, of 15 and of nothing.
const POSTS: [Step; 14] = [
    Step::Single(Row::Held(20, 40), Outcome::Ok),
    Step::Single(Row::Post(21, 20, u128::MAX), Outcome::Ok),
    Step::Single(Row::Held(22, 40), Outcome::Ok),
    Step::Single(Row::Post(23, 22, 15), Outcome::Ok),
    Step::Single(Row::Held(24, 40), Outcome::Ok),
    Step::Single(Row::Post(25, 24, 0), Outcome::Ok),
    Step::First([0, 55, 0, 0]),
    Step::Id(21),
    Step::Id(23),
    Step::Id(25),
    Step::FoundResolved(14, Row::Post(21, 20, 40)),
    Step::FoundResolved(16, Row::Post(23, 22, 15)),
    Step::FoundResolved(18, Row::Post(25, 24, 0)),
    Step::Send(Operation::LookupTransfers),
];

/// A void, a second one, voids of less and of more than the whole, a post of what is not pending, and a post and a void of what was
/// posted.
const VOIDS: [Step; 16] = [
    Step::Single(Row::Held(30, 40), Outcome::Ok),
    Step::Single(Row::Void(31, 30, 0), Outcome::Ok),
    Step::Single(Row::Void(32, 30, 0), Outcome::PendingTransferAlreadyVoided),
    Step::Single(Row::Held(33, 40), Outcome::Ok),
    Step::Single(
        Row::Void(34, 33, 39),
        Outcome::PendingTransferHasDifferentAmount,
    ),
    Step::Single(Row::Void(34, 33, 41), Outcome::ExceedsPendingTransferAmount),
    Step::Single(Row::Post(36, 31, 0), Outcome::PendingTransferNotPending),
    Step::Single(Row::Post(26, 20, 0), Outcome::PendingTransferAlreadyPosted),
    Step::Single(Row::Void(26, 20, 0), Outcome::PendingTransferAlreadyPosted),
    Step::Id(31),
    Step::Id(32),
    Step::Id(34),
    Step::Id(36),
    Step::FoundResolved(22, Row::Void(31, 30, 40)),
    Step::Send(Operation::LookupTransfers),
    Step::First([40, 55, 0, 0]),
];

#[test]
fn voids_and_resolved_pendings(rt: HostRuntime) {
    serve(&rt, rt.alloc(), &PROFILES, &[&BEGIN, &POSTS, &VOIDS]);
}

/// Account 1, closed.
const CLOSED: AccountRow = AccountRow::Flagged(AccountFlag::Closed, 1);

/// A closing transfer, what is refused while its account is closed, and its void.
const CLOSED_AND_OPENED: [Step; 14] = [
    Step::Single(Row::Held(39, 5), Outcome::Ok),
    Step::Single(Row::Closing(40, 0), Outcome::Ok),
    Step::Id(1),
    Step::FoundAccount([5, 0, 0, 0], 11, CLOSED),
    Step::Send(Operation::LookupAccounts),
    Step::Single(Row::Plain(41, 1, 2, 1), Outcome::DebitAccountAlreadyClosed),
    Step::Single(Row::Plain(42, 2, 1, 1), Outcome::CreditAccountAlreadyClosed),
    Step::Single(Row::Post(43, 40, 0), Outcome::DebitAccountAlreadyClosed),
    Step::Single(Row::Void(44, 39, 0), Outcome::Ok),
    Step::Id(1),
    Step::FoundAccount([0, 0, 0, 0], 11, CLOSED),
    Step::Send(Operation::LookupAccounts),
    Step::Single(Row::Void(45, 40, 0), Outcome::Ok),
    Step::First([0, 0, 0, 0]),
];

/// The transfer that came while the account was closed comes again.
const OPEN_BY_ONE: [Step; 2] = [
    Step::Single(Row::Plain(41, 1, 2, 1), Outcome::Ok),
    Step::First([0, 1, 0, 0]),
];

/// By profile 2 it has failed permanently.
const FAILED_BY_TWO: [Step; 2] = [
    Step::Single(Row::Plain(41, 1, 2, 1), Outcome::IdAlreadyFailed),
    Step::First([0, 0, 0, 0]),
];

const CLOSED_BY_ONE: [&[Step]; 3] = [&BEGIN, &CLOSED_AND_OPENED, &OPEN_BY_ONE];

const CLOSED_BY_TWO: [&[Step]; 3] = [&BEGIN, &CLOSED_AND_OPENED, &FAILED_BY_TWO];

#[test]
fn closing_and_reopening(rt: HostRuntime) {
    serve(&rt, rt.alloc(), &[Profile::One], &CLOSED_BY_ONE);
    serve(&rt, rt.alloc(), &[Profile::Two], &CLOSED_BY_TWO);
}

/// A pending transfer holds its amount until the very moment it expires.
const EXPIRING: [Step; 12] = [
    Step::Moment(100),
    Step::Single(Row::Timed(1, 60, 40), Outcome::Ok),
    Step::Moment(1_000_000_099),
    Step::First([40, 0, 0, 0]),
    Step::Moment(1_000_000_100),
    Step::First([0, 0, 0, 0]),
    Step::Moment(1_000_000_101),
    Step::Single(Row::Post(61, 60, 0), Outcome::PendingTransferExpired),
    Step::Id(60),
    Step::Id(61),
    Step::FoundTransfer(100, Row::Timed(1, 60, 40)),
    Step::Send(Operation::LookupTransfers),
];

#[test]
fn expiry_at_the_moment(rt: HostRuntime) {
    serve(&rt, rt.alloc(), &PROFILES, &[&BEGIN, &EXPIRING]);
}

/// A closing transfer, a transfer that comes while its account is closed, and the moment at which it expires.
const CLOSED_FOR_A_SECOND: [Step; 5] = [
    Step::Moment(100),
    Step::Single(Row::TimedClosing(1, 62, 0), Outcome::Ok),
    Step::Moment(1_000_000_099),
    Step::Single(Row::Plain(63, 1, 2, 1), Outcome::DebitAccountAlreadyClosed),
    Step::Moment(1_000_000_100),
];

/// Timeouts that end after the last moment and before it.
const LONG: [Step; 3] = [
    Step::Moment(5_000_000_000_000_000_000),
    Step::Single(Row::Timed(4_294_967_295, 67, 1), Outcome::OverflowsTimeout),
    Step::Single(Row::Timed(4_000_000_000, 67, 1), Outcome::Ok),
];

/// The transfer that came comes again, and what is posted at the end.
const AGAIN_BY_ONE: [Step; 1] = [Step::Single(Row::Plain(63, 1, 2, 1), Outcome::Ok)];

const POSTED_BY_ONE: [Step; 1] = [Step::First([1, 1, 0, 0])];

/// By profile 2 it has failed permanently.
const AGAIN_BY_TWO: [Step; 1] = [Step::Single(Row::Plain(63, 1, 2, 1), Outcome::IdAlreadyFailed)];

const POSTED_BY_TWO: [Step; 1] = [Step::First([1, 0, 0, 0])];

const EXPIRED_BY_ONE: [&[Step]; 5] = [
    &BEGIN,
    &CLOSED_FOR_A_SECOND,
    &AGAIN_BY_ONE,
    &LONG,
    &POSTED_BY_ONE,
];

const EXPIRED_BY_TWO: [&[Step]; 5] = [
    &BEGIN,
    &CLOSED_FOR_A_SECOND,
    &AGAIN_BY_TWO,
    &LONG,
    &POSTED_BY_TWO,
];

#[test]
fn closing_expires_and_timeout_overflows(rt: HostRuntime) {
    serve(&rt, rt.alloc(), &[Profile::One], &EXPIRED_BY_ONE);
    serve(&rt, rt.alloc(), &[Profile::Two], &EXPIRED_BY_TWO);
}
