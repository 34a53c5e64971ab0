//! Linked chains that are undone or left open, and ids that failed.
use crate::machine::rows::{AccountRow, TransferRow as Row};
use crate::machine::serving::{PROFILES, serve};
use crate::machine::steps::{BEGIN, Step};
use tb_records::{CreateTransferResult as Outcome, Operation, Profile};

/// A chain that its second event breaks.
const BROKEN: [Step; 13] = [
    Step::Transfer(Row::Linked(50, 1, 2, 1), Outcome::LinkedEventFailed),
    Step::Transfer(Row::Linked(51, 99, 2, 1), Outcome::DebitAccountNotFound),
    Step::Transfer(Row::Plain(52, 1, 2, 1), Outcome::LinkedEventFailed),
    Step::Send(Operation::CreateTransfers),
    Step::Id(1),
    Step::Id(2),
    Step::FoundAccount([0; 4], 11, AccountRow::Plain(1)),
    Step::FoundAccount([0; 4], 12, AccountRow::Plain(2)),
    Step::Send(Operation::LookupAccounts),
    Step::Id(50),
    Step::Id(51),
    Step::Id(52),
    Step::Send(Operation::LookupTransfers),
];

/// Chains that are open at the end of their batch, one of them broken before.
const LEFT_OPEN: [Step; 15] = [
    Step::Transfer(Row::Linked(53, 1, 2, 1), Outcome::LinkedEventChainOpen),
    Step::Send(Operation::CreateTransfers),
    Step::Transfer(Row::Linked(54, 1, 2, 1), Outcome::LinkedEventFailed),
    Step::Transfer(Row::Linked(55, 1, 2, 1), Outcome::LinkedEventChainOpen),
    Step::Send(Operation::CreateTransfers),
    Step::Transfer(Row::Linked(56, 99, 2, 1), Outcome::DebitAccountNotFound),
    Step::Transfer(Row::Linked(57, 1, 2, 1), Outcome::LinkedEventChainOpen),
    Step::Send(Operation::CreateTransfers),
    Step::Id(53),
    Step::Id(54),
    Step::Id(55),
    Step::Id(56),
    Step::Id(57),
    Step::Send(Operation::LookupTransfers),
    Step::First([0; 4]),
];

#[test]
fn chains_whole_or_not(rt: HostRuntime) {
    serve(&rt, rt.alloc(), &PROFILES, &[&BEGIN, &BROKEN, &LEFT_OPEN]);
}

/// A chain that is broken leaves the pending transfer open that it would have posted.
const BROKEN_POST: [Step; 9] = [
    Step::Single(Row::Held(64, 40), Outcome::Ok),
    Step::Transfer(
        Row::LinkedPost(65, 64, u128::MAX),
        Outcome::LinkedEventFailed,
    ),
    Step::Transfer(Row::Plain(66, 99, 2, 1), Outcome::DebitAccountNotFound),
    Step::Send(Operation::CreateTransfers),
    Step::First([40, 0, 0, 0]),
    Step::Id(65),
    Step::Send(Operation::LookupTransfers),
    Step::Single(Row::Post(65, 64, u128::MAX), Outcome::Ok),
    Step::First([0, 40, 0, 0]),
];

#[test]
fn broken_chain_frees_its_post(rt: HostRuntime) {
    serve(&rt, rt.alloc(), &PROFILES, &[&BEGIN, &BROKEN_POST]);
}

/// A transfer from an account that does not exist.
const FAILED_ALONE: [Step; 1] = [Step::Single(
    Row::Plain(70, 99, 2, 1),
    Outcome::DebitAccountNotFound,
)];

/// Another one, in a chain, and the id of the chain's first event again.
const FAILED_IN_A_CHAIN: [Step; 4] = [
    Step::Transfer(Row::Linked(71, 1, 2, 1), Outcome::LinkedEventFailed),
    Step::Transfer(Row::Plain(72, 99, 2, 1), Outcome::DebitAccountNotFound),
    Step::Send(Operation::CreateTransfers),
    Step::Single(Row::Plain(71, 1, 2, 1), Outcome::Ok),
];

/// The ids that failed come again, with an account that exists: by profile 1 they are free.
const FREE_AGAIN: [Step; 1] = [Step::Single(Row::Plain(70, 1, 2, 1), Outcome::Ok)];

const FREE_AT_LAST: [Step; 9] = [
    Step::Single(Row::Plain(72, 1, 2, 1), Outcome::Ok),
    Step::First([0, 3, 0, 0]),
    Step::Id(70),
    Step::Id(71),
    Step::Id(72),
    Step::FoundTransfer(14, Row::Plain(70, 1, 2, 1)),
    Step::FoundTransfer(17, Row::Plain(71, 1, 2, 1)),
    Step::FoundTransfer(18, Row::Plain(72, 1, 2, 1)),
    Step::Send(Operation::LookupTransfers),
];

/// By profile 2 they have failed.
const FAILED_AGAIN: [Step; 1] = [Step::Single(Row::Plain(70, 1, 2, 1), Outcome::IdAlreadyFailed)];

const FAILED_AT_LAST: [Step; 7] = [
    Step::Single(Row::Plain(72, 1, 2, 1), Outcome::IdAlreadyFailed),
    Step::First([0, 1, 0, 0]),
    Step::Id(70),
    Step::Id(71),
    Step::Id(72),
    Step::FoundTransfer(17, Row::Plain(71, 1, 2, 1)),
    Step::Send(Operation::LookupTransfers),
];

const FREE: [&[Step]; 5] = [
    &BEGIN,
    &FAILED_ALONE,
    &FREE_AGAIN,
    &FAILED_IN_A_CHAIN,
    &FREE_AT_LAST,
];

const FAILED: [&[Step]; 5] = [
    &BEGIN,
    &FAILED_ALONE,
    &FAILED_AGAIN,
    &FAILED_IN_A_CHAIN,
    &FAILED_AT_LAST,
];

#[test]
fn failed_id_is_refused_again(rt: HostRuntime) {
    serve(&rt, rt.alloc(), &[Profile::One], &FREE);
    serve(&rt, rt.alloc(), &[Profile::Two], &FAILED);
}

/// A failed id fails again in its own batch already, and ever after. An event that exists with other flags fails no id: once its chain is undone,
/// 75 is free.
const OUTLIVING: [Step; 9] = [
    Step::Transfer(Row::Plain(74, 99, 2, 1), Outcome::DebitAccountNotFound),
    Step::Transfer(Row::Plain(74, 1, 2, 1), Outcome::IdAlreadyFailed),
    Step::Send(Operation::CreateTransfers),
    Step::Transfer(Row::Linked(75, 1, 2, 1), Outcome::LinkedEventFailed),
    Step::Transfer(Row::Plain(75, 99, 2, 1), Outcome::ExistsWithDifferentFlags),
    Step::Send(Operation::CreateTransfers),
    Step::Single(Row::Plain(75, 1, 2, 1), Outcome::Ok),
    Step::Single(Row::Post(76, 999, 0), Outcome::PendingTransferNotFound),
    Step::Single(Row::Post(76, 999, 0), Outcome::IdAlreadyFailed),
];

#[test]
fn failed_ids_outlive_their_chain(rt: HostRuntime) {
    serve(&rt, rt.alloc(), &[Profile::Two], &[&BEGIN, &OUTLIVING]);
}
