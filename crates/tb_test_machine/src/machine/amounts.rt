//! Single transfers: those that balance an account, and sums that would pass 128 bits.
use crate::machine::rows::{AccountRow, TransferRow as Row};
use crate::machine::serving::{PROFILES, serve};
use crate::machine::steps::{BEGIN, Step};
use tb_records::{
    AccountFlag, CreateAccountResult as AccountOutcome, CreateTransferResult as Outcome, Operation,
};

/// A balancing debit of 80 from an account that has 50 left, and its repeats.
const DEBIT_LOWERED: [Step; 11] = [
    Step::Single(Row::Plain(1, 2, 1, 100), Outcome::Ok),
    Step::Single(Row::Plain(2, 1, 2, 20), Outcome::Ok),
    Step::Single(Row::Held(3, 30), Outcome::Ok),
    Step::First([30, 20, 0, 100]),
    Step::Single(Row::DebitBalanced(4, 1, 2, 80), Outcome::Ok),
    Step::Single(Row::DebitBalanced(4, 1, 2, 80), Outcome::Exists),
    Step::Single(Row::DebitBalanced(4, 1, 2, 50), Outcome::Exists),
    Step::Single(
        Row::DebitBalanced(4, 1, 2, 49),
        Outcome::ExistsWithDifferentAmount,
    ),
    Step::Id(4),
    Step::FoundTransfer(17, Row::DebitBalanced(4, 1, 2, 50)),
    Step::Send(Operation::LookupTransfers),
];

#[test]
fn balancing_debit_lowers(rt: HostRuntime) {
    serve(&rt, rt.alloc(), &PROFILES, &[&BEGIN, &DEBIT_LOWERED]);
}

/// One more, when nothing is left.
const DEBIT_TO_ZERO: [Step; 5] = [
    Step::Single(Row::DebitBalanced(5, 1, 2, 10), Outcome::Ok),
    Step::Id(5),
    Step::FoundTransfer(22, Row::DebitBalanced(5, 1, 2, 0)),
    Step::Send(Operation::LookupTransfers),
    Step::First([30, 70, 0, 100]),
];

#[test]
fn balancing_debit_to_zero(rt: HostRuntime) {
    let parts: [&[Step]; 3] = [&BEGIN, &DEBIT_LOWERED, &DEBIT_TO_ZERO];
    serve(&rt, rt.alloc(), &PROFILES, &parts);
}

/// Either side can be what limits a transfer that balances both. An account created closed takes none.
const BOTH_WAYS: [Step; 21] = [
    Step::Account(AccountRow::Plain(3), AccountOutcome::Ok),
    Step::Send(Operation::CreateAccounts),
    Step::Single(Row::Plain(1, 2, 1, 100), Outcome::Ok),
    Step::Single(Row::Plain(2, 3, 2, 30), Outcome::Ok),
    Step::Single(Row::BothBalanced(3, 1, 3, 80), Outcome::Ok),
    Step::Single(Row::BothBalanced(3, 1, 3, 80), Outcome::Exists),
    Step::Single(Row::BothBalanced(3, 1, 3, 30), Outcome::Exists),
    Step::Single(
        Row::BothBalanced(3, 1, 3, 29),
        Outcome::ExistsWithDifferentAmount,
    ),
    Step::Single(Row::DebitBalanced(4, 1, 3, 80), Outcome::Ok),
    Step::Single(Row::DebitBalanced(5, 1, 2, 80), Outcome::Ok),
    Step::Account(
        AccountRow::Flagged(AccountFlag::Closed, 6),
        AccountOutcome::Ok,
    ),
    Step::Send(Operation::CreateAccounts),
    Step::Single(Row::Plain(6, 1, 6, 1), Outcome::CreditAccountAlreadyClosed),
    Step::Id(3),
    Step::Id(4),
    Step::Id(5),
    Step::Id(6),
    Step::FoundTransfer(16, Row::BothBalanced(3, 1, 3, 30)),
    Step::FoundTransfer(20, Row::DebitBalanced(4, 1, 3, 70)),
    Step::FoundTransfer(21, Row::DebitBalanced(5, 1, 2, 0)),
    Step::Send(Operation::LookupTransfers),
];

#[test]
fn balancing_both_ways(rt: HostRuntime) {
    serve(&rt, rt.alloc(), &PROFILES, &[&BEGIN, &BOTH_WAYS]);
}

const OVERFLOWS: [Step; 7] = [
    Step::Single(Row::Plain(1, 1, 2, u128::MAX), Outcome::Ok),
    Step::Single(Row::Plain(2, 1, 2, 1), Outcome::OverflowsDebitsPosted),
    Step::First([0, u128::MAX, 0, 0]),
    Step::Id(2),
    Step::Id(1),
    Step::FoundTransfer(13, Row::Plain(1, 1, 2, u128::MAX)),
    Step::Send(Operation::LookupTransfers),
];

#[test]
fn sums_overflow(rt: HostRuntime) {
    serve(&rt, rt.alloc(), &PROFILES, &[&BEGIN, &OVERFLOWS]);
}
