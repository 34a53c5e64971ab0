//! Accounts that are created or refused, and the most of them in one request.
use crate::comparing::holds_at;
use crate::machine::rows::{AccountRow, TransferRow as Row};
use crate::machine::scripts::{Head, Script};
use crate::machine::serving::{PROFILES, expect, serve};
use crate::machine::steps::{BEGIN, Step, put_steps};
use std::alloc::Global;
use std::process::Abort;
use tb_machine::RunFault;
use tb_records::{
    AccountFlag, CreateAccountResult as AccountOutcome, CreateTransferResult as Outcome,
    FrameFault, Operation,
};
use tb_test_fixtures::account;

/// Nine accounts, of which the last is right.
const REFUSALS: [Step; 15] = [
    Step::Account(AccountRow::Plain(0), AccountOutcome::IdMustNotBeZero),
    Step::Account(
        AccountRow::Plain(u128::MAX),
        AccountOutcome::IdMustNotBeIntMax,
    ),
    Step::Account(
        AccountRow::Limited(3),
        AccountOutcome::FlagsAreMutuallyExclusive,
    ),
    Step::Account(
        AccountRow::InLedger(0, 3),
        AccountOutcome::LedgerMustNotBeZero,
    ),
    Step::Account(AccountRow::OfCode(0, 3), AccountOutcome::CodeMustNotBeZero),
    Step::Account(
        AccountRow::Flagged(AccountFlag::Imported, 3),
        AccountOutcome::ReservedFlag,
    ),
    Step::Account(AccountRow::Plain(1), AccountOutcome::Exists),
    Step::Account(
        AccountRow::InLedger(701, 1),
        AccountOutcome::ExistsWithDifferentLedger,
    ),
    Step::Account(AccountRow::Plain(3), AccountOutcome::Ok),
    Step::Send(Operation::CreateAccounts),
    Step::Id(3),
    Step::Id(1),
    Step::FoundAccount([0; 4], 21, AccountRow::Plain(3)),
    Step::FoundAccount([0; 4], 11, AccountRow::Plain(1)),
    Step::Send(Operation::LookupAccounts),
];

#[test]
fn account_refusals(rt: HostRuntime) {
    serve(&rt, rt.alloc(), &PROFILES, &[&BEGIN, &REFUSALS]);
}

/// Puts accounts 1 to 8190 into one request, of 1,048,320 bytes.
fn put_most(rt: &impl Abort, script: &mut Script) {
    for id in 1u64..8191 {
        script.put_account(rt, &account(id as u128), 0);
    }
    script.send(rt, Operation::CreateAccounts);
}

/// Looks three of them up.
const THREE_OF_MOST: [Step; 6] = [
    Step::Id(8190),
    Step::Id(8191),
    Step::Id(1),
    Step::FoundAccount([0; 4], 8200, AccountRow::Plain(8190)),
    Step::FoundAccount([0; 4], 11, AccountRow::Plain(1)),
    Step::Send(Operation::LookupAccounts),
];

/// A request that announces one account more is refused.
fn expect_too_many(rt: &impl Abort, alloc: Global) {
    let mut script = Script::new(alloc);
    script.register(rt, 7, 1);
    script.ask_header(rt, Head::of_seven(1, Operation::CreateAccounts), 1_048_448);
    let fault = RunFault::Frame(FrameFault::TooMany);
    expect(rt, script, 2, &PROFILES, Err(fault));
}

/// A script whose second frame ends after 47 bytes: the first reply is written.
fn expect_cut(rt: &impl Abort, alloc: Global) {
    let mut script = Script::new(alloc);
    script.register(rt, 7, 1);
    script.ask_header(rt, Head::of_seven(1, Operation::CreateAccounts), 0);
    script.bytes.truncate(56 + 8 + 47);
    let fault = RunFault::Frame(FrameFault::Short);
    expect(rt, script, 2, &PROFILES, Err(fault));
}

/// Client 7 creates accounts 1 to 8190 in one request, and looks three up.
#[test]
fn largest_body_and_cut_script(rt: HostRuntime) {
    expect_too_many(&rt, rt.alloc());
    expect_cut(&rt, rt.alloc());
    let mut script = Script::new(rt.alloc());
    script.register(&rt, 7, 1);
    put_most(&rt, &mut script);
    // two pairs of a moment and a header, and the body
    let length = script.bytes.len();
    holds_at(&rt, length == 112 + 1_048_320, &length);
    put_steps(&rt, &mut script, &THREE_OF_MOST);
    let requests = script.requests;
    expect(&rt, script, 2, &PROFILES, Ok(requests));
}

/// An account whose debits must not exceed its credits, and one whose credits must not exceed its debits.
const DEBITS: AccountRow = AccountRow::Flagged(AccountFlag::DebitsMustNotExceedCredits, 3);

const CREDITS: AccountRow = AccountRow::Flagged(AccountFlag::CreditsMustNotExceedDebits, 4);

const LIMITS: [Step; 16] = [
    Step::Account(DEBITS, AccountOutcome::Ok),
    Step::Account(CREDITS, AccountOutcome::Ok),
    Step::Send(Operation::CreateAccounts),
    Step::Single(Row::Plain(80, 3, 1, 1), Outcome::ExceedsCredits),
    Step::Single(Row::Plain(81, 1, 4, 1), Outcome::ExceedsDebits),
    Step::Single(Row::Plain(82, 3, 1, 0), Outcome::Ok),
    Step::Id(4),
    Step::Id(3),
    Step::FoundAccount([0; 4], 14, CREDITS),
    Step::FoundAccount([0; 4], 13, DEBITS),
    Step::Send(Operation::LookupAccounts),
    Step::Id(80),
    Step::Id(81),
    Step::Id(82),
    Step::FoundTransfer(17, Row::Plain(82, 3, 1, 0)),
    Step::Send(Operation::LookupTransfers),
];

#[test]
fn limits_of_accounts(rt: HostRuntime) {
    serve(&rt, rt.alloc(), &PROFILES, &[&BEGIN, &LIMITS]);
}
