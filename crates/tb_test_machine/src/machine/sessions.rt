//! Registers, repeats, refusals and evictions, by scripts.
use crate::machine::rows::{AccountRow, TransferRow as Row};
use crate::machine::scripts::Script;
use crate::machine::serving::{PROFILES, expect, serve};
use crate::machine::steps::{BEGIN, Step, THIRD, put_steps};
use std::process::Abort;
use tb_records::{CreateTransferResult, Operation, Status};

#[test]
fn empty_script(rt: HostRuntime) {
    serve(&rt, rt.alloc(), &PROFILES, &[]);
}

#[test]
fn first_register(rt: HostRuntime) {
    serve(&rt, rt.alloc(), &PROFILES, &[&[Step::Register(7, 1)]]);
}

/// The history has one entry.
const REPEATED: [Step; 3] = [
    Step::Register(7, 1),
    Step::Register(7, 1),
    Step::Look(7, 1, 1, Status::Reply, 2),
];

#[test]
fn register_repeated(rt: HostRuntime) {
    serve(&rt, rt.alloc(), &PROFILES, &[&REPEATED]);
}

#[test]
fn accounts_looked_up_in_order(rt: HostRuntime) {
    serve(&rt, rt.alloc(), &PROFILES, &[&BEGIN, &THIRD]);
}

/// Transfer 11.
const HUNDRED: Row = Row::Plain(11, 1, 2, 100);

/// The transfer again gets the same reply; the request before it is older. The history has 4 entries, and what the transfer
/// left is looked up.
const REPEATED_AND_OLDER: [Step; 11] = [
    Step::Single(HUNDRED, CreateTransferResult::Ok),
    Step::Numbered(3, HUNDRED, Status::Reply, 4),
    Step::Again(2, Status::Older),
    Step::Id(11),
    Step::FoundTransfer(14, HUNDRED),
    Step::Send(Operation::LookupTransfers),
    Step::Id(1),
    Step::Id(2),
    Step::FoundAccount([0, 100, 0, 0], 11, AccountRow::Plain(1)),
    Step::FoundAccount([0, 0, 0, 100], 12, AccountRow::Plain(2)),
    Step::Send(Operation::LookupAccounts),
];

#[test]
fn transfer_repeated_and_older(rt: HostRuntime) {
    serve(
        &rt,
        rt.alloc(),
        &PROFILES,
        &[&BEGIN, &THIRD, &REPEATED_AND_OLDER],
    );
}

/// The history has 4 entries.
const REFUSED: [Step; 7] = [
    Step::Numbered(3, HUNDRED, Status::Reply, 4),
    Step::Numbered(3, Row::Plain(11, 1, 2, 101), Status::Collision, 0),
    Step::Look(7, 1, 5, Status::NewerRequest, 0),
    Step::Look(7, 2, 4, Status::NewerSession, 0),
    Step::Look(7, 0, 4, Status::SessionTooLow, 0),
    Step::Look(9, 1, 1, Status::NoSession, 0),
    Step::Look(7, 1, 4, Status::Reply, 5),
];

#[test]
fn each_refusal_by_its_class(rt: HostRuntime) {
    serve(&rt, rt.alloc(), &PROFILES, &[&BEGIN, &THIRD, &REFUSED]);
}

/// Client 8's reply has the least commit number, though 7 has the least session; then 7's is 3 and 9's is 4. Client 7's old
/// register makes a new session, and 9 goes.
const EVICTED: [Step; 9] = [
    Step::Register(7, 1),
    Step::Register(8, 2),
    Step::Look(7, 1, 1, Status::Reply, 3),
    Step::Register(9, 4),
    Step::Look(8, 2, 1, Status::NoSession, 0),
    Step::Register(8, 5),
    Step::Look(8, 2, 1, Status::SessionTooLow, 0),
    Step::Register(7, 6),
    Step::Look(9, 4, 1, Status::NoSession, 0),
];

#[test]
fn least_commit_is_evicted(rt: HostRuntime) {
    serve(&rt, rt.alloc(), &PROFILES, &[&EVICTED]);
}

/// A hundred clients register, and all but the last are then without a session.
fn put_hundred(rt: &impl Abort, script: &mut Script) {
    for client in 1u64..101 {
        script.register(rt, client as u128, client);
    }
    for client in 1u64..100 {
        script.look(rt, client as u128, client, 1, Status::NoSession, 0);
    }
}

/// What comes after the hundred: the last of them has the place, and gives it to the first, who comes again.
const LAST: [Step; 4] = [
    Step::Look(100, 100, 1, Status::Reply, 101),
    Step::Register(1, 102),
    Step::Look(1, 1, 1, Status::SessionTooLow, 0),
    Step::Look(100, 100, 2, Status::NoSession, 0),
];

/// A hundred clients one after another in one place: each takes the place of the one before.
#[test]
fn eviction_storm(rt: HostRuntime) {
    let mut script = Script::new(rt.alloc());
    put_hundred(&rt, &mut script);
    put_steps(&rt, &mut script, &LAST);
    expect(&rt, script, 1, &PROFILES, Ok(203));
}
