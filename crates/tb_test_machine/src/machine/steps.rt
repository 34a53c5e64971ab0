//! A script as data: one step after another, with the reply that each is to get.
use crate::machine::fixtures::resolved;
use crate::machine::rows::{AccountRow, TransferRow, account_of, transfer_of};
use crate::machine::scripts::Script;
use std::alloc::Global;
use std::process::Abort;
use tb_records::{CreateAccountResult, CreateTransferResult, Operation, Status, Transfer};
use tb_test_fixtures::{account, at, found};

/// What a script asks next, and the reply that it is to get.
#[derive(Clone, Copy)]
pub enum Step {
    /// The moment of what follows.
    Moment(u64),
    /// A client's register, which makes a session.
    Register(u128, u64),
    /// A lookup of no account by client, session and number, the status of its reply, and the commit number.
    Look(u128, u64, u32, Status, u64),
    /// Client 7's request of a number with one transfer, the status of its reply, and the commit number.
    Numbered(u32, TransferRow, Status, u64),
    /// Client 7's request of a number, which looks accounts 2, 9 and 1 up, and the status that it is refused with.
    Again(u32, Status),
    /// An account of client 7's next request, and its result.
    Account(AccountRow, CreateAccountResult),
    /// A transfer of client 7's next request, and its result.
    Transfer(TransferRow, CreateTransferResult),
    /// An id of client 7's next lookup.
    Id(u128),
    /// An account that the lookup finds, with its sums and its timestamp.
    FoundAccount([u128; 4], u64, AccountRow),
    /// A transfer that the lookup finds, with its timestamp.
    FoundTransfer(u64, TransferRow),
    /// A post or a void that the lookup finds, as it is recorded: of a transfer from account 1 to account 2.
    FoundResolved(u64, TransferRow),
    /// Client 7's next request, of all that came since the last one.
    Send(Operation),
    /// A transfer in a request of its own, and its result.
    Single(TransferRow, CreateTransferResult),
    /// A lookup of account 1, and its sums.
    First([u128; 4]),
}

/// Client 7's next request, which looks account 1 up and finds these sums.
fn look_up_first(rt: &impl Abort, script: &mut Script, sums: [u128; 4]) {
    script.put_id(rt, 1);
    script.put_found_account(rt, &found(sums, 11, account(1)));
    script.send(rt, Operation::LookupAccounts);
}

/// Client 7's next request, which creates one transfer.
fn send_single(rt: &impl Abort, script: &mut Script, row: &Transfer, code: u32) {
    script.put_transfer(rt, row, code);
    script.send(rt, Operation::CreateTransfers);
}

/// Sets the moment of what follows.
fn set_moment(script: &mut Script, moment: u64) {
    script.moment = moment;
}

/// Appends a step to a script.
fn put_step(rt: &impl Abort, script: &mut Script, step: Step) {
    match step {
        Step::Moment(moment) => set_moment(script, moment),
        Step::Register(client, session) => script.register(rt, client, session),
        Step::Look(client, session, number, status, commit) => {
            script.look(rt, client, session, number, status, commit)
        }
        Step::Numbered(number, row, status, commit) => {
            script.transfer(rt, number, &transfer_of(row), status, commit)
        }
        Step::Again(number, status) => script.look_again(rt, number, status),
        Step::Account(row, result) => script.put_account(rt, &account_of(row), result.code()),
        Step::Transfer(row, result) => script.put_transfer(rt, &transfer_of(row), result.code()),
        Step::Id(id) => script.put_id(rt, id),
        Step::FoundAccount(sums, time, row) => {
            script.put_found_account(rt, &found(sums, time, account_of(row)))
        }
        Step::FoundTransfer(time, row) => script.put_found_transfer(
            rt,
            &at(time, transfer_of(row)),
        ),
        Step::FoundResolved(time, row) => {
            script.put_found_transfer(rt, &at(time, resolved(transfer_of(row))))
        }
        Step::Send(operation) => script.send(rt, operation),
        Step::Single(row, result) => send_single(rt, script, &transfer_of(row), result.code()),
        Step::First(sums) => look_up_first(rt, script, sums),
    }
}

/// Appends steps to a script.
pub fn put_steps(rt: &impl Abort, script: &mut Script, steps: &[Step]) {
    for step in steps {
        put_step(rt, script, *step);
    }
}

/// A script of steps, part after part.
pub fn script_of(rt: &impl Abort, alloc: Global, parts: &[&[Step]]) -> Script {
    let mut script = Script::new(alloc);
    for steps in parts {
        put_steps(rt, &mut script, steps);
    }
    script
}

/// The first two requests: client 7 registers at moment 10 and creates accounts 1 and 2, which takes the moments 11 and 12.
pub const BEGIN: [Step; 4] = [
    Step::Register(7, 1),
    Step::Account(AccountRow::Plain(1), CreateAccountResult::Ok),
    Step::Account(AccountRow::Plain(2), CreateAccountResult::Ok),
    Step::Send(Operation::CreateAccounts),
];

/// The third request: a lookup of accounts 2, 9 and 1.
pub const THIRD: [Step; 6] = [
    Step::Id(2),
    Step::Id(9),
    Step::Id(1),
    Step::FoundAccount([0; 4], 12, AccountRow::Plain(2)),
    Step::FoundAccount([0; 4], 11, AccountRow::Plain(1)),
    Step::Send(Operation::LookupAccounts),
];
