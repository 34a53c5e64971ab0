//! Client 7's requests as data, and machines that they move on.
use crate::comparing::holds;
use crate::machine::rows::{TransferRow, transfer_of};
use std::alloc::Global;
use std::process::Abort;
use tb_machine::{Judged, Machine};
use tb_records::{Body, ClientsMax, Items, Profile, Request};
use tb_test_fixtures::{account, creation, lookup};

/// What a request asks for.
#[derive(Clone, Copy)]
pub enum Ask<'a> {
    Register,
    /// Accounts 1 and 2.
    TwoAccounts,
    /// Accounts by their ids.
    Lookup(&'a [u128]),
    Transfers(&'a [TransferRow]),
}

/// The moment at which a request comes, its number, and what it asks for. All but a register are of session 1.
pub type Turn<'a> = (u64, u32, Ask<'a>);

/// The creation of transfers.
fn transfers(rt: &impl Abort, alloc: Global, rows: &[TransferRow]) -> Body {
    let mut all = Vec::new(alloc);
    for row in rows {
        all.push(transfer_of(*row)).expect(rt, "memory");
    }
    Body::CreateTransfers(Items::new(all))
}

fn body_of(rt: &impl Abort, alloc: Global, ask: Ask<'_>) -> Body {
    match ask {
        Ask::Register => Body::Register,
        Ask::TwoAccounts => creation(alloc, &[account(1), account(2)]).expect(rt, "memory"),
        Ask::Lookup(ids) => lookup(alloc, ids).expect(rt, "memory"),
        Ask::Transfers(rows) => transfers(rt, alloc, rows),
    }
}

/// A request by its number and its body.
pub fn numbered(rt: &impl Abort, number: u32, body: Body) -> Request {
    let session = u64::from(number != 0);
    Request::new(7, session, number, body).expect(rt, "a request")
}

/// The request of a turn.
pub fn request_of(rt: &impl Abort, alloc: Global, turn: &Turn<'_>) -> Request {
    let (_, number, ask) = turn;
    numbered(rt, *number, body_of(rt, alloc, *ask))
}

/// This many clients at most.
pub fn clients_max(rt: &impl Abort, number: u32) -> ClientsMax {
    ClientsMax::new(number).expect(rt, "clients_max")
}

/// A machine by profile 1 for two clients at most.
pub fn machine(rt: &impl Abort, alloc: Global) -> Machine<Global> {
    let made = Machine::new_in(alloc, alloc, Profile::One, clients_max(rt, 2));
    made.expect(rt, "a machine")
}

/// Enters a request at its moment.
fn enter(rt: &impl Abort, alloc: Global, machine: &mut Machine<Global>, turn: &Turn<'_>) {
    let Judged::New(entry) = machine.judge(turn.0, request_of(rt, alloc, turn)) else {
        panic!(rt; "the request is not new, or has no time");
    };
    let entered = machine.enter(entry);
    holds(rt, entered.is_ok(), "memory");
    drop(entered);
}

/// Enters requests, one after another.
pub fn enter_all(
    rt: &impl Abort,
    alloc: Global,
    machine: &mut Machine<Global>,
    turns: &[Turn<'_>],
) {
    for turn in turns {
        enter(rt, alloc, machine, turn);
    }
}
