//! What becomes of a request, and what a seat finds then.
use crate::comparing::{holds, holds_at};
use crate::making::{Asked, Numbers, request};
use crate::published::frames::{Header, answered, frame};
use std::alloc::Global;
use std::process::Abort;
use std::sync::Wait;
use tb_published::{Naming, Publisher, Seat, TakeFault, Taken};
use tb_records::{Request, Status};
use tb_test_fixtures::{account, at, found, transfer};

/// Takes a request at a moment.
pub(crate) fn expect_taken<J: Naming, R: Wait + Abort>(
    rt: &R,
    alloc: Global,
    publisher: &mut Publisher<J>,
    numbers: Numbers,
    asked: Asked,
    moment: u64,
    wanted: Result<Taken, TakeFault>,
) {
    let request = request(rt, alloc, numbers, asked);
    let taken = publisher.take(rt, request, moment);
    holds_at(rt, taken == wanted, &numbers);
}

/// A request, what becomes of it when it is taken, the header of the answer then, and whether accounts 2 and 1 follow it.
pub(crate) type Row = (Numbers, Asked, Taken, Header, bool);

/// The status that a seat returns once a request was taken.
fn status_after(taken: Taken) -> Status {
    match taken {
        Taken::Committed(_) | Taken::Repeat(_) => Status::Reply,
        Taken::Refused(status) => status,
    }
}

/// A seat's answer to a request that was taken: its status, and its bytes.
fn expect_answer<J: Naming>(
    rt: &impl Abort,
    alloc: Global,
    seat: &mut Seat<J>,
    request: &Request,
    row: Row,
) {
    let status = seat.status(request);
    holds_at(rt, status == Ok(status_after(row.2)), &row.0);
    let answer = answered(rt, alloc, seat, request);
    let wanted = frame(rt, alloc, row.3, row.4);
    holds_at(rt, answer.as_slice() == wanted.as_slice(), &row.0);
    drop(wanted);
    drop(answer);
}

/// Takes a row's request, and then asks a seat for it.
pub(crate) fn expect_row<J: Naming, R: Wait + Abort>(
    rt: &R,
    alloc: Global,
    publisher: &mut Publisher<J>,
    seat: &mut Seat<J>,
    row: Row,
) {
    expect_taken(rt, alloc, publisher, row.0, row.1, 10, Ok(row.2));
    let request = request(rt, alloc, row.0, row.1);
    expect_answer(rt, alloc, seat, &request, row);
    drop(request);
}

/// What a seat finds for accounts 2, 9 and 1: how many entries there are, and what went from account 1 to account 2.
pub(crate) fn expect_accounts<J: Naming>(
    rt: &impl Abort,
    seat: &mut Seat<J>,
    entries: u64,
    posted: u128,
) {
    let wanted = [
        found([0, 0, 0, posted], 12, account(2)),
        found([0, posted, 0, 0], 11, account(1)),
    ];
    let (commit, accounts) = seat.lookup_accounts(&[2, 9, 1]).expect(rt, "accounts");
    holds_at(rt, commit == entries, &commit);
    holds_at(rt, accounts.as_slice() == wanted.as_slice(), &posted);
    drop(accounts);
}

/// What a seat finds for transfers 12 and 11.
pub(crate) fn expect_transfers<J: Naming>(rt: &impl Abort, seat: &mut Seat<J>) {
    let wanted = [at(14, transfer(11, 1, 2, 100))];
    let (commit, found) = seat.lookup_transfers(&[12, 11]).expect(rt, "transfers");
    holds_at(rt, commit == 4, &commit);
    holds(rt, found.as_slice() == wanted.as_slice(), "transfers");
    drop(found);
}

/// Enters a request at moment 10.
pub(crate) fn expect_entered<J: Naming>(
    rt: &impl Abort,
    alloc: Global,
    publisher: &mut Publisher<J>,
    numbers: Numbers,
    asked: Asked,
    wanted: Taken,
) {
    let request = request(rt, alloc, numbers, asked);
    let entered = publisher.enter(request, 10);
    holds_at(rt, entered == Ok(wanted), &numbers);
}

/// A seat returns this status for a request, and has seen `seen` entries then.
pub(crate) fn expect_status<J: Naming>(
    rt: &impl Abort,
    alloc: Global,
    seat: &mut Seat<J>,
    numbers: Numbers,
    asked: Asked,
    status: Status,
    seen: u64,
) {
    let request = request(rt, alloc, numbers, asked);
    let found = seat.status(&request);
    drop(request);
    holds_at(rt, found == Ok(status), &numbers);
    holds_at(rt, seat.seen() == seen, &numbers);
}

/// A seat learns what the publisher tells.
pub(crate) fn learn<J: Naming>(publisher: &Publisher<J>, seat: &mut Seat<J>) {
    let told = publisher.tell();
    seat.learn(&told);
    drop(told);
}

/// The history has `entries` entries, and the copies show as many.
pub(crate) fn expect_entries<J: Naming>(rt: &impl Abort, publisher: &Publisher<J>, entries: usize) {
    holds(rt, publisher.history().len() == entries, "entries");
    let told = publisher.tell();
    holds(rt, told.commit() == entries as u64, "what is told");
    drop(told);
}
