//! A publisher and two seats by steps: what is done, and its result. One function owns the publisher, and lends it to each step.
ghost use Rattle.std.specs.Prelude.{◌≡◌};

use crate::comparing::holds_at;
use crate::making::{Asked, Numbers, opened};
use crate::published::expecting::{
    Row, expect_accounts, expect_entered, expect_entries, expect_row, expect_status, expect_taken,
    expect_transfers, learn,
};
use std::alloc::Global;
use std::process::Abort;
use std::sync::Wait;
use tb_published::{Naming, Opening, Publisher, Seat, TakeFault, Taken};
use tb_records::Status;

/// What is done, and its result.
pub(crate) enum Step {
    /// A request is taken at a moment.
    Take(Numbers, Asked, u64, Result<Taken, TakeFault>),
    /// Clients up to this one register by turns.
    RegisterEach(u64),
    /// No client up to this one has a session.
    RefuseEach(u64),
    /// A row's request is taken, and the first seat has its answer.
    Row(Row),
    /// The first seat finds accounts 2 and 1: the number of entries, and what went from account 1 to account 2.
    Accounts(u64, u128),
    /// The first seat finds transfer 11.
    Transfers,
    /// A request is entered at moment 10.
    Enter(Numbers, Asked, Taken),
    /// One call shows all entries, as many as these.
    Show(u64),
    /// The first seat returns this status for a request, and has seen this many entries then.
    Status(Numbers, Asked, Status, u64),
    /// The same of the second seat.
    SecondStatus(Numbers, Asked, Status, u64),
    /// The second seat learns what the publisher tells.
    SecondLearns,
    /// The history has this many entries, and the copies show as many.
    Entries(usize),
}

/// Clients up to this one register by turns, each with the next commit number.
fn register_each<J: Naming, R: Wait + Abort>(
    rt: &R,
    alloc: Global,
    publisher: &mut Publisher<J>,
    last: u64,
) {
    for client in 1..=last {
        let numbers = (u128::from(client), 0, 0);
        let wanted = Ok(Taken::Committed(client));
        expect_taken(rt, alloc, publisher, numbers, Asked::Register, 10, wanted);
    }
}

/// No client up to this one has a session.
fn refuse_each<J: Naming, R: Wait + Abort>(
    rt: &R,
    alloc: Global,
    publisher: &mut Publisher<J>,
    last: u64,
) {
    for client in 1..=last {
        let numbers = (u128::from(client), client, 1);
        let wanted = Ok(Taken::Refused(Status::NoSession));
        expect_taken(
            rt,
            alloc,
            publisher,
            numbers,
            Asked::Lookup(&[]),
            10,
            wanted,
        );
    }
}

/// Does one step.
fn play<J: Naming, R: Wait + Abort>(
    rt: &R,
    alloc: Global,
    publisher: &mut Publisher<J>,
    one: &mut Seat<J>,
    two: &mut Seat<J>,
    step: &Step,
) {
    match *step {
        Step::Take(numbers, asked, moment, wanted) => {
            expect_taken(rt, alloc, publisher, numbers, asked, moment, wanted)
        }
        Step::RegisterEach(last) => register_each(rt, alloc, publisher, last),
        Step::RefuseEach(last) => refuse_each(rt, alloc, publisher, last),
        Step::Row(row) => expect_row(rt, alloc, publisher, one, row),
        Step::Accounts(entries, posted) => expect_accounts(rt, one, entries, posted),
        Step::Transfers => expect_transfers(rt, one),
        Step::Enter(numbers, asked, wanted) => {
            expect_entered(rt, alloc, publisher, numbers, asked, wanted)
        }
        Step::Show(entries) => holds_at(rt, publisher.show(rt) == Ok(entries), &entries),
        Step::Status(numbers, asked, status, seen) => {
            expect_status(rt, alloc, one, numbers, asked, status, seen)
        }
        Step::SecondStatus(numbers, asked, status, seen) => {
            expect_status(rt, alloc, two, numbers, asked, status, seen)
        }
        Step::SecondLearns => learn(publisher, two),
        Step::Entries(entries) => expect_entries(rt, publisher, entries),
    }
}

/// Does steps, one after another.
fn play_each<J: Naming, R: Wait + Abort>(
    rt: &R,
    alloc: Global,
    publisher: &mut Publisher<J>,
    one: &mut Seat<J>,
    two: &mut Seat<J>,
    steps: &[Step],
) {
    for step in steps {
        play(rt, alloc, publisher, one, two, step);
    }
}

/// Does steps with an opening's publisher and two seats.
pub(crate) fn play_all<J: Naming, R: Wait + Abort>(
    rt: &R,
    alloc: Global,
    opening: Opening,
    steps: &[Step],
)
    requires { opening ≡ J.opening }
{
    let (mut publisher, mut seats) = opened::<J, R>(rt, alloc, opening, 2);
    let mut both = seats.iter_mut();
    let one = both.next().expect(rt, "a seat");
    let two = both.next().expect(rt, "another seat");
    play_each(rt, alloc, &mut publisher, one, two, steps);
    drop(seats);
    drop(publisher.close(rt));
}
