//! A server, two ports and a seat by steps: what the ports send before it runs, and what is left of its run.
ghost use Rattle.std.specs.Prelude.{◌≡◌};

use crate::comparing::holds;
use crate::making::{
    Asked, Every, Numbers, first_requests, in_order, next_port, offer, request, started,
};
use std::alloc::Global;
use std::process::Abort;
use std::sync::Wait;
use tb_published::{Naming, Opening, Seat, TakeFault};
use tb_records::Status;
use tb_service::{Closed, Ended, Finished, Open, Port};

/// What is sent.
pub(crate) enum Step {
    /// A request by the first port.
    First(Numbers, Asked),
    /// A request by the second port.
    Second(Numbers, Asked),
    /// Client 7's first eight requests by the first port, in one order.
    Eight,
    /// A call of the first port for client 7's register, which never asks again: the seat answers NotYet.
    CallOnce,
}

/// What is left of a run: the length of the history, what account 2 was credited with, the places of each port's requests,
/// and those of all requests that were left out because no time was left.
pub(crate) struct Left {
    pub(crate) entries: usize,
    pub(crate) credited: u128,
    pub(crate) first: &'static [u64],
    pub(crate) second: &'static [u64],
    pub(crate) late: &'static [u64],
}

/// Sends eight requests in one order.
pub(crate) fn offer_eight<R: Wait + Abort>(rt: &R, alloc: Global, port: &mut Port)
    ensures { port.new.service ≡ port.old.service }
{
    let requests = first_requests(rt, alloc, 8);
    assert!(rt; requests.len() == 8);
    let outcome = port.offer_many(rt, requests);
    holds(rt, outcome.is_ok(), "handed over");
    drop(outcome);
}

/// A call that never asks again.
fn call_once<J: Naming, R: Wait + Abort>(rt: &R, alloc: Global, port: &mut Port, seat: &mut Seat<J>)
    ensures { port.new.service ≡ port.old.service }
{
    let asked = in_order(rt, alloc, 0);
    let reply = port.call(rt, seat, &asked, 0).expect(rt, "a reply");
    holds(rt, reply.status() == Status::NotYet, "not yet");
    drop(reply);
    drop(asked);
}

/// Does one step.
fn play<J: Naming, R: Wait + Abort>(
    rt: &R,
    alloc: Global,
    first: &mut Port,
    second: &mut Port,
    seat: &mut Seat<J>,
    step: &Step,
)
    ensures { (first.new.service ≡ first.old.service) × (second.new.service ≡ second.old.service) }
{
    match *step {
        Step::First(numbers, asked) => offer(rt, first, request(rt, alloc, numbers, asked)),
        Step::Second(numbers, asked) => offer(rt, second, request(rt, alloc, numbers, asked)),
        Step::Eight => offer_eight(rt, alloc, first),
        Step::CallOnce => call_once(rt, alloc, first, seat),
    }
}

/// Does steps, one after another, and closes both ports.
fn play_each<J: Naming, R: Wait + Abort>(
    rt: &R,
    alloc: Global,
    mut first: Port,
    mut second: Port,
    seat: &mut Seat<J>,
    steps: &[Step],
) -> (Closed, Closed)
    ensures { (result.0.service ≡ first.service) × (result.1.service ≡ second.service) }
{
    for step in steps {
        play(rt, alloc, &mut first, &mut second, seat, step);
    }
    (first.close(rt), second.close(rt))
}

/// These places, and no others, were left out, because no time was left.
fn are_late(refused: &[(u64, TakeFault)], places: &[u64]) -> bool {
    if refused.len() != places.len() {
        return false;
    }
    for (at, place) in places.iter().enumerate() {
        if refused.get(at).copied() != Some((*place, TakeFault::TimeExhausted)) {
            return false;
        }
    }
    true
}

/// The run ended because its ports were closed, and this is left of it.
pub(crate) fn expect_left<J: Naming>(rt: &impl Abort, finished: &Finished<J>, left: &Left) {
    holds(rt, finished.ended == Ended::Closed, "the end");
    let entries = finished.publisher.history().len();
    holds(rt, entries == left.entries, "entries");
    let late = are_late(finished.refused.as_slice(), left.late);
    holds(rt, late, "the late ones");
}

/// A seat finds what account 2 was credited with.
pub(crate) fn expect_credited<J: Naming>(rt: &impl Abort, seat: &mut Seat<J>, left: &Left) {
    let (commit, accounts) = seat.lookup_accounts(&[2]).expect(rt, "accounts");
    let credited = accounts.iter().map(|it| it.credits_posted).max();
    drop(accounts);
    holds(rt, commit == left.entries as u64, "entries of the seat");
    holds(
        rt,
        credited.unwrap_or(0) == left.credited,
        "what was credited",
    );
}

/// The places of a closed port are these, as many as it sent.
fn expect_places<J: Naming>(
    rt: &impl Abort,
    finished: &mut Finished<J>,
    closed: Closed,
    wanted: &[u64],
)
    requires { closed.service ≡ finished.old.service }
    ensures { finished.new.service ≡ finished.old.service }
{
    holds(rt, closed.offered() == wanted.len() as u64, "offers");
    let places = finished.offered_by(closed).ok().expect(rt, "places");
    holds(rt, places.as_slice() == wanted, "places");
    drop(places);
}

/// Does steps with a server's two ports, closes both, and runs the server.
pub(crate) fn serve_all<J: Naming, R: Wait + Abort>(
    rt: &R,
    alloc: Global,
    opening: Opening,
    moments: Every,
    steps: &[Step],
    left: &Left,
)
    requires { opening ≡ J.opening }
{
    let (server, mut ports, mut seats) = started::<J, R, Every, Open>(
        rt, alloc, opening, 2, moments, Open,
    );
    let second = next_port(rt, &mut ports);
    let first = next_port(rt, &mut ports);
    drop(ports);
    let seat = seats.iter_mut().next().expect(rt, "a seat");
    let (first, second) = play_each(rt, alloc, first, second, seat, steps);
    let mut finished = server.run(rt);
    expect_credited(rt, seat, left);
    expect_left(rt, &finished, left);
    expect_places(rt, &mut finished, first, left.first);
    expect_places(rt, &mut finished, second, left.second);
    drop(finished.close(rt));
    drop(seats);
}
