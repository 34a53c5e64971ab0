//! A gate at which a request waits, and what seats find then.
ghost use Rattle.std.specs.Prelude.{◌≡◌};

use crate::making::{in_order, offer};
use std::alloc::Global;
use std::process::Abort;
use std::sync::Wait;
use std::sync::atomic::{AtomicU64, Ordering};
use tb_published::{Naming, Seat};
use tb_records::{Request, Status};
use tb_service::{Gate, Moments, Port};
use tb_test_fixtures::reaches;

/// How often a thread that waits for ten seat calls looks at most.
const LOOKS: u32 = 100_000_000;

/// The place that waits at a gate, or 0 if a limit was reached or a moment was asked for too early, and how many seat calls were made.
#[derive(Drop)]
pub(crate) struct Watch {
    pub(crate) stands: AtomicU64,
    calls: AtomicU64,
}

impl Watch {
    pub(crate) fn new() -> Watch {
        Watch {
            stands: AtomicU64::new(0),
            calls: AtomicU64::new(0),
        }
    }
}

/// A gate that reports that a request waits at it, and lets it pass once ten seat calls were made.
#[derive(Drop)]
pub(crate) struct Waiting<'a>(pub(crate) &'a Watch);

impl Gate for Waiting<'_> {
    ghost passes = { λ before place after. Unit {0} };

    fn pass(&mut self, place: u64) {
        self.0.stands.store(place, Ordering::SeqCst);
        if !reaches(&self.0.calls, 10, LOOKS) {
            self.0.stands.store(0, Ordering::SeqCst);
        }
    }
}

/// Moments 10, each of which looks whether the gate was passed. A request is entered with its moment, so it cannot be entered
/// before.
#[derive(Drop)]
pub(crate) struct Behind<'a>(pub(crate) &'a Watch);

impl Moments for Behind<'_> {
    ghost tells = { λ before moment after. moment ≡ 10 };

    fn now(&mut self) -> u64 {
        if self.0.calls.load(Ordering::SeqCst) < 10 {
            self.0.stands.store(0, Ordering::SeqCst);
        }
        10
    }
}

/// A seat is asked for the request, or for account 1: it finds neither.
fn sees_nothing<J: Naming>(seat: &mut Seat<J>, request: &Request, turn: u32) -> bool {
    if turn % 2 == 0 {
        return seat.status(request) == Ok(Status::NotYet);
    }
    match seat.lookup_accounts(&[1]) {
        Ok((commit, accounts)) => {
            let nothing = commit == 0 && accounts.is_empty();
            drop(accounts);
            nothing
        }
        Err(_) => false,
    }
}

/// Five calls of each seat, while the request waits at the gate.
fn call_ten<J: Naming>(
    one: &mut Seat<J>,
    two: &mut Seat<J>,
    request: &Request,
    watch: &Watch,
) -> bool {
    let mut unseen = reaches(&watch.stands, 1, LOOKS);
    for turn in 0..5 {
        unseen = sees_nothing(one, request, turn) && unseen;
        watch.calls.fetch_add(1, Ordering::SeqCst);
        unseen = sees_nothing(two, request, turn) && unseen;
        watch.calls.fetch_add(1, Ordering::SeqCst);
    }
    unseen
}

/// A port offers client 7's register, which both seats are asked for while it waits at the gate. Says whether they see nothing.
pub(crate) fn call_while_held<J: Naming, R: Wait + Abort>(
    rt: &R,
    alloc: Global,
    port: &mut Port,
    one: &mut Seat<J>,
    two: &mut Seat<J>,
    watch: &Watch,
) -> bool {
    offer(rt, port, in_order(rt, alloc, 0));
    let request = in_order(rt, alloc, 0);
    let unseen = call_ten(one, two, &request, watch);
    drop(request);
    unseen
}
