//! Seats next to the publisher, each in a thread of its own.
ghost use Rattle.std.specs.Prelude.{◌≡◌};

use crate::comparing::holds;
use crate::making::{in_order, opened, opening};
use std::alloc::Global;
use std::marker::Brand;
use std::process::Abort;
use std::sync::Wait;
use std::sync::atomic::{AtomicU64, Ordering};
use std::thread::{self, Threads, for_each_mut, join};
use tb_published::{Naming, Opening, Publisher, Seat, Taken, Told};
use tb_records::{Profile, Request, Status};
use tb_test_fixtures::reaches;

/// How often a thread that waits looks at most.
const LOOKS: u32 = 20_000_000;

/// How many seats have seen some of the history, but not all of it, and how many have then seen all of it.
#[derive(Drop)]
struct Seen {
    some: AtomicU64,
    all: AtomicU64,
}

impl Seen {
    fn new() -> Seen {
        Seen {
            some: AtomicU64::new(0),
            all: AtomicU64::new(0),
        }
    }
}

/// Asks a seat for the last request, and returns how many entries it has seen. None if the call fails, what the seat has
/// seen fell, or the status is not that after as many entries.
fn look<J: Naming>(seat: &mut Seat<J>, last: &Request) -> Option<u64> {
    let before = seat.seen();
    let status = seat.status(last);
    let seen = seat.seen();
    let expected = match seen {
        0 => Status::NoSession,
        200 => Status::Reply,
        199 => Status::NotYet,
        _ => Status::NewerRequest,
    };
    if seen < before || status != Ok(expected) {
        return None;
    }
    Some(seen)
}

/// Asks a seat until it has seen all, and counts it if it saw less than that on its way and no call failed.
fn watch<J: Naming>(seat: &mut Seat<J>, last: &Request, counts: &Seen) {
    let mut beside = false;
    for _ in 0..LOOKS {
        let Some(seen) = look(seat, last) else {
            return;
        };
        if seen == 200 {
            counts.all.fetch_add(u64::from(beside), Ordering::SeqCst);
            return;
        }
        if seen > 0 && !beside {
            beside = true;
            counts.some.fetch_add(1, Ordering::SeqCst);
        }
        thread::yield_now();
    }
}

/// Takes client 7's register and 199 requests, and says whether each was committed. Before the last it waits until each seat has
/// seen some.
fn take_many<J: Naming, R: Wait + Abort>(
    rt: &R,
    alloc: Global,
    publisher: &mut Publisher<J>,
    counts: &Seen,
) -> bool {
    for number in 0..200 {
        if number == 199 && !reaches(&counts.some, 4, LOOKS) {
            return false;
        }
        let taken = publisher.take(rt, in_order(rt, alloc, number), 10);
        if taken != Ok(Taken::Committed(u64::from(number) + 1)) {
            return false;
        }
    }
    true
}

/// Asks four seats, each in a thread of its own.
fn watch_four<J: Naming + Send + Sync, R: Threads + Sync>(
    rt: &R,
    last: &Request,
    counts: &Seen,
    seats: &mut [Seat<J>],
) {
    for_each_mut(rt, seats, 4, &|_, seat| watch(seat, last, counts));
}

/// Four threads ask four seats next to the publisher. Says whether all was taken.
fn watch_beside<J: Naming + Send + Sync, R: Threads + Wait + Abort + Sync>(
    rt: &R,
    alloc: Global,
    publisher: &mut Publisher<J>,
    last: &Request,
    counts: &Seen,
    seats: &mut [Seat<J>],
) -> bool {
    let (taken, ()) = join(
        rt,
        || take_many(rt, alloc, publisher, counts),
        || watch_four(rt, last, counts, seats),
    );
    taken
}

/// A seat that learns what was told last finds the last request answered.
fn expect_learnt<J: Naming>(
    rt: &impl Abort,
    seat: &mut Seat<J>,
    told: &Told<J>,
    request: &Request,
) {
    seat.learn(told);
    holds(rt, seat.seen() == 200, "what is seen");
    let status = seat.status(request);
    holds(rt, status == Ok(Status::Reply), "the status");
}

/// Four seats look for the last request while it is on its way, and learn of it when it was taken.
fn watch_writer<J: Naming + Send + Sync, R: Threads + Wait + Abort + Sync>(
    rt: &R,
    alloc: Global,
    opening: Opening,
)
    requires { opening ≡ J.opening }
{
    let last = in_order(rt, alloc, 199);
    let counts = Seen::new();
    let (mut publisher, mut seats) = opened::<J, R>(rt, alloc, opening, 4);
    let all = seats.as_mut_slice();
    let taken = watch_beside(rt, alloc, &mut publisher, &last, &counts, all);
    holds(rt, taken, "all are taken");
    holds(rt, counts.all.load(Ordering::SeqCst) == 4, "all four");
    let told = publisher.tell();
    for seat in seats.iter_mut() {
        expect_learnt(rt, seat, &told, &last);
    }
    drop(told);
    drop(seats);
    drop(publisher.close(rt));
    drop(last);
}

#[test]
fn four_seats_beside_a_writer(rt: HostRuntime) {
    let opening = opening(&rt, Profile::One, 2);
    watch_writer::<Brand, _>(&rt, rt.alloc(), opening);
}
