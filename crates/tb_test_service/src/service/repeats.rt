//! One client's requests called in their order by one port, and offered in reverse by another, at once.
ghost use Rattle.std.specs.Prelude.{◌≤◌};

use crate::making::{Asked, in_order, nth, offer};
use std::alloc::Global;
use std::process::Abort;
use std::sync::Wait;
use std::thread::{Threads, join};
use tb_published::{Naming, Seat, SeatFault};
use tb_records::{Reply, Request, Status};
use tb_service::Port;

/// Client 7's register, two accounts, and then transfers: the nth has the amount n.
fn repeated(rt: &impl Abort, alloc: Global, number: u32) -> Request {
    if number < 2 {
        return in_order(rt, alloc, number);
    }
    let amount = u128::from(number - 1);
    nth(rt, alloc, number, Asked::Transfer(amount, 1, amount))
}

/// The answer is a reply, or that the request is older than the last one.
fn is_settled(answer: Result<Reply, SeatFault>) -> bool {
    match answer {
        Ok(reply) => {
            let settled = matches!(reply.status(), Status::Reply | Status::Older);
            drop(reply);
            settled
        }
        Err(_) => false,
    }
}

/// Calls until the answer settles the request.
fn settle<J: Naming, R: Wait>(
    rt: &R,
    port: &mut Port,
    seat: &mut Seat<J>,
    request: &Request,
) -> bool {
    for _ in 0..100 {
        if is_settled(port.call(rt, seat, request, 1_000_000)) {
            return true;
        }
    }
    false
}

/// Calls requests in their order, and says whether all were settled.
fn call_in_order<J: Naming, R: Wait + Abort>(
    rt: &R,
    alloc: Global,
    port: &mut Port,
    seat: &mut Seat<J>,
    first: u32,
    last: u32,
) -> bool {
    let mut settled = true;
    for number in first..=last {
        let request = repeated(rt, alloc, number);
        settled = settle(rt, port, seat, &request) && settled;
        drop(request);
    }
    settled
}

/// Offers the transfers 50 to 1, ten times over.
fn offer_in_reverse<R: Wait + Abort>(rt: &R, alloc: Global, port: &mut Port) {
    for round in 0..500 {
        offer(rt, port, repeated(rt, alloc, 51 - round % 50));
    }
}

/// Client 7 registers and creates accounts 1 and 2; then both ports offer its transfers at once. Says whether all calls were
/// settled.
pub(crate) fn repeat_in_reverse<J: Naming + Send + Sync, R: Threads + Wait + Abort + Sync>(
    rt: &R,
    alloc: Global,
    first: &mut Port,
    second: &mut Port,
    seat: &mut Seat<J>,
) -> bool {
    let begun = call_in_order(rt, alloc, first, seat, 0, 1);
    let (settled, ()) = join(
        rt,
        || call_in_order(rt, alloc, first, seat, 2, 51),
        || offer_in_reverse(rt, alloc, second),
    );
    begun && settled
}
