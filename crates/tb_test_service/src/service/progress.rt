//! Progress: what is offered is answered while the server still runs. It needs no later order and no close.
ghost use Rattle.std.specs.Prelude.{◌≡◌};

use crate::making::{in_order, offer};
use crate::service::steps::offer_eight;
use std::alloc::Global;
use std::process::Abort;
use std::sync::Wait;
use std::thread::Parker;
use std::time::Duration;
use tb_published::{Naming, Seat};
use tb_records::{Request, Status};
use tb_service::Port;

/// How often a seat is asked for one answer.
const LOOKS: u32 = 200_000;

/// The microseconds after which a seat is asked again: an answer has ten seconds, or more.
const NAP_US: u64 = 50;

/// How many requests are offered in all.
const OFFERS: u32 = 130;

/// Says that a seat has the reply to a request in time.
fn is_answered<J: Naming, R: Wait>(rt: &R, seat: &mut Seat<J>, request: &Request) -> bool {
    for _ in 0..LOOKS {
        if seat.status(request) == Ok(Status::Reply) {
            return true;
        }
        Parker::new().park_timeout(rt, Duration::from_micros(NAP_US));
    }
    false
}

/// Says that a seat has the reply to client 7's request of this number in time.
fn has_answer<J: Naming, R: Wait + Abort>(
    rt: &R,
    alloc: Global,
    seat: &mut Seat<J>,
    number: u32,
) -> bool {
    let request = in_order(rt, alloc, number);
    let answered = is_answered(rt, seat, &request);
    drop(request);
    answered
}

/// Offers eight requests in one order, and then one at a time, each after a seat had the reply to the last one before. Says
/// whether it had all.
pub(crate) fn offer_in_turn<J: Naming, R: Wait + Abort>(
    rt: &R,
    alloc: Global,
    port: &mut Port,
    seat: &mut Seat<J>,
) -> bool {
    offer_eight(rt, alloc, port);
    let mut answered = has_answer(rt, alloc, seat, 7);
    for number in 8..OFFERS {
        offer(rt, port, in_order(rt, alloc, number));
        answered = answered && has_answer(rt, alloc, seat, number);
    }
    answered
}
