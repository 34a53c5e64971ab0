//! A caller of the published copies: a publisher takes and tells, a client thread learns and asks.
ghost use Rattle.std.specs.Prelude.{◌≡◌, Ok, IfOk};
ghost use Rattle.tb_published.specs.Openings.{IsAnswerIn, LegalIn};
ghost use Rattle.tb_published.specs.Taking.{TakesRequest};

use std::sync::Wait;
use tb_published::{Naming, Publisher, Seat, SeatFault, TakeFault, Taken, Told};
use tb_records::{Reply, Request};

/// Takes a request that comes at a moment: returns what became of it, as `Publisher::take` does, and tells what the copies
/// show then, which is the whole history, for seats to learn.
pub fn take_and_tell<J: Naming, W: Wait>(
    rt: &W,
    publisher: &mut Publisher<J>,
    request: Request,
    now: u64,
) -> Result<(Taken, Told<J>), TakeFault>
    ensures taken { IfOk result
        (λ answer.
        TakesRequest J.opening publisher.old.history request now (Ok answer.0)
        publisher.new.history publisher.new.shown) }
    ensures told { IfOk result (λ answer. answer.1 ≡ publisher.new.shown) }
{
    let taken = publisher.take(rt, request, now)?;
    Ok((taken, publisher.tell()))
}

/// Learns what was told, and asks for the answer to a request: it is the one-thread ledger's, after the legal history that the
/// seat has then seen.
pub fn learn_and_ask<J: Naming>(
    seat: &mut Seat<J>,
    told: &Told<J>,
    request: &Request,
) -> Result<Reply, SeatFault>
    ensures legal { IfOk result (λ _. LegalIn J.opening seat.new) }
    ensures answer { IfOk result (λ reply. IsAnswerIn J.opening seat.new request.now reply) }
{
    seat.learn(told);
    seat.answer(request)
}
