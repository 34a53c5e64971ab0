//! A call: a request is sent, and a seat is asked for its reply.
ghost use Rattle.std.specs.Prelude.{IfOk};
ghost use mathlib.Core.List.{IsPrefix};
ghost use Rattle.tb_published.specs.Openings.{AnswersIn, LegalIn, IsAnswerIn};

use std::mem::replace;
use std::thread;
use tb_published::{Naming, Seat, SeatFault};
use tb_records::{Reply, Request, Status};

/// Asks at most `turns` times, until the request is answered.
pub(crate) fn ask<J: Naming>(
    seat: &mut Seat<J>,
    request: &Request,
    turns: u32,
    mut reply: Reply,
) -> Result<Reply, SeatFault>
    requires legal { LegalIn J.opening seat.old }
    requires answer { IsAnswerIn J.opening seat.old request.now reply }
    ensures begins { IsPrefix seat.old seat.new }
    ensures answer { IfOk result (AnswersIn J.opening seat.new request.now) }
{
    for _ in 0..turns {
        let newest = match seat.answer(request) {
            Ok(newest) => newest,
            Err(fault) => {
                drop(reply);
                return Err(fault);
            }
        };
        drop(replace(&mut reply, newest));
        if reply.status() != Status::NotYet {
            return Ok(reply);
        }
        thread::yield_now();
    }
    Ok(reply)
}
