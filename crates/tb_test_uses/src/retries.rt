//! A caller of the machine: a request is entered once, and its repeat gets the first reply.
ghost use Rattle.std.specs.Prelude.{◌≡◌, true, false, IsTrue, MatchOption, MatchResult, IfErr, IfOk};
ghost use Rattle.tb_sessions.specs.Judged.{class_of};
ghost use Rattle.tb_sessions.specs.declared.classes.Class.TheVariants as class;
ghost use Rattle.tb_machine.specs.Histories.{reply_at, step};
ghost use Rattle.tb_machine.specs.Scripts.{entry_of, has_time, after_pair};

use std::alloc::Allocator;
use tb_machine::{Judged, Machine};
use tb_records::Request;

/// Why a request was not entered.
#[derive(Debug, Drop)]
pub enum Left {
    /// It is not new: a repeat, or refused.
    NotNew,
    /// There is no time left for its entry.
    NoTime,
    /// There was no memory. The request may come again.
    NoMemory,
}

/// Enters a request that comes at a moment, if it is new and there is a time for it.
pub fn enter_once<A: Allocator + Clone>(
    machine: &mut Machine<A>,
    request: Request,
    now: u64,
) -> Result<(), Left>
    ensures entered { IfOk result (λ _. machine.new ≡ step machine.old (entry_of machine.old (now, request))) }
    ensures left { IfErr result (λ _. machine.new ≡ machine.old) }
{
    match machine.judge(now, request) {
        Judged::New(entry) => match machine.enter(entry) {
            Ok(()) => Ok(()),
            Err(back) => {
                drop(back);
                Err(Left::NoMemory)
            }
        },
        Judged::NoTime => Err(Left::NoTime),
        Judged::Known(..) => Err(Left::NotNew),
    }
}
