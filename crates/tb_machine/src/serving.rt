//! Serves a script: moments and requests are read and executed and get their replies, one after another.
ghost use Rattle.std.specs.Prelude.{◌≡◌, true, false, [], IfOk, OnOk, Some};
ghost use Rattle.std.specs.Option.{is_some};
ghost use Rattle.tb_records.specs.ReplyFrames.{reply_bytes, IsReply};
ghost use Rattle.tb_records.specs.Transport.{IsSent, Sent};
ghost use Rattle.tb_sessions.specs.Judged.{class_of, row_of};
ghost use Rattle.tb_machine.specs.Histories.{status_of, answer_to, stored_reply};
ghost use Rattle.tb_machine.specs.RunFaults.{run_fault_number, run_fault_name};
ghost use Rattle.tb_machine.specs.Runs.{AnswersPair, PairAnswered, Ran};
ghost use Rattle.tb_machine.specs.PlainRuns.{RanPlain};
ghost use Rattle.tb_machine.specs.private.Serving.{IsPromptForPair};
ghost use Rattle.tb_machine.specs.Worked.{GoesOn};

use crate::executing::{Delivery, Served};
use crate::judgements::Judged;
use crate::machines::Machine;
use crate::over_two_pools;
use std::alloc::{AllocError, Allocator, Global};
use std::fmt;
use tb_records::streams::read_timed_from;
use tb_records::{
    ClientsMax, FrameFault, Profile, Reply, Request, Sink, Source, Status, holds_pair, send_reply,
};
use tb_sessions::{Class, Row};
use thiserror::Error;

/// Why the serving of a script ends before the script does.
#[derive(Clone, Copy, Debug, PartialEq, Eq, Error)]
pub enum RunFault {
    /// The next pair cannot be read, or the reply to it cannot be written.
    Frame(FrameFault),
    /// There is no memory for the machine, or for the next entry.
    NoMemory,
    /// The next request is new, but there is no time left for it.
    TimeExhausted,
    /// `2^64 - 1` replies are written.
    TooLong,
}

impl RunFault {
    /// The fault's number, 1 to 4.
    pub fn number(self) -> u8
        ensures { result ≡ run_fault_number self }
    {
        match self {
            RunFault::Frame(_) => 1,
            RunFault::NoMemory => 2,
            RunFault::TimeExhausted => 3,
            RunFault::TooLong => 4,
        }
    }

    /// The fault's name, as a message shows it: for a frame's fault this is that fault's own name.
    pub fn name(self) -> &'static str
        ensures { result.now ≡ run_fault_name self }
    {
        match self {
            RunFault::Frame(fault) => fault.name(),
            RunFault::NoMemory => "NoMemory",
            RunFault::TimeExhausted => "TimeExhausted",
            RunFault::TooLong => "TooLong",
        }
    }
}

impl From<FrameFault> for RunFault {
    ghost use Rattle.tb_machine.specs.declared.serving.RunFault.TheVariants.{Frame};

    ghost from_gives = { λ of_frame fault. fault ≡ Frame of_frame };

    fn from(fault: FrameFault) -> RunFault {
        RunFault::Frame(fault)
    }
}

impl From<AllocError> for RunFault {
    ghost use Rattle.tb_machine.specs.declared.serving.RunFault.TheVariants.{NoMemory};

    ghost from_gives = { λ _ fault. fault ≡ NoMemory };

    fn from(_: AllocError) -> RunFault {
        RunFault::NoMemory
    }
}

impl fmt::Display for RunFault {
    ghost use Rattle.std.specs.Prelude.{Some};
    ghost use Rattle.tb_machine.specs.RunFaults.{run_fault_name};

    ghost output = { λ fault. Some (run_fault_name fault) };

    fn fmt<W: fmt::Write>(&self, f: &mut fmt::Formatter<W>) -> fmt::Result {
        f.write_str(self.name())
    }
}

/// The status of the answer to a request of a class: a repeat gets its reply, and a new request has no reply yet.
pub fn status_of(class: Class) -> Status
    ensures { result ≡ status_of class }
{
    match class {
        Class::New => Status::NotYet,
        Class::Repeat => Status::Reply,
        Class::NoSession => Status::NoSession,
        Class::SessionTooLow => Status::SessionTooLow,
        Class::NewerSession => Status::NewerSession,
        Class::Older => Status::Older,
        Class::Collision => Status::Collision,
        Class::NewerRequest => Status::NewerRequest,
    }
}

/// The reply that a client's row keeps.
pub(crate) fn stored_reply<A: Allocator + Clone>(machine: &Machine<A>, client: u128) -> &Reply
    requires { is_some (row_of machine.now.rows client) ≡ true }
    ensures { stored_reply machine.now client ≡ Some result.now }
{
    let Some(reply) = machine.reply_of(client) else {
        unreachable!()
    };
    reply
}

/// Answers a request that is not new: a repeat by the stored reply, any other by a refusal.
pub fn answer_known<A: Allocator + Clone, W: Sink>(
    machine: &Machine<A>,
    writer: &mut W,
    request: &Request,
    class: Class,
) -> Result<(), FrameFault>
    requires { class ≡ class_of machine.now.rows request.now }
    ensures sent { IsSent result (reply_bytes (answer_to machine.now request.now)) (W.output writer.old)
        (W.output writer.new) }
    ensures fits { OnOk result (IsReply (answer_to machine.now request.now)) }
{
    match class {
        Class::Repeat => send_reply(writer, stored_reply(machine, request.client())),
        _ => send_reply(writer, &Reply::refusal(request, status_of(class))),
    }
}

/// Answers a request of a class: enters a new one, and answers any other.
#[inline(never)]
fn answer_as<A: Allocator + Clone, W: Sink>(
    machine: &mut Machine<A>,
    writer: &mut W,
    moment: u64,
    request: Request,
    class: Class,
) -> Result<(), RunFault>
    requires { class ≡ class_of machine.old.rows request }
    ensures { AnswersPair result machine.old machine.new (moment, request) (W.output writer.old)
        (W.output writer.new) }
{
    match machine.judge_as(class, moment, request) {
        Judged::New(entry) => match machine.enter_and_reply(writer, entry) {
            Ok(Delivery::Whole) => Ok(()),
            Ok(Delivery::Cut(fault)) => Err(RunFault::Frame(fault)),
            Err(back) => {
                drop(back);
                Err(RunFault::NoMemory)
            }
        },
        Judged::NoTime => Err(RunFault::TimeExhausted),
        Judged::Known(class, request) => {
            let answered = answer_known(machine, writer, &request, class);
            drop(request);
            match answered {
                Ok(()) => Ok(()),
                Err(fault) => Err(RunFault::Frame(fault)),
            }
        }
    }
}

/// Serves a request that comes at a moment: a new one is entered first, and the reply is written. If there is no time or no memory for a new one,
/// nothing is written and the machine is as it was. If the writer failed, a new one has been entered all the same: sent again it is a repeat that
/// gets its reply.
pub fn serve_pair<A: Allocator + Clone, W: Sink>(
    machine: &mut Machine<A>,
    writer: &mut W,
    moment: u64,
    request: Request,
) -> Result<(), RunFault>
    ensures { AnswersPair result machine.old machine.new (moment, request) (W.output writer.old)
        (W.output writer.new) }
{
    let mut request = request;
    match machine.serve_in_session(writer, moment, &mut request) {
        Served::Executed(Delivery::Whole) => {
            drop(request);
            Ok(())
        }
        Served::Executed(Delivery::Cut(fault)) => {
            drop(request);
            Err(RunFault::Frame(fault))
        }
        Served::NoMemory => {
            drop(request);
            Err(RunFault::NoMemory)
        }
        Served::Unserved(class) => answer_as(machine, writer, moment, request, class),
    }
}

/// Serves the next pair of a script; returns false if there is no next pair. The reader is called only if no output is held back, or a whole pair is
/// buffered.
fn serve_next<A: Allocator + Clone, R: Source, W: Sink>(
    alloc: Global,
    machine: &mut Machine<A>,
    reader: &mut R,
    writer: &mut W,
) -> Result<bool, RunFault>
    requires { IsPromptForPair (R.input reader.old) (W.output writer.old) }
    ensures { GoesOn PairAnswered AnswersPair result machine.old machine.new
        (R.input reader.old) (R.input reader.new) (W.output writer.old) (W.output writer.new) }
{
    let Some((moment, request)) = read_timed_from(alloc, reader)? else {
        return Ok(false)
    };
    serve_pair(machine, writer, moment, request)?;
    Ok(true)
}

/// Flushes the replies if the reader may have to wait for the next pair, so that a client that waits for its reply has it.
pub(crate) fn pass_on_before_waiting<R: Source, W: Sink>(reader: &R, writer: &mut W)
    ensures sent { Sent [] (W.output writer.old) (W.output writer.new) }
    ensures prompt { IsPromptForPair (R.input reader.now) (W.output writer.new) }
{
    if !holds_pair(reader.at_hand()) {
        writer.pass_on();
    }
}

/// Serves a script, with the records of the machine in memory of `alloc`.
fn run_in<A: Allocator + Clone, R: Source, W: Sink>(
    global: Global,
    profile: Profile,
    clients_max: ClientsMax,
    reader: &mut R,
    writer: &mut W,
    alloc: A,
) -> Result<u64, RunFault>
    ensures ran { Ran profile clients_max result (R.input reader.old) (R.input reader.new)
        (W.output writer.old) (W.output writer.new) }
    ensures passed { IfOk result (λ _. (W.output writer.new).held ≡ false) }
{
    let mut machine = Machine::new_in(global, alloc, profile, clients_max)?;
    for k in 0..u64::MAX {
        pass_on_before_waiting(reader, writer);
        let more = match serve_next(global, &mut machine, reader, writer) {
            Ok(more) => more,
            Err(fault) => {
                drop(machine);
                return Err(fault);
            }
        };
        if !more {
            drop(machine);
            writer.pass_on();
            return Ok(k);
        }
    }
    drop(machine);
    Err(RunFault::TooLong)
}

/// Serves a script, with the records of the machine in two pools over memory of `alloc`.
fn run_over<A: Allocator + Clone, R: Source, W: Sink>(
    global: Global,
    profile: Profile,
    clients_max: ClientsMax,
    reader: &mut R,
    writer: &mut W,
    alloc: A,
) -> Result<u64, RunFault>
    ensures ran { Ran profile clients_max result (R.input reader.old) (R.input reader.new)
        (W.output writer.old) (W.output writer.new) }
    ensures passed { IfOk result (λ _. (W.output writer.new).held ≡ false) }
{
    over_two_pools!(
        alloc,
        pool,
        run_in(global, profile, clients_max, reader, writer, &pool)
    )
}

/// Serves a script of pairs, a moment and the frame of a request each, until it ends. Returns the number of replies written, none of which is still
/// held back. If the whole input is such pairs, each new one has a time and nothing fails, the whole input is read, and exactly the replies are
/// written. On a fault the replies to all earlier pairs are written, and the rest of the script is unread; if the writer failed, a prefix of the next
/// reply was written too.
pub fn run<R: Source, W: Sink>(
    alloc: Global,
    profile: Profile,
    clients_max: ClientsMax,
    reader: &mut R,
    writer: &mut W,
) -> Result<u64, RunFault>
    ensures ran { Ran profile clients_max result (R.input reader.old) (R.input reader.new)
        (W.output writer.old) (W.output writer.new) }
    ensures plain { RanPlain profile clients_max result (R.input reader.old) (R.input reader.new)
        (W.output writer.old) (W.output writer.new) }
    ensures passed { IfOk result (λ _. (W.output writer.new).held ≡ false) }
{
    over_two_pools!(
        alloc,
        pool,
        run_over(alloc, profile, clients_max, reader, writer, &pool)
    )
}
