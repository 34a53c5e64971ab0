//! What the calls over a client's session do.
ghost use Rattle.std.specs.Prelude.{◌≡◌};
ghost use Rattle.tb_embed.specs.Calls.{id_of_halves};
ghost use Rattle.tb_embed.specs.Callers.{phase_number, CallsBody, CallsFrame, Checks, Receives};
ghost use Rattle.tb_embed.specs.private.Calling.{ReadsWholeFrame, ReadsKept, ReadsPhase, ReadsClient, IsResting, stored};

use crate::calls::id;
use crate::steps::{Step, TbCaller};
use std::alloc::Global;
use tb_caller::{CallFault, Caller, Heard, Phase};
use tb_records::{Body, FrameFault, Request, read_request};

/// The request whose frame the bytes are.
fn whole_request(alloc: Global, bytes: &[u8]) -> Result<Request, Step>
    ensures { ReadsWholeFrame result bytes.now }
{
    match read_request(alloc, bytes) {
        Ok((request, length)) => {
            if length == bytes.len() {
                Ok(request)
            } else {
                drop(request);
                Err(Step::Malformed)
            }
        }
        Err(FrameFault::NoMemory) => Err(Step::NoMemory),
        Err(_) => Err(Step::Malformed),
    }
}

/// The request whose frame is kept.
fn kept_request(alloc: Global, frame: &[u8]) -> Result<Request, Step>
    ensures { ReadsKept result frame.now }
{
    match whole_request(alloc, frame) {
        Ok(request) => Ok(request),
        Err(Step::Malformed) => Err(Step::NoClient),
        Err(step) => Err(step),
    }
}

/// The phase of a number, with the request of the frame that is kept.
fn phase(alloc: Global, number: u32, frame: &[u8]) -> Result<Phase, Step>
    ensures { ReadsPhase result number frame.now }
{
    match number {
        0 => Ok(Phase::Unregistered),
        1 => match kept_request(alloc, frame) {
            Ok(request) => Ok(Phase::Open(request)),
            Err(step) => Err(step),
        },
        2 => Ok(Phase::Idle),
        3 => match kept_request(alloc, frame) {
            Ok(request) => Ok(Phase::Ended(request)),
            Err(step) => Err(step),
        },
        _ => Err(Step::NoClient),
    }
}

/// The client that is kept.
fn client(alloc: Global, kept: &TbCaller, frame: &[u8]) -> Result<Caller, Step>
    ensures { ReadsClient result kept.now frame.now }
{
    let phase = match phase(alloc, kept.phase, frame) {
        Ok(phase) => phase,
        Err(step) => return Err(step),
    };
    let id = id(kept.id_low, kept.id_high);
    match Caller::from_fields(id, kept.session, kept.last, phase) {
        Ok(caller) => Ok(caller),
        Err(fault) => Err(Step::Wrong(fault)),
    }
}

/// The phase of a number in which a request may be made. The request that waits is not read for that.
fn resting(number: u32) -> Result<Phase, Step>
    ensures { IsResting result number }
{
    match number {
        0 => Ok(Phase::Unregistered),
        1 => Err(Step::NoCall(CallFault::Unanswered)),
        2 => Ok(Phase::Idle),
        3 => Err(Step::NoCall(CallFault::Ended)),
        _ => Err(Step::NoClient),
    }
}

/// The number of a phase.
fn number_of(phase: &Phase) -> u32
    ensures { result ≡ phase_number phase.now }
{
    match phase {
        Phase::Unregistered => 0,
        Phase::Open(_) => 1,
        Phase::Idle => 2,
        Phase::Ended(_) => 3,
    }
}

/// Keeps the numbers of a client.
fn store(kept: &mut TbCaller, caller: &Caller)
    ensures { kept.new ≡ stored kept.old caller.now }
{
    kept.session = caller.session();
    kept.last = caller.last();
    kept.phase = number_of(caller.phase());
}

/// Makes the request of a body, and writes its frame.
fn call_body(alloc: Global, kept: &mut TbCaller, body: Body, room: &mut [u8]) -> Step
    ensures { CallsBody result kept.old kept.new body room.new }
{
    let phase = match resting(kept.phase) {
        Ok(phase) => phase,
        Err(step) => {
            drop(body);
            return step;
        }
    };
    let id = id(kept.id_low, kept.id_high);
    let mut caller = match Caller::from_fields(id, kept.session, kept.last, phase) {
        Ok(caller) => caller,
        Err(fault) => {
            drop(body);
            return Step::Wrong(fault);
        }
    };
    let mut frame = Vec::new(alloc);
    if let Err(fault) = caller.call(body, &mut frame) {
        drop(frame);
        drop(caller);
        return Step::NoCall(fault);
    }
    let bytes = frame.as_slice();
    let length = bytes.len();
    if length > room.len() {
        drop(frame);
        drop(caller);
        return Step::TooSmall(length);
    }
    room[..length].copy_from_slice(bytes);
    store(kept, &caller);
    drop(frame);
    drop(caller);
    Step::Done(length)
}

/// Makes the request of a frame's body.
pub(crate) fn call(alloc: Global, kept: &mut TbCaller, request: &[u8], room: &mut [u8]) -> Step
    ensures { CallsFrame result kept.old kept.new request.now room.new }
{
    let request = match whole_request(alloc, request) {
        Ok(request) => request,
        Err(step) => return step,
    };
    match request.body().copy(alloc) {
        Ok(body) => {
            drop(request);
            call_body(alloc, kept, body, room)
        }
        Err(_) => {
            drop(request);
            Step::NoMemory
        }
    }
}

/// Says whether the numbers and the frame are those of a client.
pub(crate) fn check(alloc: Global, kept: &TbCaller, frame: &[u8]) -> Step
    ensures { Checks result kept.now frame.now }
{
    match client(alloc, kept, frame) {
        Ok(caller) => {
            drop(caller);
            Step::Done(0)
        }
        Err(step) => step,
    }
}

/// Takes the reply that the bytes begin with: what it is for the request that waits, and the length of its frame.
pub(crate) fn receive(
    alloc: Global,
    kept: &mut TbCaller,
    frame: &[u8],
    bytes: &[u8],
) -> Result<(Heard, usize), Step>
    ensures { Receives result kept.old kept.new frame.now bytes.now }
{
    let mut caller = match client(alloc, kept, frame) {
        Ok(caller) => caller,
        Err(step) => return Err(step),
    };
    match caller.received(alloc, bytes) {
        Ok((heard, reply, length)) => {
            drop(reply);
            store(kept, &caller);
            drop(caller);
            Ok((heard, length))
        }
        Err(FrameFault::NoMemory) => {
            drop(caller);
            Err(Step::NoMemory)
        }
        Err(_) => {
            drop(caller);
            Err(Step::Malformed)
        }
    }
}
