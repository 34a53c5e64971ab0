//! A step of a client's session, from its bytes to those of its answer. Numbers have their lowest byte first.
//!
//! A step is a head of 38 bytes and a rest: the frame of the request that waits or was left in doubt, and what is given. An
//! answer is a head of 46 bytes, and the frame of that request after the step.
//!
//! - Both heads begin with the client's id (16 bytes), its session (8), its last number (4), and its phase (1): 0 not
//!   registered, 1 a request waits for its reply, 2 no request waits, 3 the session is over.
//! - A step's head then has what is done (1): 0 a call of the body of the given frame, 1 the given bytes came; and the
//!   length of the rest (8).
//! - An answer's head then has the outcome (1, `Outcome`), the length of the frame (8), and the length of the reply's frame
//!   (8).
ghost use Rattle.std.specs.Prelude.{◌≡◌, IfOk, IfErr, length};
ghost use Rattle.tb_oracle.specs.Steps.{id_at, step_session, last_at, phase_code, phase_frame, call_fault_code, outcome_code, reply_length, step_answer_bytes, IsStepAnswer, IsFault, ReadsPhaseFields, ReadsClientFields, TakesCall, TakesReply};

use crate::faults::OracleFault;
use byteorder::{ByteOrder, LittleEndian};
use std::alloc::{AllocError, Global};
use tb_caller::{CallFault, Caller, Heard, Phase};
use tb_records::{FrameFault, read_request, write_request};

/// What a step makes of a client's session.
#[derive(Clone, Copy, Debug, PartialEq, Eq)]
pub enum Outcome {
    /// The next request waits: its frame is what the client sends.
    Made,
    /// The call makes no request.
    NoCall(CallFault),
    /// The bytes begin with a reply, whose frame has this length: what the reply is for the request that waits.
    Reply(Heard, usize),
    /// The bytes begin with no reply.
    NoReply(FrameFault),
}

impl Outcome {
    /// The outcome's number.
    fn code(self) -> u8
        ensures { result ≡ outcome_code self }
    {
        match self {
            Outcome::Made => 0,
            Outcome::Reply(Heard::Returned, _) => 1,
            Outcome::Reply(Heard::Ended, _) => 2,
            Outcome::Reply(Heard::Refused, _) => 3,
            Outcome::Reply(Heard::Other, _) => 4,
            Outcome::NoReply(_) => 5,
            Outcome::NoCall(fault) => call_code(fault),
        }
    }

    /// The length of the reply's frame.
    fn reply_length(self) -> usize
        ensures { result ≡ reply_length self }
    {
        match self {
            Outcome::Reply(_, length) => length,
            _ => 0,
        }
    }
}

/// The number of a call that makes no request.
fn call_code(fault: CallFault) -> u8
    ensures { result ≡ call_fault_code fault }
{
    match fault {
        CallFault::NotRegistered => 6,
        CallFault::Registered => 7,
        CallFault::Unanswered => 8,
        CallFault::Ended => 9,
        CallFault::NoNumber => 10,
        CallFault::Frame(_) => 11,
        CallFault::NoMemory => 12,
    }
}

/// The number of a phase.
fn phase_number(phase: &Phase) -> u8
    ensures { result ≡ phase_code phase.now }
{
    match phase {
        Phase::Unregistered => 0,
        Phase::Open(_) => 1,
        Phase::Idle => 2,
        Phase::Ended(_) => 3,
    }
}

/// The phase of a number, with the request whose frame the bytes begin with, and the length of that frame.
fn phase_in(alloc: Global, number: u8, bytes: &[u8]) -> Result<(Phase, usize), OracleFault>
    ensures { ReadsPhaseFields result number bytes.now }
{
    match number {
        0 => Ok((Phase::Unregistered, 0)),
        1 => match read_request(alloc, bytes) {
            Ok((request, length)) => Ok((Phase::Open(request), length)),
            Err(fault) => Err(OracleFault::Frame(fault)),
        },
        2 => Ok((Phase::Idle, 0)),
        3 => match read_request(alloc, bytes) {
            Ok((request, length)) => Ok((Phase::Ended(request), length)),
            Err(fault) => Err(OracleFault::Frame(fault)),
        },
        _ => Err(OracleFault::UnknownPhase),
    }
}

/// The client's id, its session and its last number.
fn numbers_at(head: &[u8]) -> (u128, u64, u32)
    requires { length head.now ≡ 38 }
    ensures id { result.0 ≡ id_at head.now }
    ensures session { result.1 ≡ step_session head.now }
    ensures last { result.2 ≡ last_at head.now }
{
    let id = LittleEndian::read_u128(head);
    let session = LittleEndian::read_u64(&head[16..]);
    let last = LittleEndian::read_u32(&head[24..]);
    (id, session, last)
}

/// The client of a step, and the place of what is given in the rest.
fn client_in(alloc: Global, head: &[u8], rest: &[u8]) -> Result<(Caller, usize), OracleFault>
    requires { length head.now ≡ 38 }
    ensures { ReadsClientFields result head.now rest.now }
{
    let (phase, length) = match phase_in(alloc, head[28], rest) {
        Ok(read) => read,
        Err(fault) => return Err(fault),
    };
    let (id, session, last) = numbers_at(head);
    match Caller::from_fields(id, session, last, phase) {
        Ok(caller) => Ok((caller, length)),
        Err(fault) => Err(OracleFault::Field(fault)),
    }
}

/// Calls the body of a frame.
fn call(alloc: Global, caller: &mut Caller, frame: &[u8]) -> Result<Outcome, OracleFault>
    ensures { TakesCall result caller.old caller.new frame.now }
{
    let request = match read_request(alloc, frame) {
        Ok((request, length)) if length == frame.len() => request,
        Ok(_) => return Err(OracleFault::Frame(FrameFault::BadLength)),
        Err(fault) => return Err(OracleFault::Frame(fault)),
    };
    let Ok(body) = request.body().copy(alloc) else {
        return Err(OracleFault::Frame(FrameFault::NoMemory));
    };
    match caller.make_request(body) {
        Ok(()) => Ok(Outcome::Made),
        Err(fault) => Ok(Outcome::NoCall(fault)),
    }
}

/// Takes bytes that came.
fn receive(alloc: Global, caller: &mut Caller, bytes: &[u8]) -> Result<Outcome, OracleFault>
    ensures { TakesReply result caller.old caller.new bytes.now }
{
    match caller.received(alloc, bytes) {
        Ok((heard, _, length)) => Ok(Outcome::Reply(heard, length)),
        Err(FrameFault::NoMemory) => Err(OracleFault::Frame(FrameFault::NoMemory)),
        Err(fault) => Ok(Outcome::NoReply(fault)),
    }
}

/// The frame of the request that waits, or was left in doubt.
fn frame_of(alloc: Global, caller: &Caller) -> Result<Vec<u8>, AllocError>
    ensures { IfOk result (λ frame. frame.items ≡ phase_frame caller.now.phase) }
{
    let mut frame = Vec::new(alloc);
    caller.again(&mut frame)?;
    if let Phase::Ended(request) = caller.phase() {
        write_request(request, &mut frame)?;
    }
    Ok(frame)
}

/// The bytes of an outcome, with the client's fields after it.
fn answer_of(alloc: Global, outcome: Outcome, caller: &Caller) -> Result<Vec<u8>, AllocError>
    ensures { IfOk result (λ bytes. bytes.items ≡ step_answer_bytes outcome caller.now) }
{
    let frame = frame_of(alloc, caller)?;
    let mut bytes = Vec::new(alloc);
    bytes.extend_from_slice(&caller.id().to_le_bytes())?;
    bytes.extend_from_slice(&caller.session().to_le_bytes())?;
    bytes.extend_from_slice(&caller.last().to_le_bytes())?;
    bytes.push(phase_number(caller.phase()))?;
    bytes.push(outcome.code())?;
    bytes.extend_from_slice(&(frame.len() as u64).to_le_bytes())?;
    bytes.extend_from_slice(&(outcome.reply_length() as u64).to_le_bytes())?;
    bytes.extend_from_slice(&frame)?;
    Ok(bytes)
}

/// What a step makes of the client, and the client's fields after it, as bytes.
pub fn answer(alloc: Global, head: &[u8], rest: &[u8]) -> Result<Vec<u8>, OracleFault>
    requires { length head.now ≡ 38 }
    ensures answer { IfOk result (λ bytes. IsStepAnswer head.now rest.now bytes.items) }
    ensures fault { IfErr result (λ f. IsFault f head.now rest.now) }
{
    let (mut caller, place) = match client_in(alloc, head, rest) {
        Ok(read) => read,
        Err(fault) => return Err(fault),
    };
    let given = &rest[place..];
    let outcome = match head[29] {
        0 => call(alloc, &mut caller, given)?,
        1 => receive(alloc, &mut caller, given)?,
        _ => return Err(OracleFault::UnknownStep),
    };
    Ok(answer_of(alloc, outcome, &caller)?)
}
