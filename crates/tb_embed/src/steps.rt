//! A client's session as C keeps it, and the outcome of a call over it.
ghost use Rattle.std.specs.Prelude.{◌≡◌};
ghost use Rattle.tb_embed.specs.Callers.{call_code, field_code, step_code, step_length, heard_code};

use tb_caller::{CallFault, FieldFault, Heard};

/// A client's session: its id in two halves, its session, the number of its last request, and its phase: 0 not registered, 1
/// a request waits for its reply, 2 no request waits, 3 the session is over. The frame of the request that waits, or was
/// left in doubt, is kept next to it. A new client is all 0 except its id.
#[repr(C)]
#[derive(Clone, Copy, Debug, PartialEq, Eq)]
pub struct TbCaller {
    pub id_low: u64,
    pub id_high: u64,
    pub session: u64,
    pub last: u32,
    pub phase: u32,
}

/// The outcome of a call over a client's session.
#[derive(Clone, Copy, Debug, PartialEq, Eq)]
pub enum Step {
    /// It did what it is for: a frame of this many bytes was written or read.
    Done(usize),
    /// The call makes no request.
    NoCall(CallFault),
    /// The bytes are not one frame of a request, or do not begin with that of a reply.
    Malformed,
    /// The room is too small: this many bytes were to be written.
    TooSmall(usize),
    /// There was no memory, and nothing changed.
    NoMemory,
    /// The numbers and the frame that are kept are not of one client.
    Wrong(FieldFault),
    /// No phase has this number, or the frame that is kept is malformed.
    NoClient,
}

/// The status of a call that makes no request.
fn call_code(fault: CallFault) -> u32
    ensures { result ≡ call_code fault }
{
    match fault {
        CallFault::NotRegistered => 1,
        CallFault::Registered => 2,
        CallFault::Unanswered => 3,
        CallFault::Ended => 4,
        CallFault::NoNumber => 5,
        CallFault::Frame(_) => 6,
        CallFault::NoMemory => 8,
    }
}

/// The status of fields that no client has.
fn field_code(fault: FieldFault) -> u32
    ensures { result ≡ field_code fault }
{
    match fault {
        FieldFault::RegisterNumbers => 9,
        FieldFault::OtherClient => 10,
        FieldFault::OtherSession => 11,
        FieldFault::OtherNumber => 12,
    }
}

/// The number of what a reply is for the request.
pub(crate) fn heard_code(heard: Heard) -> u32
    ensures { result ≡ heard_code heard }
{
    match heard {
        Heard::Returned => 0,
        Heard::Ended => 1,
        Heard::Refused => 2,
        Heard::Other => 3,
    }
}

impl Step {
    /// The status, as embed/tb_embed.h names it.
    pub fn status(self) -> u32
        ensures { result ≡ step_code self }
    {
        match self {
            Step::Done(_) => 0,
            Step::NoCall(fault) => call_code(fault),
            Step::Malformed => 6,
            Step::TooSmall(_) => 7,
            Step::NoMemory => 8,
            Step::Wrong(fault) => field_code(fault),
            Step::NoClient => 13,
        }
    }

    /// The number of bytes that were written or read, or that the room must have.
    pub fn length(self) -> usize
        ensures { result ≡ step_length self }
    {
        match self {
            Step::Done(length) | Step::TooSmall(length) => length,
            _ => 0,
        }
    }
}
