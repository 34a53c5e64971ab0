//! Why a call makes no request, and why no client has some fields.
ghost use Rattle.std.specs.Prelude.{◌≡◌, Some};
ghost use Rattle.tb_caller.specs.Faults.{call_fault_name, field_fault_name};

use std::alloc::AllocError;
use std::fmt;
use tb_records::FrameFault;
use thiserror::Error;

/// Why a call makes no request. The client is as it was.
#[derive(Clone, Copy, Debug, PartialEq, Eq, Error)]
pub enum CallFault {
    /// A client registers before any other call.
    NotRegistered,
    /// A client registers once.
    Registered,
    /// The last request has no reply yet.
    Unanswered,
    /// The session has ended.
    Ended,
    /// All numbers are used: a new client has to register.
    NoNumber,
    /// The request's numbers or items break a rule.
    Frame(FrameFault),
    /// There is no memory for the frame.
    NoMemory,
}

impl CallFault {
    /// The fault's name, as a message shows it; for a frame's fault, that fault's own name.
    pub fn name(self) -> &'static str
        ensures { result.now ≡ call_fault_name self }
    {
        match self {
            CallFault::NotRegistered => "NotRegistered",
            CallFault::Registered => "Registered",
            CallFault::Unanswered => "Unanswered",
            CallFault::Ended => "Ended",
            CallFault::NoNumber => "NoNumber",
            CallFault::Frame(fault) => fault.name(),
            CallFault::NoMemory => "NoMemory",
        }
    }
}

impl From<AllocError> for CallFault {
    ghost use Rattle.tb_caller.specs.declared.faults.CallFault.TheVariants.{NoMemory};

    ghost from_gives = { λ _ fault. fault ≡ NoMemory };

    fn from(_: AllocError) -> CallFault {
        CallFault::NoMemory
    }
}

impl fmt::Display for CallFault {
    ghost output = { λ fault. Some (call_fault_name fault) };

    fn fmt<W: fmt::Write>(&self, f: &mut fmt::Formatter<W>) -> fmt::Result {
        f.write_str(self.name())
    }
}

/// Why no client has the fields.
#[derive(Clone, Copy, Debug, PartialEq, Eq, Error)]
pub enum FieldFault {
    /// A client that has not registered has session 0 and number 0.
    RegisterNumbers,
    /// The request is another client's.
    OtherClient,
    /// The request is of another session.
    OtherSession,
    /// The request's number is not the last one.
    OtherNumber,
}

impl FieldFault {
    /// The fault's name, as a message shows it.
    pub fn name(self) -> &'static str
        ensures { result.now ≡ field_fault_name self }
    {
        match self {
            FieldFault::RegisterNumbers => "RegisterNumbers",
            FieldFault::OtherClient => "OtherClient",
            FieldFault::OtherSession => "OtherSession",
            FieldFault::OtherNumber => "OtherNumber",
        }
    }
}

impl fmt::Display for FieldFault {
    ghost output = { λ fault. Some (field_fault_name fault) };

    fn fmt<W: fmt::Write>(&self, f: &mut fmt::Formatter<W>) -> fmt::Result {
        f.write_str(self.name())
    }
}
