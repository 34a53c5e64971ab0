//! Why bytes are not a frame, or values not a request or reply.
ghost use Rattle.std.specs.Prelude.{◌≡◌, Some};
ghost use Rattle.tb_records.specs.Faults.{fault_number, fault_name};

use std::alloc::{AllocError, AllocFailed};
use std::fmt;
use thiserror::Error;

/// What is wrong with a frame, or with its reader, writer or memory.
#[derive(Clone, Copy, Debug, PartialEq, Eq, Error)]
pub enum FrameFault {
    /// The bytes end before the frame does.
    Short,
    /// The client is 0.
    ClientZero,
    /// No operation has this number.
    UnknownOperation,
    /// A reserved byte is not 0, or the status of a reply is above 7.
    Reserved,
    /// The length of the body is not one that its operation and status allow.
    BadLength,
    /// There are more than 8190 items.
    TooMany,
    /// A register has session and request 0. Its reply has request 0, and session 0 if it is a refusal.
    RegisterNumbers,
    /// A request that is not a register has request 0.
    RequestZero,
    /// The reader or the writer failed, or the writer took nothing.
    Device,
    /// There is no memory for the body.
    NoMemory,
    /// The session and the commit number of a reply do not go together.
    ReplyNumbers,
}

impl FrameFault {
    /// The fault's number, 1 to 11.
    pub fn number(self) -> u8
        ensures { result ≡ fault_number self }
    {
        match self {
            FrameFault::Short => 1,
            FrameFault::ClientZero => 2,
            FrameFault::UnknownOperation => 3,
            FrameFault::Reserved => 4,
            FrameFault::BadLength => 5,
            FrameFault::TooMany => 6,
            FrameFault::RegisterNumbers => 7,
            FrameFault::RequestZero => 8,
            FrameFault::Device => 9,
            FrameFault::NoMemory => 10,
            FrameFault::ReplyNumbers => 11,
        }
    }

    /// The fault's name, as a message shows it.
    pub fn name(self) -> &'static str
        ensures { result.now ≡ fault_name self }
    {
        match self {
            FrameFault::Short => "Short",
            FrameFault::ClientZero => "ClientZero",
            FrameFault::UnknownOperation => "UnknownOperation",
            FrameFault::Reserved => "Reserved",
            FrameFault::BadLength => "BadLength",
            FrameFault::TooMany => "TooMany",
            FrameFault::RegisterNumbers => "RegisterNumbers",
            FrameFault::RequestZero => "RequestZero",
            FrameFault::Device => "Device",
            FrameFault::NoMemory => "NoMemory",
            FrameFault::ReplyNumbers => "ReplyNumbers",
        }
    }
}

impl From<AllocError> for FrameFault {
    ghost use Rattle.tb_records.specs.declared.faults.FrameFault.TheVariants.{NoMemory};

    ghost from_gives = { λ _ fault. fault ≡ NoMemory };

    fn from(_: AllocError) -> FrameFault {
        FrameFault::NoMemory
    }
}

impl<T: Drop> From<AllocFailed<T>> for FrameFault {
    ghost use Rattle.tb_records.specs.declared.faults.FrameFault.TheVariants.{NoMemory};

    ghost from_gives = { λ _ fault. fault ≡ NoMemory };

    fn from(_: AllocFailed<T>) -> FrameFault {
        FrameFault::NoMemory
    }
}

impl fmt::Display for FrameFault {
    ghost output = { λ fault. Some (fault_name fault) };

    fn fmt<W: fmt::Write>(&self, f: &mut fmt::Formatter<W>) -> fmt::Result {
        f.write_str(self.name())
    }
}
