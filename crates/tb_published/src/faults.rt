//! What became of a request that was taken, and why a call is refused.
ghost use Rattle.std.specs.Prelude.{◌≡◌, Some};
ghost use Rattle.tb_published.specs.Faults.{open_fault_name, open_fault_number, seat_fault_name, seat_fault_number, take_fault_name, take_fault_number};

use std::fmt;
use tb_records::Status;
use thiserror::Error;

/// What became of a request that was taken.
#[derive(Clone, Copy, Debug, PartialEq, Eq)]
pub enum Taken {
    /// It was new, and is the entry of the history with this commit number.
    Committed(u64),
    /// It is in the history already, as the entry with this commit number.
    Repeat(u64),
    /// It is refused, with this status.
    Refused(Status),
}

/// Why a request is not taken.
#[derive(Clone, Copy, Debug, PartialEq, Eq, Error)]
pub enum TakeFault {
    /// There is no memory for the entry. The history is unchanged.
    NoMemory,
    /// The request is new, and the end of time leaves no time for it. The history is unchanged.
    TimeExhausted,
    /// The copies show less than the history, whose last entry has this commit number.
    Unpublished(u64),
}

impl TakeFault {
    /// The fault's number, 1 to 3.
    pub fn number(self) -> u8
        ensures { result ≡ take_fault_number self }
    {
        match self {
            TakeFault::NoMemory => 1,
            TakeFault::TimeExhausted => 2,
            TakeFault::Unpublished(_) => 3,
        }
    }

    /// The fault's name, as a message shows it.
    pub fn name(self) -> &'static str
        ensures { result.now ≡ take_fault_name self }
    {
        match self {
            TakeFault::NoMemory => "NoMemory",
            TakeFault::TimeExhausted => "TimeExhausted",
            TakeFault::Unpublished(_) => "Unpublished",
        }
    }
}

impl fmt::Display for TakeFault {
    ghost output = { λ fault. Some (take_fault_name fault) };

    fn fmt<W: fmt::Write>(&self, f: &mut fmt::Formatter<W>) -> fmt::Result {
        f.write_str(self.name())
    }
}

/// Why there is no opening.
#[derive(Clone, Copy, Debug, PartialEq, Eq, Error)]
pub enum OpenFault {
    /// There is no memory for the copies and the seats.
    NoMemory,
    /// The copies have no place for a reader.
    NoPlace,
}

impl OpenFault {
    /// The fault's number, 1 to 2.
    pub fn number(self) -> u8
        ensures { result ≡ open_fault_number self }
    {
        match self {
            OpenFault::NoMemory => 1,
            OpenFault::NoPlace => 2,
        }
    }

    /// The fault's name, as a message shows it.
    pub fn name(self) -> &'static str
        ensures { result.now ≡ open_fault_name self }
    {
        match self {
            OpenFault::NoMemory => "NoMemory",
            OpenFault::NoPlace => "NoPlace",
        }
    }
}

impl fmt::Display for OpenFault {
    ghost output = { λ fault. Some (open_fault_name fault) };

    fn fmt<W: fmt::Write>(&self, f: &mut fmt::Formatter<W>) -> fmt::Result {
        f.write_str(self.name())
    }
}

/// Why a seat gives no answer.
#[derive(Clone, Copy, Debug, PartialEq, Eq, Error)]
pub enum SeatFault {
    /// There is no memory for the answer.
    NoMemory,
    /// There is no copy to read: for example, the publisher is gone.
    NoCopy,
}

impl SeatFault {
    /// The fault's number, 1 to 2.
    pub fn number(self) -> u8
        ensures { result ≡ seat_fault_number self }
    {
        match self {
            SeatFault::NoMemory => 1,
            SeatFault::NoCopy => 2,
        }
    }

    /// The fault's name, as a message shows it.
    pub fn name(self) -> &'static str
        ensures { result.now ≡ seat_fault_name self }
    {
        match self {
            SeatFault::NoMemory => "NoMemory",
            SeatFault::NoCopy => "NoCopy",
        }
    }
}

impl fmt::Display for SeatFault {
    ghost output = { λ fault. Some (seat_fault_name fault) };

    fn fmt<W: fmt::Write>(&self, f: &mut fmt::Formatter<W>) -> fmt::Result {
        f.write_str(self.name())
    }
}
