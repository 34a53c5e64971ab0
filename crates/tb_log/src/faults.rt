//! Why a follower ends before its log does.
ghost use Rattle.std.specs.Prelude.{◌≡◌, Some};
ghost use Rattle.tb_log.specs.Faults.{log_fault_name, log_fault_text};

use std::alloc::AllocError;
use std::fmt;
use tb_records::FrameFault;
use thiserror::Error;

/// Why a follower ends before its log does. All answers that were written before remain valid.
#[derive(Clone, Copy, Debug, PartialEq, Eq, Error)]
pub enum LogFault {
    /// The reader or the writer failed.
    Device,
    /// There is no memory.
    NoMemory,
    /// The input ends within an item.
    Short,
    /// The next byte begins no item.
    UnknownKind(u8),
    /// The next entry has this position, which is above the next one.
    Gap(u64),
    /// The next entry has this position, which is that of an earlier one.
    Repeat(u64),
    /// The entry at this position has more bytes than an entry may have.
    TooLong(u64),
    /// The entry at this position has a wrong checksum.
    Damaged(u64),
    /// The entry at this position has bytes that are not a pair.
    BadEntry(u64, FrameFault),
    /// A request of the entry at this position is new, but there is no time left for it.
    TimeExhausted(u64),
    /// `2^64 - 1` items were taken.
    TooMany,
}

impl LogFault {
    /// The fault's name, as a message shows it.
    pub fn name(self) -> &'static str
        ensures { result.now ≡ log_fault_name self }
    {
        match self {
            LogFault::Device => "Device",
            LogFault::NoMemory => "NoMemory",
            LogFault::Short => "Short",
            LogFault::UnknownKind(_) => "UnknownKind",
            LogFault::Gap(_) => "Gap",
            LogFault::Repeat(_) => "Repeat",
            LogFault::TooLong(_) => "TooLong",
            LogFault::Damaged(_) => "Damaged",
            LogFault::BadEntry(_, _) => "BadEntry",
            LogFault::TimeExhausted(_) => "TimeExhausted",
            LogFault::TooMany => "TooMany",
        }
    }
}

impl From<AllocError> for LogFault {
    ghost use Rattle.tb_log.specs.declared.faults.LogFault.TheVariants.{NoMemory};

    ghost from_gives = { λ _ fault. fault ≡ NoMemory };

    fn from(_: AllocError) -> LogFault {
        LogFault::NoMemory
    }
}

impl fmt::Display for LogFault {
    ghost output = { λ fault. Some (log_fault_text fault) };

    fn fmt<W: fmt::Write>(&self, f: &mut fmt::Formatter<W>) -> fmt::Result {
        match *self {
            LogFault::UnknownKind(kind) => write!(f, "UnknownKind {kind}"),
            LogFault::Gap(position) => write!(f, "Gap at {position}"),
            LogFault::Repeat(position) => write!(f, "Repeat at {position}"),
            LogFault::TooLong(position) => write!(f, "TooLong at {position}"),
            LogFault::Damaged(position) => write!(f, "Damaged at {position}"),
            LogFault::TimeExhausted(position) => write!(f, "TimeExhausted at {position}"),
            LogFault::BadEntry(position, fault) => {
                let name = fault.name();
                write!(f, "BadEntry at {position}: {name}")
            }
            LogFault::Device | LogFault::NoMemory | LogFault::Short | LogFault::TooMany => {
                f.write_str(self.name())
            }
        }
    }
}
