//! Why a call on a device or a journal failed.
ghost use Rattle.std.specs.Prelude.{◌≡◌, Some};
ghost use Rattle.tb_file_journal.specs.Faults.{journal_fault_number, journal_fault_name};

use std::alloc::{AllocError, AllocFailed};
use std::fmt;

/// What went wrong in a call on a device or a journal.
#[derive(Clone, Copy, Debug, PartialEq, Eq)]
pub enum JournalFault {
    /// There is no memory.
    Memory,
    /// The device failed.
    Failed,
    /// The device is full, or the journal at its greatest length.
    Full,
    /// A record has 2^24 bytes or more.
    TooLong,
    /// A journal is to be created, but the file is not empty.
    NotEmpty,
    /// A sync failed. What was written since the last one may be lost although reads still return it, and no later sync restores it.
    SyncFailed,
}

impl JournalFault {
    /// The fault's number, 1 to 6.
    pub fn number(self) -> u8
        ensures { result ≡ journal_fault_number self }
    {
        match self {
            JournalFault::Memory => 1,
            JournalFault::Failed => 2,
            JournalFault::Full => 3,
            JournalFault::TooLong => 4,
            JournalFault::NotEmpty => 5,
            JournalFault::SyncFailed => 6,
        }
    }

    /// The fault's name, as a message shows it.
    pub fn name(self) -> &'static str
        ensures { result.now ≡ journal_fault_name self }
    {
        match self {
            JournalFault::Memory => "Memory",
            JournalFault::Failed => "Failed",
            JournalFault::Full => "Full",
            JournalFault::TooLong => "TooLong",
            JournalFault::NotEmpty => "NotEmpty",
            JournalFault::SyncFailed => "SyncFailed",
        }
    }
}

impl From<AllocError> for JournalFault {
    ghost use Rattle.tb_file_journal.specs.declared.faults.JournalFault.TheVariants.{Memory};

    ghost from_gives = { λ _ fault. fault ≡ Memory };

    fn from(_: AllocError) -> JournalFault {
        JournalFault::Memory
    }
}

impl<T: Drop> From<AllocFailed<T>> for JournalFault {
    ghost use Rattle.tb_file_journal.specs.declared.faults.JournalFault.TheVariants.{Memory};

    ghost from_gives = { λ _ fault. fault ≡ Memory };

    fn from(_: AllocFailed<T>) -> JournalFault {
        JournalFault::Memory
    }
}

impl fmt::Display for JournalFault {
    ghost output = { λ fault. Some (journal_fault_name fault) };

    fn fmt<W: fmt::Write>(&self, f: &mut fmt::Formatter<W>) -> fmt::Result {
        f.write_str(self.name())
    }
}
