//! Why a kept ledger does not go on.
ghost use Rattle.std.specs.Prelude.{◌≡◌};
ghost use Rattle.tb_file.specs.Faults.{keep_fault_number, keep_fault_name, start_fault_number, start_fault_name, ledger_dump_fault_name, salvage_fault_name};

use std::fmt;
use tb_file_journal::{JournalFault, OpenFault};
use tb_machine::{RestoreFault, RunFault};
use tb_records::FrameFault;
use thiserror::Error;

/// Why serving ends before the pairs do. No more replies are sent, and the keeper must not be used again, because its machine may be ahead of the
/// file. The file is opened again.
#[derive(Clone, Copy, Debug, PartialEq, Eq, Error)]
pub enum KeepFault {
    /// A fault that serving without a file has too.
    Serving(RunFault),
    /// The journal failed.
    Journal(JournalFault),
}

impl KeepFault {
    /// The fault's number: 1 to 4 for those of serving, 5 to 10 for those of the journal.
    pub fn number(self) -> u8
        ensures { result ≡ keep_fault_number self }
    {
        match self {
            KeepFault::Serving(fault) => fault.number(),
            KeepFault::Journal(fault) => 4 + fault.number(),
        }
    }

    /// The fault's name, as a message shows it.
    pub fn name(self) -> &'static str
        ensures { result.now ≡ keep_fault_name self }
    {
        match self {
            KeepFault::Serving(fault) => fault.name(),
            KeepFault::Journal(fault) => fault.name(),
        }
    }
}

impl From<JournalFault> for KeepFault {
    ghost use Rattle.tb_file.specs.declared.faults.KeepFault.TheVariants.{Journal};

    ghost from_gives = { λ of_journal fault. fault ≡ Journal of_journal };

    fn from(fault: JournalFault) -> KeepFault {
        KeepFault::Journal(fault)
    }
}

impl From<RunFault> for KeepFault {
    ghost use Rattle.tb_file.specs.declared.faults.KeepFault.TheVariants.{Serving};

    ghost from_gives = { λ of_serving fault. fault ≡ Serving of_serving };

    fn from(fault: RunFault) -> KeepFault {
        KeepFault::Serving(fault)
    }
}

impl fmt::Display for KeepFault {
    ghost use Rattle.std.specs.Prelude.{Some};
    ghost use Rattle.tb_file.specs.Faults.{keep_fault_name};

    ghost output = { λ fault. Some (keep_fault_name fault) };

    fn fmt<W: fmt::Write>(&self, f: &mut fmt::Formatter<W>) -> fmt::Result {
        f.write_str(self.name())
    }
}

/// Why a file is not opened as a kept ledger. The file keeps its records.
#[derive(Clone, Copy, Debug, PartialEq, Eq, Error)]
pub enum StartFault {
    /// The journal is not opened or created, or its head is not committed.
    Journal(OpenFault),
    /// The first record is no head, or there is no record.
    Head,
    /// The head names other rules.
    OtherRules,
    /// The record of this place, 1, 2, 3 and so on, is that of no entry.
    Record { place: u64, fault: FrameFault },
    /// The entry of this place may not come next.
    Entry(RestoreFault),
    /// Out of memory.
    NoMemory,
    /// The last whole record ends at offset `at`. After it and the latch there are `bytes` bytes: more than a batch can have that was not
    /// committed. They are not cut off.
    TornTooLong { at: u64, bytes: u64 },
}

impl StartFault {
    /// The fault's number, 1 to 7.
    pub fn number(self) -> u8
        ensures { result ≡ start_fault_number self }
    {
        match self {
            StartFault::Journal(_) => 1,
            StartFault::Head => 2,
            StartFault::OtherRules => 3,
            StartFault::Record { .. } => 4,
            StartFault::Entry(_) => 5,
            StartFault::NoMemory => 6,
            StartFault::TornTooLong { .. } => 7,
        }
    }

    /// The fault's name, as a message shows it.
    pub fn name(self) -> &'static str
        ensures { result.now ≡ start_fault_name self }
    {
        match self {
            StartFault::Journal(_) => "Journal",
            StartFault::Head => "Head",
            StartFault::OtherRules => "OtherRules",
            StartFault::Record { .. } => "Record",
            StartFault::Entry(_) => "Entry",
            StartFault::NoMemory => "NoMemory",
            StartFault::TornTooLong { .. } => "TornTooLong",
        }
    }
}

impl fmt::Display for StartFault {
    ghost use Rattle.std.specs.Prelude.{Some};
    ghost use Rattle.tb_file.specs.Faults.{start_fault_name};

    ghost output = { λ fault. Some (start_fault_name fault) };

    fn fmt<W: fmt::Write>(&self, f: &mut fmt::Formatter<W>) -> fmt::Result {
        f.write_str(self.name())
    }
}

/// Why the dump of a file is not written.
#[derive(Clone, Copy, Debug, PartialEq, Eq, Error)]
pub enum DumpFault {
    /// The file is no journal, or it is damaged, or a call on its device failed.
    Journal(OpenFault),
    /// The writer failed, or accepted no bytes.
    Writer(FrameFault),
}

impl DumpFault {
    /// The fault's name, as a message shows it.
    pub fn name(self) -> &'static str
        ensures { result.now ≡ ledger_dump_fault_name self }
    {
        match self {
            DumpFault::Journal(_) => "Journal",
            DumpFault::Writer(fault) => fault.name(),
        }
    }
}

impl fmt::Display for DumpFault {
    ghost use Rattle.std.specs.Prelude.{Some};
    ghost use Rattle.tb_file.specs.Faults.{ledger_dump_fault_name};

    ghost output = { λ fault. Some (ledger_dump_fault_name fault) };

    fn fmt<W: fmt::Write>(&self, f: &mut fmt::Formatter<W>) -> fmt::Result {
        f.write_str(self.name())
    }
}

/// Why the entries of a file are not copied into a new one.
#[derive(Clone, Copy, Debug, PartialEq, Eq, Error)]
pub enum SalvageFault {
    /// The old file is no ledger, or it is not read on: the fault of a start.
    Old(StartFault),
    /// The new file is not created, or not written to.
    New(StartFault),
}

impl SalvageFault {
    /// The fault's name, as a message shows it: that of the fault of a start.
    pub fn name(self) -> &'static str
        ensures { result.now ≡ salvage_fault_name self }
    {
        match self {
            SalvageFault::Old(fault) | SalvageFault::New(fault) => fault.name(),
        }
    }
}

impl fmt::Display for SalvageFault {
    ghost use Rattle.std.specs.Prelude.{Some};
    ghost use Rattle.tb_file.specs.Faults.{salvage_fault_name};

    ghost output = { λ fault. Some (salvage_fault_name fault) };

    fn fmt<W: fmt::Write>(&self, f: &mut fmt::Formatter<W>) -> fmt::Result {
        f.write_str(self.name())
    }
}
