//! What opens the device of a name.
ghost use Rattle.std.specs.Prelude.{◌≡◌, Bool, true, ℕ, List, Option, Result, IfOk};
ghost use Rattle.tb_edge_file.specs.declared.openers.OpeningFault.{OpeningFault};
ghost use Rattle.tb_edge_file.specs.declared.openers.Waited.{Waited};
ghost use Rattle.tb_edge_file.specs.declared.asides.Reason.{Reason};
ghost use Rattle.tb_edge_file.specs.ExitStatuses.{opening_fault, unread_fault};

use crate::asides::Reason;
use crate::live::Live;
use std::io::ErrorKind;
use tb_file_journal::{Device, FileFault, JournalFault};

/// Why a device was not opened.
#[derive(Clone, Copy, Debug, PartialEq, Eq)]
pub enum OpeningFault {
    /// Another process has it open.
    Locked,
    /// There is no file of this name, or no folder for it.
    Missing,
    /// This user may not open it.
    Forbidden,
    /// Its disk is read-only.
    ReadOnly,
    /// As many files are open as may be.
    TooMany,
    /// There is no memory.
    NoMemory,
    /// A sync of it failed.
    SyncFailed,
    /// There is a file of this name, and it was to be made.
    Exists,
    /// It is a folder, a pipe or a device of the system.
    NotAFile,
    /// It is a symbolic link to nothing.
    Dangling,
    /// It cannot be opened.
    Unopened,
    /// It was opened, and a read of it failed.
    Unread,
    /// It has no bytes, and one that has some was wanted.
    Empty,
    /// The disk is full.
    Full,
}

/// The fault of a file of the system that is not opened.
pub fn opening_fault(fault: &FileFault) -> OpeningFault
    ensures { result ≡ opening_fault fault.now }
{
    match fault {
        FileFault::Locked => OpeningFault::Locked,
        FileFault::NotAFile => OpeningFault::NotAFile,
        FileFault::Exists => OpeningFault::Exists,
        FileFault::Dangling => OpeningFault::Dangling,
        FileFault::Sync(JournalFault::Memory) => OpeningFault::NoMemory,
        FileFault::Sync(_) => OpeningFault::SyncFailed,
        FileFault::System(error) => match error.kind() {
            ErrorKind::NotFound => OpeningFault::Missing,
            ErrorKind::PermissionDenied => OpeningFault::Forbidden,
            ErrorKind::ReadOnlyFilesystem => OpeningFault::ReadOnly,
            ErrorKind::StorageFull => OpeningFault::Full,
            ErrorKind::QuotaExceeded => OpeningFault::Full,
            ErrorKind::IsADirectory => OpeningFault::NotAFile,
            ErrorKind::OutOfMemory => OpeningFault::NoMemory,
            _ => OpeningFault::Unopened,
        },
    }
}

/// The fault of a file that was opened, but whose length or first bytes are not read.
pub fn unread_fault(fault: JournalFault) -> OpeningFault
    ensures { result ≡ unread_fault fault }
{
    match fault {
        JournalFault::Memory => OpeningFault::NoMemory,
        _ => OpeningFault::Unread,
    }
}

/// How a wait for more commits of a device that is read ended.
#[derive(Clone, Copy, Debug, PartialEq, Eq)]
pub enum Waited {
    /// There may be more by now.
    More,
    /// Nobody waits for any.
    Enough,
    /// The device is not followed any more: its name leads to another one, or could not be looked at.
    Parted(Reason),
}

/// What opens devices by their names, as a folder opens files.
pub trait Opener {
    /// A file that is served, or made: nobody else serves it meanwhile.
    type File: Device + Drop;

    /// A file that is only read, as it was at some moment: another program may serve it meanwhile.
    type Reading: Live + Drop;

    /// What `make` may return: it makes a missing file. Anything, if an opener does not define it.
    ghost makes: { Self → List ℕ → Result Self.File OpeningFault → Self → Type 0 } = { λ before name answer after. Unit {0} };

    /// What `take` may return: the file exists, and is to be served.
    ghost takes: { Self → List ℕ → Result Self.File OpeningFault → Self → Type 0 } = { λ before name answer after. Unit {0} };

    /// What `reason` may return: it says why a call failed.
    ghost reasons: { Self → Option Reason → Type 0 } = { λ opener answer. Unit {0} };

    /// What `open` may return: it makes nothing.
    ghost opens: { Self → List ℕ → Result Self.Reading OpeningFault → Self → Type 0 } = { λ before name answer after. Unit {0} };

    /// What `make_new` may return: it makes a file for a name that leads to none.
    ghost makes_new: { Self → List ℕ → Result Self.File OpeningFault → Self → Type 0 } = { λ before name answer after. Unit {0} };

    /// What `name_new` may return: it gives a file that was made so the name, if that still leads to none.
    ghost names_new: { Self → Self.File → List ℕ → Result (Unit {0}) OpeningFault → Self → Type 0 } = { λ before device name answer after. Unit {0} };

    /// What `pause` may return: it waits for more commits of the device that was opened last.
    ghost pauses: { Self → List ℕ → Waited → Self → Type 0 } = { λ before name answer after. Unit {0} };

    /// Opens the device of this name, and makes it if it is missing. No sync has failed on it.
    fn make(&mut self, name: &str) -> Result<Self::File, OpeningFault>
        ensures made { makes self.old name.now result self.new }
        ensures sound { Self.File.tells → IfOk result (λ device. (Self.File.disk device).sound ≡ true) };

    /// Opens the device of this name, which exists and has bytes. No sync has failed on it.
    fn take(&mut self, name: &str) -> Result<Self::File, OpeningFault>
        ensures taken { takes self.old name.now result self.new }
        ensures sound { Self.File.tells → IfOk result (λ device. (Self.File.disk device).sound ≡ true) };

    /// Why a call on a device that it made or took failed, if it knows that.
    fn reason(&self) -> Option<Reason>
        ensures { reasons self.now result };

    /// Makes a device for this name, which must lead to none: if it does, Exists is returned. It leads to the device only after `name_new`. No sync
    /// has failed on it.
    fn make_new(&mut self, name: &str) -> Result<Self::File, OpeningFault>
        ensures made { makes_new self.old name.now result self.new }
        ensures sound { Self.File.tells → IfOk result (λ device. (Self.File.disk device).sound ≡ true) };

    /// Gives a device that was made for this name the name. If that leads to another one by now, Exists is returned, and that one is as it was.
    fn name_new(&mut self, device: Self::File, name: &str) -> Result<(), OpeningFault>
        ensures { names_new self.old device name.now result self.new };

    /// Opens the device of this name, which exists, only for reading.
    fn open(&mut self, name: &str) -> Result<Self::Reading, OpeningFault>
        ensures { opens self.old name.now result self.new };

    /// Waits a moment for more commits of the device of this name, which was opened last.
    fn pause(&mut self, name: &str) -> Waited
        ensures { pauses self.old name.now result self.new };
}
