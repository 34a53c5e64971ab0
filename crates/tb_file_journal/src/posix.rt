//! A file of a system as a device: whole reads and writes, over calls that transfer a part, are interrupted or fail.
ghost use Rattle.std.specs.Prelude.{◌≡◌, ◌+◌, ◌^◌, ◌<◌, ◌≤◌, length, Ok, IfOk, IfErr, refl};
ghost use Rattle.tb_file_journal.specs.Device.{Cuts, Syncs, IsOfCall, IsOfSync};
ghost use Rattle.tb_file_journal.specs.System.{fault_of};
ghost use Rattle.tb_file_journal.specs.private.Posix.{ReadsSome, WritesSomeBytes};

use crate::devices::Device;
use crate::faults::JournalFault;
use crate::growing::Growing;
use crate::systems::System;
use std::io::ErrorKind;

/// A file of a system. It keeps the contract of `Device` if the system's calls keep that of `System`.
#[derive(Drop)]
pub struct Posix<S> {
    system: S,
}

impl<S: System + Drop> Posix<S> {
    /// The device of an open file.
    pub fn new(system: S) -> Posix<S>
        ensures { result ≡ record { system = system } }
    {
        Posix { system }
    }

    /// The device of an open file, which is synced, so that what is read is durable.
    pub fn synced(system: S) -> Result<Posix<S>, JournalFault>
        ensures names { IfErr result IsOfSync }
        ensures syncs { S.tells → IfOk result (λ file. Syncs (Ok tt) (S.disk system) (S.disk file.system)) }
    {
        let mut system = system;
        match sync_once(&mut system) {
            Ok(()) => Ok(Posix { system }),
            Err(fault) => Err(fault),
        }
    }

    /// The open file.
    pub fn system(&self) -> &S
        ensures { result.now ≡ self.now.system }
    {
        &self.system
    }
}

impl<S: System> Device for Posix<S> {
    ghost tells = { S.tells };

    ghost disk = { λ file. S.disk file.system };

    ghost holds = { λ file bytes. S.tells × (bytes ≡ (S.disk file.system).seen) };

    ghost holds_seen = { λ file tells. (tells, refl) };

    ghost stays = { λ file. S.stays file.system };

    ghost counts_now = { λ file. S.counts_now file.system };

    ghost only_now = { λ file. S.only_now file.system };

    fn read_at(&mut self, at: usize, into: &mut [u8]) -> Result<usize, JournalFault> {
        let mut count = 0;
        while count < into.len() {
            match read_some(&mut self.system, offset_of(at, count), &mut into[count..]) {
                Ok(0) => return Ok(count),
                Ok(more) => count += more,
                Err(fault) => return Err(fault),
            }
        }
        Ok(count)
    }

    fn len(&mut self) -> Result<usize, JournalFault> {
        match self.system.fstat() {
            Ok(len) => Ok(len as usize),
            Err(kind) => Err(fault_of(kind)),
        }
    }

    fn write_at(&mut self, at: usize, bytes: &[u8]) -> Result<(), JournalFault> {
        let mut count = 0;
        while count < bytes.len() {
            match write_some(&mut self.system, offset_of(at, count), &bytes[count..]) {
                Ok(written) => count += written,
                Err(fault) => return Err(fault),
            }
        }
        Ok(())
    }

    fn cut(&mut self, len: usize) -> Result<(), JournalFault> {
        cut_once(&mut self.system, len)
    }

    fn sync(&mut self) -> Result<(), JournalFault> {
        sync_once(&mut self.system)
    }
}

impl<S: System> Growing for Posix<S> {
    // Under the contract of the system's calls nobody else writes.
    ghost grows = { λ file bytes. S.tells × (bytes ≡ (S.disk file.system).seen) };

    fn read_at(&mut self, at: usize, into: &mut [u8]) -> Result<usize, JournalFault> {
        <Self as Device>::read_at(self, at, into)
    }

    fn len(&mut self) -> Result<usize, JournalFault> {
        <Self as Device>::len(self)
    }
}

// The offset of the byte that is so many after this one.
fn offset_of(at: usize, count: usize) -> u64
    ensures { at + count < 2 ^ 64 → result ≡ at + count }
{
    (at as u64).saturating_add(count as u64)
}

// Reads some bytes, and retries as long as a signal interrupts the call.
fn read_some<S: System>(system: &mut S, offset: u64, into: &mut [u8]) -> Result<usize, JournalFault>
    ensures within { IfOk result (λ count. count ≤ length into.new) }
    ensures names { IfErr result IsOfCall }
    ensures reads { S.tells → ReadsSome offset into.new result (S.disk system.old) (S.disk system.new) }
{
    for _ in 0..u64::MAX {
        match system.pread(into, offset) {
            Ok(count) => return Ok(count),
            Err(kind) => match kind {
                ErrorKind::Interrupted => {}
                _ => return Err(fault_of(kind)),
            },
        }
    }
    Err(JournalFault::Failed)
}

// Writes some of these bytes, at least one, and retries as long as a signal interrupts the call.
fn write_some<S: System>(system: &mut S, offset: u64, bytes: &[u8]) -> Result<usize, JournalFault>
    requires some { 1 ≤ length bytes.now }
    requires within { S.tells → offset ≤ length (S.disk system.old).seen }
    ensures some { IfOk result (λ count. 1 ≤ count) }
    ensures within { IfOk result (λ count. count ≤ length bytes.now) }
    ensures names { IfErr result IsOfCall }
    ensures writes { S.tells
        → WritesSomeBytes offset bytes.now result (S.disk system.old) (S.disk system.new) }
{
    for _ in 0..u64::MAX {
        match system.pwrite(bytes, offset) {
            Ok(0) => return Err(JournalFault::Failed),
            Ok(count) => return Ok(count),
            Err(kind) => match kind {
                ErrorKind::Interrupted => {}
                _ => return Err(fault_of(kind)),
            },
        }
    }
    Err(JournalFault::Failed)
}

// Cuts the file, and retries as long as a signal interrupts the call.
fn cut_once<S: System>(system: &mut S, len: usize) -> Result<(), JournalFault>
    requires { S.tells → len ≤ length (S.disk system.old).seen }
    ensures names { IfErr result IsOfCall }
    ensures cuts { S.tells → Cuts len result (S.disk system.old) (S.disk system.new) }
{
    for _ in 0..u64::MAX {
        match system.ftruncate(len as u64) {
            Ok(()) => return Ok(()),
            Err(kind) => match kind {
                ErrorKind::Interrupted => {}
                _ => return Err(fault_of(kind)),
            },
        }
    }
    Err(JournalFault::Failed)
}

// Syncs the file, and retries as long as a signal interrupts the call.
fn sync_once<S: System>(system: &mut S) -> Result<(), JournalFault>
    ensures names { IfErr result IsOfSync }
    ensures syncs { S.tells → Syncs result (S.disk system.old) (S.disk system.new) }
{
    for _ in 0..u64::MAX {
        match system.fdatasync() {
            Ok(()) => return Ok(()),
            Err(kind) => match kind {
                ErrorKind::Interrupted => {}
                _ => return Err(JournalFault::SyncFailed),
            },
        }
    }
    Err(JournalFault::SyncFailed)
}

// The fault of a call with this error.
#[tactic(auto, unfolding(crate::specs::System::fault_of))]
fn fault_of(kind: ErrorKind) -> JournalFault
    ensures is { result ≡ fault_of kind }
    ensures names { IsOfCall result }
{
    match kind {
        ErrorKind::OutOfMemory => JournalFault::Memory,
        ErrorKind::StorageFull | ErrorKind::QuotaExceeded | ErrorKind::FileTooLarge =>
            JournalFault::Full,
        _ => JournalFault::Failed,
    }
}
