//! A journal: records in a file, each durable before it counts.
ghost use Rattle.std.specs.Prelude.{◌≡◌, ◌↔◌, ◌≤◌, ◌<◌, ◌+◌, ◌^◌, true, false, [], length, Ok, IfErr, OnOk, OnErr, IsErrOf};
ghost use Rattle.tb_file_journal.specs.Device.{HasCause};
ghost use Rattle.tb_file_journal.specs.Contents.{at_rest, recorded, records_end};
ghost use Rattle.tb_file_journal.specs.Ready.{Kept, IsWritable, IsReady, grown_bytes, with_waiting, Acknowledges, LeavesAllOrNone};
ghost use Rattle.tb_file_journal.specs.Steps.{IsWholeFile, Overwrites, WritesBatch};

use crate::batches::{Batch, LATCH_BYTES, OPEN};
use crate::devices::Device;
use crate::faults::JournalFault;
use crate::written::Written;
use std::marker::Model;

/// A record has fewer bytes than this.
pub const RECORD_BYTES_MAX: usize = 1 << 24;

/// A journal's file has at most so many bytes.
pub const FILE_BYTES_MAX: usize = 1 << 62;

/// A file of records, and the records that wait to be written.
#[derive(Drop)]
pub struct Journal<D: Device> {
    pub(crate) device: D,
    pub(crate) end: usize,
    pub(crate) count: usize,
    pub(crate) batch: Batch,
    // No commit has failed.
    pub(crate) usable: bool,
}

impl<D: Device> Model for Journal<D> {
    ghost Value = { Kept D };

    ghost view = { λ j. record { device = j.device; end = j.end; count = j.count; waiting = j.batch; usable = j.usable } };

    ghost invariant = { λ j. (j.end + length (at_rest j.batch) ≤ 2 ^ 62) × (j.count ≤ j.end) };
}

impl<D: Device> Journal<D> {
    /// Lets a record wait for the next commit. The file stays as it is. At an `Err` nothing has changed.
    pub fn append(&mut self, content: &[u8]) -> Result<(), JournalFault>
        requires usable { self.old.usable ≡ true }
        ensures ok { OnOk result (self.new ≡ with_waiting self.old content.now) }
        ensures err { OnErr result (self.new ≡ self.old) }
        ensures long { IsErrOf result JournalFault.TooLong ↔ (2 ^ 24 ≤ length content.now) }
        ensures full { IsErrOf result JournalFault.Full
            ↔ (length content.now < 2 ^ 24) × (2 ^ 62 < grown_bytes self.old content.now) }
        ensures failed { IsErrOf result JournalFault.Failed → ⊥ }
        ensures not_empty { IsErrOf result JournalFault.NotEmpty → ⊥ }
        ensures synced { IsErrOf result JournalFault.SyncFailed → ⊥ }
    {
        if content.len() >= RECORD_BYTES_MAX {
            return Err(JournalFault::TooLong);
        }
        if content.len() + 11 > FILE_BYTES_MAX - self.end - self.batch.bytes().len() {
            return Err(JournalFault::Full);
        }
        match self.batch.add(content) {
            Ok(()) => Ok(()),
            Err(_) => Err(JournalFault::Memory),
        }
    }

    /// The same for a record that is written where it waits. At an `Err` nothing has changed.
    pub fn append_written<W: Written>(&mut self, content: &W) -> Result<(), JournalFault>
        requires usable { self.old.usable ≡ true }
        ensures ok { OnOk result (self.new ≡ with_waiting self.old (W.bytes content.now)) }
        ensures known { OnOk result (W.known content.now) }
        ensures err { OnErr result (self.new ≡ self.old) }
        ensures long { IsErrOf result JournalFault.TooLong → 2 ^ 24 ≤ length (W.bytes content.now) }
        ensures full { IsErrOf result JournalFault.Full
            → 2 ^ 62 < grown_bytes self.old (W.bytes content.now) }
        // A record that is too long or does not fit may fail for missing memory first.
        ensures short { OnOk result (length (W.bytes content.now) < 2 ^ 24) }
        ensures fits { OnOk result (grown_bytes self.old (W.bytes content.now) ≤ 2 ^ 62) }
        ensures failed { IsErrOf result JournalFault.Failed → ⊥ }
        ensures not_empty { IsErrOf result JournalFault.NotEmpty → ⊥ }
        ensures synced { IsErrOf result JournalFault.SyncFailed → ⊥ }
    {
        let room = FILE_BYTES_MAX - self.end - self.batch.bytes().len();
        self.batch.add_written(content, room)
    }

    /// Writes the records that wait. At `Ok` they are acknowledged: from then on each crash leaves a file that has them. If no record waits the
    /// device is not called. It allocates no memory of its own. After an `Err` the journal is not used again: the file has to be recovered.
    pub fn commit(&mut self) -> Result<(), JournalFault>
        requires usable { self.old.usable ≡ true }
        requires writable { D.tells → IsWritable D.disk self.old }

        ensures writable { D.tells → OnOk result (IsWritable D.disk self.new) }
        // If the journal was ready: all that is read is durable, and no sync has failed.
        ensures ready { D.tells → IsReady D.disk self.old → OnOk result (IsReady D.disk self.new) }
        ensures acknowledged { D.tells → OnOk result (Acknowledges D.disk self.old self.new) }
        ensures emptied { OnOk result (self.new.waiting ≡ []) }
        ensures idle { self.old.waiting ≡ [] → (result ≡ Ok tt) × (self.new ≡ self.old) }
        // Holds of any device.
        ensures usable { OnOk result (self.new.usable ≡ true) }
        ensures err { OnErr result (self.new ≡ record self.old { device = self.new.device; usable = false }) }

        // A crash at any moment of the call leaves the records from before it, with the whole batch or without it.
        ensures any_moment { D.tells → IsReady D.disk self.old → LeavesAllOrNone D.disk self.old self.new }

        ensures not_empty { IfErr result (λ fault. fault ≡ JournalFault.NotEmpty → ⊥) }

        // It fails only if the device fails.
        ensures cause { D.tells → HasCause result (D.disk self.old.device) (D.disk self.new.device) }
    {
        if self.batch.count() == 0 {
            return Ok(());
        }
        match publish(&mut self.device, self.end, self.batch.bytes()) {
            Ok(()) => {
                self.end += self.batch.bytes().len() - LATCH_BYTES;
                self.count += self.batch.count();
                self.batch.clear();
                Ok(())
            }
            Err(fault) => {
                self.usable = false;
                Err(fault)
            }
        }
    }

    /// The file.
    pub fn device(&self) -> &D
        ensures { result.now ≡ self.now.device }
    {
        &self.device
    }

    /// The file, given back. What waits is dropped.
    pub fn into_device(self) -> D
        ensures { result ≡ self.device }
    {
        self.device
    }

    /// The number of records in the file.
    pub fn count(&self) -> usize
        ensures { result ≡ self.now.count }
    {
        self.count
    }

    /// The number of bytes of the waiting records with the closed latch after them: a commit writes so many.
    pub fn waiting_bytes(&self) -> usize
        ensures { result ≡ length (at_rest self.now.waiting) }
    {
        self.batch.bytes().len()
    }

    /// The number of records that wait.
    pub fn waiting(&self) -> usize
        ensures { result ≡ length self.now.waiting }
    {
        self.batch.count()
    }
}

// Writes, and syncs.
pub fn write_kept<D: Device>(device: &mut D, at: usize, bytes: &[u8]) -> Result<(), JournalFault>
    requires within { D.tells → at ≤ length (D.disk device.old).seen }
    ensures other { IfErr result (λ fault. fault ≡ JournalFault.NotEmpty → ⊥) }
    ensures writes { D.tells → Overwrites at bytes.now result (D.disk device.old) (D.disk device.new) }
{
    match device.write_at(at, bytes) {
        Ok(()) => device.sync(),
        Err(fault) => Err(fault),
    }
}

// Writes blocks after the closed latch at this offset, and then opens it.
pub fn publish<D: Device>(device: &mut D, end: usize, batch: &[u8]) -> Result<(), JournalFault>
    requires some { 4 ≤ length batch.now }
    requires short { end < 2 ^ 63 }
    requires whole { D.tells → IsWholeFile (D.disk device.old) }
    requires ends { D.tells → end ≡ records_end (recorded (D.disk device.old).seen) }
    ensures other { IfErr result (λ fault. fault ≡ JournalFault.NotEmpty → ⊥) }
    ensures publishes { D.tells → WritesBatch batch.now result (D.disk device.old) (D.disk device.new) }
{
    let (_, tail) = batch.split_at(LATCH_BYTES);
    match write_kept(device, end + LATCH_BYTES, tail) {
        Ok(()) => write_kept(device, end, &OPEN),
        Err(fault) => Err(fault),
    }
}
