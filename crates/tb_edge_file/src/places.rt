//! A file that is compared with what its name leads to, and whose bytes are set aside before they are cut off.
ghost use Rattle.std.specs.Prelude.{◌≡◌, ◌⊎◌, ◌+◌, ◌-◌, ◌≤◌, ◌<◌, ◌^◌, Bool, true, false, ℕ, List, max, min, drop, length, IfOk, IfErr, OnOk};
ghost use Rattle.tb_file_journal.specs.Device.{Cuts, HasFailed, IsLookedAt, IsOfCall, IsOfSync, Looks, SetsAside, Syncs, Writes};
ghost use Rattle.tb_edge_file.specs.Places.{IsNothingAt, IsOnlyRead, named_disk, place_of};

use crate::refusals::Refusals;
use std::alloc::Global;
use tb_file_journal::{Device, JournalFault};

/// What a name leads to, and where bytes of the file of that name are set aside.
pub trait Place {
    /// It was asked meanwhile, and the name led to the file that was opened, which had this many bytes. Anything, if a place does not define it.
    ghost led: { Self → ℕ → Self → Type 0 } = { λ before len after. Unit {0} };

    /// These bytes, which were in the file from this offset on, were set aside. Anything, if a place does not define it.
    ghost aside: { ℕ → List ℕ → Type 0 } = { λ at bytes. Unit {0} };

    /// Says whether the name leads to the file that was opened, and the file has this many bytes.
    fn leads(&mut self, len: usize) -> bool
        ensures { result ≡ true → led self.old len self.new };

    /// Sets aside bytes of the file, which are there from this offset on and are to be cut off.
    fn set_aside(&mut self, at: usize, bytes: &[u8]) -> Result<(), JournalFault>
        ensures names { IfErr result IsOfCall }
        ensures aside { OnOk result (aside at bytes.now) }
        ensures led { (before : Self) (len : ℕ) → led before len self.old → led before len self.new };
}

/// A file that is compared with what its name leads to, before each cut, and after a sync of bytes that were written over others. Before a write
/// that lengthens the file only its length is checked, because another program may have cut it. If they differ, the call fails, and so does each
/// later one. What a cut takes off is set aside before.
///
/// Its disk is that of the file, on which the calls that fail so have failed too: after a sync whose look fails no sync keeps anything.
///
/// A journal commits by a write over an open latch, and syncs it: so each commit rests on a look at the name after that sync.
#[derive(Drop)]
pub struct Named<D, P> {
    alloc: Global,
    device: D,
    place: P,
    // How many bytes the file had when it was opened, or has after the calls since then.
    len: usize,
    gone: bool,
    // Bytes were written over others, and the name was not looked at after a sync of them.
    due: bool,
    // The calls that failed without a fault of the device.
    refusals: Refusals,
    // A sync failed so.
    lost: bool,
}

impl<D: Device + Drop, P: Place + Drop> Named<D, P> {
    /// An open file, and what its name leads to. Failed, or Memory, if its length cannot be read.
    pub fn new(alloc: Global, device: D, place: P) -> Result<Named<D, P>, JournalFault>
        ensures names { IfErr result IsOfCall }
        ensures looks { D.tells → IfOk result (λ named. IsLookedAt (D.disk device) (named_disk D.disk named)) }
        ensures place { IfOk result (λ named. named.place ≡ place) }
        ensures there { IfOk result (λ named. named.gone ≡ false) }
        ensures due { IfOk result (λ named. named.due ≡ false) }
        ensures len { (file : List ℕ) → D.holds device file → IfOk result (λ named. named.len ≡ length file) }
    {
        let mut device = device;
        let len = device.len()?;
        Ok(Named {
            alloc,
            device,
            place,
            len,
            gone: false,
            due: false,
            refusals: Refusals::none(),
            lost: false,
        })
    }

    /// What its name leads to.
    pub fn place(&self) -> &P
        ensures { result.now ≡ place_of self.now }
    {
        &self.place
    }

    /// Says whether the name still leads to the file, as it did each time before.
    fn look(&mut self) -> bool
        ensures device { self.new.device ≡ self.old.device }
        ensures refusals { self.new.refusals ≡ self.old.refusals }
        ensures lost { self.new.lost ≡ self.old.lost }
        ensures len { self.new.len ≡ self.old.len }
        ensures due { self.new.due ≡ self.old.due }
        ensures stays { self.old.gone ≡ true → self.new.gone ≡ true }
        ensures led { result ≡ true → P.led self.old.place self.old.len self.new.place }
        ensures there { result ≡ true → self.old.gone ≡ false }
        ensures gone { result ≡ false → self.new.gone ≡ true }
    {
        if !self.gone {
            self.gone = !self.place.leads(self.len);
        }
        !self.gone
    }

    /// Compares the length of the file with what the calls left. If it differs, the name is looked at too, so that the fault says what is wrong.
    fn check_length(&mut self) -> Result<(), JournalFault>
        ensures same { (file : List ℕ) → D.holds self.old.device file → D.holds self.new.device file }
        ensures whole { (file : List ℕ) → D.holds self.old.device file → OnOk result (length file ≡ self.old.len) }
        ensures names { IfErr result IsOfCall }
        ensures looks { D.tells → Looks result (named_disk D.disk self.old) (named_disk D.disk self.new) }
        ensures len { self.new.len ≡ self.old.len }
        ensures due { self.new.due ≡ self.old.due }
        ensures stays { self.old.gone ≡ true → self.new.gone ≡ true }
        ensures there { OnOk result (self.old.gone ≡ false) }
    {
        let len = self.device.len()?;
        if self.gone {
            return Err(self.refusals.count(JournalFault::Failed));
        }
        if len != self.len {
            self.look();
            return Err(self.refusals.count(JournalFault::Failed));
        }
        Ok(())
    }

    /// The bytes of the file from an offset on, if it has no more bytes than the calls left. Failed if it has, and Memory if there is no memory for
    /// them.
    fn bytes_from(&mut self, at: usize) -> Result<Vec<u8>, JournalFault>
        ensures bytes { (file : List ℕ) → D.holds self.old.device file → IfOk result (λ bytes. bytes.items ≡ drop at file) }
        ensures same { (file : List ℕ) → D.holds self.old.device file → D.holds self.new.device file }
        ensures names { IfErr result IsOfCall }
        ensures looks { D.tells → Looks result (named_disk D.disk self.old) (named_disk D.disk self.new) }
        ensures place { self.new.place ≡ self.old.place }
        ensures len { self.new.len ≡ self.old.len }
        ensures gone { self.new.gone ≡ self.old.gone }
    {
        let count = self.len.saturating_sub(at).saturating_add(1);
        let Ok(mut bytes) = vec![in self.alloc; 0_u8; count] else {
            return Err(self.refusals.count(JournalFault::Memory));
        };
        let count = self.device.read_at(at, &mut bytes)?;
        if count == bytes.len() {
            drop(bytes);
            return Err(self.refusals.count(JournalFault::Failed));
        }
        bytes.truncate(count);
        Ok(bytes)
    }

    /// Sets aside what is in the file from an offset on; false if nothing is there.
    fn set_aside(&mut self, at: usize) -> Result<bool, JournalFault>
        ensures aside { (file : List ℕ) → D.holds self.old.device file → OnOk result (SetsAside P.aside at file) }
        ensures nothing { (file : List ℕ) → D.holds self.old.device file → IsNothingAt at file result }
        ensures names { IfErr result IsOfCall }
        ensures looks { D.tells → Looks result (named_disk D.disk self.old) (named_disk D.disk self.new) }
        ensures led { (before : P) (len : ℕ) → P.led before len self.old.place → P.led before len self.new.place }
        ensures len { self.new.len ≡ self.old.len }
        ensures gone { self.new.gone ≡ self.old.gone }
    {
        let bytes = self.bytes_from(at)?;
        if bytes.is_empty() {
            return Ok(false);
        }
        match self.place.set_aside(at, &bytes) {
            Ok(()) => Ok(true),
            Err(fault) => Err(self.refusals.count(fault)),
        }
    }

    /// Writes into the file.
    fn write(&mut self, at: usize, bytes: &[u8]) -> Result<(), JournalFault>
        requires { D.tells → at ≤ length (D.disk self.old.device).seen }
        ensures writes { D.tells → Writes at bytes.now result (named_disk D.disk self.old) (named_disk D.disk self.new) }
        ensures names { IfErr result IsOfCall }
        ensures due { self.new.due ≡ self.old.due }
        ensures gone { self.new.gone ≡ self.old.gone }
        ensures len { OnOk result (self.new.len ≡ max self.old.len (min (at + length bytes.now) (2 ^ 64 - 1))) }
    {
        self.device.write_at(at, bytes)?;
        self.len = self.len.max(at.saturating_add(bytes.len()));
        Ok(())
    }

    /// Cuts the file.
    fn cut_off(&mut self, len: usize) -> Result<(), JournalFault>
        requires { D.tells → len ≤ length (D.disk self.old.device).seen }
        ensures cuts { D.tells → Cuts len result (named_disk D.disk self.old) (named_disk D.disk self.new) }
        ensures names { IfErr result IsOfCall }
        ensures place { self.new.place ≡ self.old.place }
        ensures gone { self.new.gone ≡ self.old.gone }
        ensures len { OnOk result (self.new.len ≡ len) }
    {
        self.device.cut(len)?;
        self.len = len;
        Ok(())
    }
}

impl<D: Device + Drop, P: Place + Drop> Device for Named<D, P> {
    ghost tells = { D.tells };

    ghost disk = { λ named. named_disk D.disk named };

    ghost holds = { λ named. D.holds named.device };

    ghost aside = { P.aside };

    ghost holds_seen = { λ named. D.holds_seen named.device };

    ghost stays = { λ named. D.stays named.device };

    ghost counts_now = { λ named. D.counts_now named.device };

    ghost only_now = { λ named. D.only_now named.device };

    fn read_at(&mut self, at: usize, into: &mut [u8]) -> Result<usize, JournalFault> {
        self.device.read_at(at, into)
    }

    fn len(&mut self) -> Result<usize, JournalFault> {
        self.device.len()
    }

    #[tactic(auto, using(crate::proofs::NamedDisks::writes_then))]
    fn write_at(&mut self, at: usize, bytes: &[u8]) -> Result<(), JournalFault>
        requires { D.tells → at ≤ length (D.disk self.old.device).seen }
        ensures names { IfErr result IsOfCall }
        ensures writes { D.tells → Writes at bytes.now result (named_disk D.disk self.old) (named_disk D.disk self.new) }
        ensures whole { (file : List ℕ) → D.holds self.old.device file → OnOk result (self.old.len < min (at + length bytes.now) (2 ^ 64 - 1) → length file ≡ self.old.len) }
        ensures due { OnOk result (at + length bytes.now ≤ self.old.len → self.new.due ≡ true) }
        ensures stays_due { OnOk result (self.old.due ≡ true → self.new.due ≡ true) }
        ensures there { OnOk result (self.old.gone ≡ false) }
        ensures stays { self.old.gone ≡ true → self.new.gone ≡ true }
        ensures len { OnOk result (self.new.len ≡ max self.old.len (min (at + length bytes.now) (2 ^ 64 - 1))) }
    {
        if self.gone {
            return Err(self.refusals.count(JournalFault::Failed));
        }
        if at.saturating_add(bytes.len()) > self.len {
            self.check_length()?;
            return self.write(at, bytes);
        }
        self.due = true;
        self.write(at, bytes)
    }

    #[tactic(auto, using(crate::proofs::NamedDisks::cuts_then, crate::proofs::NamedDisks::cuts_nothing))]
    fn cut(&mut self, len: usize) -> Result<(), JournalFault>
        requires { D.tells → len ≤ length (D.disk self.old.device).seen }
        ensures names { IfErr result IsOfCall }
        ensures cuts { D.tells → Cuts len result (named_disk D.disk self.old) (named_disk D.disk self.new) }
        ensures aside { (file : List ℕ) → D.holds self.old.device file → OnOk result (SetsAside P.aside len file) }
        // Whatever it returns: the file was only read, or its bytes were set aside before.
        ensures first { D.tells → (file : List ℕ) → D.holds self.old.device file → IsOnlyRead (named_disk D.disk self.old) (named_disk D.disk self.new) ⊎ SetsAside P.aside len file }
        ensures led { OnOk result (P.led self.old.place self.old.len self.new.place) }
        ensures there { OnOk result (self.old.gone ≡ false) }
        ensures stays { self.old.gone ≡ true → self.new.gone ≡ true }
        ensures len { OnOk result (self.new.len ≡ len) }
    {
        if !self.look() {
            return Err(self.refusals.count(JournalFault::Failed));
        }
        if self.set_aside(len)? {
            return self.cut_off(len);
        }
        self.len = len;
        Ok(())
    }

    fn sync(&mut self) -> Result<(), JournalFault>
        ensures same { (file : List ℕ) → D.holds self.old.device file → D.holds self.new.device file }
        ensures names { IfErr result IsOfSync }
        ensures syncs { D.tells → Syncs result (named_disk D.disk self.old) (named_disk D.disk self.new) }
        ensures led { OnOk result (self.old.due ≡ true → P.led self.old.place self.old.len self.new.place) }
        ensures there { OnOk result (self.old.gone ≡ false) }
        ensures stays { self.old.gone ≡ true → self.new.gone ≡ true }
    {
        self.device.sync()?;
        if (self.due || self.gone) && !self.look() {
            self.lost = true;
            return Err(self.refusals.count(JournalFault::SyncFailed));
        }
        self.due = false;
        Ok(())
    }
}
