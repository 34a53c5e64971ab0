//! Seeks records at any offset of a file, for example after damage: each by its checksum, whatever the latch and the length before it are.
ghost use Rattle.std.specs.Prelude.{◌≡◌, ◌+◌, ◌≤◌, ◌<◌, ◌^◌, true, false, List, [], ℕ, length, take, drop, IfOk, OnOk};
ghost use Rattle.tb_file_journal.specs.Device.{IsLookedAt, HasOwnCause};
ghost use Rattle.tb_file_journal.specs.Reading.{HasAhead};
ghost use Rattle.tb_file_journal.specs.Seeking.{SeekState, IsSummed, IsSeeking, SeeksRecord};

use crate::devices::Device;
use crate::faults::JournalFault;
use crate::reading::checksum_of;
use crate::scans::Window;
use std::alloc::{AllocError, Global};
use std::marker::Model;

// The checksum before a record.
const SUM_BYTES: usize = 4;

// Returns whether these bytes begin with the checksum of the block of a record of so many bytes, which follows it.
fn is_summed(bytes: &[u8], len: usize) -> bool
    requires some { 0 < len }
    requires short { len < 2 ^ 24 }
    ensures yes { result ≡ true → IsSummed (take len (drop 4 bytes.now)) bytes.now }
    ensures all { result ≡ true → 4 + len ≤ length bytes.now }
    ensures no { result ≡ false → (record_bytes : List ℕ) → length record_bytes ≡ len → IsSummed record_bytes bytes.now → ⊥ }
{
    let [s, t, u, v, rest @ ..] = bytes else {
        return false;
    };
    if rest.len() < len {
        return false;
    }
    let (record, _) = rest.split_at(len);
    let [a, b, c, _] = (len as u32).to_le_bytes();
    checksum_of(&[a, b, c], record) == u32::from_le_bytes([*s, *t, *u, *v])
}

/// The bytes of a file from an offset on, whatever they are, read ahead in pieces.
#[derive(Drop)]
pub struct Seek {
    window: Window,
    at: usize,
}

impl Model for Seek {
    ghost Value = { SeekState };

    ghost view = { λ s. record { at = s.at; ahead = s.window.ahead } };
}

impl Seek {
    /// At an offset, with nothing read.
    pub fn new(alloc: Global, at: usize) -> Result<Seek, AllocError>
        ensures { IfOk result (λ seek. seek ≡ record { at = at; ahead = [] }) }
    {
        match Window::new(alloc) {
            Ok(window) => Ok(Seek { window, at }),
            Err(AllocError) => Err(AllocError),
        }
    }

    /// The offset.
    pub fn at(&self) -> usize
        ensures { result ≡ self.now.at }
    {
        self.at
    }

    /// The bytes that were read ahead.
    pub fn ahead(&self) -> &[u8]
        ensures { result.now ≡ self.now.ahead }
    {
        self.window.ahead()
    }

    /// Reads on if fewer bytes are ahead than these: then so many are, or all that the file has left.
    pub fn fill<D: Device>(&mut self, device: &mut D, n: usize) -> Result<(), JournalFault>
        requires near { self.old.at < 2 ^ 62 }
        ensures at { self.new.at ≡ self.old.at }
        // Holds of any device, in terms of the file that its reads are of.
        ensures ahead { (file : List ℕ) → D.holds device.old file → IsSeeking file self.old
            → OnOk result (HasAhead n self.old.at file self.new.ahead) }
        ensures same { (file : List ℕ) → D.holds device.old file → D.holds device.new file }
        ensures looks { D.tells → IsLookedAt (D.disk device.old) (D.disk device.new) }
        ensures cause { D.tells → HasOwnCause result (D.disk device.old) (D.disk device.new) }
    {
        self.window.fill(device, self.at, n)
    }

    /// Returns whether the record of so many bytes is at the offset, after its checksum. If so it is ahead, after 4 bytes.
    pub fn stands<D: Device>(&mut self, device: &mut D, len: usize) -> Result<bool, JournalFault>
        requires near { self.old.at < 2 ^ 62 }
        requires some { 0 < len }
        requires short { len < 2 ^ 24 }
        ensures at { self.new.at ≡ self.old.at }
        // Holds of any device, in terms of the file that its reads are of.
        ensures stands { (file : List ℕ) → D.holds device.old file → IsSeeking file self.old → SeeksRecord result len file self.new }
        ensures ahead { (file : List ℕ) → D.holds device.old file → IsSeeking file self.old → OnOk result (IsSeeking file self.new) }
        ensures within { IfOk result (λ found. found ≡ true → 4 + len ≤ length self.new.ahead) }
        ensures same { (file : List ℕ) → D.holds device.old file → D.holds device.new file }
        ensures looks { D.tells → IsLookedAt (D.disk device.old) (D.disk device.new) }
        ensures cause { D.tells → HasOwnCause result (D.disk device.old) (D.disk device.new) }
    {
        self.window.fill(device, self.at, SUM_BYTES + len)?;
        Ok(is_summed(self.window.ahead(), len))
    }

    /// Moves on by so many bytes.
    pub fn skip(&mut self, n: usize)
        requires near { self.old.at + n < 2 ^ 63 }
        ensures at { self.new.at ≡ self.old.at + n }
        ensures seeks { (file : List ℕ) → IsSeeking file self.old → IsSeeking file self.new }
    {
        self.window.take(n.min(self.window.ahead().len()));
        self.at += n;
    }
}
