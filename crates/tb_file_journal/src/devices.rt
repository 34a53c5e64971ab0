//! A file as the journal sees it: what a read returns, and what a crash may leave.
ghost use Rattle.std.specs.Prelude.{◌≤◌, ℕ, List, length, IfOk, IfErr, OnOk};
ghost use Rattle.tb_file_journal.specs.Device.{Disk, Looks, GivesBytes, AnswersLength, Writes, Cuts, SetsAside, Syncs, IsOfCall, IsOfSync};

use crate::faults::JournalFault;

/// A file on a disk. The effects of the calls are stated only for a device that reports them: a real disk promises nothing, a file in memory promises
/// all of it.
pub trait Device {
    /// Holds of a device that reports what its calls do.
    ghost tells: { Type 0 };

    /// The disk and its clock.
    ghost disk: { Self → Disk };

    /// The reads of a device are those of this file. By default there is no such file.
    ghost holds: { Self → List ℕ → Type 0 } = { λ device file. ⊥ };

    /// These bytes, which were in the file from this offset on, were set aside before they were cut off. By default this holds of any bytes.
    ghost aside: { ℕ → List ℕ → Type 0 } = { λ at bytes. Unit {0} };

    /// Some of the bytes from an offset on: as many as fit, or all that are left.
    fn read_at(&mut self, at: usize, into: &mut [u8]) -> Result<usize, JournalFault>
        // Holds of any device, so that no reader trusts a count that is too large.
        ensures within { IfOk result (λ count. count ≤ length into.new) }
        // Holds of any device, so that a reader can say which bytes it has read.
        ensures bytes { (file : List ℕ) → holds self.old file → GivesBytes result at into.new file }
        ensures same { (file : List ℕ) → holds self.old file → holds self.new file }
        ensures names { IfErr result IsOfCall }
        ensures looks { tells → Looks result (disk self.old) (disk self.new) };

    /// The number of bytes.
    fn len(&mut self) -> Result<usize, JournalFault>
        ensures bytes { (file : List ℕ) → holds self.old file → AnswersLength result file }
        ensures same { (file : List ℕ) → holds self.old file → holds self.new file }
        ensures names { IfErr result IsOfCall }
        ensures looks { tells → Looks result (disk self.old) (disk self.new) };

    /// Writes over what is there, and past the end. Until a sync, a crash may leave any bytes in the range.
    fn write_at(&mut self, at: usize, bytes: &[u8]) -> Result<(), JournalFault>
        requires { tells → at ≤ length (disk self.old).seen }
        ensures names { IfErr result IsOfCall }
        ensures writes { tells → Writes at bytes.now result (disk self.old) (disk self.new) };

    /// Cuts the file to a length. Until a sync, a crash may leave any length between.
    fn cut(&mut self, len: usize) -> Result<(), JournalFault>
        requires { tells → len ≤ length (disk self.old).seen }
        ensures names { IfErr result IsOfCall }
        // Holds of any device.
        ensures aside { (file : List ℕ) → holds self.old file → OnOk result (SetsAside aside len file) }
        ensures cuts { tells → Cuts len result (disk self.old) (disk self.new) };

    /// After it, a crash leaves what a read returns, as long as no sync has failed.
    fn sync(&mut self) -> Result<(), JournalFault>
        ensures same { (file : List ℕ) → holds self.old file → holds self.new file }
        ensures names { IfErr result IsOfSync }
        ensures syncs { tells → Syncs result (disk self.old) (disk self.new) };

    /// A device that reports what its calls do holds what a read returns.
    ghost holds_seen: { (file : Self) → tells → holds file (disk file).seen };

    /// What a read returns is one of the files that a crash may leave: a kill of the process is therefore a crash too.
    ghost stays: { (file : Self) → tells → (disk file).may_leave (disk file).seen };

    /// This moment is one of those since an earlier one.
    ghost counts_now: { (file : Self) (t : ℕ) (c : List ℕ) → t ≤ (disk file).moment → (disk file).may_leave c → (disk file).left_since t c };

    /// Since this moment there is no other moment.
    ghost only_now: { (file : Self) (c : List ℕ) → (disk file).left_since (disk file).moment c → (disk file).may_leave c };
}
