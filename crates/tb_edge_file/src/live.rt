//! A file that is read while another program may append to it.
ghost use Rattle.std.specs.Prelude.{◌≡◌, ℕ, List, length, IfOk, IfErr};
ghost use Rattle.tb_file_journal.specs.Device.{Looks, IsOfCall};
ghost use Rattle.tb_edge_file.specs.Live.{IsWholeLength, MeasuresWhole, RefreshesHeld};

use tb_file_journal::{Device, Growing, JournalFault, Memory, Snapshot};

/// A file that is read as it was at some moment, while another program may append to it. At each later moment the file extends what it holds,
/// unless the machine lost power meanwhile (`tb_file_journal::laws`).
pub trait Live: Device {
    /// These are the bytes of the whole file at this moment, including those after what the device holds.
    ghost whole: { Self → List ℕ → Type 0 };

    /// The number of bytes of the whole file now.
    fn file_len(&mut self) -> Result<usize, JournalFault>
        ensures long { MeasuresWhole whole result self.old self.new }
        // On any device: the file of this length extends what it holds.
        ensures extends { (file : List ℕ) → Self.holds self.old file → IfOk result (IsWholeLength file) }
        // On a device that reports what its calls do: nobody else appends to it.
        ensures told { Self.tells → IfOk result (λ len. len ≡ length (Self.disk self.old).seen) }
        ensures same { (file : List ℕ) → Self.holds self.old file → Self.holds self.new file }
        ensures names { IfErr result IsOfCall }
        ensures looks { Self.tells → Looks result (Self.disk self.old) (Self.disk self.new) };

    /// Goes on to what has been committed by now: to all that the whole file represented at some moment of the call. On a fault it still holds
    /// what it held.
    fn refresh(&mut self) -> Result<(), JournalFault>
        ensures later { RefreshesHeld whole Self.holds result self.old self.new }
        ensures looks { Self.tells → Looks result (Self.disk self.old) (Self.disk self.new) };

    /// From now on a read returns the bytes of the whole file, including those after what the device held.
    fn look_behind(&mut self)
        ensures whole { (file : List ℕ) → whole self.old file → whole self.new file }
        ensures all { (file : List ℕ) → Self.holds self.new file → whole self.new file }
        ensures told { Self.tells → self.new ≡ self.old };
}

/// A file that grows, as it was at some moment.
impl<G: Growing + Drop> Live for Snapshot<G> {
    ghost whole = { λ snapshot. G.grows snapshot.file };

    fn file_len(&mut self) -> Result<usize, JournalFault> {
        Snapshot::file_len(self)
    }

    #[tactic(auto, using(crate::proofs::Lives::refreshed))]
    fn refresh(&mut self) -> Result<(), JournalFault> {
        Snapshot::refresh(self)
    }

    #[tactic(auto, using(crate::proofs::Lives::looked_whole))]
    fn look_behind(&mut self) {
        Snapshot::look_behind(self);
    }
}

/// A file in memory, to which nobody else appends.
impl Live for Memory {
    ghost use Rattle.tb_file_journal.specs.Memory.{memory_holds};

    ghost whole = { memory_holds };

    #[tactic(auto, using(tb_file_journal::proofs::Growths::same_grown))]
    fn file_len(&mut self) -> Result<usize, JournalFault> {
        Device::len(self)
    }

    fn refresh(&mut self) -> Result<(), JournalFault> {
        Ok(())
    }

    fn look_behind(&mut self) {}
}
