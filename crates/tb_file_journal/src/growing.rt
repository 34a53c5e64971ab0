//! A file that grows while it is read.
ghost use Rattle.std.specs.Prelude.{◌≤◌, ℕ, List, length, IfOk, IfErr};
ghost use Rattle.tb_file_journal.specs.Device.{IsOfCall, AnswersLength, GivesBytes};
ghost use Rattle.tb_file_journal.specs.Growing.{HasGrown};

use crate::faults::JournalFault;

/// A file that another process appends to by commits while it is read. It is only read, with no lock and no sync: what is read may not be durable
/// yet, and may be lost at a power loss.
pub trait Growing {
    /// These are the bytes of the file at this moment. By default there are no such bytes.
    ghost grows: { Self → List ℕ → Type 0 } = { λ file bytes. ⊥ };

    /// Some of the bytes from an offset on, all of one moment: as many as fit, or all that are left.
    fn read_at(&mut self, at: usize, into: &mut [u8]) -> Result<usize, JournalFault>
        // Holds of any file, so that no reader trusts a count that is too large.
        ensures within { IfOk result (λ count. count ≤ length into.new) }
        ensures bytes { HasGrown (grows self.old) (grows self.new) (GivesBytes result at into.new) }
        ensures names { IfErr result IsOfCall };

    /// The number of bytes, including those after the closed latch.
    fn len(&mut self) -> Result<usize, JournalFault>
        ensures bytes { HasGrown (grows self.old) (grows self.new) (AnswersLength result) }
        ensures names { IfErr result IsOfCall };
}
