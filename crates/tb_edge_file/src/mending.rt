//! A file whose first bytes are read as those of a journal, whatever they are.
ghost use Rattle.std.specs.Prelude.{◌≡◌, ◌≤◌, length, drop};
ghost use Rattle.tb_file_journal.specs.Contents.{magic};
ghost use Rattle.tb_file_journal.specs.Real.{untold};
ghost use Rattle.tb_edge_file.specs.Mending.{IsMended, overlaid};

use crate::live::Live;
use tb_file_journal::{Device, JournalFault};

/// The first bytes of a journal.
const MAGIC: [u8; 8] = [b'T', b'B', b'J', b'R', b'N', b'L', b'0', b'2'];

/// Puts the first bytes of a journal over bytes that are in a file from this offset on.
fn mend(at: usize, bytes: &mut [u8])
    ensures { bytes.new ≡ overlaid (drop at magic) bytes.old }
{
    if at < MAGIC.len() {
        let n = bytes.len().min(MAGIC.len() - at);
        bytes[..n].copy_from_slice(&MAGIC[at..at + n]);
    }
}

/// A file that is only read, and whose first bytes are read as those of a journal, whatever they are.
#[derive(Drop)]
pub struct Mended<D> {
    device: D,
}

impl<D: Device + Drop> Mended<D> {
    /// The same file.
    pub fn new(device: D) -> Mended<D>
        ensures { result.device ≡ device }
    {
        Mended { device }
    }
}

impl<D: Device + Drop> Device for Mended<D> {
    ghost tells = { ⊥ };

    ghost disk = { λ _. untold };

    ghost holds = { λ mended. IsMended (D.holds mended.device) };

    ghost holds_seen = { λ _ told. absurd told };

    ghost stays = { λ _ told. absurd told };

    ghost counts_now = { λ _ t c le now. now };

    ghost only_now = { λ _ c left. left };

    fn read_at(&mut self, at: usize, into: &mut [u8]) -> Result<usize, JournalFault> {
        let count = self.device.read_at(at, into)?;
        mend(at, &mut into[..count]);
        Ok(count)
    }

    fn len(&mut self) -> Result<usize, JournalFault> {
        self.device.len()
    }

    // It is only read.
    fn write_at(&mut self, at: usize, bytes: &[u8]) -> Result<(), JournalFault> {
        Err(JournalFault::Failed)
    }

    fn cut(&mut self, len: usize) -> Result<(), JournalFault> {
        Err(JournalFault::Failed)
    }

    fn sync(&mut self) -> Result<(), JournalFault> {
        self.device.sync()
    }
}

/// It holds the whole file that the device held, to which nobody else appends.
impl<D: Device + Drop> Live for Mended<D> {
    ghost whole = { λ mended. IsMended (D.holds mended.device) };

    #[tactic(auto, using(tb_file_journal::proofs::Growths::same_grown))]
    fn file_len(&mut self) -> Result<usize, JournalFault> {
        Device::len(self)
    }

    fn refresh(&mut self) -> Result<(), JournalFault> {
        Ok(())
    }

    fn look_behind(&mut self) {}
}
