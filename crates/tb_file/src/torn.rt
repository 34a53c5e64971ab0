//! The torn bytes after the records of a file, counted.
ghost use Rattle.std.specs.Prelude.{◌≡◌, ℕ, List, IfErr};
ghost use Rattle.tb_file.specs.RecordSteps.{OfExtent, StaysKept};
ghost use Rattle.tb_file.specs.Torn.{CountsTorn, HasTornCause, IsNamedTorn};

use crate::faults::StartFault;
use tb_file_journal::{Device, Extent, JournalFault, LATCH_BYTES, OpenFault};

/// Why the torn bytes of a file are not counted, or not accepted.
#[derive(Clone, Copy, Debug, PartialEq, Eq)]
pub enum TornFault {
    /// The device failed when it was asked for the length.
    Device(JournalFault),
    /// The last whole record ends at offset `at`. After it and the latch there are `bytes` bytes: more than are accepted.
    TooLong { at: u64, bytes: u64 },
}

impl From<TornFault> for StartFault {
    ghost use Rattle.tb_file.specs.Torn.{torn_start};

    ghost from_gives = { λ torn fault. fault ≡ torn_start torn };

    fn from(fault: TornFault) -> StartFault {
        match fault {
            TornFault::Device(fault) => StartFault::Journal(OpenFault::Device(fault)),
            TornFault::TooLong { at, bytes } => StartFault::TornTooLong { at, bytes },
        }
    }
}

/// The number of torn bytes of a file that was read to this extent: those after its records and the latch there. The fault is TooLong if they are
/// more than `most`. Nothing is written.
pub fn torn_behind<D: Device>(device: &mut D, extent: Extent, most: usize) -> Result<u64, TornFault>
    ensures torn { OfExtent (D.holds device.old) extent (CountsTorn result most) }
    ensures same { (file : List ℕ) → D.holds device.old file → D.holds device.new file }
    ensures stays { D.tells → StaysKept (D.disk device.old) (D.disk device.new) }
    ensures named { IfErr result IsNamedTorn }
    ensures cause { D.tells → HasTornCause result (D.disk device.old) (D.disk device.new) }
{
    match device.len() {
        Ok(len) => {
            let torn = len.saturating_sub(extent.end).saturating_sub(LATCH_BYTES);
            if torn > most {
                return Err(TornFault::TooLong {
                    at: extent.end as u64,
                    bytes: torn as u64,
                });
            }
            Ok(torn as u64)
        }
        Err(fault) => Err(TornFault::Device(fault)),
    }
}
