//! What is reported of a file that was copied into a new one.
ghost use Rattle.std.specs.Prelude.{◌≡◌};
ghost use Rattle.tb_edge_file.specs.Copies.{damage_of, loss_of, salvage_outcome};

use crate::faults::{Damage, KeepCommandFault, Loss, started_fault};
use crate::summaries::behind_text;
use std::fmt;
use tb_file::StartFault;

/// What was copied of a file.
#[derive(Clone, Copy)]
pub struct Copied {
    /// How many entries: the last one has this commit number.
    pub entries: u64,
    /// The time of the last entry, in nanoseconds.
    pub time: u64,
    /// Where the entries end in the file.
    pub end: u64,
    /// The bytes after the latch there: not committed yet, or torn; or lost.
    pub behind: usize,
    /// What is damaged there, and ended the copy.
    pub damage: Option<Damage>,
}

/// What is damaged where a copy ends: nothing at the end of a whole file.
pub(crate) fn damage_of(stop: Option<StartFault>) -> Option<Damage>
    ensures { result ≡ damage_of stop }
{
    match started_fault(stop?) {
        KeepCommandFault::Damaged(damage) => Some(damage),
        _ => None,
    }
}

/// What is lost of a damaged file of which this was copied: None if each byte after the damage is in a block that was taken.
fn loss_of(copied: Copied) -> Option<Loss>
    ensures { result ≡ loss_of copied }
{
    if copied.damage.is_none() || copied.behind == 0 {
        return None;
    }
    Some(Loss {
        bytes: copied.behind,
        at: copied.end,
    })
}

/// The outcome of a salvage of which this was copied and reported: it is done if nothing is lost.
pub(crate) fn salvage_outcome(
    copied: Copied,
    reported: Result<(), KeepCommandFault>,
) -> Result<(), KeepCommandFault>
    ensures { result ≡ salvage_outcome copied reported }
{
    match reported {
        Ok(()) => match loss_of(copied) {
            Some(loss) => Err(KeepCommandFault::Lost(loss)),
            None => Ok(()),
        },
        Err(fault) => Err(fault),
    }
}

impl fmt::Display for Damage {
    ghost use Rattle.std.specs.Prelude.{Some};
    ghost use Rattle.tb_edge_file.specs.ExitStatuses.{damage_text};

    ghost output = { λ damage. Some (damage_text damage) };

    fn fmt<W: fmt::Write>(&self, f: &mut fmt::Formatter<W>) -> fmt::Result {
        match *self {
            Damage::Block { at, .. } => write!(f, "at byte {at}"),
            Damage::Record { place, fault } => {
                let name = fault.name();
                write!(f, "record {place}: {name}")
            }
            Damage::Entry(fault) => {
                let (place, name) = (fault.place, fault.cause.name());
                write!(f, "record {place}: {name}")
            }
            Damage::Torn { at, bytes } => {
                write!(
                    f,
                    "{bytes} bytes after byte {at}, more than one batch can have"
                )
            }
        }
    }
}

impl fmt::Display for Copied {
    ghost use Rattle.std.specs.Prelude.{Some};
    ghost use Rattle.tb_edge_file.specs.Copies.{copied_text};

    ghost output = { λ copied. Some (copied_text copied) };

    fn fmt<W: fmt::Write>(&self, f: &mut fmt::Formatter<W>) -> fmt::Result {
        let what = behind_text(self.behind);
        match self.damage {
            None => write!(
                f,
                "entries {}\nlast commit {}\nlast time {}\nbytes after the records {}{what}\n",
                self.entries, self.entries, self.time, self.behind
            ),
            Some(damage) => write!(
                f,
                "entries {}\nlast commit {}\nlast time {}\nbytes lost {} after byte {}: Damaged: {damage}\n",
                self.entries, self.entries, self.time, self.behind, self.end
            ),
        }
    }
}
