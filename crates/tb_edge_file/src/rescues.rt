//! What is reported of a file that was copied into a new one, and read on after its damage; and that new file.
ghost use Rattle.std.specs.Prelude.{◌≡◌};
ghost use Rattle.tb_edge_file.specs.Copies.{rescued_of};

use crate::copies::Copied;
use std::fmt;
use tb_file::{Keeper, ReadOn};
use tb_file_journal::Device;

/// What was copied of a file, and read on after its damage.
#[derive(Clone, Copy)]
pub struct Rescued {
    /// All entries, and what is lost.
    pub copied: Copied,
    /// How many of them were read after the damage.
    pub more: u64,
    /// The offset of the first of these.
    pub first: usize,
}

/// A new file with all that was copied, and what is reported of that. It has no name yet.
#[derive(Drop)]
pub struct Finished<N> {
    pub device: N,
    pub rescued: Rescued,
}

/// What was copied up to the damage, and then read on.
pub(crate) fn rescued_of<N: Device>(copied: Copied, keeper: &Keeper<N>, on: ReadOn) -> Rescued
    ensures { result ≡ rescued_of copied keeper.now.state on }
{
    let machine = keeper.machine();
    Rescued {
        copied: Copied {
            entries: machine.commit(),
            time: machine.time(),
            end: copied.end,
            behind: copied.behind.saturating_sub(on.bytes),
            damage: copied.damage,
        },
        more: machine.commit().saturating_sub(copied.entries),
        first: on.first,
    }
}

impl fmt::Display for Rescued {
    ghost use Rattle.std.specs.Prelude.{Some};
    ghost use Rattle.tb_edge_file.specs.Copies.{rescued_text};

    ghost output = { λ rescued. Some (rescued_text rescued) };

    fn fmt<W: fmt::Write>(&self, f: &mut fmt::Formatter<W>) -> fmt::Result {
        let Rescued {
            copied,
            more,
            first,
        } = *self;
        match more {
            0 => write!(f, "{copied}"),
            more => write!(
                f,
                "{copied}read on {more} of the entries from byte {first}\n"
            ),
        }
    }
}
