//! Whether a name leads to a file.
ghost use Rattle.std.specs.Prelude.{◌≡◌};
ghost use Rattle.tb_edge_names.specs.Served.{LooksFor, Parts, file_number, is_absence};

use crate::served::{Identity, ServedFiles, Status};
use std::io::ErrorKind;
use tb_edge_file::Reason;

/// Says whether an error of this kind means that there is nothing of a name.
fn is_absence(kind: ErrorKind) -> bool
    ensures { result ≡ is_absence kind }
{
    match kind {
        ErrorKind::NotFound => true,
        ErrorKind::NotADirectory => true,
        _ => false,
    }
}

/// Looks at the name of a file. If the name does not lead to it, or cannot be looked at, that is returned.
#[tactic(auto, using(crate::proofs::NameLooks::found, crate::proofs::NameLooks::other, crate::proofs::NameLooks::absent, crate::proofs::NameLooks::failed))]
pub(crate) fn look_for<F: ServedFiles>(
    files: &mut F,
    name: &str,
    file: Identity,
) -> Result<Status, Reason>
    ensures { F.tells → LooksFor (F.unseen files.new name.now) name.now (file_number file) result (F.names files.old) (F.names files.new) }
{
    match files.follow(name) {
        Ok(status) => {
            if status.identity.is(file) {
                Ok(status)
            } else {
                Err(Reason::Gone)
            }
        }
        Err(error) => {
            if is_absence(error.kind()) {
                Err(Reason::Gone)
            } else {
                Err(Reason::Unseen)
            }
        }
    }
}
