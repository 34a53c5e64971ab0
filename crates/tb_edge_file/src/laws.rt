//! What holds of every dump of a file that grows, and of the file that `tbd` serves.
ghost use Rattle.tb_edge_file.specs.DumpLaws.{PartsGoOn, DumpsAreParts};

use crate::places::{Named, Place};
use crate::reports::Reported;
use tb_file_journal::{Device, Posix, System};
use tb_records::Sink;

/// What `dump` writes of a file at one moment is a prefix of what it writes with the same arguments at each later moment, unless the machine lost
/// power meanwhile.
pub fn parts_go_on()
    ensures parts { PartsGoOn }
    ensures dumps { DumpsAreParts }
{}

/// The file that `tbd` serves reports what its calls do if the calls of the system do: then each clause of `Device` holds of it.
pub fn posix_reaches_the_program<S: System + Drop, E: Sink + Drop, P: Place + Drop>()
    ensures { S.tells → ⟦<Named<Reported<Posix<S>, E>, P> as Device>⟧.tells }
{}
