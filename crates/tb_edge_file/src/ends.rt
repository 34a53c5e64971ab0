//! What contracts know of what a command works with: its files, its reader, and its writers.
ghost use Rattle.tb_edge_file.specs.Ends.{KnownEnds, KnownFiles};

use crate::openers::Opener;
use crate::outlets::Outlet;
use tb_records::{Sink, Source};

/// What a command reads and what it writes.
#[derive(Drop)]
pub struct Pipes<R, W> {
    pub reader: R,
    pub writer: W,
}

/// What opens the files of a command, and those files. Each opener is one.
pub trait Files: Opener {
    /// What is known of them.
    ghost its: { KnownFiles Self Self.File Self.Reading };
}

impl<O: Opener> Files for O {
    ghost its = { record {
      opener = O.Opener;
      file = O.File.Device;
      reading = O.Reading.Device;
      whole = O.Reading.whole;
    } };
}

/// The ends of a command: its files, its reader, its writer, and the writer of its lines. Each opener with such streams is one.
pub trait Ends<R: Source, W: Outlet, E: Sink>: Opener {
    /// What is known of them.
    ghost its: { KnownEnds Self Self.File Self.Reading R W E };
}

impl<O: Opener, R: Source, W: Outlet, E: Sink> Ends<R, W, E> for O {
    ghost its = { record {
      files = ⟦<O as Files>⟧.its;
      source = R.Source;
      sink = W.Sink;
      gone = W.gone;
      lines = E.Sink;
    } };
}
