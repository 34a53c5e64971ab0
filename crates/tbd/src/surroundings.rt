//! What `tbd` has besides its files: lines on standard error, notes on the served file, and the clock.

use crate::notes::HostNotes;
use std::cell::Cell;
use std::io::{BufWriter, Stderr};
use std::thread;
use std::time::Duration;
use tb_edge_file::Reason;
use tb_edge_names::Surroundings;
use tb_records::Counting;

/// The bytes of standard error that are buffered, so that a line goes out at once.
const LINE_BYTES: usize = 1024;

/// How long more commits are waited for at a time, in milliseconds.
const PAUSE_MS: u64 = 50;

/// Standard error behind a buffer; without a buffer if there is no memory for one.
pub fn lines(rt: &HostRuntime) -> BufWriter<Stderr> {
    match BufWriter::with_capacity(rt.alloc(), LINE_BYTES, rt.stderr()) {
        Ok(lines) => lines,
        Err(_) => BufWriter::with_capacity(rt.alloc(), 0, rt.stderr()).unwrap(),
    }
}

/// The surroundings of the system's files.
#[derive(Clone, Copy)]
pub struct HostSurroundings<'a> {
    pub rt: &'a HostRuntime,
    /// Why a call on the served file failed, if that is known.
    pub reason: &'a Cell<Option<Reason>>,
}

impl<'a> Surroundings for HostSurroundings<'a> {
    type Lines = Counting<BufWriter<Stderr>>;

    type Notes = HostNotes<'a>;

    fn lines(&self) -> Self::Lines {
        Counting::new(lines(self.rt))
    }

    fn notes(&self) -> HostNotes<'a> {
        HostNotes {
            rt: self.rt,
            reason: self.reason,
        }
    }

    fn reason(&self) -> Option<Reason> {
        self.reason.get()
    }

    fn wait(&self) {
        thread::sleep(self.rt, Duration::from_millis(PAUSE_MS));
    }
}
