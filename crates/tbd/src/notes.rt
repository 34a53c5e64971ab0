//! What is noted of the file that is served: why a call on it failed, and what was copied.

use crate::surroundings::lines;
use crate::wholes::Wholes;
use std::alloc::AllocError;
use std::cell::Cell;
use std::format;
use tb_edge_file::{Reason, print_named};
use tb_edge_names::Notes;
use tb_records::Counting;

/// The cell for why a call on the file failed, and the lines of copies.
#[derive(Clone, Copy)]
pub struct HostNotes<'a> {
    pub rt: &'a HostRuntime,
    pub reason: &'a Cell<Option<Reason>>,
}

impl<'a> HostNotes<'a> {
    /// The line of a copy of bytes that are in the file of this path from an offset on, up to its name.
    fn copied(&self, path: &str, at: usize, bytes: &[u8]) -> Result<String, AllocError> {
        let alloc = self.rt.alloc();
        let wholes = Wholes::behind(self.rt, path, at, bytes);
        let (count, wholes) = (bytes.len(), wholes.text(alloc)?);
        format!(in alloc; "tbd: copied {count} bytes, from byte {at} on, {wholes}, to ")
    }
}

impl<'a> Notes for HostNotes<'a> {
    fn note(&mut self, reason: Reason) {
        self.reason.set(Some(reason));
    }

    /// If there is no memory for the line, nothing is reported.
    fn report_copy(&mut self, path: &str, at: usize, bytes: &[u8], name: &str) {
        if let Ok(first) = self.copied(path, at, bytes) {
            let mut faults = Counting::new(lines(self.rt));
            print_named(first.as_str(), name, "", &mut faults);
        }
    }
}
