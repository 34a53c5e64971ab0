//! A file that reports how far it was read.
ghost use Rattle.std.specs.Prelude.{◌≡◌, ◌≤◌, ℕ, List, length, IfErr, IfOk, MatchResult, string_bytes};
ghost use Rattle.tb_file_journal.specs.Device.{IsOfCall, Looks, ReadsAt};
ghost use Rattle.tb_edge_file.specs.ExitStatuses.{first_due, IfHeld, IsMadeLooking, ReportsProgress};

use crate::lines::{MEGABYTE, print_read};
use std::alloc::Global;
use tb_file_journal::{Device, JournalFault};
use tb_records::Sink;

/// The bytes between two reports.
const STEP_BYTES: usize = 64 * MEGABYTE;

/// A file that reports how far it was read, each 64 MB. Otherwise it is that file.
#[derive(Drop)]
pub struct Reported<D, E> {
    device: D,
    lines: E,
    path: String,
    len: usize,
    // The offset from which on the next report is due.
    due: usize,
}

impl<D: Device + Drop, E: Sink + Drop> Reported<D, E> {
    /// A file of this path, and the writer of its reports, if they are wanted. Failed, or Memory, if its length cannot be read or there is no
    /// memory.
    pub fn new(
        alloc: Global,
        device: D,
        path: &str,
        lines: E,
        reports: bool,
    ) -> Result<Reported<D, E>, JournalFault>
        ensures same { IfHeld D.holds device result ⟦<Reported<D, E> as Device>⟧.holds }
        ensures looks { IsMadeLooking D.Device ⟦<Reported<D, E> as Device>⟧ device result }
        ensures named { IfErr result IsOfCall }
        ensures path { IfOk result (λ reported. string_bytes reported.path ≡ path.now) }
        ensures len { IfHeld D.holds device result (λ reported file. reported.len ≡ length file) }
        ensures due { IfOk result (λ reported. reported.due ≡ first_due reports) }
        ensures silent { IfOk result (λ reported. reported.lines ≡ lines) }
    {
        let mut device = device;
        let len = device.len()?;
        let path = String::from_str(alloc, path)?;
        Ok(Reported {
            device,
            lines,
            path,
            len,
            due: if reports { STEP_BYTES } else { usize::MAX },
        })
    }

    /// Reports how far the file was read, if that is due.
    fn report(&mut self, at: usize)
        ensures same { self.new.device ≡ self.old.device }
        ensures reports { ReportsProgress E.Sink at self.old self.new }
    {
        if at >= self.due {
            let (read, all) = ((at / MEGABYTE) as u64, (self.len / MEGABYTE) as u64);
            print_read(self.path.as_str(), read, all, &mut self.lines);
            self.due = at.saturating_add(STEP_BYTES);
        }
    }
}

impl<D: Device + Drop, E: Sink + Drop> Device for Reported<D, E> {
    ghost tells = { D.tells };

    ghost disk = { λ s. D.disk s.device };

    ghost holds = { λ s. D.holds s.device };

    ghost holds_seen = { λ s. D.holds_seen s.device };

    ghost stays = { λ s. D.stays s.device };

    ghost counts_now = { λ s. D.counts_now s.device };

    ghost only_now = { λ s. D.only_now s.device };

    fn read_at(&mut self, at: usize, into: &mut [u8]) -> Result<usize, JournalFault>
        ensures within { IfOk result (λ count. count ≤ length into.new) }
        ensures bytes { IfHeld D.holds self.old.device result (λ n file. ReadsAt n at file into.new) }
        ensures same { (file : List ℕ) → D.holds self.old.device file → D.holds self.new.device file }
        ensures names { IfErr result IsOfCall }
        ensures looks { D.tells → Looks result (D.disk self.old.device) (D.disk self.new.device) }
        ensures reports { ReportsProgress E.Sink at self.old self.new }
    {
        self.report(at);
        self.device.read_at(at, into)
    }

    fn len(&mut self) -> Result<usize, JournalFault> {
        self.device.len()
    }

    fn write_at(&mut self, at: usize, bytes: &[u8]) -> Result<(), JournalFault> {
        self.device.write_at(at, bytes)
    }

    fn cut(&mut self, len: usize) -> Result<(), JournalFault> {
        self.device.cut(len)
    }

    fn sync(&mut self) -> Result<(), JournalFault> {
        self.device.sync()
    }
}
