//! The calls that a wrapper of a device refuses itself.
ghost use Rattle.std.specs.Prelude.{◌≡◌, ◌⊎◌, ℕ};
ghost use Rattle.tb_file_journal.specs.Device.{IsOfCall, IsOfSync, Rises};

use tb_file_journal::JournalFault;

/// How often a wrapper of a device has refused a call itself, by the fault. A count at its maximum stays.
#[derive(Drop)]
pub struct Refusals {
    memory: u64,
    failed: u64,
    full: u64,
    unsynced: u64,
}

impl Refusals {
    ghost use Rattle.tb_file_journal.specs.declared.faults.JournalFault.{JournalFault};
    ghost use Rattle.tb_edge_file.specs.Refusals.{refused};

    /// No call was refused.
    pub fn none() -> Refusals
        ensures { (fault : JournalFault) → refused result fault ≡ 0 }
    {
        Refusals {
            memory: 0,
            failed: 0,
            full: 0,
            unsynced: 0,
        }
    }

    /// Counts a call that is refused with this fault, which a call of a device may have, and returns the fault.
    pub fn count(&mut self, fault: JournalFault) -> JournalFault
        requires { IsOfCall fault ⊎ IsOfSync fault }
        ensures same { result ≡ fault }
        ensures counted { Rises (refused self.old fault) (refused self.new fault) }
        ensures others { (other : JournalFault) → (other ≡ fault) ⊎ (refused self.new other ≡ refused self.old other) }
    {
        match fault {
            JournalFault::Memory => self.memory = self.memory.saturating_add(1),
            JournalFault::Failed => self.failed = self.failed.saturating_add(1),
            JournalFault::Full => self.full = self.full.saturating_add(1),
            JournalFault::SyncFailed => self.unsynced = self.unsynced.saturating_add(1),
            // No call of a device has these.
            JournalFault::TooLong | JournalFault::NotEmpty => {}
        }
        fault
    }
}
