//! What a history is made of.
ghost use Rattle.std.specs.Prelude.{◌≡◌, IfOk};

use std::alloc::{AllocError, Global};
use tb_records::Request;

/// A request that is in the history.
#[derive(Drop)]
pub struct Entry {
    /// Its number in the history: 1, 2, 3 and so on.
    pub commit: u64,
    /// Its time, in nanoseconds.
    pub time: u64,
    /// The request.
    pub request: Request,
}

impl Entry {
    /// An entry equal to this one.
    pub fn copy(&self, alloc: Global) -> Result<Entry, AllocError>
        ensures { IfOk result (λ entry. entry ≡ self.now) }
    {
        let request = self.request.copy(alloc)?;
        Ok(Entry {
            commit: self.commit,
            time: self.time,
            request,
        })
    }
}
