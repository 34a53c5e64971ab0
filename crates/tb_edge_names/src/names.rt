//! What the name of an open file leads to, and the copies of what is cut off it.
ghost use Rattle.std.specs.Prelude.{◌≡◌, ℕ, Bool, true, false, OnOk, string_bytes};
ghost use Rattle.tb_edge_names.specs.Named.{identity_of, path_of};
ghost use Rattle.tb_edge_names.specs.Saved.{IsSaved};
ghost use Rattle.tb_edge_names.specs.Served.{IsLed};

use crate::looks::look_for;
use crate::served::{Identity, ServedFiles};
use std::alloc::Global;
use std::marker::PhantomData;
use tb_edge_file::{Place, Reason, copy_cut};
use tb_file_journal::JournalFault;

/// Where it is noted what happened to a file that is served.
pub trait Notes {
    /// Why a call on the file fails.
    fn note(&mut self, reason: Reason);

    /// Bytes that are in the file of this path from an offset on were copied into a file of this name.
    fn report_copy(&mut self, path: &str, at: usize, bytes: &[u8], name: &str);
}

/// Whether what a start cuts off is copied.
pub trait Copies {
    ghost is: { Bool };

    fn copies() -> bool
        ensures { result ≡ is };
}

/// It is copied.
#[derive(Drop)]
pub struct Copying {}

/// It is not: `--drop-torn`.
#[derive(Drop)]
pub struct Dropping {}

impl Copies for Copying {
    ghost is = { true };

    fn copies() -> bool {
        true
    }
}

impl Copies for Dropping {
    ghost is = { false };

    fn copies() -> bool {
        false
    }
}

/// A name, and the file that it led to when that was opened.
#[derive(Drop)]
pub struct Name<F, N, C> {
    alloc: Global,
    files: F,
    path: String,
    opened: Identity,
    notes: N,
    copies: PhantomData<C>,
}

impl<F: ServedFiles, N: Notes, C: Copies> Name<F, N, C> {
    /// The name of a file that was opened, which has this identity.
    pub fn new(alloc: Global, files: F, path: String, opened: Identity, notes: N) -> Name<F, N, C>
        ensures path { path_of result ≡ string_bytes path }
        ensures opened { identity_of result ≡ opened }
    {
        Name {
            alloc,
            files,
            path,
            opened,
            notes,
            copies: PhantomData,
        }
    }

    /// The identity of the file that was opened.
    pub fn identity(&self) -> Identity
        ensures { result ≡ identity_of self.now }
    {
        self.opened
    }

    /// Looks at the name, which is to lead to the file that was opened, with this many bytes. If that is not so, the reason is returned.
    #[tactic(auto, using(crate::proofs::NameLooks::led))]
    fn look(&mut self, len: usize) -> Result<(), Reason>
        ensures led { F.tells → OnOk result (IsLed F.names (path_of self.old) (identity_of self.old) len) }
    {
        self.files.meanwhile();
        let status = look_for(&mut self.files, self.path.as_str(), self.opened)?;
        if status.links == 0 || status.len != len as u64 {
            return Err(Reason::Gone);
        }
        Ok(())
    }
}

impl<F: ServedFiles, N: Notes, C: Copies> Place for Name<F, N, C> {
    ghost led = { λ before len after. F.tells → IsLed F.names (path_of before) (identity_of before) len };

    ghost aside = { λ at bytes. C.is ≡ true → F.tells → IsSaved F.names bytes };

    fn leads(&mut self, len: usize) -> bool {
        match self.look(len) {
            Ok(()) => true,
            Err(reason) => {
                self.notes.note(reason);
                false
            }
        }
    }

    fn set_aside(&mut self, at: usize, bytes: &[u8]) -> Result<(), JournalFault> {
        if !C::copies() {
            return Ok(());
        }
        self.files.meanwhile();
        match copy_cut(self.alloc, &mut self.files, self.path.as_str(), at, bytes) {
            Ok(name) => {
                self.notes
                    .report_copy(self.path.as_str(), at, bytes, name.as_str());
                Ok(())
            }
            Err(why) => {
                self.notes.note(Reason::NotCopied(why));
                Err(JournalFault::Failed)
            }
        }
    }
}
