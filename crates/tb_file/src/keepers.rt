//! A keeper: a machine, and the journal that holds its entries.
ghost use Rattle.std.specs.Prelude.{◌≡◌, true};

use std::alloc::{Allocator, Global};
use std::marker::Model;
use tb_file_journal::{Device, Journal};
use tb_machine::Machine;

/// A machine, and the journal that holds its entries. After a fault it no longer serves: the file must be opened again. The machine's records
/// allocate from `A`, everything else from the global allocator.
#[derive(Drop)]
pub struct Keeper<D: Device, A: Allocator + Clone = Global> {
    pub(crate) global: Global,
    pub(crate) journal: Journal<D>,
    pub(crate) machine: Machine<A>,
    // The number of torn bytes that the start cut off.
    pub(crate) cut: u64,
    // No call of `keep` has failed.
    pub(crate) usable: bool,
}

impl<D: Device, A: Allocator + Clone> Model for Keeper<D, A> {
    ghost use Rattle.tb_file.specs.Keeping.{Keeping};

    ghost Value = { Keeping D };

    ghost view = { λ k. record { journal = k.journal; state = k.machine; cut = k.cut; usable = k.usable } };
}

impl<D: Device, A: Allocator + Clone> Keeper<D, A> {
    /// A keeper of a machine that is in the state after the journal's entries. The start cut off `cut` torn bytes.
    pub(crate) fn new(
        global: Global,
        journal: Journal<D>,
        machine: Machine<A>,
        cut: u64,
    ) -> Keeper<D, A>
        ensures journal { result.journal ≡ journal }
        ensures state { result.state ≡ machine }
        ensures cut { result.cut ≡ cut }
        ensures usable { result.usable ≡ true }
    {
        Keeper {
            global,
            journal,
            machine,
            cut,
            usable: true,
        }
    }

    /// The journal.
    pub fn journal(&self) -> &Journal<D>
        ensures { result.now ≡ self.now.journal }
    {
        &self.journal
    }

    /// How many bytes the start cut off: the bytes after the records and the latch there, which an uncommitted batch left. 0 if it cut off nothing.
    pub fn cut_bytes(&self) -> u64
        ensures { result ≡ self.now.cut }
    {
        self.cut
    }

    /// Returns the device. The machine and the records that wait are dropped.
    pub fn into_device(self) -> D
        ensures { result ≡ self.journal.device }
    {
        let Keeper {
            journal,
            machine,
            ..
        } = self;
        drop(machine);
        journal.into_device()
    }

    /// The machine, as it is now after all entries.
    pub fn machine(&self) -> &Machine<A>
        ensures { result.now ≡ self.now.state }
    {
        &self.machine
    }
}
