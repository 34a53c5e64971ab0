//! A copy of the machine, and the posted entries that it takes in.
ghost use Rattle.std.specs.Prelude.{◌≡◌, ◌+◌, ◌==◌, [], length, IfOk, IsTrue};
ghost use Rattle.tb_machine.specs.Histories.{fits, step};
ghost use Rattle.tb_published.specs.private.Prefixes.{prefix, prefix_state, with_entry, EndsWith};

use crate::ahead::accounts_of_entries;
use crate::front::Front;
use crate::naming::Naming;
use left_right::Absorb;
use std::alloc::{AllocError, Global};
use std::marker::{Model, PhantomData};
use tb_machine::{Entry, Machine};

/// A posted entry: an entry, and the front that ends with it.
#[derive(Drop)]
pub struct Posted<J: Naming> {
    entry: Entry,
    front: Front,
    /// The accounts that this entry and the next three need: a copy searches for them before it takes this one in.
    ahead: Option<Box<[u128; 8]>>,
    of: PhantomData<J>,
}

impl<J: Naming> Model for Posted<J> {
    ghost use Rattle.std.specs.Prelude.{◌≡◌};
    ghost use Rattle.tb_published.specs.private.Prefixes.{EndsWith};
    ghost use Rattle.tb_published.specs.private.PostedEntries.{PostedEntry};

    ghost Value = { PostedEntry };

    ghost view = { λ o. record { entry = o.entry; front = o.front } };

    ghost invariant = { λ o. (o.front.opening ≡ J.opening) × EndsWith o.front.list o.entry };
}

impl<J: Naming> Posted<J> {
    /// An entry that a front ends with, for the copies to take in.
    pub(crate) fn new(entry: Entry, front: Front) -> Posted<J>
        requires named { front.opening ≡ J.opening }
        requires last { EndsWith front.list entry }
        ensures { (result.entry ≡ entry) × (result.front ≡ front) }
    {
        Posted {
            entry,
            front,
            ahead: None,
            of: PhantomData,
        }
    }

    /// Has the copies search for the accounts of this entry and of the next three before they take it in. If there is no
    /// next entry, or no memory, they search for no account.
    pub(crate) fn look_ahead(&mut self, global: Global, later: &[Entry])
        ensures { self.new ≡ self.old }
    {
        if later.is_empty() {
            return;
        }
        if let Ok(ids) = Box::new(global, accounts_of_entries(&self.entry, later)) {
            self.ahead = Some(ids);
        }
    }
}

/// A copy: the machine after the entries of a front. It keeps no list of them.
#[derive(Drop)]
pub struct Replica<J: Naming> {
    machine: Machine<Global>,
    front: Front,
    of: PhantomData<J>,
}

impl<J: Naming> Model for Replica<J> {
    ghost use Rattle.std.specs.Prelude.{◌≡◌};
    ghost use Rattle.tb_published.specs.private.Prefixes.{Prefix, prefix_state};

    ghost Value = { Prefix };

    ghost view = { λ r. r.front };

    ghost invariant = { λ r. (r.front.opening ≡ J.opening) × (r.machine ≡ prefix_state r.front) };
}

impl<J: Naming> Replica<J> {
    /// The copy of a front with no entries.
    pub(crate) fn new(alloc: Global, front: &Front) -> Result<Replica<J>, AllocError>
        requires named { front.now.opening ≡ J.opening }
        requires empty { front.now.list ≡ [] }
        ensures { IfOk result (λ replica. replica ≡ front.now) }
    {
        let (profile, clients_max) = front.rules();
        let machine = Machine::new_in(alloc, alloc, profile, clients_max)?;
        Ok(Replica {
            machine,
            front: front.again(),
            of: PhantomData,
        })
    }

    /// The machine after the entries of the front.
    pub(crate) fn machine(&self) -> &Machine<Global>
        ensures { result.now ≡ prefix_state self.now }
    {
        &self.machine
    }

    /// The front of the entries that it has taken in.
    pub(crate) fn front(&self) -> &Front
        ensures front { result.now ≡ self.now }
        ensures named { self.now.opening ≡ J.opening }
    {
        &self.front
    }

    /// Brings the accounts that a posted entry names into the cache.
    fn touch(&mut self, ahead: &Option<Box<[u128; 8]>>)
        ensures { self.new ≡ self.old }
    {
        if let Some(ids) = ahead {
            self.machine.touch(&**ids);
        }
    }

    /// Says that a posted entry is the one after the copy's. The publisher sends no other.
    fn comes_next(&self, posted: &Posted<J>) -> bool
        ensures one { result ≡ (length posted.now.front.list == length self.now.list + 1) }
        ensures fits { IsTrue result → IsTrue (fits (prefix_state self.now) posted.now.entry) }
        ensures leads { IsTrue result → prefix_state posted.now.front ≡ step (prefix_state self.now) posted.now.entry }
    {
        let its = posted.front.len();
        let mine = self.front.len();
        self.front.agrees_with(&posted.front);
        if its <= mine {
            return false;
        }
        its - mine == 1
    }
}

impl<J: Naming> Absorb<Posted<J>> for Replica<J> {
    ghost use Rattle.tb_published.specs.private.PostedEntries.{absorbed};

    type State = Replica<J>;

    ghost state = { λ x. x };

    ghost applied = { absorbed };

    /// The first copy takes in an entry by a copy of its own.
    fn absorb_first(&mut self, posted: &Posted<J>, _other: &Replica<J>) -> Result<(), AllocError> {
        self.touch(&posted.ahead);
        if !self.comes_next(posted) {
            return Ok(());
        }
        self.machine.apply(&posted.entry)?;
        self.front = posted.front.again();
        Ok(())
    }

    /// The second copy takes the posted entry itself.
    fn absorb_second(&mut self, posted: Posted<J>, _other: &Replica<J>) -> Result<(), Posted<J>> {
        self.touch(&posted.ahead);
        if !self.comes_next(&posted) {
            drop(posted);
            return Ok(());
        }
        let Posted {
            entry,
            front,
            ahead,
            of: _,
        } = posted;
        drop(ahead);
        match self.machine.enter(entry) {
            Ok(()) => {
                self.front = front;
                Ok(())
            }
            Err(entry) => Err(Posted::new(entry, front)),
        }
    }
}
