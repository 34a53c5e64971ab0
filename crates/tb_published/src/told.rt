//! What the publisher tells seats.
ghost use Rattle.std.specs.Prelude.{◌≡◌, ◌↔◌, ◌≤◌, length, IsTrue};
ghost use Rattle.tb_published.specs.Openings.{OneBegins};

use crate::front::Front;
use crate::naming::Naming;
use crate::seat::Seat;
use std::marker::{Model, PhantomData};

/// A prefix of the history that was shown, for seats to learn. Contracts see it as its entries.
#[derive(Drop)]
pub struct Told<J: Naming> {
    front: Front,
    of: PhantomData<J>,
}

impl<J: Naming> Model for Told<J> {
    ghost use Rattle.std.specs.Prelude.{◌≡◌, List};
    ghost use Rattle.tb_machine.specs.declared.entries.Entry.{Entry};

    ghost Value = { List Entry };

    ghost view = { λ t. t.front.list };

    ghost invariant = { λ t. t.front.opening ≡ J.opening };
}

impl<J: Naming> Told<J> {
    /// What a front has seen.
    pub(crate) fn new(front: Front) -> Told<J>
        requires { front.opening ≡ J.opening }
        ensures { result ≡ front.list }
    {
        Told {
            front,
            of: PhantomData,
        }
    }

    /// The commit number of its last entry; 0 if it has no entry.
    pub fn commit(&self) -> u64
        ensures { result ≡ length self.now }
    {
        self.front.len()
    }

    /// Says whether it has all that a seat has seen. One of the two lists begins with the other.
    pub(crate) fn holds(&self, seat: &Seat<J>) -> bool
        ensures one { OneBegins self.now seat.now }
        ensures all { IsTrue result ↔ length seat.now ≤ length self.now }
    {
        seat.is_within(&self.front)
    }

    /// Its front.
    pub(crate) fn front(&self) -> &Front
        ensures front { result.now.list ≡ self.now }
        ensures named { result.now.opening ≡ J.opening }
    {
        &self.front
    }
}
