//! The two copies, and how the publisher shows what they have taken in.
ghost use Rattle.std.specs.Prelude.{◌≡◌, [], Some, IfOk, MatchResult};
ghost use Rattle.left_right.specs.Sides.{view};
ghost use Rattle.tb_published.specs.private.PostedEntries.{FollowsPrefix, and_waiting, showing};
ghost use Rattle.tb_published.specs.private.Sharing.{Swapped};

use crate::front::Front;
use crate::limits::SeatCount;
use crate::naming::Naming;
use crate::replica::{Posted, Replica};
use crate::rule::{Look, Notes, Published, View};
use crate::seat::ReplicaReader;
use core::mem::replace_with;
use left_right::Absorb;
use left_right::writer::Writer;
use std::alloc::{AllocError, Global};
use std::marker::Model;
use std::sync::Wait;

/// The copies as the publisher has them. Contracts see what they show, the posted entries that they have not taken in, and
/// what the publisher has seen. It is not Drop: `end` ends it.
pub struct Copies<J: Naming>
where
    Replica<J>: Absorb<Posted<J>, State = Replica<J>>,
{
    writer: Writer<Replica<J>, Posted<J>, View, Published>,
}

impl<J: Naming> Model for Copies<J>
where
    Replica<J>: Absorb<Posted<J>, State = Replica<J>>,
{
    ghost use Rattle.std.specs.Prelude.{drop};
    ghost use Rattle.left_right.specs.Sides.{view as known};
    ghost use Rattle.tb_published.specs.private.PostedEntries.{TwoCopies};

    ghost Value = { TwoCopies };

    ghost view = { λ c.
        record {
          shown = c.writer.desk.shown.value;
          posted = drop c.writer.behind c.writer.log.items;
          seen = known c.writer.desk.place;
        } };
}

impl<J: Naming> Copies<J> {
    /// The copies of a front with no entries, which do not show it yet, with places for `seats` seats.
    fn new(alloc: Global, front: &Front, seats: SeatCount) -> Result<Copies<J>, AllocError>
        requires named { front.now.opening ≡ J.opening }
        requires empty { front.now.list ≡ [] }
        ensures { IfOk result (λ copies. (copies.shown ≡ front.now) × (copies.posted ≡ [])) }
    {
        let first = Replica::new(alloc, front)?;
        let second = match Replica::new(alloc, front) {
            Ok(second) => second,
            Err(AllocError) => {
                drop(first);
                return Err(AllocError);
            }
        };
        let writer = Writer::new(alloc, first, second, seats.get() as usize)?;
        Ok(Copies { writer })
    }

    /// The copies of a front with no entries, which they show, with places for `seats` seats.
    pub(crate) fn begin<W: Wait>(
        alloc: Global,
        rt: &W,
        front: &Front,
        seats: SeatCount,
    ) -> Result<Copies<J>, AllocError>
        requires named { front.now.opening ≡ J.opening }
        requires empty { front.now.list ≡ [] }
        ensures { IfOk result (λ copies. copies ≡ showing front.now) }
    {
        let (copies, swapped) = Copies::new(alloc, front, seats)?.swapped(rt);
        if let Err(AllocError) = swapped {
            copies.end(rt);
            return Err(AllocError);
        }
        Ok(copies)
    }

    /// Has the copies take in what was posted, and show what they have then. If a copy finds no memory, they show what they
    /// showed before, and what was posted waits.
    fn swapped<W: Wait>(self, rt: &W) -> (Copies<J>, Result<(), AllocError>)
        requires { FollowsPrefix self.shown self.posted }
        ensures { Swapped result.1 self result.0 }
    {
        let Copies { writer } = self;
        let (writer, shown) = writer.publish_as::<Look, W>(rt);
        (Copies { writer }, shown)
    }

    /// As `swapped`, in place.
    pub(crate) fn swap<W: Wait>(&mut self, rt: &W) -> Result<(), AllocError>
        requires { FollowsPrefix self.old.shown self.old.posted }
        ensures { Swapped result self.old self.new }
    {
        replace_with(self, rt, Copies::swapped)
    }

    /// Appends one posted entry; it comes back if there is no capacity for it.
    pub(crate) fn append(&mut self, posted: Posted<J>) -> Result<(), Posted<J>>
        ensures { MatchResult result
            (λ _. self.new ≡ and_waiting self.old (Some posted))
            (λ back. (back ≡ posted) × (self.new ≡ self.old)) }
    {
        self.writer.append(posted)
    }

    /// The copy that is shown.
    pub(crate) fn shown(&self) -> &Replica<J>
        ensures { result.now ≡ self.now.shown }
    {
        self.writer.published()
    }

    /// A reader's place at the copies, which has seen what they show.
    pub(crate) fn place(&mut self) -> Result<ReplicaReader<J>, AllocError>
        ensures same { self.new ≡ self.old }
        ensures place { IfOk result (λ p. view p.place ≡ self.old.seen) }
    {
        let mut place = self.writer.factory().reader()?;
        place.learn::<Notes>(self.writer.tell::<Notes>());
        Ok(place)
    }

    /// Drops the copies. It waits for the seats that are reading; those that ask from then on find no copy.
    pub(crate) fn end<W: Wait>(self, rt: &W) {
        let Copies { writer } = self;
        drop(writer.take(rt));
    }
}
