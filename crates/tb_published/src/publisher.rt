//! The publisher: it enters requests into the history, and has the copies show it.
ghost use Rattle.std.specs.Prelude.{◌≡◌, ◌↔◌, ◌<◌, ◌≤◌, [], length, IsTrue, IsFalse, IfOk};
ghost use mathlib.Core.List.{IsPrefix};
ghost use Rattle.tb_published.specs.Openings.{LegalIn, after_in, OneBegins};
ghost use Rattle.tb_published.specs.Taking.{Enters, TakesRequest, ShowsHistory};

use crate::ahead::touch_eight;
use crate::copies::Copies;
use crate::entering::enter_into;
use crate::faults::{OpenFault, TakeFault, Taken};
use crate::front::HistoryHead;
use crate::limits::SeatCount;
use crate::naming::Naming;
use crate::offering::{look_ahead, next_posted};
use crate::publishing::Opening;
use crate::replica::{Posted, Replica};
use crate::seat::Seat;
use crate::told::Told;
use core::mem::replace;
use left_right::Absorb;
use std::alloc::{AllocError, Global};
use std::marker::Model;
use std::sync::Wait;
use tb_machine::{Entry, Machine};
use tb_records::Request;

/// The one publisher of an opening. Contracts see its history, and what the copies show of it. It is not Drop: a `HeldPublisher`
/// closes it.
pub struct Publisher<J: Naming>
where
    Replica<J>: Absorb<Posted<J>, State = Replica<J>>,
{
    copies: Copies<J>,
    history: Vec<Entry>,
    machine: Machine<Global>,
    offered: HistoryHead,
    /// A posted entry that the copies had no capacity for.
    waiting: Option<Posted<J>>,
    global: Global,
}

impl<J: Naming> Model for Publisher<J>
where
    Replica<J>: Absorb<Posted<J>, State = Replica<J>>,
{
    ghost use Rattle.tb_published.specs.private.PostedEntries.{and_waiting};
    ghost use Rattle.tb_published.specs.Openings.{Ends};
    ghost use Rattle.tb_published.specs.private.Ties.{Ties};

    ghost Value = { Ends };

    ghost view = { λ p. record { history = p.history.items; shown = p.copies.shown.list } };

    ghost invariant = { λ p.
        Ties J.opening p.history.items p.machine p.offered (and_waiting p.copies p.waiting) };
}

impl<J: Naming> Publisher<J> {
    /// A publisher of an empty history, with capacity for `seats` seats.
    pub(crate) fn start<W: Wait>(
        alloc: Global,
        rt: &W,
        opening: Opening,
        seats: SeatCount,
    ) -> Result<Publisher<J>, AllocError>
        requires { opening ≡ J.opening }
        ensures { IfOk result (λ p. (p.history ≡ []) × (p.shown ≡ [])) }
    {
        let (profile, clients_max) = opening.rules();
        let machine = match Machine::new_in(alloc, alloc, profile, clients_max) {
            Ok(machine) => machine,
            Err(AllocError) => {
                drop(opening);
                return Err(AllocError);
            }
        };
        let offered = opening.into_head();
        let copies = match Copies::begin(alloc, rt, offered.front(), seats) {
            Ok(copies) => copies,
            Err(AllocError) => {
                drop(machine);
                drop(offered);
                return Err(AllocError);
            }
        };
        Ok(Publisher {
            copies,
            history: Vec::new(alloc),
            machine,
            offered,
            waiting: None,
            global: alloc,
        })
    }

    /// A seat that has seen what the copies show.
    pub(crate) fn seat(&mut self) -> Result<Seat<J>, OpenFault>
        ensures same { self.new ≡ self.old }
        ensures seat { IfOk result (λ seat. seat ≡ self.old.shown) }
    {
        let Ok(place) = self.copies.place() else {
            return Err(OpenFault::NoPlace);
        };
        let front = self.copies.shown().front().again();
        Ok(Seat::new(place, front, self.global))
    }

    /// The history.
    pub fn history(&self) -> &[Entry]
        ensures value { result.now ≡ self.now.history }
        ensures legal { LegalIn J.opening self.now.history }
        ensures shown { IsPrefix self.now.shown self.now.history }
    {
        self.history.as_slice()
    }

    /// The machine after the history.
    pub fn machine(&self) -> &Machine<Global>
        ensures { result.now ≡ after_in J.opening self.now.history }
    {
        &self.machine
    }

    /// What the copies show, for seats to learn.
    pub fn tell(&self) -> Told<J>
        ensures { result ≡ self.now.shown }
    {
        Told::new(self.copies.shown().front().again())
    }

    /// Says whether the copies show all that a seat has seen: then that is a prefix of the history. What is shown begins with
    /// what the seat has seen, or the other way round.
    pub fn beside(&self, seat: &Seat<J>) -> bool
        ensures one { OneBegins self.now.shown seat.now }
        ensures all { IsTrue result ↔ length seat.now ≤ length self.now.shown }
        ensures history { IsTrue result → IsPrefix seat.now self.now.history }
    {
        let _ = &self.copies;
        self.tell().holds(seat)
    }

    /// Brings the accounts of the first eight requests into the cache, for the next calls of [`Publisher::enter`]. Nothing
    /// is searched for if accounts are few, or there is one request. The publisher stays.
    pub fn touch(&mut self, requests: &[Request])
        ensures { self.new ≡ self.old }
    {
        touch_eight(&mut self.machine, requests);
    }

    /// Enters a request that comes at a moment, and leaves what the copies show.
    pub fn enter(&mut self, request: Request, now: u64) -> Result<Taken, TakeFault>
        ensures history { Enters J.opening self.old.history request now result self.new.history }
        ensures shown { self.new.shown ≡ self.old.shown }
    {
        enter_into(
            self.global,
            &mut self.machine,
            &mut self.history,
            request,
            now,
        )
    }

    /// Has the copies show the whole history, and returns its last commit number. It waits for readers of the copy that is
    /// not shown.
    pub fn show<W: Wait>(&mut self, rt: &W) -> Result<u64, TakeFault>
        ensures history { self.new.history ≡ self.old.history }
        ensures shown { IsPrefix self.old.shown self.new.shown }
        ensures ends { ShowsHistory result self.new.history self.new.shown }
    {
        self.catch_up(rt);
        let last = self.history.len() as u64;
        if self.shows_all() {
            Ok(last)
        } else {
            Err(TakeFault::Unpublished(last))
        }
    }

    /// Takes a request that comes at a moment: shows what is not shown yet, enters the request, and shows the history with
    /// it. NoMemory and TimeExhausted leave the history as it was, and the copies show all of it. Unpublished with the
    /// history's old length comes before the request is judged, and leaves the history as it was. Unpublished with one more
    /// comes after the request was entered: then the copies show all except its entry.
    pub fn take<W: Wait>(&mut self, rt: &W, request: Request, now: u64) -> Result<Taken, TakeFault>
        ensures history { TakesRequest J.opening self.old.history request now result self.new.history self.new.shown }
        ensures shown { IsPrefix self.old.shown self.new.shown }
    {
        if let Err(fault) = self.show(rt) {
            drop(request);
            return Err(fault);
        }
        let taken = self.enter(request, now)?;
        self.show(rt)?;
        Ok(taken)
    }

    /// Has the copies show what they do not yet, as far as there is memory.
    fn catch_up<W: Wait>(&mut self, rt: &W)
        ensures history { self.new.history ≡ self.old.history }
        ensures shown { IsPrefix self.old.shown self.new.shown }
    {
        if self.shows_all() {
            return;
        }
        self.offer_all();
        self.swap(rt);
    }

    /// Says whether the copies show the whole history.
    fn shows_all(&self) -> bool
        ensures all { IsTrue result → self.now.shown ≡ self.now.history }
        ensures less { IsFalse result → length self.now.shown < length self.now.history }
    {
        self.copies.shown().front().len() == self.history.len() as u64
    }

    /// Offers the copies the entries that were not offered yet, as far as there is memory.
    fn offer_all(&mut self)
        ensures { self.new ≡ self.old }
    {
        for n in 0..=self.history.len() {
            if self.waiting.is_none() {
                let next = next_posted(self.global, &mut self.offered, self.history.as_slice());
                drop(replace(&mut self.waiting, next));
            }
            if n % 4 == 0 {
                self.look_ahead();
            }
            let Some(posted) = self.waiting.take() else {
                break;
            };
            if let Err(posted) = self.copies.append(posted) {
                drop(self.waiting.replace(posted));
                break;
            }
        }
    }

    /// Has the copies search for the accounts of the next four entries, if accounts are many.
    fn look_ahead(&mut self)
        ensures { self.new ≡ self.old }
    {
        if !self.machine.has_many_accounts() {
            return;
        }
        let count = self.offered.front().len();
        let history = self.history.as_slice();
        look_ahead(self.global, history, count, &mut self.waiting);
    }

    /// Has the copies show what was offered, as far as there is memory.
    fn swap<W: Wait>(&mut self, rt: &W)
        ensures history { self.new.history ≡ self.old.history }
        ensures shown { IsPrefix self.old.shown self.new.shown }
    {
        let _ = self.copies.swap(rt);
    }

    /// Ends the opening, and returns its history. It waits for the seats that are reading; those that ask from then on find
    /// no copy.
    pub fn close<W: Wait>(self, rt: &W) -> Vec<Entry>
        ensures history { result.items ≡ self.history }
        ensures legal { LegalIn J.opening result.items }
    {
        let Publisher {
            copies,
            history: entries,
            machine,
            offered,
            waiting,
            global: _,
        } = self;
        drop(machine);
        drop(offered);
        drop(waiting);
        copies.end(rt);
        entries
    }
}
