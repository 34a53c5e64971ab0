//! Seats: what a client thread reads by, and how a reader looks at the copy that is shown.
ghost use Rattle.std.specs.Prelude.{◌≡◌, ◌↔◌, ◌≤◌, length, IsTrue, IfOk, IfErr, IfSome, MatchOption};
ghost use mathlib.Core.List.{IsPrefix};
ghost use Rattle.std.specs.Fn.{FnOnceReturnsAt};
ghost use Rattle.left_right.specs.Sides.{view as known, view};
ghost use Rattle.tb_records.specs.Messages.{IsLawful};
ghost use Rattle.tb_sessions.specs.Judged.{class_of};
ghost use Rattle.tb_machine.specs.Histories.{answer_to};
ghost use Rattle.tb_published.specs.Openings.{LegalIn, AnswersIn, FindsAccounts, FindsTransfers, HasStatusIn, after_in, longer_of, OneBegins};
ghost use Rattle.tb_published.specs.private.Sharing.{Knows, Looked};
ghost use Rattle.tb_published.specs.private.Prefixes.{IsPrefixOf};
ghost use Rattle.tb_published.specs.declared.faults.SeatFault.TheVariants as seat_fault;

use crate::faults::SeatFault;
use crate::front::Front;
use crate::naming::Naming;
use crate::replica::Replica;
use crate::rule::{Look, Published, View};
use crate::told::Told;
use core::mem::replace_with;
use left_right::reader::{Reader, Reading};
use std::alloc::{AllocError, Global};
use std::marker::Model;
use tb_machine::{Machine, answer_of, status_of};
use tb_records::{Account, Reply, Request, Status, Transfer};

/// Unused bytes on each side of a seat. Every call of a seat writes to it, and seats mostly lie side by side. With the gaps,
/// two seats that different threads read from share no cache line of 64 bytes, nor a pair of lines.
type Gap = [u64; 8];

/// A place at the copies from which one thread reads, without a lock and without waiting. Contracts see it as the
/// prefix of the history that it has seen, which only grows.
#[derive(Drop)]
#[repr(C)]
pub struct Seat<J: Naming> {
    before: Gap,
    place: ReplicaReader<J>,
    front: Front,
    global: Global,
    after: Gap,
}

impl<J: Naming> Model for Seat<J> {
    ghost use Rattle.std.specs.Prelude.{◌≡◌, List};
    ghost use Rattle.left_right.specs.Sides.{view as known};
    ghost use Rattle.tb_machine.specs.declared.entries.Entry.{Entry};
    ghost use Rattle.tb_published.specs.private.Sharing.{Knows};

    ghost Value = { List Entry };

    ghost view = { λ s. s.front.list };

    ghost invariant = { λ s. Knows (known s.place.place) s.front × (s.front.opening ≡ J.opening) };
}

impl<J: Naming> Seat<J> {
    /// The seat of a place that has seen no more than a front.
    pub(crate) fn new(place: ReplicaReader<J>, front: Front, global: Global) -> Seat<J>
        requires knows { Knows (known place.place) front }
        requires named { front.opening ≡ J.opening }
        ensures { result ≡ front.list }
    {
        Seat {
            before: [0; 8],
            place,
            front,
            global,
            after: [0; 8],
        }
    }

    /// Asks a question of the machine of the copy that is shown, and returns what it finds after the entries that the seat
    /// has then seen.
    fn ask<T, Q: FnOnce(&Machine<Global>) -> T>(&mut self, question: Q) -> Result<T, SeatFault>
        requires { Q.IsAlwaysCallable question }
        ensures begins { IsPrefix self.old self.new }
        ensures asked { IfOk result
            (λ t.
            LegalIn J.opening self.new
            × FnOnceReturnsAt Q.FnOnce question (after_in J.opening self.new) t) }
        ensures fault { IfErr result (λ f. (f ≡ seat_fault.NoCopy) × (self.new ≡ self.old)) }
    {
        let front = &self.front;
        let found = replace_with(
            &mut self.place,
            question,
            |place, question| look(place, front, question),
        );
        let Some((shown, answer)) = found else {
            return Err(SeatFault::NoCopy);
        };
        self.front = shown;
        Ok(answer)
    }

    /// The status of a request after the entries that are shown: Reply if its reply is stored, NotYet if it is new,
    /// otherwise its refusal. It takes no memory.
    pub fn status(&mut self, request: &Request) -> Result<Status, SeatFault>
        ensures begins { IsPrefix self.old self.new }
        ensures status { IfOk result (HasStatusIn J.opening self.new request.now) }
        ensures fault { IfErr result (λ f. (f ≡ seat_fault.NoCopy) × (self.new ≡ self.old)) }
    {
        let class = self.ask(
            |machine|
                ensures { result ≡ class_of machine.now.rows request.entry.now }
            { machine.class(request) },
        )?;
        Ok(status_of(class))
    }

    /// The whole answer to a request after the entries that are shown: the stored reply, or a refusal. NoMemory if there is
    /// no memory for the copy of a reply's body; the seat has then seen what is shown all the same.
    pub fn answer(&mut self, request: &Request) -> Result<Reply, SeatFault>
        ensures begins { IsPrefix self.old self.new }
        ensures answer { IfOk result (AnswersIn J.opening self.new request.now) }
        ensures fault { IfErr result (λ f. f ≡ seat_fault.NoCopy → self.new ≡ self.old) }
    {
        let global = self.global;
        let answer = self.ask(
            |machine|
                ensures answer { IfOk result
                    (λ reply. reply ≡ answer_to machine.now request.entry.now) }
                ensures lawful { IsLawful request.entry.now }
            { answer_of(global, machine, request) },
        )?;
        answer.map_err(|_| SeatFault::NoMemory)
    }

    /// The accounts that are found, in the order of the ids, as they are after the entries that are shown, and the number of
    /// those entries.
    pub fn lookup_accounts(&mut self, ids: &[u128]) -> Result<(u64, Vec<Account>), SeatFault>
        ensures begins { IsPrefix self.old self.new }
        ensures found { IfOk result (λ t. FindsAccounts J.opening self.new ids.now t.0 t.1.items) }
        ensures fault { IfErr result (λ f. f ≡ seat_fault.NoCopy → self.new ≡ self.old) }
    {
        match self.ask(|machine| machine.lookup_accounts(ids))? {
            Ok(accounts) => Ok((self.front.len(), accounts)),
            Err(AllocError) => Err(SeatFault::NoMemory),
        }
    }

    /// The transfers that are found, in the order of the ids, as they were recorded, and the number of the entries that
    /// are shown.
    pub fn lookup_transfers(&mut self, ids: &[u128]) -> Result<(u64, Vec<Transfer>), SeatFault>
        ensures begins { IsPrefix self.old self.new }
        ensures found { IfOk result (λ t. FindsTransfers J.opening self.new ids.now t.0 t.1.items) }
        ensures fault { IfErr result (λ f. f ≡ seat_fault.NoCopy → self.new ≡ self.old) }
    {
        match self.ask(|machine| machine.lookup_transfers(ids))? {
            Ok(transfers) => Ok((self.front.len(), transfers)),
            Err(AllocError) => Err(SeatFault::NoMemory),
        }
    }

    /// Takes what the publisher told as seen, if that is longer than what was seen.
    pub fn learn(&mut self, told: &Told<J>)
        ensures longer { self.new ≡ longer_of self.old told.now }
        ensures own { IsPrefix self.old self.new }
        ensures told { IsPrefix told.now self.new }
    {
        self.front = self.front.longer(told.front());
    }

    /// Says whether it has seen all that another seat has. One of the two lists begins with the other.
    pub fn beside(&self, other: &Seat<J>) -> bool
        ensures one { OneBegins self.now other.now }
        ensures all { IsTrue result ↔ length other.now ≤ length self.now }
    {
        other.is_within(&self.front)
    }

    /// Says whether a front of its opening has all that it has seen. One of the two begins with the other.
    pub(crate) fn is_within(&self, front: &Front) -> bool
        requires { front.now.opening ≡ J.opening }
        ensures one { OneBegins front.now.list self.now }
        ensures all { IsTrue result ↔ length self.now ≤ length front.now.list }
    {
        front.agrees_with(&self.front);
        front.len() >= self.front.len()
    }

    /// The number of the entries that it has seen.
    pub fn seen(&self) -> u64
        ensures count { result ≡ length self.now }
        ensures legal { LegalIn J.opening self.now }
    {
        self.front.len()
    }
}

/// A reader's place at the copies.
pub(crate) type ReplicaReader<J> = Reader<Replica<J>, View, Published>;

/// A reader with the copy that it reads, until it leaves.
pub(crate) type Looking<J> = Reading<Replica<J>, View, Published>;

/// Enters the copy that is shown, and returns its front; the place comes back if there is no copy. A copy that shows less
/// than the reader knows is refused too: no copy does, because a reader knows only what was shown.
pub(crate) fn enter<J: Naming>(
    place: ReplicaReader<J>,
    front: &Front,
) -> Result<(Looking<J>, Front), ReplicaReader<J>>
    requires knows { Knows (view place.place) front.now }
    requires named { front.now.opening ≡ J.opening }
    ensures known { IfOk result (λ r. Knows (view r.0.place) r.1) }
    ensures begins { IfOk result (λ r. IsPrefixOf front.now r.1) }
    ensures named { IfOk result (λ r. r.1.opening ≡ J.opening) }
    ensures legal { IfOk result (λ r. LegalIn J.opening r.1.list) }
    ensures value { IfOk result (λ r. r.0.part.value ≡ r.1) }
    ensures back { IfErr result (λ p. Knows (view p.place) front.now) }
{
    let reading = place.enter_as::<Look>()?;
    let shown = reading.get().front();
    front.agrees_with(shown);
    if shown.len() < front.len() {
        return Err(reading.leave());
    }
    let shown = shown.again();
    Ok((reading, shown))
}

/// Asks a question of the machine of the copy that is shown: returns the front of the copy, and what the machine returned.
pub(crate) fn look<J: Naming, T, Q: FnOnce(&Machine<Global>) -> T>(
    place: ReplicaReader<J>,
    front: &Front,
    question: Q,
) -> (ReplicaReader<J>, Option<(Front, T)>)
    requires knows { Knows (view place.place) front.now }
    requires named { front.now.opening ≡ J.opening }
    requires asks { Q.IsAlwaysCallable question }
    ensures looked { MatchOption result.1 (Knows (view result.0.place) front.now)
        (λ t. Looked J.opening (view result.0.place) front.now t.0) }
    ensures answer { IfSome result.1
        (λ t. FnOnceReturnsAt Q.FnOnce question (after_in J.opening t.0.list) t.1) }
{
    match enter(place, front) {
        Ok((reading, shown)) => {
            let answer = question(reading.get().machine());
            (reading.leave(), Some((shown, answer)))
        }
        Err(place) => (place, None),
    }
}
