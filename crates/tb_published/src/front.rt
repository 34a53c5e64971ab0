//! Prefixes of a history as tokens: each gives the number of its entries, and the entries themselves only to proofs.
ghost use Rattle.std.specs.Prelude.{◌≡◌, ◌+◌, ◌<◌, ◌^◌, [], length, IsTrue, IfSome, MatchBool};
ghost use Rattle.tb_published.specs.Openings.{LegalIn};
ghost use Rattle.tb_published.specs.private.Prefixes.{Agree, prefix_state, with_entry, IsPrefixOf, longer_prefix};
ghost use Rattle.tb_published.specs.private.Counting.{named_head};
ghost use Rattle.tb_machine.specs.Histories.{fits};

use logbook::{Gain, Offer, Plain, Play, Rule, Seen, Start, Word};
use std::marker::Model;
use tb_machine::Entry;
use tb_records::{ClientsMax, Profile};

/// The rule of the book that counts the entries.
pub struct Law;

impl Rule<Entry, u64> for Law {
    ghost use Rattle.std.specs.Prelude.{[]};
    ghost use base.Fml.{ftrue};
    ghost use Rattle.tb_published.specs.private.Counting.{CountsEntries};

    ghost holds = { λ cells log. CountsEntries cells log };

    ghost first = { [] };

    ghost hinted = { λ n log. Unit {0} };

    ghost shows = { λ log. [] };

    ghost keeps = { λ names log. ftrue };

    ghost moves = { λ ask before after answer. Unit {0} };
}

/// The caller that adds an entry trades nothing.
struct Nothing;

impl Gain<Entry, u64> for Nothing {
    ghost use base.Fml.{ftrue};

    ghost after = { λ names about answer. ftrue };
}

/// The step that adds an entry.
struct Add;

impl Play<Entry, u64> for Add {
    ghost use Rattle.tb_published.specs.private.Counting.{Adds};

    ghost then = { Adds };
}

impl Plain<Entry, Entry, u64> for Add {
    ghost use Rattle.std.specs.Prelude.{None};

    ghost ask = { λ entry. entry };

    ghost state = { λ entry. None };
}

/// A prefix of a legal history.
#[derive(Drop)]
pub struct Front {
    profile: Profile,
    clients_max: ClientsMax,
    count: u64,
    seen: Seen<Entry, u64, Law>,
}

impl Model for Front {
    ghost use Rattle.std.specs.Prelude.{◌≡◌, length};
    ghost use Rattle.tb_machine.specs.Histories.{IsLegal};
    ghost use Rattle.tb_published.specs.private.Prefixes.{Prefix};

    ghost Value = { Prefix };

    ghost view = { λ f.
        record {
          opening =
              record
              { book = f.seen.book; profile = f.profile; clients_max = f.clients_max };
          list = f.seen.log;
        } };

    ghost invariant = { λ f. (f.count ≡ length f.seen.log) × IsLegal f.profile f.clients_max f.seen.log };
}

impl Front {
    /// How many entries it has.
    pub fn len(&self) -> u64
        ensures count { result ≡ length self.now.list }
        ensures legal { LegalIn self.now.opening self.now.list }
    {
        self.count
    }

    /// The rules of its opening.
    pub fn rules(&self) -> (Profile, ClientsMax)
        ensures { (result.0 ≡ self.now.opening.profile) × (result.1 ≡ self.now.opening.clients_max) }
    {
        (self.profile, self.clients_max)
    }

    /// A copy.
    pub fn again(&self) -> Front
        ensures { result ≡ self.now }
    {
        Front {
            profile: self.profile,
            clients_max: self.clients_max,
            count: self.count,
            seen: self.seen.again(),
        }
    }

    /// Compares what it has with what another front of its opening has: one begins with the other.
    pub fn agrees_with(&self, other: &Front)
        requires { other.now.opening ≡ self.now.opening }
        ensures { Agree self.now other.now }
    {
        let mut both = self.seen.again();
        both.learn(&other.seen);
    }

    /// The longer of two fronts of one opening; it begins with the other.
    pub fn longer(&self, other: &Front) -> Front
        requires { other.now.opening ≡ self.now.opening }
        ensures longer { result ≡ longer_prefix self.now other.now }
        ensures this { IsPrefixOf self.now result }
        ensures that { IsPrefixOf other.now result }
    {
        self.agrees_with(other);
        if self.count < other.count {
            other.again()
        } else {
            self.again()
        }
    }

    /// Counts an entry that may come next, and gives the front with it; None if another entry had been counted.
    fn followed_by(&self, head: &Head, entry: &Entry) -> Option<Front>
        requires counted { head.now ≡ named_head self.now.opening.book }
        requires capacity { length self.now.list + 1 < 2 ^ 64 }
        requires next { IsTrue (fits (prefix_state self.now) entry.now) }
        ensures { IfSome result (λ front. front ≡ with_entry self.now entry.now) }
    {
        let mut seen = self.seen.again();
        let mut offer: Offer<Entry, u64, Law, Nothing> = seen.plain::<Nothing, Entry, Add>(entry);
        let mut pen = seen.no_pen();
        let count = self.count;
        let found = head.compare_exchange::<Add, Nothing>(
            count,
            count + 1,
            &mut seen,
            &mut offer,
            &mut pen,
        );
        if found != count {
            return None;
        }
        Some(Front {
            profile: self.profile,
            clients_max: self.clients_max,
            count: count + 1,
            seen,
        })
    }
}

/// The word that counts the entries of a history.
type Head = Word<Entry, u64, Law>;

/// The word that counts the entries of a history, and the front of all of them.
#[derive(Drop)]
pub struct HistoryHead {
    head: Head,
    front: Front,
}

impl Model for HistoryHead {
    ghost use Rattle.std.specs.Prelude.{◌≡◌};
    ghost use Rattle.tb_published.specs.private.Prefixes.{Prefix};
    ghost use Rattle.tb_published.specs.private.Counting.{named_head};

    ghost Value = { Prefix };

    ghost view = { λ c. c.front };

    ghost invariant = { λ c. c.head ≡ named_head c.front.opening.book };
}

impl HistoryHead {
    /// The head of an empty history that is to keep these rules. It takes no memory.
    pub fn new(profile: Profile, clients_max: ClientsMax) -> HistoryHead
        ensures rules { (result.opening.profile ≡ profile)
            × (result.opening.clients_max ≡ clients_max) }
        ensures empty { result.list ≡ [] }
    {
        let (seen, mut first, _second) = Seen::open(Start::alone(), 0, 0);
        let front = Front {
            profile,
            clients_max,
            count: 0,
            seen,
        };
        HistoryHead {
            head: Word::tracked(0, &mut first),
            front,
        }
    }

    /// The front of all entries.
    pub fn front(&self) -> &Front
        ensures { result.now ≡ self.now }
    {
        &self.front
    }

    /// Adds an entry that may come next, and says whether it did: it did not if another had been added.
    pub fn add(&mut self, entry: &Entry) -> bool
        requires capacity { length self.old.list + 1 < 2 ^ 64 }
        requires next { IsTrue (fits (prefix_state self.old) entry.now) }
        ensures { MatchBool result (self.new ≡ with_entry self.old entry.now) (self.new ≡ self.old) }
    {
        match self.front.followed_by(&self.head, entry) {
            Some(front) => {
                self.front = front;
                true
            }
            None => false,
        }
    }
}
