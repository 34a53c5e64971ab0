//! The machine: a ledger and the sessions of its clients, which entries move on.
ghost use Rattle.std.specs.Prelude.{◌≡◌, ◌↔◌, ◌+◌, ◌≤◌, ◌<◌, max, length, IfOk, MatchOption, IsTrue, None, Some};
ghost use Rattle.tb_records.specs.Messages.{IsLawful};
ghost use Rattle.tb_records.specs.declared.limits.TheConstants.{LAST_MOMENT};
ghost use Rattle.tb_ledger.specs.Books.{account_now, profile_of, transfer_at, found_accounts, found_transfers};
ghost use Rattle.tb_sessions.specs.Judged.{class_of, row_of};
ghost use Rattle.tb_machine.specs.Histories.{start, to_two, fits, least_time, stored_reply};

use crate::entries::Entry;
use std::alloc::{AllocError, Allocator, Global};
use std::marker::Model;
use tb_ledger::Ledger;
use tb_records::{Account, ClientsMax, LAST_MOMENT, Profile, Reply, Request, Transfer};
use tb_sessions::{Class, Row, Sessions};

/// A ledger and the sessions of its clients, after a history. Requests, replies and the rows of the sessions are allocated by the global allocator,
/// the records by `A`.
#[derive(Drop)]
pub struct Machine<A: Allocator + Clone> {
    pub(crate) global: Global,
    pub(crate) ledger: Ledger<A>,
    pub(crate) sessions: Sessions,
    pub(crate) commit: u64,
}

impl<A: Allocator + Clone> Model for Machine<A> {
    ghost use Rattle.tb_machine.specs.Histories.{State};
    ghost use Rattle.tb_machine.specs.private.Sound.{IsSound};

    ghost Value = { State };

    ghost view = { λ m.
        record {
          clients_max = m.sessions.clients_max;
          commit = m.commit;
          books = m.ledger;
          rows = m.sessions.rows;
        } };

    ghost invariant = { λ m.
        IsSound
        (record {
          clients_max = m.sessions.clients_max;
          commit = m.commit;
          books = m.ledger;
          rows = m.sessions.rows;
        }) };
}

impl<A: Allocator + Clone> Machine<A> {
    /// The machine of the empty history, with capacity for the sessions of so many clients.
    pub fn new_in(
        global: Global,
        alloc: A,
        profile: Profile,
        clients_max: ClientsMax,
    ) -> Result<Machine<A>, AllocError>
        ensures { IfOk result (λ m. m ≡ start profile clients_max) }
    {
        let sessions = Sessions::with_capacity(global, clients_max)?;
        Ok(Machine {
            global,
            ledger: Ledger::new_in(alloc, profile),
            sessions,
            commit: 0,
        })
    }

    /// The time of a request of n events that comes at a moment: the larger of the moment and the last entry's time plus n, or plus 1 if it has no
    /// event. `None` if that is above `2^63 - 1`.
    pub fn next_time(&self, now: u64, n: u64) -> Option<u64>
        ensures { let time = max now (self.now.books.time + max n 1) in
            MatchOption result (LAST_MOMENT < time) (λ t. (t ≡ time) × (t ≤ LAST_MOMENT)) }
    {
        let least = self.ledger.time().checked_add(n.max(1))?;
        let time = now.max(least);
        if time > LAST_MOMENT {
            return None;
        }
        Some(time)
    }

    /// The profile in use.
    pub fn profile(&self) -> Profile
        ensures { result ≡ profile_of self.now.books }
    {
        self.ledger.profile()
    }

    /// Changes from profile 1 to profile 2: everything stays as it is, and no id has failed yet. Allocates no memory.
    pub fn move_to_two(&mut self)
        requires { profile_of self.old.books ≡ Profile.One }
        ensures { self.new ≡ to_two self.old }
    {
        self.ledger.move_to_two();
    }

    /// The time of the last entry, in nanoseconds; 0 before the first.
    pub fn time(&self) -> u64
        ensures { result ≡ self.now.books.time }
    {
        self.ledger.time()
    }

    /// The number of the last entry; 0 before the first.
    pub fn commit(&self) -> u64
        ensures value { result ≡ self.now.commit }
        ensures in_range { result ≤ LAST_MOMENT }
    {
        self.commit
    }

    /// How a request relates to the sessions.
    pub fn class(&self, request: &Request) -> Class
        ensures { result ≡ class_of self.now.rows request.now }
    {
        self.sessions.classify(request)
    }

    /// The reply to a client's last request; `None` for a client without a session.
    pub fn reply_of(&self, client: u128) -> Option<&Reply>
        ensures { let stored = stored_reply self.now client in
            MatchOption result (stored ≡ None) (λ reply. stored ≡ Some reply.now) }
    {
        match self.stored(client) {
            Some(row) => Some(&row.reply),
            None => None,
        }
    }

    /// The row of a client: its last request that was executed, and the reply to it.
    pub(crate) fn stored(&self, client: u128) -> Option<&Row>
        ensures { MatchOption result (row_of self.now.rows client ≡ None)
            (λ row. row_of self.now.rows client ≡ Some row.now) }
    {
        self.sessions.stored(client)
    }

    /// The account as it is now; `None` if there is no account with this id.
    pub fn account(&self, id: u128) -> Option<Account>
        ensures { result ≡ account_now self.now.books id }
    {
        self.ledger.account(id)
    }

    /// Whether there are so many accounts that a search for one waits for memory at most of its levels.
    pub fn has_many_accounts(&self) -> bool
        ensures { IsTrue result ↔ 65536 ≤ length self.now.books.accounts }
    {
        self.ledger.has_many_accounts()
    }

    /// Brings the accounts of eight ids into the cache, for entries that need them next. If there are few accounts, nothing is searched for. The
    /// machine stays as it is.
    pub fn touch(&mut self, ids: &[u128; 8])
        ensures { self.new ≡ self.old }
    {
        self.ledger.touch(ids);
    }

    /// The transfer as it was recorded; `None` if there is no transfer with this id.
    pub fn transfer(&self, id: u128) -> Option<Transfer>
        ensures { result ≡ transfer_at self.now.books id }
    {
        self.ledger.transfer(id)
    }

    /// The accounts that are found, in the order of the ids, as they are now.
    pub fn lookup_accounts(&self, ids: &[u128]) -> Result<Vec<Account>, AllocError>
        ensures { IfOk result (λ v. v.items ≡ found_accounts self.now.books ids.now) }
    {
        self.ledger.lookup_accounts(self.global, ids)
    }

    /// The transfers that are found, in the order of the ids, as they were recorded.
    pub fn lookup_transfers(&self, ids: &[u128]) -> Result<Vec<Transfer>, AllocError>
        ensures { IfOk result (λ v. v.items ≡ found_transfers self.now.books ids.now) }
    {
        self.ledger.lookup_transfers(self.global, ids)
    }

    /// The least time of a request's entry.
    pub(crate) fn least_time(&self, request: &Request) -> u64
        ensures time { result ≡ least_time self.now request.now }
        ensures lawful { IsLawful request.now }
    {
        let events = request.body().event_count() as u64;
        self.ledger.time() + events.max(1)
    }

    /// Returns whether an entry may come next: its commit is the next one, its time at least the least allowed and at most `2^63 - 1`, and its
    /// request is New.
    pub fn fits(&self, entry: &Entry) -> bool
        ensures { result ≡ fits self.now entry.now }
    {
        entry.commit == self.commit + 1
            && self.least_time(&entry.request) <= entry.time
            && entry.time <= LAST_MOMENT
            && matches!(self.class(&entry.request), Class::New)
    }
}
