//! A batch in progress: the tables that it changes, the undo log of its current chain, by which a broken chain is undone, and the results so far.
ghost use Rattle.std.specs.Prelude.{◌≡◌, ◌+◌, ◌<◌, ◌≤◌, ◌++◌, [], ◌∷◌, length, OnOk, ◌*◌, false, IfSome, IfNone};
ghost use Rattle.tb_ledger.specs.Books.{empty_books};
ghost use Rattle.tb_ledger.specs.Kept.{books_in, AreRowsKept};
ghost use Rattle.tb_ledger.specs.private.Noted.{with_noted, NotesPair};
ghost use Rattle.tb_ledger.specs.private.UndoLog.{chained, undone_by, unwound, CanUndo, CanUnwind, IsUndoneTo};
ghost use Rattle.tb_records.specs.declared.limits.TheConstants.{ITEMS_MAX};

use crate::tables::accounts::AccountRow;
use crate::tables::index::{list, unlist};
use crate::tables::map::Keyed;
use crate::tables::rows::Rows;
use crate::tables::transfers::TransferRow;
use std::alloc::{AllocError, Allocator, Global};
use std::marker::Model;
use std::mem;
use tb_records::{EventResult, Profile};

/// A batch in progress: the tables that it changes, the undo log of its current chain, and the results so far.
#[derive(Drop)]
pub(crate) struct Work<A: Allocator + Clone> {
    pub rows: Rows<A>,
    pub undo_log: UndoLog<A>,
    pub results: Results,
}

impl<A: Allocator + Clone> Work<A> {
    /// The work of a new ledger. No memory is allocated.
    pub(crate) fn new(profile: Profile) -> Self
        ensures kept { AreRowsKept result.rows }
        ensures books { books_in result.rows ≡ empty_books profile }
    {
        Work {
            rows: Rows::new(profile),
            undo_log: UndoLog::new(),
            results: Results::new(),
        }
    }
}

/// The results of a batch so far. Results that are returned take their memory with them; if there are none, the memory stays for the next batch.
#[derive(Drop)]
pub(crate) struct Results {
    list: Option<Vec<EventResult>>,
}

impl Model for Results {
    ghost use Rattle.std.specs.Prelude.{[], vec_items, vec_capacity};
    ghost use Rattle.std.specs.Option.{option_map_or};
    ghost use Rattle.tb_ledger.specs.private.Gathered.{Gathered};

    ghost Value = { Gathered };

    ghost view = { λ r.
        record { items = option_map_or vec_items r.list []; capacity = option_map_or vec_capacity r.list 0 } };
}

impl Results {
    /// No results. No memory is allocated.
    fn new() -> Self
        ensures { result ≡ record { items = []; capacity = 0 } }
    {
        Results { list: None }
    }

    /// Begins the results of a batch of so many events: allocates memory if the last results were returned, or had too little.
    pub(crate) fn reserve(&mut self, global: Global, events: usize) -> Result<(), AllocError>
        ensures none { OnOk result (self.new.items ≡ []) }
        ensures capacity { OnOk result (events ≤ self.new.capacity) }
    {
        if let Some(list) = &mut self.list {
            list.clear();
            if events <= list.capacity() {
                return Ok(());
            }
        }
        self.list = Some(Vec::with_capacity(global, events)?);
        Ok(())
    }

    /// Adds a result, for which there is memory.
    pub(crate) fn push(&mut self, refused: EventResult)
        requires { length self.old.items < self.old.capacity }
        ensures { self.new ≡ record self.old { items = self.old.items ++ refused ∷ [] } }
    {
        match &mut self.list {
            Some(list) => list.push_reserved(refused),
            None => unreachable!(),
        }
    }

    /// The results of a batch.
    pub(crate) fn hand_out(&mut self, global: Global) -> Vec<EventResult>
        ensures { result.items ≡ self.old.items }
    {
        match &mut self.list {
            Some(list) if !list.is_empty() => mem::replace(list, Vec::new(global)),
            _ => Vec::new(global),
        }
    }
}

/// What undoes a change.
#[derive(Clone, Copy)]
pub enum Undo {
    /// The account's row was changed: this is the row from before.
    Account(AccountRow),
    /// The transfer's row was changed: this is the row from before.
    Transfer(TransferRow),
    /// An account of this id was added.
    AddedAccount(u128),
    /// A transfer was added: this is its row, with the state that it was added with.
    AddedTransfer(TransferRow),
}

/// The largest number of records that an event adds to the log.
pub const UNDOS_PER_EVENT: usize = 4;

/// The changes since a chain began, the oldest first. The changes of a single event are not noted: it is applied as a whole or not at all.
#[derive(Drop)]
pub struct UndoLog<A: Allocator + Clone> {
    log: Option<Vec<Undo, A>>,
    noting: bool,
}

impl<A: Allocator + Clone> Model for UndoLog<A> {
    ghost use Rattle.std.specs.Prelude.{[], vec_items, vec_capacity};
    ghost use Rattle.std.specs.Option.{option_map_or};
    ghost use Rattle.tb_ledger.specs.private.Noted.{Noted};

    ghost Value = { Noted };

    ghost view = { λ t.
        record {
          changes = option_map_or vec_items t.log [];
          noting = t.noting;
          capacity = option_map_or vec_capacity t.log 0;
        } };
}

impl<A: Allocator + Clone> UndoLog<A> {
    /// An empty log. No memory is allocated.
    pub fn new() -> Self
        ensures { result ≡ record { changes = []; noting = false; capacity = 0 } }
    {
        UndoLog {
            log: None,
            noting: false,
        }
    }

    /// Makes capacity for the changes of so many events, if there is less: for the next power of two of them.
    ///
    /// An arena does not reuse what is freed. So a log is replaced only if the next batch needs a larger one, which is then at least twice as large.
    /// All logs of a ledger together take at most twice the largest, which has 4.7 MB, for the events of the longest body.
    pub fn reserve(&mut self, alloc: &A, events: usize) -> Result<(), AllocError>
        requires { events ≤ ITEMS_MAX }
        ensures { OnOk result (UNDOS_PER_EVENT * events ≤ self.new.capacity) }
    {
        if UNDOS_PER_EVENT * events <= self.capacity() {
            return Ok(());
        }
        let n = UNDOS_PER_EVENT * events.next_power_of_two();
        self.log = Some(Vec::with_capacity(alloc.clone()?, n)?);
        Ok(())
    }

    /// The records that it can have.
    fn capacity(&self) -> usize
        ensures { result ≡ self.now.capacity }
    {
        match &self.log {
            Some(log) => log.capacity(),
            None => 0,
        }
    }

    /// Begins a chain, whose changes are noted or not.
    pub fn start(&mut self, noting: bool)
        ensures { self.new ≡ record self.old { changes = []; noting = noting } }
    {
        self.noting = noting;
        match &mut self.log {
            Some(log) => log.clear(),
            None => {}
        }
    }

    /// Adds a record, for which there is capacity.
    fn push(&mut self, undo: Undo)
        requires { length self.old.changes < self.old.capacity }
        ensures { self.new ≡ record self.old { changes = self.old.changes ++ undo ∷ [] } }
    {
        match &mut self.log {
            Some(log) => log.push_reserved(undo),
            None => unreachable!(),
        }
    }

    /// Adds the record of a change, if changes are noted.
    pub fn note(&mut self, undo: Undo)
        requires { length self.old.changes < self.old.capacity }
        ensures { self.new ≡ with_noted undo self.old }
    {
        if self.noting {
            self.push(undo);
        }
    }

    /// Adds the rows of two accounts from before their change, if changes are noted. The search that calls this cannot know that there is capacity
    /// for both: if there is none, nothing is noted.
    pub fn note_pair(&mut self, debit: &AccountRow, credit: &AccountRow)
        ensures { NotesPair debit.now credit.now self.old self.new }
    {
        match &mut self.log {
            Some(log) if self.noting && log.capacity() - log.len() >= 2 => {
                log.push_reserved(Undo::Account(*debit));
                log.push_reserved(Undo::Account(*credit));
            }
            _ => {}
        }
    }

    /// Removes the last record.
    fn pop(&mut self) -> Option<Undo>
        ensures changes { IfSome result (λ undo. self.old.changes ≡ self.new.changes ++ undo ∷ []) }
        ensures none { IfNone result (self.old.changes ≡ []) }
        ensures noting { self.new.noting ≡ self.old.noting }
        ensures capacity { self.new.capacity ≡ self.old.capacity }
    {
        match &mut self.log {
            Some(log) => log.pop(),
            None => None,
        }
    }
}

/// Undoes a change. No memory is allocated.
fn undo_one<A: Allocator + Clone>(rows: &mut Rows<A>, undo: Undo)
    requires { CanUndo undo (chained rows.old) }
    ensures { IsUndoneTo (undone_by undo (chained rows.old)) rows.old rows.new }
{
    match undo {
        Undo::Account(row) => rows.accounts.replace(row),
        Undo::Transfer(row) => {
            rows.transfers.replace(row);
            list(&mut rows.timeouts, &row);
        }
        Undo::AddedAccount(id) => rows.accounts.remove(id),
        Undo::AddedTransfer(row) => {
            rows.transfers.remove(row.key());
            unlist(&mut rows.timeouts, &row);
        }
    }
}

/// Undoes the changes of the undo log, the last first. No memory is allocated.
pub fn unwind<A: Allocator + Clone>(rows: &mut Rows<A>, undo_log: &mut UndoLog<A>)
    requires { CanUnwind undo_log.old.changes (chained rows.old) }
    ensures unwound { IsUndoneTo (unwound undo_log.old.changes (chained rows.old)) rows.old rows.new }
    ensures capacity { undo_log.new.capacity ≡ undo_log.old.capacity }
{
    while let Some(undo) = undo_log.pop() {
        undo_one(rows, undo);
    }
}
