//! Pending transfers whose timeout has passed.
ghost use Rattle.std.specs.Prelude.{◌≡◌, ◌≢◌, ◌≤◌, ◌==◌, true, false, find, Some, IsSome};
ghost use Rattle.tb_ledger.specs.Books.{closing_debit, closing_credit};
ghost use Rattle.tb_ledger.specs.Kept.{books_in, AreRowsKept, IsTimeout, transfer_row_key, on_debits, on_credits, released, settled, accounts_released};
ghost use Rattle.tb_ledger.specs.private.Steps.{KeepsRecords};
ghost use Rattle.tb_ledger.specs.declared.tables.transfers.State.TheVariants.{Expired};
ghost use Rattle.tb_records.specs.Ordered.{replaced};

use crate::kinds::resolving::release_side;
use crate::tables::accounts::AccountRow;
use crate::tables::map::Table;
use crate::tables::rows::Rows;
use crate::tables::timeouts::Timeout;
use crate::tables::transfers::{State, TransferRow};
use std::alloc::Allocator;
use tb_records::{Transfer, TransferFlag};

/// Removes what a pending transfer holds from the rows of its accounts.
fn release_rows(debit: &mut AccountRow, credit: &mut AccountRow, p: &Transfer)
    ensures debit { debit.new ≡ on_debits (released closing_debit p.now) debit.old }
    ensures credit { credit.new ≡ on_credits (released closing_credit p.now) credit.old }
{
    debit.set_debits(release_side(debit.debits(), p, p.has(TransferFlag::ClosingDebit)));
    credit.set_credits(release_side(credit.credits(), p, p.has(TransferFlag::ClosingCredit)));
}

/// Removes what a pending transfer holds from both of its accounts, in place.
#[inline(never)]
fn release<A: Allocator + Clone>(accounts: &mut Table<AccountRow, A>, p: &Transfer)
    requires apart { p.now.debit_account_id ≢ p.now.credit_account_id }
    requires debit { IsSome (find (λ a. a.created.id == p.now.debit_account_id) accounts.old.items) }
    requires credit { IsSome (find (λ a. a.created.id == p.now.credit_account_id) accounts.old.items) }
    ensures { accounts.new ≡ record accounts.old { items = accounts_released p.now accounts.old.items } }
{
    let released = accounts.update_two(
        p.debit_account_id,
        p.credit_account_id,
        &mut |debit: &mut AccountRow, credit: &mut AccountRow| release_rows(debit, credit, p),
    );
    match released {
        Some(()) => {}
        None => unreachable!(),
    }
}

/// Marks the row of a transfer as expired. The row from before is large, so it is copied to a place of its own, and not returned through the search
/// that calls this.
fn expire_row(row: &mut TransferRow, before: &mut Option<TransferRow>)
    ensures before { before.new ≡ Some row.old }
    ensures row { row.new ≡ settled Expired row.old }
{
    *before = Some(*row);
    row.set_state(State::Expired);
}

/// Marks the transfer that a timeout names as expired, in place, and returns the row from before.
#[inline(never)]
fn mark_expired<A: Allocator + Clone>(
    transfers: &mut Table<TransferRow, A>,
    due: Timeout,
) -> TransferRow
    requires { IsTimeout transfers.old.items due }
    ensures found { find (λ t. t.recorded.id == due.id) transfers.old.items ≡ Some result }
    ensures transfers { transfers.new
        ≡ record transfers.old
        { items = replaced transfer_row_key (settled Expired result) transfers.old.items } }
{
    let mut before = None;
    let marked = transfers.update(
        due.id,
        &mut |row: &mut TransferRow| { expire_row(row, &mut before) },
    );
    match marked.and(before) {
        Some(row) => row,
        None => unreachable!(),
    }
}

/// The accounts of a row that exists.
fn accounts_of(row: &Option<&TransferRow>) -> (u128, u128) {
    match row {
        Some(row) => row.accounts(),
        None => (0, 0),
    }
}

/// The accounts of eight rows, as far as they exist.
fn accounts_of_eight(rows: &[Option<&TransferRow>; 8]) -> [(u128, u128); 8] {
    let mut pairs = [(0, 0); 8];
    for i in 0..8 {
        pairs[i] = accounts_of(&rows[i]);
    }
    pairs
}

/// Brings the next eight transfers that have timeouts, and their accounts, into the cache.
fn touch_next<A: Allocator + Clone>(rows: &mut Rows<A>)
    ensures { rows.new ≡ rows.old }
{
    let pairs = accounts_of_eight(&rows.transfers.get_many(&rows.timeouts.next_eight()));
    rows.accounts.touch_pairs(pairs);
}

/// Looks ahead after `ended` transfers have expired: after the first and every eighth from there, if there are many transfers.
fn look_ahead<A: Allocator + Clone>(rows: &mut Rows<A>, ended: usize)
    ensures { rows.new ≡ rows.old }
{
    if ended % 8 == 1 && rows.transfers.is_large() {
        touch_next(rows);
    }
}

/// Moves the ledger on to `time`, expiring one after another the pending transfers whose timeout has passed.
#[inline(never)]
fn expire_due<A: Allocator + Clone>(rows: &mut Rows<A>, time: u64)
    requires kept { AreRowsKept rows.old }
    requires later { rows.old.time ≤ time }
    ensures kept { AreRowsKept rows.new }
    ensures books { books_in rows.new ≡ record (books_in rows.old) { time = time } }
    ensures records { KeepsRecords rows.old rows.new }
    ensures time { rows.new.time ≡ time }
{
    let mut ended: usize = 0;
    while let Some(due) = rows.timeouts.pop_due(time) {
        let p = mark_expired(&mut rows.transfers, due);
        release(&mut rows.accounts, &p.recorded());
        ended = ended.wrapping_add(1);
        look_ahead(rows, ended);
    }
    rows.time = time;
}

/// Moves the ledger on to `time`: pending transfers whose timeout has passed no longer hold their amounts. It takes as many steps as there are of
/// these. For most entries there are none.
#[inline(always)]
pub fn expire<A: Allocator + Clone>(rows: &mut Rows<A>, time: u64)
    requires kept { AreRowsKept rows.old }
    requires later { rows.old.time ≤ time }
    ensures kept { AreRowsKept rows.new }
    ensures books { books_in rows.new ≡ record (books_in rows.old) { time = time } }
    ensures records { KeepsRecords rows.old rows.new }
    ensures time { rows.new.time ≡ time }
{
    if rows.timeouts.is_due(time) {
        expire_due(rows, time);
    } else {
        rows.time = time;
    }
}
