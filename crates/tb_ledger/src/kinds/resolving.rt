//! A post or void: what is wrong with it and with the pending transfer that it names, which is closed if the post or void is accepted. The sums of
//! both accounts are settled. If its own values are 0, those of the pending transfer count.
ghost use Rattle.std.specs.Prelude.{◌≡◌, ◌≢◌, ◌^◌, ◌<◌, ◌==◌, true, length, find, Some, IsSome, IfOk, IfErr};
ghost use Rattle.tb_ledger.specs.Batches.{transfer_events};
ghost use Rattle.tb_ledger.specs.Books.{resolves};
ghost use Rattle.tb_ledger.specs.private.Capacity.{HasTransfers};
ghost use Rattle.tb_ledger.specs.private.Exchanges.{account_row_at};
ghost use Rattle.tb_ledger.specs.private.Found.{FoundPending, Judges};
ghost use Rattle.tb_ledger.specs.Kept.{books_in, transfer_row_key, times_out, unlisted, IsListed, settled, state_given_by, row_closed, AreRowsKept, gained, released};
ghost use Rattle.tb_ledger.specs.private.Settlings.{CanSettle, Settles, SettlesIn, closed_code};
ghost use Rattle.tb_ledger.specs.private.Steps.{IsPrepared, IsResolution, TakesEvent, TakesResolution};
ghost use Rattle.tb_ledger.specs.private.UndoLog.{IsMarked};
ghost use Rattle.tb_ledger.specs.Verdicts.{id_code, closed_tests, filled, first_of, resolve_code, resolve_own_tests, differs, named_tests, given_or, filled_amount, filled_from};
ghost use Rattle.tb_records.specs.Ordered.{replaced};
ghost use Rattle.tb_records.specs.TransferResults.{transfer_result_code};

use crate::kinds::two_party::{pending_part, posted_part};
use crate::tables::accounts::{AccountRow, Side};
use crate::tables::index::{add_row, new_transfer_row, unlist};
use crate::tables::map::{Keyed, Table};
use crate::tables::rows::Rows;
use crate::tables::timeouts::Timeouts;
use crate::tables::transfers::{State, TransferRow};
use crate::tables::work::{Undo, UndoLog, Work};
use std::alloc::Allocator;
use tb_records::{CreateTransferResult, Transfer, TransferFlag};

/// Judges a post or void whose id is free, and records it, filled and stamped, if it is accepted.
pub(crate) fn take_resolving<A: Allocator + Clone>(
    work: &mut Work<A>,
    t: &Transfer,
    time: u64,
) -> Result<(), CreateTransferResult>
    requires ready { IsPrepared HasTransfers work.old time }
    requires resolving { resolves t.now ≡ true }
    requires free { id_code (books_in work.old.rows) t.now ≡ 0 }
    requires plain { t.now.flags < 2 ^ 8 }
    ensures { TakesEvent transfer_events transfer_result_code work.old t.now time result work.new }
{
    let Resolution { pending, filled } = judge_resolving(&work.rows, t)?;
    let pending = *pending;
    let mut recorded = filled;
    recorded.timestamp = time;
    settle(work, &pending, &recorded)
}

/// Judges a post or void of the pending transfer `p`, filled and stamped, by the accounts, and records it if it is accepted. A void is accepted on
/// closed accounts too.
fn settle<A: Allocator + Clone>(
    work: &mut Work<A>,
    p: &TransferRow,
    r: &Transfer,
) -> Result<(), CreateTransferResult>
    requires ready { IsPrepared HasTransfers work.old r.now.timestamp }
    requires resolution { IsResolution work.old.rows p.now r.now }
    ensures { TakesResolution work.old p.now r.now result work.new }
{
    let rows = &mut work.rows;
    let undo_log = &mut work.undo_log;
    settle_accounts(&mut rows.accounts, undo_log, &p.recorded(), r)?;
    let state = state_given(r);
    close_row(&mut rows.transfers, &mut rows.timeouts, undo_log, p, state);
    let row = new_transfer_row(*r);
    add_row(&mut rows.transfers, &mut rows.timeouts, undo_log, &row);
    Ok(())
}

/// Judges a post or void by its accounts, and settles both if it is accepted. If changes are noted the undo log gets both rows from before.
fn settle_accounts<A: Allocator + Clone>(
    accounts: &mut Table<AccountRow, A>,
    undo_log: &mut UndoLog<A>,
    p: &Transfer,
    r: &Transfer,
) -> Result<(), CreateTransferResult>
    requires apart { r.now.debit_account_id ≢ r.now.credit_account_id }
    requires debit { IsSome (account_row_at accounts.old.items r.now.debit_account_id) }
    requires credit { IsSome (account_row_at accounts.old.items r.now.credit_account_id) }
    requires can_debit { (a : AccountRow) → account_row_at accounts.old.items r.now.debit_account_id ≡ Some a
        → CanSettle p.now r.now a.debits }
    requires can_credit { (a : AccountRow) → account_row_at accounts.old.items r.now.credit_account_id ≡ Some a
        → CanSettle p.now r.now a.credits }
    ensures settled { SettlesIn p.now r.now undo_log.old accounts.old.items result accounts.new.items undo_log.new }
    ensures capacity { accounts.new.spare ≡ accounts.old.spare }
{
    let mut settle = |debit: &mut AccountRow, credit: &mut AccountRow| {
        settle_rows(debit, credit, p, r, undo_log)
    };
    match accounts.update_two(r.debit_account_id, r.credit_account_id, &mut settle) {
        Some(result) => result,
        None => unreachable!(),
    }
}

/// Judges a post or void by the rows of its accounts, and settles both if it is accepted. The rows from before are put into the undo log here, and
/// not returned through the search that calls this.
fn settle_rows<A: Allocator + Clone>(
    debit: &mut AccountRow,
    credit: &mut AccountRow,
    p: &Transfer,
    r: &Transfer,
    undo_log: &mut UndoLog<A>,
) -> Result<(), CreateTransferResult>
    ensures settled { Settles p.now r.now undo_log.old debit.old credit.old result debit.new credit.new undo_log.new }
    ensures same_debit { debit.new.created ≡ debit.old.created }
    ensures same_credit { credit.new.created ≡ credit.old.created }
{
    judge_closed(r, debit, credit)?;
    undo_log.note_pair(debit, credit);
    debit.set_debits(settle_side(
        debit.debits(),
        p,
        r,
        p.has(TransferFlag::ClosingDebit),
        r.has(TransferFlag::ClosingDebit),
    ));
    credit.set_credits(settle_side(
        credit.credits(),
        p,
        r,
        p.has(TransferFlag::ClosingCredit),
        r.has(TransferFlag::ClosingCredit),
    ));
    Ok(())
}

/// Gives a pending transfer its state, and removes its timeout if it has one.
fn close_row<A: Allocator + Clone>(
    transfers: &mut Table<TransferRow, A>,
    timeouts: &mut Timeouts<A>,
    undo_log: &mut UndoLog<A>,
    p: &TransferRow,
    state: State,
)
    requires log { length undo_log.old.changes < undo_log.old.capacity }
    requires found { find (λ row. row.recorded.id == p.now.recorded.id) transfers.old.items ≡ Some p.now }
    requires is_listed { times_out p.now ≡ true → IsListed timeouts.old.items p.now }
    ensures transfers { transfers.new
        ≡ record transfers.old
        { items = replaced transfer_row_key (settled state p.now) transfers.old.items } }
    ensures timeouts { timeouts.new ≡ unlisted p.now timeouts.old }
    ensures marked { IsMarked 1 transfers.old.items transfers.new.items timeouts.old timeouts.new undo_log.old
        undo_log.new }
{
    undo_log.note(Undo::Transfer(*p));
    let closed = transfers.update(
        p.key(),
        &mut |row: &mut TransferRow| {
            row.set_state(state);
        },
    );
    match closed {
        Some(()) => {}
        None => unreachable!(),
    }
    unlist(timeouts, p);
}

fn state_given(r: &Transfer) -> State
    ensures { result ≡ state_given_by r.now }
{
    if r.is_post() {
        State::Posted
    } else {
        State::Voided
    }
}

/// A post or void that is accepted if its accounts are open: the row of the pending transfer that it names, and its record, filled and not yet
/// stamped.
#[derive(Clone, Copy)]
pub(crate) struct Resolution<'a> {
    pub pending: &'a TransferRow,
    pub filled: Transfer,
}

/// The verdict on a post or void whose id is free, except for closed accounts: what it resolves, if it is accepted.
pub(crate) fn judge_resolving<'a, A: Allocator + Clone>(
    rows: &'a Rows<A>,
    t: &Transfer,
) -> Result<Resolution<'a>, CreateTransferResult>
    requires kept { AreRowsKept rows.now }
    requires resolving { resolves t.now ≡ true }
    ensures refused { IfErr result
        (λ refusal.
        (resolve_code (books_in rows.now) t.now ≡ transfer_result_code refusal)
        × (transfer_result_code refusal ≢ 0)) }
    ensures left { IfOk result
        (λ x.
        resolve_code (books_in rows.now) t.now
        ≡ closed_code (books_in rows.now) t.now x.pending.now.recorded) }
    ensures pending { IfOk result
        (λ x.
        find (λ row. row.recorded.id == t.now.pending_id) rows.now.transfers.items
        ≡ Some x.pending.now) }
    ensures filled { IfOk result (λ x. x.filled ≡ filled (books_in rows.now) t.now) }
    ensures found { IfOk result (λ x. FoundPending (books_in rows.now) x.filled) }
{
    resolve_own(t)?;
    match rows.transfers.get(t.pending_id) {
        Some(p) => {
            let pending = p.recorded();
            resolve_named(t, &pending, p.state())?;
            Ok(Resolution {
                pending: p,
                filled: filled(t, &pending),
            })
        }
        None => Err(CreateTransferResult::PendingTransferNotFound),
    }
}

/// What is wrong with a post or void by itself.
fn resolve_own(t: &Transfer) -> Result<(), CreateTransferResult>
    ensures { Judges transfer_result_code result (first_of (resolve_own_tests t.now)) }
{
    if t.is_post() && t.is_void() {
        return Err(CreateTransferResult::FlagsAreMutuallyExclusive);
    }
    if t.is_pending() || t.is_balancing() || t.is_closing() {
        return Err(CreateTransferResult::FlagsAreMutuallyExclusive);
    }
    if t.pending_id == 0 {
        return Err(CreateTransferResult::PendingIdMustNotBeZero);
    }
    if t.pending_id == u128::MAX {
        return Err(CreateTransferResult::PendingIdMustNotBeIntMax);
    }
    if t.pending_id == t.id {
        return Err(CreateTransferResult::PendingIdMustBeDifferent);
    }
    if t.timeout != 0 {
        return Err(CreateTransferResult::TimeoutReservedForPendingTransfer);
    }
    Ok(())
}

/// Whether a post or void fits the pending transfer that it names.
fn resolve_named(t: &Transfer, p: &Transfer, state: State) -> Result<(), CreateTransferResult>
    ensures { Judges transfer_result_code result (first_of (named_tests t.now p.now state)) }
{
    if !p.is_pending() {
        return Err(CreateTransferResult::PendingTransferNotPending);
    }
    if differs(t.debit_account_id, p.debit_account_id) {
        return Err(CreateTransferResult::PendingTransferHasDifferentDebitAccountId);
    }
    if differs(t.credit_account_id, p.credit_account_id) {
        return Err(CreateTransferResult::PendingTransferHasDifferentCreditAccountId);
    }
    if t.ledger != 0 && t.ledger != p.ledger {
        return Err(CreateTransferResult::PendingTransferHasDifferentLedger);
    }
    if t.code != 0 && t.code != p.code {
        return Err(CreateTransferResult::PendingTransferHasDifferentCode);
    }
    let amount = filled_with(t, p);
    if p.amount < amount {
        return Err(CreateTransferResult::ExceedsPendingTransferAmount);
    }
    if t.is_void() && amount < p.amount {
        return Err(CreateTransferResult::PendingTransferHasDifferentAmount);
    }
    match state {
        State::Open => Ok(()),
        State::Posted => Err(CreateTransferResult::PendingTransferAlreadyPosted),
        State::Voided => Err(CreateTransferResult::PendingTransferAlreadyVoided),
        State::Expired => Err(CreateTransferResult::PendingTransferExpired),
    }
}

/// It is given, and differs from the other.
fn differs(x: u128, other: u128) -> bool
    ensures { result ≡ differs x other }
{
    x != 0 && x != other
}

/// A post needs both accounts open.
pub(crate) fn judge_closed(
    t: &Transfer,
    debit: &AccountRow,
    credit: &AccountRow,
) -> Result<(), CreateTransferResult>
    ensures { Judges transfer_result_code result
        (first_of (closed_tests t.now (row_closed debit.now) (row_closed credit.now))) }
{
    if !t.is_post() {
        return Ok(());
    }
    if debit.is_closed() {
        return Err(CreateTransferResult::DebitAccountAlreadyClosed);
    }
    if credit.is_closed() {
        return Err(CreateTransferResult::CreditAccountAlreadyClosed);
    }
    Ok(())
}

/// A post or void with the values of the pending transfer that it names wherever its own are 0.
pub(crate) fn filled(t: &Transfer, p: &Transfer) -> Transfer
    ensures { result ≡ filled_from p.now t.now }
{
    Transfer {
        id: t.id,
        debit_account_id: given(t.debit_account_id, p.debit_account_id),
        credit_account_id: given(t.credit_account_id, p.credit_account_id),
        amount: filled_with(t, p),
        pending_id: t.pending_id,
        user_data_128: given(t.user_data_128, p.user_data_128),
        user_data_64: if t.user_data_64 == 0 {
            p.user_data_64
        } else {
            t.user_data_64
        },
        user_data_32: if t.user_data_32 == 0 {
            p.user_data_32
        } else {
            t.user_data_32
        },
        timeout: t.timeout,
        ledger: if t.ledger == 0 { p.ledger } else { t.ledger },
        code: if t.code == 0 { p.code } else { t.code },
        flags: t.flags,
        timestamp: t.timestamp,
    }
}

/// The amount of a post or void: a post of the largest number and a void of 0 take the whole amount.
pub(crate) fn filled_with(t: &Transfer, p: &Transfer) -> u128
    ensures { result ≡ filled_amount p.now t.now }
{
    let whole = if t.is_post() { u128::MAX } else { 0 };
    if t.amount == whole {
        p.amount
    } else {
        t.amount
    }
}

/// The value given, or the pending transfer's if none is given.
fn given(x: u128, other: u128) -> u128
    ensures { result ≡ given_or x other }
{
    if x == 0 { other } else { x }
}

/// A side never holds less than an open pending transfer does; if it did, nothing would be left.
pub(crate) fn release_side(s: Side, p: &Transfer, closes: bool) -> Side
    ensures { result ≡ released (λ _. closes) p.now s }
{
    Side {
        pending: s.pending.saturating_sub(p.amount),
        posted: s.posted,
        held_closed: s.held_closed && !closes,
    }
}

/// The pending amount is removed before the posted part of it is added. A side that can settle has sums that fit; if they did not, they would stop at
/// the greatest number.
pub(crate) fn settle_side(
    s: Side,
    p: &Transfer,
    r: &Transfer,
    closes: bool,
    closes_anew: bool,
) -> Side
    ensures { CanSettle p.now r.now s
        → result ≡ gained (λ _. closes_anew) r.now (released (λ _. closes) p.now s) }
{
    let left = release_side(s, p, closes);
    let held = pending_part(r);
    let moved = posted_part(r);
    let held_closed = left.held_closed || r.is_pending() && closes_anew;
    Side {
        pending: left.pending.saturating_add(held),
        posted: left.posted.saturating_add(moved),
        held_closed,
    }
}
