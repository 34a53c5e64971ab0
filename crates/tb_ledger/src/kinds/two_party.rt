//! A transfer between two accounts, single-phase or pending: both rows are found by one walk, judged, and changed in place.
ghost use Rattle.std.specs.Option.{is_some};
ghost use Rattle.std.specs.Prelude.{if◌then◌else◌, ◌≡◌, ◌^◌, ◌<◌, false, ◌≢◌, ◌+◌, ◌*◌, ◌-◌, nat_lt, Some, IfOk, ◌≤◌};
ghost use Rattle.tb_ledger.specs.Batches.{transfer_events};
ghost use Rattle.tb_ledger.specs.Books.{resolves, pending, moves};
ghost use Rattle.tb_ledger.specs.private.Capacity.{HasTransfers};
ghost use Rattle.tb_ledger.specs.private.Exchanges.{ExchangesRows, ExchangesIn, missing_account};
ghost use Rattle.tb_ledger.specs.private.Found.{Judges};
ghost use Rattle.tb_ledger.specs.Kept.{books_in, row_now, gained};
ghost use Rattle.tb_ledger.specs.private.Steps.{IsPrepared, TakesEvent};
ghost use Rattle.tb_ledger.specs.Verdicts.{id_code, first_of, balanced_amount, amount_tests, pair_code, pair_tests, two_party_own_tests};
ghost use Rattle.tb_records.specs.TransferResults.{transfer_result_code};
ghost use Rattle.tb_records.specs.declared.limits.TheConstants.{NANOSECONDS_PER_SECOND, AMOUNT_MAX, LAST_MOMENT};

use crate::tables::accounts::{AccountRow, Side};
use crate::tables::index::{add_row, new_transfer_row};
use crate::tables::map::Table;
use crate::tables::work::{UndoLog, Work};
use std::alloc::Allocator;
use tb_records::{
    AccountFlag, CreateTransferResult, LAST_MOMENT, NANOSECONDS_PER_SECOND, Transfer, TransferFlag,
};

/// Judges a transfer between two accounts whose id is free, and records it, balanced and stamped, if it is accepted.
pub(crate) fn take_two_party<A: Allocator + Clone>(
    work: &mut Work<A>,
    t: &Transfer,
    time: u64,
) -> Result<(), CreateTransferResult>
    requires ready { IsPrepared HasTransfers work.old time }
    requires single { resolves t.now ≡ false }
    requires free { id_code (books_in work.old.rows) t.now ≡ 0 }
    requires plain { t.now.flags < 2 ^ 8 }
    ensures { TakesEvent transfer_events transfer_result_code work.old t.now time result work.new }
{
    two_party_own(t)?;
    let rows = &mut work.rows;
    let undo_log = &mut work.undo_log;
    let amount = exchange(&mut rows.accounts, undo_log, t, time)?;
    let mut recorded = *t;
    recorded.amount = amount;
    recorded.timestamp = time;
    let row = new_transfer_row(recorded);
    add_row(&mut rows.transfers, &mut rows.timeouts, undo_log, &row);
    Ok(())
}

/// Judges a transfer between two accounts, and changes their rows if it is accepted; returns the amount that it moves. If changes are noted the undo
/// log gets both rows from before.
fn exchange<A: Allocator + Clone>(
    accounts: &mut Table<AccountRow, A>,
    undo_log: &mut UndoLog<A>,
    t: &Transfer,
    time: u64,
) -> Result<u128, CreateTransferResult>
    requires { t.now.debit_account_id ≢ t.now.credit_account_id }
    ensures exchanged { ExchangesIn t.now time undo_log.old accounts.old.items result accounts.new.items undo_log.new }
    ensures capacity { accounts.new.spare ≡ accounts.old.spare }
{
    let mut exchange = |debit: &mut AccountRow, credit: &mut AccountRow| {
        exchange_rows(debit, credit, t, time, undo_log)
    };
    match accounts.update_two(t.debit_account_id, t.credit_account_id, &mut exchange) {
        Some(result) => result,
        None => Err(missing(accounts, t)),
    }
}

/// Judges a transfer by the rows of its accounts, and changes both if it is accepted; returns the amount that it moves. The rows from before are put
/// into the undo log here, and not returned through the search that calls this.
fn exchange_rows<A: Allocator + Clone>(
    debit: &mut AccountRow,
    credit: &mut AccountRow,
    t: &Transfer,
    time: u64,
    undo_log: &mut UndoLog<A>,
) -> Result<u128, CreateTransferResult>
    ensures judged { ExchangesRows t.now time undo_log.old debit.old credit.old result debit.new credit.new undo_log.new }
    ensures same_debit { debit.new.created ≡ debit.old.created }
    ensures same_credit { credit.new.created ≡ credit.old.created }
{
    let amount = between(debit, credit, t, time)?;
    undo_log.note_pair(debit, credit);
    let mut recorded = *t;
    recorded.amount = amount;
    recorded.timestamp = time;
    debit.set_debits(gain_side(debit.debits(), &recorded, t.has(TransferFlag::ClosingDebit)));
    credit.set_credits(gain_side(
        credit.credits(),
        &recorded,
        t.has(TransferFlag::ClosingCredit),
    ));
    Ok(amount)
}

/// Which account is missing.
fn missing<A: Allocator + Clone>(
    accounts: &Table<AccountRow, A>,
    t: &Transfer,
) -> CreateTransferResult
    ensures { result ≡ missing_account accounts.now.items t.now }
{
    if accounts.get(t.debit_account_id).is_some() {
        CreateTransferResult::CreditAccountNotFound
    } else {
        CreateTransferResult::DebitAccountNotFound
    }
}

/// What is wrong by itself with a transfer that is not a post or void.
pub(crate) fn two_party_own(t: &Transfer) -> Result<(), CreateTransferResult>
    ensures { Judges transfer_result_code result (first_of (two_party_own_tests t.now)) }
{
    if t.debit_account_id == 0 {
        return Err(CreateTransferResult::DebitAccountIdMustNotBeZero);
    }
    if t.debit_account_id == u128::MAX {
        return Err(CreateTransferResult::DebitAccountIdMustNotBeIntMax);
    }
    if t.credit_account_id == 0 {
        return Err(CreateTransferResult::CreditAccountIdMustNotBeZero);
    }
    if t.credit_account_id == u128::MAX {
        return Err(CreateTransferResult::CreditAccountIdMustNotBeIntMax);
    }
    if t.debit_account_id == t.credit_account_id {
        return Err(CreateTransferResult::AccountsMustBeDifferent);
    }
    if t.pending_id != 0 {
        return Err(CreateTransferResult::PendingIdMustBeZero);
    }
    let pending = t.is_pending();
    if !pending && t.timeout != 0 {
        return Err(CreateTransferResult::TimeoutReservedForPendingTransfer);
    }
    if !pending && t.is_closing() {
        return Err(CreateTransferResult::ClosingTransferMustBePending);
    }
    if t.ledger == 0 {
        return Err(CreateTransferResult::LedgerMustNotBeZero);
    }
    if t.code == 0 {
        return Err(CreateTransferResult::CodeMustNotBeZero);
    }
    Ok(())
}

/// A transfer between two accounts that exist: the amount that it moves, if it is accepted.
pub(crate) fn between(
    d: &AccountRow,
    c: &AccountRow,
    t: &Transfer,
    time: u64,
) -> Result<u128, CreateTransferResult>
    ensures judged { Judges transfer_result_code result
        (pair_code (Some (row_now d.now)) (Some (row_now c.now)) t.now time) }
    ensures amount { IfOk result (λ amount. amount ≡ balanced_amount (row_now d.now) (row_now c.now) t.now) }
{
    pair(d, c, t)?;
    let amount = balanced(d, c, t);
    amounts(d, c, t, amount, time)?;
    Ok(amount)
}

/// Whether two accounts can exchange money.
fn pair(d: &AccountRow, c: &AccountRow, t: &Transfer) -> Result<(), CreateTransferResult>
    ensures { Judges transfer_result_code result
        (first_of (pair_tests (row_now d.now) (row_now c.now) t.now)) }
{
    if d.ledger() != c.ledger() {
        return Err(CreateTransferResult::AccountsMustHaveTheSameLedger);
    }
    if t.ledger != d.ledger() {
        return Err(CreateTransferResult::TransferMustHaveTheSameLedgerAsAccounts);
    }
    if AccountFlag::Closed.is_in(d.flags_now()) {
        return Err(CreateTransferResult::DebitAccountAlreadyClosed);
    }
    if AccountFlag::Closed.is_in(c.flags_now()) {
        return Err(CreateTransferResult::CreditAccountAlreadyClosed);
    }
    Ok(())
}

/// The amount that a balancing transfer moves between two accounts: at most what keeps its sides balanced.
fn balanced(d: &AccountRow, c: &AccountRow, t: &Transfer) -> u128
    ensures { result ≡ balanced_amount (row_now d.now) (row_now c.now) t.now }
{
    let mut amount = t.amount;
    if t.has(TransferFlag::BalancingDebit) {
        amount = amount.min(to_spare(d.debits(), d.credits()));
    }
    if t.has(TransferFlag::BalancingCredit) {
        amount = amount.min(to_spare(c.credits(), c.debits()));
    }
    amount
}

/// What a side can still take before its sums exceed what is posted on the other.
fn to_spare(side: Side, other: Side) -> u128
    ensures { result ≡ other.posted - (side.posted + side.pending) }
{
    other
        .posted
        .saturating_sub(side.posted)
        .saturating_sub(side.pending)
}

/// Whether the amount, balanced, fits both accounts and the timeout the clock.
fn amounts(
    d: &AccountRow,
    c: &AccountRow,
    t: &Transfer,
    amount: u128,
    time: u64,
) -> Result<(), CreateTransferResult>
    ensures { Judges transfer_result_code result
        (first_of (amount_tests (row_now d.now) (row_now c.now) t.now amount time)) }
{
    let pending = t.is_pending();
    let debits = d.debits();
    let credits = c.credits();
    if pending && above(debits.pending, amount) {
        return Err(CreateTransferResult::OverflowsDebitsPending);
    }
    if pending && above(credits.pending, amount) {
        return Err(CreateTransferResult::OverflowsCreditsPending);
    }
    if above(debits.posted, amount) {
        return Err(CreateTransferResult::OverflowsDebitsPosted);
    }
    if above(credits.posted, amount) {
        return Err(CreateTransferResult::OverflowsCreditsPosted);
    }
    if sum_above(debits.pending, debits.posted, amount) {
        return Err(CreateTransferResult::OverflowsDebits);
    }
    if sum_above(credits.pending, credits.posted, amount) {
        return Err(CreateTransferResult::OverflowsCredits);
    }
    if overdue(time, t.timeout) {
        return Err(CreateTransferResult::OverflowsTimeout);
    }
    if AccountFlag::DebitsMustNotExceedCredits.is_in(d.flags_now())
        && sum_exceeds(debits.pending, debits.posted, amount, d.credits().posted)
    {
        return Err(CreateTransferResult::ExceedsCredits);
    }
    if AccountFlag::CreditsMustNotExceedDebits.is_in(c.flags_now())
        && sum_exceeds(credits.pending, credits.posted, amount, c.debits().posted)
    {
        return Err(CreateTransferResult::ExceedsDebits);
    }
    Ok(())
}

/// The sum is above the largest number.
fn above(x: u128, y: u128) -> bool
    ensures { result ≡ nat_lt AMOUNT_MAX (x + y) }
{
    x.checked_add(y).is_none()
}

/// The sum of three is above the largest number.
fn sum_above(x: u128, y: u128, z: u128) -> bool
    ensures { result ≡ nat_lt AMOUNT_MAX (x + y + z) }
{
    match x.checked_add(y) {
        Some(sum) => above(sum, z),
        None => true,
    }
}

/// The sum of three is above a limit.
fn sum_exceeds(x: u128, y: u128, z: u128, limit: u128) -> bool
    ensures { result ≡ nat_lt limit (x + y + z) }
{
    match x.checked_add(y) {
        Some(two) => match two.checked_add(z) {
            Some(sum) => limit < sum,
            None => true,
        },
        None => true,
    }
}

/// A timeout would end after the last moment of the clock.
fn overdue(time: u64, timeout: u32) -> bool
    ensures { result ≡ nat_lt LAST_MOMENT (time + timeout * NANOSECONDS_PER_SECOND) }
{
    u128::from(LAST_MOMENT)
        < u128::from(time) + u128::from(timeout) * u128::from(NANOSECONDS_PER_SECOND)
}

/// What a transfer holds until it is resolved or expires.
pub(super) fn pending_part(t: &Transfer) -> u128
    ensures { result ≡ (if pending t.now then t.now.amount else 0) }
{
    if t.is_pending() { t.amount } else { 0 }
}

/// What a transfer posts.
pub(super) fn posted_part(t: &Transfer) -> u128
    ensures { result ≡ (if moves t.now then t.now.amount else 0) }
{
    if !t.is_pending() && !t.is_void() {
        t.amount
    } else {
        0
    }
}

pub(crate) fn gain_side(s: Side, t: &Transfer, closes: bool) -> Side
    requires { s.pending + s.posted + t.now.amount ≤ AMOUNT_MAX }
    ensures { result ≡ gained (λ _. closes) t.now s }
{
    let held = pending_part(t);
    let moved = posted_part(t);
    let held_closed = s.held_closed || t.is_pending() && closes;
    Side {
        pending: s.pending + held,
        posted: s.posted + moved,
        held_closed,
    }
}
