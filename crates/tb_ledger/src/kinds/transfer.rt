//! A transfer of either kind: what is wrong with it, or with its id. An accepted transfer is a post or void, or a transfer between two accounts. By
//! profile 2 the id of a transfer that fails permanently is noted.
ghost use Rattle.std.specs.List.{list_any};
ghost use Rattle.std.specs.Option.{option_map_or};
ghost use Rattle.std.specs.Prelude.{◌≡◌, ◌≤◌, ◌==◌, true, false, ◌^◌, ◌<◌, Some, OnOk, nat_lt, if◌then◌else◌};
ghost use Rattle.tb_ledger.specs.Batches.{is_final, transfer_events};
ghost use Rattle.tb_ledger.specs.Books.{resolves, balancing};
ghost use Rattle.tb_ledger.specs.private.Capacity.{HasTransfers, Uses, capacity_of};
ghost use Rattle.tb_ledger.specs.private.Found.{Judges};
ghost use Rattle.tb_ledger.specs.Kept.{books_in, AreRowsKept};
ghost use Rattle.tb_ledger.specs.private.Steps.{IsPrepared, StaysButFailed, TakesEvent};
ghost use Rattle.tb_ledger.specs.Verdicts.{failed_tests, filled, first_of, id_code, transfer_exists_tests, is_not, transfer_own_tests};
ghost use Rattle.tb_records.specs.TransferResults.{transfer_result_code};

use crate::batches::Event;
use crate::batches::ahead::touch_accounts;
use crate::kinds::resolving::{filled, take_resolving};
use crate::kinds::two_party::take_two_party;
use crate::tables::rows::Rows;
use crate::tables::work::Work;
use std::alloc::Allocator;
use tb_records::{CreateTransferResult, Transfer, TransferFlag};

/// The ids of eight transfers.
fn ids_of(eight: &[Transfer; 8]) -> [u128; 8] {
    let [a, b, c, d, e, f, g, h] = eight;
    [a.id, b.id, c.id, d.id, e.id, f.id, g.id, h.id]
}

impl Event for Transfer {
    ghost use Rattle.std.specs.List.{list_any};
    ghost use Rattle.std.specs.Option.{option_map_or};
    ghost use Rattle.std.proofs.Common.{sym, ◌∙◌};
    ghost use Rattle.std.proofs.Math.Arith.{add-le_cancel_left};
    ghost use Rattle.std.proofs.Math.Nat.{le_trans};
    ghost use Rattle.std.proofs.lemmas.Bool.{false≢true};
    ghost use Rattle.tb_records.specs.TransferResults.{transfer_result_code};
    ghost use Rattle.tb_ledger.specs.Batches.{transfer_events, is_final};
    ghost use Rattle.tb_ledger.specs.private.Capacity.{HasTransfers};

    type Refusal = CreateTransferResult;

    ghost kind = { transfer_events };

    ghost code_of = { transfer_result_code };

    ghost HasCapacity = { HasTransfers };

    ghost IsNew = { λ failed t code.
        is_final code ≡ true → option_map_or (list_any (λ id. id == t.id)) failed false ≡ false };

    fn linked(&self) -> bool {
        self.is_linked()
    }

    fn code(refusal: CreateTransferResult) -> u32 {
        refusal.code()
    }

    fn undone() -> CreateTransferResult {
        CreateTransferResult::LinkedEventFailed
    }

    fn chain_open() -> CreateTransferResult {
        CreateTransferResult::LinkedEventChainOpen
    }

    fn look_ahead<A: Allocator + Clone>(events: &[Transfer], rows: &mut Rows<A>) {
        if let Some((eight, _)) = events.split_first_chunk::<8>() {
            rows.transfers.seek(&ids_of(eight));
            touch_accounts(rows, eight);
        }
    }

    fn take<A: Allocator + Clone>(
        &self,
        work: &mut Work<A>,
        time: u64,
    ) -> Result<(), CreateTransferResult> {
        judge_id(&work.rows, self)?;
        if resolving(self) {
            take_resolving(work, self, time)
        } else {
            take_two_party(work, self, time)
        }
    }

    fn refuse<A: Allocator + Clone>(&self, rows: &mut Rows<A>, refusal: CreateTransferResult) {
        note_failed(rows, self, refusal)
    }

    ghost leaves_rest = { λ m n before after has uses.
        record {
          transfers = add-le_cancel_left m (le_trans has.transfers uses.transfers);
          timeouts = add-le_cancel_left m (le_trans has.timeouts uses.timeouts);
          failed = λ keeps. add-le_cancel_left m (le_trans (has.failed (sym uses.keeps_failed ∙ keeps)) uses.failed);
        } };

    ghost open_is_new = { λ failed t final. absurd (false≢true final) };
}

/// By profile 2, notes the id of a transfer that has failed permanently.
pub(crate) fn note_failed<A: Allocator + Clone>(
    rows: &mut Rows<A>,
    t: &Transfer,
    refusal: CreateTransferResult,
)
    requires kept { AreRowsKept rows.old }
    requires capacity { rows.old.keeps_failed ≡ true → 1 ≤ rows.old.failed.spare }
    requires fresh { is_final (transfer_result_code refusal) ≡ true
        → option_map_or (list_any (λ id. id == t.now.id)) (books_in rows.old).failed false ≡ false }
    ensures books { books_in rows.new
        ≡ transfer_events.refused (books_in rows.old) t.now (transfer_result_code refusal) }
    ensures kept { AreRowsKept rows.new }
    ensures stays { StaysButFailed rows.old rows.new }
    ensures uses { Uses 1 (capacity_of rows.old) (capacity_of rows.new) }
{
    if !rows.keeps_failed {
        return;
    }
    if !is_for_good(refusal) {
        return;
    }
    rows.failed.insert_reserved(t.id);
}

/// By profile 2 a transfer's id stays refused after this refusal.
fn is_for_good(refusal: CreateTransferResult) -> bool
    ensures { result ≡ is_final (transfer_result_code refusal) }
{
    matches!(
        refusal,
        CreateTransferResult::DebitAccountNotFound
            | CreateTransferResult::CreditAccountNotFound
            | CreateTransferResult::PendingTransferNotFound
            | CreateTransferResult::ExceedsCredits
            | CreateTransferResult::ExceedsDebits
            | CreateTransferResult::DebitAccountAlreadyClosed
            | CreateTransferResult::CreditAccountAlreadyClosed
    )
}

/// It is a post or void.
pub(crate) fn resolving(t: &Transfer) -> bool
    ensures { result ≡ resolves t.now }
{
    t.is_resolving()
}

/// What is wrong with a transfer of either kind, or with its id. An accepted transfer has only known flags, which are all in the low byte.
pub(crate) fn judge_id<A: Allocator + Clone>(
    rows: &Rows<A>,
    t: &Transfer,
) -> Result<(), CreateTransferResult>
    ensures judged { Judges transfer_result_code result (id_code (books_in rows.now) t.now) }
    ensures plain { OnOk result (t.now.flags < 2 ^ 8) }
{
    transfer_own(t)?;
    match rows.transfers.get(t.id) {
        Some(e) => Err(repeated(rows, t, &e.recorded())),
        None => judge_failed(rows, t),
    }
}

/// What is wrong with a transfer, whatever its kind.
fn transfer_own(t: &Transfer) -> Result<(), CreateTransferResult>
    ensures judged { Judges transfer_result_code result (first_of (transfer_own_tests t.now)) }
    ensures plain { OnOk result (t.now.flags < 2 ^ 8) }
{
    if t.timestamp != 0 {
        return Err(CreateTransferResult::TimestampMustBeZero);
    }
    if t.flags & TransferFlag::RESERVED != 0 {
        return Err(CreateTransferResult::ReservedFlag);
    }
    if t.id == 0 {
        return Err(CreateTransferResult::IdMustNotBeZero);
    }
    if t.id == u128::MAX {
        return Err(CreateTransferResult::IdMustNotBeIntMax);
    }
    Ok(())
}

/// How a transfer, filled, differs from the recorded one that has its id.
fn repeated<A: Allocator + Clone>(
    rows: &Rows<A>,
    t: &Transfer,
    e: &Transfer,
) -> CreateTransferResult
    ensures { transfer_result_code result
        ≡ first_of (transfer_exists_tests (Some e.now) (filled (books_in rows.now) t.now)) }
{
    if resolving(t) {
        match rows.transfers.get(t.pending_id) {
            Some(p) => transfer_there(&filled(t, &p.recorded()), e),
            None => transfer_there(t, e),
        }
    } else {
        transfer_there(t, e)
    }
}

/// How a transfer, filled, differs from the recorded one that has its id.
fn transfer_there(f: &Transfer, e: &Transfer) -> CreateTransferResult
    ensures { transfer_result_code result ≡ first_of (transfer_exists_tests (Some e.now) f.now) }
{
    if f.flags != e.flags {
        return CreateTransferResult::ExistsWithDifferentFlags;
    }
    if f.pending_id != e.pending_id {
        return CreateTransferResult::ExistsWithDifferentPendingId;
    }
    if f.timeout != e.timeout {
        return CreateTransferResult::ExistsWithDifferentTimeout;
    }
    if f.debit_account_id != e.debit_account_id {
        return CreateTransferResult::ExistsWithDifferentDebitAccountId;
    }
    if f.credit_account_id != e.credit_account_id {
        return CreateTransferResult::ExistsWithDifferentCreditAccountId;
    }
    if other_amount(f, e) {
        return CreateTransferResult::ExistsWithDifferentAmount;
    }
    if f.user_data_128 != e.user_data_128 {
        return CreateTransferResult::ExistsWithDifferentUserData128;
    }
    if f.user_data_64 != e.user_data_64 {
        return CreateTransferResult::ExistsWithDifferentUserData64;
    }
    if f.user_data_32 != e.user_data_32 {
        return CreateTransferResult::ExistsWithDifferentUserData32;
    }
    if f.ledger != e.ledger {
        return CreateTransferResult::ExistsWithDifferentLedger;
    }
    if f.code != e.code {
        return CreateTransferResult::ExistsWithDifferentCode;
    }
    CreateTransferResult::Exists
}

/// The amount differs; for a balancing transfer, which may have moved less than requested, it is below the recorded one.
fn other_amount(f: &Transfer, e: &Transfer) -> bool
    ensures { result
        ≡ (if balancing f.now then
        nat_lt f.now.amount e.now.amount
        else
        is_not f.now.amount e.now.amount) }
{
    if f.is_balancing() {
        f.amount < e.amount
    } else {
        f.amount != e.amount
    }
}

/// By profile 2, whether the transfer's id has failed permanently.
fn judge_failed<A: Allocator + Clone>(
    rows: &Rows<A>,
    t: &Transfer,
) -> Result<(), CreateTransferResult>
    ensures { Judges transfer_result_code result
        (first_of (failed_tests (books_in rows.now).failed t.now)) }
{
    if failed_before(rows, t) {
        return Err(CreateTransferResult::IdAlreadyFailed);
    }
    Ok(())
}

/// By profile 2: the transfer's id has failed permanently.
fn failed_before<A: Allocator + Clone>(rows: &Rows<A>, t: &Transfer) -> bool
    ensures { result ≡ option_map_or (list_any (λ id. id == t.now.id)) (books_in rows.now).failed false }
{
    rows.keeps_failed && rows.failed.get(t.id).is_some()
}
