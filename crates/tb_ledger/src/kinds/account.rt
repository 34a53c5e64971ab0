//! An account that is added: what is wrong with it, and its row if it is accepted.
ghost use Rattle.std.specs.Prelude.{◌≡◌, Some, ◌<◌, ◌==◌, length, ◌-◌, find, None};
ghost use Rattle.tb_ledger.specs.private.Found.{Judges};
ghost use Rattle.tb_ledger.specs.Kept.{books_in, AreRowsKept, row_now, account_row_key, blank, new_row};
ghost use Rattle.tb_ledger.specs.private.UndoLog.{IsNoted};
ghost use Rattle.tb_ledger.specs.Verdicts.{account_verdict, first_of, account_exists_tests, account_own_tests, account_new_tests};
ghost use Rattle.tb_records.specs.AccountResults.{account_result_code};
ghost use Rattle.tb_records.specs.Ordered.{put};

use crate::batches::Event;
use crate::tables::accounts::AccountRow;
use crate::tables::map::Table;
use crate::tables::rows::Rows;
use crate::tables::work::{Undo, UndoLog, Work};
use std::alloc::Allocator;
use tb_records::{Account, AccountFlag, CreateAccountResult};

impl Event for Account {
    ghost use Rattle.tb_records.specs.AccountResults.{account_result_code};
    ghost use Rattle.std.proofs.Math.Arith.{add-le_cancel_left};
    ghost use Rattle.std.proofs.Math.Nat.{le_trans};
    ghost use Rattle.tb_ledger.specs.Batches.{account_events};
    ghost use Rattle.tb_ledger.specs.private.Capacity.{HasAccounts};

    type Refusal = CreateAccountResult;

    ghost kind = { account_events };

    ghost code_of = { account_result_code };

    ghost HasCapacity = { HasAccounts };

    ghost IsNew = { λ failed a code. Unit {0} };

    fn linked(&self) -> bool {
        self.is_linked()
    }

    fn code(refusal: CreateAccountResult) -> u32 {
        refusal.code()
    }

    fn undone() -> CreateAccountResult {
        CreateAccountResult::LinkedEventFailed
    }

    fn chain_open() -> CreateAccountResult {
        CreateAccountResult::LinkedEventChainOpen
    }

    // there are few accounts: their ids are looked up one at a time
    fn look_ahead<A: Allocator + Clone>(events: &[Account], rows: &mut Rows<A>) {
        let _ = events.len();
        let _ = rows.time;
    }

    fn take<A: Allocator + Clone>(
        &self,
        work: &mut Work<A>,
        time: u64,
    ) -> Result<(), CreateAccountResult> {
        judge_account(&work.rows, self)?;
        let mut recorded = *self;
        recorded.timestamp = time;
        add_account_row(&mut work.rows.accounts, &mut work.undo_log, &recorded);
        Ok(())
    }

    fn refuse<A: Allocator + Clone>(&self, rows: &mut Rows<A>, refusal: CreateAccountResult) {
        let _ = rows.time;
        let _ = refusal;
    }

    ghost leaves_rest = { λ m n before after has uses. add-le_cancel_left m (le_trans has uses.accounts) };

    ghost open_is_new = { λ failed a. tt };
}

/// The verdict on an account.
pub(crate) fn judge_account<A: Allocator + Clone>(
    rows: &Rows<A>,
    a: &Account,
) -> Result<(), CreateAccountResult>
    requires { AreRowsKept rows.now }
    ensures { Judges account_result_code result (account_verdict (books_in rows.now) a.now) }
{
    account_own(a)?;
    match rows.accounts.get(a.id) {
        Some(e) => Err(account_there(a, e)),
        None => account_new(a),
    }
}

/// What is wrong with an account by itself.
fn account_own(a: &Account) -> Result<(), CreateAccountResult>
    ensures { Judges account_result_code result (first_of (account_own_tests a.now)) }
{
    if a.timestamp != 0 {
        return Err(CreateAccountResult::TimestampMustBeZero);
    }
    if a.reserved != 0 {
        return Err(CreateAccountResult::ReservedField);
    }
    if a.flags & AccountFlag::RESERVED != 0 {
        return Err(CreateAccountResult::ReservedFlag);
    }
    if a.id == 0 {
        return Err(CreateAccountResult::IdMustNotBeZero);
    }
    if a.id == u128::MAX {
        return Err(CreateAccountResult::IdMustNotBeIntMax);
    }
    Ok(())
}

/// How an account differs from the one that has its id.
fn account_there(a: &Account, e: &AccountRow) -> CreateAccountResult
    ensures { account_result_code result
        ≡ first_of (account_exists_tests (Some (row_now e.now)) a.now) }
{
    let there = e.as_it_stands();
    if a.flags != there.flags {
        return CreateAccountResult::ExistsWithDifferentFlags;
    }
    if a.user_data_128 != there.user_data_128 {
        return CreateAccountResult::ExistsWithDifferentUserData128;
    }
    if a.user_data_64 != there.user_data_64 {
        return CreateAccountResult::ExistsWithDifferentUserData64;
    }
    if a.user_data_32 != there.user_data_32 {
        return CreateAccountResult::ExistsWithDifferentUserData32;
    }
    if a.ledger != there.ledger {
        return CreateAccountResult::ExistsWithDifferentLedger;
    }
    if a.code != there.code {
        return CreateAccountResult::ExistsWithDifferentCode;
    }
    CreateAccountResult::Exists
}

/// What is wrong with an account whose id is free.
fn account_new(a: &Account) -> Result<(), CreateAccountResult>
    ensures { Judges account_result_code result (first_of (account_new_tests a.now)) }
{
    if a.has(AccountFlag::DebitsMustNotExceedCredits)
        && a.has(AccountFlag::CreditsMustNotExceedDebits)
    {
        return Err(CreateAccountResult::FlagsAreMutuallyExclusive);
    }
    if a.debits_pending != 0 {
        return Err(CreateAccountResult::DebitsPendingMustBeZero);
    }
    if a.debits_posted != 0 {
        return Err(CreateAccountResult::DebitsPostedMustBeZero);
    }
    if a.credits_pending != 0 {
        return Err(CreateAccountResult::CreditsPendingMustBeZero);
    }
    if a.credits_posted != 0 {
        return Err(CreateAccountResult::CreditsPostedMustBeZero);
    }
    if a.ledger == 0 {
        return Err(CreateAccountResult::LedgerMustNotBeZero);
    }
    if a.code == 0 {
        return Err(CreateAccountResult::CodeMustNotBeZero);
    }
    Ok(())
}

/// Adds the row of an account: no transfer names it yet.
pub(crate) fn add_account_row<A: Allocator + Clone>(
    accounts: &mut Table<AccountRow, A>,
    undo_log: &mut UndoLog<A>,
    a: &Account,
)
    requires capacity { 0 < accounts.old.spare }
    requires log { length undo_log.old.changes < undo_log.old.capacity }
    requires plain { a.now ≡ blank a.now }
    requires fresh { find (λ row. row.created.id == a.now.id) accounts.old.items ≡ None }
    ensures accounts { accounts.new
        ≡ record {
          items = put account_row_key (new_row a.now) accounts.old.items;
          spare = accounts.old.spare - 1;
        } }
    ensures noted { IsNoted 1 accounts.old.items accounts.new.items undo_log.old undo_log.new }
{
    undo_log.note(Undo::AddedAccount(a.id));
    accounts.insert_reserved(AccountRow::new(a));
}
