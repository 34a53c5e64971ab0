//! Accounts and transfers as data, by the fields in which they differ: ledger 700 and code 10 otherwise.
use crate::machine::fixtures::{both_balanced, closing, debit_balanced};
use tb_records::{Account, AccountFlag, Transfer};
use tb_test_fixtures::{account, account_with, held, linked, post, transfer, void, with_timeout};

/// An account, by its id.
#[derive(Clone, Copy)]
pub enum AccountRow {
    Plain(u128),
    /// With a flag.
    Flagged(AccountFlag, u128),
    /// With both of the flags that limit an account.
    Limited(u128),
    /// In another ledger.
    InLedger(u32, u128),
    /// With another code.
    OfCode(u16, u128),
}

/// A transfer, by its id. An amount is last.
#[derive(Clone, Copy)]
pub enum TransferRow {
    /// From a debit account to a credit account.
    Plain(u128, u128, u128, u128),
    /// The same, and its chain goes on.
    Linked(u128, u128, u128, u128),
    /// It moves at most what its debit account has left.
    DebitBalanced(u128, u128, u128, u128),
    /// It moves at most what both of its accounts have left.
    BothBalanced(u128, u128, u128, u128),
    /// Pending, from account 1 to account 2.
    Held(u128, u128),
    /// The same with a timeout in seconds, which is first.
    Timed(u32, u128, u128),
    /// Pending, and closes account 1.
    Closing(u128, u128),
    /// The same with a timeout.
    TimedClosing(u32, u128, u128),
    /// A post of a pending transfer.
    Post(u128, u128, u128),
    /// The same, and its chain goes on.
    LinkedPost(u128, u128, u128),
    /// A void of a pending transfer.
    Void(u128, u128, u128),
}

pub fn account_of(row: AccountRow) -> Account {
    match row {
        AccountRow::Plain(id) => account(id),
        AccountRow::Flagged(flag, id) => account_with(flag, account(id)),
        AccountRow::Limited(id) => account_with(
            AccountFlag::DebitsMustNotExceedCredits,
            account_with(AccountFlag::CreditsMustNotExceedDebits, account(id)),
        ),
        AccountRow::InLedger(ledger, id) => Account {
            ledger,
            ..account(id)
        },
        AccountRow::OfCode(code, id) => Account {
            code,
            ..account(id)
        },
    }
}

pub fn transfer_of(row: TransferRow) -> Transfer {
    match row {
        TransferRow::Plain(id, debit, credit, amount) => transfer(id, debit, credit, amount),
        TransferRow::Linked(id, debit, credit, amount) => {
            linked(transfer(id, debit, credit, amount))
        }
        TransferRow::DebitBalanced(id, debit, credit, amount) => {
            debit_balanced(id, debit, credit, amount)
        }
        TransferRow::BothBalanced(id, debit, credit, amount) => {
            both_balanced(id, debit, credit, amount)
        }
        TransferRow::Held(id, amount) => held(id, amount),
        TransferRow::Timed(timeout, id, amount) => with_timeout(timeout, held(id, amount)),
        TransferRow::Closing(id, amount) => closing(id, amount),
        TransferRow::TimedClosing(timeout, id, amount) => with_timeout(
            timeout,
            closing(id, amount),
        ),
        TransferRow::Post(id, pending_id, amount) => post(id, pending_id, amount),
        TransferRow::LinkedPost(id, pending_id, amount) => linked(post(id, pending_id, amount)),
        TransferRow::Void(id, pending_id, amount) => void(id, pending_id, amount),
    }
}
