//! Accounts and transfers, as they are asked for and as they are found.
use tb_records::{Account, AccountFlag, Transfer, TransferFlag};

/// The ledger of each account and transfer.
const LEDGER: u32 = 700;

/// Their code.
const CODE: u16 = 10;

/// An account.
pub fn account(id: u128) -> Account {
    Account {
        id,
        ledger: LEDGER,
        code: CODE,
        ..Account::default()
    }
}

/// An account with one more flag.
pub fn account_with(flag: AccountFlag, account: Account) -> Account {
    Account {
        flags: account.flags | flag as u16,
        ..account
    }
}

/// An account as it is found: its debits pending and posted, its credits pending and posted, and its timestamp.
pub fn found(sums: [u128; 4], timestamp: u64, account: Account) -> Account {
    Account {
        debits_pending: sums[0],
        debits_posted: sums[1],
        credits_pending: sums[2],
        credits_posted: sums[3],
        timestamp,
        ..account
    }
}

/// A transfer from a debit account to a credit account.
pub fn transfer(
    id: u128,
    debit_account_id: u128,
    credit_account_id: u128,
    amount: u128,
) -> Transfer {
    Transfer {
        id,
        debit_account_id,
        credit_account_id,
        amount,
        ledger: LEDGER,
        code: CODE,
        ..Transfer::default()
    }
}

/// A transfer with one more flag.
pub fn transfer_with(flag: TransferFlag, transfer: Transfer) -> Transfer {
    Transfer {
        flags: transfer.flags | flag as u16,
        ..transfer
    }
}

/// A transfer whose chain goes on.
pub fn linked(transfer: Transfer) -> Transfer {
    transfer_with(TransferFlag::Linked, transfer)
}

/// A transfer that expires `timeout` seconds after its timestamp.
pub fn with_timeout(timeout: u32, transfer: Transfer) -> Transfer {
    Transfer {
        timeout,
        ..transfer
    }
}

/// A pending transfer from account 1 to account 2.
pub fn held(id: u128, amount: u128) -> Transfer {
    transfer_with(TransferFlag::Pending, transfer(id, 1, 2, amount))
}

/// What ends a pending transfer, and names no accounts: a post or a void, by its flag.
fn resolving(flag: TransferFlag, id: u128, pending_id: u128, amount: u128) -> Transfer {
    Transfer {
        pending_id,
        ..transfer_with(flag, transfer(id, 0, 0, amount))
    }
}

/// A post of a pending transfer, which names no accounts.
pub fn post(id: u128, pending_id: u128, amount: u128) -> Transfer {
    resolving(TransferFlag::PostPendingTransfer, id, pending_id, amount)
}

/// A void of a pending transfer, which names no accounts.
pub fn void(id: u128, pending_id: u128, amount: u128) -> Transfer {
    resolving(TransferFlag::VoidPendingTransfer, id, pending_id, amount)
}

/// A transfer as it is found, with its timestamp.
pub fn at(timestamp: u64, transfer: Transfer) -> Transfer {
    Transfer {
        timestamp,
        ..transfer
    }
}
