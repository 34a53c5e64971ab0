//! Transfers that the worked examples of balancing and closing have, and a post or void as it is recorded.
use tb_records::{Transfer, TransferFlag};
use tb_test_fixtures::{held, transfer, transfer_with};

/// A pending transfer that closes account 1.
pub fn closing(id: u128, amount: u128) -> Transfer {
    transfer_with(TransferFlag::ClosingDebit, held(id, amount))
}

/// A transfer that moves at most what its debit account has left.
pub fn debit_balanced(id: u128, debit: u128, credit: u128, amount: u128) -> Transfer {
    transfer_with(
        TransferFlag::BalancingDebit,
        transfer(id, debit, credit, amount),
    )
}

/// A transfer that moves at most what both of its accounts have left.
pub fn both_balanced(id: u128, debit: u128, credit: u128, amount: u128) -> Transfer {
    transfer_with(
        TransferFlag::BalancingCredit,
        debit_balanced(id, debit, credit, amount),
    )
}

/// A post or void of a transfer from account 1 to account 2, as it is recorded.
pub fn resolved(transfer: Transfer) -> Transfer {
    Transfer {
        debit_account_id: 1,
        credit_account_id: 2,
        ..transfer
    }
}
