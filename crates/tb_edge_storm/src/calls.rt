//! What the clients of a storm call.
ghost use Rattle.std.specs.Prelude.{◌≡◌, IfOk};
ghost use Rattle.tb_edge_storm.specs.Calls.{account_of, accounts_call, transfer_call, transfer_of};

use crate::scale::id_of;
use std::alloc::{AllocError, Global};
use tb_records::{Account, Body, Items, Transfer};

/// The account that all transfers credit.
const BANK: u128 = 1000;

/// An account in ledger 700.
fn account(id: u128) -> Account
    ensures { result ≡ account_of id }
{
    Account {
        id,
        ledger: 700,
        code: 10,
        ..Account::default()
    }
}

/// A client's kth transfer, of the amount k.
fn transfer(client: u32, k: u32) -> Transfer
    ensures { result ≡ transfer_of client k }
{
    Transfer {
        id: id_of(client, k),
        debit_account_id: u128::from(client),
        credit_account_id: BANK,
        amount: u128::from(k),
        ledger: 700,
        code: 10,
        ..Transfer::default()
    }
}

/// The call that creates an account for each of `clients` clients, and the one that all transfers credit.
pub(crate) fn create_accounts(alloc: Global, clients: u32) -> Result<Body, AllocError>
    ensures { IfOk result (λ body. body ≡ accounts_call clients 1) }
{
    let mut accounts = Vec::new(alloc);
    for done in 0..clients {
        accounts.push(account(u128::from(done) + 1))?;
    }
    accounts.push(account(BANK))?;
    Ok(Body::CreateAccounts(Items::new(accounts)))
}

/// A client's kth call, which creates its kth transfer.
pub(crate) fn create_transfer(alloc: Global, client: u32, k: u32) -> Result<Body, AllocError>
    ensures { IfOk result (λ body. body ≡ transfer_call client k) }
{
    let transfers = Vec::from_slice(alloc, &[transfer(client, k)])?;
    Ok(Body::CreateTransfers(Items::new(transfers)))
}
