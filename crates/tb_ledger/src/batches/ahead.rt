//! The accounts that the next eight transfers need are searched for before the first of them is taken, interleaved, so that waits for memory overlap.
//! The rows stay.
ghost use Rattle.std.specs.Prelude.{◌≡◌};

use crate::tables::rows::Rows;
use crate::tables::transfers::TransferRow;
use std::alloc::Allocator;
use tb_records::Transfer;

/// The accounts of a transfer: those of the pending transfer that it names, if that exists.
fn accounts_of(t: &Transfer, pending: &Option<&TransferRow>) -> (u128, u128) {
    match pending {
        Some(p) => p.accounts(),
        None => (t.debit_account_id, t.credit_account_id),
    }
}

/// The pending transfers that eight transfers name.
fn named_by(eight: &[Transfer; 8]) -> [u128; 8] {
    let mut ids = [0; 8];
    for i in 0..8 {
        ids[i] = eight[i].pending_id;
    }
    ids
}

/// The rows of the pending transfers that eight transfers name. If none of the eight is a post or void, nothing is searched for.
fn pending_rows<'a, A: Allocator + Clone>(
    rows: &'a Rows<A>,
    eight: &[Transfer; 8],
) -> [Option<&'a TransferRow>; 8] {
    if eight.iter().any(|t| t.is_resolving()) {
        rows.transfers.get_many(&named_by(eight))
    } else {
        [None; 8]
    }
}

/// The accounts of eight transfers, or of the pending ones that they name.
fn accounts_of_eight(
    eight: &[Transfer; 8],
    pending: &[Option<&TransferRow>; 8],
) -> [(u128, u128); 8] {
    let mut pairs = [(0, 0); 8];
    for i in 0..8 {
        pairs[i] = accounts_of(&eight[i], &pending[i]);
    }
    pairs
}

/// Brings the rows of the accounts that eight transfers need into the cache, if there are many accounts.
pub(crate) fn touch_accounts<A: Allocator + Clone>(rows: &mut Rows<A>, eight: &[Transfer; 8])
    ensures { rows.new ≡ rows.old }
{
    if rows.accounts.is_large() {
        let pairs = accounts_of_eight(eight, &pending_rows(rows, eight));
        rows.accounts.touch_pairs(pairs);
    }
}
