//! The tables of a ledger: what it keeps of its accounts and transfers.
ghost use Rattle.std.specs.Prelude.{◌≡◌};
ghost use Rattle.tb_ledger.specs.Books.{empty_books};
ghost use Rattle.tb_ledger.specs.Kept.{books_in, AreRowsKept};

use crate::tables::accounts::AccountRow;
use crate::tables::map::Table;
use crate::tables::timeouts::Timeouts;
use crate::tables::transfers::TransferRow;
use std::alloc::Allocator;
use tb_records::Profile;

/// The tables of a ledger.
#[derive(Drop)]
pub struct Rows<A: Allocator + Clone> {
    pub accounts: Table<AccountRow, A>,
    pub transfers: Table<TransferRow, A>,
    /// The ids of transfers that failed permanently; by profile 1 it stays empty.
    pub failed: Table<u128, A>,
    /// By profile 2 such ids are kept.
    pub keeps_failed: bool,
    /// Exactly one timeout for each open pending transfer that has one.
    pub timeouts: Timeouts<A>,
    /// The time of the last entry, in nanoseconds.
    pub time: u64,
}

impl<A: Allocator + Clone> Rows<A> {
    /// The rows of a new ledger. No memory is allocated.
    pub fn new(profile: Profile) -> Self
        ensures kept { AreRowsKept result }
        ensures books { books_in result ≡ empty_books profile }
    {
        Rows {
            accounts: Table::new(),
            transfers: Table::new(),
            failed: Table::new(),
            keeps_failed: matches!(profile, Profile::Two),
            timeouts: Timeouts::new(),
            time: 0,
        }
    }
}
