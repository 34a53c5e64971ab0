//! The row of an account.
ghost use Rattle.std.specs.Prelude.{◌≡◌};
ghost use Rattle.tb_ledger.specs.Kept.{blank, new_row, row_closed, row_now};

use crate::tables::map::Keyed;
use std::marker::Model;
use tb_records::{Account, AccountFlag};

/// One side of an account: its two sums, and whether a pending transfer holds it closed.
#[derive(Clone, Copy)]
pub struct Side {
    pub pending: u128,
    pub posted: u128,
    pub held_closed: bool,
}

/// An account as it was created, and its two sides as they are now. An account is created with sums of 0 and nothing reserved. So its sums are at
/// their place in the record, and both sides' holds in the place of the reserved bytes: a row is as long as a record.
#[derive(Clone, Copy, Default)]
pub struct AccountRow {
    id: u128,
    debits_pending: u128,
    debits_posted: u128,
    credits_pending: u128,
    credits_posted: u128,
    user_data_128: u128,
    user_data_64: u64,
    user_data_32: u32,
    /// A pending transfer that debits it holds it closed.
    debits_held: bool,
    /// A pending transfer that credits it holds it closed.
    credits_held: bool,
    ledger: u32,
    code: u16,
    flags: u16,
    timestamp: u64,
}

const _: () = prove!(size_of::<AccountRow>() == 128);

impl Model for AccountRow {
    ghost use Rattle.tb_ledger.specs.private.KeptRows.{KeptAccount, account_kept, account_row_of};

    ghost Value = { KeptAccount };

    ghost view = { account_kept };

    ghost inverse = { account_row_of };
}

impl Keyed for AccountRow {
    ghost key = { λ a. a.created.id };

    fn key(&self) -> u128 {
        self.id
    }

    fn mixed(&self) -> u128 {
        self.id ^ self.credits_posted ^ u128::from(self.timestamp)
    }
}

impl AccountRow {
    /// The row of an account as it is created.
    pub fn new(created: &Account) -> AccountRow
        requires { created.now ≡ blank created.now }
        ensures { result ≡ new_row created.now }
    {
        AccountRow {
            id: created.id,
            debits_pending: 0,
            debits_posted: 0,
            credits_pending: 0,
            credits_posted: 0,
            user_data_128: created.user_data_128,
            user_data_64: created.user_data_64,
            user_data_32: created.user_data_32,
            debits_held: false,
            credits_held: false,
            ledger: created.ledger,
            code: created.code,
            flags: created.flags,
            timestamp: created.timestamp,
        }
    }

    /// Its debit side.
    pub fn debits(&self) -> Side
        ensures { result ≡ self.now.debits }
    {
        Side {
            pending: self.debits_pending,
            posted: self.debits_posted,
            held_closed: self.debits_held,
        }
    }

    /// Its credit side.
    pub fn credits(&self) -> Side
        ensures { result ≡ self.now.credits }
    {
        Side {
            pending: self.credits_pending,
            posted: self.credits_posted,
            held_closed: self.credits_held,
        }
    }

    /// Changes the debit side.
    pub fn set_debits(&mut self, side: Side)
        ensures { self.new ≡ record self.old { debits = side } }
    {
        self.debits_pending = side.pending;
        self.debits_posted = side.posted;
        self.debits_held = side.held_closed;
    }

    /// Changes the credit side.
    pub fn set_credits(&mut self, side: Side)
        ensures { self.new ≡ record self.old { credits = side } }
    {
        self.credits_pending = side.pending;
        self.credits_posted = side.posted;
        self.credits_held = side.held_closed;
    }

    /// The ledger that it belongs to.
    pub fn ledger(&self) -> u32
        ensures { result ≡ self.now.created.ledger }
    {
        self.ledger
    }

    /// It is closed: created closed, or held closed by a pending transfer.
    pub fn is_closed(&self) -> bool
        ensures { result ≡ row_closed self.now }
    {
        AccountFlag::Closed.is_in(self.flags) || self.debits_held || self.credits_held
    }

    /// Its current flags.
    pub fn flags_now(&self) -> u16
        ensures { result ≡ (row_now self.now).flags }
    {
        if self.is_closed() {
            self.flags | AccountFlag::Closed as u16
        } else {
            self.flags
        }
    }

    /// The account as it is now: with its current sums, and closed if it was created closed or a pending transfer holds it closed.
    pub fn as_it_stands(&self) -> Account
        ensures { result ≡ row_now self.now }
    {
        Account {
            id: self.id,
            debits_pending: self.debits_pending,
            debits_posted: self.debits_posted,
            credits_pending: self.credits_pending,
            credits_posted: self.credits_posted,
            user_data_128: self.user_data_128,
            user_data_64: self.user_data_64,
            user_data_32: self.user_data_32,
            reserved: 0,
            ledger: self.ledger,
            code: self.code,
            flags: self.flags_now(),
            timestamp: self.timestamp,
        }
    }
}
