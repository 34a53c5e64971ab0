//! The row of a transfer.
ghost use Rattle.std.specs.Prelude.{◌≡◌, ◌^◌, ◌<◌};
ghost use Rattle.tb_ledger.specs.Kept.{new_transfer_row, settled};

use crate::tables::map::Keyed;
use std::marker::Model;
use tb_records::Transfer;

/// The state of a pending transfer.
#[derive(Clone, Copy, Default)]
pub enum State {
    /// It holds its amount on both accounts.
    #[default]
    Open,
    /// A post resolved it.
    Posted,
    /// A void resolved it.
    Voided,
    /// Its timeout ended it.
    Expired,
}

/// A transfer as it was recorded, and the state of a pending one. A recorded transfer has none of the flags of the high byte, so its state is in that
/// byte: a row is as long as a record.
#[derive(Clone, Copy, Default)]
pub struct TransferRow {
    id: u128,
    debit_account_id: u128,
    credit_account_id: u128,
    amount: u128,
    pending_id: u128,
    user_data_128: u128,
    user_data_64: u64,
    user_data_32: u32,
    timeout: u32,
    ledger: u32,
    code: u16,
    flags: u8,
    state: State,
    timestamp: u64,
}

const _: () = prove!(size_of::<TransferRow>() == 128);

impl Model for TransferRow {
    ghost use Rattle.tb_ledger.specs.private.KeptRows.{KeptTransfer, transfer_kept, transfer_row_of};

    ghost Value = { KeptTransfer };

    ghost view = { transfer_kept };

    ghost inverse = { transfer_row_of };
}

impl Keyed for TransferRow {
    ghost key = { λ t. t.recorded.id };

    fn key(&self) -> u128 {
        self.id
    }

    fn mixed(&self) -> u128 {
        self.id ^ self.user_data_128 ^ u128::from(self.timestamp)
    }
}

impl TransferRow {
    /// The row of a new transfer: a pending one is open.
    pub fn new(recorded: &Transfer) -> TransferRow
        requires { recorded.now.flags < 2 ^ 8 }
        ensures { result ≡ new_transfer_row recorded.now }
    {
        TransferRow {
            id: recorded.id,
            debit_account_id: recorded.debit_account_id,
            credit_account_id: recorded.credit_account_id,
            amount: recorded.amount,
            pending_id: recorded.pending_id,
            user_data_128: recorded.user_data_128,
            user_data_64: recorded.user_data_64,
            user_data_32: recorded.user_data_32,
            timeout: recorded.timeout,
            ledger: recorded.ledger,
            code: recorded.code,
            flags: recorded.flags as u8,
            state: State::Open,
            timestamp: recorded.timestamp,
        }
    }

    /// The transfer as it was recorded.
    pub fn recorded(&self) -> Transfer
        ensures { result ≡ self.now.recorded }
    {
        Transfer {
            id: self.id,
            debit_account_id: self.debit_account_id,
            credit_account_id: self.credit_account_id,
            amount: self.amount,
            pending_id: self.pending_id,
            user_data_128: self.user_data_128,
            user_data_64: self.user_data_64,
            user_data_32: self.user_data_32,
            timeout: self.timeout,
            ledger: self.ledger,
            code: self.code,
            flags: u16::from(self.flags),
            timestamp: self.timestamp,
        }
    }

    /// The accounts that it debits and credits.
    pub fn accounts(&self) -> (u128, u128)
        ensures { result ≡ (self.now.recorded.debit_account_id, self.now.recorded.credit_account_id) }
    {
        (self.debit_account_id, self.credit_account_id)
    }

    /// Its state, if it is pending.
    pub fn state(&self) -> State
        ensures { result ≡ self.now.state }
    {
        self.state
    }

    /// Gives it another state.
    pub fn set_state(&mut self, state: State)
        ensures { self.new ≡ settled state self.old }
    {
        self.state = state;
    }
}
