//! The records that a client creates, in TigerBeetle's layout of 128 bytes, and the result of an event.
ghost use Rattle.std.specs.Prelude.{◌≡◌, ◌||◌};
ghost use Rattle.tb_records.specs.AccountFlags.{account_has};
ghost use Rattle.tb_records.specs.TransferFlags.{transfer_has};
ghost use Rattle.tb_records.specs.declared.transfer_flags.TransferFlag.TheVariants.{Pending, PostPendingTransfer, VoidPendingTransfer, BalancingDebit, BalancingCredit, ClosingDebit, ClosingCredit};
ghost use Rattle.tb_records.specs.RecordBytes.{account_bytes, transfer_bytes, IsAccount, IsTransfer};

use crate::account_flags::AccountFlag;
use crate::layout::Item;
use crate::transfer_flags::TransferFlag;

/// An account. In a record that a client sends, the four sums and the timestamp must be 0.
#[derive(Clone, Copy, Debug, Default, PartialEq, Eq)]
pub struct Account {
    /// Names the account: neither 0 nor the largest number.
    pub id: u128,
    /// What pending transfers hold on the debit side, in the ledger's smallest unit.
    pub debits_pending: u128,
    /// The posted debits.
    pub debits_posted: u128,
    /// What pending transfers hold on the credit side.
    pub credits_pending: u128,
    /// The posted credits.
    pub credits_posted: u128,
    pub user_data_128: u128,
    pub user_data_64: u64,
    pub user_data_32: u32,
    /// Must be 0.
    pub reserved: u32,
    /// Only accounts of one ledger can exchange money.
    pub ledger: u32,
    /// The kind of the account, the client's own choice, not 0.
    pub code: u16,
    /// The bits of its `AccountFlag`s.
    pub flags: u16,
    /// When the account was created, in nanoseconds.
    pub timestamp: u64,
}

impl Account {
    /// Whether the account has a flag.
    pub fn has(&self, flag: AccountFlag) -> bool
        ensures { result ≡ account_has flag self.now }
    {
        flag.is_in(self.flags)
    }

    /// The next event of the batch succeeds or fails with this one.
    pub fn is_linked(&self) -> bool
        ensures { result ≡ account_has AccountFlag.Linked self.now }
    {
        self.has(AccountFlag::Linked)
    }

    /// The account accepts no transfer except a void.
    pub fn is_closed(&self) -> bool
        ensures { result ≡ account_has AccountFlag.Closed self.now }
    {
        self.has(AccountFlag::Closed)
    }

    /// The account's 128 bytes: its fields in their order, each number with its lowest byte first.
    pub fn to_bytes(&self) -> [u8; 128]
        ensures bytes { result ≡ account_bytes self.now }
        ensures fits { IsAccount self.now }
    {
        let mut out = [0; 128];
        self.write(&mut out);
        out
    }

    /// The account that the bytes encode. Any 128 bytes encode exactly one.
    pub fn from_bytes(bytes: &[u8; 128]) -> Account
        ensures spelled { account_bytes result ≡ bytes.now }
        ensures fits { IsAccount result }
        ensures only { (a : Account) → IsAccount a → account_bytes a ≡ bytes.now → result ≡ a }
    {
        let bytes: &[u8] = bytes;
        Account::read(bytes)
    }
}

/// A transfer of an amount from a debit account to a credit account.
#[derive(Clone, Copy, Debug, Default, PartialEq, Eq)]
pub struct Transfer {
    /// Names the transfer: neither 0 nor the largest number.
    pub id: u128,
    pub debit_account_id: u128,
    pub credit_account_id: u128,
    /// In the ledger's smallest unit.
    pub amount: u128,
    /// For a post or void: the pending transfer that it resolves.
    pub pending_id: u128,
    pub user_data_128: u128,
    pub user_data_64: u64,
    pub user_data_32: u32,
    /// For a pending transfer: the seconds after which it expires; 0 is never.
    pub timeout: u32,
    pub ledger: u32,
    /// The reason of the transfer, the client's own choice, not 0.
    pub code: u16,
    /// The bits of its `TransferFlag`s.
    pub flags: u16,
    /// When the transfer was recorded, in nanoseconds.
    pub timestamp: u64,
}

impl Transfer {
    /// Whether the transfer has a flag.
    pub fn has(&self, flag: TransferFlag) -> bool
        ensures { result ≡ transfer_has flag self.now }
    {
        flag.is_in(self.flags)
    }

    /// The next event of the batch succeeds or fails with this one.
    pub fn is_linked(&self) -> bool
        ensures { result ≡ transfer_has TransferFlag.Linked self.now }
    {
        self.has(TransferFlag::Linked)
    }

    /// Its amount is held until it is posted or voided, or expires.
    pub fn is_pending(&self) -> bool
        ensures { result ≡ transfer_has Pending self.now }
    {
        self.has(TransferFlag::Pending)
    }

    /// It posts the pending transfer of its pending_id.
    pub fn is_post(&self) -> bool
        ensures { result ≡ transfer_has PostPendingTransfer self.now }
    {
        self.has(TransferFlag::PostPendingTransfer)
    }

    /// It voids the pending transfer of its pending_id.
    pub fn is_void(&self) -> bool
        ensures { result ≡ transfer_has VoidPendingTransfer self.now }
    {
        self.has(TransferFlag::VoidPendingTransfer)
    }

    /// It posts or voids.
    pub fn is_resolving(&self) -> bool
        ensures { result ≡ (transfer_has PostPendingTransfer self.now || transfer_has VoidPendingTransfer self.now) }
    {
        self.is_post() || self.is_void()
    }

    /// It moves at most what the debit account has left, or the credit account.
    pub fn is_balancing(&self) -> bool
        ensures { result ≡ (transfer_has BalancingDebit self.now || transfer_has BalancingCredit self.now) }
    {
        self.has(TransferFlag::BalancingDebit) || self.has(TransferFlag::BalancingCredit)
    }

    /// It closes the debit account, or the credit account.
    pub fn is_closing(&self) -> bool
        ensures { result ≡ (transfer_has ClosingDebit self.now || transfer_has ClosingCredit self.now) }
    {
        self.has(TransferFlag::ClosingDebit) || self.has(TransferFlag::ClosingCredit)
    }

    /// The transfer's 128 bytes: its fields in their order, each number with its lowest byte first.
    pub fn to_bytes(&self) -> [u8; 128]
        ensures bytes { result ≡ transfer_bytes self.now }
        ensures fits { IsTransfer self.now }
    {
        let mut bytes = [0; 128];
        self.write(&mut bytes);
        bytes
    }

    /// The transfer that the bytes encode. Any 128 bytes encode exactly one.
    pub fn from_bytes(bytes: &[u8; 128]) -> Transfer
        ensures spelled { transfer_bytes result ≡ bytes.now }
        ensures fits { IsTransfer result }
        ensures only { (t : Transfer) → IsTransfer t → transfer_bytes t ≡ bytes.now → result ≡ t }
    {
        let bytes: &[u8] = bytes;
        Transfer::read(bytes)
    }
}

/// An event of a batch that was not accepted: its index in the batch, and its result code.
#[derive(Clone, Copy, Debug, PartialEq, Eq)]
pub struct EventResult {
    pub index: u32,
    pub result: u32,
}
