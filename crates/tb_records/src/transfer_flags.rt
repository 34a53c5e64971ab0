//! The flags of transfers, by TigerBeetle's names.
ghost use Rattle.std.specs.Prelude.{◌≡◌, Some};
ghost use Rattle.tb_records.specs.TransferFlags.{transfer_flag_bit, transfer_flag_name};
ghost use Rattle.tb_records.specs.Flags.{has_flag};

use std::fmt;

/// A flag of a transfer: the number next to it is its bit.
#[derive(Clone, Copy, Debug, PartialEq, Eq)]
pub enum TransferFlag {
    /// The next event succeeds or fails with this one.
    Linked = 1,
    /// The amount is held until the transfer is posted or voided, or expires.
    Pending = 2,
    /// It posts the pending transfer of its pending_id.
    PostPendingTransfer = 4,
    /// It voids the pending transfer of its pending_id.
    VoidPendingTransfer = 8,
    /// It moves at most what the debit account has left.
    BalancingDebit = 16,
    /// It moves at most what the credit account has left.
    BalancingCredit = 32,
    /// It closes the debit account as long as it is pending.
    ClosingDebit = 64,
    /// It closes the credit account as long as it is pending.
    ClosingCredit = 128,
    /// Refused.
    Imported = 256,
}

impl TransferFlag {
    /// All of them, by rising bit.
    pub const ALL: [TransferFlag; 9] = [
        TransferFlag::Linked,
        TransferFlag::Pending,
        TransferFlag::PostPendingTransfer,
        TransferFlag::VoidPendingTransfer,
        TransferFlag::BalancingDebit,
        TransferFlag::BalancingCredit,
        TransferFlag::ClosingDebit,
        TransferFlag::ClosingCredit,
        TransferFlag::Imported,
    ];

    /// The bits that no transfer may have: imported, and those that are not flags.
    pub const RESERVED: u16 = 0xFF00;

    /// The bit that represents it in the record.
    pub fn bit(self) -> u16
        ensures { result ≡ transfer_flag_bit self }
    {
        self as u16
    }

    /// Whether these flags have it.
    pub fn is_in(self, flags: u16) -> bool
        ensures { result ≡ has_flag (transfer_flag_bit self) flags }
    {
        flags & self.bit() != 0
    }

    /// The flag's name, in TigerBeetle's spelling.
    pub fn name(self) -> &'static str
        ensures { result.now ≡ transfer_flag_name self }
    {
        match self {
            TransferFlag::Linked => "linked",
            TransferFlag::Pending => "pending",
            TransferFlag::PostPendingTransfer => "post_pending_transfer",
            TransferFlag::VoidPendingTransfer => "void_pending_transfer",
            TransferFlag::BalancingDebit => "balancing_debit",
            TransferFlag::BalancingCredit => "balancing_credit",
            TransferFlag::ClosingDebit => "closing_debit",
            TransferFlag::ClosingCredit => "closing_credit",
            TransferFlag::Imported => "imported",
        }
    }
}

impl fmt::Display for TransferFlag {
    ghost output = { λ flag. Some (transfer_flag_name flag) };

    fn fmt<W: fmt::Write>(&self, f: &mut fmt::Formatter<W>) -> fmt::Result {
        f.write_str(self.name())
    }
}
