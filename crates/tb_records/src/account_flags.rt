//! The flags of accounts, by TigerBeetle's names.
ghost use Rattle.std.specs.Prelude.{◌≡◌, Some};
ghost use Rattle.tb_records.specs.AccountFlags.{account_flag_bit, account_flag_name};
ghost use Rattle.tb_records.specs.Flags.{has_flag};

use std::fmt;

/// A flag of an account: the number next to it is its bit.
#[derive(Clone, Copy, Debug, PartialEq, Eq)]
pub enum AccountFlag {
    /// The next event succeeds or fails with this one.
    Linked = 1,
    /// What is debited, pending and posted, is at most what is credited and posted.
    DebitsMustNotExceedCredits = 2,
    /// What is credited, pending and posted, is at most what is debited and posted.
    CreditsMustNotExceedDebits = 4,
    /// Kept with the account; it changes nothing here.
    History = 8,
    /// Refused.
    Imported = 16,
    /// The account accepts no transfer except a void.
    Closed = 32,
}

impl AccountFlag {
    /// All of them, by rising bit.
    pub const ALL: [AccountFlag; 6] = [
        AccountFlag::Linked,
        AccountFlag::DebitsMustNotExceedCredits,
        AccountFlag::CreditsMustNotExceedDebits,
        AccountFlag::History,
        AccountFlag::Imported,
        AccountFlag::Closed,
    ];

    /// The bits that no account may have: imported, and those that are not flags.
    pub const RESERVED: u16 = 0xFFD0;

    /// The bit that represents it in the record.
    pub fn bit(self) -> u16
        ensures { result ≡ account_flag_bit self }
    {
        self as u16
    }

    /// Whether these flags have it.
    pub fn is_in(self, flags: u16) -> bool
        ensures { result ≡ has_flag (account_flag_bit self) flags }
    {
        flags & self.bit() != 0
    }

    /// The flag's name, in TigerBeetle's spelling.
    pub fn name(self) -> &'static str
        ensures { result.now ≡ account_flag_name self }
    {
        match self {
            AccountFlag::Linked => "linked",
            AccountFlag::DebitsMustNotExceedCredits => "debits_must_not_exceed_credits",
            AccountFlag::CreditsMustNotExceedDebits => "credits_must_not_exceed_debits",
            AccountFlag::History => "history",
            AccountFlag::Imported => "imported",
            AccountFlag::Closed => "closed",
        }
    }
}

impl fmt::Display for AccountFlag {
    ghost output = { λ flag. Some (account_flag_name flag) };

    fn fmt<W: fmt::Write>(&self, f: &mut fmt::Formatter<W>) -> fmt::Result {
        f.write_str(self.name())
    }
}
