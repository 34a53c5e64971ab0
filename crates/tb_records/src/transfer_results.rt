//! The result codes of transfers, by TigerBeetle's names.
ghost use Rattle.std.specs.Prelude.{◌≡◌, ◌==◌, find, Some};
ghost use Rattle.tb_records.specs.TransferResults.{transfer_result_code, transfer_result_name};
ghost use Rattle.tb_records.specs.Named.{IsOnly};

use std::fmt;

/// The result of the creation of a transfer: the number next to it is its result code.
#[derive(Clone, Copy, Debug, PartialEq, Eq)]
pub enum CreateTransferResult {
    /// The transfer is recorded.
    Ok = 0,
    /// Another event of its linked chain failed.
    LinkedEventFailed = 1,
    /// It is linked, and the batch ends with it.
    LinkedEventChainOpen = 2,
    /// Its timestamp is not 0.
    TimestampMustBeZero = 3,
    /// It has the flag imported, or a bit that is not a flag.
    ReservedFlag = 4,
    /// Its id is 0.
    IdMustNotBeZero = 5,
    /// Its id is the largest number.
    IdMustNotBeIntMax = 6,
    /// It both posts and voids, or does either and is pending, balancing or closing too.
    FlagsAreMutuallyExclusive = 7,
    /// Its debit_account_id is 0.
    DebitAccountIdMustNotBeZero = 8,
    /// Its debit_account_id is the largest number.
    DebitAccountIdMustNotBeIntMax = 9,
    /// Its credit_account_id is 0.
    CreditAccountIdMustNotBeZero = 10,
    /// Its credit_account_id is the largest number.
    CreditAccountIdMustNotBeIntMax = 11,
    /// Its debit account and its credit account are the same.
    AccountsMustBeDifferent = 12,
    /// It has a pending_id, and neither posts nor voids.
    PendingIdMustBeZero = 13,
    /// It posts or voids, and its pending_id is 0.
    PendingIdMustNotBeZero = 14,
    /// It posts or voids, and its pending_id is the largest number.
    PendingIdMustNotBeIntMax = 15,
    /// It posts or voids, and its pending_id is its own id.
    PendingIdMustBeDifferent = 16,
    /// It has a timeout, and is not pending.
    TimeoutReservedForPendingTransfer = 17,
    /// Its ledger is 0.
    LedgerMustNotBeZero = 19,
    /// Its code is 0.
    CodeMustNotBeZero = 20,
    /// No account has its debit_account_id.
    DebitAccountNotFound = 21,
    /// No account has its credit_account_id.
    CreditAccountNotFound = 22,
    /// The two accounts are in different ledgers.
    AccountsMustHaveTheSameLedger = 23,
    /// Its ledger is not that of the accounts.
    TransferMustHaveTheSameLedgerAsAccounts = 24,
    /// No transfer has its pending_id.
    PendingTransferNotFound = 25,
    /// The transfer of its pending_id was not pending.
    PendingTransferNotPending = 26,
    /// It gives another debit account than the pending transfer.
    PendingTransferHasDifferentDebitAccountId = 27,
    /// It gives another credit account than the pending transfer.
    PendingTransferHasDifferentCreditAccountId = 28,
    /// It gives another ledger than the pending transfer.
    PendingTransferHasDifferentLedger = 29,
    /// It gives another code than the pending transfer.
    PendingTransferHasDifferentCode = 30,
    /// Its amount is above that of the pending transfer.
    ExceedsPendingTransferAmount = 31,
    /// It voids, and its amount is below that of the pending transfer.
    PendingTransferHasDifferentAmount = 32,
    /// The pending transfer was posted.
    PendingTransferAlreadyPosted = 33,
    /// The pending transfer was voided.
    PendingTransferAlreadyVoided = 34,
    /// The pending transfer has expired.
    PendingTransferExpired = 35,
    /// The transfer of this id has other flags.
    ExistsWithDifferentFlags = 36,
    /// The transfer of this id has another debit_account_id.
    ExistsWithDifferentDebitAccountId = 37,
    /// The transfer of this id has another credit_account_id.
    ExistsWithDifferentCreditAccountId = 38,
    /// The transfer of this id has another amount; for a balancing transfer, a greater one.
    ExistsWithDifferentAmount = 39,
    /// The transfer of this id has another pending_id.
    ExistsWithDifferentPendingId = 40,
    /// The transfer of this id has another user_data_128.
    ExistsWithDifferentUserData128 = 41,
    /// The transfer of this id has another user_data_64.
    ExistsWithDifferentUserData64 = 42,
    /// The transfer of this id has another user_data_32.
    ExistsWithDifferentUserData32 = 43,
    /// The transfer of this id has another timeout.
    ExistsWithDifferentTimeout = 44,
    /// The transfer of this id has another code.
    ExistsWithDifferentCode = 45,
    /// This transfer exists already.
    Exists = 46,
    /// It is pending, and the debit account's debits_pending would overflow 128 bits.
    OverflowsDebitsPending = 47,
    /// It is pending, and the credit account's credits_pending would overflow 128 bits.
    OverflowsCreditsPending = 48,
    /// The debit account's debits_posted would overflow 128 bits.
    OverflowsDebitsPosted = 49,
    /// The credit account's credits_posted would overflow 128 bits.
    OverflowsCreditsPosted = 50,
    /// The debit account's debits, pending and posted, would overflow 128 bits.
    OverflowsDebits = 51,
    /// The credit account's credits, pending and posted, would overflow 128 bits.
    OverflowsCredits = 52,
    /// It would expire after the last moment of the clock.
    OverflowsTimeout = 53,
    /// The debit account's debits would exceed its credits, which it forbids.
    ExceedsCredits = 54,
    /// The credit account's credits would exceed its debits, which it forbids.
    ExceedsDebits = 55,
    /// It closes an account, and is not pending.
    ClosingTransferMustBePending = 64,
    /// The debit account is closed.
    DebitAccountAlreadyClosed = 65,
    /// The credit account is closed.
    CreditAccountAlreadyClosed = 66,
    /// The transfer of this id has another ledger.
    ExistsWithDifferentLedger = 67,
    /// By profile 2: a transfer of this id was refused for a transient cause.
    IdAlreadyFailed = 68,
}

impl CreateTransferResult {
    /// All of them, by rising code.
    pub const ALL: [CreateTransferResult; 60] = [
        CreateTransferResult::Ok,
        CreateTransferResult::LinkedEventFailed,
        CreateTransferResult::LinkedEventChainOpen,
        CreateTransferResult::TimestampMustBeZero,
        CreateTransferResult::ReservedFlag,
        CreateTransferResult::IdMustNotBeZero,
        CreateTransferResult::IdMustNotBeIntMax,
        CreateTransferResult::FlagsAreMutuallyExclusive,
        CreateTransferResult::DebitAccountIdMustNotBeZero,
        CreateTransferResult::DebitAccountIdMustNotBeIntMax,
        CreateTransferResult::CreditAccountIdMustNotBeZero,
        CreateTransferResult::CreditAccountIdMustNotBeIntMax,
        CreateTransferResult::AccountsMustBeDifferent,
        CreateTransferResult::PendingIdMustBeZero,
        CreateTransferResult::PendingIdMustNotBeZero,
        CreateTransferResult::PendingIdMustNotBeIntMax,
        CreateTransferResult::PendingIdMustBeDifferent,
        CreateTransferResult::TimeoutReservedForPendingTransfer,
        CreateTransferResult::LedgerMustNotBeZero,
        CreateTransferResult::CodeMustNotBeZero,
        CreateTransferResult::DebitAccountNotFound,
        CreateTransferResult::CreditAccountNotFound,
        CreateTransferResult::AccountsMustHaveTheSameLedger,
        CreateTransferResult::TransferMustHaveTheSameLedgerAsAccounts,
        CreateTransferResult::PendingTransferNotFound,
        CreateTransferResult::PendingTransferNotPending,
        CreateTransferResult::PendingTransferHasDifferentDebitAccountId,
        CreateTransferResult::PendingTransferHasDifferentCreditAccountId,
        CreateTransferResult::PendingTransferHasDifferentLedger,
        CreateTransferResult::PendingTransferHasDifferentCode,
        CreateTransferResult::ExceedsPendingTransferAmount,
        CreateTransferResult::PendingTransferHasDifferentAmount,
        CreateTransferResult::PendingTransferAlreadyPosted,
        CreateTransferResult::PendingTransferAlreadyVoided,
        CreateTransferResult::PendingTransferExpired,
        CreateTransferResult::ExistsWithDifferentFlags,
        CreateTransferResult::ExistsWithDifferentDebitAccountId,
        CreateTransferResult::ExistsWithDifferentCreditAccountId,
        CreateTransferResult::ExistsWithDifferentAmount,
        CreateTransferResult::ExistsWithDifferentPendingId,
        CreateTransferResult::ExistsWithDifferentUserData128,
        CreateTransferResult::ExistsWithDifferentUserData64,
        CreateTransferResult::ExistsWithDifferentUserData32,
        CreateTransferResult::ExistsWithDifferentTimeout,
        CreateTransferResult::ExistsWithDifferentCode,
        CreateTransferResult::Exists,
        CreateTransferResult::OverflowsDebitsPending,
        CreateTransferResult::OverflowsCreditsPending,
        CreateTransferResult::OverflowsDebitsPosted,
        CreateTransferResult::OverflowsCreditsPosted,
        CreateTransferResult::OverflowsDebits,
        CreateTransferResult::OverflowsCredits,
        CreateTransferResult::OverflowsTimeout,
        CreateTransferResult::ExceedsCredits,
        CreateTransferResult::ExceedsDebits,
        CreateTransferResult::ClosingTransferMustBePending,
        CreateTransferResult::DebitAccountAlreadyClosed,
        CreateTransferResult::CreditAccountAlreadyClosed,
        CreateTransferResult::ExistsWithDifferentLedger,
        CreateTransferResult::IdAlreadyFailed,
    ];

    /// The result code: the number in a reply.
    pub fn code(self) -> u32
        ensures { result ≡ transfer_result_code self }
    {
        self as u32
    }

    /// The verdict's name, in TigerBeetle's spelling.
    pub fn name(self) -> &'static str
        ensures { result.now ≡ transfer_result_name self }
    {
        match self {
            CreateTransferResult::Ok => "ok",
            CreateTransferResult::LinkedEventFailed => "linked_event_failed",
            CreateTransferResult::LinkedEventChainOpen => "linked_event_chain_open",
            CreateTransferResult::TimestampMustBeZero => "timestamp_must_be_zero",
            CreateTransferResult::ReservedFlag => "reserved_flag",
            CreateTransferResult::IdMustNotBeZero => "id_must_not_be_zero",
            CreateTransferResult::IdMustNotBeIntMax => "id_must_not_be_int_max",
            CreateTransferResult::FlagsAreMutuallyExclusive => "flags_are_mutually_exclusive",
            CreateTransferResult::DebitAccountIdMustNotBeZero =>
                "debit_account_id_must_not_be_zero",
            CreateTransferResult::DebitAccountIdMustNotBeIntMax =>
                "debit_account_id_must_not_be_int_max",
            CreateTransferResult::CreditAccountIdMustNotBeZero =>
                "credit_account_id_must_not_be_zero",
            CreateTransferResult::CreditAccountIdMustNotBeIntMax =>
                "credit_account_id_must_not_be_int_max",
            CreateTransferResult::AccountsMustBeDifferent => "accounts_must_be_different",
            CreateTransferResult::PendingIdMustBeZero => "pending_id_must_be_zero",
            CreateTransferResult::PendingIdMustNotBeZero => "pending_id_must_not_be_zero",
            CreateTransferResult::PendingIdMustNotBeIntMax => "pending_id_must_not_be_int_max",
            CreateTransferResult::PendingIdMustBeDifferent => "pending_id_must_be_different",
            CreateTransferResult::TimeoutReservedForPendingTransfer =>
                "timeout_reserved_for_pending_transfer",
            CreateTransferResult::LedgerMustNotBeZero => "ledger_must_not_be_zero",
            CreateTransferResult::CodeMustNotBeZero => "code_must_not_be_zero",
            CreateTransferResult::DebitAccountNotFound => "debit_account_not_found",
            CreateTransferResult::CreditAccountNotFound => "credit_account_not_found",
            CreateTransferResult::AccountsMustHaveTheSameLedger =>
                "accounts_must_have_the_same_ledger",
            CreateTransferResult::TransferMustHaveTheSameLedgerAsAccounts =>
                "transfer_must_have_the_same_ledger_as_accounts",
            CreateTransferResult::PendingTransferNotFound => "pending_transfer_not_found",
            CreateTransferResult::PendingTransferNotPending => "pending_transfer_not_pending",
            CreateTransferResult::PendingTransferHasDifferentDebitAccountId =>
                "pending_transfer_has_different_debit_account_id",
            CreateTransferResult::PendingTransferHasDifferentCreditAccountId =>
                "pending_transfer_has_different_credit_account_id",
            CreateTransferResult::PendingTransferHasDifferentLedger =>
                "pending_transfer_has_different_ledger",
            CreateTransferResult::PendingTransferHasDifferentCode =>
                "pending_transfer_has_different_code",
            CreateTransferResult::ExceedsPendingTransferAmount => "exceeds_pending_transfer_amount",
            CreateTransferResult::PendingTransferHasDifferentAmount =>
                "pending_transfer_has_different_amount",
            CreateTransferResult::PendingTransferAlreadyPosted => "pending_transfer_already_posted",
            CreateTransferResult::PendingTransferAlreadyVoided => "pending_transfer_already_voided",
            CreateTransferResult::PendingTransferExpired => "pending_transfer_expired",
            CreateTransferResult::ExistsWithDifferentFlags => "exists_with_different_flags",
            CreateTransferResult::ExistsWithDifferentDebitAccountId =>
                "exists_with_different_debit_account_id",
            CreateTransferResult::ExistsWithDifferentCreditAccountId =>
                "exists_with_different_credit_account_id",
            CreateTransferResult::ExistsWithDifferentAmount => "exists_with_different_amount",
            CreateTransferResult::ExistsWithDifferentPendingId =>
                "exists_with_different_pending_id",
            CreateTransferResult::ExistsWithDifferentUserData128 =>
                "exists_with_different_user_data_128",
            CreateTransferResult::ExistsWithDifferentUserData64 =>
                "exists_with_different_user_data_64",
            CreateTransferResult::ExistsWithDifferentUserData32 =>
                "exists_with_different_user_data_32",
            CreateTransferResult::ExistsWithDifferentTimeout => "exists_with_different_timeout",
            CreateTransferResult::ExistsWithDifferentCode => "exists_with_different_code",
            CreateTransferResult::Exists => "exists",
            CreateTransferResult::OverflowsDebitsPending => "overflows_debits_pending",
            CreateTransferResult::OverflowsCreditsPending => "overflows_credits_pending",
            CreateTransferResult::OverflowsDebitsPosted => "overflows_debits_posted",
            CreateTransferResult::OverflowsCreditsPosted => "overflows_credits_posted",
            CreateTransferResult::OverflowsDebits => "overflows_debits",
            CreateTransferResult::OverflowsCredits => "overflows_credits",
            CreateTransferResult::OverflowsTimeout => "overflows_timeout",
            CreateTransferResult::ExceedsCredits => "exceeds_credits",
            CreateTransferResult::ExceedsDebits => "exceeds_debits",
            CreateTransferResult::ClosingTransferMustBePending =>
                "closing_transfer_must_be_pending",
            CreateTransferResult::DebitAccountAlreadyClosed => "debit_account_already_closed",
            CreateTransferResult::CreditAccountAlreadyClosed => "credit_account_already_closed",
            CreateTransferResult::ExistsWithDifferentLedger => "exists_with_different_ledger",
            CreateTransferResult::IdAlreadyFailed => "id_already_failed",
        }
    }

    /// The verdict that has a number; `None` if no verdict has it.
    pub fn from_code(code: u32) -> Option<CreateTransferResult>
        ensures { IsOnly result (λ verdict. transfer_result_code verdict ≡ code) }
    {
        first_verdict_numbered(&CreateTransferResult::ALL, code)
    }
}

impl fmt::Display for CreateTransferResult {
    ghost output = { λ verdict. Some (transfer_result_name verdict) };

    fn fmt<W: fmt::Write>(&self, f: &mut fmt::Formatter<W>) -> fmt::Result {
        f.write_str(self.name())
    }
}

/// The first of some verdicts that has a number.
fn first_verdict_numbered(
    verdicts: &[CreateTransferResult],
    code: u32,
) -> Option<CreateTransferResult>
    ensures { result ≡ find (λ verdict. transfer_result_code verdict == code) verdicts.now }
{
    verdicts
        .iter()
        .copied()
        .find(|verdict| verdict.code() == code)
}
