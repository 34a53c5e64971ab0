//! The result codes of accounts, by TigerBeetle's names.
ghost use Rattle.std.specs.Prelude.{◌≡◌, ◌==◌, find, Some};
ghost use Rattle.tb_records.specs.AccountResults.{account_result_code, account_result_name};
ghost use Rattle.tb_records.specs.Named.{IsOnly};

use std::fmt;

/// The result of the creation of an account: the number next to it is its result code.
#[derive(Clone, Copy, Debug, PartialEq, Eq)]
pub enum CreateAccountResult {
    /// The account is recorded.
    Ok = 0,
    /// Another event of its linked chain failed.
    LinkedEventFailed = 1,
    /// It is linked, and the batch ends with it.
    LinkedEventChainOpen = 2,
    /// Its timestamp is not 0.
    TimestampMustBeZero = 3,
    /// Its reserved field is not 0.
    ReservedField = 4,
    /// It has the flag imported, or a bit that is not a flag.
    ReservedFlag = 5,
    /// Its id is 0.
    IdMustNotBeZero = 6,
    /// Its id is the largest number.
    IdMustNotBeIntMax = 7,
    /// It has both debits_must_not_exceed_credits and credits_must_not_exceed_debits.
    FlagsAreMutuallyExclusive = 8,
    /// Its debits_pending is not 0.
    DebitsPendingMustBeZero = 9,
    /// Its debits_posted is not 0.
    DebitsPostedMustBeZero = 10,
    /// Its credits_pending is not 0.
    CreditsPendingMustBeZero = 11,
    /// Its credits_posted is not 0.
    CreditsPostedMustBeZero = 12,
    /// Its ledger is 0.
    LedgerMustNotBeZero = 13,
    /// Its code is 0.
    CodeMustNotBeZero = 14,
    /// The account of this id has other flags.
    ExistsWithDifferentFlags = 15,
    /// The account of this id has another user_data_128.
    ExistsWithDifferentUserData128 = 16,
    /// The account of this id has another user_data_64.
    ExistsWithDifferentUserData64 = 17,
    /// The account of this id has another user_data_32.
    ExistsWithDifferentUserData32 = 18,
    /// The account of this id has another ledger.
    ExistsWithDifferentLedger = 19,
    /// The account of this id has another code.
    ExistsWithDifferentCode = 20,
    /// This account exists already.
    Exists = 21,
}

impl CreateAccountResult {
    /// All of them, by rising code.
    pub const ALL: [CreateAccountResult; 22] = [
        CreateAccountResult::Ok,
        CreateAccountResult::LinkedEventFailed,
        CreateAccountResult::LinkedEventChainOpen,
        CreateAccountResult::TimestampMustBeZero,
        CreateAccountResult::ReservedField,
        CreateAccountResult::ReservedFlag,
        CreateAccountResult::IdMustNotBeZero,
        CreateAccountResult::IdMustNotBeIntMax,
        CreateAccountResult::FlagsAreMutuallyExclusive,
        CreateAccountResult::DebitsPendingMustBeZero,
        CreateAccountResult::DebitsPostedMustBeZero,
        CreateAccountResult::CreditsPendingMustBeZero,
        CreateAccountResult::CreditsPostedMustBeZero,
        CreateAccountResult::LedgerMustNotBeZero,
        CreateAccountResult::CodeMustNotBeZero,
        CreateAccountResult::ExistsWithDifferentFlags,
        CreateAccountResult::ExistsWithDifferentUserData128,
        CreateAccountResult::ExistsWithDifferentUserData64,
        CreateAccountResult::ExistsWithDifferentUserData32,
        CreateAccountResult::ExistsWithDifferentLedger,
        CreateAccountResult::ExistsWithDifferentCode,
        CreateAccountResult::Exists,
    ];

    /// The result code: the number in a reply.
    pub fn code(self) -> u32
        ensures { result ≡ account_result_code self }
    {
        self as u32
    }

    /// The verdict's name, in TigerBeetle's spelling.
    pub fn name(self) -> &'static str
        ensures { result.now ≡ account_result_name self }
    {
        match self {
            CreateAccountResult::Ok => "ok",
            CreateAccountResult::LinkedEventFailed => "linked_event_failed",
            CreateAccountResult::LinkedEventChainOpen => "linked_event_chain_open",
            CreateAccountResult::TimestampMustBeZero => "timestamp_must_be_zero",
            CreateAccountResult::ReservedField => "reserved_field",
            CreateAccountResult::ReservedFlag => "reserved_flag",
            CreateAccountResult::IdMustNotBeZero => "id_must_not_be_zero",
            CreateAccountResult::IdMustNotBeIntMax => "id_must_not_be_int_max",
            CreateAccountResult::FlagsAreMutuallyExclusive => "flags_are_mutually_exclusive",
            CreateAccountResult::DebitsPendingMustBeZero => "debits_pending_must_be_zero",
            CreateAccountResult::DebitsPostedMustBeZero => "debits_posted_must_be_zero",
            CreateAccountResult::CreditsPendingMustBeZero => "credits_pending_must_be_zero",
            CreateAccountResult::CreditsPostedMustBeZero => "credits_posted_must_be_zero",
            CreateAccountResult::LedgerMustNotBeZero => "ledger_must_not_be_zero",
            CreateAccountResult::CodeMustNotBeZero => "code_must_not_be_zero",
            CreateAccountResult::ExistsWithDifferentFlags => "exists_with_different_flags",
            CreateAccountResult::ExistsWithDifferentUserData128 =>
                "exists_with_different_user_data_128",
            CreateAccountResult::ExistsWithDifferentUserData64 =>
                "exists_with_different_user_data_64",
            CreateAccountResult::ExistsWithDifferentUserData32 =>
                "exists_with_different_user_data_32",
            CreateAccountResult::ExistsWithDifferentLedger => "exists_with_different_ledger",
            CreateAccountResult::ExistsWithDifferentCode => "exists_with_different_code",
            CreateAccountResult::Exists => "exists",
        }
    }

    /// The verdict that has a number; `None` if no verdict has it.
    pub fn from_code(code: u32) -> Option<CreateAccountResult>
        ensures { IsOnly result (λ verdict. account_result_code verdict ≡ code) }
    {
        first_verdict_numbered(&CreateAccountResult::ALL, code)
    }
}

impl fmt::Display for CreateAccountResult {
    ghost output = { λ verdict. Some (account_result_name verdict) };

    fn fmt<W: fmt::Write>(&self, f: &mut fmt::Formatter<W>) -> fmt::Result {
        f.write_str(self.name())
    }
}

/// The first of some verdicts that has a number.
fn first_verdict_numbered(
    verdicts: &[CreateAccountResult],
    code: u32,
) -> Option<CreateAccountResult>
    ensures { result ≡ find (λ verdict. account_result_code verdict == code) verdicts.now }
{
    verdicts
        .iter()
        .copied()
        .find(|verdict| verdict.code() == code)
}
