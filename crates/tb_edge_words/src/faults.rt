//! What is wrong with words that no form takes.
ghost use Rattle.std.specs.Prelude.{◌≡◌};
ghost use Rattle.tb_edge_words.specs.Words.{word_fault_text, file_text};

use crate::table::{FormName, Operand};
use tb_edge_commands::with_clients_range;

/// What is wrong with a word, or missing after the last one.
#[derive(Clone, Copy, Debug, PartialEq, Eq)]
pub enum Fault {
    /// No form has this word.
    NoForm,
    /// The form has no such option.
    NoOption(FormName),
    /// The option was given before.
    Twice,
    /// It is not of the operand's kind.
    Wrong(Operand),
    /// It is not a value of the option before it.
    WrongValue,
    /// The form has no more operands.
    TooMany,
    /// This operand of the form is missing.
    Missing(FormName, Operand),
    /// The value of the last option is missing.
    NoValue,
}

/// Which word is wrong: the last of the `shown` first ones; and what is wrong with it, or missing after it.
#[derive(Clone, Copy, Debug, PartialEq, Eq)]
pub struct Wrong {
    pub shown: usize,
    pub fault: Fault,
}

/// What is missing if no FILE is given.
fn missing_file(form: FormName) -> &'static str
    ensures { result.now ≡ file_text form }
{
    match form {
        FormName::Run => "FILE and CLIENTS_MAX are missing",
        FormName::Salvage | FormName::Backup => "FILE and NEW are missing",
        _ => "FILE is missing",
    }
}

impl Fault {
    /// What is wrong, as a line shows it after the words.
    pub fn text(self) -> &'static str
        ensures { result.now ≡ word_fault_text self }
    {
        match self {
            Fault::NoForm => "unknown; --help shows the forms",
            Fault::NoOption(FormName::Run) => {
                "unknown option; those of run are --existing, --progress and --drop-torn"
            }
            Fault::NoOption(FormName::Dump) => {
                "unknown option; those of dump are --after COMMIT and --follow"
            }
            Fault::NoOption(FormName::Check) => "unknown option; that of check is --quick",
            Fault::NoOption(FormName::Follow) => "unknown option; follow has none",
            Fault::NoOption(_) => "unknown option; write ./NAME for a file of that name",
            Fault::Twice => "an option is given once",
            Fault::Wrong(Operand::File) => "FILE is a number; write ./FILE",
            Fault::Wrong(Operand::New) => "NEW is a number; write ./NEW",
            Fault::Wrong(Operand::ClientsMax) => CLIENTS_WRONG,
            Fault::Wrong(Operand::Profile) => "PROFILE is 1 or 2",
            Fault::WrongValue => "COMMIT is 0 to 9223372036854775807",
            Fault::TooMany => "too many words",
            Fault::Missing(form, Operand::File) => missing_file(form),
            Fault::Missing(_, Operand::New) => "NEW is missing",
            Fault::Missing(_, Operand::ClientsMax) => CLIENTS_MISSING,
            Fault::Missing(_, Operand::Profile) => "PROFILE is missing",
            Fault::NoValue => "COMMIT is missing, 0 to 9223372036854775807",
        }
    }
}

/// What is wrong with a number of clients that is out of its range.
pub const CLIENTS_WRONG: &str = with_clients_range!("CLIENTS_MAX is ", "");

/// What is wrong if no number of clients is given.
pub const CLIENTS_MISSING: &str = with_clients_range!("CLIENTS_MAX is missing, ", "");
