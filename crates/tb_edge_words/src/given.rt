//! What the words of a form give.
ghost use Rattle.std.specs.Prelude.{◌≡◌};
ghost use Rattle.tb_edge_words.specs.Words.{is_number, with_operand, with_option, with_value};

use crate::table::{Operand, OptionName};
use tb_edge_commands::{number, read_clients_max, read_profile};
use tb_records::{ClientsMax, Profile};

/// What the words of a form give. A word is named by its place among the words.
#[derive(Clone, Copy)]
pub struct Given {
    pub file: Option<usize>,
    pub new: Option<usize>,
    pub clients_max: Option<ClientsMax>,
    /// 1 if it is omitted.
    pub profile: Profile,
    pub existing: bool,
    pub progress: bool,
    pub drop_torn: bool,
    pub follow: bool,
    pub quick: bool,
    /// The value of `--after`.
    pub after: Option<u64>,
}

/// What is given before any word is read.
pub const NOTHING: Given = Given {
    file: None,
    new: None,
    clients_max: None,
    profile: Profile::One,
    existing: false,
    progress: false,
    drop_torn: false,
    follow: false,
    quick: false,
    after: None,
};

/// Says that a word is one or more digits, and nothing else.
fn is_number(word: &[u8]) -> bool
    ensures { result ≡ is_number word.now }
{
    !word.is_empty() && word.iter().all(|byte| byte.is_ascii_digit())
}

/// What is given, with the word at a place for an operand; None if the word is not of its kind.
pub(crate) fn with_operand(given: Given, operand: Operand, at: usize, word: &str) -> Option<Given>
    ensures { result ≡ with_operand given operand at word.now }
{
    let word = word.as_bytes();
    match operand {
        Operand::File if is_number(word) => None,
        Operand::New if is_number(word) => None,
        Operand::File => Some(Given {
            file: Some(at),
            ..given
        }),
        Operand::New => Some(Given {
            new: Some(at),
            ..given
        }),
        Operand::ClientsMax => Some(Given {
            clients_max: Some(read_clients_max(word)?),
            ..given
        }),
        Operand::Profile => Some(Given {
            profile: read_profile(word)?,
            ..given
        }),
    }
}

/// What is given, with an option; None if it was given before.
pub(crate) fn with_option(given: Given, option: OptionName) -> Option<Given>
    ensures { result ≡ with_option given option }
{
    match option {
        OptionName::Existing if !given.existing => Some(Given {
            existing: true,
            ..given
        }),
        OptionName::Progress if !given.progress => Some(Given {
            progress: true,
            ..given
        }),
        OptionName::DropTorn if !given.drop_torn => Some(Given {
            drop_torn: true,
            ..given
        }),
        OptionName::Follow if !given.follow => Some(Given {
            follow: true,
            ..given
        }),
        OptionName::Quick if !given.quick => Some(Given {
            quick: true,
            ..given
        }),
        OptionName::After if given.after.is_none() => Some(given),
        _ => None,
    }
}

/// What is given, with the value of an option; None if the word is not a commit number.
pub(crate) fn with_value(given: Given, word: &str) -> Option<Given>
    ensures { result ≡ with_value given word.now }
{
    Some(Given {
        after: Some(number(word.as_bytes(), 0, i64::MAX as u64)?),
        ..given
    })
}
