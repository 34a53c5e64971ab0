//! From words to a form and what is given for it.
ghost use Rattle.std.specs.Prelude.{◌≡◌, ◌≤◌, Some, drop, find, length, map, nat_eq, slice_get, string_bytes};
ghost use Rattle.std.specs.Cmp.Lexicographic.{pointwise};
ghost use Rattle.std.specs.List.{list_any};
ghost use Rattle.std.specs.Option.{option_copied};
ghost use Rattle.tb_edge_words.specs.Table.{operands_of, option_word, options_of};
ghost use Rattle.tb_edge_words.specs.Words.{asked_by, asked_of, at_end, form_given, form_named, given_word, is_help, is_option, operand_next, option_named, reads, first_reader, value_read, whole_word, with_value, with_word, word_at};

use crate::faults::{Fault, Wrong};
use crate::given::{Given, NOTHING, with_operand, with_option, with_value};
use crate::table::{FormName, OptionName};

/// What the words ask for.
#[derive(Clone, Copy)]
pub enum Asked {
    /// The page of usage of a form.
    Help(FormName),
    /// A form, with what is given for it.
    Form(FormName, Given),
}

/// How far words were read.
#[derive(Clone, Copy)]
pub struct Reader {
    pub given: Given,
    /// How many operands were read.
    pub operands: usize,
    /// Whether the next word is the value of an option.
    pub waits: bool,
}

/// Before the first word after a form's.
const START: Reader = Reader {
    given: NOTHING,
    operands: 0,
    waits: false,
};

/// Says that a word begins with `-`.
fn is_option(word: &str) -> bool
    ensures { result ≡ is_option word.now }
{
    match word.as_bytes() {
        [b'-', ..] => true,
        _ => false,
    }
}

/// After a word that is the value of the option before it.
fn read_value(reader: Reader, word: &str) -> Result<Reader, Fault>
    ensures { result ≡ value_read reader (with_value reader.given word.now) }
{
    match with_value(reader.given, word) {
        Some(given) => Ok(Reader {
            given,
            waits: false,
            ..reader
        }),
        None => Err(Fault::WrongValue),
    }
}

/// The option of a form that a word asks for.
fn find_option(form: FormName, word: &str) -> Option<&'static OptionName>
    ensures { option_copied result ≡ find (λ known. pointwise nat_eq (option_word known) word.now) (options_of form) }
{
    form.options().iter().find(|known| known.word() == word)
}

/// After a word that begins with `-`.
fn read_option(form: FormName, reader: Reader, word: &str) -> Result<Reader, Fault>
    ensures { result ≡ option_named form reader (find (λ known. pointwise nat_eq (option_word known) word.now) (options_of form)) }
{
    let Some(found) = find_option(form, word) else {
        return Err(Fault::NoOption(form));
    };
    let option = *found;
    match with_option(reader.given, option) {
        Some(given) => Ok(Reader {
            given,
            waits: option.has_value(),
            ..reader
        }),
        None => Err(Fault::Twice),
    }
}

/// After a word that is to be the next operand.
fn read_operand(form: FormName, reader: Reader, at: usize, word: &str) -> Result<Reader, Fault>
    ensures { result ≡ operand_next reader (slice_get (operands_of form) reader.operands) at word.now }
{
    let Some(next) = form.operands().get(reader.operands) else {
        return Err(Fault::TooMany);
    };
    let next = *next;
    match with_operand(reader.given, next, at, word) {
        Some(given) => Ok(Reader {
            given,
            operands: reader.operands + 1,
            ..reader
        }),
        None => Err(Fault::Wrong(next)),
    }
}

/// After one more word.
fn read_word(form: FormName, reader: Reader, at: usize, word: &str) -> Result<Reader, Fault>
    ensures { result ≡ with_word form reader at word.now }
{
    if reader.waits {
        return read_value(reader, word);
    }
    if is_option(word) {
        return read_option(form, reader, word);
    }
    read_operand(form, reader, at, word)
}

/// What is given when the words end.
fn read_end(form: FormName, reader: Reader, at: usize) -> Result<Given, Wrong>
    ensures { result ≡ at_end form reader at }
{
    if reader.waits {
        return Err(Wrong {
            shown: at,
            fault: Fault::NoValue,
        });
    }
    match form.operands().get(reader.operands) {
        Some(next) if !next.is_optional() => Err(Wrong {
            shown: at,
            fault: Fault::Missing(form, *next),
        }),
        _ => Ok(reader.given),
    }
}

/// What the words from a place on give for a form; or which of them is wrong, and how.
fn read_from(form: FormName, words: &[String], from: usize) -> Result<Given, Wrong>
    requires { from ≤ length words.now }
    ensures { result ≡ reads form first_reader from (map string_bytes (drop from words.now)) }
{
    let mut reader = START;
    for at in from..words.len() {
        match read_word(form, reader, at, words[at].as_str()) {
            Ok(after) => reader = after,
            Err(fault) => {
                return Err(Wrong {
                    shown: at + 1,
                    fault,
                });
            }
        }
    }
    read_end(form, reader, words.len())
}

/// A word, or the long one of `-h`.
fn whole_word(word: &str) -> &str
    ensures { result.now ≡ whole_word word.now }
{
    if word == "-h" { "--help" } else { word }
}

/// Says that one of the words asks for help.
fn asks_help(words: &[String]) -> bool
    ensures { result ≡ list_any is_help (map string_bytes words.now) }
{
    for word in words {
        if whole_word(word.as_str()) == "--help" {
            return true;
        }
    }
    false
}

/// A form with what is given for it.
fn with_form(form: FormName, given: Result<Given, Wrong>) -> Result<Asked, Wrong>
    ensures { result ≡ form_given form given }
{
    match given {
        Ok(given) => Ok(Asked::Form(form, given)),
        Err(wrong) => Err(wrong),
    }
}

/// What the words ask for, if the first one is that of a form.
fn ask(form: FormName, words: &[String]) -> Result<Asked, Wrong>
    requires { 1 ≤ length words.now }
    ensures { result ≡ asked_by (Some form) (map string_bytes (drop 1 words.now)) }
{
    if asks_help(&words[1..]) {
        return Ok(Asked::Help(form));
    }
    with_form(form, read_from(form, words, 1))
}

/// The word at a place; an empty one if there is no word.
fn word_at(words: &[String], at: usize) -> &str
    ensures { result.now ≡ word_at (map string_bytes words.now) at }
{
    match words.get(at) {
        Some(word) => word.as_str(),
        None => "",
    }
}

/// The word of a place that is given; an empty one if no place is given.
pub fn given_word(words: &[String], at: Option<usize>) -> &str
    ensures { result.now ≡ given_word (map string_bytes words.now) at }
{
    match at {
        Some(at) => word_at(words, at),
        None => "",
    }
}

/// The form that a word asks for, among these.
fn find_form<'a>(forms: &'a [FormName], word: &str) -> Option<&'a FormName>
    ensures { option_copied result ≡ form_named forms.now word.now }
{
    let word = whole_word(word);
    forms.iter().find(|known| known.word() == word)
}

/// What the words ask for among a program's forms; or which of them is wrong, and how. The first word names the form.
pub fn read(forms: &[FormName], words: &[String]) -> Result<Asked, Wrong>
    ensures { result ≡ asked_of forms.now (map string_bytes words.now) }
{
    if words.is_empty() {
        return Err(Wrong {
            shown: 0,
            fault: Fault::NoForm,
        });
    }
    match find_form(forms, word_at(words, 0)) {
        Some(form) => ask(*form, words),
        None => Err(Wrong {
            shown: 1,
            fault: Fault::NoForm,
        }),
    }
}
