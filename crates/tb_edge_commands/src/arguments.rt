//! What the words of the command line ask for.
ghost use Rattle.std.specs.Prelude.{◌≡◌, ◌<◌, ◌≤◌, map, string_bytes, IfSome, Some, None, if◌then◌else◌};
ghost use Rattle.tb_edge_commands.specs.Forms.{digit_of, number_of, with_digit, within, clients_of, profile_word, commit_of, form_alone, form_with, form_with_two, form_of};

use tb_records::{CLIENTS_MAX, ClientsMax, Profile};

/// What the program is asked to do.
#[derive(Clone, Copy)]
pub enum Form {
    /// Serve a script.
    Run(ClientsMax, Profile),
    /// Serve a script, and write the history that it makes, with a mark before the first entry whose commit number is above
    /// the given one.
    Dump(ClientsMax, Option<u64>),
    /// Replay a dump.
    Replay,
}

/// The value of a digit.
fn digit(byte: u8) -> Option<u128>
    ensures value { result ≡ digit_of byte }
    ensures small { IfSome result (λ n. n < 10) }
{
    if b'0' <= byte && byte <= b'9' {
        Some((byte - b'0') as u128)
    } else {
        None
    }
}

/// A number with one more digit, if it is at most `high`.
fn with_digit(n: u128, byte: u8, high: u128) -> Option<u128>
    ensures { result ≡ with_digit n byte high }
{
    let n = n.checked_mul(10)?.checked_add(digit(byte)?)?;
    if n <= high { Some(n) } else { None }
}

/// The number of a word, if it is at most `high`.
fn number_up_to(word: &[u8], high: u128) -> Option<u128>
    ensures { result ≡ within 0 high (number_of word.now) }
{
    if word.is_empty() {
        return None;
    }
    let mut n: u128 = 0;
    for byte in word {
        n = with_digit(n, *byte, high)?;
    }
    Some(n)
}

/// The number of a word, if it is from `low` to `high`.
pub fn number(word: &[u8], low: u64, high: u64) -> Option<u64>
    ensures { result ≡ within low high (number_of word.now) }
{
    match number_up_to(word, high as u128) {
        Some(n) if low as u128 <= n => Some(n as u64),
        _ => None,
    }
}

/// Two texts with the range of a number of clients between them, 1 to `CLIENTS_MAX`. Messages about it are made so; a page of
/// usage has the range in its own text.
#[macro_export]
macro_rules! with_clients_range {
    ($before:literal, $behind:literal) => {
        concat!($before, "1 to 64", $behind)
    };
}

/// The number of clients of a word, from 1 to `CLIENTS_MAX`.
pub fn read_clients_max(word: &[u8]) -> Option<ClientsMax>
    ensures { result ≡ clients_of word.now }
{
    ClientsMax::new(number(word, 1, CLIENTS_MAX as u64)? as u32)
}

/// The profile of a word, 1 or 2.
pub fn read_profile(word: &[u8]) -> Option<Profile>
    ensures { result ≡ profile_word word.now }
{
    let n = number(word, 1, 2)?;
    Some(if n <= 1 { Profile::One } else { Profile::Two })
}

/// The number of a commit, from 0 to `2^63 - 1`.
fn commit(word: &[u8]) -> Option<u64>
    ensures { result ≡ commit_of word.now }
{
    number(word, 0, i64::MAX as u64)
}

/// What one word asks for.
fn form_alone(word: &str) -> Option<Form>
    ensures { result ≡ form_alone word.now }
{
    match word {
        "replay" => Some(Form::Replay),
        _ => None,
    }
}

/// What a word with the number of clients asks for.
fn form_with(word: &str, clients_max: &str) -> Option<Form>
    ensures { result ≡ form_with word.now clients_max.now }
{
    let clients_max = read_clients_max(clients_max.as_bytes())?;
    match word {
        "run" => Some(Form::Run(clients_max, Profile::One)),
        "dump" => Some(Form::Dump(clients_max, None)),
        _ => None,
    }
}

/// What a word with the number of clients and one more number asks for.
fn form_with_two(word: &str, clients_max: &str, last: &str) -> Option<Form>
    ensures { result ≡ form_with_two word.now clients_max.now last.now }
{
    let clients_max = read_clients_max(clients_max.as_bytes())?;
    match word {
        "run" => Some(Form::Run(clients_max, read_profile(last.as_bytes())?)),
        "dump" => Some(Form::Dump(clients_max, Some(commit(last.as_bytes())?))),
        _ => None,
    }
}

/// What the words ask for; None if they are not one of the three forms.
pub(crate) fn read_form(words: &[String]) -> Option<Form>
    ensures { result ≡ form_of (map string_bytes words.now) }
{
    match words {
        [form] => form_alone(form.as_str()),
        [form, clients_max] => form_with(form.as_str(), clients_max.as_str()),
        [form, clients_max, last] => {
            form_with_two(form.as_str(), clients_max.as_str(), last.as_str())
        }
        _ => None,
    }
}
