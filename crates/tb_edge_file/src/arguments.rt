//! What the arguments of the command line ask for.
ghost use Rattle.std.specs.Prelude.{◌≡◌, map, string_bytes};
ghost use Rattle.tb_edge_words.specs.Words.{given_word};
ghost use Rattle.tb_edge_file.specs.Forms.{IsRead, ReadsForm, asked_in, form_by, form_or_fault, options_in, given_options};

use tb_edge_words::{Asked, Fault, FormName, Given, Wrong, given_word, read};
use tb_records::{ClientsMax, Profile};

/// The options of `run`.
#[derive(Clone, Copy)]
pub struct Options {
    /// Its start is reported.
    pub reports: bool,
    /// The file has to exist: none is made.
    pub existing: bool,
    /// What a start cuts off is not copied.
    pub drops: bool,
}

/// What the program is asked to do.
#[derive(Clone, Copy)]
pub enum Form {
    /// Serve requests over a file, which is made if it is missing, unless the options say otherwise.
    Run(ClientsMax, Profile, Options),
    /// Follow a log, with the ledger in memory.
    Follow(ClientsMax, Profile),
    /// Write the history of a file as a dump: all of it, or the entries above a commit number, without a head. With the flag it waits for more.
    Dump(Option<u64>, bool),
    /// Read a file, and report what is in it. With the flag only checksums, commit numbers and times are checked.
    Check(bool),
    /// Copy the longest legal history that a file begins with into a new file.
    Salvage,
    /// Copy a file that is whole into a new file.
    Backup,
    /// Print the page of usage of a form, or of the program.
    Help(FormName),
    /// Print the program's version.
    Version,
}

/// A form, and the arguments that name its files.
#[derive(Clone, Copy)]
pub struct Command<'a> {
    pub form: Form,
    /// Empty if no file is named.
    pub file: &'a str,
    /// Empty if no new file is named.
    pub new: &'a str,
}

/// The program's forms.
pub const FORMS: &[FormName] = &[
    FormName::Run,
    FormName::Dump,
    FormName::Follow,
    FormName::Check,
    FormName::Salvage,
    FormName::Backup,
    FormName::Help,
    FormName::Version,
];

/// What is wrong with arguments that name no form.
const NO_FORM: Wrong = Wrong {
    shown: 1,
    fault: Fault::NoForm,
};

/// The options among what is given.
fn options_of(given: Given) -> Options
    ensures { result ≡ given_options given }
{
    Options {
        reports: given.progress,
        existing: given.existing,
        drops: given.drop_torn,
    }
}

impl Form {
    /// Its options: all are false if it is not `run`.
    pub fn options(self) -> Options
        ensures { result ≡ options_in self }
    {
        match self {
            Form::Run(_, _, options) => options,
            _ => Options {
                reports: false,
                existing: false,
                drops: false,
            },
        }
    }
}

/// The form that is asked for; None if a number of clients is missing.
fn form_by(form: FormName, given: Given) -> Option<Form>
    ensures { result ≡ form_by form given }
{
    match form {
        FormName::Run => Some(Form::Run(given.clients_max?, given.profile, options_of(given))),
        FormName::Follow => Some(Form::Follow(given.clients_max?, given.profile)),
        FormName::Dump => Some(Form::Dump(given.after, given.follow)),
        FormName::Check => Some(Form::Check(given.quick)),
        FormName::Salvage => Some(Form::Salvage),
        FormName::Backup => Some(Form::Backup),
        FormName::Help => Some(Form::Help(form)),
        FormName::Version => Some(Form::Version),
    }
}

/// A form with what is given for it.
fn command_by(words: &[String], form: FormName, given: Given) -> Result<Command<'_>, Wrong>
    ensures { ReadsForm result (form_or_fault (form_by form given)) (given_word (map string_bytes words.now) given.file)
        (given_word (map string_bytes words.now) given.new) }
{
    let file = given_word(words, given.file);
    let new = given_word(words, given.new);
    match form_by(form, given) {
        Some(form) => Ok(Command { form, file, new }),
        None => Err(NO_FORM),
    }
}

/// What the arguments ask for, by the table of tb_edge_words.
#[tactic(auto, unfolding(crate::specs::Forms::asked_in))]
fn read_words(words: &[String]) -> Result<Asked, Wrong>
    ensures { result ≡ asked_in (map string_bytes words.now) }
{
    read(FORMS, words)
}

/// What the arguments ask for; or which of them is wrong, and how.
pub fn read_command(words: &[String]) -> Result<Command<'_>, Wrong>
    ensures { IsRead result (map string_bytes words.now) }
{
    match read_words(words) {
        Ok(Asked::Form(form, given)) => command_by(words, form, given),
        Ok(Asked::Help(form)) => Ok(Command {
            form: Form::Help(form),
            file: "",
            new: "",
        }),
        Err(wrong) => Err(wrong),
    }
}
