//! The table of forms: the word of each form, its operands in their order, and its options.
ghost use Rattle.std.specs.Prelude.{◌≡◌};
ghost use Rattle.tb_edge_words.specs.Table.{form_word, has_value, is_optional, operands_of, option_word, options_of};

/// A form of a program's arguments.
#[derive(Clone, Copy, Debug, PartialEq, Eq)]
pub enum FormName {
    /// Serve requests over a file.
    Run,
    /// Write a history as a dump.
    Dump,
    /// Follow a log, with the ledger in memory.
    Follow,
    /// Read a file, and report what is in it.
    Check,
    /// Copy what is whole of a file into a new one.
    Salvage,
    /// Copy a whole file into a new one.
    Backup,
    /// Print the page of usage.
    Help,
    /// Print the program's version.
    Version,
}

/// An operand of a form.
#[derive(Clone, Copy, Debug, PartialEq, Eq)]
pub enum Operand {
    /// The name of a file, which is not a number. `./64` names the file `64`.
    File,
    /// The name of a new file.
    New,
    /// How many clients can have a session at one time, 1 to `CLIENTS_MAX`.
    ClientsMax,
    /// The profile, 1 or 2. It may be omitted, and defaults to 1.
    Profile,
}

/// An option of a form.
#[derive(Clone, Copy, Debug, PartialEq, Eq)]
pub enum OptionName {
    /// No file is made.
    Existing,
    /// A start is reported.
    Progress,
    /// What a start cuts off is not copied.
    DropTorn,
    /// Only entries above a commit number, which is the next word.
    After,
    /// More entries are waited for.
    Follow,
    /// Only checksums, commit numbers and times are checked.
    Quick,
}

impl FormName {
    /// The word that asks for the form.
    pub fn word(self) -> &'static str
        ensures { result.now ≡ form_word self }
    {
        match self {
            FormName::Run => "run",
            FormName::Dump => "dump",
            FormName::Follow => "follow",
            FormName::Check => "check",
            FormName::Salvage => "salvage",
            FormName::Backup => "backup",
            FormName::Help => "--help",
            FormName::Version => "--version",
        }
    }

    /// The operands, in their order.
    pub fn operands(self) -> &'static [Operand]
        ensures { result.now ≡ operands_of self }
    {
        match self {
            FormName::Run => &[Operand::File, Operand::ClientsMax, Operand::Profile],
            FormName::Dump | FormName::Check => &[Operand::File],
            FormName::Salvage | FormName::Backup => &[Operand::File, Operand::New],
            FormName::Follow => &[Operand::ClientsMax, Operand::Profile],
            FormName::Help | FormName::Version => &[],
        }
    }

    /// The options, which go in any order between the operands, each at most once.
    pub fn options(self) -> &'static [OptionName]
        ensures { result.now ≡ options_of self }
    {
        match self {
            FormName::Run => &[
                OptionName::Existing,
                OptionName::Progress,
                OptionName::DropTorn,
            ],
            FormName::Dump => &[OptionName::After, OptionName::Follow],
            FormName::Check => &[OptionName::Quick],
            _ => &[],
        }
    }
}

impl Operand {
    /// Says that the operand may be omitted.
    pub fn is_optional(self) -> bool
        ensures { result ≡ is_optional self }
    {
        matches!(self, Operand::Profile)
    }
}

impl OptionName {
    /// The word that asks for the option.
    pub fn word(self) -> &'static str
        ensures { result.now ≡ option_word self }
    {
        match self {
            OptionName::Existing => "--existing",
            OptionName::Progress => "--progress",
            OptionName::DropTorn => "--drop-torn",
            OptionName::After => "--after",
            OptionName::Follow => "--follow",
            OptionName::Quick => "--quick",
        }
    }

    /// Says that the next word is the option's value.
    pub fn has_value(self) -> bool
        ensures { result ≡ has_value self }
    {
        matches!(self, OptionName::After)
    }
}
