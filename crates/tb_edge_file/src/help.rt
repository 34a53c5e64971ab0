//! The pages of usage: of the program, and of each form.
ghost use Rattle.std.specs.Prelude.{◌≡◌};
ghost use Rattle.tb_edge_file.specs.Pages.{page_of};

use tb_edge_words::FormName;

/// The line of the program's version.
pub const VERSION: &str = "tbd 0.1.0\n";

/// A page. That of the program has the lines of each form, and that of a form has its own.
macro_rules! page {
    ($form:ident) => {
        page!(
            @ $form
"
  run FILE CLIENTS_MAX [PROFILE] [--existing] [--progress] [--drop-torn]
                                  serves standard input to standard output as tbs run does; each
                                  reply goes out when its entry is on the disk. Makes FILE if it
                                  is not there, and says so; goes on with its history if it is.
                                  With --existing it makes no file: services start with it.
                                  What a crash left after the entries is copied to
                                  FILE.cut-OFFSET-CHECKSUM and cut off; with --drop-torn it is
                                  not copied.
                                  With --progress, and on a terminal, its start is reported"
"
  dump FILE [--after COMMIT] [--follow]
                                  writes the history of FILE, as tbs dump does. With --after only
                                  entries above that commit number, without a head. With --follow
                                  it waits for more, until a write fails or SIGTERM comes"
"
  follow CLIENTS_MAX [PROFILE]
                                  serves a log of entries with positions from its first entry on,
                                  in memory: it opens no file"
"
  check FILE [--quick]            reads all of FILE and prints what is in it, or the damage. With
                                  --quick only frames, checksums, commit numbers and times are
                                  checked, in little memory: the ledger is not replayed"
"
  salvage FILE NEW                copies what is whole before the first damage into NEW, and what
                                  can be read after it, and prints what is lost and where; status 6
                                  if bytes are lost. NEW must not exist. It is NEW.part until all
                                  of it is on the disk; the next salvage or backup to NEW begins
                                  that again"
"
  backup FILE NEW                 copies a whole FILE into NEW, which must not exist; status 6 if
                                  FILE is damaged. It is NEW.part until all of it is on the disk"
"

CLIENTS_MAX is 1 to 64, PROFILE 1 or 2; a file keeps those that it was made with. FILE is no
number and does not begin with -: the file 64 is ./64. So is NEW. Options go in any order, each
once. One run serves a file at a time; the other forms only read it, also while it is served.
The exit status is 0 if all is done; otherwise a line of standard error names the fault:
1 Device or NoMemory, 2 Usage or a refused request or item, 4 Locked, 5 NotAJournal, 6 Damaged,
7 OtherRules, 8 Full, 9 SyncFailed, 10 Gone, 11 NotCopied.
"
        )
    };
    (@ all $run:literal $dump:literal $follow:literal $check:literal $salvage:literal $backup:literal $end:literal) => {
        concat!(
            "Usage: tbd FORM\n\n",
            "Keeps a ledger in a file: what was acknowledged is in the file, whenever the program or the machine stops.\n",
            $run, $dump, $follow, $check, $salvage, $backup,
            "\n  FORM --help                     prints the lines of one form\n",
            "  --help, -h, --version",
            $end
        )
    };
    (@ run $run:literal $dump:literal $follow:literal $check:literal $salvage:literal $backup:literal $end:literal) => {
        concat!("Usage: tbd FORM\n", $run, $end)
    };
    (@ dump $run:literal $dump:literal $follow:literal $check:literal $salvage:literal $backup:literal $end:literal) => {
        concat!("Usage: tbd FORM\n", $dump, $end)
    };
    (@ follow $run:literal $dump:literal $follow:literal $check:literal $salvage:literal $backup:literal $end:literal) => {
        concat!("Usage: tbd FORM\n", $follow, $end)
    };
    (@ check $run:literal $dump:literal $follow:literal $check:literal $salvage:literal $backup:literal $end:literal) => {
        concat!("Usage: tbd FORM\n", $check, $end)
    };
    (@ salvage $run:literal $dump:literal $follow:literal $check:literal $salvage:literal $backup:literal $end:literal) => {
        concat!("Usage: tbd FORM\n", $salvage, $end)
    };
    (@ backup $run:literal $dump:literal $follow:literal $check:literal $salvage:literal $backup:literal $end:literal) => {
        concat!("Usage: tbd FORM\n", $backup, $end)
    };
}

/// The page of the program.
pub const USAGE: &str = page!(all);

/// The page of `run`.
pub const RUN: &str = page!(run);

/// The page of `dump`.
pub const DUMP: &str = page!(dump);

/// The page of `follow`.
pub const FOLLOW: &str = page!(follow);

/// The page of `check`.
pub const CHECK: &str = page!(check);

/// The page of `salvage`.
pub const SALVAGE: &str = page!(salvage);

/// The page of `backup`.
pub const BACKUP: &str = page!(backup);

/// The page of a form; for `--help` and `--version`, the page of the program.
pub(crate) fn page(form: FormName) -> &'static str
    ensures { result.now ≡ page_of form }
{
    match form {
        FormName::Run => RUN,
        FormName::Dump => DUMP,
        FormName::Follow => FOLLOW,
        FormName::Check => CHECK,
        FormName::Salvage => SALVAGE,
        FormName::Backup => BACKUP,
        FormName::Help | FormName::Version => USAGE,
    }
}
