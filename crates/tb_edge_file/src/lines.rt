//! The lines of standard error.
ghost use Rattle.std.specs.Prelude.{◌≡◌, ◌++◌, Some, [], codes, map, string_bytes, take};
ghost use Rattle.tb_edge_file.specs.ExitStatuses.{file_exit_status, harm_text, unread_text, next_of, damaged_text, opening_text, making_text, naming_text, failed_text, kind_text, numbers_text, both_text, mismatch_text, fault_text, item_text, lost_text, file_fault_line, reading_line, shown_words, said_text, wrong_line, usage_lines, counted_text, line_of, named, numbered, read_line, rules_text, said_with, PassesOn, Says, PrintsMade, PrintsCut, PrintsReading, PrintsReady, PrintsFrames};
ghost use Rattle.tb_edge_file.specs.Asides.{uncopied_text};
ghost use Rattle.tb_edge_file.specs.Printable.{printable};
ghost use Rattle.tb_edge_file.specs.private.Changes.{PutsText};

use crate::asides::{Uncopied, uncopied_text};
use crate::faults::{Damage, Failed, KeepCommandFault, Loss, Mismatch, Numbers};
use crate::help::USAGE;
use crate::kinds::FileKind;
use crate::openers::OpeningFault;
use crate::printable::put_printable;
use itoa::Buffer;
use tb_edge_words::Wrong;
use tb_log::LogFault;
use tb_records::{FrameFault, Sink, put_all};

/// Writes two texts, one after the other.
fn put_both<E: Sink>(faults: &mut E, first: &str, second: &str) -> Result<(), FrameFault>
    ensures { PutsText E.Sink result (first.now ++ second.now) faults }
{
    match put_all(faults, first.as_bytes()) {
        Ok(()) => put_all(faults, second.as_bytes()),
        Err(fault) => Err(fault),
    }
}

/// Writes a text, and a path or an argument after it.
fn put_shown<E: Sink>(faults: &mut E, first: &str, path: &str) -> Result<(), FrameFault>
    ensures { PutsText E.Sink result (first.now ++ printable path.now) faults }
{
    match put_all(faults, first.as_bytes()) {
        Ok(()) => put_printable(faults, path),
        Err(fault) => Err(fault),
    }
}

/// Writes a path and a text after it.
fn put_shown_before<E: Sink>(faults: &mut E, path: &str, last: &str) -> Result<(), FrameFault>
    ensures { PutsText E.Sink result (printable path.now ++ last.now) faults }
{
    match put_printable(faults, path) {
        Ok(()) => put_all(faults, last.as_bytes()),
        Err(fault) => Err(fault),
    }
}

/// Writes a text, the path of a file and a text after it.
fn put_named<E: Sink>(faults: &mut E, first: &str, path: &str, last: &str) -> Result<(), FrameFault>
    ensures { PutsText E.Sink result (named first.now path.now last.now) faults }
{
    match put_all(faults, first.as_bytes()) {
        Ok(()) => put_shown_before(faults, path, last),
        Err(fault) => Err(fault),
    }
}

/// Writes a text and a number after it.
fn put_number<E: Sink>(faults: &mut E, first: &str, number: u64) -> Result<(), FrameFault>
    ensures { PutsText E.Sink result (numbered first.now number) faults }
{
    let mut buffer = Buffer::new();
    put_both(faults, first, buffer.format(number))
}

/// Writes the place of a record and what is wrong with it.
fn put_place<E: Sink>(
    faults: &mut E,
    first: &str,
    place: u64,
    second: &str,
    what: &str,
) -> Result<(), FrameFault>
    ensures { PutsText E.Sink result (numbered first.now place ++ (second.now ++ what.now)) faults }
{
    match put_number(faults, first, place) {
        Ok(()) => put_both(faults, second, what),
        Err(fault) => Err(fault),
    }
}

/// Writes a number and a text after it.
fn put_counted<E: Sink>(faults: &mut E, number: u64, last: &str) -> Result<(), FrameFault>
    ensures { PutsText E.Sink result (counted_text number last.now) faults }
{
    let mut buffer = Buffer::new();
    put_both(faults, buffer.format(number), last)
}

/// Writes two numbers, each with a text after it.
fn put_torn<E: Sink>(
    faults: &mut E,
    bytes: u64,
    first: &str,
    at: u64,
    last: &str,
) -> Result<(), FrameFault>
    ensures { PutsText E.Sink result (counted_text bytes first.now ++ counted_text at last.now) faults }
{
    match put_counted(faults, bytes, first) {
        Ok(()) => put_counted(faults, at, last),
        Err(fault) => Err(fault),
    }
}

/// Writes a number between two texts.
fn put_between<E: Sink>(
    faults: &mut E,
    first: &str,
    number: u64,
    last: &str,
) -> Result<(), FrameFault>
    ensures { PutsText E.Sink result (first.now ++ counted_text number last.now) faults }
{
    match put_all(faults, first.as_bytes()) {
        Ok(()) => put_counted(faults, number, last),
        Err(fault) => Err(fault),
    }
}

/// Writes, after the place of a block, that it is not what was written, and which entry it is of.
fn put_unread<E: Sink>(faults: &mut E, entry: Option<u64>) -> Result<(), FrameFault>
    ensures { PutsText E.Sink result (unread_text entry) faults }
{
    match entry {
        None => put_all(faults, b" is not what was written"),
        Some(number) => {
            if number == 0 {
                return put_all(faults, b" (the head) is not what was written");
            }
            put_between(faults, " (entry ", number, ") is not what was written")
        }
    }
}

/// Writes that the block at this offset, of this entry, is not what was written.
fn put_block<E: Sink>(faults: &mut E, at: u64, entry: Option<u64>) -> Result<(), FrameFault>
    ensures { PutsText E.Sink result (numbered (codes "the block at byte ") at ++ unread_text entry) faults }
{
    match put_number(faults, "the block at byte ", at) {
        Ok(()) => put_unread(faults, entry),
        Err(fault) => Err(fault),
    }
}

/// Writes what is damaged.
fn put_harm<E: Sink>(faults: &mut E, damage: Damage) -> Result<(), FrameFault>
    ensures { PutsText E.Sink result (harm_text damage) faults }
{
    match damage {
        Damage::Block { at, entry } => put_block(faults, at as u64, entry),
        Damage::Record { place, fault } => {
            put_place(faults, "entry ", place, " is none: ", fault.name())
        }
        Damage::Entry(fault) => put_place(
            faults,
            "entry ",
            fault.place,
            " may not come next: ",
            fault.cause.name(),
        ),
        Damage::Torn { at, bytes } => put_torn(
            faults,
            bytes,
            " bytes are after byte ",
            at,
            ", more than one batch can have",
        ),
    }
}

/// What to do if a sync failed.
const SYNC: &str = ": restart the machine or copy the file before the next start";

/// What to do if a read or a write failed.
const DISK: &str = ": a read or write failed; look at the disk, and start again";

/// What to do if a file is not found, after its path.
const MISSING: &str = "; look at its name and at its folder";

/// The same if it may not be opened.
const FORBIDDEN: &str = "; change its mode or its folder's, or run tbd as a user that may";

/// The same if its disk is read-only.
const READ_ONLY: &str =
    " is on a disk that is read-only; mount it for writing, or name a file on another disk";

/// The same if no more files may be opened.
const TOO_MANY: &str = ": too many files are open; raise their number by ulimit -n";

/// The same for one that has no bytes.
const EMPTY: &str = " is empty; without --existing tbd run makes a ledger in it";

/// The same for a new file that exists already.
const EXISTS: &str = " exists; give the name of one that is not there";

/// The same for a folder, a pipe or a device of the system.
const NOT_A_FILE: &str = " is no regular file; give the name of one";

/// The same for a symbolic link to nothing.
const DANGLING: &str = " is a link to nothing; remove it, or make the file that it names";

/// The same if the system does not open it.
const UNOPENED: &str = "; look at its disk and at its folder";

/// Writes why a file of this path was not opened.
fn put_opening<E: Sink>(faults: &mut E, fault: OpeningFault, path: &str) -> Result<(), FrameFault>
    ensures { PutsText E.Sink result (opening_text fault path.now) faults }
{
    match fault {
        OpeningFault::Locked => put_named(
            faults,
            "Locked: ",
            path,
            " is open in another program; end that one first",
        ),
        OpeningFault::Missing => put_named(faults, "Device: cannot find ", path, MISSING),
        OpeningFault::Forbidden => {
            put_named(faults, "Device: no permission to open ", path, FORBIDDEN)
        }
        OpeningFault::ReadOnly => put_named(faults, "Device: ", path, READ_ONLY),
        OpeningFault::TooMany => put_named(faults, "Device: cannot open ", path, TOO_MANY),
        OpeningFault::NoMemory => put_all(faults, b"NoMemory"),
        OpeningFault::SyncFailed => put_named(faults, "SyncFailed: ", path, SYNC),
        OpeningFault::Exists => put_named(faults, "Usage: ", path, EXISTS),
        OpeningFault::NotAFile => put_named(faults, "Device: ", path, NOT_A_FILE),
        OpeningFault::Dangling => put_named(faults, "Device: ", path, DANGLING),
        OpeningFault::Unopened => put_named(faults, "Device: cannot open ", path, UNOPENED),
        OpeningFault::Unread => put_named(faults, "Device: ", path, DISK),
        OpeningFault::Full => put_named(faults, "Full: ", path, FULL),
        OpeningFault::Empty => put_named(faults, "NotAJournal: ", path, EMPTY),
    }
}

/// What to do if a sync of a new file failed, after its path without `.part`.
const NEW_SYNC: &str = ".part: it may be lost; look at the disk, and start again";

/// The same if a read or a write of it failed.
const NEW_DISK: &str = ".part: a read or write failed; look at the disk, and start again";

/// The same if there is no space for it.
const NEW_FULL: &str =
    ".part: the disk is full, or the file has its greatest length; remove it, free space, and start again";

/// The same if another program writes it.
const NEW_LOCKED: &str = ".part is open in another program; end that one first";

/// The same if something else has its name.
const NEW_NOT_A_FILE: &str = ".part is no regular file; move it elsewhere, or give another name";

/// Writes why a new file of this path was not made, or not to its end.
fn put_making<E: Sink>(faults: &mut E, fault: OpeningFault, path: &str) -> Result<(), FrameFault>
    ensures { PutsText E.Sink result (making_text fault path.now) faults }
{
    match fault {
        OpeningFault::SyncFailed => put_named(faults, "SyncFailed: ", path, NEW_SYNC),
        OpeningFault::Unread => put_named(faults, "Device: ", path, NEW_DISK),
        OpeningFault::Full => put_named(faults, "Full: ", path, NEW_FULL),
        OpeningFault::Locked => put_named(faults, "Locked: ", path, NEW_LOCKED),
        OpeningFault::NotAFile => put_named(faults, "Device: ", path, NEW_NOT_A_FILE),
        fault => put_opening(faults, fault, path),
    }
}

/// What to do if a new file has its name, and a sync of that failed.
const NAME_SYNC: &str = ": its name may be lost; look at the disk, and copy the file again";

/// The same if another file has the name by now.
const NAME_EXISTS: &str =
    ".part has all that was copied, and its name was taken meanwhile; give it another";

/// The same if there is no space for the name.
const NAME_FULL: &str =
    ".part has all that was copied, and there is no space for its name; free space, and rename it";

/// The same if the new file is not where it was made.
const NAME_MOVED: &str = ".part was moved while it was written; copy the file again";

/// The same if another call failed.
const NAME_FAILED: &str = ".part has all that was copied, but did not get its name; rename it";

/// Writes why a new file did not get this path as its name.
fn put_naming<E: Sink>(faults: &mut E, fault: OpeningFault, path: &str) -> Result<(), FrameFault>
    ensures { PutsText E.Sink result (naming_text fault path.now) faults }
{
    match fault {
        OpeningFault::SyncFailed => put_named(faults, "SyncFailed: ", path, NAME_SYNC),
        OpeningFault::Exists => put_named(faults, "Usage: ", path, NAME_EXISTS),
        OpeningFault::Full => put_named(faults, "Full: ", path, NAME_FULL),
        OpeningFault::Missing => put_named(faults, "Device: ", path, NAME_MOVED),
        _ => put_named(faults, "Device: ", path, NAME_FAILED),
    }
}

/// Writes what is damaged and a text after it.
fn put_harmed<E: Sink>(faults: &mut E, damage: Damage, last: &str) -> Result<(), FrameFault>
    ensures { PutsText E.Sink result (harm_text damage ++ last.now) faults }
{
    match put_harm(faults, damage) {
        Ok(()) => put_all(faults, last.as_bytes()),
        Err(fault) => Err(fault),
    }
}

/// What to do about damage of a ledger's file.
fn next_of(damage: Damage) -> &'static str
    ensures { result.now ≡ next_of damage }
{
    if damage.is_of_head() {
        "; restore a backup: tbd salvage needs the head"
    } else {
        "; tbd salvage makes a new file of the entries before it"
    }
}

/// Writes a text, what is damaged in a file of this path, and what to do about it.
fn put_damaged<E: Sink>(
    faults: &mut E,
    first: &str,
    damage: Damage,
    path: &str,
    next: &str,
) -> Result<(), FrameFault>
    ensures { PutsText E.Sink result (damaged_text first.now damage path.now next.now) faults }
{
    match put_named(faults, first, path, ": ") {
        Ok(()) => put_harmed(faults, damage, next),
        Err(fault) => Err(fault),
    }
}

/// What to do about entries that were not copied.
const LOST: &str = " were not copied; restore a backup, or enter again what is missing";

/// Writes how much of a damaged file of this path was not copied.
fn put_lost<E: Sink>(faults: &mut E, loss: Loss, path: &str) -> Result<(), FrameFault>
    ensures { PutsText E.Sink result (lost_text loss path.now) faults }
{
    match put_named(faults, "Damaged: ", path, ": ") {
        Ok(()) => put_torn(
            faults,
            loss.bytes as u64,
            " bytes after byte ",
            loss.at,
            LOST,
        ),
        Err(fault) => Err(fault),
    }
}

/// Writes what failed of a program over a file of this path.
fn put_failed<E: Sink>(faults: &mut E, which: Failed, path: &str) -> Result<(), FrameFault>
    ensures { PutsText E.Sink result (failed_text which path.now) faults }
{
    match which {
        Failed::Input => put_all(faults, b"Device: standard input"),
        Failed::Output => put_all(faults, b"Device: standard output"),
        Failed::File => put_named(faults, "Device: ", path, DISK),
        Failed::New => put_named(faults, "Device: ", path, NEW_DISK),
    }
}

/// Writes that a file of this path is no ledger, and of what kind it is.
fn put_kind<E: Sink>(faults: &mut E, kind: FileKind, path: &str) -> Result<(), FrameFault>
    ensures { PutsText E.Sink result (kind_text kind path.now) faults }
{
    match kind {
        FileKind::Unread => put_all(faults, b"NotAJournal"),
        FileKind::Empty => put_named(
            faults,
            "NotAJournal: ",
            path,
            " is empty; tbd run makes a ledger in it",
        ),
        FileKind::Dump => put_named(
            faults,
            "NotAJournal: ",
            path,
            " is a dump; tbs replay and telovamish dump read it",
        ),
        FileKind::NoRecord => put_named(
            faults,
            "NotAJournal: ",
            path,
            " has no record yet; tbd run makes a ledger in it",
        ),
        FileKind::Closed => put_named(
            faults,
            "NotAJournal: ",
            path,
            " has a closed first latch at byte 8 and bytes after it; restore a backup if it had a record: tbd salvage finds none, and tbd run may cut these bytes off and begin a new ledger",
        ),
        FileKind::Begun => put_named(
            faults,
            "NotAJournal: ",
            path,
            " ends before its first record; restore a backup if it had one, or start without --existing",
        ),
        FileKind::Ledger => put_named(
            faults,
            "NotAJournal: ",
            path,
            " is a ledger; tbd run serves it",
        ),
        FileKind::Script => put_named(
            faults,
            "NotAJournal: ",
            path,
            " is a script; tbs and tbd run read it as standard input",
        ),
        FileKind::Text => put_named(
            faults,
            "NotAJournal: ",
            path,
            " is a text; telovamish script makes request frames of statements",
        ),
        FileKind::Other => put_named(
            faults,
            "NotAJournal: ",
            path,
            " does not begin as a ledger's file",
        ),
    }
}

/// Writes two numbers, each after a text.
fn put_two<E: Sink>(
    faults: &mut E,
    first: &str,
    one: u64,
    second: &str,
    two: u64,
) -> Result<(), FrameFault>
    ensures { PutsText E.Sink result (numbered first.now one ++ numbered second.now two) faults }
{
    match put_number(faults, first, one) {
        Ok(()) => put_number(faults, second, two),
        Err(fault) => Err(fault),
    }
}

/// Writes rules in words.
#[tactic(auto, unfolding(crate::specs::ExitStatuses::numbers_text))]
fn put_numbers<E: Sink>(faults: &mut E, numbers: Numbers) -> Result<(), FrameFault>
    ensures { PutsText E.Sink result (numbers_text numbers) faults }
{
    put_two(
        faults,
        "CLIENTS_MAX ",
        numbers.clients_max as u64,
        " and PROFILE ",
        numbers.profile as u64,
    )
}

/// Writes a text and rules in words after it.
fn put_asked<E: Sink>(faults: &mut E, first: &str, asked: Numbers) -> Result<(), FrameFault>
    ensures { PutsText E.Sink result (first.now ++ numbers_text asked) faults }
{
    match put_all(faults, first.as_bytes()) {
        Ok(()) => put_numbers(faults, asked),
        Err(fault) => Err(fault),
    }
}

/// Writes rules in words, and others after a text.
fn put_both_numbers<E: Sink>(
    faults: &mut E,
    both: Mismatch,
    between: &str,
) -> Result<(), FrameFault>
    ensures { PutsText E.Sink result (both_text both between.now) faults }
{
    match put_numbers(faults, both.made) {
        Ok(()) => put_asked(faults, between, both.asked),
        Err(fault) => Err(fault),
    }
}

/// Writes a path between two texts, and then rules in words and others after a text.
fn put_rules<E: Sink>(
    faults: &mut E,
    first: &str,
    path: &str,
    last: &str,
    both: Mismatch,
    between: &str,
) -> Result<(), FrameFault>
    ensures { PutsText E.Sink result (rules_text first.now path.now last.now both between.now) faults }
{
    match put_named(faults, first, path, last) {
        Ok(()) => put_both_numbers(faults, both, between),
        Err(fault) => Err(fault),
    }
}

/// Writes that a file of this path has other rules.
fn put_mismatch<E: Sink>(
    faults: &mut E,
    numbers: Option<Mismatch>,
    path: &str,
) -> Result<(), FrameFault>
    ensures { PutsText E.Sink result (mismatch_text numbers path.now) faults }
{
    match numbers {
        Some(both) => put_rules(
            faults,
            "OtherRules: ",
            path,
            " was made with ",
            both,
            ", not with ",
        ),
        None => put_named(
            faults,
            "OtherRules: ",
            path,
            " was made with others; tbd check shows them",
        ),
    }
}

/// What is reported of a file whose records have no head, after its path.
const NO_HEAD: &str = " has a first record that is no ledger's head; restore a backup";

/// What is reported of a request, after its fault's name.
const REFUSED: &str =
    ": the next request on standard input is refused; those before it were answered";

/// What to do if no space is left.
const FULL: &str =
    ": the disk is full, or the file has its greatest length; free space, and start again";

/// What is reported of a file that is gone, after its path.
const GONE: &str =
    " is not the file that was opened, or another program cut it; put that file back before the next start";

/// Writes why the torn bytes of a file of this path were not copied.
fn put_uncopied<E: Sink>(faults: &mut E, why: Uncopied, path: &str) -> Result<(), FrameFault>
    ensures { PutsText E.Sink result (named (codes "NotCopied: ") path.now (uncopied_text why)) faults }
{
    put_named(faults, "NotCopied: ", path, uncopied_text(why))
}

/// What is reported of an item that ends before its last byte, after its fault's name.
const CUT_ITEM: &str = ": standard input ends within an item; those before it were answered";

/// What is reported of bytes that are no item, after the first of them.
const NO_ITEM: &str = "standard input goes on with no item; those before it were answered";

/// Writes what is wrong with an item of a log, and where.
fn put_item<E: Sink>(faults: &mut E, fault: LogFault) -> Result<(), FrameFault>
    ensures { PutsText E.Sink result (item_text fault) faults }
{
    match fault {
        LogFault::UnknownKind(kind) => {
            put_place(faults, "UnknownKind ", kind as u64, ": ", NO_ITEM)
        }
        LogFault::Short => put_both(faults, "Short", CUT_ITEM),
        LogFault::Gap(at) => put_number(faults, "Gap at ", at),
        LogFault::Repeat(at) => put_number(faults, "Repeat at ", at),
        LogFault::TooLong(at) => put_number(faults, "TooLong at ", at),
        LogFault::Damaged(at) => put_number(faults, "Damaged at ", at),
        LogFault::TimeExhausted(at) => put_number(faults, "TimeExhausted at ", at),
        LogFault::BadEntry(at, fault) => {
            put_place(faults, "BadEntry at ", at, ": ", fault.name())
        }
        fault => put_all(faults, fault.name().as_bytes()),
    }
}

/// Writes a fault's name, and what there is to say of it, over a file of this path.
fn put_fault<E: Sink>(faults: &mut E, fault: KeepCommandFault, path: &str) -> Result<(), FrameFault>
    ensures { PutsText E.Sink result (fault_text fault path.now) faults }
{
    match fault {
        KeepCommandFault::Usage => put_all(faults, b"Usage: a word is not UTF-8"),
        KeepCommandFault::Device(which) => put_failed(faults, which, path),
        KeepCommandFault::Opening(fault) => put_opening(faults, fault, path),
        KeepCommandFault::Making(fault) => put_making(faults, fault, path),
        KeepCommandFault::Naming(fault) => put_naming(faults, fault, path),
        KeepCommandFault::NoMemory => put_all(faults, b"NoMemory"),
        KeepCommandFault::Request(fault) => put_both(faults, fault.name(), REFUSED),
        KeepCommandFault::Item(fault) => put_item(faults, fault),
        KeepCommandFault::NotAJournal(kind) => put_kind(faults, kind, path),
        KeepCommandFault::NoHead => put_named(faults, "NotAJournal: ", path, NO_HEAD),
        KeepCommandFault::Damaged(damage) => {
            put_damaged(faults, "Damaged: ", damage, path, next_of(damage))
        }
        KeepCommandFault::Lost(loss) => put_lost(faults, loss, path),
        KeepCommandFault::OtherRules(numbers) => put_mismatch(faults, numbers, path),
        KeepCommandFault::Full => put_named(faults, "Full: ", path, FULL),
        KeepCommandFault::SyncFailed => put_named(faults, "SyncFailed: ", path, SYNC),
        KeepCommandFault::Gone => put_named(faults, "Gone: ", path, GONE),
        KeepCommandFault::NotCopied(why) => put_uncopied(faults, why, path),
    }
}

/// Passes on what was sent.
fn pass<E: Sink>(sent: Result<(), FrameFault>, faults: &mut E)
    ensures { PassesOn sent (E.output faults.old) (E.output faults.new) }
{
    if sent.is_ok() {
        faults.pass_on();
    }
}

/// Writes a fault and the end of its line.
fn put_rest<E: Sink>(faults: &mut E, fault: KeepCommandFault, path: &str) -> Result<(), FrameFault>
    ensures { PutsText E.Sink result (line_of (fault_text fault path.now)) faults }
{
    match put_fault(faults, fault, path) {
        Ok(()) => put_all(faults, b"\n"),
        Err(fault) => Err(fault),
    }
}

/// Writes a text and the line of a fault after it.
fn put_line<E: Sink>(
    faults: &mut E,
    first: &str,
    fault: KeepCommandFault,
    path: &str,
) -> Result<(), FrameFault>
    ensures { PutsText E.Sink result (first.now ++ line_of (fault_text fault path.now)) faults }
{
    match put_all(faults, first.as_bytes()) {
        Ok(()) => put_rest(faults, fault, path),
        Err(fault) => Err(fault),
    }
}

/// Prints a fault over a file of this path, in one line. A failure to write it changes no exit status.
pub(crate) fn print_fault<E: Sink>(fault: KeepCommandFault, path: &str, faults: &mut E)
    ensures { Says E.Sink (file_fault_line fault path.now) faults.old faults.new }
{
    pass(put_line(faults, "tbd: ", fault, path), faults);
}

/// Writes a number after a text, and the end of the line.
fn put_end<E: Sink>(faults: &mut E, first: &str, at: u64) -> Result<(), FrameFault>
    ensures { PutsText E.Sink result (line_of (numbered first.now at)) faults }
{
    match put_number(faults, first, at) {
        Ok(()) => put_all(faults, b"\n"),
        Err(fault) => Err(fault),
    }
}

/// Writes two numbers, each after a text, and the end of the line.
fn put_cut<E: Sink>(
    faults: &mut E,
    first: &str,
    bytes: u64,
    second: &str,
    at: u64,
) -> Result<(), FrameFault>
    ensures { PutsText E.Sink result (numbered first.now bytes ++ line_of (numbered second.now at)) faults }
{
    match put_number(faults, first, bytes) {
        Ok(()) => put_end(faults, second, at),
        Err(fault) => Err(fault),
    }
}

/// Writes a text, a path and a text, and the end of the line.
fn put_path<E: Sink>(faults: &mut E, first: &str, path: &str, last: &str) -> Result<(), FrameFault>
    ensures { PutsText E.Sink result (line_of (named first.now path.now last.now)) faults }
{
    match put_named(faults, first, path, last) {
        Ok(()) => put_all(faults, b"\n"),
        Err(fault) => Err(fault),
    }
}

/// Prints a path between two texts, in one line.
pub fn print_named<E: Sink>(first: &str, path: &str, last: &str, faults: &mut E)
    ensures { Says E.Sink (line_of (named first.now path.now last.now)) faults.old faults.new }
{
    pass(put_path(faults, first, path, last), faults);
}

/// What is between the two numbers.
const BEHIND: &str = " bytes of a batch that was not committed, after byte ";

/// Prints how many bytes a start cut off after the records, which end at this place; nothing if it cut none off.
#[tactic(auto, using(crate::proofs::Passing::said))]
pub(crate) fn print_cut<E: Sink>(bytes: u64, at: u64, faults: &mut E)
    ensures { PrintsCut bytes at (E.output faults.old) (E.output faults.new) }
{
    if bytes != 0 {
        pass(put_cut(faults, "tbd: cut ", bytes, BEHIND, at), faults);
    }
}

/// Writes arguments, a space before each.
fn put_words<E: Sink>(faults: &mut E, words: &[String]) -> Result<(), FrameFault>
    ensures { PutsText E.Sink result (shown_words (map string_bytes words.now)) faults }
{
    match words {
        [] => Ok(()),
        [word, rest @ ..] => match put_shown(faults, " ", word.as_str()) {
            Ok(()) => put_words(faults, rest),
            Err(fault) => Err(fault),
        },
    }
}

/// Writes what is wrong, and the end of the line.
fn put_what<E: Sink>(faults: &mut E, what: &str) -> Result<(), FrameFault>
    ensures { PutsText E.Sink result (line_of what.now) faults }
{
    match put_all(faults, what.as_bytes()) {
        Ok(()) => put_all(faults, b"\n"),
        Err(fault) => Err(fault),
    }
}

/// Writes a text and what is wrong after it.
fn put_behind<E: Sink>(faults: &mut E, first: &str, what: &str) -> Result<(), FrameFault>
    ensures { PutsText E.Sink result (first.now ++ line_of what.now) faults }
{
    match put_all(faults, first.as_bytes()) {
        Ok(()) => put_what(faults, what),
        Err(fault) => Err(fault),
    }
}

/// Writes arguments and what is wrong with them.
fn put_said<E: Sink>(
    faults: &mut E,
    shown: &[String],
    between: &str,
    what: &str,
) -> Result<(), FrameFault>
    ensures { PutsText E.Sink result (said_with (map string_bytes shown.now) between.now what.now) faults }
{
    match put_words(faults, shown) {
        Ok(()) => put_behind(faults, between, what),
        Err(fault) => Err(fault),
    }
}

/// Writes a text, and the rest of the line of arguments that match no form of the program.
fn put_wrong<E: Sink>(
    faults: &mut E,
    first: &str,
    shown: &[String],
    what: &str,
) -> Result<(), FrameFault>
    ensures { PutsText E.Sink result (first.now ++ said_text (map string_bytes shown.now) what.now) faults }
{
    match put_all(faults, first.as_bytes()) {
        Ok(()) => put_said(faults, shown, ": ", what),
        Err(fault) => Err(fault),
    }
}

/// Where the first record of a file begins.
const FIRST_RECORD_AT: u64 = 8;

/// Reports that a ledger was made in a file of this path, if its records ended at this place before that: it had none. Otherwise nothing.
#[tactic(auto, using(crate::proofs::Passing::said))]
pub(crate) fn print_made<E: Sink>(at: u64, path: &str, faults: &mut E)
    ensures { PrintsMade at path.now (E.output faults.old) (E.output faults.new) }
{
    if at <= FIRST_RECORD_AT {
        pass(put_named(faults, "tbd: made ", path, "\n"), faults);
    }
}

/// Writes how much of how much was read, in millions of bytes, and the end of the line.
fn put_read<E: Sink>(faults: &mut E, read: u64, all: u64) -> Result<(), FrameFault>
    ensures { PutsText E.Sink result (read_line read all) faults }
{
    match put_torn(faults, read, " of ", all, " MB") {
        Ok(()) => put_all(faults, b"\n"),
        Err(fault) => Err(fault),
    }
}

/// Writes a path between two texts, and how much of how much was read, and the end of the line.
fn put_reading<E: Sink>(
    faults: &mut E,
    first: &str,
    path: &str,
    last: &str,
    read: u64,
    all: u64,
) -> Result<(), FrameFault>
    ensures { PutsText E.Sink result (named first.now path.now last.now ++ read_line read all) faults }
{
    match put_named(faults, first, path, last) {
        Ok(()) => put_read(faults, read, all),
        Err(fault) => Err(fault),
    }
}

/// The bytes of a megabyte, as it is shown.
pub(crate) const MEGABYTE: usize = 1_000_000;

/// Reports how much of a file of this path was read, of how much, in millions of bytes.
#[tactic(auto, using(crate::proofs::Passing::said))]
pub(crate) fn print_read<E: Sink>(path: &str, read: u64, all: u64, faults: &mut E)
    ensures { Says E.Sink (reading_line path.now read all) faults.old faults.new }
{
    pass(
        put_reading(faults, "tbd: reading ", path, ", ", read, all),
        faults,
    );
}

/// Reports that a start begins to read a file of this path and this many bytes, if starts are reported and the file is long.
#[tactic(auto, using(crate::proofs::Passing::said))]
pub(crate) fn print_reading<E: Sink>(reports: bool, path: &str, len: usize, faults: &mut E)
    ensures { PrintsReading reports path.now len (E.output faults.old) (E.output faults.new) }
{
    if reports && len >= MEGABYTE {
        print_read(path, 0, (len / MEGABYTE) as u64, faults);
    }
}

/// Reports that a start is done, and the last commit and its time, if starts are reported.
#[tactic(auto, using(crate::proofs::Passing::said))]
pub(crate) fn print_ready<E: Sink>(reports: bool, commit: u64, time: u64, faults: &mut E)
    ensures { PrintsReady reports commit time (E.output faults.old) (E.output faults.new) }
{
    if reports {
        pass(
            put_cut(faults, "tbd: ready: commit ", commit, ", time ", time),
            faults,
        );
    }
}

/// What is reported of requests that would come from a terminal.
const FRAMES: &str =
    "tbd: standard input is a terminal, and run reads request frames there; telovamish repl and telovamish script take words";

/// Reports which programs read words, if requests would come from a terminal.
pub(crate) fn print_frames<E: Sink>(talks: bool, faults: &mut E)
    ensures { PrintsFrames talks (E.output faults.old) (E.output faults.new) }
{
    if talks {
        pass(put_what(faults, FRAMES), faults);
    }
}

/// The first arguments, up to this many.
fn first_words(words: &[String], count: usize) -> &[String]
    ensures { map string_bytes result.now ≡ take count (map string_bytes words.now) }
{
    if count < words.len() {
        &words[..count]
    } else {
        words
    }
}

/// Writes the line of arguments that are wrong in this way.
fn put_usage<E: Sink>(faults: &mut E, words: &[String], wrong: Wrong) -> Result<(), FrameFault>
    ensures { PutsText E.Sink result (wrong_line wrong (map string_bytes words.now)) faults }
{
    let shown = first_words(words, wrong.shown);
    put_wrong(faults, "tbd: Usage:", shown, wrong.fault.text())
}

/// Prints what is wrong with arguments; the page of usage if there are none.
#[tactic(auto, using(crate::proofs::Passing::said))]
fn print_usage<E: Sink>(words: &[String], wrong: Wrong, faults: &mut E)
    ensures { Says E.Sink (usage_lines wrong (map string_bytes words.now)) faults.old faults.new }
{
    match words {
        [] => pass(put_all(faults, USAGE.as_bytes()), faults),
        _ => pass(put_usage(faults, words, wrong), faults),
    }
}

/// Prints what is wrong with arguments, and returns the exit status. A failure to write it does not change that.
pub fn refuse_words<E: Sink>(words: &[String], wrong: Wrong, faults: &mut E) -> u8
    ensures value { result ≡ 2 }
    ensures printed { Says E.Sink (usage_lines wrong (map string_bytes words.now)) faults.old faults.new }
{
    print_usage(words, wrong, faults);
    KeepCommandFault::Usage.exit_status()
}

/// Prints a fault that is about no file, and returns its exit status.
pub fn refuse<E: Sink>(fault: KeepCommandFault, faults: &mut E) -> u8
    ensures value { result ≡ file_exit_status fault }
    ensures printed { Says E.Sink (file_fault_line fault []) faults.old faults.new }
{
    print_fault(fault, "", faults);
    fault.exit_status()
}
