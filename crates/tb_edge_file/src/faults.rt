//! Why a command ends with an exit status other than 0.
ghost use Rattle.std.specs.Prelude.{◌≡◌, ◌<◌};
ghost use Rattle.tb_edge_file.specs.ExitStatuses.{is_of_head, fault_path, file_exit_status, opening_exit_status, naming_exit_status, new_fault, numbers_of, opened_fault, read_fault, reason_fault, refused_fault, disk_fault, dumped_fault, started_fault, kept_fault, item_fault, words_fault};

use crate::asides::{Reason, Uncopied};
use crate::kinds::FileKind;
use crate::openers::OpeningFault;
use crate::summaries::profile_number;
use std::io;
use std::io::ErrorKind;
use tb_file::{DumpFault, KeepFault, Rules, StartFault};
use tb_file_journal::{OpenFault, Refusal};
use tb_log::LogFault;
use tb_machine::{RestoreFault, RunFault};
use tb_records::FrameFault;

/// What a read, a write or a sync failed on.
#[derive(Clone, Copy, Debug, PartialEq, Eq)]
pub enum Failed {
    /// Standard input.
    Input,
    /// Standard output.
    Output,
    /// The file.
    File,
    /// The new file.
    New,
}

/// The rules of a ledger, in numbers.
#[derive(Clone, Copy, Debug, PartialEq, Eq)]
pub struct Numbers {
    /// How many clients have a session at a time.
    pub clients_max: u32,
    /// 1 or 2.
    pub profile: u8,
}

/// The rules that a file was made with, and others that were asked for.
#[derive(Clone, Copy, Debug, PartialEq, Eq)]
pub struct Mismatch {
    pub made: Numbers,
    pub asked: Numbers,
}

/// The numbers of a ledger's rules.
pub(crate) fn numbers_of(rules: Rules) -> Numbers
    ensures { result ≡ numbers_of rules }
{
    Numbers {
        clients_max: rules.clients_max.get(),
        profile: profile_number(rules.profile),
    }
}

/// What is damaged in a file.
#[derive(Clone, Copy, Debug, PartialEq, Eq)]
pub enum Damage {
    /// The block at this offset is not whole, or its checksum does not match. It is that of the record of this number; None if the records were
    /// not counted. Record 0 is the head, and each record after it has the number of its entry.
    Block { at: usize, entry: Option<u64> },
    /// The record at this place, 1, 2, 3 and so on after the head, is not an entry's.
    Record { place: u64, fault: FrameFault },
    /// The entry may not come next.
    Entry(RestoreFault),
    /// After the records, which end at this offset, there are more bytes than a batch can have that was not committed.
    Torn { at: u64, bytes: u64 },
}

/// What a salvage did not copy: so many bytes that are in no block that was taken, after the entries that end at this offset.
#[derive(Clone, Copy, Debug, PartialEq, Eq)]
pub struct Loss {
    pub bytes: usize,
    pub at: u64,
}

impl Damage {
    /// Says whether the head is known to be damaged: without it no file is read.
    pub(crate) fn is_of_head(self) -> bool
        ensures { result ≡ is_of_head self }
    {
        match self {
            Damage::Block {
                entry: Some(entry),
                ..
            } => entry == 0,
            _ => false,
        }
    }
}

/// Why a command ends with an exit status other than 0.
#[derive(Clone, Copy, Debug, PartialEq, Eq)]
pub enum KeepCommandFault {
    /// The arguments match no form of the program, or one is not UTF-8.
    Usage,
    /// A pipe, or a read or write of the file failed.
    Device(Failed),
    /// The file was not opened.
    Opening(OpeningFault),
    /// The new file was not made.
    Making(OpeningFault),
    /// The new file has all that was copied, but did not get its name.
    Naming(OpeningFault),
    /// There is no memory.
    NoMemory,
    /// What was read is no request, or no time is left for it.
    Request(RunFault),
    /// What was read is no item of a log, or not the next one.
    Item(LogFault),
    /// The file is no journal, but something of this kind.
    NotAJournal(FileKind),
    /// The file is a journal, but it has no record, or its first one is no ledger's head.
    NoHead,
    /// The file is damaged. It is as it was.
    Damaged(Damage),
    /// The file is damaged, and not all of it was copied. It is as it was.
    Lost(Loss),
    /// The file was made with another profile, or for another number of clients.
    OtherRules(Option<Mismatch>),
    /// The disk is full.
    Full,
    /// A sync of the file failed: what was written may be lost, though reads still return it.
    SyncFailed,
    /// The name no longer leads to the file that was opened, or another program has cut or lengthened it.
    Gone,
    /// What a start was to cut off was not copied. The file is as it was.
    NotCopied(Uncopied),
}

/// The fault of a call that failed for this reason.
pub(crate) fn reason_fault(reason: Reason) -> KeepCommandFault
    ensures { result ≡ reason_fault reason }
{
    match reason {
        Reason::Gone => KeepCommandFault::Gone,
        Reason::Unseen => KeepCommandFault::Device(Failed::File),
        Reason::NotCopied(why) => KeepCommandFault::NotCopied(why),
    }
}

/// The fault of a call on a journal or its file.
pub(crate) fn disk_fault(fault: tb_file_journal::JournalFault) -> KeepCommandFault
    ensures { result ≡ disk_fault fault }
{
    match fault {
        tb_file_journal::JournalFault::Memory => KeepCommandFault::NoMemory,
        tb_file_journal::JournalFault::Failed => KeepCommandFault::Device(Failed::File),
        tb_file_journal::JournalFault::Full => KeepCommandFault::Full,
        tb_file_journal::JournalFault::TooLong => KeepCommandFault::Request(RunFault::TooLong),
        tb_file_journal::JournalFault::NotEmpty => KeepCommandFault::NotAJournal(FileKind::Unread),
        tb_file_journal::JournalFault::SyncFailed => KeepCommandFault::SyncFailed,
    }
}

/// The fault of a file that is refused.
fn refused_fault(why: Refusal) -> KeepCommandFault
    ensures { result ≡ refused_fault why }
{
    match why {
        Refusal::NotAJournal => KeepCommandFault::NotAJournal(FileKind::Unread),
        Refusal::Damaged { at } => { KeepCommandFault::Damaged(Damage::Block { at, entry: None }) }
    }
}

/// The fault of a journal that is not read or opened.
pub(crate) fn opened_fault(fault: OpenFault) -> KeepCommandFault
    ensures { result ≡ opened_fault fault }
{
    match fault {
        OpenFault::Refused(why) => refused_fault(why),
        OpenFault::Device(fault) => disk_fault(fault),
    }
}

/// The fault of a ledger that is not opened, before the file is looked at for what else there is to say of it.
pub(crate) fn started_fault(fault: StartFault) -> KeepCommandFault
    ensures { result ≡ started_fault fault }
{
    match fault {
        StartFault::Journal(fault) => opened_fault(fault),
        StartFault::Head => KeepCommandFault::NoHead,
        StartFault::OtherRules => KeepCommandFault::OtherRules(None),
        StartFault::Record { place, fault } => KeepCommandFault::Damaged(Damage::Record {
            place,
            fault,
        }),
        StartFault::Entry(fault) => KeepCommandFault::Damaged(Damage::Entry(fault)),
        StartFault::NoMemory => KeepCommandFault::NoMemory,
        StartFault::TornTooLong { at, bytes } => KeepCommandFault::Damaged(Damage::Torn {
            at,
            bytes,
        }),
    }
}

/// The fault of a dump that is not written.
pub(crate) fn dumped_fault(fault: DumpFault) -> KeepCommandFault
    ensures { result ≡ dumped_fault fault }
{
    match fault {
        DumpFault::Journal(fault) => opened_fault(fault),
        DumpFault::Writer(_) => KeepCommandFault::Device(Failed::Output),
    }
}

/// A fault of the file, if that is the new one.
pub(crate) fn new_fault(fault: KeepCommandFault) -> KeepCommandFault
    ensures { result ≡ new_fault fault }
{
    match fault {
        KeepCommandFault::Device(Failed::File) => KeepCommandFault::Device(Failed::New),
        KeepCommandFault::NotAJournal(_) => KeepCommandFault::Making(OpeningFault::Exists),
        KeepCommandFault::Full => KeepCommandFault::Making(OpeningFault::Full),
        KeepCommandFault::SyncFailed => KeepCommandFault::Making(OpeningFault::SyncFailed),
        fault => fault,
    }
}

/// The fault of reading a request, or of writing replies. If a pipe failed, it is this one.
fn read_fault(fault: RunFault, pipe: Failed) -> KeepCommandFault
    ensures { result ≡ read_fault pipe fault }
{
    match fault {
        RunFault::Frame(FrameFault::Device) => KeepCommandFault::Device(pipe),
        RunFault::Frame(FrameFault::NoMemory) => KeepCommandFault::NoMemory,
        RunFault::NoMemory => KeepCommandFault::NoMemory,
        fault => KeepCommandFault::Request(fault),
    }
}

/// The fault of an item that is not served, or of its reply. If a pipe failed, it is this one.
pub(crate) fn item_fault(fault: LogFault, pipe: Failed) -> KeepCommandFault
    ensures { result ≡ item_fault pipe fault }
{
    match fault {
        LogFault::Device => KeepCommandFault::Device(pipe),
        LogFault::NoMemory => KeepCommandFault::NoMemory,
        fault => KeepCommandFault::Item(fault),
    }
}

/// The fault that serving ends with. If a pipe failed, it is this one.
pub(crate) fn kept_fault(fault: KeepFault, pipe: Failed) -> KeepCommandFault
    ensures { result ≡ kept_fault pipe fault }
{
    match fault {
        KeepFault::Serving(fault) => read_fault(fault, pipe),
        KeepFault::Journal(fault) => disk_fault(fault),
    }
}

/// The fault if the arguments cannot be read: there is no memory for them, or one is not UTF-8.
pub fn words_fault(error: &io::Error) -> KeepCommandFault
    ensures { result ≡ words_fault error.now }
{
    match error.kind() {
        ErrorKind::OutOfMemory => KeepCommandFault::NoMemory,
        _ => KeepCommandFault::Usage,
    }
}

impl OpeningFault {
    /// The exit status.
    pub(crate) fn exit_status(self) -> u8
        ensures failing { 0 < result }
        ensures value { result ≡ opening_exit_status self }
    {
        match self {
            OpeningFault::Locked => 4,
            OpeningFault::SyncFailed => 9,
            OpeningFault::Exists => 2,
            OpeningFault::Empty => 5,
            OpeningFault::Full => 8,
            _ => 1,
        }
    }

    /// The exit status if a new file did not get its name.
    pub(crate) fn naming_status(self) -> u8
        ensures failing { 0 < result }
        ensures value { result ≡ naming_exit_status self }
    {
        match self {
            Self::SyncFailed => 9,
            Self::Exists => 2,
            Self::Full => 8,
            _ => 1,
        }
    }
}

impl KeepCommandFault {
    /// The path that is printed with it: that of the file, or of the new one.
    pub fn path<'a>(self, file: &'a str, new: &'a str) -> &'a str
        ensures { result.now ≡ fault_path self file.now new.now }
    {
        match self {
            KeepCommandFault::Making(_)
            | KeepCommandFault::Naming(_)
            | KeepCommandFault::Device(Failed::New) => new,
            _ => file,
        }
    }

    /// The exit status.
    pub fn exit_status(self) -> u8
        ensures failing { 0 < result }
        ensures value { result ≡ file_exit_status self }
    {
        match self {
            KeepCommandFault::Opening(fault) | KeepCommandFault::Making(fault) =>
                fault.exit_status(),
            KeepCommandFault::Naming(fault) => fault.naming_status(),
            KeepCommandFault::SyncFailed => 9,
            KeepCommandFault::Usage | KeepCommandFault::Request(_) | KeepCommandFault::Item(_) => 2,
            KeepCommandFault::Device(_) | KeepCommandFault::NoMemory => 1,
            KeepCommandFault::NotAJournal(_) | KeepCommandFault::NoHead => 5,
            KeepCommandFault::Damaged(_) | KeepCommandFault::Lost(_) => 6,
            KeepCommandFault::OtherRules(_) => 7,
            KeepCommandFault::Full => 8,
            KeepCommandFault::Gone => 10,
            KeepCommandFault::NotCopied(_) => 11,
        }
    }
}
