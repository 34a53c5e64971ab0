//! What holds for every kept ledger.
ghost use Rattle.tb_file.specs.Again.{FileHasOneHistory, OneLedger, GoesOnAfter, AnyCrash, AfterKill};
ghost use Rattle.tb_file.specs.Following.{EntriesAreAbove, EntriesOnce};
ghost use Rattle.tb_file.specs.Quick.{HistoriesAreInOrder, QuickRefusesNone};
ghost use Rattle.tb_file.specs.Reading.{DumpIsOfHistory, WholeRules, WholeNoHead, WholeDumps};
ghost use Rattle.tb_file.specs.Recovering.{OnlyMemory, FileOnlyMemory, WholeStops};
ghost use Rattle.tb_file.specs.Salvaging.{IsLongest};
ghost use Rattle.tb_file.specs.Moments.{AtEachMoment, AtTheEnd, RepliesToTheDone, AllServed};

use tb_file_journal::Device;

/// At each moment of `keep`, the file that a crash may leave then has the history from before with the entries of some first pairs of those that
/// were read, and what was sent by then is a prefix of the replies to these pairs: so what was acknowledged is in the file. While entries are
/// committed, only the replies to earlier ones were sent. The same holds at the end, of all bytes that were written.
pub fn at_each_moment<D: Device>()
    ensures moments { AtEachMoment D.tells D.disk }
    ensures ended { AtTheEnd D.tells D.disk }
    ensures replied { RepliesToTheDone D.tells D.disk }
    ensures served { AllServed D.tells D.disk }
{}

/// A crash at any moment of `keep` leaves a file that represents the history from before it, with the entries of some first pairs of those that
/// were read, and nothing else. `open` reads exactly that.
pub fn any_crash<D: Device>()
    ensures { AnyCrash D.tells D.disk }
{}

/// If only the process is killed, at any moment of `keep`, no power is lost, and the next process reads what was in the file: a file such as a
/// crash leaves.
pub fn after_kill<D: Device>()
    ensures { AfterKill D.tells D.disk }
{}

/// What is opened again after a crash: a file represents one history, and the machine after the entries of pairs is the one that served these
/// pairs. So a request that is sent again gets the reply that it would have got without the crash.
pub fn opened_again()
    ensures one_history { FileHasOneHistory }
    ensures one_ledger { OneLedger }
    ensures goes_on { GoesOnAfter }
{}

/// A file that represents a history, and has no more torn bytes after its records than one batch, is refused only when memory runs out, if no call
/// on the device has failed. If a head or a record is refused, the records are those of no history of these rules.
pub fn only_memory<D: Device>()
    ensures records { OnlyMemory }
    ensures file { FileOnlyMemory D.disk }
{}

/// A start reports what it finds in records that a file begins with, because it reads no further. If the file is read to its end the same holds for
/// all its records. What stops the first of them stops all, their head is that of all, and what was sent of their dump is a prefix of the dump of
/// all.
pub fn whole_files()
    ensures stops { WholeStops }
    ensures rules { WholeRules }
    ensures no_head { WholeNoHead }
    ensures dumps { WholeDumps }
{}

/// For a file that represents a history, `write_entries` writes its entries above the commit number, as a dump has them. What it writes for a file,
/// and then for what came after, is what it would have written for all at once.
pub fn entries_above()
    ensures above { EntriesAreAbove }
    ensures once { EntriesOnce }
{}

/// What a start accepts, [`read_quick`](crate::read_quick) accepts: for a file that represents a history it finds the rules and the time of the
/// last entry. It refuses no such file, unless memory runs out or the device fails.
pub fn quick_takes_histories()
    ensures in_order { HistoriesAreInOrder }
    ensures accepted { QuickRefusesNone }
{}

/// `salvage` takes the longest legal history with whose records the file begins: every other such history is a prefix of it.
pub fn salvages_most()
    ensures { IsLongest }
{}

/// What `write_dump` writes for a file encodes the history that the file represents.
pub fn dump_spells()
    ensures { DumpIsOfHistory }
{}
