//! What holds of a disk whose sectors are old or new, and of every journal in the stamped format.
ghost use Rattle.tb_sectors.specs.Records.{RecordsAreRead, RecordsAreAllOrNone};
ghost use Rattle.tb_sectors.specs.Sectors.{EachSectorIsAVersion};
ghost use Rattle.tb_sectors.specs.Latches.{ClosedIsRead, BehindLatchNothingCounts, LatchIsAllOrNone, LatchIsClosed, ClosedBatchIsWritten, ClosedCreatedIsWritten};
ghost use Rattle.tb_sectors.specs.StampedLaws.{CrashLeavesAllOrNone, CommittedIsRead, FileIsRead, FileIsAllOrNone, LostWriteIsDamage, RotIsDamage, SectorIsReadBack, BatchIsWritten, BatchHasItsBytes, CreatedIsWritten, TornIsCleared};

/// After a crash each sector is as it was synced, or as one of the writes since then made it: any subset of those that were not synced may be lost.
pub fn each_sector_is_a_version()
    ensures { EachSectorIsAVersion }
{}

/// A crash amid the commit of a batch, after any others, leaves the batch whole or nothing of it, and all earlier ones.
pub fn crash_leaves_all_or_none()
    ensures { CrashLeavesAllOrNone }
{}

/// What was committed is read: what was acknowledged stands.
pub fn committed_is_read()
    ensures { CommittedIsRead }
{}

/// The same for a file, with reserved zeros after its sectors.
pub fn file_is_read()
    ensures { FileIsRead }
{}

/// A crash amid a commit, for the bytes of files.
pub fn file_is_all_or_none()
    ensures { FileIsAllOrNone }
{}

/// A write that the disk lost is damage, as soon as a later batch begins after its sector.
pub fn lost_write_is_damage()
    ensures { LostWriteIsDamage }
{}

/// A sector whose checksum is not that of its bytes is damage, named by its place, in the last batch too.
pub fn rot_is_damage()
    ensures { RotIsDamage }
{}

/// The bytes of a sector are read as they were written.
pub fn sector_is_read_back()
    ensures { SectorIsReadBack }
{}

/// What a commit writes makes a journal with its batch.
pub fn batch_is_written()
    ensures { BatchIsWritten }
{}

/// The sector of a new journal.
pub fn created_is_written()
    ensures { CreatedIsWritten }
{}

/// A batch that is cut has all of its bytes.
pub fn batch_has_its_bytes()
    ensures { BatchHasItsBytes }
{}

/// What clears a torn end makes the file the journal of the batches that are whole.
pub fn torn_is_cleared()
    ensures { TornIsCleared }
{}

/// A file whose batches are records has these records.
pub fn records_are_read()
    ensures { RecordsAreRead }
{}

/// A crash amid the commit of a batch of records leaves all of them or none, and all earlier ones.
pub fn records_are_all_or_none()
    ensures { RecordsAreAllOrNone }
{}

/// The batches before a closed latch are read, whatever is after it.
pub fn closed_is_read()
    ensures { ClosedIsRead }
{}

/// A crash amid a write after a closed latch leaves the journal as it was, over a disk of which nothing is assumed.
pub fn behind_latch_nothing_counts()
    ensures { BehindLatchNothingCounts }
{}

/// A crash amid the opening of a latch leaves the batch after it whole or nothing of it, over a disk of which nothing is assumed.
pub fn latch_is_all_or_none()
    ensures { LatchIsAllOrNone }
{}

/// What a commit with two syncs writes makes a journal with its batch, once the latch before it is open.
pub fn closed_batch_is_written()
    ensures { ClosedBatchIsWritten }
{}

/// The sector of a new journal whose commits have two syncs.
pub fn closed_created_is_written()
    ensures { ClosedCreatedIsWritten }
{}

/// Two bytes close the last latch of a journal, and a crash amid their write changes nothing that is read.
pub fn latch_is_closed()
    ensures { LatchIsClosed }
{}
