//! Records that are put into the journal of a new file, one after another, in batches.
ghost use Rattle.std.specs.Prelude.{◌≡◌, ◌+◌, ◌<◌, ◌≤◌, ◌^◌, true, [], ◌∷◌, ◌++◌, length, OnOk};
ghost use Rattle.tb_file_journal.specs.Contents.{at_rest};
ghost use Rattle.tb_file_journal.specs.Ready.{IsReady};
ghost use Rattle.tb_file.specs.RecordSteps.{IsBatchWith, Puts};
ghost use Rattle.tb_file.specs.Rounds.{block_bytes_max};

use crate::rounds::{BATCH_BYTES_MAX, BLOCK_BYTES_MAX};
use tb_file_journal::{Device, Journal, JournalFault};

/// The greatest record of an entry. A record with more bytes begins a new batch: so a batch has at most `BATCH_BYTES_MAX` bytes, or it has one
/// record, and a crash leaves no more torn bytes than that.
const RECORD_BYTES_SHORT: usize = BLOCK_BYTES_MAX - 11;

/// Commits what waits.
#[tactic(auto, using(crate::proofs::Taking::puts_commit))]
pub fn commit_waiting<N: Device>(journal: &mut Journal<N>) -> Result<(), JournalFault>
    requires usable { journal.old.usable ≡ true }
    requires ready { N.tells → IsReady N.disk journal.old }
    ensures puts { Puts N.disk N.tells result [] journal.old journal.new }
    ensures emptied { OnOk result (journal.new.waiting ≡ []) }
{
    journal.commit()
}

/// Commits what waits if there may be no space for one more record of `len` bytes.
fn make_room<N: Device>(journal: &mut Journal<N>, len: usize) -> Result<(), JournalFault>
    requires usable { journal.old.usable ≡ true }
    requires ready { N.tells → IsReady N.disk journal.old }
    ensures puts { Puts N.disk N.tells result [] journal.old journal.new }
    ensures short { OnOk result (length (at_rest journal.new.waiting) + block_bytes_max ≤ 2 ^ 22) }
    ensures alone { block_bytes_max < len + 11 → OnOk result (journal.new.waiting ≡ []) }
{
    if len <= RECORD_BYTES_SHORT && journal.waiting_bytes() <= BATCH_BYTES_MAX - BLOCK_BYTES_MAX {
        return Ok(());
    }
    commit_waiting(journal)
}

/// Appends a record to a batch that has space for it. It waits for the next commit.
fn append_one<N: Device>(journal: &mut Journal<N>, bytes: &[u8]) -> Result<(), JournalFault>
    requires usable { journal.old.usable ≡ true }
    requires ready { N.tells → IsReady N.disk journal.old }
    requires short { length bytes.now < 2 ^ 24 }
    requires room { length (at_rest journal.old.waiting) + block_bytes_max ≤ 2 ^ 22 }
    ensures puts { Puts N.disk N.tells result (bytes.now ∷ []) journal.old journal.new }
    ensures waits { OnOk result (journal.new.waiting ≡ journal.old.waiting ++ bytes.now ∷ []) }
{
    journal.append(bytes)
}

/// Appends a record for the next commit. What waits is committed first if the batch would become too long: so what waits then has at most 4 MiB, or
/// is this record alone.
#[tactic(auto, using(crate::proofs::Taking::puts_then, crate::proofs::Batches::batch_with))]
pub fn append_batched<N: Device>(journal: &mut Journal<N>, bytes: &[u8]) -> Result<(), JournalFault>
    requires usable { journal.old.usable ≡ true }
    requires ready { N.tells → IsReady N.disk journal.old }
    requires short { length bytes.now < 2 ^ 24 }
    ensures puts { Puts N.disk N.tells result (bytes.now ∷ []) journal.old journal.new }
    ensures batch { OnOk result (IsBatchWith bytes.now journal.new.waiting) }
{
    match make_room(journal, bytes.len()) {
        Ok(()) => append_one(journal, bytes),
        Err(fault) => Err(fault),
    }
}
