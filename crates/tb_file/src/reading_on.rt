//! The entries that are in a file after its damage, copied too.
ghost use Rattle.std.specs.Prelude.{◌≡◌, ◌+◌, ◌<◌, ◌≤◌, ◌^◌, ℕ, true, false, List, [], length, take, drop, Ok, IfOk, IfErr, IfSome, OnOk};
ghost use Rattle.tb_file_journal.specs.Ready.{IsReady};
ghost use Rattle.tb_file_journal.specs.Seeking.{IsSeeking};
ghost use Rattle.tb_file.specs.Creating.{IsDiskUntouched};
ghost use Rattle.tb_file.specs.Keeping.{History, Keeps, IsUsable, IsFresh};
ghost use Rattle.tb_file.specs.ReadingOn.{IsReadOn, LeavesLonger};
ghost use Rattle.tb_file.specs.private.Behind.{TakesIf, TakesHere, TakesOn};
ghost use Rattle.tb_file.specs.RecordSteps.{StaysKept};
ghost use Rattle.tb_file.specs.private.Taking.{StaysUsed};

use crate::faults::{SalvageFault, StartFault};
use crate::keepers::Keeper;
use crate::salvaging::{commit_taken, stop_of, take_record};
use std::alloc::Global;
use tb_file_journal::{Device, FILE_BYTES_MAX, JournalFault, OpenFault, Seek};

/// What was copied from a file after its damage.
#[derive(Clone, Copy)]
pub struct ReadOn {
    /// The offset of the first block, in bytes; that of the damage if there is no block.
    pub first: usize,
    /// The bytes of the blocks.
    pub bytes: usize,
}

// The parts of a block before its record: the latch and the length, and the checksum.
const LATCH_AND_LENGTH: usize = 7;

const SUM_BYTES: usize = 4;

// The parts of an entry before its body: two numbers, and the header of its request.
const ENTRY_FIXED_BYTES: usize = 16 + 48;

// The offset of the length of its body, from the checksum of its record on.
const BODY_LENGTH_AT: usize = SUM_BYTES + 16 + 32;

// This many bytes say how long a record is.
const PEEK_BYTES: usize = BODY_LENGTH_AT + 4;

// No body is longer: 8,190 items of 128 bytes.
const BODY_BYTES_MAX: usize = 8190 * 128;

/// The length of the record of the entry with this commit number that may be after the checksum in these bytes, as its frame states it. None if
/// there is no such entry.
fn record_len(bytes: &[u8], commit: u64) -> Option<usize>
    ensures { IfSome result (λ len. (0 < len) × (len < 2 ^ 24)) }
{
    let [_, _, _, _, a, b, c, d, e, f, g, h, ..] = bytes else {
        return None;
    };
    if u64::from_le_bytes([*a, *b, *c, *d, *e, *f, *g, *h]) != commit {
        return None;
    }
    if bytes.len() < PEEK_BYTES {
        return None;
    }
    let [s, t, u, v, ..] = &bytes[BODY_LENGTH_AT..] else {
        return None;
    };
    let body = u32::from_le_bytes([*s, *t, *u, *v]) as usize;
    if body > BODY_BYTES_MAX {
        return None;
    }
    Some(ENTRY_FIXED_BYTES + body)
}

/// A fault of the old file's device.
fn old_fault(fault: JournalFault) -> SalvageFault
    ensures { result ≡ SalvageFault.Old (StartFault.Journal (OpenFault.Device fault)) }
{
    SalvageFault::Old(StartFault::Journal(OpenFault::Device(fault)))
}

/// Copies a record if it is that of the next entry: false if it is not, and nothing has changed.
fn take_if_next<N: Device>(
    global: Global,
    keeper: &mut Keeper<N>,
    bytes: &[u8],
) -> Result<bool, SalvageFault>
    requires usable { keeper.old.journal.usable ≡ true }
    requires ready { N.tells → IsReady N.disk keeper.old.journal }
    ensures takes { TakesIf N.disk N.tells result bytes.now keeper.old keeper.new }
    ensures stays_used { StaysUsed keeper.old keeper.new }
{
    match take_record(global, keeper, bytes) {
        Ok(()) => Ok(true),
        Err(fault) => match stop_of(fault) {
            Some(_) => Ok(false),
            None => Err(fault),
        },
    }
}

/// Copies the record of `len` bytes whose checksum is at the place of a seek: false if there is no such record, or it is not the next entry's.
fn take_here<D: Device, N: Device>(
    global: Global,
    keeper: &mut Keeper<N>,
    seek: &mut Seek,
    from: &mut D,
    len: usize,
) -> Result<bool, SalvageFault>
    requires usable { keeper.old.journal.usable ≡ true }
    requires ready { N.tells → IsReady N.disk keeper.old.journal }
    requires near { seek.old.at < 2 ^ 62 }
    requires some { 0 < len }
    requires short { len < 2 ^ 24 }
    ensures takes { TakesHere N.disk N.tells (D.holds from.old) result seek.old seek.new len keeper.old keeper.new }
    ensures stays_used { StaysUsed keeper.old keeper.new }
    ensures same { (file : List ℕ) → D.holds from.old file → D.holds from.new file }
    ensures stays { D.tells → StaysKept (D.disk from.old) (D.disk from.new) }
{
    match seek.stands(from, len) {
        Ok(true) => take_if_next(global, keeper, &seek.ahead()[SUM_BYTES..SUM_BYTES + len]),
        Ok(false) => Ok(false),
        Err(fault) => Err(old_fault(fault)),
    }
}

/// Moves a seek past the record of `len` bytes that was copied, and counts its block.
fn pass_record(seek: &mut Seek, on: &mut ReadOn, len: usize)
    requires near { seek.old.at < 2 ^ 62 }
    requires short { len < 2 ^ 24 }
    ensures at { seek.new.at ≡ seek.old.at + (4 + len) }
    ensures seeks { (file : List ℕ) → IsSeeking file seek.old → IsSeeking file seek.new }
{
    if on.bytes == 0 {
        on.first = seek.at().saturating_sub(LATCH_AND_LENGTH);
    }
    on.bytes = on.bytes.saturating_add(LATCH_AND_LENGTH + SUM_BYTES + len);
    seek.skip(SUM_BYTES + len);
}

/// Copies the record of `len` bytes at the place of a seek, and moves past it; by one byte if no record is copied.
fn take_or_pass<D: Device, N: Device>(
    global: Global,
    keeper: &mut Keeper<N>,
    seek: &mut Seek,
    from: &mut D,
    on: &mut ReadOn,
    len: usize,
) -> Result<(), SalvageFault>
    requires usable { keeper.old.journal.usable ≡ true }
    requires ready { N.tells → IsReady N.disk keeper.old.journal }
    requires near { seek.old.at < 2 ^ 62 }
    requires some { 0 < len }
    requires short { len < 2 ^ 24 }
    ensures takes { TakesOn N.disk N.tells (D.holds from.old) result seek.old seek.new keeper.old keeper.new }
    ensures further { OnOk result (seek.old.at < seek.new.at) }
    ensures stays_used { StaysUsed keeper.old keeper.new }
    ensures same { (file : List ℕ) → D.holds from.old file → D.holds from.new file }
    ensures stays { D.tells → StaysKept (D.disk from.old) (D.disk from.new) }
{
    match take_here(global, keeper, seek, from, len) {
        Ok(true) => {
            pass_record(seek, on, len);
            Ok(())
        }
        Ok(false) => {
            seek.skip(1);
            Ok(())
        }
        Err(fault) => Err(fault),
    }
}

/// Copies the record of the next entry at the place of a seek that has bytes ahead, and moves past it; by one byte if it is not there.
fn look_here<D: Device, N: Device>(
    global: Global,
    keeper: &mut Keeper<N>,
    seek: &mut Seek,
    from: &mut D,
    on: &mut ReadOn,
) -> Result<(), SalvageFault>
    requires usable { keeper.old.journal.usable ≡ true }
    requires ready { N.tells → IsReady N.disk keeper.old.journal }
    requires near { seek.old.at < 2 ^ 62 }
    ensures takes { TakesOn N.disk N.tells (D.holds from.old) result seek.old seek.new keeper.old keeper.new }
    ensures further { OnOk result (seek.old.at < seek.new.at) }
    ensures stays_used { StaysUsed keeper.old keeper.new }
    ensures same { (file : List ℕ) → D.holds from.old file → D.holds from.new file }
    ensures stays { D.tells → StaysKept (D.disk from.old) (D.disk from.new) }
{
    let commit = keeper.machine.commit() + 1;
    match record_len(seek.ahead(), commit) {
        Some(len) => take_or_pass(global, keeper, seek, from, on, len),
        None => {
            seek.skip(1);
            Ok(())
        }
    }
}

/// The same at any place: false at the end of the file.
fn look_on<D: Device, N: Device>(
    global: Global,
    keeper: &mut Keeper<N>,
    seek: &mut Seek,
    from: &mut D,
    on: &mut ReadOn,
) -> Result<bool, SalvageFault>
    requires usable { keeper.old.journal.usable ≡ true }
    requires ready { N.tells → IsReady N.disk keeper.old.journal }
    ensures takes { TakesOn N.disk N.tells (D.holds from.old) result seek.old seek.new keeper.old keeper.new }
    ensures further { IfOk result (λ more. more ≡ true → (seek.old.at < 2 ^ 62) × (seek.old.at < seek.new.at)) }
    ensures stays_used { StaysUsed keeper.old keeper.new }
    ensures same { (file : List ℕ) → D.holds from.old file → D.holds from.new file }
    ensures stays { D.tells → StaysKept (D.disk from.old) (D.disk from.new) }
{
    if seek.at() >= FILE_BYTES_MAX {
        return Err(old_fault(JournalFault::Full));
    }
    match seek.fill(from, PEEK_BYTES) {
        Ok(()) => {
            if seek.ahead().is_empty() {
                return Ok(false);
            }
            match look_here(global, keeper, seek, from, on) {
                Ok(()) => Ok(true),
                Err(fault) => Err(fault),
            }
        }
        Err(fault) => Err(old_fault(fault)),
    }
}

/// Copies the next entries from the place of a seek on, to the end of the file.
fn look_through<D: Device, N: Device>(
    global: Global,
    keeper: &mut Keeper<N>,
    seek: &mut Seek,
    from: &mut D,
) -> Result<ReadOn, SalvageFault>
    requires usable { keeper.old.journal.usable ≡ true }
    requires ready { N.tells → IsReady N.disk keeper.old.journal }
    ensures takes { TakesOn N.disk N.tells (D.holds from.old) result seek.old seek.new keeper.old keeper.new }
    ensures stays_used { StaysUsed keeper.old keeper.new }
    ensures same { (file : List ℕ) → D.holds from.old file → D.holds from.new file }
    ensures stays { D.tells → StaysKept (D.disk from.old) (D.disk from.new) }
{
    let mut on = ReadOn {
        first: seek.at(),
        bytes: 0,
    };
    loop {
        match look_on(global, keeper, seek, from, &mut on) {
            Ok(true) => {}
            Ok(false) => return Ok(on),
            Err(fault) => return Err(fault),
        }
    }
}

/// Copies the entries that are in a file after its damage, from an offset on. Where a start of the old file stops, the history of the new one goes
/// on with each next entry whose record and checksum are at any later offset, whatever is between. What was copied is durable.
///
/// Each offset costs one test of 8 bytes, the number of the next entry. If they match, the checksum of one record is computed.
///
/// The fault is Old if the old file is not read on, and New if the new one is not written to. The new file then has the history that it had, and
/// maybe more.
pub fn read_on<D: Device, N: Device>(
    global: Global,
    keeper: &mut Keeper<N>,
    from: &mut D,
    at: usize,
) -> Result<ReadOn, SalvageFault>
    requires usable { IsUsable keeper.old }
    requires fresh { N.tells → IsFresh N.disk keeper.old }
    // For any device, by the file that the old one reads.
    ensures on { OnOk result (IsReadOn N.tells N.disk (D.holds from.old) at keeper.old keeper.new) }
    ensures any_moment { N.tells → (h : History) → Keeps N.disk h keeper.old
        → LeavesLonger h (N.disk keeper.old.journal.device) (N.disk keeper.new.journal.device) }
    ensures same { (file : List ℕ) → D.holds from.old file → D.holds from.new file }
    ensures untouched { D.tells → IsDiskUntouched (D.disk from.old) (D.disk from.new) }
{
    let Ok(mut seek) = Seek::new(global, at) else {
        return Err(SalvageFault::Old(StartFault::NoMemory));
    };
    match look_through(global, keeper, &mut seek, from) {
        Ok(on) => match commit_taken(keeper) {
            Ok(()) => Ok(on),
            Err(fault) => Err(fault),
        },
        Err(fault) => Err(fault),
    }
}
