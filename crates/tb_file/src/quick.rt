//! The numbers and times of the entries of a kept file, read without building the ledger.
ghost use Rattle.std.specs.Prelude.{◌≡◌, ℕ, List, [], IfOk, IfSome};
ghost use Rattle.tb_file_journal.specs.Scans.{GoesFurther};
ghost use Rattle.tb_file.specs.Creating.{IsDiskUntouched};
ghost use Rattle.tb_file.specs.Quick.{FindsOrder, IsInOrder, misplaced};
ghost use Rattle.tb_file.specs.Reading.{OfRead};
ghost use Rattle.tb_file.specs.Recovering.{HasStartCause};
ghost use Rattle.tb_file.specs.private.Entering.{HeadCause, OfBehind, ReadCause, UnreadCause, head_of};
ghost use Rattle.tb_file.specs.RecordSteps.{OfExtent, StaysKept};
ghost use Rattle.tb_file.specs.private.Passing.{PassesAll, PassesNext, ReadsPlaced};

use crate::dumps::first_rules;
use crate::faults::StartFault;
use crate::recovering::{Rules, read_record};
use crate::rounds::BATCH_BYTES_MAX;
use crate::torn::torn_behind;
use std::alloc::Global;
use tb_file_journal::{Device, Extent, Scan};
use tb_machine::{Entry, RestoreFault, Unfit, read_entry};
use tb_records::{FrameFault, LAST_MOMENT};

/// The first check that an entry fails, if it must have this commit number and follow an entry of this time.
fn misplaced(place: u64, time: u64, entry: &Entry) -> Option<Unfit>
    ensures { result ≡ misplaced place time entry.now }
{
    let events = entry.request.body().event_count() as u64;
    let least = time.saturating_add(events.max(1));
    if entry.commit != place {
        Some(Unfit::Commit)
    } else if entry.time < least || entry.time > LAST_MOMENT {
        Some(Unfit::Time)
    } else {
        None
    }
}

/// The time of the entry of a record, which must have this commit number and follow an entry of this time.
fn read_placed(global: Global, place: u64, time: u64, bytes: &[u8]) -> Result<u64, StartFault>
    ensures { ReadsPlaced result place time bytes.now }
{
    match read_entry(global, bytes) {
        Ok(entry) => {
            let found = misplaced(place, time, &entry);
            let later = entry.time;
            drop(entry);
            match found {
                None => Ok(later),
                Some(cause) => Err(StartFault::Entry(RestoreFault { place, cause })),
            }
        }
        Err(FrameFault::NoMemory) => Err(StartFault::NoMemory),
        Err(fault) => Err(StartFault::Record { place, fault }),
    }
}

/// Reads the next record, whose entry must follow one of this time, and returns that entry's time; None if there is no record. The head is record
/// 0, so each record after it has the number that its entry has.
fn pass_next<D: Device>(
    global: Global,
    time: u64,
    scan: &mut Scan,
    device: &mut D,
) -> Result<Option<u64>, StartFault>
    ensures passes { OfRead (D.holds device.old) scan.old (λ read file. PassesNext result time read file scan.new) }
    ensures same { (file : List ℕ) → D.holds device.old file → D.holds device.new file }
    ensures stays { D.tells → StaysKept (D.disk device.old) (D.disk device.new) }
    ensures cause { D.tells → ReadCause result scan.old (D.disk device.old) (D.disk device.new) }
    ensures further { IfOk result (λ next. IfSome next (λ later. GoesFurther scan.old scan.new)) }
{
    let place = scan.extent().count as u64;
    match read_record(scan, device) {
        Ok(true) => match read_placed(global, place, time, scan.record()) {
            Ok(next) => Ok(Some(next)),
            Err(fault) => Err(fault),
        },
        Ok(false) => Ok(None),
        Err(fault) => Err(StartFault::Journal(fault)),
    }
}

/// Reads the remaining records, and returns the time of the last entry; 0 if there is no entry.
fn pass_all<D: Device>(global: Global, scan: &mut Scan, device: &mut D) -> Result<u64, StartFault>
    ensures passes { OfRead (D.holds device.old) scan.old (λ read file. PassesAll result read file scan.new) }
    ensures same { (file : List ℕ) → D.holds device.old file → D.holds device.new file }
    ensures stays { D.tells → StaysKept (D.disk device.old) (D.disk device.new) }
    ensures cause { D.tells → ReadCause result scan.old (D.disk device.old) (D.disk device.new) }
{
    let mut time = 0;
    loop {
        match pass_next(global, time, scan, device) {
            Ok(Some(next)) => time = next,
            Ok(None) => return Ok(time),
            Err(fault) => return Err(fault),
        }
    }
}

/// What was read of a file to this extent. The file is refused, as by a start, if more torn bytes are after its records than one batch can have.
fn order_of<D: Device>(
    rules: Rules,
    time: u64,
    extent: Extent,
    device: &mut D,
) -> Result<(Rules, u64, Extent), StartFault>
    ensures found { OfExtent (D.holds device.old) extent (λ file. IsInOrder rules time file → FindsOrder result file) }
    ensures same { (file : List ℕ) → D.holds device.old file → D.holds device.new file }
    ensures stays { D.tells → StaysKept (D.disk device.old) (D.disk device.new) }
    ensures cause { D.tells → HasStartCause result (D.disk device.old) (D.disk device.new) }
{
    match torn_behind(device, extent, BATCH_BYTES_MAX) {
        Ok(_) => Ok((rules, time, extent)),
        Err(fault) => Err(StartFault::from(fault)),
    }
}

/// The same for a file of these rules whose head was read.
fn order_behind<D: Device>(
    global: Global,
    rules: Rules,
    scan: &mut Scan,
    device: &mut D,
) -> Result<(Rules, u64, Extent), StartFault>
    ensures found { OfBehind (D.holds device.old) (head_of rules) scan.old (FindsOrder result) }
    ensures same { (file : List ℕ) → D.holds device.old file → D.holds device.new file }
    ensures stays { D.tells → StaysKept (D.disk device.old) (D.disk device.new) }
    ensures cause { D.tells → HeadCause result rules scan.old (D.disk device.old) (D.disk device.new) }
{
    rules.expose_bound();
    match pass_all(global, scan, device) {
        Ok(time) => order_of(rules, time, scan.extent(), device),
        Err(fault) => Err(fault),
    }
}

/// The same for a file of which nothing was read.
fn order_by<D: Device>(
    global: Global,
    scan: &mut Scan,
    device: &mut D,
) -> Result<(Rules, u64, Extent), StartFault>
    ensures found { OfBehind (D.holds device.old) [] scan.old (FindsOrder result) }
    ensures same { (file : List ℕ) → D.holds device.old file → D.holds device.new file }
    ensures stays { D.tells → StaysKept (D.disk device.old) (D.disk device.new) }
    ensures cause { D.tells → UnreadCause result scan.old (D.disk device.old) (D.disk device.new) }
{
    match first_rules(scan, device) {
        Ok(rules) => order_behind(global, rules, scan, device),
        Err(fault) => Err(fault),
    }
}

/// The rules of a file, the time of its last entry (0 without one), and where its records end. Only the numbers and times of its entries are read,
/// and the ledger is not built: it needs no more memory than one piece of the file and one record. The file is read once.
///
/// Each checksum and the head are checked, and for each entry the frame of its request, its commit number and its time. The faults are those of
/// [`read_history`](crate::read_history), except that no entry is refused as NotNew.
pub fn read_quick<D: Device>(
    global: Global,
    device: &mut D,
) -> Result<(Rules, u64, Extent), StartFault>
    // For any device, by the file that it reads.
    ensures found { (file : List ℕ) → D.holds device.old file → FindsOrder result file }
    ensures same { (file : List ℕ) → D.holds device.old file → D.holds device.new file }
    ensures untouched { D.tells → IsDiskUntouched (D.disk device.old) (D.disk device.new) }
    ensures cause { D.tells → HasStartCause result (D.disk device.old) (D.disk device.new) }
{
    match Scan::start(global, device) {
        Ok(mut scan) => order_by(global, &mut scan, device),
        Err(fault) => Err(StartFault::Journal(fault)),
    }
}
