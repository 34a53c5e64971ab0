//! The history of a kept file, read without a write.
ghost use Rattle.std.specs.Prelude.{◌≡◌, ℕ, true, List, [], IfOk};
ghost use Rattle.tb_records.specs.Transport.{IsSent};
ghost use Rattle.tb_file_journal.specs.Scans.{GoesFurther};
ghost use Rattle.tb_file.specs.private.Entering.{FindsHeadRules, HeadCause, OfBehind, UnreadCause, head_of};
ghost use Rattle.tb_file.specs.RecordSteps.{StaysKept, OfExtent};
ghost use Rattle.tb_file.specs.Creating.{IsDiskUntouched};
ghost use Rattle.tb_file.specs.Recovering.{HasStartCause};
ghost use Rattle.tb_file.specs.Reading.{RulesAnswer, RulesIn, HasRules, IsHistory, FindsHistory, Dumps, HasDumpCause, OfRead};
ghost use Rattle.tb_file.specs.Following.{HasLaterCause, WritesEntries};
ghost use Rattle.tb_file.specs.private.Sending.{SendsNext, SendsAll, above};
ghost use Rattle.tb_file.specs.private.Taking.{IsNotTaken};

use crate::faults::{DumpFault, SalvageFault, StartFault};
use crate::recovering::{Rules, read_head, read_record, replay_behind_head};
use crate::rounds::BATCH_BYTES_MAX;
use crate::torn::torn_behind;
use std::alloc::Global;
use tb_file_journal::{Device, Extent, Scan};
use tb_machine::Machine;
use tb_records::dumps::send_head;
use tb_records::{DumpHead, FrameFault, Sink, put_all};

/// The rules that a head names.
fn rules_in(head: &[u8]) -> Result<Rules, StartFault>
    ensures { RulesIn result head.now }
{
    match read_head(head) {
        Some((profile, clients_max)) => Ok(Rules {
            profile,
            clients_max,
        }),
        None => Err(StartFault::Head),
    }
}

/// Reads the first record of a file of which nothing was read, and returns the rules that it names.
pub(crate) fn first_rules<D: Device>(scan: &mut Scan, device: &mut D) -> Result<Rules, StartFault>
    ensures rules { OfBehind (D.holds device.old) [] scan.old (FindsHeadRules result scan.new) }
    ensures same { (file : List ℕ) → D.holds device.old file → D.holds device.new file }
    ensures stays { D.tells → StaysKept (D.disk device.old) (D.disk device.new) }
    ensures cause { D.tells → UnreadCause result scan.old (D.disk device.old) (D.disk device.new) }
    ensures unsalvaged { OfBehind (D.holds device.old) [] scan.old (IsNotTaken result) }
{
    match read_record(scan, device) {
        Ok(true) => rules_in(scan.record()),
        Ok(false) => Err(StartFault::Head),
        Err(fault) => Err(StartFault::Journal(fault)),
    }
}

/// The rules that a file's head names. The fault is Head if there is no head. No more of the file is read than a piece, or its first record.
pub fn read_rules<D: Device>(global: Global, device: &mut D) -> Result<Rules, StartFault>
    // For any device, by the file that it reads.
    ensures rules { (file : List ℕ) → D.holds device.old file → RulesAnswer result file }
    ensures same { (file : List ℕ) → D.holds device.old file → D.holds device.new file }
    ensures untouched { D.tells → IsDiskUntouched (D.disk device.old) (D.disk device.new) }
    ensures cause { D.tells → HasStartCause result (D.disk device.old) (D.disk device.new) }
{
    match Scan::start(global, device) {
        Ok(mut scan) => first_rules(&mut scan, device),
        Err(fault) => Err(StartFault::Journal(fault)),
    }
}

/// The rules of a file, the machine after its entries, and where its records end. It is read once.
pub fn read_history<D: Device>(
    global: Global,
    device: &mut D,
) -> Result<(Rules, Machine<Global>, Extent), StartFault>
    // For any device, by the file that it reads.
    ensures found { (file : List ℕ) → D.holds device.old file → FindsHistory result file }
    ensures same { (file : List ℕ) → D.holds device.old file → D.holds device.new file }
    ensures untouched { D.tells → IsDiskUntouched (D.disk device.old) (D.disk device.new) }
    ensures cause { D.tells → HasStartCause result (D.disk device.old) (D.disk device.new) }
{
    match Scan::start(global, device) {
        Ok(mut scan) => history_by(global, &mut scan, device),
        Err(fault) => Err(StartFault::Journal(fault)),
    }
}

/// The history of a file of which nothing was read.
fn history_by<D: Device>(
    global: Global,
    scan: &mut Scan,
    device: &mut D,
) -> Result<(Rules, Machine<Global>, Extent), StartFault>
    ensures found { OfBehind (D.holds device.old) [] scan.old (FindsHistory result) }
    ensures same { (file : List ℕ) → D.holds device.old file → D.holds device.new file }
    ensures stays { D.tells → StaysKept (D.disk device.old) (D.disk device.new) }
    ensures cause { D.tells → UnreadCause result scan.old (D.disk device.old) (D.disk device.new) }
{
    match first_rules(scan, device) {
        Ok(rules) => history_behind(global, rules, scan, device),
        Err(fault) => Err(fault),
    }
}

/// The history of a file of these rules whose head was read.
fn history_behind<D: Device>(
    global: Global,
    rules: Rules,
    scan: &mut Scan,
    device: &mut D,
) -> Result<(Rules, Machine<Global>, Extent), StartFault>
    ensures found { OfBehind (D.holds device.old) (head_of rules) scan.old (FindsHistory result) }
    ensures same { (file : List ℕ) → D.holds device.old file → D.holds device.new file }
    ensures stays { D.tells → StaysKept (D.disk device.old) (D.disk device.new) }
    ensures cause { D.tells → HeadCause result rules scan.old (D.disk device.old) (D.disk device.new) }
{
    match replay_behind_head(global, global, &rules, scan, device) {
        Ok((machine, extent)) => history_of(rules, machine, extent, device),
        Err(fault) => Err(fault),
    }
}

/// The history of a file that was read to this extent. The file is refused, as by a start, if more torn bytes are after its records than one batch
/// can have.
fn history_of<D: Device>(
    rules: Rules,
    machine: Machine<Global>,
    extent: Extent,
    device: &mut D,
) -> Result<(Rules, Machine<Global>, Extent), StartFault>
    ensures found { OfExtent (D.holds device.old) extent
        (λ file. HasRules rules file → IsHistory rules machine file → FindsHistory result file) }
    ensures same { (file : List ℕ) → D.holds device.old file → D.holds device.new file }
    ensures stays { D.tells → StaysKept (D.disk device.old) (D.disk device.new) }
    ensures cause { D.tells → HasStartCause result (D.disk device.old) (D.disk device.new) }
{
    match torn_behind(device, extent, BATCH_BYTES_MAX) {
        Ok(_) => Ok((rules, machine, extent)),
        Err(fault) => {
            drop(machine);
            Err(StartFault::from(fault))
        }
    }
}

/// Writes the record of an entry of this commit number, if that is above `after`.
fn send_above<W: Sink>(
    commit: u64,
    after: u64,
    bytes: &[u8],
    writer: &mut W,
) -> Result<(), FrameFault>
    ensures { IsSent result (above commit after bytes.now) (W.output writer.old)
        (W.output writer.new) }
{
    if commit <= after {
        return Ok(());
    }
    put_all(writer, bytes)
}

/// Reads the next record, and writes it if its entry's commit number is above `after`: false if there is no record. The head is record 0, so each
/// record after it has the number that its entry has.
fn send_next<D: Device, W: Sink>(
    scan: &mut Scan,
    device: &mut D,
    after: u64,
    writer: &mut W,
) -> Result<bool, DumpFault>
    ensures sends { OfRead (D.holds device.old) scan.old
        (λ read file. SendsNext result after read file scan.new (W.output writer.old) (W.output writer.new)) }
    ensures same { (file : List ℕ) → D.holds device.old file → D.holds device.new file }
    ensures stays { D.tells → StaysKept (D.disk device.old) (D.disk device.new) }
    ensures cause { D.tells → HasLaterCause result scan.old (D.disk device.old) (D.disk device.new) }
    ensures further { IfOk result (λ more. more ≡ true → GoesFurther scan.old scan.new) }
{
    let commit = scan.extent().count as u64;
    match read_record(scan, device) {
        Ok(true) => match send_above(commit, after, scan.record(), writer) {
            Ok(()) => Ok(true),
            Err(fault) => Err(DumpFault::Writer(fault)),
        },
        Ok(false) => Ok(false),
        Err(fault) => Err(DumpFault::Journal(fault)),
    }
}

/// Writes the remaining entries that have a commit number above `after`, one after another.
fn send_records<D: Device, W: Sink>(
    scan: &mut Scan,
    device: &mut D,
    after: u64,
    writer: &mut W,
) -> Result<(), DumpFault>
    ensures sends { OfRead (D.holds device.old) scan.old
        (λ read file. SendsAll result after read file scan.new (W.output writer.old) (W.output writer.new)) }
    ensures same { (file : List ℕ) → D.holds device.old file → D.holds device.new file }
    ensures stays { D.tells → StaysKept (D.disk device.old) (D.disk device.new) }
    ensures cause { D.tells → HasLaterCause result scan.old (D.disk device.old) (D.disk device.new) }
{
    loop {
        match send_next(scan, device, after, writer) {
            Ok(true) => {}
            Ok(false) => return Ok(()),
            Err(fault) => return Err(fault),
        }
    }
}

/// Writes the entries of a file that were not read yet and have a commit number above `after`, one after another and without a head, as a dump has
/// them. Returns how many entries were read of the file so far, which is the commit number of the last. If that is not above `after`, nothing is
/// written, which is no fault.
///
/// A scan of which nothing was read skips the head. A scan that came to the end goes on if the file has more records, and each is read and written
/// once. The fault is Writer, with Device, if the writer returns an error, or accepts none of the remaining bytes. It is Journal if the file is not
/// read to its end. Either way a prefix was written.
pub fn write_entries<D: Device, W: Sink>(
    scan: &mut Scan,
    device: &mut D,
    writer: &mut W,
    after: u64,
) -> Result<u64, DumpFault>
    // For any device, by the file that it reads.
    ensures writes { OfRead (D.holds device.old) scan.old
        (λ read file. WritesEntries result after read file scan.new (W.output writer.old) (W.output writer.new)) }
    ensures same { (file : List ℕ) → D.holds device.old file → D.holds device.new file }
    ensures untouched { D.tells → IsDiskUntouched (D.disk device.old) (D.disk device.new) }
    ensures cause { D.tells → HasLaterCause result scan.old (D.disk device.old) (D.disk device.new) }
{
    match send_records(scan, device, after, writer) {
        Ok(()) => Ok((scan.extent().count as u64).saturating_sub(1)),
        Err(fault) => Err(fault),
    }
}

/// Writes the dump of a file of which nothing was read.
fn dump_by<D: Device, W: Sink>(
    scan: &mut Scan,
    device: &mut D,
    rules: Rules,
    writer: &mut W,
) -> Result<(), DumpFault>
    ensures dumps { OfBehind (D.holds device.old) [] scan.old
        (λ file. Dumps result rules file (W.output writer.old) (W.output writer.new)) }
    ensures same { (file : List ℕ) → D.holds device.old file → D.holds device.new file }
    ensures stays { D.tells → StaysKept (D.disk device.old) (D.disk device.new) }
    ensures cause { D.tells → HasLaterCause result scan.old (D.disk device.old) (D.disk device.new) }
{
    let head = DumpHead {
        profile: rules.profile,
        clients_max: rules.clients_max,
    };
    match send_head(writer, head) {
        Ok(()) => send_records(scan, device, 0, writer),
        Err(fault) => Err(DumpFault::Writer(fault)),
    }
}

/// Writes the history of a file of these rules as a dump, which `replay` of tb_machine reads. The file is read once more for it. The fault is
/// Writer, with Device, if the writer returns an error, or accepts none of the remaining bytes. It is Journal if the file is not read to its end.
/// Either way a prefix was written.
pub fn write_dump<D: Device, W: Sink>(
    global: Global,
    device: &mut D,
    rules: Rules,
    writer: &mut W,
) -> Result<(), DumpFault>
    // For any device, by the file that it reads.
    ensures dumps { (file : List ℕ) → D.holds device.old file
        → Dumps result rules file (W.output writer.old) (W.output writer.new) }
    ensures same { (file : List ℕ) → D.holds device.old file → D.holds device.new file }
    ensures untouched { D.tells → IsDiskUntouched (D.disk device.old) (D.disk device.new) }
    ensures cause { D.tells → HasDumpCause result (D.disk device.old) (D.disk device.new) }
{
    match Scan::start(global, device) {
        Ok(mut scan) => dump_by(&mut scan, device, rules, writer),
        Err(fault) => Err(DumpFault::Journal(fault)),
    }
}
