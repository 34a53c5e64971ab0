//! Devices that are read without a write.
ghost use Rattle.std.specs.Prelude.{◌≡◌, ℕ, List, Ok};
ghost use Rattle.tb_file.specs.Creating.{IsDiskUntouched};
ghost use Rattle.tb_file.specs.Recovering.{HasStartCause};
ghost use Rattle.tb_edge_file.specs.Summaries.{ReadsQuick, ReadsWhole, summary_text};
ghost use Rattle.tb_edge_file.specs.Outcomes.{DumpsFound, DumpsFile, IsReadBy, ChecksLong, ChecksFile, PrintsText};
ghost use Rattle.tb_edge_file.specs.Ends.{OnDevice};

use crate::faults::{Failed, KeepCommandFault, disk_fault, dumped_fault};
use crate::live::Live;
use crate::naming::named;
use crate::summaries::{Found, Summary};
use std::alloc::Global;
use std::format;
use tb_file::{StartFault, read_history, read_quick, write_dump};
use tb_file_journal::Device;
use tb_records::{Sink, put_all};

/// Reads a whole file, whose records are those of one history.
#[tactic(auto, using(crate::proofs::WholeFiles::found_is))]
pub(crate) fn read_whole<D: Device>(alloc: Global, device: &mut D) -> Result<Found, StartFault>
    ensures found { (file : List ℕ) → D.holds device.old file → ReadsWhole result file }
    ensures same { (file : List ℕ) → D.holds device.old file → D.holds device.new file }
    ensures untouched { D.tells → IsDiskUntouched (D.disk device.old) (D.disk device.new) }
    ensures cause { D.tells → HasStartCause result (D.disk device.old) (D.disk device.new) }
{
    match read_history(alloc, device) {
        Ok((rules, machine, extent)) => {
            let (entries, time) = (machine.commit(), machine.time());
            drop(machine);
            Ok(Found {
                rules,
                records: extent.count,
                entries,
                time,
                end: extent.end,
            })
        }
        Err(fault) => Err(fault),
    }
}

/// Reads a whole file, and checks only the numbers and times of its entries.
fn read_quickly<D: Device>(alloc: Global, device: &mut D) -> Result<Found, StartFault>
    ensures found { (file : List ℕ) → D.holds device.old file → ReadsQuick result file }
    ensures same { (file : List ℕ) → D.holds device.old file → D.holds device.new file }
    ensures untouched { D.tells → IsDiskUntouched (D.disk device.old) (D.disk device.new) }
    ensures cause { D.tells → HasStartCause result (D.disk device.old) (D.disk device.new) }
{
    match read_quick(alloc, device) {
        Ok((rules, time, extent)) => Ok(Found {
            rules,
            records: extent.count,
            entries: (extent.count as u64).saturating_sub(1),
            time,
            end: extent.end,
        }),
        Err(why) => Err(why),
    }
}

/// Reads a whole file, quickly or as one history.
fn read_by<D: Device>(alloc: Global, device: &mut D, quick: bool) -> Result<Found, StartFault>
    ensures { IsReadBy D.Device quick result device.old device.new }
{
    if quick {
        return read_quickly(alloc, device);
    }
    read_whole(alloc, device)
}

/// Writes the dump of a file of which this was read.
fn dump_found<D: Device, W: Sink>(
    alloc: Global,
    device: &mut D,
    found: Found,
    writer: &mut W,
) -> Result<(), KeepCommandFault>
    ensures { OnDevice W.Sink (DumpsFound D.Device (Ok found) result) device writer }
{
    match write_dump(alloc, device, found.rules, writer) {
        Ok(()) => Ok(()),
        Err(fault) => Err(dumped_fault(fault)),
    }
}

/// Writes the history of a file as a dump. The file is read twice: all of it is read before anything is written.
pub(crate) fn dump<D: Device, W: Sink>(
    alloc: Global,
    device: &mut D,
    writer: &mut W,
) -> Result<(), KeepCommandFault>
    ensures { OnDevice W.Sink (DumpsFile D.Device result) device writer }
{
    match read_whole(alloc, device) {
        Ok(found) => dump_found(alloc, device, found, writer),
        Err(fault) => Err(named(alloc, device, fault)),
    }
}

/// Writes what is in a file.
fn report<W: Sink>(alloc: Global, summary: Summary, writer: &mut W) -> Result<(), KeepCommandFault>
    ensures { PrintsText (summary_text summary) result (W.output writer.old) (W.output writer.new) }
{
    match format!(in alloc; "{summary}") {
        Ok(text) => match put_all(writer, text.as_bytes()) {
            Ok(()) => Ok(()),
            Err(_) => Err(KeepCommandFault::Device(Failed::Output)),
        },
        Err(_) => Err(KeepCommandFault::NoMemory),
    }
}

/// Reads a whole file of this many bytes, and writes what is in it.
fn check_long<D: Device, W: Sink>(
    alloc: Global,
    device: &mut D,
    len: usize,
    quick: bool,
    writer: &mut W,
) -> Result<(), KeepCommandFault>
    ensures { OnDevice W.Sink (ChecksLong D.Device len quick result) device writer }
{
    match read_by(alloc, device, quick) {
        Ok(found) => report(alloc, found.summary(len, quick), writer),
        Err(fault) => Err(named(alloc, device, fault)),
    }
}

/// Reads a whole file, and writes what is in it, and how many bytes are after that in the file by now.
pub(crate) fn check<D: Live, W: Sink>(
    alloc: Global,
    device: &mut D,
    quick: bool,
    writer: &mut W,
) -> Result<(), KeepCommandFault>
    ensures { OnDevice W.Sink (ChecksFile D.Device D.whole quick result) device writer }
{
    match device.file_len() {
        Ok(len) => check_long(alloc, device, len, quick, writer),
        Err(fault) => Err(disk_fault(fault)),
    }
}
