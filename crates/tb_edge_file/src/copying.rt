//! A file copied into a new one: what can be read of it, or all of it if it is whole.
ghost use Rattle.std.specs.Prelude.{◌≡◌, true};
ghost use Rattle.tb_edge_file.specs.Copies.{copied_of, is_mended, mended_line, or_lost, rescued_text, refused_by, EndsCopy, Reports, NamesCopy, Rescues, EndsOrReadsOn, CopiesLong, CopiesFile, CopiesOver};
ghost use Rattle.tb_file.specs.Keeping.{IsUsable, IsFresh};
ghost use Rattle.tb_edge_file.specs.Outcomes.{PrintsWhole, PrintsText};
ghost use Rattle.tb_edge_file.specs.Ends.{known_reading};
ghost use Rattle.tb_edge_file.specs.private.Stages.{CopiesHeadedOn, CopiesIntoOn, CopiesMendedOn, MakesCopyOn, NamesCopiedOn, NotesMendedOn};

use crate::copies::{Copied, damage_of, salvage_outcome};
use crate::ends::Files;
use crate::faults::{Failed, KeepCommandFault, Loss, disk_fault, new_fault, started_fault};
use crate::live::Live;
use crate::mending::Mended;
use crate::naming::named;
use crate::openers::Opener;
use crate::rescues::{Finished, Rescued, rescued_of};
use std::alloc::Global;
use std::format;
use tb_file::{NotSalvaged, SalvageFault, Salvaged, StartFault, read_on, read_rules, salvage};
use tb_file_journal::{Device, LATCH_BYTES};
use tb_records::{Sink, put_all};

/// What is reported of a file of this many bytes that was copied.
fn copied_of<N: Device>(salvaged: &Salvaged<N>, len: usize) -> Copied
    ensures { result ≡ copied_of len salvaged.now }
{
    let machine = salvaged.keeper.machine();
    Copied {
        entries: machine.commit(),
        time: machine.time(),
        end: salvaged.end,
        behind: len
            .saturating_sub(salvaged.end as usize)
            .saturating_sub(LATCH_BYTES),
        damage: damage_of(salvaged.stop),
    }
}

/// Why a copy that ended so is refused: None if the file need not be whole.
fn refused_by(whole: bool, stop: Option<StartFault>) -> Option<StartFault>
    ensures { result ≡ refused_by whole stop }
{
    if whole { stop } else { None }
}

/// The new file of what was copied of a file of this many bytes; or a damaged one is refused if it was to be whole.
fn end_copy<D: Device, N: Device + Drop>(
    alloc: Global,
    from: &mut D,
    salvaged: Salvaged<N>,
    len: usize,
    whole: bool,
) -> Result<Finished<N>, KeepCommandFault>
    ensures { EndsCopy D.Device (refused_by whole salvaged.stop) (copied_of len salvaged) salvaged.keeper.journal.device result from.old from.new }
{
    let copied = copied_of(&salvaged, len);
    let stop = salvaged.stop;
    let device = salvaged.keeper.into_device();
    match refused_by(whole, stop) {
        Some(fault) => {
            drop(device);
            Err(named(alloc, from, fault))
        }
        None => Ok(Finished {
            device,
            rescued: Rescued {
                copied,
                more: 0,
                first: 0,
            },
        }),
    }
}

/// The fault of a file that was not copied, with what there is to say of it.
fn named_copy<D: Device>(alloc: Global, from: &mut D, fault: SalvageFault) -> KeepCommandFault
    ensures { NamesCopy D.Device fault result from.old from.new }
{
    match fault {
        SalvageFault::Old(fault) => named(alloc, from, fault),
        SalvageFault::New(fault) => new_fault(started_fault(fault)),
    }
}

/// The same for a new file that was not made to its end.
fn uncopied<D: Device, N: Device + Drop>(
    alloc: Global,
    from: &mut D,
    failed: NotSalvaged<N>,
) -> KeepCommandFault
    ensures { NamesCopy D.Device failed.fault result from.old from.new }
{
    let NotSalvaged { device, fault } = failed;
    drop(device);
    named_copy(alloc, from, fault)
}

/// Writes what was copied of a file, and read on after its damage.
fn report_rescued<W: Sink>(
    alloc: Global,
    rescued: Rescued,
    writer: &mut W,
) -> Result<(), KeepCommandFault>
    ensures { PrintsText (rescued_text rescued) result (W.output writer.old) (W.output writer.new) }
{
    match format!(in alloc; "{rescued}") {
        Ok(lines) => match put_all(writer, lines.as_bytes()) {
            Ok(()) => Ok(()),
            Err(_) => Err(KeepCommandFault::Device(Failed::Output)),
        },
        Err(_) => Err(KeepCommandFault::NoMemory),
    }
}

/// Writes what was copied of a file, and ends with what is lost of it.
fn end_rescue<W: Sink>(
    alloc: Global,
    rescued: Rescued,
    writer: &mut W,
) -> Result<(), KeepCommandFault>
    ensures { Reports rescued result (W.output writer.old) (W.output writer.new) }
{
    let reported = report_rescued(alloc, rescued, writer);
    salvage_outcome(rescued.copied, reported)
}

/// Reads a file of this many bytes on after what was copied of it.
fn rescue<D: Live, N: Device + Drop>(
    alloc: Global,
    from: &mut D,
    len: usize,
    salvaged: Salvaged<N>,
) -> Result<Finished<N>, KeepCommandFault>
    requires usable { IsUsable salvaged.keeper }
    requires fresh { N.tells → IsFresh N.disk salvaged.keeper }
    ensures { Rescues (known_reading D.Device D.whole) N.Device len salvaged result from.old from.new }
{
    let copied = copied_of(&salvaged, len);
    let end = salvaged.end as usize;
    let mut keeper = salvaged.keeper;
    from.look_behind();
    match read_on(alloc, &mut keeper, from, end) {
        Ok(on) => {
            let rescued = rescued_of(copied, &keeper, on);
            let device = keeper.into_device();
            Ok(Finished { device, rescued })
        }
        Err(fault) => {
            drop(keeper);
            Err(named_copy(alloc, from, fault))
        }
    }
}

/// Ends the copy of a file that is to be whole, and reads any other on.
fn end_by<D: Live, N: Device + Drop>(
    alloc: Global,
    from: &mut D,
    len: usize,
    salvaged: Salvaged<N>,
    whole: bool,
) -> Result<Finished<N>, KeepCommandFault>
    requires usable { IsUsable salvaged.keeper }
    requires fresh { N.tells → IsFresh N.disk salvaged.keeper }
    ensures { EndsOrReadsOn (known_reading D.Device D.whole) N.Device whole len salvaged result from.old from.new }
{
    if whole {
        return end_copy(alloc, from, salvaged, len, true);
    }
    rescue(alloc, from, len, salvaged)
}

/// Copies a file of this many bytes into a new one.
fn copy_long<D: Live, N: Device + Drop>(
    alloc: Global,
    from: &mut D,
    len: usize,
    into: N,
    whole: bool,
) -> Result<Finished<N>, KeepCommandFault>
    requires { N.tells → (N.disk into).sound ≡ true }
    ensures { CopiesLong (known_reading D.Device D.whole) N.Device len whole result into from.old from.new }
{
    match salvage(alloc, from, into) {
        Ok(salvaged) => end_by(alloc, from, len, salvaged, whole),
        Err(failed) => Err(uncopied(alloc, from, failed)),
    }
}

/// Copies a file into a new one, up to its first damage and then each next entry that is after it. A damaged file that is to be whole is refused:
/// the new one then has what is before the damage.
pub(crate) fn copy<D: Live, N: Device + Drop>(
    alloc: Global,
    from: &mut D,
    into: N,
    whole: bool,
) -> Result<Finished<N>, KeepCommandFault>
    requires { N.tells → (N.disk into).sound ≡ true }
    ensures { CopiesFile (known_reading D.Device D.whole) N.Device whole result into from.old from.new }
{
    match from.file_len() {
        Ok(len) => copy_long(alloc, from, len, into, whole),
        Err(fault) => {
            drop(into);
            Err(disk_fault(fault))
        }
    }
}

/// Gives a new file with all that was copied its name, and writes what was copied.
fn name_copied<O: Opener, W: Sink>(
    alloc: Global,
    opener: &mut O,
    finished: Finished<O::File>,
    new: &str,
    writer: &mut W,
) -> Result<(), KeepCommandFault>
    ensures { NamesCopiedOn ⟦<O as Files>⟧.its W.Sink new.now finished result opener writer }
{
    let Finished { device, rescued } = finished;
    match opener.name_new(device, new) {
        Ok(()) => end_rescue(alloc, rescued, writer),
        Err(fault) => Err(KeepCommandFault::Naming(fault)),
    }
}

/// Copies a file into one that was made for a name, which it then gets.
fn copy_into<O: Opener, D: Live, W: Sink>(
    alloc: Global,
    opener: &mut O,
    into: O::File,
    new: &str,
    from: &mut D,
    whole: bool,
    writer: &mut W,
) -> Result<(), KeepCommandFault>
    requires { O.File.tells → (O.File.disk into).sound ≡ true }
    ensures { CopiesIntoOn ⟦<O as Files>⟧.its (known_reading D.Device D.whole) W.Sink new.now into whole result opener from writer }
{
    match copy(alloc, from, into, whole) {
        Ok(finished) => name_copied(alloc, opener, finished, new, writer),
        Err(fault) => Err(fault),
    }
}

/// Makes the new file of a name, and copies a file into it.
fn copy_made<O: Opener, D: Live, W: Sink>(
    alloc: Global,
    opener: &mut O,
    new: &str,
    from: &mut D,
    whole: bool,
    writer: &mut W,
) -> Result<(), KeepCommandFault>
    ensures { MakesCopyOn ⟦<O as Files>⟧.its (known_reading D.Device D.whole) W.Sink new.now whole result opener from writer }
{
    let made = opener.make_new(new);
    match made {
        Ok(into) => copy_into(alloc, opener, into, new, from, whole, writer),
        Err(fault) => Err(KeepCommandFault::Making(fault)),
    }
}

/// Says whether a file that is refused is read as a journal whatever its first bytes are.
fn is_mended(whole: bool, fault: KeepCommandFault) -> bool
    ensures { result ≡ is_mended whole fault }
{
    match fault {
        KeepCommandFault::NotAJournal(_) => !whole,
        _ => false,
    }
}

/// What is reported of a file that was copied, and whose first bytes are not a journal's.
const MENDED: &str = "damaged magic: the first 8 bytes are not a journal's\n";

/// Writes that the first bytes of a file that was copied are not a journal's.
pub(crate) fn print_mended<W: Sink>(writer: &mut W) -> Result<(), KeepCommandFault>
    ensures { PrintsWhole mended_line result (W.output writer.old) (W.output writer.new) }
{
    match put_all(writer, MENDED.as_bytes()) {
        Ok(()) => Ok(()),
        Err(_) => Err(KeepCommandFault::Device(Failed::Output)),
    }
}

/// The outcome of a last line about a file of which this is lost.
fn or_lost(loss: Loss, printed: Result<(), KeepCommandFault>) -> Result<(), KeepCommandFault>
    ensures { result ≡ or_lost loss printed }
{
    match printed {
        Ok(()) => Err(KeepCommandFault::Lost(loss)),
        Err(fault) => Err(fault),
    }
}

/// Reports of a file that was copied, all of it or not, that its first bytes are not a journal's.
fn note_mended<W: Sink>(
    copied: Result<(), KeepCommandFault>,
    writer: &mut W,
) -> Result<(), KeepCommandFault>
    ensures { NotesMendedOn W.Sink copied result writer }
{
    match copied {
        Ok(()) => print_mended(writer),
        Err(KeepCommandFault::Lost(loss)) => or_lost(loss, print_mended(writer)),
        Err(fault) => Err(fault),
    }
}

/// Copies a file that is refused because of its first bytes as one that begins as a journal. If it does not go on as a ledger's file, it is
/// refused as before.
fn copy_mended<O: Opener, W: Sink>(
    alloc: Global,
    opener: &mut O,
    from: O::Reading,
    refused: KeepCommandFault,
    new: &str,
    writer: &mut W,
) -> Result<(), KeepCommandFault>
    ensures { CopiesMendedOn ⟦<O as Files>⟧.its W.Sink new.now refused result from opener writer }
{
    let mut from = from;
    from.look_behind();
    let mut from = Mended::new(from);
    let read = read_rules(alloc, &mut from);
    match read {
        Ok(_rules) => {
            let copied = copy_made(alloc, opener, new, &mut from, false, writer);
            drop(from);
            note_mended(copied, writer)
        }
        Err(_other) => {
            drop(from);
            Err(refused)
        }
    }
}

/// Copies a file into a new one of a name, which is made if the file begins as a ledger's. Otherwise the file is refused, or its first bytes are
/// mended.
fn copy_headed<O: Opener, W: Sink>(
    alloc: Global,
    opener: &mut O,
    from: O::Reading,
    new: &str,
    whole: bool,
    writer: &mut W,
) -> Result<(), KeepCommandFault>
    ensures { CopiesHeadedOn ⟦<O as Files>⟧.its W.Sink new.now whole result from opener writer }
{
    let mut from = from;
    let read = read_rules(alloc, &mut from);
    match read {
        Ok(_rules) => {
            let copied = copy_made(alloc, opener, new, &mut from, whole, writer);
            drop(from);
            copied
        }
        Err(fault) => {
            let refused = named(alloc, &mut from, fault);
            if is_mended(whole, refused) {
                return copy_mended(alloc, opener, from, refused, new, writer);
            }
            drop(from);
            Err(refused)
        }
    }
}

/// Copies the file of a name into a new one of another name, and writes what was copied.
pub(crate) fn copy_over<O: Opener, W: Sink>(
    alloc: Global,
    opener: &mut O,
    name: &str,
    new: &str,
    whole: bool,
    writer: &mut W,
) -> Result<(), KeepCommandFault>
    ensures { CopiesOver ⟦<O as Files>⟧.its new.now name.now opener.old opener.new whole result
        (W.output writer.old) (W.output writer.new) }
{
    let opened = opener.open(name);
    match opened {
        Ok(device) => copy_headed(alloc, opener, device, new, whole, writer),
        Err(fault) => Err(KeepCommandFault::Opening(fault)),
    }
}
