//! What there is to say of a file that is refused.
ghost use Rattle.std.specs.Prelude.{◌≡◌, ℕ, List};
ghost use Rattle.tb_file_journal.specs.Opening.{HasOpenCause};
ghost use Rattle.tb_file.specs.Creating.{IsDiskUntouched};
ghost use Rattle.tb_edge_file.specs.Naming.{IsEntryAt, IsOfKind, IsMadeWith, IsReadable, Names, NamesAsked, NamesBlock, NamesHeadless, first_block_fault, headless_fault};
ghost use Rattle.tb_edge_file.specs.ExitStatuses.{started_fault};

use crate::faults::{Damage, KeepCommandFault, Mismatch, numbers_of, started_fault};
use crate::kinds::{FIRST_BYTES, FileKind, kind_of};
use std::alloc::Global;
use tb_file::{Rules, StartFault, read_rules};
use tb_file_journal::{Device, Extent, OpenFault, Scan};

/// What a file is that holds no ledger. Its first bytes are read.
fn kind_in<D: Device>(device: &mut D) -> FileKind
    ensures { IsOfKind D.Device result device.old device.new }
{
    let mut first = [0; FIRST_BYTES];
    let first: &mut [u8] = &mut first;
    match device.read_at(0, first) {
        Ok(count) => kind_of(&first[..count]),
        Err(_) => FileKind::Unread,
    }
}

/// How far a file is readable: to the end of its records, or to the first block that is not what was written.
fn readable<D: Device>(alloc: Global, device: &mut D) -> Result<Extent, OpenFault>
    ensures found { (file : List ℕ) → D.holds device.old file → IsReadable result file }
    ensures same { (file : List ℕ) → D.holds device.old file → D.holds device.new file }
    ensures untouched { D.tells → IsDiskUntouched (D.disk device.old) (D.disk device.new) }
    ensures cause { D.tells → HasOpenCause result (D.disk device.old) (D.disk device.new) }
{
    let mut scan = match Scan::start(alloc, device) {
        Ok(scan) => scan,
        Err(fault) => return Err(fault),
    };
    loop {
        let extent = scan.extent();
        match scan.next(device) {
            Ok(true) => {}
            Ok(false) => return Ok(extent),
            Err(OpenFault::Refused(_)) => return Ok(extent),
            Err(OpenFault::Device(fault)) => return Err(OpenFault::Device(fault)),
        }
    }
}

/// The number of the record at this offset, which is that of its entry: how many records are before it. The file is read up to there; None if
/// that fails, or if the file is no longer damaged there.
fn entry_at<D: Device>(alloc: Global, device: &mut D, at: usize) -> Option<u64>
    ensures { IsEntryAt D.Device at result device.old device.new }
{
    match readable(alloc, device) {
        Ok(extent) => {
            if extent.end == at {
                Some(extent.count as u64)
            } else {
                None
            }
        }
        Err(_) => None,
    }
}

/// The fault of a journal of this kind that has no record, or whose first one is no ledger's head.
fn headless_fault(kind: FileKind) -> KeepCommandFault
    ensures { result ≡ headless_fault kind }
{
    match kind {
        FileKind::NoRecord => KeepCommandFault::NotAJournal(FileKind::NoRecord),
        FileKind::Closed => KeepCommandFault::NotAJournal(FileKind::Closed),
        _ => KeepCommandFault::NoHead,
    }
}

/// The same, after the first bytes are read.
fn headless<D: Device>(device: &mut D) -> KeepCommandFault
    ensures { NamesHeadless D.Device result device.old device.new }
{
    headless_fault(kind_in(device))
}

/// The fault of a journal of this kind whose first block is not what was written.
fn first_block_fault(damage: Damage, kind: FileKind) -> KeepCommandFault
    ensures { result ≡ first_block_fault damage kind }
{
    match kind {
        FileKind::Begun => KeepCommandFault::NotAJournal(FileKind::Begun),
        _ => KeepCommandFault::Damaged(damage),
    }
}

/// The fault of a file of which the block at this offset is not what was written.
fn named_block<D: Device>(alloc: Global, device: &mut D, at: usize) -> KeepCommandFault
    ensures { NamesBlock D.Device at result device.old device.new }
{
    let entry = entry_at(alloc, device, at);
    let damage = Damage::Block { at, entry };
    if damage.is_of_head() {
        return first_block_fault(damage, kind_in(device));
    }
    KeepCommandFault::Damaged(damage)
}

/// The fault of a file that is refused, with what there is to say of it.
pub(crate) fn named<D: Device>(alloc: Global, device: &mut D, fault: StartFault) -> KeepCommandFault
    ensures { Names D.Device (started_fault fault) result device.old device.new }
{
    match started_fault(fault) {
        KeepCommandFault::NotAJournal(_) => KeepCommandFault::NotAJournal(kind_in(device)),
        KeepCommandFault::NoHead => headless(device),
        KeepCommandFault::Damaged(Damage::Block { at, .. }) => named_block(alloc, device, at),
        fault => fault,
    }
}

/// The rules that a file was made with, and those that were asked for; None if they are not read.
fn made_with<D: Device>(alloc: Global, device: &mut D, asked: Rules) -> Option<Mismatch>
    ensures { IsMadeWith D.Device asked result device.old device.new }
{
    match read_rules(alloc, device) {
        Ok(made) => Some(Mismatch {
            made: numbers_of(made),
            asked: numbers_of(asked),
        }),
        Err(_) => None,
    }
}

/// The fault of a file that is refused, over which a ledger of these rules was asked for.
pub(crate) fn named_asked<D: Device>(
    alloc: Global,
    device: &mut D,
    asked: Rules,
    fault: StartFault,
) -> KeepCommandFault
    ensures { NamesAsked D.Device asked fault result device.old device.new }
{
    match fault {
        StartFault::OtherRules => KeepCommandFault::OtherRules(made_with(alloc, device, asked)),
        fault => named(alloc, device, fault),
    }
}
