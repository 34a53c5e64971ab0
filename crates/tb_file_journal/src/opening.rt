//! Creates a journal, or opens one from a file that a crash may have left.
ghost use Rattle.std.specs.Prelude.{◌≡◌, ◌≤◌, ◌<◌, ◌+◌, ◌^◌, true, List, ℕ, length, Ok, IfOk, IfErr, [], OnOk};
ghost use Rattle.tb_file_journal.specs.Device.{IsOnDisk, LeavesOnly, IsSettled, HasCause, GivesBytes, LeavesIfSound, OfHeld, SetsAside};
ghost use Rattle.tb_file_journal.specs.Contents.{contents, recorded, records_end, IsJournal};
ghost use Rattle.tb_file_journal.specs.Steps.{Shortens};
ghost use Rattle.tb_file_journal.specs.Reading.{extent_of, LooksKept};
ghost use Rattle.tb_file_journal.specs.Ready.{IsOver};
ghost use Rattle.tb_file_journal.specs.Opening.{IsOfExtent, Recovers, StandsForTheSame, IsOfDevice, HasOpenCause, IsUntouched, Repairs, device_left, LeavesSameRecords, CausedBy, GivesBack, OpensIfSound, IsAsideBehind};
ghost use Rattle.tb_file_journal.specs.Creating.{is_torn_from, is_blank, file_content, MayBeCreated, IsLeft, HasCreateCause, CreatesIn, IsNew, IsUnborn, FindsContent, WritesFirst};

use crate::batches::{Batch, LATCH_BYTES};
use crate::devices::Device;
use crate::faults::JournalFault;
use crate::journals::{FILE_BYTES_MAX, Journal, write_kept};
use crate::reading::{Extent, MAGIC, Refusal};
use crate::scans::read_journal;
use std::alloc::Global;

/// What a file has.
#[derive(Clone, Copy, Debug, PartialEq, Eq)]
pub enum FileContent {
    /// Nothing, or what a crash may leave of a creation: a journal may be created there.
    Blank,
    /// The first bytes of a journal, and more than a creation may leave.
    Journal,
    /// Anything else: it is no journal.
    Other,
}

/// Why a journal was not opened.
#[derive(Clone, Copy, Debug, PartialEq, Eq)]
pub enum OpenFault {
    /// The file is no journal, or it is damaged. It is unchanged.
    Refused(Refusal),
    /// A call on the device failed, there is no memory, or the file is at its greatest length.
    Device(JournalFault),
}

/// A device whose file was not opened, and why.
#[derive(Drop)]
pub struct NotOpened<D: Device> {
    pub device: D,
    pub fault: OpenFault,
}

impl<D: Device> NotOpened<D> {
    // Not opened because of a fault of the device or of memory, not of the file.
    pub(crate) fn of_device(device: D, fault: JournalFault) -> NotOpened<D>
        ensures { result ≡ record { device = device; fault = OpenFault.Device fault } }
    {
        NotOpened {
            device,
            fault: OpenFault::Device(fault),
        }
    }
}

// Cuts, and syncs.
fn cut_kept<D: Device>(device: &mut D, len: usize) -> Result<(), JournalFault>
    requires within { D.tells → len ≤ length (D.disk device.old).seen }
    ensures aside { OfHeld (D.holds device.old) (λ file. OnOk result (SetsAside D.aside len file)) }
    ensures cuts { D.tells → Shortens len result (D.disk device.old) (D.disk device.new) }
{
    match device.cut(len) {
        Ok(()) => device.sync(),
        Err(fault) => Err(fault),
    }
}

// Cuts off what follows the closed latch after the records. Nothing is written: the latch is there.
fn repair<D: Device>(device: &mut D, end: usize) -> Result<(), JournalFault>
    requires short { end < 2 ^ 63 }
    requires reads { D.tells → IsJournal (D.disk device.old).seen }
    requires ends { D.tells → end ≡ records_end (recorded (D.disk device.old).seen) }
    ensures aside { OfHeld (D.holds device.old) (λ file. OnOk result (SetsAside D.aside (end + 4) file)) }
    ensures repairs { D.tells → Repairs result (D.disk device.old) (D.disk device.new) }
{
    cut_kept(device, end + LATCH_BYTES)
}

impl<D: Device> Journal<D> {
    /// Opens the file that was read, with the extent that a scan reported: what follows its records is cut off. A crash at any moment of the call
    /// leaves a file of the same records.
    pub fn open(alloc: Global, device: D, extent: Extent) -> Result<Journal<D>, NotOpened<D>>
        requires few { extent.count ≤ extent.end }
        requires kept { D.tells → (D.disk device).sound ≡ true → IsOnDisk (D.disk device) }
        requires read { D.tells → extent_of (contents (D.disk device).seen) ≡ Ok extent }

        // If no sync has failed before.
        ensures opened { D.tells → OpensIfSound D.disk device result }
        ensures same { D.tells → IfOk result (IsOver D.disk (recorded (D.disk device).seen)) }
        ensures any_moment { D.tells → LeavesSameRecords (D.disk device) (D.disk (device_left result)) }
        // Holds of any device.
        ensures usable { IfOk result (λ journal. journal.usable ≡ true) }
        ensures numbers { IfOk result (IsOfExtent extent) }
        ensures of_device { IfErr result (λ failed. IsOfDevice failed.fault) }
        // What was cut off was set aside before.
        ensures aside { OfHeld (D.holds device) (IsAsideBehind D.aside result) }
        ensures cause { D.tells → CausedBy D.disk device result HasOpenCause }
    {
        let Extent { end, count } = extent;
        if end > FILE_BYTES_MAX - LATCH_BYTES {
            return Err(NotOpened::of_device(device, JournalFault::Full));
        }
        let Ok(batch) = Batch::new(alloc) else {
            return Err(NotOpened::of_device(device, JournalFault::Memory));
        };
        let mut device = device;
        match repair(&mut device, end) {
            Ok(()) => Ok(Journal {
                device,
                end,
                count,
                batch,
                usable: true,
            }),
            Err(fault) => Err(NotOpened::of_device(device, fault)),
        }
    }
}

/// Opens a journal from a file that a crash may have left. Its records are those that the file represents, and it is ready. A crash at any moment of
/// the call leaves a file of the same records, so that the call may be repeated.
pub fn recover<D: Device>(alloc: Global, device: D) -> Result<Journal<D>, NotOpened<D>>
    // If no sync has failed before.
    ensures opened { D.tells → OpensIfSound D.disk device result }
    ensures same { D.tells → IfOk result (IsOver D.disk (recorded (D.disk device).seen)) }
    ensures any_moment { D.tells → LeavesIfSound D.disk device (device_left result) StandsForTheSame }
    // Holds of any device.
    ensures usable { IfOk result (λ journal. journal.usable ≡ true) }
    // The records are those of the file that its reads are of.
    ensures handed { (file : List ℕ) → D.holds device file → Recovers result file }
    // What was cut off was set aside before.
    ensures aside { OfHeld (D.holds device) (IsAsideBehind D.aside result) }
    // A file that is no journal, or is damaged, stays as it was.
    ensures untouched { D.tells → GivesBack D.disk device result IsUntouched }
    ensures cause { D.tells → CausedBy D.disk device result HasOpenCause }
{
    let mut device = device;
    match read_journal(alloc, &mut device) {
        Ok(extent) => Journal::open(alloc, device, extent),
        Err(fault) => Err(NotOpened { device, fault }),
    }
}

// A journal without records.
const FIRST: [u8; 12] = [
    b'T', b'B', b'J', b'R', b'N', b'L', b'0', b'2', 90, 195, 150, 105,
];

/// Creates a journal without records in an empty file. A file that a crash left of a creation counts as empty: nothing was acknowledged there, and
/// the call may be repeated. Any other file stays as it was.
pub fn create<D: Device>(alloc: Global, device: D) -> Result<Journal<D>, NotOpened<D>>
    // If no sync has failed before.
    ensures created { D.tells → (D.disk device).sound ≡ true → IfOk result (IsNew D.disk) }
    ensures blank { D.tells
        → IfOk result (λ journal. (is_blank (D.disk device).seen ≡ true) × IsOver D.disk [] journal) }
    // A crash at any moment of the call leaves the file as it was, or a file without records.
    ensures any_moment { D.tells → LeavesIfSound D.disk device (device_left result) MayBeCreated }
    // A file that is not blank stays as it was.
    ensures untouched { D.tells → GivesBack D.disk device result IsLeft }
    // Holds of any device.
    ensures usable { IfOk result (λ journal. (journal.usable ≡ true) × (journal.waiting ≡ [])) }
    ensures of_device { IfErr result (λ failed. IsOfDevice failed.fault) }
    // In terms of the file that its reads are of.
    ensures handed { (file : List ℕ) → D.holds device file → CreatesIn D.holds result file }
    ensures cause { D.tells → CausedBy D.disk device result HasCreateCause }
{
    let mut device = device;
    match look(&mut device) {
        Ok(found) => {
            if found != FileContent::Blank {
                return Err(NotOpened::of_device(device, JournalFault::NotEmpty));
            }
            begin(alloc, device)
        }
        Err(fault) => Err(NotOpened::of_device(device, fault)),
    }
}

/// What a file has, by its first bytes, which are durable before they are read. No more of it is read.
pub fn look<D: Device>(device: &mut D) -> Result<FileContent, JournalFault>
    ensures found { OfHeld (D.holds device.old) (λ file. IfOk result (λ found. found ≡ file_content file)) }
    ensures same { (file : List ℕ) → D.holds device.old file → D.holds device.new file }
    ensures other { IfErr result (λ fault. fault ≡ JournalFault.NotEmpty → ⊥) }
    ensures finds { D.tells → FindsContent result (D.disk device.old) (D.disk device.new) }
{
    // A blank file has at most 12 bytes.
    let mut bytes = [0; 13];
    match read_kept(device, &mut bytes) {
        Ok(count) => Ok(content_of(&bytes[..count])),
        Err(fault) => Err(fault),
    }
}

// What a file has that begins with these bytes. They are all of it, or more than 12.
fn content_of(bytes: &[u8]) -> FileContent
    ensures { result ≡ file_content bytes.now }
{
    if is_blank(bytes) {
        FileContent::Blank
    } else if bytes.starts_with(&MAGIC) {
        FileContent::Journal
    } else {
        FileContent::Other
    }
}

// The first bytes of a file. What is read is durable before it is read.
fn read_kept<D: Device>(device: &mut D, into: &mut [u8]) -> Result<usize, JournalFault>
    ensures within { IfOk result (λ count. count ≤ length into.new) }
    ensures bytes { OfHeld (D.holds device.old) (GivesBytes result 0 into.new) }
    ensures same { (file : List ℕ) → D.holds device.old file → D.holds device.new file }
    ensures other { IfErr result (λ fault. fault ≡ JournalFault.NotEmpty → ⊥) }
    ensures reads { D.tells → LooksKept result (D.disk device.old) (D.disk device.new) }
    ensures sound { D.tells → OnOk result ((D.disk device.new).sound ≡ (D.disk device.old).sound) }
    ensures cause { D.tells → HasCause result (D.disk device.old) (D.disk device.new) }
{
    device.sync()?;
    device.read_at(0, into)
}

// Writes over a blank file.
fn begin<D: Device>(alloc: Global, device: D) -> Result<Journal<D>, NotOpened<D>>
    requires blank { D.tells → is_blank (D.disk device).seen ≡ true }
    ensures created { D.tells → IsSettled (D.disk device) → IfOk result (IsNew D.disk) }
    ensures empty { D.tells → IfOk result (IsOver D.disk []) }
    ensures any_moment { D.tells → IsSettled (D.disk device)
        → LeavesOnly (D.disk device) (D.disk (device_left result)) IsUnborn }
    ensures usable { IfOk result (λ journal. (journal.usable ≡ true) × (journal.waiting ≡ [])) }
    ensures of_device { IfErr result (λ failed. IsOfDevice failed.fault) }
    ensures other { IfErr result (λ failed. failed.fault ≡ OpenFault.Device JournalFault.NotEmpty → ⊥) }
    ensures cause { D.tells → CausedBy D.disk device result HasCreateCause }
{
    let Ok(batch) = Batch::new(alloc) else {
        return Err(NotOpened::of_device(device, JournalFault::Memory));
    };
    let mut device = device;
    match write_first(&mut device) {
        Ok(()) => Ok(Journal {
            device,
            end: MAGIC.len(),
            count: 0,
            batch,
            usable: true,
        }),
        Err(fault) => Err(NotOpened::of_device(device, fault)),
    }
}

// Writes the first bytes, all in one write: whatever a crash leaves of them has no record.
fn write_first<D: Device>(device: &mut D) -> Result<(), JournalFault>
    requires blank { D.tells → is_blank (D.disk device.old).seen ≡ true }
    ensures other { IfErr result (λ fault. fault ≡ JournalFault.NotEmpty → ⊥) }
    ensures writes { D.tells → WritesFirst result (D.disk device.old) (D.disk device.new) }
{
    write_kept(device, 0, &FIRST)
}

fn is_blank(bytes: &[u8]) -> bool
    ensures { result ≡ is_blank bytes.now }
{
    is_torn_from(bytes, &FIRST)
}

fn is_torn_from(bytes: &[u8], first: &[u8]) -> bool
    ensures { result ≡ is_torn_from bytes.now first.now }
{
    let mut rest = bytes;
    let mut owns = first;
    while let [byte, others @ ..] = rest {
        match owns {
            [own, behind @ ..] if *byte == 0 || byte == own => {
                rest = others;
                owns = behind;
            }
            _ => return false,
        }
    }
    true
}
