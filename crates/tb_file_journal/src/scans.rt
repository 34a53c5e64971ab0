//! Reads a journal record by record, ahead in pieces, with one buffer for the whole file.
ghost use Rattle.std.specs.Prelude.{◌≡◌, ◌≤◌, ◌<◌, ◌+◌, ◌^◌, true, List, [], ℕ, length, IfOk, IfErr, OnOk, ◌-◌, take, drop, vec_len, slice_range, OnErr};
ghost use Rattle.tb_file_journal.specs.Device.{IsLookedAt, HasOwnCause, Looks, ReadsAt, KeepsRead, OfHeld};
ghost use Rattle.tb_file_journal.specs.Contents.{front};
ghost use Rattle.tb_file_journal.specs.Opening.{HasOpenCause, LeavesAsBefore};
ghost use Rattle.tb_file_journal.specs.Scans.{ScanState, IsAhead, BeginsScan, GoesFurther, IsAt, IsOfStart, ScanCause, ReadsOn, StaysRead};
ghost use Rattle.tb_file_journal.specs.Reading.{HasAhead, FindsHead, LooksKept, StartsScan, ReadsExtent, head_is, ReadAhead};

use crate::devices::Device;
use crate::faults::JournalFault;
use crate::journals::FILE_BYTES_MAX;
use crate::opening::OpenFault;
use crate::reading::{Extent, Head, MAGIC, Refusal, asked, head_of};
use std::alloc::{AllocError, Global};
use std::marker::Model;

// The parts of a block that have a fixed length: latch, length and checksum.
const FIXED_BYTES: usize = 11;

/// A journal's file as it is read, record by record, from its first bytes on. The checksum of a record is checked before the record is returned.
#[derive(Drop)]
pub struct Scan {
    window: Window,
    end: usize,
    count: usize,
}

impl Model for Scan {
    ghost Value = { ScanState };

    ghost view = { λ s. record { end = s.end; count = s.count; last = s.window.taken; ahead = s.window.ahead } };

    ghost invariant = { λ s. (s.end ≤ 2 ^ 62 + 2 ^ 63) × (s.count ≤ s.end) };
}

impl Scan {
    /// Reads the first bytes. What a scan reads is durable.
    pub fn start<D: Device>(alloc: Global, device: &mut D) -> Result<Scan, OpenFault>
        // Holds of any device, in terms of the file that its reads are of.
        ensures begun { (file : List ℕ) → D.holds device.old file → BeginsScan result file }
        ensures refused { IfErr result IsOfStart }
        ensures same { (file : List ℕ) → D.holds device.old file → D.holds device.new file }
        // If no sync has failed before.
        ensures kept { D.tells → KeepsRead result (D.disk device.old) (D.disk device.new) }
        ensures sound { D.tells → OnOk result ((D.disk device.new).sound ≡ (D.disk device.old).sound) }
        ensures seen { D.tells → (D.disk device.new).seen ≡ (D.disk device.old).seen }
        ensures untouched { D.tells → LeavesAsBefore (D.disk device.old) (D.disk device.new) }
        ensures cause { D.tells → HasOpenCause result (D.disk device.old) (D.disk device.new) }
    {
        match read_first(alloc, device) {
            Ok(window) => match begin(window) {
                Some(scan) => Ok(scan),
                None => Err(OpenFault::Refused(Refusal::NotAJournal)),
            },
            Err(fault) => Err(OpenFault::Device(fault)),
        }
    }

    /// Reads the next record, and returns whether there is one. Returns `Damaged`, with the offset of the latch, if a block is not whole or its
    /// checksum does not match.
    pub fn next<D: Device>(&mut self, device: &mut D) -> Result<bool, OpenFault>
        // Holds of any device, in terms of the file that its reads are of.
        ensures reads { OfHeld (D.holds device.old) (ReadsOn result self.old self.new) }
        ensures same { (file : List ℕ) → D.holds device.old file → D.holds device.new file }
        ensures looks { D.tells → IsLookedAt (D.disk device.old) (D.disk device.new) }
        ensures cause { D.tells → ScanCause result self.old (D.disk device.old) (D.disk device.new) }
        // Holds of any device, so that a loop over the records ends.
        ensures further { IfOk result (λ more. more ≡ true → GoesFurther self.old self.new) }
        // Holds of any device: damage is reported at the offset where the records that were read end.
        ensures place { IfErr result (IsAt self.old.end) }
    {
        if self.end >= FILE_BYTES_MAX {
            return Err(OpenFault::Device(JournalFault::Full));
        }
        match head_at(&mut self.window, device, self.end) {
            Ok(Head::End) => Ok(false),
            Ok(Head::Spoiled) => Err(OpenFault::Refused(Refusal::Damaged { at: self.end })),
            Ok(Head::Whole(len)) => {
                self.window.take(FIXED_BYTES);
                self.window.take(len);
                self.end += FIXED_BYTES + len;
                self.count += 1;
                Ok(true)
            }
            Err(fault) => Err(OpenFault::Device(fault)),
        }
    }

    /// Drops what was read ahead, so that a scan that reached the end of a file goes on in a later one: in a snapshot that was refreshed.
    pub fn go_on(&mut self)
        ensures ahead { self.new ≡ record self.old { ahead = [] } }
        ensures reads { StaysRead self.old self.new }
    {
        self.window.drop_ahead();
    }

    /// The record that the last call of `next` read.
    pub fn record(&self) -> &[u8]
        ensures { result.now ≡ self.now.last }
    {
        self.window.taken()
    }

    /// The offset at which the records that were read end, and their number.
    pub fn extent(&self) -> Extent
        ensures end { result.end ≡ self.now.end }
        ensures count { result.count ≡ self.now.count }
        ensures few { result.count ≤ result.end }
    {
        Extent {
            end: self.end,
            count: self.count,
        }
    }
}

// The first bytes of a file. What is read is durable before it is read.
fn read_first<D: Device>(alloc: Global, device: &mut D) -> Result<Window, JournalFault>
    ensures looks { D.tells
        → LooksKept result (D.disk device.old) (D.disk device.new) }
    ensures sound { D.tells → OnOk result ((D.disk device.new).sound ≡ (D.disk device.old).sound) }
    ensures cause { D.tells → HasOwnCause result (D.disk device.old) (D.disk device.new) }
    ensures ahead { (file : List ℕ) → D.holds device.old file → IfOk result (λ window. HasAhead 8 0 file window.ahead) }
    ensures same { (file : List ℕ) → D.holds device.old file → D.holds device.new file }
{
    let mut window = match Window::new(alloc) {
        Ok(window) => window,
        Err(_) => return Err(JournalFault::Memory),
    };
    if let Err(fault) = device.sync() {
        drop(window);
        return Err(fault);
    }
    match window.fill(device, 0, MAGIC.len()) {
        Ok(()) => Ok(window),
        Err(fault) => {
            drop(window);
            Err(fault)
        }
    }
}

// A scan of a file with these first bytes. There is no scan if they are not those of a journal.
fn begin(window: Window) -> Option<Scan>
    ensures { (file : List ℕ) → HasAhead 8 0 file window.ahead → StartsScan result file }
{
    let mut window = window;
    if !window.ahead().starts_with(&MAGIC) {
        return None;
    }
    window.take(MAGIC.len());
    Some(Scan {
        window,
        end: MAGIC.len(),
        count: 0,
    })
}

// What is at this offset, with its checksum. All of a block is read ahead.
fn head_at<D: Device>(window: &mut Window, device: &mut D, at: usize) -> Result<Head, JournalFault>
    requires { at < 2 ^ 62 }
    ensures head { IfOk result (λ head. head ≡ head_is (front window.new.ahead)) }
    ensures short { OnOk result (length window.new.ahead < 2 ^ 63) }
    ensures finds { (file : List ℕ) → D.holds device.old file → IsAhead at file window.old.ahead
        → OnOk result (FindsHead at file window.new.ahead) }
    ensures same { (file : List ℕ) → D.holds device.old file → D.holds device.new file }
    ensures looks { D.tells → IsLookedAt (D.disk device.old) (D.disk device.new) }
    ensures cause { D.tells → HasOwnCause result (D.disk device.old) (D.disk device.new) }
{
    if let Err(fault) = window.fill(device, at, FIXED_BYTES) {
        return Err(fault);
    }
    let needed = asked(window.ahead());
    if needed == FIXED_BYTES {
        return Ok(head_of(window.ahead()));
    }
    window.fill(device, at, needed)?;
    Ok(head_of(window.ahead()))
}

/// Reads a journal's file from end to end, and writes nothing. What it read is durable.
pub fn read_journal<D: Device>(alloc: Global, device: &mut D) -> Result<Extent, OpenFault>
    // Holds of any device, in terms of the file that its reads are of.
    ensures found { (file : List ℕ) → D.holds device.old file → ReadsExtent result file }
    ensures same { (file : List ℕ) → D.holds device.old file → D.holds device.new file }
    // If no sync has failed before.
    ensures kept { D.tells → KeepsRead result (D.disk device.old) (D.disk device.new) }
    ensures sound { D.tells → OnOk result ((D.disk device.new).sound ≡ (D.disk device.old).sound) }
    ensures few { IfOk result (λ extent. extent.count ≤ extent.end) }
    ensures seen { D.tells → (D.disk device.new).seen ≡ (D.disk device.old).seen }
    ensures untouched { D.tells → LeavesAsBefore (D.disk device.old) (D.disk device.new) }
    ensures cause { D.tells → HasOpenCause result (D.disk device.old) (D.disk device.new) }
{
    let mut scan = match Scan::start(alloc, device) {
        Ok(scan) => scan,
        Err(fault) => return Err(fault),
    };
    loop {
        match scan.next(device) {
            Ok(true) => {}
            Ok(false) => return Ok(scan.extent()),
            Err(fault) => return Err(fault),
        }
    }
}

// A piece of a file: the size of one read.
const PIECE_BYTES: usize = 1 << 16;

// The part of a file that was read ahead, after the bytes that were taken last. One buffer serves for the whole file: it holds a piece, and grows if
// more is asked for.
#[derive(Drop)]
pub struct Window {
    bytes: Vec<u8>,
    from: usize,
    used: usize,
    filled: usize,
}

impl Model for Window {
    ghost Value = { ReadAhead };

    ghost view = { λ w. record {
      taken = slice_range w.bytes.items w.from w.used;
      ahead = slice_range w.bytes.items w.used w.filled;
    } };

    ghost invariant = { λ w. (w.from ≤ w.used) × (w.used ≤ w.filled) × (w.filled ≤ length w.bytes.items) };
}

impl Window {
    // An empty window.
    pub fn new(alloc: Global) -> Result<Window, AllocError>
        ensures { IfOk result (λ window. length window.ahead ≡ 0) }
    {
        let bytes = vec![in alloc; 0u8; PIECE_BYTES]?;
        Ok(Window {
            bytes,
            from: 0,
            used: 0,
            filled: 0,
        })
    }

    // The bytes that were taken last.
    pub fn taken(&self) -> &[u8]
        ensures { result.now ≡ self.now.taken }
    {
        &self.bytes[self.from..self.used]
    }

    // The bytes that were read ahead.
    pub fn ahead(&self) -> &[u8]
        ensures { result.now ≡ self.now.ahead }
    {
        &self.bytes[self.used..self.filled]
    }

    // Takes the first bytes of those ahead.
    pub fn take(&mut self, n: usize)
        requires { n ≤ length self.old.ahead }
        ensures taken { self.new.taken ≡ take n self.old.ahead }
        ensures ahead { self.new.ahead ≡ drop n self.old.ahead }
    {
        self.from = self.used;
        self.used += n;
    }

    // Drops the bytes that were read ahead.
    pub fn drop_ahead(&mut self)
        ensures { self.new ≡ record self.old { ahead = [] } }
    {
        self.filled = self.used;
    }

    // Reads on if fewer bytes are ahead than these: then so many are there, or all that the file has left. The bytes that were taken are freed.
    pub fn fill<D: Device>(
        &mut self,
        device: &mut D,
        at: usize,
        n: usize,
    ) -> Result<(), JournalFault>
        requires { at < 2 ^ 62 }
        ensures ahead { (file : List ℕ) → D.holds device.old file → IsAhead at file self.old.ahead
            → OnOk result (HasAhead n at file self.new.ahead) }
        ensures same { (file : List ℕ) → D.holds device.old file → D.holds device.new file }
        ensures looks { D.tells → IsLookedAt (D.disk device.old) (D.disk device.new) }
        ensures cause { D.tells → HasOwnCause result (D.disk device.old) (D.disk device.new) }
    {
        if n <= self.filled - self.used {
            return Ok(());
        }
        move_down(&mut self.bytes, self.used, self.filled);
        self.filled -= self.used;
        self.from = 0;
        self.used = 0;
        grow(&mut self.bytes, n)?;
        let count = read_behind(device, at, &mut self.bytes, self.filled)?;
        self.filled += count;
        Ok(())
    }
}

// Moves these bytes to the front.
fn move_down(bytes: &mut Vec<u8>, from: usize, end: usize)
    requires order { from ≤ end }
    requires within { end ≤ vec_len bytes.old }
    ensures front { take (end - from) bytes.new.items ≡ slice_range bytes.old.items from end }
    ensures len { vec_len bytes.new ≡ vec_len bytes.old }
{
    bytes.copy_within(from..end, 0);
}

// Grows the buffer to so many bytes. Its content stays.
fn grow(bytes: &mut Vec<u8>, n: usize) -> Result<(), AllocError>
    ensures front { take (vec_len bytes.old) bytes.new.items ≡ bytes.old.items }
    ensures capacity { OnOk result (n ≤ vec_len bytes.new) }
{
    if n <= bytes.len() {
        return Ok(());
    }
    bytes.resize(n, 0)
}

// Reads on after the bytes of a file that are in front, until there is no more space or no more to read.
fn read_behind<D: Device>(
    device: &mut D,
    at: usize,
    bytes: &mut Vec<u8>,
    filled: usize,
) -> Result<usize, JournalFault>
    requires within { filled ≤ vec_len bytes.old }
    requires near { at < 2 ^ 62 }
    ensures within { IfOk result (λ count. filled + count ≤ vec_len bytes.new) }
    ensures len { vec_len bytes.new ≡ vec_len bytes.old }
    ensures front { take filled bytes.new.items ≡ take filled bytes.old.items }
    ensures read { (file : List ℕ) → D.holds device.old file
        → IfOk result (λ count. ReadsAt count (at + filled) file (drop filled bytes.new.items)) }
    ensures same { (file : List ℕ) → D.holds device.old file → D.holds device.new file }
    ensures looks { D.tells → Looks result (D.disk device.old) (D.disk device.new) }
{
    device.read_at(at + filled, &mut bytes[filled..])
}
