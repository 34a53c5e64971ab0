//! Files in memory whose calls can fail: one whose sectors are old or new after a crash, and one of which nothing is assumed.
ghost use Rattle.std.specs.Prelude.{◌≡◌, ◌≢◌, ◌≤◌, ◌++◌, ◌∷◌, ◌-◌, ◌==◌, true, false, [], Vec, List, ℕ, length, reverse, IfOk, IfErr, OnOk, OnErr};
ghost use Rattle.tb_sectors.specs.declared.memory.Call.TheVariants as variants;
ghost use Rattle.tb_sectors.specs.Sectors.{IsSettled, Looks, ReadsAt, Writes, Syncs, overwritten};
ghost use Rattle.tb_sectors.specs.Ranges.{WritesRange};
ghost use Rattle.tb_sectors.specs.Calls.{shown_after};

use crate::devices::{RangeFile, SectorFault, SectorFile};
use std::alloc::{AllocError, Global};

// A call that was made. A failed write is not shown: reads return what they returned before it.
#[derive(Drop)]
enum Call {
    Write {
        at: usize,
        bytes: Vec<u8>,
        shown: bool,
    },
    Sync,
}

/// A file in memory. It keeps every call, so that what a crash at any moment may leave is known.
#[derive(Drop)]
pub struct MemorySectors {
    alloc: Global,
    first: Vec<u8>,
    calls: Vec<Call>,
    bytes: Vec<u8>,
    // The call of this number, counted from now, fails; 0 if no call will fail.
    fuse: u64,
    // No sync has failed.
    sound: bool,
    // What a read returns is what the calls that did not fail have made.
    ghost shown: { bytes.items ≡ shown_after first.items (reverse calls.items) },
}

impl MemorySectors {
    ghost use Rattle.tb_sectors.specs.Memory.{memory_bytes, moments_of, disk_of, memory_disk, fuse_of, IsCounted, IsInTurn};

    /// A file with these bytes, all of them durable.
    pub fn new(alloc: Global, bytes: Vec<u8>) -> Result<Self, AllocError>
        ensures bytes { IfOk result (λ file. memory_bytes file ≡ bytes.items) }
        ensures moments { IfOk result (λ file. moments_of file ≡ 0) }
        ensures settled { IfOk result (λ file. IsSettled (memory_disk file)) }
        ensures ranges { IfOk result (λ file. IsSettled (disk_of false file)) }
        ensures fuse { IfOk result (λ file. fuse_of file ≡ 0) }
    {
        Ok(MemorySectors {
            alloc,
            first: Vec::from_slice(alloc, &bytes)?,
            calls: Vec::new(alloc),
            bytes,
            fuse: 0,
            sound: true,
        })
    }

    /// The bytes that a read returns.
    pub fn bytes(&self) -> &[u8]
        ensures { result.now ≡ memory_bytes self.now }
    {
        &self.bytes
    }

    /// The number of moments so far: one for each write, and for each sync that made the file durable.
    pub fn moments(&self) -> usize
        ensures { result ≡ moments_of self.now }
    {
        self.calls.len()
    }

    /// Makes the call of this number fail, counted from now: the next call is 1, and 0 lets no call fail. Of a failed write a crash may leave what it may
    /// leave of an interrupted one, and reads do not show it. After a failed sync no other sync makes anything durable.
    pub fn fail_at(&mut self, number: u64)
        ensures bytes { memory_bytes self.new ≡ memory_bytes self.old }
        ensures moments { moments_of self.new ≡ moments_of self.old }
        ensures sound { (memory_disk self.new).sound ≡ (memory_disk self.old).sound }
        ensures fuse { fuse_of self.new ≡ number }
    {
        self.fuse = number;
    }

    // A write, on either disk.
    fn write(&mut self, at: usize, bytes: &[u8]) -> Result<(), SectorFault>
        requires { at ≤ length (memory_bytes self.old) }
        ensures sectors { Writes at bytes.now result (memory_disk self.old) (memory_disk self.new) }
        ensures range { WritesRange at bytes.now result (disk_of false self.old) (disk_of false self.new) }
        ensures unshown { OnErr result (memory_bytes self.new ≡ memory_bytes self.old) }
        ensures counted { IsCounted result self.old self.new }
        ensures fault { IfErr result (IsInTurn self.old) }
    {
        let shown = !trips(&mut self.fuse);
        match push_write(self.alloc, &mut self.calls, &self.bytes, at, bytes, shown) {
            Ok(next) => {
                if !shown {
                    return Err(SectorFault::Failed);
                }
                self.bytes = next;
                Ok(())
            }
            Err(_) => Err(SectorFault::Memory),
        }
    }

    // A sync, on either disk.
    fn keep(&mut self) -> Result<(), SectorFault>
        ensures sectors { Syncs result (memory_disk self.old) (memory_disk self.new) }
        ensures range { Syncs result (disk_of false self.old) (disk_of false self.new) }
        ensures counted { IsCounted result self.old self.new }
    {
        if trips(&mut self.fuse) {
            self.sound = false;
            return Err(SectorFault::Failed);
        }
        if !self.sound {
            return Ok(());
        }
        match push_call(&mut self.calls, Call::Sync) {
            Ok(()) => Ok(()),
            Err(_) => {
                self.sound = false;
                Err(SectorFault::Failed)
            }
        }
    }
}

impl SectorFile for MemorySectors {
    ghost use Rattle.tb_sectors.specs.Memory.{memory_bytes, memory_disk, fuse_of, IsCounted, IsInTurn};
    ghost use Rattle.tb_sectors.specs.private.MemoryLaws.{memory_stays, memory_counts_now, memory_only_now};

    ghost disk = { memory_disk };

    ghost stays = { memory_stays };

    ghost counts_now = { memory_counts_now };

    ghost only_now = { memory_only_now };

    fn read_at(&mut self, at: usize, into: &mut [u8]) -> Result<usize, SectorFault>
        ensures bytes { IfOk result (λ count. ReadsAt count at (memory_bytes self.old) into.new) }
        ensures looks { Looks (memory_disk self.old) (memory_disk self.new) }
        ensures counted { IsCounted result self.old self.new }
        ensures fault { IfErr result (IsInTurn self.old) }
    {
        if trips(&mut self.fuse) {
            return Err(SectorFault::Failed);
        }
        Ok(copy_from(&self.bytes, at, into))
    }

    fn len(&mut self) -> Result<usize, SectorFault>
        ensures count { IfOk result (λ len. len ≡ length (memory_bytes self.old)) }
        ensures looks { Looks (memory_disk self.old) (memory_disk self.new) }
        ensures counted { IsCounted result self.old self.new }
        ensures fault { IfErr result (IsInTurn self.old) }
    {
        if trips(&mut self.fuse) {
            return Err(SectorFault::Failed);
        }
        Ok(self.bytes.len())
    }

    fn write_at(&mut self, at: usize, bytes: &[u8]) -> Result<(), SectorFault>
        requires { at ≤ length (memory_bytes self.old) }
        ensures writes { Writes at bytes.now result (memory_disk self.old) (memory_disk self.new) }
        ensures unshown { OnErr result (memory_bytes self.new ≡ memory_bytes self.old) }
        ensures counted { IsCounted result self.old self.new }
        ensures fault { IfErr result (IsInTurn self.old) }
    {
        self.write(at, bytes)
    }

    fn sync(&mut self) -> Result<(), SectorFault>
        ensures syncs { Syncs result (memory_disk self.old) (memory_disk self.new) }
        ensures counted { IsCounted result self.old self.new }
    {
        self.keep()
    }
}

/// A file in memory on a disk of which nothing is assumed: of a write that was not synced a crash may leave any bytes in its range.
#[derive(Drop)]
pub struct MemoryRanges {
    file: MemorySectors,
}

impl MemoryRanges {
    ghost use Rattle.tb_sectors.specs.Memory.{memory_bytes, ranges_disk, fuse_of};

    /// A file with these bytes, all of them durable.
    pub fn new(alloc: Global, bytes: Vec<u8>) -> Result<Self, AllocError>
        ensures bytes { IfOk result (λ ranges. (ranges_disk ranges).seen ≡ bytes.items) }
        ensures settled { IfOk result (λ ranges. IsSettled (ranges_disk ranges)) }
        ensures fuse { IfOk result (λ ranges. fuse_of ranges.file ≡ 0) }
    {
        Ok(MemoryRanges {
            file: MemorySectors::new(alloc, bytes)?,
        })
    }

    /// The bytes that a read returns.
    pub fn bytes(&self) -> &[u8]
        ensures { result.now ≡ (ranges_disk self.now).seen }
    {
        self.file.bytes()
    }

    /// Makes the call of this number fail, as `MemorySectors::fail_at`.
    pub fn fail_at(&mut self, number: u64)
        ensures bytes { (ranges_disk self.new).seen ≡ (ranges_disk self.old).seen }
        ensures sound { (ranges_disk self.new).sound ≡ (ranges_disk self.old).sound }
        ensures fuse { fuse_of self.new.file ≡ number }
    {
        self.file.fail_at(number);
    }
}

impl RangeFile for MemoryRanges {
    ghost use Rattle.tb_sectors.specs.Memory.{ranges_disk, IsCounted, IsInTurn};
    ghost use Rattle.tb_sectors.specs.private.MemoryLaws.{ranges_stays, ranges_counts_now, ranges_only_now};

    ghost disk = { ranges_disk };

    ghost stays = { ranges_stays };

    ghost counts_now = { ranges_counts_now };

    ghost only_now = { ranges_only_now };

    fn write_at(&mut self, at: usize, bytes: &[u8]) -> Result<(), SectorFault>
        requires { at ≤ length (ranges_disk self.old).seen }
        ensures writes { WritesRange at bytes.now result (ranges_disk self.old) (ranges_disk self.new) }
        ensures unshown { OnErr result ((ranges_disk self.new).seen ≡ (ranges_disk self.old).seen) }
        ensures counted { IsCounted result self.old.file self.new.file }
        ensures fault { IfErr result (IsInTurn self.old.file) }
    {
        self.file.write(at, bytes)
    }

    fn sync(&mut self) -> Result<(), SectorFault>
        ensures syncs { Syncs result (ranges_disk self.old) (ranges_disk self.new) }
        ensures counted { IsCounted result self.old.file self.new.file }
    {
        self.file.keep()
    }
}

// Adds one more call.
fn push_call(calls: &mut Vec<Call>, call: Call) -> Result<(), AllocError>
    ensures ok { OnOk result (calls.new.items ≡ calls.old.items ++ call ∷ []) }
    ensures err { OnErr result (calls.new.items ≡ calls.old.items) }
{
    calls.push(call)?;
    Ok(())
}

// Adds a write, and returns the file after it.
fn push_write(
    alloc: Global,
    calls: &mut Vec<Call>,
    old: &[u8],
    at: usize,
    bytes: &[u8],
    shown: bool,
) -> Result<Vec<u8>, AllocError>
    requires { at ≤ length old.now }
    ensures next { IfOk result (λ next. next.items ≡ overwritten old.now at bytes.now) }
    ensures ok { OnOk result ((v : Vec ℕ Global) × (v.items ≡ bytes.now) × (calls.new.items ≡ calls.old.items ++ variants.Write at v shown ∷ [])) }
    ensures err { OnErr result (calls.new.items ≡ calls.old.items) }
{
    let next = overwrite(alloc, old, at, bytes)?;
    let bytes = Vec::from_slice(alloc, bytes)?;
    push_call(calls, Call::Write { at, bytes, shown })?;
    Ok(next)
}

// Counts a call, and says whether it is the one that fails.
fn trips(fuse: &mut u64) -> bool
    ensures fails { result ≡ (fuse.old == 1) }
    ensures counted { fuse.new ≡ fuse.old - 1 }
{
    match *fuse {
        0 => false,
        left => {
            *fuse = left - 1;
            left == 1
        }
    }
}

// Copies the bytes from an offset on, as many as fit.
fn copy_from(bytes: &[u8], at: usize, into: &mut [u8]) -> usize
    ensures { ReadsAt result at bytes.now into.new }
{
    if at >= bytes.len() {
        return 0;
    }
    let (_, rest) = bytes.split_at(at);
    let count = rest.len().min(into.len());
    into[..count].copy_from_slice(&rest[..count]);
    count
}

// The file with these bytes in the place of those at this offset.
fn overwrite(alloc: Global, old: &[u8], at: usize, bytes: &[u8]) -> Result<Vec<u8>, AllocError>
    requires { at ≤ length old.now }
    ensures { IfOk result (λ new. new.items ≡ overwritten old.now at bytes.now) }
{
    let mut new = old[..at].to_vec(alloc)?;
    new.extend_from_slice(bytes)?;
    if bytes.len() < old.len() - at {
        new.extend_from_slice(&old[at + bytes.len()..])?;
    }
    Ok(new)
}
