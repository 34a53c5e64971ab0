//! A file in memory that reports what a crash may leave of it, and can fail.
ghost use Rattle.std.specs.Prelude.{◌≡◌, ◌≢◌, ◌≤◌, ◌⊎◌, ◌++◌, ◌∷◌, true, [], Vec, List, ℕ, ◌-◌, ◌==◌, length, reverse, IfOk, IfErr, OnOk, OnErr};
ghost use Rattle.tb_file_journal.specs.declared.memory.Call.TheVariants as variants;
ghost use Rattle.tb_file_journal.specs.declared.faults.JournalFault.TheVariants as faults;
ghost use Rattle.tb_file_journal.specs.Device.{Torn, Looks, ReadsAt, Writes, Cuts, Syncs, Rises, IsOfCall, IsOfSync, overwritten, AnswersLength, GivesBytes, OfHeld};
ghost use Rattle.tb_file_journal.specs.Faults.{fault_in_memory};
ghost use Rattle.tb_file_journal.specs.Torn.{LeavesTorn, torn_at, torn_by, shown_after};

use crate::devices::Device;
use crate::faults::JournalFault;
use crate::growing::Growing;
use std::alloc::{AllocError, Global};

// A call that was made, with what it may have left. A failed call has no effect on reads. A sync keeps the whole file.
#[derive(Drop)]
enum Call {
    Write {
        at: usize,
        bytes: Vec<u8>,
        shown: bool,
    },
    Cut {
        len: usize,
        shown: bool,
    },
    Sync {
        file: Vec<u8>,
    },
}

// How often a call has failed, by the fault. A count at its maximum stays.
#[derive(Drop)]
struct Failures {
    memory: u64,
    failed: u64,
    full: u64,
    too_long: u64,
    not_empty: u64,
    unsynced: u64,
}

impl Failures {
    ghost use Rattle.tb_file_journal.specs.declared.faults.JournalFault.{JournalFault};
    ghost use Rattle.tb_file_journal.specs.Failures.{counted};

    fn none() -> Failures {
        Failures {
            memory: 0,
            failed: 0,
            full: 0,
            too_long: 0,
            not_empty: 0,
            unsynced: 0,
        }
    }

    // Counts a failure, and returns its fault.
    fn count(&mut self, fault: JournalFault) -> JournalFault
        ensures same { result ≡ fault }
        ensures counted { Rises (counted self.old fault) (counted self.new fault) }
        ensures others { (other : JournalFault) → (other ≡ fault) ⊎ (counted self.new other ≡ counted self.old other) }
    {
        match fault {
            JournalFault::Memory => self.memory = self.memory.saturating_add(1),
            JournalFault::Failed => self.failed = self.failed.saturating_add(1),
            JournalFault::Full => self.full = self.full.saturating_add(1),
            JournalFault::TooLong => self.too_long = self.too_long.saturating_add(1),
            JournalFault::NotEmpty => self.not_empty = self.not_empty.saturating_add(1),
            JournalFault::SyncFailed => self.unsynced = self.unsynced.saturating_add(1),
        }
        fault
    }
}

/// A file in memory. It keeps every call, so that what a crash at any moment may leave can be computed.
#[derive(Drop)]
pub struct Memory {
    alloc: Global,
    first: Vec<u8>,
    calls: Vec<Call>,
    bytes: Vec<u8>,
    // The call of this number, counted from now, fails; 0 if no call will fail.
    fuse: u64,
    // The fault of that call.
    why: JournalFault,
    failures: Failures,
    // No sync has failed.
    sound: bool,
    // What a read returns is what the calls that did not fail have made.
    ghost shown: { bytes.items ≡ shown_after first.items (reverse calls.items) },
}

impl Memory {
    ghost use Rattle.tb_file_journal.specs.Memory.{memory_bytes, moments_of, memory_disk, fuse_of, why_of, torn_of, CrashLeaves};

    /// A file with these bytes, all of them durable.
    pub fn new(alloc: Global, bytes: Vec<u8>) -> Result<Self, AllocError>
        ensures bytes { IfOk result (λ file. memory_bytes file ≡ bytes.items) }
        ensures moments { IfOk result (λ file. moments_of file ≡ 0) }
        ensures sound { IfOk result (λ file. (memory_disk file).sound ≡ true) }
        ensures fuse { IfOk result (λ file. fuse_of file ≡ 0) }
    {
        Ok(Memory {
            alloc,
            first: Vec::from_slice(alloc, &bytes)?,
            calls: Vec::new(alloc),
            bytes,
            fuse: 0,
            why: JournalFault::Failed,
            failures: Failures::none(),
            sound: true,
        })
    }

    /// The bytes that a read returns.
    pub fn bytes(&self) -> &[u8]
        ensures { result.now ≡ memory_bytes self.now }
    {
        &self.bytes
    }

    /// The number of moments so far: one for each write and cut, and for each sync that made the file durable.
    pub fn moments(&self) -> usize
        ensures { result ≡ moments_of self.now }
    {
        self.calls.len()
    }

    /// Makes the call of this number fail, counted from now: the next call is 1, and 0 lets no call fail. The fault is Failed, or SyncFailed for a
    /// sync. A failed write or cut may leave what one that a crash interrupts leaves, and reads do not show it. After a failed sync no other sync
    /// makes anything durable.
    pub fn fail_at(&mut self, number: u64)
        ensures bytes { memory_bytes self.new ≡ memory_bytes self.old }
        ensures moments { moments_of self.new ≡ moments_of self.old }
        ensures sound { (memory_disk self.new).sound ≡ (memory_disk self.old).sound }
        ensures fuse { fuse_of self.new ≡ number }
        ensures why { why_of self.new ≡ faults.Failed }
    {
        self.fail_with(number, JournalFault::Failed);
    }

    /// The same with this fault, Memory or Full, if the call is not a sync.
    pub fn fail_with(&mut self, number: u64, fault: JournalFault)
        ensures bytes { memory_bytes self.new ≡ memory_bytes self.old }
        ensures moments { moments_of self.new ≡ moments_of self.old }
        ensures sound { (memory_disk self.new).sound ≡ (memory_disk self.old).sound }
        ensures fuse { fuse_of self.new ≡ number }
        ensures why { why_of self.new ≡ fault }
    {
        self.fuse = number;
        self.why = fault;
    }

    /// What a crash at a moment may leave. Each write without a later sync has these bytes in its range, as many of them as fit there, and after them
    /// what was there. A cut without a later sync leaves as many bytes more than its length as there are of these.
    pub fn after_crash(&self, moment: usize, torn: &[u8]) -> Result<Vec<u8>, AllocError>
        requires { moment ≤ moments_of self.now }
        ensures among { IfOk result (λ left. CrashLeaves self.now moment left.items) }
        ensures exact { IfOk result (λ left. left.items ≡ torn_of self.now moment torn.now) }
    {
        let mut file = Vec::from_slice(self.alloc, &self.first)?;
        for call in &self.calls[..moment] {
            file = after_torn(self.alloc, file, call, torn)?;
        }
        Ok(file)
    }
}

// What one more call may leave of a file that a crash left.
#[tactic(auto, using(crate::proofs::CallHistory::cut_through))]
fn after_torn(alloc: Global, file: Vec<u8>, call: &Call, torn: &[u8]) -> Result<Vec<u8>, AllocError>
    ensures among { IfOk result (λ left. LeavesTorn file.items call.now left.items) }
    ensures exact { IfOk result (λ left. left.items ≡ torn_by torn.now call.now file.items) }
{
    match call {
        Call::Write { at, bytes, .. } => torn_write(alloc, file, *at, bytes.len(), torn),
        Call::Cut { len, .. } => {
            let mut file = file;
            file.truncate(len.saturating_add(torn.len()));
            Ok(file)
        }
        Call::Sync { file: kept } => Vec::from_slice(alloc, kept),
    }
}

// What a write of so many bytes leaves if a crash interrupts it.
#[tactic(auto, using(crate::proofs::CallHistory::torn_within, crate::proofs::CallHistory::torn_beyond, crate::proofs::CallHistory::let_through))]
fn torn_write(
    alloc: Global,
    old: Vec<u8>,
    at: usize,
    count: usize,
    torn: &[u8],
) -> Result<Vec<u8>, AllocError>
    ensures among { IfOk result (λ left. Torn at count old.items left.items) }
    ensures exact { IfOk result (λ left. left.items ≡ torn_at torn.now at count old.items) }
{
    if at > old.len() {
        return Ok(old);
    }
    let (some, _) = torn.split_at(torn.len().min(count));
    overwrite(alloc, &old, at, some)
}

impl Device for Memory {
    ghost use Rattle.tb_file_journal.specs.Memory.{memory_disk, memory_holds, fuse_of, IsCounted, IsInTurn};
    ghost use Rattle.tb_file_journal.specs.private.MemoryLaws.{memory_holds_seen, memory_stays, memory_counts_now, memory_only_now};

    ghost tells = { Unit {0} };

    ghost disk = { memory_disk };

    ghost holds = { memory_holds };

    ghost holds_seen = { memory_holds_seen };

    ghost stays = { memory_stays };

    ghost counts_now = { memory_counts_now };

    ghost only_now = { memory_only_now };

    fn read_at(&mut self, at: usize, into: &mut [u8]) -> Result<usize, JournalFault>
        ensures within { IfOk result (λ count. count ≤ length into.new) }
        ensures bytes { OfHeld (memory_holds self.old) (GivesBytes result at into.new) }
        ensures same { (file : List ℕ) → memory_holds self.old file → memory_holds self.new file }
        ensures names { IfErr result IsOfCall }
        ensures looks { Unit {0} → Looks result (memory_disk self.old) (memory_disk self.new) }
        ensures counts { IsCounted self.old self.new }
        ensures turn { OnOk result (fuse_of self.old ≢ 1) }
        ensures fault { IfErr result (IsInTurn self.old) }
    {
        if trips(&mut self.fuse) {
            return Err(self.failures.count(of_call(self.why)));
        }
        Ok(copy_from(&self.bytes, at, into))
    }

    fn len(&mut self) -> Result<usize, JournalFault>
        ensures bytes { OfHeld (memory_holds self.old) (AnswersLength result) }
        ensures same { (file : List ℕ) → memory_holds self.old file → memory_holds self.new file }
        ensures names { IfErr result IsOfCall }
        ensures looks { Unit {0} → Looks result (memory_disk self.old) (memory_disk self.new) }
        ensures counts { IsCounted self.old self.new }
        ensures turn { OnOk result (fuse_of self.old ≢ 1) }
        ensures fault { IfErr result (IsInTurn self.old) }
    {
        if trips(&mut self.fuse) {
            return Err(self.failures.count(of_call(self.why)));
        }
        Ok(self.bytes.len())
    }

    fn write_at(&mut self, at: usize, bytes: &[u8]) -> Result<(), JournalFault>
        requires { Unit {0} → at ≤ length (memory_disk self.old).seen }
        ensures names { IfErr result IsOfCall }
        ensures writes { Unit {0} → Writes at bytes.now result (memory_disk self.old) (memory_disk self.new) }
        ensures counts { IsCounted self.old self.new }
        ensures turn { OnOk result (fuse_of self.old ≢ 1) }
        ensures fault { IfErr result (λ fault. (fault ≡ faults.Memory) ⊎ IsInTurn self.old fault) }
    {
        let shown = !trips(&mut self.fuse);
        match push_write(self.alloc, &mut self.calls, &self.bytes, at, bytes, shown) {
            Ok(next) => {
                if !shown {
                    return Err(self.failures.count(of_call(self.why)));
                }
                self.bytes = next;
                Ok(())
            }
            Err(_) => Err(self.failures.count(JournalFault::Memory)),
        }
    }

    fn cut(&mut self, len: usize) -> Result<(), JournalFault>
        ensures names { IfErr result IsOfCall }
        ensures cuts { Unit {0} → Cuts len result (memory_disk self.old) (memory_disk self.new) }
        ensures counts { IsCounted self.old self.new }
        ensures turn { OnOk result (fuse_of self.old ≢ 1) }
        ensures fault { IfErr result (λ fault. (fault ≡ faults.Memory) ⊎ IsInTurn self.old fault) }
    {
        let shown = !trips(&mut self.fuse);
        match push_call(&mut self.calls, Call::Cut { len, shown }) {
            Ok(()) => {
                if !shown {
                    return Err(self.failures.count(of_call(self.why)));
                }
                self.bytes.truncate(len);
                Ok(())
            }
            Err(_) => Err(self.failures.count(JournalFault::Memory)),
        }
    }

    fn sync(&mut self) -> Result<(), JournalFault>
        ensures same { (file : List ℕ) → memory_holds self.old file → memory_holds self.new file }
        ensures names { IfErr result IsOfSync }
        ensures syncs { Unit {0} → Syncs result (memory_disk self.old) (memory_disk self.new) }
        ensures counts { IsCounted self.old self.new }
        ensures turn { OnOk result (fuse_of self.old ≢ 1) }
    {
        if trips(&mut self.fuse) {
            self.sound = false;
            return Err(self.failures.count(JournalFault::SyncFailed));
        }
        if !self.sound {
            return Ok(());
        }
        match push_sync(self.alloc, &mut self.calls, &self.bytes) {
            Ok(()) => Ok(()),
            Err(_) => {
                self.sound = false;
                Err(self.failures.count(JournalFault::SyncFailed))
            }
        }
    }
}

impl Growing for Memory {
    ghost use Rattle.tb_file_journal.specs.Memory.{memory_holds};

    ghost grows = { memory_holds };

    fn read_at(&mut self, at: usize, into: &mut [u8]) -> Result<usize, JournalFault> {
        <Self as Device>::read_at(self, at, into)
    }

    fn len(&mut self) -> Result<usize, JournalFault> {
        <Self as Device>::len(self)
    }
}

// The fault of a call that is not a sync.
fn of_call(fault: JournalFault) -> JournalFault
    ensures names { IsOfCall result }
    ensures value { result ≡ fault_in_memory fault }
{
    match fault {
        JournalFault::Memory | JournalFault::Full => fault,
        _ => JournalFault::Failed,
    }
}

// Adds one more call.
fn push_call(calls: &mut Vec<Call>, call: Call) -> Result<(), AllocError>
    ensures ok { OnOk result (calls.new.items ≡ calls.old.items ++ call ∷ []) }
    ensures err { OnErr result (calls.new.items ≡ calls.old.items) }
{
    calls.push(call)?;
    Ok(())
}

// Adds a write, with the file after it.
fn push_write(
    alloc: Global,
    calls: &mut Vec<Call>,
    old: &[u8],
    at: usize,
    bytes: &[u8],
    shown: bool,
) -> Result<Vec<u8>, AllocError>
    requires { at ≤ length old.now }
    ensures next { IfOk result (λ next. next.items ≡ overwritten old.now at bytes.now) }
    ensures ok { OnOk result ((v : Vec ℕ Global) × (v.items ≡ bytes.now) × (calls.new.items ≡ calls.old.items ++ variants.Write at v shown ∷ [])) }
    ensures err { OnErr result (calls.new.items ≡ calls.old.items) }
{
    let next = overwrite(alloc, old, at, bytes)?;
    let bytes = Vec::from_slice(alloc, bytes)?;
    push_call(calls, Call::Write { at, bytes, shown })?;
    Ok(next)
}

// Adds a sync.
fn push_sync(alloc: Global, calls: &mut Vec<Call>, file: &[u8]) -> Result<(), AllocError>
    ensures ok { OnOk result ((v : Vec ℕ Global) × (v.items ≡ file.now) × (calls.new.items ≡ calls.old.items ++ variants.Sync v ∷ [])) }
    ensures err { OnErr result (calls.new.items ≡ calls.old.items) }
{
    let file = Vec::from_slice(alloc, file)?;
    push_call(calls, Call::Sync { file })
}

// Copies the bytes from an offset on, as many as fit.
fn copy_from(bytes: &[u8], at: usize, into: &mut [u8]) -> usize
    ensures { ReadsAt result at bytes.now into.new }
{
    if at >= bytes.len() {
        return 0;
    }
    let (_, rest) = bytes.split_at(at);
    let count = rest.len().min(into.len());
    into[..count].copy_from_slice(&rest[..count]);
    count
}

// Counts a call, and returns whether it is the one that fails.
fn trips(fuse: &mut u64) -> bool
    ensures fails { result ≡ (fuse.old == 1) }
    ensures counted { fuse.new ≡ fuse.old - 1 }
{
    match *fuse {
        0 => false,
        left => {
            *fuse = left - 1;
            left == 1
        }
    }
}

// The file with these bytes in the place of those at this offset.
fn overwrite(alloc: Global, old: &[u8], at: usize, bytes: &[u8]) -> Result<Vec<u8>, AllocError>
    requires { at ≤ length old.now }
    ensures { IfOk result (λ new. new.items ≡ overwritten old.now at bytes.now) }
{
    let mut new = old[..at].to_vec(alloc)?;
    new.extend_from_slice(bytes)?;
    if bytes.len() < old.len() - at {
        new.extend_from_slice(&old[at + bytes.len()..])?;
    }
    Ok(new)
}
