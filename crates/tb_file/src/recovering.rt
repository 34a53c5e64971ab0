//! The head of a kept file, record 0 of its journal, and the restoring of a machine from the records after it.
ghost use Rattle.std.specs.Prelude.{◌≡◌, ◌≤◌, ◌+◌, ℕ, true, List, [], Ok, IfOk, IfErr, OnOk};
ghost use Rattle.tb_records.specs.Limits.{IsClients};
ghost use Rattle.tb_file_journal.specs.Scans.{GoesFurther, IsAt, ScanCause};
ghost use Rattle.tb_machine.specs.Recording.{IsRecord};
ghost use Rattle.tb_file.specs.Recovering.{ReadsRecord, AppliesRecord, ReplaysJournal, HasStartCause, HeadRecordAnswers};
ghost use Rattle.tb_file.specs.Creating.{IsDiskUntouched};
ghost use Rattle.tb_file.specs.Reading.{OfRead, NamesRules};
ghost use Rattle.tb_file.specs.RecordSteps.{IsNext, StaysKept};
ghost use Rattle.tb_file.specs.private.Entering.{ReadCause, ReadsHead, EntersNextRecord, EntersAll, FindsBehind, HeadCause, ReplaysEmpty, OfBehind, UnreadCause, head_of};
ghost use Rattle.tb_file.specs.Keeping.{head_record};
ghost use Rattle.tb_file_journal.specs.Device.{KeepsRead, OfHeld};

use crate::faults::StartFault;
use std::alloc::{Allocator, Global};
use tb_file_journal::{Device, Extent, OpenFault, Scan};
use tb_machine::{Entry, Machine, Unfit, read_entry, restore};
use tb_records::{ClientsMax, FrameFault, Profile};

/// Reads a record as that of the next entry after those of a machine.
fn entry_of_record<A: Allocator + Clone>(
    global: Global,
    machine: &Machine<A>,
    bytes: &[u8],
) -> Result<Entry, StartFault>
    ensures { ReadsRecord result machine.now bytes.now }
{
    let place = machine.commit() + 1;
    match read_entry(global, bytes) {
        Ok(entry) => Ok(entry),
        Err(FrameFault::NoMemory) => Err(StartFault::NoMemory),
        Err(fault) => Err(StartFault::Record { place, fault }),
    }
}

/// Enters the next entry into a machine.
fn enter_entry<A: Allocator + Clone>(
    machine: &mut Machine<A>,
    bytes: &[u8],
    entry: Entry,
) -> Result<(), StartFault>
    requires { IsRecord bytes.now entry }
    ensures { AppliesRecord result machine.old bytes.now machine.new }
{
    match restore(machine, entry) {
        Ok(()) => Ok(()),
        Err(fault) => match fault.cause {
            Unfit::NoMemory => Err(StartFault::NoMemory),
            _ => Err(StartFault::Entry(fault)),
        },
    }
}

/// Enters the entry of a record into a machine. On a fault the machine is as it was.
pub(crate) fn enter_record<A: Allocator + Clone>(
    global: Global,
    machine: &mut Machine<A>,
    bytes: &[u8],
) -> Result<(), StartFault>
    ensures { AppliesRecord result machine.old bytes.now machine.new }
{
    match entry_of_record(global, machine, bytes) {
        Ok(entry) => enter_entry(machine, bytes, entry),
        Err(fault) => Err(fault),
    }
}

/// Reads the next record, and returns whether there is one.
pub(crate) fn read_record<D: Device>(scan: &mut Scan, device: &mut D) -> Result<bool, OpenFault>
    ensures reads { OfRead (D.holds device.old) scan.old
        (λ all file. IsNext result all file scan.new) }
    ensures same { (file : List ℕ) → D.holds device.old file → D.holds device.new file }
    ensures stays { D.tells → StaysKept (D.disk device.old) (D.disk device.new) }
    ensures cause { D.tells → ScanCause result scan.old (D.disk device.old) (D.disk device.new) }
    ensures further { IfOk result (λ more. more ≡ true → GoesFurther scan.old scan.new) }
    ensures place { IfErr result (IsAt scan.old.end) }
{
    scan.next(device)
}

/// Reads the head of a file of which nothing was read, and checks it against the rules. Returns whether there is one.
fn read_head_record<D: Device>(
    scan: &mut Scan,
    device: &mut D,
    rules: &Rules,
) -> Result<bool, StartFault>
    ensures head { OfBehind (D.holds device.old) [] scan.old (ReadsHead result rules.now scan.new) }
    ensures same { (file : List ℕ) → D.holds device.old file → D.holds device.new file }
    ensures stays { D.tells → StaysKept (D.disk device.old) (D.disk device.new) }
    ensures cause { D.tells → UnreadCause result scan.old (D.disk device.old) (D.disk device.new) }
{
    match read_record(scan, device) {
        Ok(true) => match check_head(scan.record(), rules) {
            Ok(()) => Ok(true),
            Err(fault) => Err(fault),
        },
        Ok(false) => Ok(false),
        Err(fault) => Err(StartFault::Journal(fault)),
    }
}

/// Reads the next record and enters its entry into a machine: false if there is no record. On a fault the machine is as it was.
fn enter_next<D: Device, A: Allocator + Clone>(
    global: Global,
    machine: &mut Machine<A>,
    scan: &mut Scan,
    device: &mut D,
) -> Result<bool, StartFault>
    ensures enters { OfRead (D.holds device.old) scan.old
        (λ read file. EntersNextRecord result read file scan.new machine.old machine.new) }
    ensures same { (file : List ℕ) → D.holds device.old file → D.holds device.new file }
    ensures stays { D.tells → StaysKept (D.disk device.old) (D.disk device.new) }
    ensures cause { D.tells → ReadCause result scan.old (D.disk device.old) (D.disk device.new) }
    ensures further { IfOk result (λ more. more ≡ true → GoesFurther scan.old scan.new) }
{
    match read_record(scan, device) {
        Ok(true) => match enter_record(global, machine, scan.record()) {
            Ok(()) => Ok(true),
            Err(fault) => Err(fault),
        },
        Ok(false) => Ok(false),
        Err(fault) => Err(StartFault::Journal(fault)),
    }
}

/// Enters the entries of the remaining records into a machine, each before the next is read. On a fault it is in the state after the entries
/// before.
fn enter_all<D: Device, A: Allocator + Clone>(
    global: Global,
    machine: &mut Machine<A>,
    scan: &mut Scan,
    device: &mut D,
) -> Result<(), StartFault>
    ensures enters { OfRead (D.holds device.old) scan.old
        (λ read file. EntersAll result read file scan.new machine.old machine.new) }
    ensures same { (file : List ℕ) → D.holds device.old file → D.holds device.new file }
    ensures stays { D.tells → StaysKept (D.disk device.old) (D.disk device.new) }
    ensures cause { D.tells → ReadCause result scan.old (D.disk device.old) (D.disk device.new) }
{
    loop {
        match enter_next(global, machine, scan, device) {
            Ok(true) => {}
            Ok(false) => return Ok(()),
            Err(fault) => return Err(fault),
        }
    }
}

/// The machine after the entries of a file of these rules whose head was read, and where its records end.
pub(crate) fn replay_behind_head<D: Device, A: Allocator + Clone>(
    global: Global,
    alloc: A,
    rules: &Rules,
    scan: &mut Scan,
    device: &mut D,
) -> Result<(Machine<A>, Extent), StartFault>
    ensures found { OfBehind (D.holds device.old) (head_of rules.now) scan.old (FindsBehind result rules.now) }
    ensures few { IfOk result (λ found. found.1.count ≤ found.1.end) }
    ensures same { (file : List ℕ) → D.holds device.old file → D.holds device.new file }
    ensures stays { D.tells → StaysKept (D.disk device.old) (D.disk device.new) }
    ensures cause { D.tells → HeadCause result rules.now scan.old (D.disk device.old) (D.disk device.new) }
{
    rules.expose_bound();
    let Ok(mut machine) = Machine::new_in(global, alloc, rules.profile, rules.clients_max) else {
        return Err(StartFault::NoMemory);
    };
    match enter_all(global, &mut machine, scan, device) {
        Ok(()) => Ok((machine, scan.extent())),
        Err(fault) => {
            drop(machine);
            Err(fault)
        }
    }
}

/// The machine of a file without records.
fn new_machine<A: Allocator + Clone>(
    global: Global,
    alloc: A,
    rules: &Rules,
    extent: Extent,
) -> Result<(Machine<A>, Extent), StartFault>
    requires few { extent.count ≤ extent.end }
    ensures found { (file : List ℕ) → ReplaysEmpty result rules.now extent file }
    ensures fault { IfErr result (λ fault. fault ≡ StartFault.NoMemory) }
    ensures few { IfOk result (λ found. found.1.count ≤ found.1.end) }
{
    rules.expose_bound();
    match Machine::new_in(global, alloc, rules.profile, rules.clients_max) {
        Ok(machine) => Ok((machine, extent)),
        Err(_) => Err(StartFault::NoMemory),
    }
}

/// The machine after the entries of a file of which nothing was read.
fn replay_records<D: Device, A: Allocator + Clone>(
    global: Global,
    alloc: A,
    rules: &Rules,
    scan: &mut Scan,
    device: &mut D,
) -> Result<(Machine<A>, Extent), StartFault>
    ensures found { OfBehind (D.holds device.old) [] scan.old (ReplaysJournal result rules.now.profile rules.now.clients_max) }
    ensures few { IfOk result (λ found. found.1.count ≤ found.1.end) }
    ensures same { (file : List ℕ) → D.holds device.old file → D.holds device.new file }
    ensures stays { D.tells → StaysKept (D.disk device.old) (D.disk device.new) }
    ensures cause { D.tells → UnreadCause result scan.old (D.disk device.old) (D.disk device.new) }
{
    match read_head_record(scan, device, rules) {
        Ok(true) => replay_behind_head(global, alloc, rules, scan, device),
        Ok(false) => new_machine(global, alloc, rules, scan.extent()),
        Err(fault) => Err(fault),
    }
}

/// Reads a file of these rules record by record, and enters each record before the next is read. Returns the machine after its entries, and where
/// its records end. For a file without records the machine is that of the empty history. What was read is durable; nothing is written. The first
/// record that is damaged, or is not that of the next entry, is reported. The machine's records allocate from `alloc`.
pub fn replay_journal<D: Device, A: Allocator + Clone>(
    global: Global,
    alloc: A,
    rules: &Rules,
    device: &mut D,
) -> Result<(Machine<A>, Extent), StartFault>
    // For any device, by the file that it reads.
    ensures found { OfHeld (D.holds device.old) (ReplaysJournal result rules.now.profile rules.now.clients_max) }
    ensures few { IfOk result (λ found. found.1.count ≤ found.1.end) }
    // If no sync has failed before.
    ensures kept { D.tells → KeepsRead result (D.disk device.old) (D.disk device.new) }
    ensures sound { D.tells → OnOk result ((D.disk device.new).sound ≡ (D.disk device.old).sound) }
    ensures same { (file : List ℕ) → D.holds device.old file → D.holds device.new file }
    ensures untouched { D.tells → IsDiskUntouched (D.disk device.old) (D.disk device.new) }
    ensures cause { D.tells → HasStartCause result (D.disk device.old) (D.disk device.new) }
{
    match Scan::start(global, device) {
        Ok(mut scan) => replay_records(global, alloc, rules, &mut scan, device),
        Err(fault) => Err(StartFault::Journal(fault)),
    }
}

/// The record of a head.
pub fn write_head(profile: Profile, clients_max: ClientsMax) -> [u8; 6]
    ensures { result ≡ head_record profile clients_max }
{
    let number = match profile {
        Profile::One => 1,
        Profile::Two => 2,
    };
    [b'T', b'B', b'K', b'1', number, clients_max.get() as u8]
}

/// The rules that a record names, if it is a head. None for any other record.
pub fn read_head(bytes: &[u8]) -> Option<(Profile, ClientsMax)>
    ensures { NamesRules result bytes.now }
{
    let [b'T', b'B', b'K', b'1', number, clients_max] = bytes else {
        return None;
    };
    let profile = match number {
        1 => Profile::One,
        2 => Profile::Two,
        _ => return None,
    };
    let clients_max = ClientsMax::new(*clients_max as u32)?;
    Some((profile, clients_max))
}

/// The rules of a ledger.
#[derive(Clone, Copy)]
pub struct Rules {
    pub profile: Profile,
    pub clients_max: ClientsMax,
}

impl Rules {
    /// Does nothing. Its clause gives a caller's proof the bound of the number of clients, which the field's type does not.
    pub fn expose_bound(&self)
        ensures { IsClients self.now.clients_max }
    {
        let _clients = self.clients_max.get();
    }
}

/// Checks that a record is the head of a ledger of these rules.
pub(crate) fn check_head(bytes: &[u8], rules: &Rules) -> Result<(), StartFault>
    ensures { HeadRecordAnswers result bytes.now rules.now.profile rules.now.clients_max }
{
    let Some((profile, clients_max)) = read_head(bytes) else {
        return Err(StartFault::Head);
    };
    if profile != rules.profile || clients_max.get() != rules.clients_max.get() {
        return Err(StartFault::OtherRules);
    }
    Ok(())
}
