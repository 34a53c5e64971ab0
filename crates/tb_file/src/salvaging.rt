//! The entries of a file copied into a new one: of a file that is damaged, and of one that is whole.
ghost use Rattle.std.specs.Prelude.{◌≡◌, ℕ, true, List, IfOk, IfErr, OnOk, OnErr};
ghost use Rattle.tb_file_journal.specs.Ready.{IsReady};
ghost use Rattle.tb_file_journal.specs.Scans.{GoesFurther};
ghost use Rattle.tb_file.specs.private.Entering.{ReadCause, HeadCause, UnreadCause};
ghost use Rattle.tb_file.specs.RecordSteps.{StaysKept, OfExtent};
ghost use Rattle.tb_file.specs.Creating.{IsDiskUntouched};
ghost use Rattle.tb_file.specs.Recovering.{HasStartCause};
ghost use Rattle.tb_file.specs.Salvaging.{IsSalvaged, IsUnsalvaged, IsBackedUp, IsNotBackedUp, salvaged_device, backup_device, why_old, LeavesSome, NewCause, SaysWhy};
ghost use Rattle.tb_file.specs.private.Taking.{HeadRead, IsOldDevice, IsTornStop, StaysUsed, StopsBy, TakesRecord, TakesNext, TakesAll, CommitsTaken, TakesRest, of_old, stop_of, Unread};

use crate::creating::create;
use crate::dumps::first_rules;
use crate::faults::{SalvageFault, StartFault};
use crate::keepers::Keeper;
use crate::putting::{append_batched, commit_waiting};
use crate::recovering::{Rules, enter_record, read_record};
use crate::rounds::BATCH_BYTES_MAX;
use crate::torn::{TornFault, torn_behind};
use std::alloc::Global;
use tb_file_journal::{Device, Extent, JournalFault, OpenFault, Scan};

/// A new file with the entries that were copied.
#[derive(Drop)]
pub struct Salvaged<N: Device> {
    /// The keeper of the new file. Its machine is in the state after these entries, and its commit number is that of the last.
    pub keeper: Keeper<N>,
    /// Where they end in the old file, in bytes: nothing after that was copied.
    pub end: u64,
    /// Why no more was copied: the fault for which a start refuses the old file. None if the old file is whole.
    pub stop: Option<StartFault>,
}

/// The device of a new file that was not created, or not completed, and why.
#[derive(Drop)]
pub struct NotSalvaged<N: Device> {
    pub device: N,
    pub fault: SalvageFault,
}

/// A journal's fault, as a fault of the new file.
fn new_fault(fault: JournalFault) -> SalvageFault
    ensures { result ≡ SalvageFault.New (StartFault.Journal (OpenFault.Device fault)) }
{
    SalvageFault::New(StartFault::Journal(OpenFault::Device(fault)))
}

/// Enters the entry of a record that is after those of a keeper, and appends the record for the next commit. If it is not that of the next entry,
/// nothing has changed.
#[tactic(auto, using(crate::proofs::Taking::takes_not))]
pub(crate) fn take_record<N: Device>(
    global: Global,
    keeper: &mut Keeper<N>,
    bytes: &[u8],
) -> Result<(), SalvageFault>
    requires usable { keeper.old.journal.usable ≡ true }
    requires ready { N.tells → IsReady N.disk keeper.old.journal }
    ensures takes { TakesRecord N.disk N.tells result bytes.now keeper.old keeper.new }
    ensures stays_used { StaysUsed keeper.old keeper.new }
{
    match enter_record(global, &mut keeper.machine, bytes) {
        Ok(()) => match append_batched(&mut keeper.journal, bytes) {
            Ok(()) => Ok(()),
            Err(fault) => Err(new_fault(fault)),
        },
        Err(fault) => Err(SalvageFault::Old(fault)),
    }
}

/// Copies the next record of a file: false if there is no record.
fn take_next<D: Device, N: Device>(
    global: Global,
    keeper: &mut Keeper<N>,
    scan: &mut Scan,
    from: &mut D,
) -> Result<bool, SalvageFault>
    requires usable { keeper.old.journal.usable ≡ true }
    requires ready { N.tells → IsReady N.disk keeper.old.journal }
    ensures takes { TakesNext N.disk N.tells (D.holds from.old) result scan.old scan.new keeper.old keeper.new }
    ensures stays_used { StaysUsed keeper.old keeper.new }
    ensures same { (file : List ℕ) → D.holds from.old file → D.holds from.new file }
    ensures stays { D.tells → StaysKept (D.disk from.old) (D.disk from.new) }
    ensures cause { D.tells → ReadCause (of_old result) scan.old (D.disk from.old) (D.disk from.new) }
    ensures further { IfOk result (λ more. more ≡ true → GoesFurther scan.old scan.new) }
{
    match read_record(scan, from) {
        Ok(true) => match take_record(global, keeper, scan.record()) {
            Ok(()) => Ok(true),
            Err(fault) => Err(fault),
        },
        Ok(false) => Ok(false),
        Err(fault) => Err(SalvageFault::Old(StartFault::Journal(fault))),
    }
}

/// Copies the remaining records, up to the first that is damaged or is not that of the next entry. Returns where the copied ones end, and why no
/// more were copied.
fn take_all<D: Device, N: Device>(
    global: Global,
    keeper: &mut Keeper<N>,
    scan: &mut Scan,
    from: &mut D,
) -> (Extent, Result<(), SalvageFault>)
    requires usable { keeper.old.journal.usable ≡ true }
    requires ready { N.tells → IsReady N.disk keeper.old.journal }
    ensures takes { TakesAll N.disk N.tells (D.holds from.old) result.0 result.1 scan.old keeper.old keeper.new }
    ensures stays_used { StaysUsed keeper.old keeper.new }
    ensures same { (file : List ℕ) → D.holds from.old file → D.holds from.new file }
    ensures stays { D.tells → StaysKept (D.disk from.old) (D.disk from.new) }
    ensures cause { D.tells → ReadCause (of_old result.1) scan.old (D.disk from.old) (D.disk from.new) }
{
    loop {
        let extent = scan.extent();
        match take_next(global, keeper, scan, from) {
            Ok(true) => {}
            Ok(false) => return (extent, Ok(())),
            Err(fault) => return (extent, Err(fault)),
        }
    }
}

/// The fault, if every start refuses the old file for it: it is damaged or no journal, or a record is not that of the next entry. None for any other.
pub(crate) fn stop_of(fault: SalvageFault) -> Option<StartFault>
    ensures { result ≡ stop_of fault }
{
    match fault {
        SalvageFault::Old(StartFault::Journal(OpenFault::Refused(why))) => {
            Some(StartFault::Journal(OpenFault::Refused(why)))
        }
        SalvageFault::Old(StartFault::Record { place, fault }) => {
            Some(StartFault::Record { place, fault })
        }
        SalvageFault::Old(StartFault::Entry(fault)) => Some(StartFault::Entry(fault)),
        _ => None,
    }
}

/// The fault for which a start refuses a file that was read to its end: too many torn bytes. None if they are few.
fn torn_stop<D: Device>(from: &mut D, extent: Extent) -> Result<Option<StartFault>, SalvageFault>
    ensures torn { OfExtent (D.holds from.old) extent (λ file. IfOk result (IsTornStop file)) }
    ensures same { (file : List ℕ) → D.holds from.old file → D.holds from.new file }
    ensures stays { D.tells → StaysKept (D.disk from.old) (D.disk from.new) }
    ensures fault { IfErr result IsOldDevice }
    ensures cause { D.tells → HasStartCause (of_old result) (D.disk from.old) (D.disk from.new) }
{
    match torn_behind(from, extent, BATCH_BYTES_MAX) {
        Ok(_) => Ok(None),
        Err(TornFault::TooLong { at, bytes }) => Ok(Some(StartFault::TornTooLong { at, bytes })),
        Err(TornFault::Device(fault)) => {
            Err(SalvageFault::Old(StartFault::Journal(OpenFault::Device(fault))))
        }
    }
}

/// Commits what waits in the journal of a new file.
#[tactic(auto, using(crate::proofs::Taking::commits_not))]
pub(crate) fn commit_taken<N: Device>(keeper: &mut Keeper<N>) -> Result<(), SalvageFault>
    requires usable { keeper.old.journal.usable ≡ true }
    requires ready { N.tells → IsReady N.disk keeper.old.journal }
    ensures commits { CommitsTaken N.disk N.tells result keeper.old keeper.new }
    ensures stays_used { StaysUsed keeper.old keeper.new }
{
    match commit_waiting(&mut keeper.journal) {
        Ok(()) => Ok(()),
        Err(fault) => Err(new_fault(fault)),
    }
}

/// Why no more was copied, by what ended it.
fn stopped_by<D: Device>(
    taken: Result<(), SalvageFault>,
    from: &mut D,
    extent: Extent,
) -> Result<Option<StartFault>, SalvageFault>
    ensures stops { StopsBy result taken (D.holds from.old) extent }
    ensures same { (file : List ℕ) → D.holds from.old file → D.holds from.new file }
    ensures stays { D.tells → StaysKept (D.disk from.old) (D.disk from.new) }
    ensures cause { D.tells → OnOk taken (HasStartCause (of_old result) (D.disk from.old) (D.disk from.new)) }
    ensures unread { OnErr taken (from.new ≡ from.old) }
{
    match taken {
        Ok(()) => torn_stop(from, extent),
        Err(fault) => match stop_of(fault) {
            Some(stop) => Ok(Some(stop)),
            None => Err(fault),
        },
    }
}

/// Copies the remaining records and commits them. Returns where they end in the file, and why no more were copied.
fn take_behind<D: Device, N: Device>(
    global: Global,
    keeper: &mut Keeper<N>,
    scan: &mut Scan,
    from: &mut D,
) -> Result<(Extent, Option<StartFault>), SalvageFault>
    requires usable { keeper.old.journal.usable ≡ true }
    requires ready { N.tells → IsReady N.disk keeper.old.journal }
    ensures takes { TakesRest N.disk N.tells (D.holds from.old) result scan.old keeper.old keeper.new }
    ensures stays_used { StaysUsed keeper.old keeper.new }
    ensures same { (file : List ℕ) → D.holds from.old file → D.holds from.new file }
    ensures stays { D.tells → StaysKept (D.disk from.old) (D.disk from.new) }
    ensures cause { D.tells → ReadCause (of_old result) scan.old (D.disk from.old) (D.disk from.new) }
{
    let (extent, taken) = take_all(global, keeper, scan, from);
    match stopped_by(taken, from, extent) {
        Ok(stop) => match commit_taken(keeper) {
            Ok(()) => Ok((extent, stop)),
            Err(fault) => Err(fault),
        },
        Err(fault) => Err(fault),
    }
}

/// Copies a file of these rules whose head was read.
fn salvage_behind<D: Device, N: Device>(
    global: Global,
    rules: Rules,
    scan: &mut Scan,
    from: &mut D,
    into: N,
) -> Result<Salvaged<N>, NotSalvaged<N>>
    requires sound { N.tells → (N.disk into).sound ≡ true }
    ensures salvaged { IfOk result
        (IsSalvaged N.tells N.disk
        (HeadRead (D.holds from.old) rules scan.old)) }
    ensures unsalvaged { SaysWhy (HeadRead (D.holds from.old) rules scan.old) result IsUnsalvaged }
    ensures any_moment { N.tells → LeavesSome N.disk (HeadRead (D.holds from.old) rules scan.old) into (salvaged_device result) }
    ensures cause_new { N.tells → NewCause N.disk into result (salvaged_device result) }
    ensures same { (file : List ℕ) → D.holds from.old file → D.holds from.new file }
    ensures stays { D.tells → StaysKept (D.disk from.old) (D.disk from.new) }
    ensures cause_old { D.tells → HeadCause (why_old result) rules scan.old (D.disk from.old) (D.disk from.new) }
{
    rules.expose_bound();
    let mut keeper = match create(global, global, into, rules) {
        Ok(keeper) => keeper,
        Err(failed) => {
            return Err(NotSalvaged {
                device: failed.device,
                fault: SalvageFault::New(failed.fault),
            });
        }
    };
    match take_behind(global, &mut keeper, scan, from) {
        Ok((extent, stop)) => Ok(Salvaged {
            keeper,
            end: extent.end as u64,
            stop,
        }),
        Err(fault) => Err(NotSalvaged {
            device: keeper.into_device(),
            fault,
        }),
    }
}

/// Copies a file of which nothing was read.
fn salvage_by<D: Device, N: Device>(
    global: Global,
    scan: &mut Scan,
    from: &mut D,
    into: N,
) -> Result<Salvaged<N>, NotSalvaged<N>>
    requires sound { N.tells → (N.disk into).sound ≡ true }
    ensures salvaged { IfOk result (IsSalvaged N.tells N.disk (Unread (D.holds from.old) scan.old)) }
    ensures unsalvaged { SaysWhy (Unread (D.holds from.old) scan.old) result IsUnsalvaged }
    ensures any_moment { N.tells → LeavesSome N.disk (Unread (D.holds from.old) scan.old) into (salvaged_device result) }
    ensures cause_new { N.tells → NewCause N.disk into result (salvaged_device result) }
    ensures same { (file : List ℕ) → D.holds from.old file → D.holds from.new file }
    ensures stays { D.tells → StaysKept (D.disk from.old) (D.disk from.new) }
    ensures cause_old { D.tells → UnreadCause (why_old result) scan.old (D.disk from.old) (D.disk from.new) }
{
    match first_rules(scan, from) {
        Ok(rules) => salvage_behind(global, rules, scan, from, into),
        Err(fault) => Err(NotSalvaged {
            device: into,
            fault: SalvageFault::Old(fault),
        }),
    }
}

/// Copies the entries of a file into a new one: all before the first damage, and before the first record that is not that of the next entry. The
/// old file is read once, and not written to. The new one is a kept ledger of the same rules, and what was copied is durable. No file is created if
/// the old one has no head, or is no journal.
///
/// The fault is Old, with the fault of a start, if the old file is no ledger or is not read on. It is New if the new file is not created or not
/// written to, for example because something is there already (NotEmpty). The new file then has nothing, or some first entries.
pub fn salvage<D: Device, N: Device>(
    global: Global,
    from: &mut D,
    into: N,
) -> Result<Salvaged<N>, NotSalvaged<N>>
    // No sync has failed on the new file's device before.
    requires sound { N.tells → (N.disk into).sound ≡ true }
    // For any device, by the file that the old one reads.
    ensures salvaged { IfOk result (IsSalvaged N.tells N.disk (D.holds from.old)) }
    ensures unsalvaged { SaysWhy (D.holds from.old) result IsUnsalvaged }
    // A crash at any moment of the call leaves no entry, or some first ones, in the new file.
    ensures any_moment { N.tells → LeavesSome N.disk (D.holds from.old) into (salvaged_device result) }
    ensures cause_new { N.tells → NewCause N.disk into result (salvaged_device result) }
    ensures same { (file : List ℕ) → D.holds from.old file → D.holds from.new file }
    ensures untouched { D.tells → IsDiskUntouched (D.disk from.old) (D.disk from.new) }
    ensures cause_old { D.tells → HasStartCause (why_old result) (D.disk from.old) (D.disk from.new) }
{
    match Scan::start(global, from) {
        Ok(mut scan) => salvage_by(global, &mut scan, from, into),
        Err(fault) => Err(NotSalvaged {
            device: into,
            fault: SalvageFault::Old(StartFault::Journal(fault)),
        }),
    }
}

/// Copies a file into a new one, as [`salvage`] does, but only a whole file: if a start would refuse it, its fault is returned (Old).
pub fn backup<D: Device, N: Device>(
    global: Global,
    from: &mut D,
    into: N,
) -> Result<Keeper<N>, NotSalvaged<N>>
    // No sync has failed on the new file's device before.
    requires sound { N.tells → (N.disk into).sound ≡ true }
    // For any device, by the file that the old one reads.
    ensures backed_up { IfOk result (IsBackedUp N.tells N.disk (D.holds from.old)) }
    ensures not_backed_up { SaysWhy (D.holds from.old) result IsNotBackedUp }
    // A crash at any moment of the call leaves no entry, or some first ones, in the new file.
    ensures any_moment { N.tells → LeavesSome N.disk (D.holds from.old) into (backup_device result) }
    ensures cause_new { N.tells → NewCause N.disk into result (backup_device result) }
    ensures same { (file : List ℕ) → D.holds from.old file → D.holds from.new file }
    ensures untouched { D.tells → IsDiskUntouched (D.disk from.old) (D.disk from.new) }
    ensures cause_old { D.tells → HasStartCause (why_old result) (D.disk from.old) (D.disk from.new) }
{
    match salvage(global, from, into) {
        Ok(salvaged) => match salvaged.stop {
            None => Ok(salvaged.keeper),
            Some(fault) => Err(NotSalvaged {
                device: salvaged.keeper.into_device(),
                fault: SalvageFault::Old(fault),
            }),
        },
        Err(failed) => Err(failed),
    }
}
