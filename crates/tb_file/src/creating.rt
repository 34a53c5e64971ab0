//! A kept file is created, or opened after a crash.
ghost use Rattle.std.specs.Prelude.{◌≡◌, ◌≤◌, ◌+◌, ◌-◌, true, ℕ, List, [], IfOk, IfErr, OnOk, MatchResult};
ghost use Rattle.tb_file_journal.specs.Device.{HasOwnCause, OfHeld, SetsAside};
ghost use Rattle.tb_file_journal.specs.Contents.{recorded};
ghost use Rattle.tb_file_journal.specs.Ready.{IsReady};
ghost use Rattle.tb_file_journal.specs.Creating.{is_blank};
ghost use Rattle.tb_machine.specs.Histories.{start};
ghost use Rattle.tb_file.specs.Keeping.{Keeps, IsFresh, IsUsable};
ghost use Rattle.tb_file.specs.Recovering.{IsNotOfFile, HasStartCause, AreAside, torn_bytes};
ghost use Rattle.tb_file.specs.Creating.{OpensFile, CreatesLedgerIn, StartsFile, IsOpenedLedger, IsStarted, MayBeOpened, LedgerMayBeCreated, MayBeStarted, IsOpenRefused, IsCreateRefused, IsStartRefused, HasCreateStartCause, HasEitherCause, history_of, keeper_device_left, Causes, GivesBackBy, GivesIfSound, LeavesBy, GivesDeviceBack};
ghost use Rattle.tb_file.specs.RecordSteps.{OfExtent};
ghost use Rattle.tb_file.specs.private.Headed.{HasHead, HasRecords, IsOfFailedDevice, HasDeviceCause, journal_left, OpensRestored, HeadLeaves, IsOf, OpensOnly, IsEmpty, KeeperMayServe, WasRead, WasRestored};

use crate::faults::StartFault;
use crate::keepers::Keeper;
use crate::recovering::{Rules, replay_journal, write_head};
use crate::rounds::BATCH_BYTES_MAX;
use crate::torn::torn_behind;
use std::alloc::{Allocator, Global};
use tb_file_journal::{
    Device, Extent, FileContent, Journal, JournalFault, NotOpened, OpenFault, Refusal, look,
};
use tb_machine::Machine;

/// A device whose file was not opened as a kept ledger, and why.
#[derive(Drop)]
pub struct NotKept<D: Device> {
    pub device: D,
    pub fault: StartFault,
}

/// A journal that was not opened, as a ledger that was not opened.
fn not_kept<D: Device>(failed: NotOpened<D>) -> NotKept<D>
    ensures device { result.device ≡ failed.device }
    ensures fault { result.fault ≡ StartFault.Journal failed.fault }
{
    NotKept {
        device: failed.device,
        fault: StartFault::Journal(failed.fault),
    }
}

/// Commits the head of a file without records.
fn commit_head<D: Device>(journal: &mut Journal<D>, rules: Rules) -> Result<(), JournalFault>
    requires usable { journal.old.usable ≡ true }
    requires empty { D.tells → IsEmpty D.disk journal.old }
    ensures ok { D.tells → IsReady D.disk journal.old → OnOk result (HasHead D.disk rules journal.new) }
    ensures any_moment { D.tells → HeadLeaves D.disk rules journal.old journal.new.device }
    ensures fault { IfErr result (λ fault. IsOfFailedDevice (StartFault.Journal (OpenFault.Device fault))) }
    ensures cause { D.tells → HasOwnCause result (D.disk journal.old.device) (D.disk journal.new.device) }
    ensures usable { OnOk result (journal.new.usable ≡ true) }
{
    let head = write_head(rules.profile, rules.clients_max);
    match journal.append(&head) {
        Ok(()) => journal.commit(),
        Err(fault) => Err(fault),
    }
}

/// Commits the head of a file without records. On a fault the device is returned.
fn add_head<D: Device>(journal: Journal<D>, rules: Rules) -> Result<Journal<D>, NotKept<D>>
    requires usable { journal.usable ≡ true }
    requires empty { D.tells → IsEmpty D.disk journal }
    ensures head { D.tells → IsReady D.disk journal → IfOk result (HasHead D.disk rules) }
    ensures any_moment { D.tells → HeadLeaves D.disk rules journal (journal_left result) }
    ensures fault { IfErr result (λ failed. IsOfFailedDevice failed.fault) }
    ensures cause { D.tells → Causes D.disk journal.device result (journal_left result) HasDeviceCause }
    ensures usable { IfOk result (λ journal. journal.usable ≡ true) }
    ensures outside { IfErr result (λ failed. IsNotOfFile failed.fault) }
{
    let mut journal = journal;
    match commit_head(&mut journal, rules) {
        Ok(()) => Ok(journal),
        Err(fault) => Err(NotKept {
            device: journal.into_device(),
            fault: StartFault::Journal(OpenFault::Device(fault)),
        }),
    }
}

/// Creates a journal with a head in an empty file.
fn create_journal<D: Device>(
    global: Global,
    device: D,
    rules: Rules,
) -> Result<Journal<D>, NotKept<D>>
    ensures head { D.tells → (D.disk device).sound ≡ true → IfOk result (HasHead D.disk rules) }
    ensures blank { D.tells → IfOk result (λ _. is_blank (D.disk device).seen ≡ true) }
    ensures any_moment { D.tells → LeavesBy D.disk rules device (journal_left result) LedgerMayBeCreated }
    ensures refused { D.tells → GivesDeviceBack D.disk device result IsCreateRefused }
    ensures cause { D.tells → Causes D.disk device result (journal_left result) HasCreateStartCause }
    ensures usable { IfOk result (λ journal. journal.usable ≡ true) }
    ensures outside { IfErr result (λ failed. IsNotOfFile failed.fault) }
    // By the file that it reads.
    ensures handed { (file : List ℕ) → D.holds device file → CreatesLedgerIn D.holds result file }
{
    match tb_file_journal::create(global, device) {
        Ok(journal) => add_head(journal, rules),
        Err(failed) => Err(not_kept(failed)),
    }
}

/// Creates a kept ledger without entries in an empty file. If something is in the file the fault is NotEmpty, and the file is as it was. The
/// machine's records allocate from `alloc`, here and in `open` and `start`.
pub fn create<D: Device, A: Allocator + Clone>(
    global: Global,
    alloc: A,
    device: D,
    rules: Rules,
) -> Result<Keeper<D, A>, NotKept<D>>
    // If no sync has failed before.
    ensures kept { D.tells → (D.disk device).sound ≡ true
        → IfOk result (Keeps D.disk (history_of rules.profile rules.clients_max [])) }
    ensures fresh { D.tells → (D.disk device).sound ≡ true → IfOk result (IsFresh D.disk) }
    ensures blank { D.tells → IfOk result (λ _. is_blank (D.disk device).seen ≡ true) }
    // A crash at any moment of the call leaves the file as it was, or no entry in it.
    ensures any_moment { D.tells → LeavesBy D.disk rules device (keeper_device_left result) LedgerMayBeCreated }
    ensures refused { D.tells → GivesDeviceBack D.disk device result IsCreateRefused }
    ensures cause { D.tells → Causes D.disk device result (keeper_device_left result) HasCreateStartCause }
    // For any device.
    ensures empty { IfOk result (λ keeper. keeper.state ≡ start rules.profile rules.clients_max) }
    ensures uncut { IfOk result (λ keeper. keeper.cut ≡ 0) }
    ensures usable { IfOk result IsUsable }
    ensures outside { IfErr result (λ failed. IsNotOfFile failed.fault) }
    // By the file that it reads.
    ensures handed { (file : List ℕ) → D.holds device file → CreatesLedgerIn D.holds result file }
{
    rules.expose_bound();
    let Ok(machine) = Machine::new_in(global, alloc, rules.profile, rules.clients_max) else {
        return Err(NotKept {
            device,
            fault: StartFault::NoMemory,
        });
    };
    match create_journal(global, device, rules) {
        Ok(journal) => Ok(Keeper::new(global, journal, machine, 0)),
        Err(failed) => {
            drop(machine);
            Err(failed)
        }
    }
}

/// The journal of a file that was read to this extent. One without records gets a head.
fn open_journal<D: Device>(
    global: Global,
    device: D,
    rules: Rules,
    extent: Extent,
) -> Result<Journal<D>, NotKept<D>>
    requires few { extent.count ≤ extent.end }
    requires read { D.tells → WasRead D.disk device extent }
    ensures opened { D.tells → (D.disk device).sound ≡ true
        → IfOk result (HasRecords D.disk rules (recorded (D.disk device).seen)) }
    ensures any_moment { D.tells → LeavesBy D.disk rules device (journal_left result) OpensOnly }
    ensures fault { D.tells → IfErr result (λ failed. IsOfFailedDevice failed.fault) }
    ensures cause { D.tells → Causes D.disk device result (journal_left result) HasStartCause }
    ensures usable { IfOk result (λ journal. journal.usable ≡ true) }
    ensures outside { IfErr result (λ failed. IsNotOfFile failed.fault) }
    ensures aside { OfHeld (D.holds device) (λ file. IfOk result (λ _. SetsAside D.aside (extent.end + 4) file)) }
{
    match Journal::open(global, device, extent) {
        Ok(journal) => {
            if journal.count() == 0 {
                add_head(journal, rules)
            } else {
                Ok(journal)
            }
        }
        Err(failed) => Err(not_kept(failed)),
    }
}

/// The keeper of a file that was read to this extent, from which a machine was restored. `cut` torn bytes are cut off.
fn open_keeper<D: Device, A: Allocator + Clone>(
    global: Global,
    device: D,
    rules: Rules,
    extent: Extent,
    machine: Machine<A>,
    cut: u64,
) -> Result<Keeper<D, A>, NotKept<D>>
    requires few { extent.count ≤ extent.end }
    requires restored { D.tells → WasRestored D.disk rules device machine extent }
    requires torn { D.tells → cut ≡ torn_bytes (D.disk device).seen }
    ensures opened { D.tells → GivesIfSound D.disk rules device result IsOpenedLedger }
    ensures serves { KeeperMayServe D.tells D.disk device result }
    ensures any_moment { D.tells → LeavesBy D.disk rules device (keeper_device_left result) OpensOnly }
    ensures fault { D.tells → IfErr result (λ failed. IsOfFailedDevice failed.fault) }
    ensures cause { D.tells → Causes D.disk device result (keeper_device_left result) HasStartCause }
    ensures any_device { MatchResult result (IsOf machine cut) (λ failed. IsNotOfFile failed.fault) }
    ensures aside { OfHeld (D.holds device) (λ file. IfOk result (λ _. SetsAside D.aside (extent.end + 4) file)) }
{
    match open_journal(global, device, rules, extent) {
        Ok(journal) => Ok(Keeper::new(global, journal, machine, cut)),
        Err(failed) => {
            drop(machine);
            Err(failed)
        }
    }
}

/// The keeper of a file that was read to this extent, from which a machine was restored. The file is refused if more torn bytes are after its
/// records than one batch can have.
fn open_unless_torn_long<D: Device, A: Allocator + Clone>(
    global: Global,
    device: D,
    rules: Rules,
    extent: Extent,
    machine: Machine<A>,
) -> Result<Keeper<D, A>, NotKept<D>>
    requires few { extent.count ≤ extent.end }
    requires restored { D.tells → WasRestored D.disk rules device machine extent }
    ensures opened { D.tells → GivesIfSound D.disk rules device result IsOpenedLedger }
    ensures serves { KeeperMayServe D.tells D.disk device result }
    ensures any_moment { D.tells → LeavesBy D.disk rules device (keeper_device_left result) MayBeOpened }
    ensures refused { D.tells → GivesBackBy D.disk rules device result IsOpenRefused }
    ensures cause { D.tells → Causes D.disk device result (keeper_device_left result) HasStartCause }
    ensures handed { OfHeld (D.holds device) (OpensRestored result rules machine extent) }
    ensures aside { OfExtent (D.holds device) extent
        (λ file. IfOk result (λ keeper. AreAside D.aside keeper.cut file)) }
{
    let mut device = device;
    match torn_behind(&mut device, extent, BATCH_BYTES_MAX) {
        Ok(torn) => open_keeper(global, device, rules, extent, machine, torn),
        Err(fault) => {
            drop(machine);
            Err(NotKept {
                device,
                fault: StartFault::from(fault),
            })
        }
    }
}

impl<D: Device, A: Allocator + Copy> Keeper<D, A> {
    /// Opens a kept ledger: its machine is in the state after the entries that the file has. The file is read in pieces, and each record is entered
    /// before the next is read. A file without records gets a head. What a crash left after the records is cut off if it is no more than one batch
    /// can have. More than that is damage, and the file stays as it was (TornTooLong).
    pub fn open(
        global: Global,
        alloc: A,
        device: D,
        rules: Rules,
    ) -> Result<Keeper<D, A>, NotKept<D>>
        // If no sync has failed before.
        ensures opened { D.tells → GivesIfSound D.disk rules device result IsOpenedLedger }
        // So `keep` may serve.
        ensures fresh { D.tells → (D.disk device).sound ≡ true → IfOk result (IsFresh D.disk) }
        ensures usable { IfOk result IsUsable }
        // A crash at any moment of the call leaves the history that was there, so that the call may be made again.
        ensures any_moment { D.tells → LeavesBy D.disk rules device (keeper_device_left result) MayBeOpened }
        // A file that is refused stays as it was.
        ensures refused { D.tells → GivesBackBy D.disk rules device result IsOpenRefused }
        ensures cause { D.tells → Causes D.disk device result (keeper_device_left result) HasStartCause }
        // For any device, by the file that it reads.
        ensures handed { OfHeld (D.holds device) (OpensFile result rules.profile rules.clients_max) }
        // What was cut off was set aside before.
        ensures aside { OfHeld (D.holds device) (λ file. IfOk result (λ keeper. AreAside D.aside keeper.cut file)) }
    {
        let mut device = device;
        match replay_journal(global, alloc, &rules, &mut device) {
            Ok((machine, extent)) => open_unless_torn_long(global, device, rules, extent, machine),
            Err(fault) => Err(NotKept { device, fault }),
        }
    }

    /// Creates a kept ledger if the file is empty, and otherwise opens the one that it has. A file that begins with other bytes than a journal is
    /// refused at once.
    pub fn start(
        global: Global,
        alloc: A,
        device: D,
        rules: Rules,
    ) -> Result<Keeper<D, A>, NotKept<D>>
        // If no sync has failed before.
        ensures started { D.tells → GivesIfSound D.disk rules device result IsStarted }
        ensures fresh { D.tells → (D.disk device).sound ≡ true → IfOk result (IsFresh D.disk) }
        ensures usable { IfOk result IsUsable }
        ensures any_moment { D.tells → LeavesBy D.disk rules device (keeper_device_left result) MayBeStarted }
        ensures refused { D.tells → GivesBackBy D.disk rules device result IsStartRefused }
        ensures cause { D.tells → Causes D.disk device result (keeper_device_left result) HasEitherCause }
        // For any device, by the file that it reads.
        ensures handed { OfHeld (D.holds device) (StartsFile result rules.profile rules.clients_max) }
        // What was cut off was set aside before.
        ensures aside { OfHeld (D.holds device) (λ file. IfOk result (λ keeper. AreAside D.aside keeper.cut file)) }
    {
        let mut device = device;
        match look(&mut device) {
            Ok(FileContent::Blank) => create(global, alloc, device, rules),
            Ok(FileContent::Journal) => Keeper::open(global, alloc, device, rules),
            Ok(FileContent::Other) => Err(NotKept {
                device,
                fault: StartFault::Journal(OpenFault::Refused(Refusal::NotAJournal)),
            }),
            Err(fault) => Err(NotKept {
                device,
                fault: StartFault::Journal(OpenFault::Device(fault)),
            }),
        }
    }
}
