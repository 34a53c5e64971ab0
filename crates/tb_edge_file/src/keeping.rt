//! The serving of a ledger over a device.
ghost use Rattle.std.specs.Prelude.{◌≡◌, true, IfOk};
ghost use Rattle.tb_file.specs.Keeping.{IsFresh, IsUsable};
ghost use Rattle.tb_edge_file.specs.Ends.{OnPipes, outcome_by};
ghost use Rattle.tb_edge_file.specs.Naming.{NamesAsked, Left};
ghost use Rattle.tb_edge_file.specs.Outcomes.{StartsBy, HandsBy, IsAside};
ghost use Rattle.tb_edge_file.specs.private.Stages.{KeepsOver, RunsFile, StartsOver};
ghost use Rattle.tb_edge_file.specs.ExitStatuses.{failed_pipe, kept_fault};

use crate::ends::Pipes;
use crate::faults::{Failed, KeepCommandFault, disk_fault, kept_fault};
use crate::lines::{print_cut, print_made, print_reading, print_ready};
use crate::naming::named_asked;
use std::alloc::{Allocator, Global};
use tb_file::{KeepFault, Keeper, NotKept, Rules, keep};
use tb_file_journal::{Device, LATCH_BYTES};
use tb_machine::over_two_pools;
use tb_records::{Sink, Source};

/// A start: the path of its file and its rules, whether it reports that it reads and that it is ready, and whether the file has to have a ledger.
#[derive(Clone, Copy)]
pub struct FileStart<'a> {
    pub path: &'a str,
    pub rules: Rules,
    pub reports: bool,
    pub existing: bool,
}

/// The fault of a ledger of these rules that was not opened, with what there is to say of its file.
fn refused<D: Device + Drop>(alloc: Global, failed: NotKept<D>, asked: Rules) -> KeepCommandFault
    ensures { Left (NamesAsked D.Device asked failed.fault result failed.device) }
{
    let NotKept { device, fault } = failed;
    let mut device = device;
    let named = named_asked(alloc, &mut device, asked, fault);
    drop(device);
    named
}

/// Which pipe failed, if one did, by how many errors a reader had before and has now.
pub(crate) fn failed_pipe(before: u64, now: u64) -> Failed
    ensures { result ≡ failed_pipe before now }
{
    if before == now {
        Failed::Output
    } else {
        Failed::Input
    }
}

/// What is reported of serving that ended so.
fn kept_outcome(kept: Result<u64, KeepFault>, pipe: Failed) -> Result<(), KeepCommandFault>
    ensures { result ≡ outcome_by (kept_fault pipe) kept }
{
    match kept {
        Ok(_) => Ok(()),
        Err(fault) => Err(kept_fault(fault, pipe)),
    }
}

/// Serves pairs over a ledger until they end. First it reports what its start did to the file of this path: made a ledger, if it had no record, or
/// cut bytes off after the records. Then it reports that the start is done, if that is wanted.
fn serve<D: Device + Drop, A: Allocator + Clone, R: Source, W: Sink, E: Sink>(
    alloc: Global,
    keeper: Keeper<D, A>,
    file: &FileStart,
    len: usize,
    pipes: &mut Pipes<R, W>,
    faults: &mut E,
) -> Result<(), KeepCommandFault>
    requires usable { IsUsable keeper }
    requires fresh { D.tells → IsFresh D.disk keeper }
    ensures { OnPipes R.Source W.Sink E.Sink (KeepsOver D.Device result keeper file.now len) pipes faults }
{
    let mut keeper = keeper;
    let cut = keeper.cut_bytes();
    let at = (len as u64)
        .saturating_sub(cut)
        .saturating_sub(LATCH_BYTES as u64);
    print_made(at, file.path, faults);
    print_cut(cut, at, faults);
    let machine = keeper.machine();
    print_ready(file.reports, machine.commit(), machine.time(), faults);
    let failures = pipes.reader.failures();
    let kept = keep(alloc, &mut keeper, &mut pipes.reader, &mut pipes.writer);
    drop(keeper);
    kept_outcome(kept, failed_pipe(failures, pipes.reader.failures()))
}

/// Opens a ledger over a device; unless the ledger has to exist, creates one in a blank file.
fn started<D: Device, A: Allocator + Copy>(
    alloc: Global,
    pool: A,
    device: D,
    rules: Rules,
    existing: bool,
) -> Result<Keeper<D, A>, NotKept<D>>
    ensures starts { D.tells → StartsBy D.Device existing result rules device }
    ensures handed { HandsBy D.Device existing result rules device }
    ensures aside { IsAside D.Device result device }
    ensures usable { IfOk result IsUsable }
    ensures fresh { D.tells → (D.disk device).sound ≡ true → IfOk result (IsFresh D.disk) }
{
    if existing {
        return Keeper::open(alloc, pool, device, rules);
    }
    Keeper::start(alloc, pool, device, rules)
}

/// A device, and how many bytes its file had before a start.
#[derive(Drop)]
struct Measured<D> {
    device: D,
    len: usize,
}

/// Opens a ledger over a device, or creates one, and serves pairs until they end: each reply is sent when the entry that it rests on is in the
/// file. The machine's records are allocated in the pool.
fn start<D: Device + Drop, A: Allocator + Copy, R: Source, W: Sink, E: Sink>(
    alloc: Global,
    pool: A,
    measured: Measured<D>,
    file: &FileStart,
    pipes: &mut Pipes<R, W>,
    faults: &mut E,
) -> Result<(), KeepCommandFault>
    requires { D.tells → (D.disk measured.device).sound ≡ true }
    ensures { OnPipes R.Source W.Sink E.Sink (StartsOver D.Device result file.now measured.len measured.device) pipes faults }
{
    let Measured { device, len } = measured;
    print_reading(file.reports, file.path, len, faults);
    match started(alloc, pool, device, file.rules, file.existing) {
        Ok(keeper) => serve(alloc, keeper, file, len, pipes, faults),
        Err(failed) => Err(refused(alloc, failed, file.rules)),
    }
}

/// The same, with the records of the machine in two pools over memory of `below`.
fn start_over<D: Device + Drop, A: Allocator + Copy, R: Source, W: Sink, E: Sink>(
    alloc: Global,
    below: A,
    measured: Measured<D>,
    file: &FileStart,
    pipes: &mut Pipes<R, W>,
    faults: &mut E,
) -> Result<(), KeepCommandFault>
    requires { D.tells → (D.disk measured.device).sound ≡ true }
    ensures { OnPipes R.Source W.Sink E.Sink (StartsOver D.Device result file.now measured.len measured.device) pipes faults }
{
    over_two_pools!(
        below,
        pool,
        start(alloc, &pool, measured, file, pipes, faults)
    )
}

/// Serves pairs over the device of a path, after asking for its length. The machine has its records in pools.
pub(crate) fn run<D: Device + Drop, R: Source, W: Sink, E: Sink>(
    alloc: Global,
    device: D,
    file: &FileStart,
    pipes: &mut Pipes<R, W>,
    faults: &mut E,
) -> Result<(), KeepCommandFault>
    requires { D.tells → (D.disk device).sound ≡ true }
    ensures { OnPipes R.Source W.Sink E.Sink (RunsFile D.Device result file.now device) pipes faults }
{
    let mut device = device;
    match device.len() {
        Ok(len) => {
            let measured = Measured { device, len };
            over_two_pools!(
                alloc,
                pool,
                start_over(alloc, &pool, measured, file, pipes, faults)
            )
        }
        Err(fault) => {
            drop(device);
            Err(disk_fault(fault))
        }
    }
}
