//! The forms over a ledger, over what opens devices, any reader and any writer.
ghost use Rattle.std.specs.Prelude.{◌≡◌, true, IfOk};
ghost use Rattle.tb_edge_file.specs.Ends.{made_by};
ghost use Rattle.tb_edge_file.specs.private.Stages.{DumpsAsked, RunsOpened};
ghost use Rattle.tb_edge_file.specs.Outcomes.{ChecksOver, DumpsOver, PrintsWhole, RunsOn, named_by};
ghost use Rattle.tb_edge_file.specs.Waiting.{EndsIf, ended_by, written_by};

use crate::asides::Reason;
use crate::ends::{Ends, Files, Pipes};
use crate::faults::{Failed, KeepCommandFault, reason_fault};
use crate::files::{check, dump};
use crate::following::{Part, follow};
use crate::keeping::{FileStart, run};
use crate::lines::print_frames;
use crate::openers::{Opener, OpeningFault};
use crate::outlets::Outlet;
use std::alloc::Global;
use tb_records::{Sink, Source, put_all};

/// Opens the device of a path that is served. If it has to exist, none is made; otherwise a missing one is made.
fn made_by<O: Opener>(opener: &mut O, path: &str, existing: bool) -> Result<O::File, OpeningFault>
    ensures made { made_by ⟦<O as Files>⟧.its existing opener.old path.now result opener.new }
    ensures sound { O.File.tells → IfOk result (λ device. (O.File.disk device).sound ≡ true) }
{
    if existing {
        return opener.take(path);
    }
    opener.make(path)
}

/// The outcome of serving. If a reason is known, a fault is named by it.
fn named_by(
    reason: Option<Reason>,
    served: Result<(), KeepCommandFault>,
) -> Result<(), KeepCommandFault>
    ensures { result ≡ named_by (λ fault. fault) reason served }
{
    match (reason, served) {
        (Some(reason), Err(_)) => Err(reason_fault(reason)),
        (_, served) => served,
    }
}

/// Opens the device of a path, and serves a ledger over it.
fn run_opened<O: Opener, R: Source, W: Outlet, E: Sink>(
    alloc: Global,
    opener: &mut O,
    file: &FileStart,
    pipes: &mut Pipes<R, W>,
    faults: &mut E,
) -> Result<(), KeepCommandFault>
    ensures { RunsOpened ⟦<O as Ends<R, W, E>>⟧.its file.now result opener pipes faults }
{
    match made_by(opener, file.path, file.existing) {
        Ok(device) => run(alloc, device, file, pipes, faults),
        Err(fault) => Err(KeepCommandFault::Opening(fault)),
    }
}

/// Serves a ledger over the device of a path. If requests would come from a terminal, it first reports which programs read words.
pub(crate) fn run_over<O: Opener, R: Source, W: Outlet, E: Sink>(
    alloc: Global,
    opener: &mut O,
    file: &FileStart,
    talks: bool,
    pipes: &mut Pipes<R, W>,
    faults: &mut E,
) -> Result<(), KeepCommandFault>
    ensures { RunsOn ⟦<O as Ends<R, W, E>>⟧.its file.now talks result opener pipes faults }
{
    print_frames(talks, faults);
    let served = run_opened(alloc, opener, file, pipes, faults);
    let reason = opener.reason();
    named_by(reason, served)
}

/// Writes a dump of a device, or the part of one that was asked for. Returns why the device is not followed any more, if that is so.
fn dump_part<O: Opener, W: Outlet>(
    alloc: Global,
    opener: &mut O,
    name: &str,
    device: &mut O::Reading,
    writer: &mut W,
    part: Part,
) -> Result<Option<Reason>, KeepCommandFault>
    ensures dumps { DumpsAsked O.Reading.Device W.Sink part (written_by result) device writer }
    ensures ends { EndsIf (λ from. O.pauses from name.now) part.follows result opener.old opener.new }
{
    match (part.after, part.follows) {
        (None, false) => match dump(alloc, device, writer) {
            Ok(()) => Ok(None),
            Err(fault) => Err(fault),
        },
        _ => follow(alloc, opener, name, device, writer, part),
    }
}

/// The outcome of a dump. If the device is not followed any more, the reason is the fault.
fn ended_by(dumped: Result<Option<Reason>, KeepCommandFault>) -> Result<(), KeepCommandFault>
    ensures { result ≡ ended_by dumped }
{
    match dumped {
        Ok(None) => Ok(()),
        Ok(Some(reason)) => Err(reason_fault(reason)),
        Err(fault) => Err(fault),
    }
}

/// Writes the dump of the device of a name, or the part of one that was asked for. One that is followed ends as Gone if the name leads to
/// another file.
pub fn dump_over<O: Opener, W: Outlet>(
    alloc: Global,
    opener: &mut O,
    name: &str,
    writer: &mut W,
    part: Part,
) -> Result<(), KeepCommandFault>
    ensures { DumpsOver ⟦<O as Files>⟧.its name.now opener.old opener.new part.after part.follows result
        (W.output writer.old) (W.output writer.new) }
{
    let opened = opener.open(name);
    match opened {
        Ok(device) => {
            let mut device = device;
            let dumped = dump_part(alloc, opener, name, &mut device, writer, part);
            drop(device);
            ended_by(dumped)
        }
        Err(fault) => Err(KeepCommandFault::Opening(fault)),
    }
}

/// Writes what is in the device of a name.
pub fn check_over<O: Opener, W: Sink>(
    alloc: Global,
    opener: &mut O,
    name: &str,
    quick: bool,
    writer: &mut W,
) -> Result<(), KeepCommandFault>
    ensures { ChecksOver ⟦<O as Files>⟧.its name.now opener.old opener.new quick result
        (W.output writer.old) (W.output writer.new) }
{
    let found = opener.open(name);
    match found {
        Ok(device) => {
            let mut device = device;
            let checked = check(alloc, &mut device, quick, writer);
            drop(device);
            checked
        }
        Err(fault) => Err(KeepCommandFault::Opening(fault)),
    }
}

/// Writes a text.
pub(crate) fn print<W: Sink>(writer: &mut W, text: &str) -> Result<(), KeepCommandFault>
    ensures { PrintsWhole text.now result (W.output writer.old) (W.output writer.new) }
{
    match put_all(writer, text.as_bytes()) {
        Ok(()) => Ok(()),
        Err(_) => Err(KeepCommandFault::Device(Failed::Output)),
    }
}
