//! The entries of a file above a commit number, written as the file grows.
ghost use Rattle.std.specs.Prelude.{◌≡◌, ℕ, List, IfOk};
ghost use Rattle.tb_edge_file.specs.Following.{floor_of, start_of};
ghost use Rattle.tb_edge_file.specs.Live.{LooksOnOk};
ghost use Rattle.tb_edge_file.specs.Outcomes.{PrintsWhole};
ghost use Rattle.tb_edge_file.specs.private.Stages.{FollowsAsked, HasHeldCause, HasRestCause, HasRoundCause, HasWholeCause, SendsMore, SendsOn, SendsRest, SendsUnread, WritesHeld, WritesUnread};
ghost use Rattle.tb_edge_file.specs.Waiting.{EndsIf, EndsWaiting, written_by};

use crate::asides::Reason;
use crate::faults::{Failed, KeepCommandFault, disk_fault, dumped_fault, opened_fault};
use crate::files::read_whole;
use crate::live::Live;
use crate::naming::named;
use crate::openers::{Opener, Waited};
use crate::outlets::Outlet;
use std::alloc::Global;
use tb_file::{Rules, write_entries};
use tb_file_journal::{Device, Scan};
use tb_records::dumps::send_head;
use tb_records::{DumpHead, Sink};

/// Which part of a history is written.
#[derive(Clone, Copy)]
pub struct Part {
    /// The entries above this commit number, without a head; all of them, as a dump, if there is no number.
    pub after: Option<u64>,
    /// Whether more are waited for.
    pub follows: bool,
}

/// Writes the entries that are left of a file and have a commit number above `after`, and sends out what is held back.
fn send_round<D: Device, W: Outlet>(
    scan: &mut Scan,
    device: &mut D,
    writer: &mut W,
    after: u64,
) -> Result<(), KeepCommandFault>
    ensures sends { SendsRest D.holds W.Sink result after scan device writer }
    ensures gone { IfOk result (λ _. W.gone writer.new) }
    ensures same { (file : List ℕ) → D.holds device.old file → D.holds device.new file }
    ensures cause { HasRoundCause D.Device result scan device }
{
    match write_entries(scan, device, writer, after) {
        Ok(_) => match writer.finish() {
            Ok(()) => Ok(()),
            Err(_) => Err(KeepCommandFault::Device(Failed::Output)),
        },
        Err(fault) => Err(dumped_fault(fault)),
    }
}

/// Looks at a file again, and writes the entries of what has been committed by now.
fn send_more<D: Live, W: Outlet>(
    scan: &mut Scan,
    device: &mut D,
    writer: &mut W,
    after: u64,
) -> Result<(), KeepCommandFault>
    ensures sends { SendsMore D.holds W.Sink result after scan device writer }
    ensures gone { IfOk result (λ _. W.gone writer.new) }
    ensures looks { LooksOnOk D.whole D.holds result device }
    ensures cause { HasRoundCause D.Device result scan device }
{
    match device.refresh() {
        Ok(()) => {
            scan.go_on();
            send_round(scan, device, writer, after)
        }
        Err(fault) => Err(disk_fault(fault)),
    }
}

/// As long as more entries are waited for, writes those that were committed meanwhile. Returns why the file is not followed any more, if that is so.
fn send_on<O: Opener, W: Outlet>(
    opener: &mut O,
    name: &str,
    scan: &mut Scan,
    device: &mut O::Reading,
    writer: &mut W,
    after: u64,
) -> Result<Option<Reason>, KeepCommandFault>
    ensures sends { SendsOn O.Reading.holds W.Sink (written_by result) after scan device writer }
    ensures ends { EndsWaiting (λ from. O.pauses from name.now) result opener.old opener.new }
    ensures cause { HasRestCause O.Reading.Device (written_by result) scan device }
{
    for _ in 0..u64::MAX {
        match opener.pause(name) {
            Waited::More => match send_more(scan, device, writer, after) {
                Ok(()) => {}
                Err(fault) => return Err(fault),
            },
            Waited::Enough => return Ok(None),
            Waited::Parted(reason) => return Ok(Some(reason)),
        }
    }
    // No machine comes to the end of so many rounds.
    Err(KeepCommandFault::NoMemory)
}

/// Writes the entries of a file of which nothing was read, and, if more are waited for, those that are committed meanwhile.
fn send_entries<O: Opener, W: Outlet>(
    opener: &mut O,
    name: &str,
    scan: &mut Scan,
    device: &mut O::Reading,
    writer: &mut W,
    after: u64,
    follows: bool,
) -> Result<Option<Reason>, KeepCommandFault>
    ensures sends { SendsUnread O.Reading.holds W.Sink (written_by result) follows after scan device writer }
    ensures ends { EndsIf (λ from. O.pauses from name.now) follows result opener.old opener.new }
    ensures cause { HasWholeCause O.Reading.Device (written_by result) scan device }
{
    match send_round(scan, device, writer, after) {
        Ok(()) => {
            if follows {
                send_on(opener, name, scan, device, writer, after)
            } else {
                Ok(None)
            }
        }
        Err(fault) => Err(fault),
    }
}

/// Writes the head of a dump of these rules, if all entries are written.
fn send_start<W: Sink>(
    writer: &mut W,
    rules: Rules,
    after: Option<u64>,
) -> Result<(), KeepCommandFault>
    ensures { PrintsWhole (start_of after rules) result (W.output writer.old) (W.output writer.new) }
{
    if after.is_some() {
        return Ok(());
    }
    let head = DumpHead {
        profile: rules.profile,
        clients_max: rules.clients_max,
    };
    match send_head(writer, head) {
        Ok(()) => Ok(()),
        Err(_) => Err(KeepCommandFault::Device(Failed::Output)),
    }
}

/// The commit number above which entries are written: 0, so that all are, if none is given.
fn floor_of(after: Option<u64>) -> u64
    ensures { result ≡ floor_of after }
{
    after.unwrap_or(0)
}

/// Writes the part of a file's history that was asked for, of a file of these rules of which nothing was read.
fn send_part<O: Opener, W: Outlet>(
    opener: &mut O,
    name: &str,
    scan: &mut Scan,
    device: &mut O::Reading,
    rules: Rules,
    writer: &mut W,
    part: Part,
) -> Result<Option<Reason>, KeepCommandFault>
    ensures writes { WritesUnread O.Reading.holds W.Sink (written_by result) part rules scan device writer }
    ensures ends { EndsIf (λ from. O.pauses from name.now) part.follows result opener.old opener.new }
    ensures cause { HasWholeCause O.Reading.Device (written_by result) scan device }
{
    match send_start(writer, rules, part.after) {
        Ok(()) => {
            let after = floor_of(part.after);
            send_entries(opener, name, scan, device, writer, after, part.follows)
        }
        Err(fault) => Err(fault),
    }
}

/// Writes the part of a file's history that was asked for, of a file of these rules.
fn part_found<O: Opener, W: Outlet>(
    alloc: Global,
    opener: &mut O,
    name: &str,
    device: &mut O::Reading,
    rules: Rules,
    writer: &mut W,
    part: Part,
) -> Result<Option<Reason>, KeepCommandFault>
    ensures writes { WritesHeld O.Reading.holds W.Sink (written_by result) part rules device writer }
    ensures ends { EndsIf (λ from. O.pauses from name.now) part.follows result opener.old opener.new }
    ensures cause { HasHeldCause O.Reading.Device (written_by result) device }
{
    match Scan::start(alloc, device) {
        Ok(scan) => {
            let mut scan = scan;
            let sent = send_part(opener, name, &mut scan, device, rules, writer, part);
            drop(scan);
            sent
        }
        Err(fault) => Err(opened_fault(fault)),
    }
}

/// Writes the part of a file's history that was asked for: once, or as long as more is waited for. All of the file is read before anything is
/// written. Returns why the file is not followed any more, if that is so.
pub(crate) fn follow<O: Opener, W: Outlet>(
    alloc: Global,
    opener: &mut O,
    name: &str,
    device: &mut O::Reading,
    writer: &mut W,
    part: Part,
) -> Result<Option<Reason>, KeepCommandFault>
    ensures dumps { FollowsAsked O.Reading.Device W.Sink part (written_by result) device writer }
    ensures ends { EndsIf (λ from. O.pauses from name.now) part.follows result opener.old opener.new }
{
    match read_whole(alloc, device) {
        Ok(found) => part_found(alloc, opener, name, device, found.rules, writer, part),
        Err(fault) => Err(named(alloc, device, fault)),
    }
}
