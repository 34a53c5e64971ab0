//! The replay of a dump: its history is checked entry by entry, and the reply to each is written.
ghost use Rattle.std.specs.Prelude.{◌≡◌, [], false, IfOk};
ghost use Rattle.tb_records.specs.Transport.{Sent};
ghost use Rattle.tb_machine.specs.Replays.{EntersNext, ReadsNext, ReplayRan, ReplaysEntry, ReplaysItem, ReplaysMark};
ghost use Rattle.tb_machine.specs.private.Serving.{IsPromptForItem};
ghost use Rattle.tb_machine.specs.Worked.{GoesOn};

use crate::entries::Entry;
use crate::machines::Machine;
use crate::serving::stored_reply;
use std::alloc::Global;
use tb_records::dumps::{holds_item, read_head_from, read_item_from};
use tb_records::{DumpFault, DumpItem, Profile, Sink, Source, send_reply};

/// Enters an entry, if it may come next.
fn enter_next(machine: &mut Machine<Global>, entry: Entry) -> Result<(), DumpFault>
    ensures { EntersNext result machine.old machine.new entry }
{
    if !machine.fits(&entry) {
        return Err(DumpFault::NotLegal);
    }
    machine.enter(entry).map_err(|_| DumpFault::NoMemory)
}

/// Enters an entry, and writes the reply to it.
fn replay_entry<W: Sink>(
    machine: &mut Machine<Global>,
    writer: &mut W,
    entry: Entry,
) -> Result<(), DumpFault>
    ensures { ReplaysEntry result machine.old machine.new entry (W.output writer.old)
        (W.output writer.new) }
{
    let client = entry.request.client();
    enter_next(machine, entry)?;
    send_reply(writer, stored_reply(machine, client))?;
    Ok(())
}

/// Changes to profile 2, if it is not in use yet.
fn replay_mark(machine: &mut Machine<Global>) -> Result<(), DumpFault>
    ensures { ReplaysMark result machine.old machine.new }
{
    match machine.profile() {
        Profile::One => {
            machine.move_to_two();
            Ok(())
        }
        Profile::Two => Err(DumpFault::Mark),
    }
}

/// Replays an entry, or changes to profile 2 at a mark.
fn replay_item<W: Sink>(
    machine: &mut Machine<Global>,
    writer: &mut W,
    item: DumpItem,
) -> Result<(), DumpFault>
    ensures { ReplaysItem result machine.old machine.new item (W.output writer.old)
        (W.output writer.new) }
{
    match item {
        DumpItem::Entry {
            commit,
            time,
            request,
        } => replay_entry(
            machine,
            writer,
            Entry {
                commit,
                time,
                request,
            },
        ),
        DumpItem::Mark => replay_mark(machine),
    }
}

/// Replays the next item of a dump; returns false if there is no next item. The reader is called only if no output is held back, or a whole item is
/// buffered.
fn replay_next<R: Source, W: Sink>(
    alloc: Global,
    machine: &mut Machine<Global>,
    reader: &mut R,
    writer: &mut W,
) -> Result<bool, DumpFault>
    requires { IsPromptForItem (R.input reader.old) (W.output writer.old) }
    ensures { GoesOn ReadsNext ReplaysItem result machine.old machine.new
        (R.input reader.old) (R.input reader.new) (W.output writer.old) (W.output writer.new) }
{
    let Some(item) = read_item_from(alloc, reader)? else {
        return Ok(false)
    };
    replay_item(machine, writer, item)?;
    Ok(true)
}

/// Flushes the replies if the reader may have to wait for the next item of a dump.
fn pass_on_before_item<R: Source, W: Sink>(reader: &R, writer: &mut W)
    ensures sent { Sent [] (W.output writer.old) (W.output writer.new) }
    ensures prompt { IsPromptForItem (R.input reader.now) (W.output writer.new) }
{
    if !holds_item(reader.at_hand()) {
        writer.pass_on();
    }
}

/// Replays a dump: reads its head and its entries one by one, enters each that may come next into a machine, and writes the reply to it. Returns the
/// number of replies written, none of which is still held back. On a fault the replies to all earlier entries are written, and the rest of the dump
/// is unread; if the writer failed, a prefix of the next reply was written too.
pub fn replay<R: Source, W: Sink>(
    alloc: Global,
    reader: &mut R,
    writer: &mut W,
) -> Result<u64, DumpFault>
    ensures ran { ReplayRan result (R.input reader.old) (R.input reader.new) (W.output writer.old)
        (W.output writer.new) }
    ensures passed { IfOk result (λ _. (W.output writer.new).held ≡ false) }
{
    let head = read_head_from(reader)?;
    let mut machine = Machine::new_in(alloc, alloc, head.profile, head.clients_max)?;
    for _ in 0..u64::MAX {
        pass_on_before_item(reader, writer);
        let more = match replay_next(alloc, &mut machine, reader, writer) {
            Ok(more) => more,
            Err(fault) => {
                drop(machine);
                return Err(fault);
            }
        };
        if !more {
            let replies = machine.commit();
            drop(machine);
            writer.pass_on();
            return Ok(replies);
        }
    }
    // Each entry takes at least one nanosecond of the time that is left: no history has so many.
    let _entries = machine.commit();
    unreachable!()
}
