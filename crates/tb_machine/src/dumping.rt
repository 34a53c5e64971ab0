//! The dump of a script: its new requests are executed, and the history that they make is written.
ghost use Rattle.std.specs.Prelude.{◌≡◌, ◌++◌, true, false, IfOk, IsTrue, Some};
ghost use Rattle.std.specs.Option.{is_some};
ghost use Rattle.tb_records.specs.declared.limits.Profile.TheVariants.{One};
ghost use Rattle.tb_records.specs.DumpBytes.{head_bytes, entry_bytes, IsClients};
ghost use Rattle.tb_records.specs.Transport.{IsSent};
ghost use Rattle.tb_ledger.specs.Books.{profile_of};
ghost use Rattle.tb_sessions.specs.Judged.{row_of};
ghost use Rattle.tb_machine.specs.DumpRuns.{mark_before, marks_at, changed_profile, DumpRan, DumpsPair, DumpsNext};
ghost use Rattle.tb_machine.specs.Histories.{fits};
ghost use Rattle.tb_machine.specs.private.Serving.{IsPromptForPair, Delivers, DumpsEntry};

use crate::entries::Entry;
use crate::judgements::Judged;
use crate::machines::Machine;
use crate::serving::{RunFault, pass_on_before_waiting};
use std::alloc::Global;
use tb_records::dumps::{send_entry, send_head, send_mark};
use tb_records::streams::read_timed_from;
use tb_records::{ClientsMax, DumpHead, FrameFault, Profile, Request, Sink, Source};
use tb_sessions::Row;

/// Returns whether the mark is directly before the entry that follows `commit` others.
fn marks_at(at: Option<u64>, commit: u64) -> bool
    ensures { result ≡ marks_at at commit }
{
    match at {
        Some(at) => at == commit,
        None => false,
    }
}

/// Changes to profile 2 if a mark is due.
fn change_profile(machine: &mut Machine<Global>, due: bool)
    requires { due ≡ true → profile_of machine.old.books ≡ Profile.One }
    ensures { machine.new ≡ changed_profile due machine.old }
{
    if due {
        machine.move_to_two();
    }
}

/// The row of a client that has one.
fn stored_row(machine: &Machine<Global>, client: u128) -> &Row
    requires { is_some (row_of machine.now.rows client) ≡ true }
    ensures { row_of machine.now.rows client ≡ Some result.now }
{
    let Some(row) = machine.stored(client) else {
        unreachable!()
    };
    row
}

/// Writes the head of a dump that begins by profile 1.
fn write_head<W: Sink>(writer: &mut W, clients_max: ClientsMax) -> Result<(), RunFault>
    ensures sent { Delivers result (head_bytes One clients_max) (W.output writer.old) (W.output writer.new) }
    ensures right { IsClients clients_max }
{
    let head = DumpHead {
        profile: Profile::One,
        clients_max,
    };
    send_head(writer, head)?;
    Ok(())
}

/// Writes a mark if one is due.
fn write_mark<W: Sink>(writer: &mut W, due: bool) -> Result<(), FrameFault>
    ensures { IsSent result (mark_before due) (W.output writer.old) (W.output writer.new) }
{
    if due { send_mark(writer) } else { Ok(()) }
}

/// Writes an entry, after a mark if one is due.
fn write_entry<W: Sink>(
    writer: &mut W,
    due: bool,
    commit: u64,
    time: u64,
    request: &Request,
) -> Result<(), FrameFault>
    ensures { IsSent result (mark_before due ++ entry_bytes commit time request.now)
        (W.output writer.old) (W.output writer.new) }
{
    write_mark(writer, due)?;
    send_entry(writer, commit, time, request)
}

/// Enters the entry of a new request, and writes it. A mark before it is written with it, so that no mark is without its entry.
fn dump_entry<W: Sink>(
    machine: &mut Machine<Global>,
    at: Option<u64>,
    writer: &mut W,
    entry: Entry,
) -> Result<(), RunFault>
    requires fits { IsTrue (fits machine.old entry) }
    requires by_one { marks_at at machine.old.commit ≡ true → profile_of machine.old.books ≡ Profile.One }
    ensures { DumpsEntry at result machine.old machine.new entry (W.output writer.old) (W.output writer.new) }
{
    let (client, commit, time) = (entry.request.client(), entry.commit, entry.time);
    let due = marks_at(at, machine.commit());
    change_profile(machine, due);
    match machine.enter(entry) {
        Ok(()) => {}
        Err(back) => {
            drop(back);
            return Err(RunFault::NoMemory);
        }
    }
    let row = stored_row(machine, client);
    write_entry(writer, due, commit, time, &row.request)?;
    Ok(())
}

/// Enters a request that comes at a moment and writes its entry, if it is new.
fn dump_pair<W: Sink>(
    machine: &mut Machine<Global>,
    at: Option<u64>,
    writer: &mut W,
    moment: u64,
    request: Request,
) -> Result<(), RunFault>
    requires { marks_at at machine.old.commit ≡ true → profile_of machine.old.books ≡ Profile.One }
    ensures { DumpsPair at result machine.old machine.new (moment, request) (W.output writer.old)
        (W.output writer.new) }
{
    match machine.judge(moment, request) {
        Judged::New(entry) => dump_entry(machine, at, writer, entry),
        Judged::NoTime => Err(RunFault::TimeExhausted),
        Judged::Known(_, request) => {
            drop(request);
            Ok(())
        }
    }
}

/// Dumps the next pair of a script; returns false if there is no next pair. The reader is called only if no output is held back, or a whole pair is
/// buffered.
fn dump_next<R: Source, W: Sink>(
    alloc: Global,
    machine: &mut Machine<Global>,
    at: Option<u64>,
    reader: &mut R,
    writer: &mut W,
) -> Result<bool, RunFault>
    requires by_one { marks_at at machine.old.commit ≡ true → profile_of machine.old.books ≡ Profile.One }
    requires prompt { IsPromptForPair (R.input reader.old) (W.output writer.old) }
    ensures { DumpsNext at result machine.old machine.new (R.input reader.old) (R.input reader.new)
        (W.output writer.old) (W.output writer.new) }
{
    let Some((moment, request)) = read_timed_from(alloc, reader)? else {
        return Ok(false)
    };
    dump_pair(machine, at, writer, moment, request)?;
    Ok(true)
}

/// Serves a script by profile 1, and writes the history that it makes as a dump: a head, and the entry of each new request. If `at` is given, a mark
/// is written directly before the first entry whose commit number is above it, and profile 2 serves from that request on. Returns the number of
/// entries written, none of which is still held back. The head is written before the script is read. On a fault the entries of all earlier pairs are
/// written, and the rest of the script is unread; if the writer failed, a prefix of what is next was written too.
pub fn dump<R: Source, W: Sink>(
    alloc: Global,
    clients_max: ClientsMax,
    at: Option<u64>,
    reader: &mut R,
    writer: &mut W,
) -> Result<u64, RunFault>
    ensures ran { DumpRan clients_max at result (R.input reader.old) (R.input reader.new)
        (W.output writer.old) (W.output writer.new) }
    ensures passed { IfOk result (λ _. (W.output writer.new).held ≡ false) }
{
    let mut machine = Machine::new_in(alloc, alloc, Profile::One, clients_max)?;
    match write_head(writer, clients_max) {
        Ok(()) => {}
        Err(fault) => {
            drop(machine);
            return Err(fault);
        }
    }
    for _ in 0..u64::MAX {
        pass_on_before_waiting(reader, writer);
        let more = match dump_next(alloc, &mut machine, at, reader, writer) {
            Ok(more) => more,
            Err(fault) => {
                drop(machine);
                return Err(fault);
            }
        };
        if !more {
            let entries = machine.commit();
            drop(machine);
            writer.pass_on();
            return Ok(entries);
        }
    }
    drop(machine);
    Err(RunFault::TooLong)
}
