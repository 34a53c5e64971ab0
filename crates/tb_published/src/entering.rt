//! How the publisher enters a request, which its machine judges.
ghost use Rattle.std.specs.Prelude.{◌≡◌, ◌<◌, true, false, IsTrue, OnOk, vec_len, vec_capacity};
ghost use Rattle.tb_records.specs.Messages.{IsLawful};
ghost use Rattle.tb_sessions.specs.Judged.{class_of};
ghost use Rattle.tb_sessions.specs.declared.classes.Class.TheVariants as class;
ghost use Rattle.tb_machine.specs.Histories.{answer_to, fits};
ghost use Rattle.tb_published.specs.private.Entering.{AddsEntry, EntersBy};

use crate::faults::{TakeFault, Taken};
use std::alloc::{AllocError, Global};
use tb_machine::{Entry, Judged, Machine, status_of};
use tb_records::Request;
use tb_sessions::Class;

/// The commit number that the answer to a repeat names.
pub(crate) fn stored_commit(machine: &Machine<Global>, request: &Request) -> u64
    requires { class_of machine.now.rows request.now ≡ class.Repeat }
    ensures commit { result ≡ (answer_to machine.now request.now).commit }
    ensures lawful { IsLawful request.now }
{
    let _lawful = request.body();
    let Some(reply) = machine.reply_of(request.client()) else {
        unreachable!()
    };
    reply.commit()
}

/// Reserves capacity for one more entry of a history, and has its copies share the request's body: the history, the
/// publisher's machine and both copies share one body.
fn make_ready(global: Global, history: &mut Vec<Entry>, entry: &mut Entry) -> Result<(), AllocError>
    ensures history { history.new.items ≡ history.old.items }
    ensures entry { entry.new ≡ entry.old }
    ensures capacity { OnOk result (vec_len history.new < vec_capacity history.new) }
{
    history.reserve(1)?;
    entry.request.share(global)
}

/// Appends an entry to a history, enters it into its machine, and returns its commit number. If there is no memory, both
/// are unchanged.
pub(crate) fn add_to(
    global: Global,
    machine: &mut Machine<Global>,
    history: &mut Vec<Entry>,
    entry: Entry,
) -> Result<u64, AllocError>
    requires { IsTrue (fits machine.old entry) }
    ensures { AddsEntry machine.old history.old.items entry result machine.new history.new.items }
{
    let mut entry = entry;
    if let Err(AllocError) = make_ready(global, history, &mut entry) {
        drop(entry);
        return Err(AllocError);
    }
    if let Err(AllocError) = machine.apply(&entry) {
        drop(entry);
        return Err(AllocError);
    }
    let commit = entry.commit;
    history.push_reserved(entry);
    Ok(commit)
}

/// Enters a request that comes at a moment into a history, and into the machine after it.
pub(crate) fn enter_into(
    global: Global,
    machine: &mut Machine<Global>,
    history: &mut Vec<Entry>,
    request: Request,
    now: u64,
) -> Result<Taken, TakeFault>
    ensures entered { EntersBy machine.old history.old.items request now result machine.new history.new.items }
    ensures lawful { IsLawful request }
{
    match machine.judge(now, request) {
        Judged::New(entry) => match add_to(global, machine, history, entry) {
            Ok(commit) => Ok(Taken::Committed(commit)),
            Err(AllocError) => Err(TakeFault::NoMemory),
        },
        Judged::NoTime => Err(TakeFault::TimeExhausted),
        Judged::Known(Class::Repeat, request) => {
            let commit = stored_commit(machine, &request);
            drop(request);
            Ok(Taken::Repeat(commit))
        }
        Judged::Known(class, request) => {
            drop(request);
            Ok(Taken::Refused(status_of(class)))
        }
    }
}
