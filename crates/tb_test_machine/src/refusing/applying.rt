//! A request applied as an entry, or served as a pair: if an allocation is refused, it is served again.
use crate::comparing::{holds, holds_at};
use crate::machine::machines::{Turn, request_of};
use crate::refusing::shown::{look, same};
use std::alloc::{Allocator, Global};
use std::process::Abort;
use tb_machine::{Entry, Machine, RunFault, serve_pair};
use tb_records::{Counting, Request};
use tb_test_refusing::Refusing;

/// A reply has at least this many bytes.
const REPLY_BYTES: usize = 48;

/// How requests are served.
#[derive(Clone, Copy)]
pub(crate) enum Way {
    /// By `Machine::apply`, with one allocation refused.
    Applied,
    /// By `serve_pair` over a pool, with all chunks refused from one on: a pool whose chunk is refused asks for a smaller one.
    Pooled,
}

/// Applies a new request as the next entry; returns whether there was memory.
pub(crate) fn apply<A: Allocator + Clone>(
    rt: &impl Abort,
    machine: &mut Machine<A>,
    moment: u64,
    request: Request,
) -> bool {
    let events = request.body().event_count() as u64;
    let time = machine.next_time(moment, events).expect(rt, "a time");
    let entry = Entry {
        commit: machine.commit() + 1,
        time,
        request,
    };
    let applied = machine.fits(&entry) && machine.apply(&entry).is_ok();
    drop(entry);
    applied
}

/// Serves a pair; returns whether there was memory. Without memory nothing is written.
fn serve<A: Allocator + Clone>(
    rt: &impl Abort,
    alloc: Global,
    machine: &mut Machine<A>,
    moment: u64,
    request: Request,
) -> bool {
    let mut writer = Counting::new(Vec::new(alloc));
    let answer = serve_pair(machine, &mut writer, moment, request);
    let reply = writer.into_inner();
    let written = reply.len();
    drop(reply);
    let is_right = match answer {
        Ok(()) => written >= REPLY_BYTES,
        Err(fault) => fault == RunFault::NoMemory && written == 0,
    };
    holds_at(rt, is_right, &written);
    answer.is_ok()
}

/// Serves a turn; returns whether there was memory.
fn serve_once<A: Allocator + Clone>(
    rt: &impl Abort,
    alloc: Global,
    machine: &mut Machine<A>,
    way: Way,
    turn: &Turn<'_>,
) -> bool {
    let request = request_of(rt, alloc, turn);
    match way {
        Way::Applied => apply(rt, machine, turn.0, request),
        Way::Pooled => serve(rt, alloc, machine, turn.0, request),
    }
}

/// Serves a turn. If that is refused nothing has changed, and it is served again when the heap relents. Returns whether it was refused.
pub(crate) fn serve_twice<A: Allocator + Clone>(
    rt: &impl Abort,
    alloc: Global,
    heap: &Refusing<Global>,
    machine: &mut Machine<A>,
    way: Way,
    turn: &Turn<'_>,
) -> bool {
    let before = look(rt, machine);
    let served = serve_once(rt, alloc, machine, way, turn);
    if !served {
        let behind = look(rt, machine);
        let unchanged = same(&before, &behind);
        drop(behind);
        holds(rt, unchanged, "a refused call leaves the machine");
        heap.relent();
        let served = serve_once(rt, alloc, machine, way, turn);
        holds(rt, served, "served the second time");
    }
    drop(before);
    !served
}
