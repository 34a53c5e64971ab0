//! Each allocation of a ledger's rows is refused in turn, below `Machine::apply`, and each chunk of a pool with the rows, below `serve_pair`.
use crate::comparing::{holds, holds_at};
use crate::machine::machines::{Turn, clients_max};
use crate::refusing::applying::{Way, serve_twice};
use crate::refusing::rows::{Left, Rows, WORKED};
use crate::refusing::shown::is_left;
use bumpalo::Bump;
use std::alloc::{Allocator, Global};
use std::process::Abort;
use tb_machine::Machine;
use tb_test_refusing::Refusing;

/// What is served, how, and what it leaves.
#[derive(Clone, Copy)]
struct Case<'a> {
    way: Way,
    turns: &'a [Turn<'a>],
    left: Left<'a>,
}

/// Serves the requests by a machine whose records lie in an allocator over a heap, and compares what they leave. Returns the commit numbers of those
/// that were refused once.
fn serve_turns<A: Allocator + Clone>(
    rt: &impl Abort,
    alloc: Global,
    rows_alloc: A,
    heap: &Refusing<Global>,
    case: Case<'_>,
) -> Vec<u64> {
    let made = Machine::new_in(alloc, rows_alloc, case.left.0, clients_max(rt, 2));
    let mut machine = made.expect(rt, "a machine");
    let mut refused = Vec::new(alloc);
    for turn in case.turns {
        if serve_twice(rt, alloc, heap, &mut machine, case.way, turn) {
            refused.push(machine.commit()).expect(rt, "memory");
        }
    }
    let is_left = is_left(&machine, case.left);
    drop(machine);
    holds(rt, is_left, "the last results, and the sums");
    refused
}

/// Serves the requests over a heap.
fn serve_over(rt: &impl Abort, alloc: Global, heap: &Refusing<Global>, case: Case<'_>) -> Vec<u64> {
    match case.way {
        Way::Applied => serve_turns(rt, alloc, heap, heap, case),
        Way::Pooled => {
            let pool = Bump::new(heap);
            let refused = serve_turns(rt, alloc, &pool, heap, case);
            drop(pool);
            refused
        }
    }
}

/// Serves the requests with the allocation of this number refused; 0 refuses none. All blocks come back. Returns how many allocations were asked for,
/// and the commit numbers of the requests that were refused once.
fn serve_refused(
    rt: &impl Abort,
    alloc: Global,
    case: Case<'_>,
    refused_at: u64,
) -> (u64, Vec<u64>) {
    let heap = match case.way {
        Way::Applied => Refusing::new(alloc, refused_at),
        Way::Pooled => Refusing::from(alloc, refused_at),
    };
    let refused = serve_over(rt, alloc, &heap, case);
    let tally = heap.tally();
    drop(heap);
    holds_at(rt, tally.blocks == 0, &refused_at);
    (tally.asked, refused)
}

/// Serves the requests with no allocation refused, with the first, with the second and so on: each refused allocation refuses one request. `entries` are
/// the commit numbers of those that ask for an allocation. Returns how many allocations were asked for.
fn refuse_each(rt: &impl Abort, alloc: Global, case: Case<'_>, entries: &[u64]) -> u64 {
    let (asked, refused) = serve_refused(rt, alloc, case, 0);
    holds(rt, refused.is_empty(), "nothing is refused");
    drop(refused);
    let mut refusing = Vec::new(alloc);
    for refused_at in 1..=asked {
        let (_, refused) = serve_refused(rt, alloc, case, refused_at);
        holds_at(rt, refused.len() == 1, &refused_at);
        if refusing.last() != refused.last() {
            let added = refusing.extend_from_slice(refused.as_slice());
            added.expect(rt, "memory");
        }
        drop(refused);
    }
    let same = refusing.as_slice() == entries;
    drop(refusing);
    holds_at(rt, same, &asked);
    asked
}

/// Serves rows by both profiles, and each allocation is refused in turn.
fn refuse_rows(rt: &impl Abort, alloc: Global, way: Way, rows: Rows<'_>) {
    let Rows {
        turns,
        growths,
        chunks,
        ..
    } = rows;
    for left in rows.left {
        let case = Case { way, turns, left };
        match way {
            Way::Applied => {
                refuse_each(rt, alloc, case, growths);
            }
            Way::Pooled => {
                let asked = refuse_each(rt, alloc, case, chunks.1);
                holds_at(rt, asked == chunks.0, &asked);
            }
        }
    }
}

#[test]
fn growths_of_rows(rt: HostRuntime) {
    for rows in &WORKED {
        refuse_rows(&rt, rt.alloc(), Way::Applied, *rows);
    }
}

#[test]
fn chunks_of_a_pool(rt: HostRuntime) {
    for rows in &WORKED {
        refuse_rows(&rt, rt.alloc(), Way::Pooled, *rows);
    }
}
