//! `Port::call` next to `Server::run`, each in a thread of its own: what is refused is called again, until it is answered.
use crate::ports::{Listed, next_port};
use crate::scripts::{Script, put_history, put_reply};
use crate::troubles::{Trouble, Why, note, note_no_memory};
use std::alloc::{AllocError, Global};
use std::sync::Wait;
use std::sync::atomic::{AtomicBool, Ordering};
use std::thread::{Threads, join};
use tb_published::{Naming, Publisher, Seat, TakeFault};
use tb_records::{Reply, Request, Status};
use tb_service::{Ended, Finished, Open, Port, PortCount, Server, service};
use tb_test_fixtures::{has_begun, is_taken};

/// The most calls that are made for a request.
const CALLS_MAX: u32 = 200;

/// How often a call asks its seat.
const LOOKS_PER_CALL: u32 = 20_000;

/// The server takes nothing more: a copy of the request comes back.
fn is_gone<R: Wait>(rt: &R, alloc: Global, port: &mut Port, request: &Request) -> bool {
    match request.copy(alloc) {
        Ok(copy) => !is_taken(port.offer(rt, copy)),
        Err(AllocError) => false,
    }
}

/// Appends a reply; false if it is NotYet.
fn put_answer(reply: &Reply, out: &mut Vec<u8>) -> Result<bool, Trouble> {
    if reply.status() == Status::NotYet {
        return Ok(false);
    }
    match put_reply(reply, out) {
        Ok(()) => Ok(true),
        Err(trouble) => Err(trouble),
    }
}

/// Calls once, and appends the answer; false if the call was refused, or the reply is NotYet though the server is not gone.
fn call_once<J: Naming, R: Wait + Eprint>(
    rt: &R,
    alloc: Global,
    port: &mut Port,
    seat: &mut Seat<J>,
    request: &Request,
    out: &mut Vec<u8>,
) -> Result<bool, Trouble> {
    match port.call(rt, seat, request, LOOKS_PER_CALL) {
        Ok(reply) => {
            let put = put_answer(&reply, out);
            drop(reply);
            match put {
                Ok(false) if is_gone(rt, alloc, port, request) => Err(Trouble::Gone),
                put => put,
            }
        }
        Err(fault) => {
            note(rt, "call", fault.name());
            Ok(false)
        }
    }
}

/// Calls until the request is answered, or the server is gone. What the seat has seen does not fall.
fn call_until<J: Naming, R: Wait + Eprint>(
    rt: &R,
    alloc: Global,
    port: &mut Port,
    seat: &mut Seat<J>,
    request: &Request,
    out: &mut Vec<u8>,
) -> Result<(), Trouble> {
    for _ in 0..CALLS_MAX {
        let seen = seat.seen();
        let answered = call_once(rt, alloc, port, seat, request, out);
        if seat.seen() < seen {
            return Err(Trouble::Wrong(Why::SeenFell));
        }
        match answered {
            Ok(true) => return Ok(()),
            Ok(false) => {}
            Err(trouble) => return Err(trouble),
        }
    }
    Err(Trouble::Wrong(Why::NoAnswer))
}

/// Calls the requests of all pairs, one after another, once the server has begun. False if it has no thread.
fn call_pairs<J: Naming, R: Wait + Eprint>(
    rt: &R,
    script: &Script<'_>,
    begun: &AtomicBool,
    port: &mut Port,
    seat: &mut Seat<J>,
    out: &mut Vec<u8>,
) -> Result<bool, Trouble> {
    if !has_begun(begun) {
        note(rt, "join", "NoThread");
        return Ok(false);
    }
    for pair in script.pairs {
        if let Err(trouble) = call_until(rt, script.alloc, port, seat, &pair.request, out) {
            return Err(trouble);
        }
    }
    Ok(true)
}

/// The client's thread: calls once the server has begun, and closes the port. False if the server has no thread.
fn call_beside<J: Naming, R: Wait + Eprint>(
    rt: &R,
    script: &Script<'_>,
    begun: &AtomicBool,
    mut port: Port,
    seat: &mut Seat<J>,
    out: &mut Vec<u8>,
) -> Result<bool, Trouble> {
    let called = call_pairs(rt, script, begun, &mut port, seat, out);
    drop(port.close(rt));
    called
}

/// Prints how the run ended and what was refused in it.
fn print_end<J: Naming, R: Eprint>(rt: &R, finished: &Finished<J>) {
    for (_, fault) in finished.refused.as_slice() {
        if *fault == TakeFault::NoMemory {
            note_no_memory(rt, "enter");
        }
    }
    if finished.ended == Ended::NoMemory {
        note_no_memory(rt, "run");
    }
}

/// Appends the history that a run left, unless the server had no thread.
fn close_end<J: Naming, R: Wait + Eprint>(
    rt: &R,
    script: &Script<'_>,
    finished: Finished<J>,
    called: Result<bool, Trouble>,
    out: &mut Vec<u8>,
) -> Result<bool, Trouble> {
    let written = match called {
        Ok(false) => Ok(()),
        _ => put_history(script.clients_max, finished.publisher.history(), out),
    };
    print_end(rt, &finished);
    drop(finished.close(rt));
    match written {
        Ok(()) => called,
        Err(trouble) => Err(trouble),
    }
}

/// The server and the client, each in its thread.
fn call_over<J: Naming + Send + Sync, R: Threads + Wait + Eprint + Sync>(
    rt: &R,
    script: &Script<'_>,
    server: Server<J, &R, Listed<'_>, Open>,
    port: Port,
    seat: &mut Seat<J>,
    out: &mut Vec<u8>,
) -> (Finished<J>, Result<bool, Trouble>) {
    let begun = &AtomicBool::new(false);
    join(
        rt,
        move || {
            begun.store(true, Ordering::SeqCst);
            server.run(rt)
        },
        move || call_beside(rt, script, begun, port, seat, out),
    )
}

/// Calls the requests of a script, and appends the answers and the history; false if the service or the server's thread is
/// refused.
pub fn call_all<J: Naming + Send + Sync, R: Threads + Wait + Eprint + Sync>(
    rt: &R,
    script: &Script<'_>,
    publisher: Publisher<J>,
    seat: &mut Seat<J>,
    out: &mut Vec<u8>,
) -> Result<bool, Trouble> {
    let one = PortCount::new(1).unwrap();
    let moments = Listed::new(script.pairs);
    match service(script.alloc, publisher, rt, one, moments, Open) {
        Ok((server, mut ports)) => {
            let port = next_port(&mut ports);
            drop(ports);
            let (finished, called) = call_over(rt, script, server, port, seat, out);
            close_end(rt, script, finished, called, out)
        }
        Err(AllocError) => {
            note_no_memory(rt, "service");
            Ok(false)
        }
    }
}
