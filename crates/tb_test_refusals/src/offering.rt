//! A service: two ports offer a script by turns and are closed, and then the server runs.
ghost use Rattle.std.specs.Prelude.{◌≡◌, length};
ghost use Rattle.tb_service.specs.Names.{Name};
ghost use Rattle.tb_service.specs.Ports.{AreNumbered};

use crate::ports::{Listed, next_port};
use crate::scripts::{Script, copy_of, put_history};
use crate::troubles::{Trouble, Why, expect, note, note_no_memory};
use std::alloc::AllocError;
use std::sync::Wait;
use tb_published::{Naming, Publisher, Seat, TakeFault};
use tb_records::Request;
use tb_service::{Closed, Ended, Finished, Open, Port, PortCount, service};
use tb_test_fixtures::is_taken;

/// Two ports.
fn two_ports(ports: Vec<Port>) -> (Port, Port)
    requires two { length ports.items ≡ 2 }
    ensures { (name : Name) → AreNumbered name 0 ports.items
        → (result.0.service ≡ name) × (result.1.service ≡ name) }
{
    let mut ports = ports;
    let second = next_port(&mut ports);
    let first = next_port(&mut ports);
    drop(ports);
    (first, second)
}

/// Offers a copy of a request; false if it comes back.
fn offer<R: Wait + Eprint>(rt: &R, script: &Script<'_>, request: &Request, port: &mut Port) -> bool
    ensures { port.new.service ≡ port.old.service }
{
    match copy_of(rt, script.alloc, request) {
        Ok(copy) => is_taken(port.offer(rt, copy)),
        Err(_) => false,
    }
}

/// Offers a request by the port whose turn it is; false if it comes back.
fn offer_in_turn<R: Wait + Eprint>(
    rt: &R,
    script: &Script<'_>,
    request: &Request,
    first: &mut Port,
    second: &mut Port,
    turn: bool,
) -> bool
    ensures { (first.new.service ≡ first.old.service) × (second.new.service ≡ second.old.service) }
{
    if turn {
        offer(rt, script, request, second)
    } else {
        offer(rt, script, request, first)
    }
}

/// Offers the requests of a script by turns, and closes the ports. An offer is never refused while the server is there.
fn offer_by_turns<R: Wait + Eprint>(
    rt: &R,
    script: &Script<'_>,
    mut first: Port,
    mut second: Port,
) -> (bool, Closed, Closed)
    ensures { (result.1.service ≡ first.service) × (result.2.service ≡ second.service) }
{
    let mut offered = true;
    let mut turn = false;
    for pair in script.pairs {
        let request = &pair.request;
        offered = offer_in_turn(rt, script, request, &mut first, &mut second, turn) && offered;
        turn = !turn;
    }
    (offered, first.close(rt), second.close(rt))
}

/// The places of a port, asked for again if that is refused.
fn places<J: Naming, R: Eprint>(
    rt: &R,
    finished: &mut Finished<J>,
    closed: Closed,
) -> Result<Vec<u64>, Closed>
    requires { closed.service ≡ finished.old.service }
    ensures { finished.new.service ≡ finished.old.service }
{
    match finished.offered_by(closed) {
        Ok(places) => Ok(places),
        Err(closed) => {
            note_no_memory(rt, "offered_by");
            finished.offered_by(closed)
        }
    }
}

/// How many places there are, which begin at a number and rise by two.
fn count_risen(places: &[u64], first: u64) -> Result<u64, Trouble> {
    let mut next = first;
    for place in places {
        if *place != next {
            return Err(Trouble::Wrong(Why::OtherPlace));
        }
        next = next.saturating_add(2);
    }
    Ok(places.len() as u64)
}

/// How many places a port has, each of which is that of its turn.
fn count_places<J: Naming, R: Eprint>(
    rt: &R,
    finished: &mut Finished<J>,
    closed: Closed,
    first: u64,
) -> Result<u64, Trouble>
    requires { closed.service ≡ finished.old.service }
    ensures { finished.new.service ≡ finished.old.service }
{
    match places(rt, finished, closed) {
        Ok(places) => {
            let count = count_risen(places.as_slice(), first);
            drop(places);
            count
        }
        Err(closed) => {
            drop(closed);
            Err(Trouble::Wrong(Why::RefusedTwice))
        }
    }
}

/// Looks accounts up; false if that is refused.
fn look<J: Naming>(seat: &mut Seat<J>) -> bool {
    match seat.lookup_accounts(&[1, 2]) {
        Ok((_, accounts)) => {
            drop(accounts);
            true
        }
        Err(_) => false,
    }
}

/// Looks accounts up; if that is refused, it is done again. Then the seat has seen all.
fn look_again<J: Naming, R: Eprint>(rt: &R, seat: &mut Seat<J>, last: u64) -> Result<(), Trouble> {
    if !look(seat) {
        note_no_memory(rt, "lookup");
        if !look(seat) {
            return Err(Trouble::Wrong(Why::RefusedTwice));
        }
    }
    expect(seat.seen() == last, Why::SeenTooLittle)
}

/// Shows a history of as many entries as that; if that is refused, it is done again.
fn show<J: Naming, R: Wait + Eprint>(
    rt: &R,
    publisher: &mut Publisher<J>,
    last: u64,
) -> Result<u64, TakeFault> {
    match publisher.show(rt) {
        Err(TakeFault::Unpublished(commit)) if commit == last => {
            note(rt, "show", "Unpublished");
            publisher.show(rt)
        }
        shown => shown,
    }
}

/// Shows the whole history, and has a seat see it.
fn show_all<J: Naming, R: Wait + Eprint>(
    rt: &R,
    publisher: &mut Publisher<J>,
    seat: &mut Seat<J>,
) -> Result<(), Trouble> {
    let last = publisher.history().len() as u64;
    match show(rt, publisher, last) {
        Ok(shown) if shown == last => look_again(rt, seat, last),
        _ => Err(Trouble::Wrong(Why::NotShown)),
    }
}

/// Prints which places were refused, and how the run ended.
fn print_end<J: Naming, R: Eprint>(rt: &R, finished: &Finished<J>, taken: u64) {
    for (place, fault) in finished.refused.as_slice() {
        let _ = eprintln!(rt; "refused {place} {fault}");
    }
    let end = match finished.ended {
        Ended::Closed => "closed",
        Ended::NoMemory => "stopped",
    };
    let _ = eprintln!(rt; "{end} {taken}");
}

/// Checks what a run left, with how many places the two ports have, and appends the history.
fn check_end<J: Naming, R: Wait + Eprint>(
    rt: &R,
    script: &Script<'_>,
    finished: &mut Finished<J>,
    seat: &mut Seat<J>,
    taken: u64,
    out: &mut Vec<u8>,
) -> Result<(), Trouble> {
    let shown = show_all(rt, &mut finished.publisher, seat);
    print_end(rt, finished, taken);
    match shown {
        Ok(()) => put_history(script.clients_max, finished.publisher.history(), out),
        Err(trouble) => Err(trouble),
    }
}

/// How many places there are together, if they are those of their turns.
fn sum_of(first: Result<u64, Trouble>, second: Result<u64, Trouble>) -> Result<u64, Trouble> {
    match (first, second) {
        (Ok(first), Ok(second)) => Ok(first.saturating_add(second)),
        (Ok(_), trouble) => trouble,
        (trouble, _) => trouble,
    }
}

/// Checks what a run left, and appends the history.
fn close_end<J: Naming, R: Wait + Eprint>(
    rt: &R,
    script: &Script<'_>,
    finished: Finished<J>,
    seat: &mut Seat<J>,
    first: Closed,
    second: Closed,
    out: &mut Vec<u8>,
) -> Result<(), Trouble>
    requires first { first.service ≡ finished.service }
    requires second { second.service ≡ finished.service }
{
    let mut finished = finished;
    let first = count_places(rt, &mut finished, first, 1);
    let second = count_places(rt, &mut finished, second, 2);
    let checked = match sum_of(first, second) {
        Ok(taken) => check_end(rt, script, &mut finished, seat, taken, out),
        Err(trouble) => Err(trouble),
    };
    drop(finished.close(rt));
    checked
}

/// Serves the pairs of a script, and appends the history; false if the service is refused.
pub fn offer_all<J: Naming, R: Wait + Eprint>(
    rt: &R,
    script: &Script<'_>,
    publisher: Publisher<J>,
    seat: &mut Seat<J>,
    out: &mut Vec<u8>,
) -> Result<bool, Trouble> {
    let two = PortCount::new(2).unwrap();
    let moments = Listed::new(script.pairs);
    match service(script.alloc, publisher, rt, two, moments, Open) {
        Ok((server, ports)) => {
            let (first, second) = two_ports(ports);
            let (offered, first, second) = offer_by_turns(rt, script, first, second);
            let finished = server.run(rt);
            let checked = close_end(rt, script, finished, seat, first, second, out);
            all_offered(offered, checked)
        }
        Err(AllocError) => {
            note_no_memory(rt, "service");
            Ok(false)
        }
    }
}

/// True once all was offered, and what was left is right.
fn all_offered(offered: bool, checked: Result<(), Trouble>) -> Result<bool, Trouble> {
    match checked {
        Ok(()) if offered => Ok(true),
        Ok(()) => Err(Trouble::Wrong(Why::OfferRefused)),
        Err(trouble) => Err(trouble),
    }
}
