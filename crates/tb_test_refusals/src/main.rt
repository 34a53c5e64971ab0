//! `tb_test_refusals FORM CLIENTS_MAX`: serves the script of standard input by calls that may run out of memory, and makes a
//! refused call again. tests/programs/test_refusals.py runs it with each allocation refused in turn, one a run. `tb_test_refusals
//! read` reads frames.
//!
//! The forms `apply`, `take`, `offer` and `call` look at what a refused call left. What was answered goes to standard
//! output, and a line for each refusal to standard error; Trouble::exit_status gives the exit statuses.
//!
//! Modules, each over those before it:
//!
//! - `troubles`: exit statuses, and the line of a refusal.
//! - `scripts`: the pairs of a script, and what is written of a history.
//! - `applying`: `apply`, one machine.
//! - `taking`: `take`, a publisher and a seat.
//! - `ports`: the ports of a service, and the moments of its requests.
//! - `offering`: `offer`, ports that are closed before the server runs.
//! - `calling`: `call`, a port's calls next to the server.
//! - `reading`: `read`: frames that are read, and written again.
#![tactic(auto)]

ghost use Rattle.std.specs.Prelude.{◌≡◌};

mod applying;
mod calling;
mod offering;
mod ports;
mod reading;
mod scripts;
mod taking;
mod troubles;

use scripts::{Script, read_pairs};
use std::alloc::Global;
use std::env;
use std::io::{Read, Write};
use std::marker::Brand;
use std::process::ExitCode;
use std::sync::Wait;
use std::thread::Threads;
use tb_published::{Naming, Opening, Publisher, Seat, SeatCount, open};
use tb_records::{ClientsMax, Profile};
use troubles::{Trouble, Why, note};

/// The bytes of output that there is capacity for.
const OUTPUT_CAPACITY: usize = 1 << 20;

/// How the script reaches a publisher.
#[derive(Clone, Copy)]
enum Way {
    /// By the publisher's own call.
    Take,
    /// By ports that are closed before the server runs.
    Offer,
    /// By a port's calls, next to the server's thread.
    Call,
}

/// What the script is served by.
#[derive(Clone, Copy)]
enum Served {
    /// One machine.
    Apply,
    /// A publisher and a seat.
    Publish(Way),
}

/// What the program was asked to do.
#[derive(Clone, Copy)]
enum Form {
    /// A script is served, with at most this many clients with a session.
    Serve(Served, ClientsMax),
    /// Frames are read.
    Read,
}

/// What a word has a script served by.
fn served_by(word: &str) -> Option<Served> {
    match word {
        "apply" => Some(Served::Apply),
        "take" => Some(Served::Publish(Way::Take)),
        "offer" => Some(Served::Publish(Way::Offer)),
        "call" => Some(Served::Publish(Way::Call)),
        _ => None,
    }
}

/// The most clients with a session, in digits.
fn clients_by(word: &str) -> Option<ClientsMax> {
    match word.parse::<u32>() {
        Ok(clients) => ClientsMax::new(clients),
        Err(_) => None,
    }
}

/// The form that a word names, with a number.
fn form_by(form: &str, clients: &str) -> Option<Form> {
    match (served_by(form), clients_by(clients)) {
        (Some(by), Some(clients_max)) => Some(Form::Serve(by, clients_max)),
        _ => None,
    }
}

/// The form that words name.
fn form_of(words: &[String]) -> Option<Form> {
    match (words.get(0), words.get(1)) {
        (Some(form), Some(clients)) => form_by(form.as_str(), clients.as_str()),
        (Some(form), None) if form.as_str() == "read" => Some(Form::Read),
        _ => None,
    }
}

/// The form that the program's words name.
fn read_words(rt: &HostRuntime) -> Result<Form, Trouble> {
    let mut words = Vec::new(rt.alloc());
    for word in env::args(rt)?.skip(1) {
        words.push(word)?;
    }
    form_of(words.as_slice()).ok_or(Trouble::SetUp)
}

/// Serves a script by a publisher and a seat. False if their service is refused.
fn serve_opened<J: Naming + Send + Sync, R: Threads + Wait + Eprint + Sync>(
    rt: &R,
    way: Way,
    script: &Script<'_>,
    publisher: Publisher<J>,
    seat: &mut Seat<J>,
    out: &mut Vec<u8>,
) -> Result<bool, Trouble> {
    match way {
        Way::Take => taking::take_all(rt, script, publisher, seat, out),
        Way::Offer => offering::offer_all(rt, script, publisher, seat, out),
        Way::Call => calling::call_all(rt, script, publisher, seat, out),
    }
}

/// Serves a script by an opening. False if the opening, or its service, is refused.
fn serve_opening<J: Naming + Send + Sync, R: Threads + Wait + Eprint + Sync>(
    rt: &R,
    way: Way,
    script: &Script<'_>,
    opening: Opening,
    out: &mut Vec<u8>,
) -> Result<bool, Trouble>
    requires { opening ≡ J.opening }
{
    match open::<J, R>(script.alloc, rt, opening, SeatCount::new(2).unwrap()) {
        Ok((publisher, mut seats)) => {
            let seat = seats.first_mut().unwrap();
            let served = serve_opened(rt, way, script, publisher, seat, out);
            drop(seats);
            served
        }
        Err(fault) => {
            note(rt, "open", fault.name());
            Ok(false)
        }
    }
}

/// Serves a script by a publisher: by another one if the first is refused, because one allocation a run is refused.
fn serve_published<R: Threads + Wait + Eprint + Sync>(
    rt: &R,
    way: Way,
    script: &Script<'_>,
    out: &mut Vec<u8>,
) -> Result<(), Trouble> {
    for _ in 0..2 {
        let opening = Opening::new(Profile::One, script.clients_max);
        match serve_opening::<Brand, R>(rt, way, script, opening, out) {
            Ok(true) => return Ok(()),
            Ok(false) => {}
            Err(trouble) => return Err(trouble),
        }
    }
    Err(Trouble::Wrong(Why::RefusedTwice))
}

/// Serves a script.
fn serve<R: Threads + Wait + Eprint + Sync>(
    rt: &R,
    alloc: Global,
    by: Served,
    clients_max: ClientsMax,
    bytes: &[u8],
    out: &mut Vec<u8>,
) -> Result<(), Trouble> {
    let pairs = read_pairs(alloc, bytes)?;
    let script = Script {
        alloc,
        clients_max,
        pairs: pairs.as_slice(),
    };
    let served = match by {
        Served::Apply => applying::apply_all(rt, &script, out),
        Served::Publish(way) => serve_published(rt, way, &script, out),
    };
    drop(pairs);
    served
}

/// What the program was asked to do, what it was given, and its output.
#[derive(Drop)]
struct Task {
    form: Form,
    input: Vec<u8>,
    out: Vec<u8>,
}

/// Reads the program's words and its input, and reserves memory for its output.
fn read_task(rt: &HostRuntime) -> Result<Task, Trouble> {
    let form = read_words(rt)?;
    let mut input = Vec::new(rt.alloc());
    rt.stdin().read_to_end(&mut input)?;
    let out = Vec::with_capacity(rt.alloc(), OUTPUT_CAPACITY)?;
    Ok(Task { form, input, out })
}

/// Serves the script, or reads the frames.
fn serve_task<R: Threads + Wait + Eprint + Sync>(
    rt: &R,
    alloc: Global,
    task: &mut Task,
) -> Result<(), Trouble> {
    let form = task.form;
    let input = task.input.as_slice();
    match form {
        Form::Serve(by, clients_max) => serve(rt, alloc, by, clients_max, input, &mut task.out),
        Form::Read => reading::read_all(alloc, input, &mut task.out),
    }
}

fn main(rt: HostRuntime) -> ExitCode {
    let served = match read_task(&rt) {
        Ok(mut task) => {
            let served = serve_task(&rt, rt.alloc(), &mut task);
            let written = rt.stdout().write_all(task.out.as_slice());
            served.and(written.map_err(|_| Trouble::SetUp))
        }
        Err(trouble) => Err(trouble),
    };
    let exit_status = match served {
        Ok(()) => 0,
        Err(trouble) => {
            let _ = eprintln!(&rt; "{trouble:?}");
            trouble.exit_status()
        }
    };
    ExitCode::from(exit_status)
}
