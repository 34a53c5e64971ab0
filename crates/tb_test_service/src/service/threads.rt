//! What is done next to a server that runs, in a thread of its own.
ghost use Rattle.std.specs.Prelude.{◌≡◌};

use crate::comparing::holds;
use crate::making::{opening, rising, started};
use crate::service::gates::{Behind, Waiting, Watch, call_while_held};
use crate::service::progress::offer_in_turn;
use crate::service::repeats::repeat_in_reverse;
use crate::service::steps::{Left, expect_credited, expect_left};
use std::alloc::Global;
use std::marker::Brand;
use std::process::Abort;
use std::sync::Wait;
use std::sync::atomic::Ordering;
use std::thread::{Threads, join};
use tb_published::{Naming, Opening, Publisher, Seat};
use tb_records::Profile;
use tb_service::{Gate, Moments, Open, Port, Server};

/// What is done next to the server.
#[derive(Drop)]
enum Work<'a> {
    /// Requests are offered, each after those before it were answered.
    InTurn,
    /// Two ports send the same requests, one of them in reverse.
    InReverse,
    /// Seats are asked for a request that waits at the gate.
    WhileHeld(&'a Watch),
}

/// Does the work, and says whether all of it went well.
fn do_work<J: Naming + Send + Sync, R: Threads + Wait + Abort + Sync>(
    rt: &R,
    alloc: Global,
    ports: &mut [Port],
    one: &mut Seat<J>,
    two: &mut Seat<J>,
    work: &Work<'_>,
) -> bool {
    let mut each = ports.iter_mut();
    let first = each.next().expect(rt, "a port");
    match *work {
        Work::InTurn => offer_in_turn(rt, alloc, first, one),
        Work::InReverse => {
            let second = each.next().expect(rt, "another port");
            repeat_in_reverse(rt, alloc, first, second, one)
        }
        Work::WhileHeld(watch) => call_while_held(rt, alloc, first, one, two, watch),
    }
}

/// Does the work, and then closes the ports.
fn work_and_close<J: Naming + Send + Sync, R: Threads + Wait + Abort + Sync>(
    rt: &R,
    alloc: Global,
    mut ports: Vec<Port>,
    one: &mut Seat<J>,
    two: &mut Seat<J>,
    work: &Work<'_>,
) -> bool {
    let done = do_work(rt, alloc, ports.as_mut_slice(), one, two, work);
    for port in ports {
        drop(port.close(rt));
    }
    done
}

/// Entry n has client 7's request n - 1: so no key is there twice.
fn are_numbered<J: Naming>(publisher: &Publisher<J>) -> bool {
    for (number, entry) in publisher.history().iter().enumerate() {
        let request = &entry.request;
        if request.client() != 7 || request.request() as usize != number {
            return false;
        }
    }
    true
}

/// The server runs next to the work.
fn run_beside<
    J: Naming + Send + Sync,
    R: Threads + Wait + Abort + Sync,
    M: Moments + Drop,
    G: Gate + Drop,
>(
    rt: &R,
    alloc: Global,
    server: Server<J, &R, M, G>,
    ports: Vec<Port>,
    one: &mut Seat<J>,
    two: &mut Seat<J>,
    work: &Work<'_>,
    left: &Left,
) {
    let first = &mut *one;
    let second = &mut *two;
    let (done, finished) = join(
        rt,
        move || work_and_close(rt, alloc, ports, first, second, work),
        move || server.run(rt),
    );
    holds(rt, done, "all went well");
    expect_left(rt, &finished, left);
    holds(rt, are_numbered(&finished.publisher), "the history");
    expect_credited(rt, one, left);
    expect_credited(rt, two, left);
    drop(finished.close(rt));
}

/// An opening's server with `count` ports, and two seats; the server runs next to the work.
fn serve_beside<
    J: Naming + Send + Sync,
    R: Threads + Wait + Abort + Sync,
    M: Moments + Drop,
    G: Gate + Drop,
>(
    rt: &R,
    alloc: Global,
    opening: Opening,
    count: u32,
    moments: M,
    gate: G,
    work: &Work<'_>,
    left: &Left,
)
    requires { opening ≡ J.opening }
{
    let (server, ports, mut seats) = started::<J, R, M, G>(
        rt, alloc, opening, count, moments, gate,
    );
    let mut both = seats.iter_mut();
    let one = both.next().expect(rt, "a seat");
    let two = both.next().expect(rt, "another seat");
    run_beside(rt, alloc, server, ports, one, two, work, left);
    drop(seats);
}

/// Client 7's register, two accounts, and 128 transfers of 10.
const IN_TURN: Left = Left {
    entries: 130,
    credited: 1280,
    first: &[],
    second: &[],
    late: &[],
};

#[test]
fn each_is_answered_before_the_next(rt: HostRuntime) {
    let opening = opening(&rt, Profile::One, 2);
    serve_beside::<Brand, _, _, _>(
        &rt,
        rt.alloc(),
        opening,
        1,
        rising(),
        Open,
        &Work::InTurn,
        &IN_TURN,
    );
}

/// The same with the transfers of 1 to 50.
const IN_REVERSE: Left = Left {
    entries: 52,
    credited: 1275,
    first: &[],
    second: &[],
    late: &[],
};

#[test]
fn reordered_repeats(rt: HostRuntime) {
    let opening = opening(&rt, Profile::One, 2);
    serve_beside::<Brand, _, _, _>(
        &rt,
        rt.alloc(),
        opening,
        2,
        rising(),
        Open,
        &Work::InReverse,
        &IN_REVERSE,
    );
}

/// The register.
const HELD: Left = Left {
    entries: 1,
    credited: 0,
    first: &[],
    second: &[],
    late: &[],
};

#[test]
fn seats_answer_while_held(rt: HostRuntime) {
    let opening = opening(&rt, Profile::One, 2);
    let watch = Watch::new();
    serve_beside::<Brand, _, _, _>(
        &rt,
        rt.alloc(),
        opening,
        1,
        Behind(&watch),
        Waiting(&watch),
        &Work::WhileHeld(&watch),
        &HELD,
    );
    let stands = watch.stands.load(Ordering::SeqCst);
    holds(&rt, stands == 1, "the place that passed");
}
