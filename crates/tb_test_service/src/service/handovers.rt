//! A server that is gone: what its port sends comes back.
ghost use Rattle.std.specs.Prelude.{◌≡◌};

use crate::comparing::holds;
use crate::making::{in_order, opening, rising, started};
use std::alloc::Global;
use std::marker::Brand;
use std::process::Abort;
use std::sync::Wait;
use tb_published::{Naming, Opening, Seat, SeatFault};
use tb_records::Profile;
use tb_service::{Open, Port};

/// What the port offers comes back, and the seat finds no copy.
fn offer_in_vain<J: Naming, R: Wait + Abort>(
    rt: &R,
    alloc: Global,
    port: &mut Port,
    seat: &mut Seat<J>,
) {
    let request = in_order(rt, alloc, 0);
    let status = seat.status(&request);
    holds(rt, status == Err(SeatFault::NoCopy), "no copy");
    let outcome = port.offer(rt, request);
    holds(rt, outcome.is_err(), "given back");
    drop(outcome);
}

/// A server is dropped before it has run, and its publisher closed.
fn drop_server<J: Naming, R: Wait + Abort>(rt: &R, alloc: Global, opening: Opening)
    requires { opening ≡ J.opening }
{
    let (server, mut ports, mut seats) = started::<J, R, _, _>(
        rt,
        alloc,
        opening,
        1,
        rising(),
        Open,
    );
    drop(server);
    let port = ports.iter_mut().next().expect(rt, "a port");
    let seat = seats.iter_mut().next().expect(rt, "a seat");
    offer_in_vain(rt, alloc, port, seat);
    drop(ports);
    drop(seats);
}

#[test]
fn dropped_server_gives_back(rt: HostRuntime) {
    drop_server::<Brand, _>(&rt, rt.alloc(), opening(&rt, Profile::One, 2));
}
