//! Examples by steps: eight requests in an order, a call that never asks again, the places of each port's requests, and a server without
//! time.
ghost use Rattle.std.specs.Prelude.{◌≡◌};

use crate::making::{Asked, Every, opening, rising};
use crate::service::steps::{Left, Step, serve_all};
use std::marker::Brand;
use tb_records::Profile;

/// Client 7's register, two accounts, and six transfers of 10.
const ALL_EIGHT: Left = Left {
    entries: 8,
    credited: 60,
    first: &[1, 2, 3, 4, 5, 6, 7, 8],
    second: &[],
    late: &[],
};

#[test]
fn eight_in_one_order(rt: HostRuntime) {
    let opening = opening(&rt, Profile::One, 2);
    serve_all::<Brand, _>(
        &rt,
        rt.alloc(),
        opening,
        rising(),
        &[Step::Eight],
        &ALL_EIGHT,
    );
}

/// Its request was sent once.
const CALLED: Left = Left {
    entries: 1,
    credited: 0,
    first: &[1],
    second: &[],
    late: &[],
};

#[test]
fn call_without_turns(rt: HostRuntime) {
    let opening = opening(&rt, Profile::One, 2);
    serve_all::<Brand, _>(
        &rt,
        rt.alloc(),
        opening,
        rising(),
        &[Step::CallOnce],
        &CALLED,
    );
}

/// Two ports send by turns: a register, another one, the first again, and a lookup.
const BY_TURNS: &[Step] = &[
    Step::First((7, 0, 0), Asked::Register),
    Step::Second((8, 0, 0), Asked::Register),
    Step::First((7, 0, 0), Asked::Register),
    Step::First((7, 1, 1), Asked::Lookup(&[])),
];

const PLACES: Left = Left {
    entries: 3,
    credited: 0,
    first: &[1, 3, 4],
    second: &[2],
    late: &[],
};

#[test]
fn places_of_each_port(rt: HostRuntime) {
    let opening = opening(&rt, Profile::One, 2);
    serve_all::<Brand, _>(&rt, rt.alloc(), opening, rising(), BY_TURNS, &PLACES);
}

/// The registers of three clients.
const THREE: &[Step] = &[
    Step::First((7, 0, 0), Asked::Register),
    Step::Second((8, 0, 0), Asked::Register),
    Step::First((9, 0, 0), Asked::Register),
];

/// After the first entry there is no time left.
const LATE: Left = Left {
    entries: 1,
    credited: 0,
    first: &[1, 3],
    second: &[2],
    late: &[2, 3],
};

/// All moments are the last one.
#[test]
fn time_runs_out_in_the_server(rt: HostRuntime) {
    let last = Every {
        next: i64::MAX as u64,
        step: 0,
    };
    let opening = opening(&rt, Profile::One, 2);
    serve_all::<Brand, _>(&rt, rt.alloc(), opening, last, THREE, &LATE);
}
