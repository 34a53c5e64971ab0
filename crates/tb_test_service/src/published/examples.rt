//! Examples by steps: sessions that are evicted, times that run out, what is shown and when, and what seats learn.
ghost use Rattle.std.specs.Prelude.{◌≡◌};

use crate::making::{Asked, opening};
use crate::published::rows::FIRST_ROWS;
use crate::published::steps::{Step, play_all};
use std::marker::Brand;
use tb_published::{TakeFault, Taken};
use tb_records::{Profile, Status};

/// A lookup of no account.
const NOTHING: Asked = Asked::Lookup(&[]);

/// Clients 1 to 100 register by turns, and only one client can have a session; then each of the first 99 sends a request.
/// After them the last client, the first one registered again, and both once more.
const STORM: &[Step] = &[
    Step::RegisterEach(100),
    Step::RefuseEach(99),
    Step::Take((100, 100, 1), NOTHING, 10, Ok(Taken::Committed(101))),
    Step::Take((1, 0, 0), Asked::Register, 10, Ok(Taken::Committed(102))),
    Step::Take(
        (1, 1, 1),
        NOTHING,
        10,
        Ok(Taken::Refused(Status::SessionTooLow)),
    ),
    Step::Take(
        (100, 100, 2),
        NOTHING,
        10,
        Ok(Taken::Refused(Status::NoSession)),
    ),
    Step::Entries(102),
];

#[test]
fn eviction_storm(rt: HostRuntime) {
    let opening = opening(&rt, Profile::One, 1);
    play_all::<Brand, _>(&rt, rt.alloc(), opening, STORM);
}

/// A first register comes after the end of time. Client 7 registers at the last moment: no new request has a time then, and
/// all others are judged as always.
const LAST_MOMENT: &[Step] = &[
    Step::Take(
        (7, 0, 0),
        Asked::Register,
        1 << 63,
        Err(TakeFault::TimeExhausted),
    ),
    Step::Entries(0),
    Step::Take(
        (7, 0, 0),
        Asked::Register,
        (1 << 63) - 1,
        Ok(Taken::Committed(1)),
    ),
    Step::Take((8, 0, 0), Asked::Register, 0, Err(TakeFault::TimeExhausted)),
    Step::Take((7, 1, 1), NOTHING, 0, Err(TakeFault::TimeExhausted)),
    Step::Take((7, 0, 0), Asked::Register, u64::MAX, Ok(Taken::Repeat(1))),
    Step::Take(
        (7, 2, 1),
        NOTHING,
        u64::MAX,
        Ok(Taken::Refused(Status::NewerSession)),
    ),
    Step::Take((8, 1, 1), NOTHING, 0, Ok(Taken::Refused(Status::NoSession))),
    Step::Take(
        (8, 0, 0),
        Asked::Register,
        u64::MAX,
        Err(TakeFault::TimeExhausted),
    ),
    Step::Entries(1),
];

#[test]
fn time_runs_out(rt: HostRuntime) {
    let opening = opening(&rt, Profile::One, 2);
    play_all::<Brand, _>(&rt, rt.alloc(), opening, LAST_MOMENT);
}

/// A register that is entered is not shown until the copies are told to. Eight requests are shown by one call.
const ENTERED: &[Step] = &[
    Step::Enter((7, 0, 0), Asked::Register, Taken::Committed(1)),
    Step::Status((7, 0, 0), Asked::Register, Status::NotYet, 0),
    Step::Show(1),
    Step::Status((7, 0, 0), Asked::Register, Status::Reply, 1),
    Step::Enter((7, 0, 0), Asked::Register, Taken::Repeat(1)),
    Step::Enter((7, 1, 1), NOTHING, Taken::Committed(2)),
    Step::Enter((7, 1, 2), NOTHING, Taken::Committed(3)),
    Step::Enter((7, 1, 3), NOTHING, Taken::Committed(4)),
    Step::Enter((7, 1, 4), NOTHING, Taken::Committed(5)),
    Step::Enter((7, 1, 5), NOTHING, Taken::Committed(6)),
    Step::Enter((7, 1, 6), NOTHING, Taken::Committed(7)),
    Step::Enter((7, 1, 7), NOTHING, Taken::Committed(8)),
    Step::Enter((7, 1, 8), NOTHING, Taken::Committed(9)),
    Step::Status((7, 1, 1), NOTHING, Status::NotYet, 1),
    Step::Show(9),
    Step::Status((7, 1, 8), NOTHING, Status::Reply, 9),
    Step::Show(9),
];

#[test]
fn entered_is_not_shown(rt: HostRuntime) {
    let opening = opening(&rt, Profile::One, 2);
    play_all::<Brand, _>(&rt, rt.alloc(), opening, ENTERED);
}

/// Client 7's first requests through `take` and one seat, and what the other seat learns then.
#[test]
fn two_seats_and_a_told(rt: HostRuntime) {
    let opening = opening(&rt, Profile::One, 2);
    play_all::<Brand, _>(&rt, rt.alloc(), opening, FIRST_ROWS);
}
