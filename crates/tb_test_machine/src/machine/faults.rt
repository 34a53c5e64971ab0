//! Scripts that end before their time: no time is left, or a frame is at fault or cut.
use crate::comparing::holds_at;
use crate::machine::forms::{Answer, Form, written};
use crate::machine::scripts::{Head, Script};
use crate::machine::serving::{PROFILES, expect};
use crate::machine::steps::{BEGIN, Step, THIRD, script_of};
use std::alloc::Global;
use std::process::Abort;
use tb_machine::RunFault;
use tb_records::{FrameFault, Profile};

/// The last moment that can be the time of an entry.
const LAST: u64 = (1 << 63) - 1;

/// It can be the time of the first entry, and then of no second. A repeat needs no time.
const EXHAUSTED: [Step; 5] = [
    Step::Moment(LAST),
    Step::Register(7, 1),
    Step::Moment(LAST + 1),
    Step::Register(7, 1),
    Step::Moment(0),
];

/// There is no time for client 8's register after these steps.
fn expect_exhausted(rt: &impl Abort, alloc: Global, steps: &[Step]) {
    let mut script = script_of(rt, alloc, &[steps]);
    script.ask(rt, Head::register(8, 0));
    expect(rt, script, 2, &PROFILES, Err(RunFault::TimeExhausted));
}

/// After an entry at the last moment, and for a first entry after that moment.
#[test]
fn time_runs_out(rt: HostRuntime) {
    expect_exhausted(&rt, rt.alloc(), &EXHAUSTED);
    expect_exhausted(&rt, rt.alloc(), &[Step::Moment(LAST + 1)]);
}

/// What serving the three requests cut at a length returns, and how many bytes are written: the replies to all whole pairs.
fn answer_at(len: usize) -> (Result<u64, RunFault>, usize) {
    let short = Err(RunFault::Frame(FrameFault::Short));
    match len {
        0 => (Ok(0), 0),
        1..56 => (short, 0),
        56 => (Ok(1), 48),
        57..368 => (short, 48),
        368 => (Ok(2), 96),
        369..472 => (short, 96),
        _ => (Ok(3), 400),
    }
}

/// Serves a prefix of a script by a profile, and compares what is returned and written.
fn expect_cut(rt: &impl Abort, script: &Script, profile: Profile, len: usize) {
    let (answer, count) = answer_at(len);
    let cut = script.bytes.as_slice().get(..len).unwrap_or(&[]);
    let form = Form::Run(profile, 2);
    let replies = written(rt, script.alloc, form, cut, Answer::Ran(answer));
    let same = script.replies.as_slice().get(..count) == Some(replies.as_slice());
    drop(replies);
    holds_at(rt, cut.len() == len && same, &len);
}

/// Three requests, cut at each length.
#[test]
fn script_cut_at_each_length(rt: HostRuntime) {
    let script = script_of(&rt, rt.alloc(), &[&BEGIN, &THIRD]);
    for len in 0..473 {
        expect_cut(&rt, &script, Profile::One, len);
        expect_cut(&rt, &script, Profile::Two, len);
    }
    drop(script);
}
