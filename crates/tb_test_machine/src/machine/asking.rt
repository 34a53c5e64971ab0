//! No call is repeated: exactly one call of a reader or a writer goes wrong. Those after it are counted, and what was written is the reply to
//! what was read.
use crate::comparing::{holds, holds_at};
use crate::machine::forms::{Answer, Form, Served, Trouble, serve, written};
use crate::machine::steps::{BEGIN, THIRD, script_of};
use std::alloc::Global;
use std::process::Abort;
use tb_machine::RunFault;
use tb_records::{DumpFault, FrameFault, Profile};

/// The end of a pair or an entry, and how many bytes are written for all up to there.
type Turn = (usize, usize);

/// What a form serves, what it writes if nothing goes wrong, and when.
#[derive(Clone, Copy)]
struct Input<'a> {
    form: Form,
    bytes: &'a [u8],
    wanted: &'a [u8],
    turns: &'a [Turn],
}

/// How many bytes are written if this many are read.
fn due(turns: &[Turn], read: usize) -> usize {
    let mut count = 0;
    for (end, bytes) in turns {
        if *end <= read {
            count = *bytes;
        }
    }
    count
}

/// The answer of a form whose reader or writer failed.
fn device(form: Form) -> Answer {
    match form {
        Form::Replay => Answer::Replayed(Err(DumpFault::Frame(FrameFault::Device))),
        _ => Answer::Ran(Err(RunFault::Frame(FrameFault::Device))),
    }
}

/// Whether a form ended right at a call that went wrong: after a read with all that was due, after a write with less than is wanted.
fn ends_right(input: &Input<'_>, trouble: Trouble, served: &Served) -> bool {
    let length = served.written.len();
    let is_right = match trouble {
        Trouble::ReadFails => length == due(input.turns, served.read),
        _ => length < input.wanted.len(),
    };
    let failures = u64::from(trouble != Trouble::WriteTakesNothing);
    is_right && served.failures == failures && served.answer == device(input.form)
}

/// Whether a form of which nothing went wrong wrote all.
fn is_whole(input: &Input<'_>, served: &Served) -> bool {
    served.written.len() == input.wanted.len()
        && served.failures == 0
        && served.answer != device(input.form)
}

/// Serves an input, and a call goes wrong after this many good ones; returns whether there was such a call.
fn goes_wrong(
    rt: &impl Abort,
    alloc: Global,
    input: &Input<'_>,
    trouble: Trouble,
    good: u32,
) -> bool {
    let served = serve(rt, alloc, input.form, input.bytes, trouble, good);
    let wrong = served.calls > good;
    let is_right = if wrong {
        ends_right(input, trouble, &served)
    } else {
        is_whole(input, &served)
    };
    let is_prefix = input.wanted.starts_with(served.written.as_slice());
    drop(served);
    holds_at(rt, is_right && is_prefix, &good);
    wrong
}

/// Each call of a kind goes wrong in turn. There are at least this many, and less than 100.
fn expect_each(rt: &impl Abort, alloc: Global, input: &Input<'_>, trouble: Trouble, least: u32) {
    for good in 0..100 {
        if !goes_wrong(rt, alloc, input, trouble, good) {
            holds_at(rt, good >= least, &good);
            return;
        }
    }
    holds(rt, false, "less than 100 calls");
}

/// Each read fails in turn, then each write, then each write takes nothing: there are at least this many reads, and this many writes. Returns what is
/// written if nothing goes wrong.
fn expect_asked_once(
    rt: &impl Abort,
    alloc: Global,
    form: Form,
    bytes: &[u8],
    turns: &[Turn],
    least: (u32, u32),
    answer: Answer,
) -> Vec<u8> {
    let wanted = written(rt, alloc, form, bytes, answer);
    let input = Input {
        form,
        bytes,
        wanted: wanted.as_slice(),
        turns,
    };
    let (reads, writes) = least;
    expect_each(rt, alloc, &input, Trouble::ReadFails, reads);
    expect_each(rt, alloc, &input, Trouble::WriteFails, writes);
    expect_each(rt, alloc, &input, Trouble::WriteTakesNothing, writes);
    wanted
}

/// The three requests, their dump with a mark before the second entry, and that dump. A moment is read in one piece, a header in two, each record in
/// three or four.
#[test]
fn nothing_is_asked_again(rt: HostRuntime) {
    let alloc = rt.alloc();
    let script = script_of(&rt, alloc, &[&BEGIN, &THIRD]);
    let input = script.bytes.as_slice();
    let form = Form::Run(Profile::One, 2);
    let turns = [(56, 48), (368, 96), (472, 400)];
    let replies = expect_asked_once(
        &rt,
        alloc,
        form,
        input,
        &turns,
        (19, 13),
        Answer::Ran(Ok(3)),
    );
    let form = Form::Dump(Some(1));
    let turns = [(0, 16), (56, 80), (368, 416), (472, 528)];
    let dump = expect_asked_once(
        &rt,
        alloc,
        form,
        input,
        &turns,
        (19, 19),
        Answer::Ran(Ok(3)),
    );
    let (input, answer) = (dump.as_slice(), Answer::Replayed(Ok(3)));
    let turns = [(80, 48), (416, 96), (528, 400)];
    let again = expect_asked_once(&rt, alloc, Form::Replay, input, &turns, (20, 13), answer);
    holds(&rt, replies.as_slice() == again.as_slice(), "the replies");
    drop(again);
    drop(dump);
    drop(replies);
    drop(script);
}
