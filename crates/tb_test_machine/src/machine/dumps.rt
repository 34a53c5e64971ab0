//! Scripts that are dumped and dumps that are replayed, in memory: worked examples, by the bytes that the formats give.
use crate::comparing::{holds, holds_at};
use crate::machine::forms::{Answer, Form, written};
use crate::machine::frames::{Line, bytes_of};
use crate::machine::rows::TransferRow as Row;
use crate::machine::steps::{BEGIN, Step, script_of};
use std::alloc::Global;
use std::process::Abort;
use tb_records::{CreateTransferResult as Outcome, DumpFault, FrameFault};

/// The head of a dump by profile 1 with two clients, and by profile 2.
const HEAD: Line = 0x54425344554d50310100000002000000;

const HEAD_BY_TWO: Line = 0x54425344554d50310200000002000000;

const MARK: Line = 0x00000000000000000200000000000000;

/// The commit number 1 and the time 10.
const FIRST: Line = 0x01000000000000000a00000000000000;

/// The commit number 2 and the time 10.
const SECOND: Line = 0x02000000000000000a00000000000000;

/// Client 7 registers.
const CLIENT: Line = 0x07000000000000000000000000000000;

const REGISTER: Line = 0x00000000000000000000000002000000;

const REPLY: [Line; 3] = [
    CLIENT,
    0x01000000000000000000000002000000,
    0x00000000010000000000000000000000,
];

/// The dump of the history of one register.
const ONE_REGISTER: [Line; 5] = [HEAD, FIRST, CLIENT, REGISTER, 0];

/// A register that is sent twice makes a history of one entry, 80 bytes, whose replay is the reply to it.
#[test]
fn dump_and_replay(rt: HostRuntime) {
    let alloc = rt.alloc();
    let script = script_of(&rt, alloc, &[&[Step::Register(7, 1), Step::Register(7, 1)]]);
    let input = script.bytes.as_slice();
    let dump = written(&rt, alloc, Form::Dump(None), input, Answer::Ran(Ok(1)));
    let wanted = bytes_of(&rt, alloc, &[&ONE_REGISTER]);
    holds(&rt, dump.as_slice() == wanted.as_slice(), "the dump");
    drop(wanted);
    let answer = Answer::Replayed(Ok(1));
    let replies = written(&rt, alloc, Form::Replay, dump.as_slice(), answer);
    let wanted = bytes_of(&rt, alloc, &[&REPLY]);
    holds(&rt, replies.as_slice() == wanted.as_slice(), "the reply");
    drop(wanted);
    drop(replies);
    drop(dump);
    drop(script);
}

/// A dump has the mark at this place, if one is named.
fn has_mark(dump: &[u8], mark: Option<usize>) -> bool {
    match mark {
        Some(at) => dump.get(at..at.saturating_add(16)) == Some(MARK.to_be_bytes().as_slice()),
        None => true,
    }
}

/// A transfer from an account that does not exist, and its id again.
const FAILED: Step = Step::Single(Row::Plain(77, 99, 2, 1), Outcome::DebitAccountNotFound);

const FREE_AGAIN: [Step; 2] = [FAILED, Step::Single(Row::Plain(77, 1, 2, 1), Outcome::Ok)];

/// By profile 2 it has failed.
const FAILED_AGAIN: [Step; 2] = [
    FAILED,
    Step::Single(Row::Plain(77, 1, 2, 1), Outcome::IdAlreadyFailed),
];

/// Where the mark is before the first entry above a number: the length of the dump, the place of the mark, and what the replay answers.
type Marked = (Option<u64>, usize, Option<usize>, &'static [Step]);

/// No mark, one that would be after the last entry, and marks before the fourth and the third.
const MARKS: [Marked; 4] = [
    (None, 784, None, &FREE_AGAIN),
    (Some(4), 784, None, &FREE_AGAIN),
    (Some(3), 800, Some(592), &FREE_AGAIN),
    (Some(2), 800, Some(400), &FAILED_AGAIN),
];

/// Dumps the script of a row, and replays the dump.
fn expect_mark(rt: &impl Abort, alloc: Global, row: Marked) {
    let (at, length, mark, steps) = row;
    let script = script_of(rt, alloc, &[&BEGIN, steps]);
    let input = script.bytes.as_slice();
    let dump = written(rt, alloc, Form::Dump(at), input, Answer::Ran(Ok(4)));
    let answer = Answer::Replayed(Ok(4));
    let replies = written(rt, alloc, Form::Replay, dump.as_slice(), answer);
    let same = replies.as_slice() == script.replies.as_slice();
    let marked = has_mark(dump.as_slice(), mark);
    holds_at(rt, same && marked && dump.len() == length, &at);
    drop(replies);
    drop(dump);
    drop(script);
}

#[test]
fn mark_in_a_dump(rt: HostRuntime) {
    for row in &MARKS {
        expect_mark(&rt, rt.alloc(), *row);
    }
}

/// A dump by its lines, of which this many bytes are there; what its replay returns; and how many bytes of replies it writes.
type DumpRow = (&'static [Line], usize, Result<u64, DumpFault>, usize);

const SHORT: Result<u64, DumpFault> = Err(DumpFault::Frame(FrameFault::Short));

/// Wrong heads, marks that may not be where they are, a history that begins with commit number 2, one whose entry comes again, and inputs that
/// are cut. A mark may be at the end; if an input ends in one that may not be there, it is short.
const ROWS: [DumpRow; 15] = [
    (&[HEAD], 16, Ok(0), 0),
    (
        &[0x54425344554d50320100000002000000],
        16,
        Err(DumpFault::Head),
        0,
    ),
    (
        &[0x54425344554d50310300000002000000],
        16,
        Err(DumpFault::Head),
        0,
    ),
    (
        &[0x54425344554d50310100000041000000],
        16,
        Err(DumpFault::Head),
        0,
    ),
    (&[], 0, Err(DumpFault::Head), 0),
    (&[HEAD], 15, Err(DumpFault::Head), 0),
    (
        &[HEAD, 0x00000000000000000300000000000000],
        32,
        Err(DumpFault::Mark),
        0,
    ),
    (&[HEAD_BY_TWO, MARK], 32, Err(DumpFault::Mark), 0),
    (&[HEAD, MARK, MARK], 48, Err(DumpFault::Mark), 0),
    (
        &[HEAD, SECOND, CLIENT, REGISTER, 0],
        80,
        Err(DumpFault::NotLegal),
        0,
    ),
    (
        &[HEAD, FIRST, CLIENT, REGISTER, 0, FIRST, CLIENT, REGISTER, 0],
        144,
        Err(DumpFault::NotLegal),
        48,
    ),
    (&[HEAD, FIRST, CLIENT, REGISTER, 0, FIRST], 90, SHORT, 48),
    (&[HEAD, FIRST, CLIENT, REGISTER, 0, MARK], 96, Ok(1), 48),
    (&[HEAD_BY_TWO, MARK], 31, SHORT, 0),
    (&[HEAD, MARK, MARK], 40, SHORT, 0),
];

/// Replays a row's dump.
fn expect_row(rt: &impl Abort, alloc: Global, row: DumpRow) {
    let (lines, length, answer, count) = row;
    let mut dump = bytes_of(rt, alloc, &[lines]);
    dump.truncate(length);
    holds_at(rt, dump.len() == length, &length);
    let answer = Answer::Replayed(answer);
    let replies = written(rt, alloc, Form::Replay, dump.as_slice(), answer);
    holds_at(rt, replies.len() == count, &length);
    drop(replies);
    drop(dump);
}

#[test]
fn dump_faults(rt: HostRuntime) {
    for row in &ROWS {
        expect_row(&rt, rt.alloc(), *row);
    }
}
