//! `run`, `dump` and `replay` as one call, over a reader and a writer that count what they are asked, and of which one call may go wrong.
use crate::comparing::holds_at;
use crate::machine::machines::clients_max;
use std::alloc::Global;
use std::io::{self, Error, ErrorKind, Read, Write};
use std::process::Abort;
use tb_machine::{RunFault, dump, replay, run};
use tb_records::{Counting, DumpFault, Profile, Sink, Source};

/// Reads and writes move at most this many bytes.
const CALL_BYTES_MAX: usize = 40;

/// What serves a script, or replays its dump.
#[derive(Clone, Copy)]
pub enum Form {
    /// By a profile, for so many clients at most.
    Run(Profile, u32),
    /// For two clients, with a mark before the first entry above this number.
    Dump(Option<u64>),
    Replay,
}

/// What a form returned.
#[derive(Clone, Copy, PartialEq, Eq)]
pub enum Answer {
    Ran(Result<u64, RunFault>),
    Replayed(Result<u64, DumpFault>),
}

/// What goes wrong once.
#[derive(Clone, Copy, PartialEq, Eq)]
pub enum Trouble {
    ReadFails,
    WriteFails,
    WriteTakesNothing,
}

/// The calls of a reader or of a writer.
#[derive(Clone, Copy)]
struct Calls {
    /// The one after this many goes wrong.
    good: u32,
    made: u32,
    /// One went wrong, or found the end.
    over: bool,
    /// The calls after that one, flushes among them.
    late: u32,
}

impl Calls {
    fn new(good: u32) -> Calls {
        Calls {
            good,
            made: 0,
            over: false,
            late: 0,
        }
    }

    /// Counts a call that comes too late.
    fn count_late(&mut self) {
        self.late = self.late.wrapping_add(u32::from(self.over));
    }

    /// Counts a call; returns whether it goes wrong.
    fn count(&mut self) -> bool {
        self.count_late();
        let wrong = self.made == self.good;
        self.made = self.made.wrapping_add(1);
        self.over = self.over || wrong;
        wrong
    }
}

/// A reader of which one call may fail.
#[derive(Drop)]
struct Slipping<'a> {
    rest: &'a [u8],
    calls: Calls,
}

impl Read for Slipping<'_> {
    fn read(&mut self, buf: &mut [u8]) -> io::Result<usize> {
        if self.calls.count() {
            return Err(Error::from(ErrorKind::Interrupted));
        }
        self.calls.over = self.rest.is_empty();
        let most = buf.len().min(CALL_BYTES_MAX);
        self.rest.read(&mut buf[..most])
    }
}

/// A writer of which one call may fail, or take nothing.
#[derive(Drop)]
struct Stumbling {
    taken: Vec<u8>,
    fails: bool,
    calls: Calls,
}

impl Write for Stumbling {
    fn write(&mut self, bytes: &[u8]) -> io::Result<usize> {
        let wrong = self.calls.count();
        if wrong && self.fails {
            return Err(Error::from(ErrorKind::Interrupted));
        }
        let most = if wrong { 0 } else { CALL_BYTES_MAX };
        let count = bytes.len().min(most);
        self.taken.extend_from_slice(&bytes[..count])?;
        Ok(count)
    }

    fn flush(&mut self) -> io::Result<()> {
        self.calls.count_late();
        Ok(())
    }
}

/// What a form returned and wrote, and what was asked.
#[derive(Drop)]
pub struct Served {
    pub answer: Answer,
    pub written: Vec<u8>,
    /// How many bytes were read.
    pub read: usize,
    /// How many calls of the kind that goes wrong were made.
    pub calls: u32,
    /// The errors that the reader and the writer counted.
    pub failures: u64,
}

/// Serves what a reader gives.
fn ask<R: Source, W: Sink>(
    rt: &impl Abort,
    alloc: Global,
    form: Form,
    reader: &mut R,
    writer: &mut W,
) -> Answer {
    match form {
        Form::Run(profile, clients) => {
            let clients_max = clients_max(rt, clients);
            Answer::Ran(run(alloc, profile, clients_max, reader, writer))
        }
        Form::Dump(at) => Answer::Ran(dump(alloc, clients_max(rt, 2), at, reader, writer)),
        Form::Replay => Answer::Replayed(replay(alloc, reader, writer)),
    }
}

/// Serves an input, and a read or a write goes wrong after this many good ones. No other call follows that one, and no read follows the one that finds
/// the end.
pub fn serve(
    rt: &impl Abort,
    alloc: Global,
    form: Form,
    input: &[u8],
    trouble: Trouble,
    good: u32,
) -> Served {
    let in_reading = trouble == Trouble::ReadFails;
    let mut reader = Counting::new(Slipping {
        rest: input,
        calls: Calls::new(if in_reading { good } else { u32::MAX }),
    });
    let mut writer = Counting::new(Stumbling {
        taken: Vec::new(alloc),
        fails: trouble == Trouble::WriteFails,
        calls: Calls::new(if in_reading { u32::MAX } else { good }),
    });
    let answer = ask(rt, alloc, form, &mut reader, &mut writer);
    let failures = Source::failures(&reader).wrapping_add(Sink::failures(&writer));
    let slipping = reader.into_inner();
    let Stumbling { taken, calls, .. } = writer.into_inner();
    let late = slipping.calls.late.wrapping_add(calls.late);
    holds_at(rt, late == 0, &good);
    let counted = if in_reading { slipping.calls } else { calls };
    Served {
        answer,
        written: taken,
        read: input.len().wrapping_sub(slipping.rest.len()),
        calls: counted.made,
        failures,
    }
}

/// Serves an input of which nothing goes wrong, and compares the answer; returns what was written.
pub fn written(
    rt: &impl Abort,
    alloc: Global,
    form: Form,
    input: &[u8],
    answer: Answer,
) -> Vec<u8> {
    let served = serve(rt, alloc, form, input, Trouble::ReadFails, u32::MAX);
    let Served {
        answer: found,
        written,
        ..
    } = served;
    holds_at(rt, found == answer, &input.len());
    written
}
