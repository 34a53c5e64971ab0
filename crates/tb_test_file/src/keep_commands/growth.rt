//! A file to which another program appends while it is read.
use crate::keep::dumps::dump_of;
use crate::keep::scripts::kept_bytes;
use crate::steps::{copy_of, expect, expect_begin, expect_given, sure};
use std::alloc::Global;
use std::io::BufWriter;
use std::process::Abort;
use tb_edge_file::{
    Opener, OpeningFault, Outgoing, Outlet, Part, Reason, Waited, check_over, dump_over,
};
use tb_file_journal::{Growing, JournalFault, Memory, Snapshot};
use tb_records::Counting;

/// A file that has one commit more at each fifth time that its length is asked for. An opening asks four times, for the block of the head and the
/// latch after it. So does a look at a file that has an entry more, after it has asked once.
#[derive(Drop)]
pub struct Growth<G> {
    shown: G,
    /// What it shows later, the last first.
    stages: Vec<G>,
    asked: u8,
}

impl<G: Growing + Drop> Growing for Growth<G> {
    fn read_at(&mut self, at: usize, into: &mut [u8]) -> Result<usize, JournalFault> {
        Growing::read_at(&mut self.shown, at, into)
    }

    fn len(&mut self) -> Result<usize, JournalFault> {
        self.asked = self.asked.wrapping_add(1);
        if self.asked % 5 == 0 {
            if let Some(next) = self.stages.pop() {
                self.shown = next;
            }
        }
        Growing::len(&mut self.shown)
    }
}

/// Where the head and the first entry of the script's ledger end: a block is 11 bytes and a record, of 6 bytes, then of 64.
const HEAD_END: usize = 25;

const FIRST_END: usize = 100;

/// A file in memory of these bytes up to an offset, and a closed latch.
fn cut_to(rt: &impl Abort, alloc: Global, bytes: &[u8], end: usize) -> Memory {
    let mut cut = copy_of(rt, alloc, bytes.get(..end).unwrap_or_default());
    sure(rt, cut.extend_from_slice(&[90, 195, 150, 105]));
    sure(rt, Memory::new(alloc, cut))
}

/// The ledger of two pairs, with its head at first, then an entry more, then all.
fn growing_ledger(rt: &impl Abort, alloc: Global) -> Growth<Memory> {
    let whole = kept_bytes(rt, alloc, 2);
    let shown = cut_to(rt, alloc, &whole, HEAD_END);
    let next = cut_to(rt, alloc, &whole, FIRST_END);
    let last = sure(rt, Memory::new(alloc, whole));
    let mut stages = Vec::new(alloc);
    sure(rt, stages.push(last));
    sure(rt, stages.push(next));
    Growth {
        shown,
        stages,
        asked: 0,
    }
}

/// A folder with only that file, for whose commits a dump waits this many times.
#[derive(Drop)]
struct Growths {
    alloc: Global,
    file: Option<Growth<Memory>>,
    pauses: u32,
}

impl Opener for Growths {
    type File = Memory;

    type Reading = Snapshot<Growth<Memory>>;

    fn make(&mut self, _name: &str) -> Result<Memory, OpeningFault> {
        Err(OpeningFault::Forbidden)
    }

    fn take(&mut self, _name: &str) -> Result<Memory, OpeningFault> {
        Err(OpeningFault::Forbidden)
    }

    fn reason(&self) -> Option<Reason> {
        None
    }

    fn make_new(&mut self, _name: &str) -> Result<Memory, OpeningFault> {
        Err(OpeningFault::Forbidden)
    }

    fn name_new(&mut self, device: Memory, _name: &str) -> Result<(), OpeningFault> {
        drop(device);
        Err(OpeningFault::Forbidden)
    }

    fn open(&mut self, _name: &str) -> Result<Snapshot<Growth<Memory>>, OpeningFault> {
        match self.file.take() {
            Some(file) => { Snapshot::new(self.alloc, file).map_err(|_| OpeningFault::NoMemory) }
            None => Err(OpeningFault::Missing),
        }
    }

    fn pause(&mut self, _name: &str) -> Waited {
        match self.pauses.checked_sub(1) {
            Some(left) => {
                self.pauses = left;
                Waited::More
            }
            None => Waited::Enough,
        }
    }
}

/// A folder with the growing ledger, for whose commits a dump waits this many times.
fn folder(rt: &impl Abort, alloc: Global, pauses: u32) -> Growths {
    Growths {
        alloc,
        file: Some(growing_ledger(rt, alloc)),
        pauses,
    }
}

/// What is written of that file as a dump that waits this many times for its commits.
fn dumped(rt: &impl Abort, alloc: Global, part: Part, pauses: u32) -> Vec<u8> {
    let mut folder = folder(rt, alloc, pauses);
    let mut out = Vec::new(alloc);
    let mut writer = Outgoing::new(sure(rt, BufWriter::with_capacity(alloc, 0, &mut out)));
    let done = dump_over(alloc, &mut folder, "ledger", &mut writer, part);
    expect(rt, done.is_ok() && writer.finish().is_ok());
    drop(writer);
    drop(folder);
    out
}

/// What a check writes of that file.
fn checked(rt: &impl Abort, alloc: Global) -> Vec<u8> {
    let mut folder = folder(rt, alloc, 0);
    let mut out = Counting::new(Vec::new(alloc));
    let done = check_over(alloc, &mut folder, "ledger", false, &mut out);
    expect(rt, done.is_ok());
    drop(folder);
    out.into_inner()
}

/// All entries, after a head.
const ALL: Part = Part {
    after: None,
    follows: false,
};

/// The same, and those that come later.
const FOLLOWED: Part = Part {
    after: None,
    follows: true,
};

/// How many bytes of the dump are written after this many waits: the head has 16, the entries 64 and 320.
const LENGTHS: &[(u32, usize)] = &[(0, 16), (1, 80), (2, 400), (3, 400)];

/// Each entry is written once, in the order of commits, after the head or without one.
#[test]
fn a_followed_dump_goes_on(rt: HostRuntime) {
    let alloc = rt.alloc();
    let all = dump_of(&rt, alloc, 2);
    for (pauses, len) in LENGTHS {
        let found = dumped(&rt, alloc, FOLLOWED, *pauses);
        expect(&rt, found.len() == *len);
        expect_begin(&rt, &all, found);
    }
    let later = Part {
        after: Some(1),
        follows: true,
    };
    let found = dumped(&rt, alloc, later, 2);
    expect_given(&rt, found, all.get(80..).unwrap_or_default());
    drop(all);
}

/// A dump that does not wait has what was there when it was opened.
#[test]
fn a_dump_has_one_moment(rt: HostRuntime) {
    let alloc = rt.alloc();
    let all = dump_of(&rt, alloc, 2);
    let found = dumped(&rt, alloc, ALL, 2);
    expect(&rt, found.len() == 16);
    expect_begin(&rt, &all, found);
    drop(all);
    let later = Part {
        after: Some(0),
        follows: false,
    };
    let found = dumped(&rt, alloc, later, 2);
    expect_given(&rt, found, b"");
}

/// The first entry was committed while the file was read: it has 75 bytes.
#[test]
fn what_was_committed_meanwhile_is_behind(rt: HostRuntime) {
    let alloc = rt.alloc();
    let text =
        "records 1\nentries 0\nprofile 1\nclients_max 2\nlast time 0\nlast date none\nbytes after the records 75, not committed yet or torn\nwhole: every entry was replayed\n";
    let found = checked(&rt, alloc);
    expect_given(&rt, found, text.as_bytes());
}
