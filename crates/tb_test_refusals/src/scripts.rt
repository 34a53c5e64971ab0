//! The pairs of a script, and what is written of a history.
use crate::troubles::{Trouble, Why, expect, note_no_memory};
use std::alloc::{AllocError, Global};
use tb_machine::Entry;
use tb_records::dumps::{send_entry, send_head};
use tb_records::{
    ClientsMax, Counting, DumpHead, Profile, Reply, Request, RequestStream, write_reply,
};

/// A script has at most this many pairs, so that the queue of a server holds all of them.
const PAIRS_MAX: u32 = 60;

/// A request, and the moment at which it comes.
#[derive(Drop)]
pub struct Pair {
    pub moment: u64,
    pub request: Request,
}

/// A script that is to be served.
#[derive(Clone, Copy)]
pub struct Script<'a> {
    pub alloc: Global,
    pub clients_max: ClientsMax,
    pub pairs: &'a [Pair],
}

/// Appends all pairs of a script.
fn put_pairs(alloc: Global, script: &[u8], pairs: &mut Vec<Pair>) -> Result<(), Trouble> {
    let mut stream = RequestStream::new(Counting::new(script));
    for _ in 0..=PAIRS_MAX {
        match stream.next_timed(alloc) {
            Ok(Some((moment, request))) => pairs.push(Pair { moment, request })?,
            Ok(None) => return Ok(()),
            Err(_) => return Err(Trouble::SetUp),
        }
    }
    Err(Trouble::Wrong(Why::TooManyPairs))
}

/// All pairs of a script.
pub fn read_pairs(alloc: Global, script: &[u8]) -> Result<Vec<Pair>, Trouble> {
    let mut pairs = Vec::new(alloc);
    match put_pairs(alloc, script, &mut pairs) {
        Ok(()) => Ok(pairs),
        Err(trouble) => {
            drop(pairs);
            Err(trouble)
        }
    }
}

/// A copy of a request; the allocation for it may be refused once.
pub fn copy_of<R: Eprint>(rt: &R, alloc: Global, request: &Request) -> Result<Request, Trouble> {
    match request.copy(alloc) {
        Ok(copy) => Ok(copy),
        Err(AllocError) => {
            note_no_memory(rt, "copy");
            Ok(request.copy(alloc)?)
        }
    }
}

/// Appends a reply, for which there is capacity.
pub fn put_reply(reply: &Reply, out: &mut Vec<u8>) -> Result<(), Trouble> {
    expect(write_reply(reply, out).is_ok(), Why::NoCapacity)
}

/// Appends a history as a dump, for which there is capacity.
pub fn put_history(
    clients_max: ClientsMax,
    history: &[Entry],
    out: &mut Vec<u8>,
) -> Result<(), Trouble> {
    let head = DumpHead {
        profile: Profile::One,
        clients_max,
    };
    let mut writer = Counting::new(out);
    let mut whole = send_head(&mut writer, head).is_ok();
    for entry in history {
        whole = send_entry(&mut writer, entry.commit, entry.time, &entry.request).is_ok() && whole;
    }
    expect(whole, Why::NoCapacity)
}
