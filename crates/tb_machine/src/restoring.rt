//! An entry as a journal keeps it: its commit number, its time, and the frame of its request. A machine is restored from such entries, one after
//! another.
ghost use Rattle.std.specs.Prelude.{◌≡◌, ◌++◌, OnOk, OnErr};
ghost use Rattle.tb_machine.specs.Restoring.{cause_of, unfit_name, Restores};
ghost use Rattle.tb_machine.specs.Dumps.{dumped};
ghost use Rattle.tb_machine.specs.Recording.{IsRecord, OnlyEntry, RecordAnswers};

use crate::entries::Entry;
use crate::machines::Machine;
use byteorder::{ByteOrder, LittleEndian};
use std::alloc::{AllocError, Allocator, Global};
use std::fmt;
use tb_records::{FrameFault, LAST_MOMENT, read_request, write_request};
use tb_sessions::Class;
use thiserror::Error;

/// Why an entry of a journal is not restored.
#[derive(Clone, Copy, Debug, PartialEq, Eq, Error)]
pub enum Unfit {
    /// Its commit number is not the next one.
    Commit,
    /// Its time is too early, or above `2^63 - 1`.
    Time,
    /// Its request is not new.
    NotNew,
    /// There is no memory for it.
    NoMemory,
}

impl Unfit {
    /// The cause's name, as a message shows it.
    pub fn name(self) -> &'static str
        ensures { result.now ≡ unfit_name self }
    {
        match self {
            Unfit::Commit => "Commit",
            Unfit::Time => "Time",
            Unfit::NotNew => "NotNew",
            Unfit::NoMemory => "NoMemory",
        }
    }
}

impl fmt::Display for Unfit {
    ghost use Rattle.std.specs.Prelude.{Some};
    ghost use Rattle.tb_machine.specs.Restoring.{unfit_name};

    ghost output = { λ cause. Some (unfit_name cause) };

    fn fmt<W: fmt::Write>(&self, f: &mut fmt::Formatter<W>) -> fmt::Result {
        f.write_str(self.name())
    }
}

/// An entry that is not restored: its place in the journal, 1, 2, 3 and so on, and why.
#[derive(Clone, Copy, Debug, PartialEq, Eq, Error)]
#[error("entry {place}: {cause}")]
pub struct RestoreFault {
    /// The place.
    pub place: u64,
    /// The cause: the first check that the entry fails, in the order of the causes.
    pub cause: Unfit,
}

/// The first check that an entry fails, if it may not come next.
fn cause_of<A: Allocator + Clone>(machine: &Machine<A>, entry: &Entry) -> Option<Unfit>
    ensures { result ≡ cause_of machine.now entry.now }
{
    let least = machine.least_time(&entry.request);
    if entry.commit != machine.commit() + 1 {
        Some(Unfit::Commit)
    } else if entry.time < least || entry.time > LAST_MOMENT {
        Some(Unfit::Time)
    } else if !matches!(machine.class(&entry.request), Class::New) {
        Some(Unfit::NotNew)
    } else {
        None
    }
}

/// Enters the next entry of a journal, if it follows from those before it: its request moves into its client's row. On a fault the machine is as it
/// was.
pub fn restore<A: Allocator + Clone>(
    machine: &mut Machine<A>,
    entry: Entry,
) -> Result<(), RestoreFault>
    ensures { Restores result machine.old machine.new entry }
{
    let place = machine.commit() + 1;
    if let Some(cause) = cause_of(machine, &entry) {
        drop(entry);
        return Err(RestoreFault { place, cause });
    }
    match machine.enter(entry) {
        Ok(()) => Ok(()),
        Err(back) => {
            drop(back);
            Err(RestoreFault {
                place,
                cause: Unfit::NoMemory,
            })
        }
    }
}

/// Appends the record of an entry. `AllocError` if there is no memory for all of it: the vector keeps its bytes, and gets no new ones.
pub fn write_entry(entry: &Entry, out: &mut Vec<u8>) -> Result<(), AllocError>
    ensures ok { OnOk result (out.new.items ≡ out.old.items ++ dumped entry.now) }
    ensures fits { OnOk result (IsRecord (dumped entry.now) entry.now) }
    ensures err { OnErr result (out.new.items ≡ out.old.items) }
{
    let start = out.len();
    out.reserve(16)?;
    out.extend_from_slice(&entry.commit.to_le_bytes()).unwrap();
    out.extend_from_slice(&entry.time.to_le_bytes()).unwrap();
    match write_request(&entry.request, out) {
        Ok(()) => Ok(()),
        Err(AllocError) => {
            out.truncate(start);
            Err(AllocError)
        }
    }
}

/// The entry whose record the bytes are. `Short` if they end within it, `BadLength` if more bytes follow, otherwise the fault of the frame.
/// `NoMemory` is returned only if the frame has no fault.
pub fn read_entry(alloc: Global, bytes: &[u8]) -> Result<Entry, FrameFault>
    ensures answer { RecordAnswers result bytes.now }
    ensures only { (entry : Entry) → IsRecord bytes.now entry → OnlyEntry result entry }
{
    if bytes.len() < 16 {
        return Err(FrameFault::Short);
    }
    let frame = &bytes[16..];
    match read_request(alloc, frame) {
        Ok((request, length)) if length == frame.len() => Ok(Entry {
            commit: LittleEndian::read_u64(bytes),
            time: LittleEndian::read_u64(&bytes[8..]),
            request,
        }),
        Ok((request, _)) => {
            drop(request);
            Err(FrameFault::BadLength)
        }
        Err(fault) => Err(fault),
    }
}
