//! The items of a log, one after another, from a reader to a writer.
ghost use Rattle.std.specs.Prelude.{◌≡◌, ◌≤◌, ◌+◌, false, [], length, IfOk};
ghost use Rattle.tb_records.specs.Transport.{Sent};
ghost use Rattle.tb_log.specs.Format.{content_max};
ghost use Rattle.tb_log.specs.Follows.{Followed};
ghost use Rattle.tb_log.specs.Steps.{ServesContent, TakesEntry, TakesNextPair};

use crate::entries::entry_from;
use crate::faults::LogFault;
use crate::followers::Follower;
use crate::inputs::kind_from;
use bumpalo::Bump;
use std::alloc::{Allocator, Global};
use tb_records::streams::read_timed_from;
use tb_records::{ClientsMax, Counting, Profile, Sink, Source};

/// Serves the pairs of the last entry, one after another, each with its index.
fn serve_content<A: Allocator + Clone, W: Sink>(
    global: Global,
    follower: &mut Follower<A>,
    content: &[u8],
    writer: &mut W,
) -> Result<(), LogFault>
    requires { length content.now ≤ content_max }
    ensures { ServesContent result follower.old follower.new content.now (W.output writer.old) (W.output writer.new) }
{
    let mut source = Counting::new(content);
    for index in 0..0x100_0000u32 {
        match read_timed_from(global, &mut source) {
            Ok(Some((moment, request))) => follower.answer(global, writer, index, moment, request)?,
            Ok(None) => return Ok(()),
            // The content consists of pairs, so no other fault can occur here.
            Err(_) => return Err(LogFault::NoMemory),
        }
    }
    unreachable!()
}

/// Reads the next entry, after its kind, and serves it.
fn take_entry<A: Allocator + Clone, R: Source, W: Sink>(
    global: Global,
    follower: &mut Follower<A>,
    reader: &mut R,
    writer: &mut W,
) -> Result<(), LogFault>
    ensures { TakesEntry result follower.old follower.new (R.input reader.old) (R.input reader.new)
        (W.output writer.old) (W.output writer.new) }
{
    let (position, content) = entry_from(global, reader, follower.position())?;
    follower.begin(position, &content);
    serve_content(global, follower, &content, writer)
}

/// Takes the next item; returns false if there is no next item.
fn take_next<A: Allocator + Clone, R: Source, W: Sink>(
    global: Global,
    follower: &mut Follower<A>,
    reader: &mut R,
    writer: &mut W,
) -> Result<bool, LogFault>
    ensures { TakesNextPair result follower.old follower.new (R.input reader.old) (R.input reader.new)
        (W.output writer.old) (W.output writer.new) }
{
    match kind_from(reader)? {
        None => return Ok(false),
        Some(1) => take_entry(global, follower, reader, writer)?,
        Some(2) => follower.write_standing(global, writer)?,
        Some(kind) => return Err(LogFault::UnknownKind(kind)),
    }
    Ok(true)
}

/// Follows a log, with the records of the machine in memory of `alloc`.
fn follow_in<A: Allocator + Clone, R: Source, W: Sink>(
    global: Global,
    alloc: A,
    reader: &mut R,
    writer: &mut W,
    profile: Profile,
    clients_max: ClientsMax,
) -> Result<u64, LogFault>
    ensures followed { Followed profile clients_max result (R.input reader.old) (R.input reader.new)
        (W.output writer.old) (W.output writer.new) }
    ensures passed { IfOk result (λ _. (W.output writer.new).held ≡ false) }
{
    let mut follower = Follower::new_in(global, alloc, profile, clients_max)?;
    for k in 0..u64::MAX {
        pass_on_before_waiting(reader, writer);
        match take_next(global, &mut follower, reader, writer) {
            Ok(true) => {}
            Ok(false) => {
                let position = follower.position();
                drop(follower);
                writer.pass_on();
                return Ok(position);
            }
            Err(fault) => {
                drop(follower);
                return Err(fault);
            }
        }
    }
    drop(follower);
    Err(LogFault::TooMany)
}

/// Passes on the output if the next item may have to be waited for.
fn pass_on_before_waiting<R: Source, W: Sink>(reader: &R, writer: &mut W)
    ensures { Sent [] (W.output writer.old) (W.output writer.new) }
{
    if !holds_item(reader.at_hand()) {
        writer.pass_on();
    }
}

/// Returns whether bytes begin with a whole item, with the length that an entry's numbers give.
fn holds_item(bytes: &[u8]) -> bool {
    match bytes {
        [2, ..] => true,
        [1, _, _, _, _, _, _, _, _, a, b, c, d, _, _, _, _, rest @ ..] => {
            rest.len() >= u32::from_le_bytes([*a, *b, *c, *d]) as usize
        }
        _ => false,
    }
}

/// Follows a log from its first entry until the input ends, and returns the position of the last entry. Each entry is served as a whole after those
/// before it; each reply is written with the position and its index in the entry; each question is answered by the position and both hashes. On a
/// fault all items before it are answered, and the rest of the log is unread.
pub fn follow<R: Source, W: Sink>(
    alloc: Global,
    profile: Profile,
    clients_max: ClientsMax,
    reader: &mut R,
    writer: &mut W,
) -> Result<u64, LogFault>
    ensures followed { Followed profile clients_max result (R.input reader.old) (R.input reader.new)
        (W.output writer.old) (W.output writer.new) }
    ensures passed { IfOk result (λ _. (W.output writer.new).held ≡ false) }
{
    let pool = Bump::new(alloc);
    let followed = follow_in(alloc, &pool, reader, writer, profile, clients_max);
    drop(pool);
    followed
}
