//! Replies as they are read and written, and their faults. Frames of each kind are tested over `tbs`, by tests/programs.
ghost use Rattle.std.specs.Prelude.{◌≡◌, MatchResult};

use crate::comparing::{holds, holds_at};
use crate::machine::frames::{Line, REPLIES, SEVEN, bytes_of};
use std::alloc::Global;
use std::process::Abort;
use tb_records::{Counting, FrameFault, Reply, read_reply, send_reply, write_reply};

/// Writes a reply and reads it back. Only the contracts are needed to prove that no other one is read: what was written is the reply's own
/// encoding, which has one reading.
fn read_back(alloc: Global, reply: &Reply) -> Result<Reply, FrameFault>
    ensures { MatchResult result (λ read. read ≡ reply.now) (λ fault. fault ≡ FrameFault.NoMemory) }
{
    let mut bytes = Vec::new(alloc);
    write_reply(reply, &mut bytes)?;
    let (read, _) = read_reply(alloc, bytes.as_slice())?;
    Ok(read)
}

/// The reply is written and sent as these bytes.
fn expect_written(rt: &impl Abort, alloc: Global, reply: &Reply, bytes: &[u8]) {
    let mut out = Vec::new(alloc);
    let written = write_reply(reply, &mut out).is_ok();
    holds(rt, written && out.as_slice() == bytes, "written");
    drop(out);
    let mut sink = Counting::new(Vec::new(alloc));
    let sent = send_reply(&mut sink, reply).is_ok();
    let out = sink.into_inner();
    holds(rt, sent && out.as_slice() == bytes, "sent");
    drop(out);
}

/// A reply is read from these lines; a copy of it is read back, written and sent as they are.
fn expect_read(rt: &impl Abort, alloc: Global, parts: &[&[Line]]) {
    let bytes = bytes_of(rt, alloc, parts);
    let (reply, length) = read_reply(alloc, bytes.as_slice()).expect(rt, "a reply");
    let copy = reply.copy(alloc).expect(rt, "memory");
    drop(reply);
    let read = read_back(alloc, &copy).expect(rt, "memory");
    drop(copy);
    expect_written(rt, alloc, &read, bytes.as_slice());
    drop(read);
    holds_at(rt, length == bytes.len(), &length);
    drop(bytes);
}

/// The replies to a register, a creation and a lookup.
#[test]
fn replies_both_ways(rt: HostRuntime) {
    for parts in &REPLIES {
        expect_read(&rt, rt.alloc(), parts);
    }
}

/// A reply by its lines, how many of its bytes are there, and the fault.
const FAULTS: [([Line; 3], usize, FrameFault); 13] = [
    (
        [
            0,
            0x01000000000000000000000002000000,
            0x00000000010000000000000000000000,
        ],
        48,
        FrameFault::ClientZero,
    ),
    (
        [
            SEVEN,
            0x01000000000000000000000003000000,
            0x00000000010000000000000000000000,
        ],
        48,
        FrameFault::UnknownOperation,
    ),
    (
        [
            SEVEN,
            0x01000000000000000000000002080000,
            0x00000000010000000000000000000000,
        ],
        48,
        FrameFault::Reserved,
    ),
    (
        [
            SEVEN,
            0x01000000000000000000000002000100,
            0x00000000010000000000000000000000,
        ],
        48,
        FrameFault::Reserved,
    ),
    (
        [
            SEVEN,
            0x01000000000000000000000002000000,
            0x00000000010000000000000000000001,
        ],
        48,
        FrameFault::Reserved,
    ),
    (
        [
            SEVEN,
            0x01000000000000000100000002000000,
            0x00000000010000000000000000000000,
        ],
        48,
        FrameFault::RegisterNumbers,
    ),
    (
        [
            SEVEN,
            0x01000000000000000000000002010000,
            0x00000000010000000000000000000000,
        ],
        48,
        FrameFault::RegisterNumbers,
    ),
    (
        [
            SEVEN,
            0x01000000000000000000000002000000,
            0x00000000020000000000000000000000,
        ],
        48,
        FrameFault::ReplyNumbers,
    ),
    (
        [
            SEVEN,
            0x01000000000000000000000002000000,
            0x08000000010000000000000000000000,
        ],
        48,
        FrameFault::BadLength,
    ),
    (
        [
            SEVEN,
            0x01000000000000000100000081040000,
            0x00000000020000000000000000000000,
        ],
        48,
        FrameFault::ReplyNumbers,
    ),
    (
        [
            SEVEN,
            0x01000000000000000100000081000000,
            0x00000000010000000000000000000000,
        ],
        48,
        FrameFault::ReplyNumbers,
    ),
    (
        [
            SEVEN,
            0x01000000000000000100000081000000,
            0x04000000020000000000000000000000,
        ],
        48,
        FrameFault::BadLength,
    ),
    (
        [
            SEVEN,
            0x01000000000000000000000002000000,
            0x00000000010000000000000000000000,
        ],
        47,
        FrameFault::Short,
    ),
];

#[test]
fn reply_faults_in_order(rt: HostRuntime) {
    for (lines, length, fault) in &FAULTS {
        let mut bytes = bytes_of(&rt, rt.alloc(), &[lines]);
        bytes.truncate(*length);
        let found = read_reply(rt.alloc(), bytes.as_slice()).err();
        drop(bytes);
        holds_at(&rt, found == Some(*fault), lines);
    }
}
