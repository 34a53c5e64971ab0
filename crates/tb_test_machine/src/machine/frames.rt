//! The frames of three requests and their replies in hex.
use crate::comparing::holds;
use crate::machine::scripts::put_bytes;
use crate::machine::steps::{BEGIN, THIRD, script_of};
use std::alloc::Global;
use std::process::Abort;

/// Bytes as they are written in hex, 16 a line.
pub type Line = u128;

/// An account's last 16 bytes before it has a timestamp.
const NEW: Line = 0xbc0200000a0000000000000000000000;

/// An account's balances and user data, all zero.
const ZEROS: [Line; 6] = [0; 6];

/// The first 16 bytes of account 1 and of account 2, and of each frame of client 7.
const ONE: Line = 0x01000000000000000000000000000000;

const TWO: Line = 0x02000000000000000000000000000000;

pub const SEVEN: Line = 0x07000000000000000000000000000000;

/// The frames of the three requests: a register, two accounts, a lookup.
pub const REQUESTS: [&[&[Line]]; 3] = [
    &[&[SEVEN, 0x00000000000000000000000002000000, 0]],
    &[
        &[SEVEN, 0x01000000000000000100000081000000],
        &[0x00010000000000000000000000000000, ONE],
        &ZEROS,
        &[NEW],
        &[TWO],
        &ZEROS,
        &[NEW],
    ],
    &[
        &[SEVEN, 0x01000000000000000200000083000000],
        &[0x30000000000000000000000000000000, TWO],
        &[0x09000000000000000000000000000000, ONE],
    ],
];

/// The frames of the three replies.
pub const REPLIES: [&[&[Line]]; 3] = [
    &[
        &[SEVEN, 0x01000000000000000000000002000000],
        &[0x00000000010000000000000000000000],
    ],
    &[
        &[SEVEN, 0x01000000000000000100000081000000],
        &[0x00000000020000000000000000000000],
    ],
    &[
        &[SEVEN, 0x01000000000000000200000083000000],
        &[0x00010000030000000000000000000000],
        &[TWO],
        &ZEROS,
        &[0xbc0200000a0000000c00000000000000],
        &[ONE],
        &ZEROS,
        &[0xbc0200000a0000000b00000000000000],
    ],
];

/// Appends lines of 16 bytes.
pub fn put_lines(rt: &impl Abort, out: &mut Vec<u8>, lines: &[Line]) {
    for line in lines {
        put_bytes(rt, out, &line.to_be_bytes());
    }
}

/// Appends the lines of a frame's parts.
pub fn put_parts(rt: &impl Abort, out: &mut Vec<u8>, parts: &[&[Line]]) {
    for lines in parts {
        put_lines(rt, out, lines);
    }
}

/// The bytes of a frame's parts.
pub fn bytes_of(rt: &impl Abort, alloc: Global, parts: &[&[Line]]) -> Vec<u8> {
    let mut bytes = Vec::new(alloc);
    put_parts(rt, &mut bytes, parts);
    bytes
}

/// The frames that are put together here are those in hex. Each request is after the moment 10.
#[test]
fn frames_in_hex(rt: HostRuntime) {
    let script = script_of(&rt, rt.alloc(), &[&BEGIN, &THIRD]);
    let mut requests = Vec::new(rt.alloc());
    for parts in &REQUESTS {
        put_bytes(&rt, &mut requests, &10u64.to_le_bytes());
        put_parts(&rt, &mut requests, parts);
    }
    let mut replies = Vec::new(rt.alloc());
    for parts in &REPLIES {
        put_parts(&rt, &mut replies, parts);
    }
    let same = script.bytes.as_slice() == requests.as_slice();
    holds(&rt, same, "requests");
    let same = script.replies.as_slice() == replies.as_slice();
    holds(&rt, same, "replies");
    drop(replies);
    drop(requests);
    drop(script);
}
