//! Scripts by the bytes that the formats give, and what serves them.
ghost use Rattle.tb_file_journal.specs.Memory.{memory_disk};
ghost use Rattle.tb_file.specs.Keeping.{IsFresh, IsUsable};

use crate::steps::{copy_of, expect, file_of, rules, sure};
use std::alloc::{Allocator, Global};
use std::process::Abort;
use tb_file::{Keeper, create, keep};
use tb_file_journal::Memory;
use tb_records::Counting;

/// Bytes as they are written in hex, 16 a line.
type Line = u128;

/// Client 7.
const CLIENT: Line = 0x07000000000000000000000000000000;

/// The end of an account or a transfer: ledger 700, code 10.
const END: Line = 0xbc0200000a0000000000000000000000;

/// A moment of 10 nanoseconds.
const TEN: [u8; 8] = [10, 0, 0, 0, 0, 0, 0, 0];

/// The number of the script's requests.
pub const COUNT: usize = SCRIPT.len();

/// The requests of the script, each with the moment 10: a register, accounts 1 and 2, 128 moved from 1 to 2 as transfer 11,
/// the same request again, the request before it, and a lookup of account 2.
const SCRIPT: [&[Line]; 6] = [
    &[CLIENT, 0x00000000000000000000000002000000, 0],
    &[
        CLIENT,
        0x01000000000000000100000081000000,
        0x00010000000000000000000000000000,
        1 << 120,
        0,
        0,
        0,
        0,
        0,
        0,
        END,
        2 << 120,
        0,
        0,
        0,
        0,
        0,
        0,
        END,
    ],
    &TRANSFER,
    &TRANSFER,
    &[
        CLIENT,
        0x01000000000000000100000083000000,
        0x10000000000000000000000000000000,
        1 << 120,
    ],
    &[
        CLIENT,
        0x01000000000000000300000083000000,
        0x10000000000000000000000000000000,
        2 << 120,
    ],
];

/// Request 2: 128 moved from account 1 to account 2 as transfer 11.
const TRANSFER: [Line; 11] = [
    CLIENT,
    0x01000000000000000200000082000000,
    0x80000000000000000000000000000000,
    11 << 120,
    1 << 120,
    2 << 120,
    128 << 120,
    0,
    0,
    0,
    END,
];

/// Appends a moment and the lines of a frame.
fn put_pair(rt: &impl Abort, out: &mut Vec<u8>, lines: &[Line]) {
    sure(rt, out.extend_from_slice(&TEN));
    for line in lines {
        sure(rt, out.extend_from_slice(&line.to_be_bytes()));
    }
}

/// The pairs of the script from `first` to before `end`.
pub fn script(rt: &impl Abort, alloc: Global, first: usize, end: usize) -> Vec<u8> {
    let mut bytes = Vec::new(alloc);
    for lines in SCRIPT.get(first..end).unwrap_or_default() {
        put_pair(rt, &mut bytes, lines);
    }
    bytes
}

/// The bytes of a keeper's file. The keeper is freed.
pub fn bytes_of<A: Allocator + Clone>(
    rt: &impl Abort,
    alloc: Global,
    keeper: Keeper<Memory, A>,
) -> Vec<u8> {
    let bytes = copy_of(rt, alloc, keeper.journal().device().bytes());
    drop(keeper);
    bytes
}

/// The replies that serving a script over a keeper gives, and the bytes of the file then. The keeper is freed.
pub fn served<A: Allocator + Clone>(
    rt: &impl Abort,
    alloc: Global,
    keeper: Keeper<Memory, A>,
    script: &[u8],
) -> (Vec<u8>, Vec<u8>)
    requires fresh { IsFresh memory_disk keeper }
    requires usable { IsUsable keeper }
{
    let mut keeper = keeper;
    let mut reader = Counting::new(script);
    let mut writer = Counting::new(Vec::new(alloc));
    let result = keep(alloc, &mut keeper, &mut reader, &mut writer);
    expect(rt, result.is_ok());
    (writer.into_inner(), bytes_of(rt, alloc, keeper))
}

/// The same over a new file, of the first `count` pairs of the script.
pub fn kept(rt: &impl Abort, alloc: Global, count: usize) -> (Vec<u8>, Vec<u8>) {
    let keeper = sure(rt, create(alloc, alloc, file_of(rt, alloc, &[]), rules(rt)));
    let script = script(rt, alloc, 0, count);
    let kept = served(rt, alloc, keeper, &script);
    drop(script);
    kept
}

/// The bytes of that file.
pub fn kept_bytes(rt: &impl Abort, alloc: Global, count: usize) -> Vec<u8> {
    let (told, bytes) = kept(rt, alloc, count);
    drop(told);
    bytes
}
