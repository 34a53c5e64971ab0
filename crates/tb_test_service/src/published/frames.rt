//! Reply frames as they are printed in hexadecimal, 16 bytes in each number.
use std::alloc::Global;
use std::process::Abort;
use tb_published::{Naming, Seat};
use tb_records::{Request, write_reply};

/// The 48 bytes before a reply's body.
pub(crate) type Header = [u128; 3];

/// Accounts 2 and 1 of ledger 700 and code 10, with times 12 and 11; nothing was transferred yet.
const ACCOUNTS: [&[u128]; 6] = [
    &[0x02000000_00000000_00000000_00000000],
    &ZEROS,
    &[0xbc020000_0a000000_0c000000_00000000],
    &[0x01000000_00000000_00000000_00000000],
    &ZEROS,
    &[0xbc020000_0a000000_0b000000_00000000],
];

/// An account's balances and user data, all zero.
const ZEROS: [u128; 6] = [0; 6];

fn put_lines(rt: &impl Abort, bytes: &mut Vec<u8>, lines: &[u128]) {
    for line in lines {
        let line = line.to_be_bytes();
        bytes.extend_from_slice(&line).expect(rt, "memory");
    }
}

/// A reply's frame: its header, and the two accounts if it found them.
pub(crate) fn frame(rt: &impl Abort, alloc: Global, header: Header, found: bool) -> Vec<u8> {
    let mut bytes = Vec::new(alloc);
    put_lines(rt, &mut bytes, &header);
    if found {
        for lines in ACCOUNTS {
            put_lines(rt, &mut bytes, lines);
        }
    }
    bytes
}

/// The frame of a seat's answer to a request.
pub(crate) fn answered<J: Naming>(
    rt: &impl Abort,
    alloc: Global,
    seat: &mut Seat<J>,
    request: &Request,
) -> Vec<u8> {
    let reply = seat.answer(request).expect(rt, "a reply");
    let mut bytes = Vec::new(alloc);
    write_reply(&reply, &mut bytes).expect(rt, "memory");
    drop(reply);
    bytes
}
