//! Requests as they are read and written, their faults, and a stream that stays at its fault. Frames of each kind are tested over `tbs`, by
//! tests/programs.
use crate::comparing::{holds, holds_at};
use crate::machine::frames::{Line, REQUESTS, SEVEN, bytes_of, put_lines, put_parts};
use crate::machine::scripts::put_bytes;
use std::alloc::Global;
use std::process::Abort;
use tb_records::{Counting, FrameFault, Request, RequestStream, read_request, write_request};

/// The request is written as these lines.
fn expect_written(rt: &impl Abort, alloc: Global, request: Request, parts: &[&[Line]]) {
    let mut out = Vec::new(alloc);
    let written = write_request(&request, &mut out).is_ok();
    drop(request);
    let wanted = bytes_of(rt, alloc, parts);
    let same = out.as_slice() == wanted.as_slice();
    drop(wanted);
    drop(out);
    holds(rt, written && same, "a request");
}

/// A request is read from these lines, and a copy that shares its body is written as they are.
fn expect_read(rt: &impl Abort, alloc: Global, parts: &[&[Line]]) {
    let bytes = bytes_of(rt, alloc, parts);
    let (mut request, length) = read_request(alloc, bytes.as_slice()).expect(rt, "a request");
    request.share(alloc).expect(rt, "memory");
    let copy = request.copy(alloc).expect(rt, "memory");
    drop(request);
    expect_written(rt, alloc, copy, parts);
    holds_at(rt, length == bytes.len(), &length);
    drop(bytes);
}

/// A register, a creation and a lookup.
#[test]
fn requests_are_read(rt: HostRuntime) {
    for parts in &REQUESTS {
        expect_read(&rt, rt.alloc(), parts);
    }
}

/// A register, and a creation and a lookup, each after the moment 10.
#[test]
fn streams_are_read(rt: HostRuntime) {
    let alloc = rt.alloc();
    let [register, creation, lookup] = REQUESTS;
    let mut bytes = bytes_of(&rt, alloc, register);
    for parts in [creation, lookup] {
        put_bytes(&rt, &mut bytes, &10u64.to_le_bytes());
        put_parts(&rt, &mut bytes, parts);
    }
    let mut stream = RequestStream::new(Counting::new(bytes.as_slice()));
    let first = stream.next_request(alloc).expect(&rt, "no fault");
    expect_written(&rt, alloc, first.expect(&rt, "a request"), register);
    for parts in [creation, lookup] {
        let next = stream.next_timed(alloc).expect(&rt, "no fault");
        let (moment, request) = next.expect(&rt, "a pair");
        expect_written(&rt, alloc, request, parts);
        holds_at(&rt, moment == 10, &moment);
    }
    let end = stream.next_timed(alloc);
    holds(&rt, matches!(end, Ok(None)), "the end");
}

/// A header by its lines, how many of its bytes are there, and the fault.
const FAULTS: [([Line; 3], usize, FrameFault); 13] = [
    (
        [0, 0x00000000000000000000000002000000, 0],
        48,
        FrameFault::ClientZero,
    ),
    (
        [SEVEN, 0x00000000000000000000000003000000, 0],
        48,
        FrameFault::UnknownOperation,
    ),
    (
        [0, 0x00000000000000000000000003000000, 0],
        48,
        FrameFault::ClientZero,
    ),
    (
        [SEVEN, 0x00000000000000000000000003010000, 0],
        48,
        FrameFault::UnknownOperation,
    ),
    (
        [SEVEN, 0x00000000000000000000000002010000, 0],
        48,
        FrameFault::Reserved,
    ),
    (
        [SEVEN, 0x00000000000000000000000002000000, 1],
        48,
        FrameFault::Reserved,
    ),
    (
        [SEVEN, 0x01000000000000000000000002000000, 0],
        48,
        FrameFault::RegisterNumbers,
    ),
    (
        [
            SEVEN,
            0x00000000000000000000000002000000,
            0x01000000000000000000000000000000,
        ],
        48,
        FrameFault::BadLength,
    ),
    (
        [
            SEVEN,
            0x01000000000000000000000081000000,
            0x00010000000000000000000000000000,
        ],
        48,
        FrameFault::RequestZero,
    ),
    (
        [
            SEVEN,
            0x01000000000000000100000081000000,
            0xff000000000000000000000000000000,
        ],
        48,
        FrameFault::BadLength,
    ),
    (
        [
            SEVEN,
            0x01000000000000000100000081000000,
            0x80ff0f00000000000000000000000000,
        ],
        48,
        FrameFault::TooMany,
    ),
    (
        [
            SEVEN,
            0x01000000000000000100000081000000,
            0x80010000000000000000000000000000,
        ],
        48,
        FrameFault::Short,
    ),
    (
        [SEVEN, 0x00000000000000000000000002000000, 0],
        47,
        FrameFault::Short,
    ),
];

#[test]
fn request_faults_in_order(rt: HostRuntime) {
    for (lines, length, fault) in &FAULTS {
        let mut bytes = bytes_of(&rt, rt.alloc(), &[lines]);
        bytes.truncate(*length);
        let found = read_request(rt.alloc(), bytes.as_slice()).err();
        drop(bytes);
        holds_at(&rt, found == Some(*fault), lines);
    }
}

/// The header of a creation, with a reserved byte that is not 0.
const RESERVED: [Line; 3] = [
    SEVEN,
    0x01000000000000000100000081010000,
    0x00010000000000000000000000000000,
];

/// After such a creation a register follows, of which nothing is read.
#[test]
fn stream_stays_at_its_fault(rt: HostRuntime) {
    let mut bytes = bytes_of(&rt, rt.alloc(), &[&RESERVED]);
    put_lines(&rt, &mut bytes, &[0; 16]);
    put_parts(&rt, &mut bytes, REQUESTS[0]);
    let mut stream = RequestStream::new(Counting::new(bytes.as_slice()));
    for call in 1..3 {
        let fault = stream.next_request(rt.alloc()).err();
        holds_at(&rt, fault == Some(FrameFault::Reserved), &call);
    }
    let unread = stream.into_source().into_inner().len();
    holds_at(&rt, unread == 304, &unread);
    drop(bytes);
}
