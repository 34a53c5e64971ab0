//! Frames of requests and replies, one after another, and a line for each. tests/programs/test_damaged_frames.py gives damaged ones.
//!
//! Each frame comes after its kind (1 a request, 2 a reply) and the number of its bytes (u32, lowest byte first). The line
//! is the number of the frame's fault; 0 if the bytes begin with a frame that is written again as it was; 255 if it is
//! written otherwise, or the kind is another.
use crate::troubles::Trouble;
use std::alloc::{AllocError, Global};
use std::io::Write;
use tb_records::{FrameFault, read_reply, read_request, write_reply, write_request};

/// The line of a frame that is read, and written otherwise.
const OTHERWISE: u8 = 255;

/// 0 if the bytes begin with what was written, otherwise `OTHERWISE`.
fn compared(bytes: &[u8], length: usize, written: &[u8]) -> u8 {
    if bytes.get(..length) == Some(written) {
        0
    } else {
        OTHERWISE
    }
}

/// The line of a frame that is read: what the comparison says, if there was memory for what was written.
fn answer_of(wrote: Result<(), AllocError>, answer: u8) -> u8 {
    match wrote {
        Ok(()) => answer,
        Err(AllocError) => FrameFault::NoMemory.number(),
    }
}

/// Reads a request's frame, and writes it again.
fn judge_request(alloc: Global, bytes: &[u8]) -> u8 {
    match read_request(alloc, bytes) {
        Ok((request, length)) => {
            let mut written = Vec::new(alloc);
            let wrote = write_request(&request, &mut written);
            let answer = compared(bytes, length, written.as_slice());
            drop(written);
            drop(request);
            answer_of(wrote, answer)
        }
        Err(fault) => fault.number(),
    }
}

/// Reads a reply's frame, and writes it again.
fn judge_reply(alloc: Global, bytes: &[u8]) -> u8 {
    match read_reply(alloc, bytes) {
        Ok((reply, length)) => {
            let mut written = Vec::new(alloc);
            let wrote = write_reply(&reply, &mut written);
            let answer = compared(bytes, length, written.as_slice());
            drop(written);
            drop(reply);
            answer_of(wrote, answer)
        }
        Err(fault) => fault.number(),
    }
}

/// The line of a frame.
fn judge(alloc: Global, kind: u8, bytes: &[u8]) -> u8 {
    match kind {
        1 => judge_request(alloc, bytes),
        2 => judge_reply(alloc, bytes),
        _ => OTHERWISE,
    }
}

/// The kind and the bytes of the next frame, and what is after them.
fn next_frame(input: &[u8]) -> Option<(u8, &[u8], &[u8])> {
    let (head, rest) = input.split_at_checked(5)?;
    let [kind, a, b, c, d] = *head else {
        return None;
    };
    let length = u32::from_le_bytes([a, b, c, d]) as usize;
    let (frame, left) = rest.split_at_checked(length)?;
    Some((kind, frame, left))
}

/// Appends a line for each frame.
pub fn read_all(alloc: Global, input: &[u8], out: &mut Vec<u8>) -> Result<(), Trouble> {
    let mut rest = input;
    for _ in 0..=input.len() {
        let Some((kind, frame, left)) = next_frame(rest) else {
            break;
        };
        let answer = judge(alloc, kind, frame);
        writeln!(out, "{answer}")?;
        rest = left;
    }
    Ok(())
}
