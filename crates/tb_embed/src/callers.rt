//! The calls over a client's session that C makes: its numbers and the frame of its request are the caller's to keep, and to store.
ghost use Rattle.tb_embed.specs.Callers.{CallsFrame, Checks, Receives, ReportsStep, ReportsHeard};

use crate::calling::{call, check, receive};
use crate::steps::{Step, TbCaller, heard_code};
use std::alloc::Global;

/// Makes the next request, the register first, and writes its frame, which the caller keeps, and stores before it is sent.
/// The request's body is that of the frame `request`, whose client, session and number are ignored. Statuses: 0 made, and
/// `written` is the length of its frame; 1 to 5 no request is made, as the session's phase says; 6 no frame of a request, or
/// bytes after it, or the client's id is 0; 7 the room is too small, and `written` is how many bytes it needs; 8 no memory;
/// 9 wrong numbers; 13 no such phase.
#[unsafe(no_mangle)]
pub extern "C" fn tb_caller_call(
    alloc: Global,
    caller: &mut TbCaller,
    request: &[u8],
    frame: &mut [u8],
    written: &mut usize,
) -> u32
    ensures { ReportsStep result written.new
        (λ step. CallsFrame step caller.old caller.new request.now frame.new) }
{
    let step = call(alloc, caller, request, frame);
    *written = step.length();
    step.status()
}

/// Takes the reply that the bytes begin with, if `frame` is that of the request that waits. Reports what the reply is for
/// this request, and the length of its frame. Statuses: 0 taken; 6 the bytes begin with no frame of a reply; 8 no memory; 9
/// to 13 the numbers and the frame are not of one client.
#[unsafe(no_mangle)]
pub extern "C" fn tb_caller_received(
    alloc: Global,
    caller: &mut TbCaller,
    frame: &[u8],
    reply: &[u8],
    heard: &mut u32,
    read: &mut usize,
) -> u32
    ensures { ReportsHeard result read.new heard.new
        (λ outcome. Receives outcome caller.old caller.new frame.now reply.now) }
{
    let (step, number) = match receive(alloc, caller, frame, reply) {
        Ok((taken, length)) => (Step::Done(length), heard_code(taken)),
        Err(step) => (step, 3),
    };
    *heard = number;
    *read = step.length();
    step.status()
}

/// Says whether numbers and a frame that were stored are those of a client. Statuses: 0 they are, 8 no memory, 9 to 13 they are not.
#[unsafe(no_mangle)]
pub extern "C" fn tb_caller_check(alloc: Global, caller: &TbCaller, frame: &[u8]) -> u32
    ensures { ReportsStep result 0 (λ step. Checks step caller.now frame.now) }
{
    check(alloc, caller, frame).status()
}
