//! The serving of one request: its frame is read, and its reply written into the caller's room.
ghost use Rattle.std.specs.Prelude.{◌≡◌};
ghost use Rattle.tb_embed.specs.Calls.{standing, AnswersCall, AnswersFrame, ServesFrame};
ghost use Rattle.tb_embed.specs.private.Filling.{FillsRoom};

use crate::outcomes::Outcome;
use crate::replies::reply_length;
use crate::rooms::Room;
use crate::servers::TbServer;
use std::alloc::Global;
use tb_machine::{Machine, RunFault, serve_pair};
use tb_records::{FrameFault, Request, read_request};

/// Serves a request, and writes as much of its reply as there is room for. Returns the number of bytes written; if the room
/// is too small, it is full.
fn fill(
    machine: &mut Machine<Global>,
    moment: u64,
    request: Request,
    reply: &mut [u8],
) -> Result<usize, RunFault>
    ensures { FillsRoom result machine.old machine.new (moment, request) reply.new }
{
    let mut room = Room::over(reply);
    serve_pair(machine, &mut room, moment, request)?;
    Ok(room.at())
}

/// Serves a request.
fn serve_request(
    machine: &mut Machine<Global>,
    moment: u64,
    request: Request,
    reply: &mut [u8],
) -> Outcome
    ensures { AnswersCall result machine.old machine.new (moment, request) reply.new }
{
    let _lawful = request.body();
    let client = request.client();
    let _session = request.session();
    let _number = request.request();
    let class = machine.class(&request);
    match fill(machine, moment, request, reply) {
        Ok(length) => Outcome::Done(length),
        Err(RunFault::TimeExhausted) => Outcome::TimeExhausted,
        Err(RunFault::Frame(_fault)) => {
            let length = reply_length(machine, class, client);
            if length <= reply.len() {
                Outcome::Done(length)
            } else {
                Outcome::TooSmall(length)
            }
        },
        Err(_) => Outcome::NoMemory,
    }
}

/// Serves the request of a frame.
fn serve_frame(
    alloc: Global,
    machine: &mut Machine<Global>,
    moment: u64,
    frame: &[u8],
    reply: &mut [u8],
) -> Outcome
    ensures { AnswersFrame result machine.old machine.new moment frame.now reply.new }
{
    match read_request(alloc, frame) {
        Ok((request, length)) => {
            if length == frame.len() {
                serve_request(machine, moment, request, reply)
            } else {
                drop(request);
                Outcome::Malformed
            }
        }
        Err(FrameFault::NoMemory) => Outcome::Unread,
        Err(_) => Outcome::Malformed,
    }
}

/// Serves the request of a frame by the server of a handle.
pub(crate) fn serve(
    alloc: Global,
    server: &mut TbServer,
    moment: u64,
    frame: &[u8],
    reply: &mut [u8],
) -> Outcome
    ensures { ServesFrame (standing server.old) (standing server.new) moment frame.now reply.new result }
{
    let Some(mut held) = server.take(alloc) else {
        return Outcome::Closed
    };
    let outcome = serve_frame(alloc, &mut held.machine, moment, frame, reply);
    server.put(held);
    outcome
}
