//! How long replies are, and that their numbers fit.
ghost use Rattle.std.specs.Prelude.{◌≡◌, false, length, None};
ghost use Rattle.tb_records.specs.ReplyFrames.{reply_bytes, IsReply};
ghost use Rattle.tb_sessions.specs.Judged.{row_of};
ghost use Rattle.tb_embed.specs.private.Filling.{length_by, FitsBy};

use std::alloc::Global;
use std::io;
use tb_machine::Machine;
use tb_records::{Reply, ReplyBody, Sink, send_reply};
use tb_sessions::Class;

/// Takes the bytes of a reply, all of them, and stores none of them.
#[derive(Drop)]
struct Taker {
    held: bool,
}

impl Sink for Taker {
    ghost output = { λ t.
        record {
          written = None;
          failed = 0;
          stalled = 0;
          halted = false;
          held = t.held;
        } };

    fn put(&mut self, bytes: &[u8]) -> io::Result<usize> {
        if !bytes.is_empty() {
            self.held = true;
        }
        Ok(bytes.len())
    }

    fn failures(&self) -> u64 {
        0
    }

    fn pass_on(&mut self) {
        self.held = false;
    }
}

/// Goes through a reply, whose numbers fit the fields of a frame.
fn go_through(reply: &Reply)
    ensures { IsReply reply.now }
{
    let mut taker = Taker { held: false };
    match send_reply(&mut taker, reply) {
        Ok(()) => {}
        Err(_) => unreachable!(),
    }
}

/// The number of bytes of a reply's frame, whose numbers fit.
pub(crate) fn frame_length(reply: &Reply) -> usize
    ensures length { result ≡ length (reply_bytes reply.now) }
    ensures fits { IsReply reply.now }
{
    go_through(reply);
    match reply.body() {
        ReplyBody::Empty => 48,
        ReplyBody::Results(results) => 48 + 8 * results.len(),
        ReplyBody::Accounts(accounts) => 48 + 128 * accounts.len(),
        ReplyBody::Transfers(transfers) => 48 + 128 * transfers.len(),
    }
}

/// The number of bytes of the reply to a client's request of a class, after it was served.
pub(crate) fn reply_length(machine: &Machine<Global>, class: Class, client: u128) -> usize
    ensures length { result ≡ length_by class (row_of machine.now.rows client) }
    ensures fits { FitsBy class (row_of machine.now.rows client) }
{
    match (class, machine.reply_of(client)) {
        (Class::New | Class::Repeat, Some(reply)) => frame_length(reply),
        _ => 48,
    }
}
