//! A room of the caller for the bytes of a reply.
ghost use Rattle.std.specs.Prelude.{◌≡◌, ◌≤◌, true, length};
ghost use Rattle.tb_embed.specs.private.Filling.{room_output};

use std::io;
use tb_records::Sink;

/// A room that is filled from its start. It takes what it has room for, and never fails.
#[derive(Drop)]
pub(crate) struct Room<'a> {
    bytes: &'a mut [u8],
    at: usize,
    // How often bytes were offered and none of them was taken.
    stalls: u64,
    // Says that none of the bytes offered last was taken.
    halted: bool,
    // Says that bytes were taken since the last time that they were passed on.
    held: bool,
    ghost within: { at ≤ length bytes.now },
    ghost full: { halted ≡ true → at ≡ length bytes.now },
}

impl<'a> Room<'a> {
    /// The whole room, with nothing written yet.
    pub(crate) fn over(bytes: &'a mut [u8]) -> Room<'a>
        ensures same { result.bytes.ghost_name ≡ bytes.entry.ghost_name }
        ensures empty { result.at ≡ 0 }
    {
        Room {
            bytes,
            at: 0,
            stalls: 0,
            halted: false,
            held: false,
        }
    }

    /// How many bytes were written.
    pub(crate) fn at(&self) -> usize
        ensures { result ≡ self.now.at }
    {
        self.at
    }
}

// What was written begins with the name of the caller's reference, so that a room after writing is known as the room before.
impl Sink for Room<'_> {
    ghost output = { λ r. room_output r.bytes.ghost_name r.at r.bytes.now r.stalls r.halted r.held };

    fn put(&mut self, bytes: &[u8]) -> io::Result<usize> {
        let count = bytes.len().min(self.bytes.len() - self.at);
        self.bytes[self.at..self.at + count].copy_from_slice(&bytes[..count]);
        self.halted = count == 0 && !bytes.is_empty();
        if self.halted {
            self.stalls = self.stalls.saturating_add(1);
        }
        self.at += count;
        if count > 0 {
            self.held = true;
        }
        Ok(count)
    }

    fn failures(&self) -> u64 {
        0
    }

    fn pass_on(&mut self) {
        self.held = false;
    }
}
