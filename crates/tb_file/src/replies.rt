//! Replies that are held in memory until the entries that they depend on are durable.
ghost use Rattle.std.specs.Prelude.{◌≡◌, [], Some, length};

use std::alloc::{AllocError, Global};
use std::io;
use tb_records::Sink;

/// A writer into memory. It takes all bytes, or memory runs out.
#[derive(Drop)]
pub(crate) struct Replies {
    pub(crate) bytes: Vec<u8>,
    failures: u64,
    // Says that the last `put` returned an error.
    halted: bool,
    // Says that bytes were put since the last `pass_on`.
    held: bool,
}

impl Replies {
    pub(crate) fn new(alloc: Global) -> Replies
        ensures { result.bytes.items ≡ [] }
    {
        Replies {
            bytes: Vec::new(alloc),
            failures: 0,
            halted: false,
            held: false,
        }
    }

    /// The number of bytes.
    pub(crate) fn len(&self) -> usize
        ensures { result ≡ length self.now.bytes.items }
    {
        self.bytes.len()
    }

    /// All that is held.
    pub(crate) fn bytes(&self) -> &[u8]
        ensures { result.now ≡ self.now.bytes.items }
    {
        &self.bytes
    }

    /// Drops all that is held.
    pub(crate) fn clear(&mut self)
        ensures { self.new.bytes.items ≡ [] }
    {
        self.bytes.clear();
    }
}

impl Sink for Replies {
    ghost output = { λ r.
        record {
          written = Some r.bytes.items;
          failed = r.failures;
          stalled = 0;
          halted = r.halted;
          held = r.held;
        } };

    fn put(&mut self, bytes: &[u8]) -> io::Result<usize> {
        match self.bytes.extend_from_slice(bytes) {
            Ok(()) => {
                self.halted = false;
                if !bytes.is_empty() {
                    self.held = true;
                }
                Ok(bytes.len())
            }
            Err(_) => {
                self.failures = self.failures.saturating_add(1);
                self.halted = true;
                Err(io::Error::from(AllocError))
            }
        }
    }

    fn failures(&self) -> u64 {
        self.failures
    }

    fn pass_on(&mut self) {
        self.held = false;
    }
}
