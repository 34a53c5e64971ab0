//! Writers that say at their end whether all that was put was sent.
ghost use Rattle.std.specs.Prelude.{◌≡◌, [], IfOk, MatchResult};
ghost use Rattle.std.specs.Io.Buffered.{writer_buffer, writer_contents};
ghost use Rattle.tb_edge_file.specs.Outlets.{SendsHeld, outgoing, took, failed};

use std::io::{self, BufWriter, Write};
use std::marker::Model;
use tb_records::{FrameFault, Sink};

/// A writer that says at its end whether all that was put was sent.
pub trait Outlet: Sink {
    /// Nothing of what was put is held back.
    ghost gone: { Self → Type 0 };

    /// Sends what is held back. Device if that fails.
    fn finish(&mut self) -> Result<(), FrameFault>
        ensures sent { SendsHeld result (Self.output self.old) (Self.output self.new) }
        ensures gone { IfOk result (λ _. gone self.new) };
}

/// A std writer behind a buffer, with a count of its errors.
#[derive(Drop)]
pub struct Outgoing<W: Write + Drop> {
    inner: BufWriter<W>,
    failures: u64,
    // How often none of the bytes that were put were taken.
    stalls: u64,
    // Says that the last call failed, or took nothing.
    halted: bool,
    // Says that bytes were taken since the last time that they were passed on.
    held: bool,
}

impl<W: Write + Drop> Model for Outgoing<W> {
    ghost use Rattle.tb_edge_file.specs.Outlets.{Watched};
    ghost use Rattle.std.specs.declared.io.buffered.BufWriter.{BufWriter};
    ghost use Rattle.std.specs.declared.alloc.Global.{Global};

    ghost Value = { Watched (BufWriter W Global) };

    ghost view = { λ s.
        record {
          inner = s.inner;
          failures = s.failures;
          stalls = s.stalls;
          halted = s.halted;
          held = s.held;
        } };
}

impl<W: Write + Drop> Outgoing<W> {
    /// The writer behind its buffer, of which nothing was counted yet.
    pub fn new(inner: BufWriter<W>) -> Outgoing<W>
        ensures { result ≡ outgoing inner }
    {
        Outgoing {
            inner,
            failures: 0,
            stalls: 0,
            halted: false,
            held: false,
        }
    }

    /// Counts a result that is no error.
    fn take(&mut self, count: usize, offered: usize)
        ensures { self.new ≡ took count offered self.old }
    {
        self.halted = count == 0 && offered != 0;
        if self.halted {
            self.stalls = self.stalls.saturating_add(1);
        }
        self.held = self.held || count != 0;
    }

    /// Counts an error.
    fn fail(&mut self)
        ensures { self.new ≡ failed self.old }
    {
        self.halted = true;
        self.failures = self.failures.saturating_add(1);
    }
}

impl<W: Write + Drop> Sink for Outgoing<W> {
    ghost output = { λ s.
        record {
          written = writer_contents W.contents s.inner;
          failed = s.failures;
          stalled = s.stalls;
          halted = s.halted;
          held = s.held;
        } };

    fn put(&mut self, bytes: &[u8]) -> io::Result<usize> {
        match self.inner.write(bytes) {
            Ok(count) => {
                self.take(count, bytes.len());
                Ok(count)
            }
            Err(error) => {
                self.fail();
                Err(error)
            }
        }
    }

    fn failures(&self) -> u64 {
        self.failures
    }

    fn pass_on(&mut self) {
        let _ = self.inner.flush();
        self.held = false;
    }
}

impl<W: Write + Drop> Outlet for Outgoing<W> {
    ghost gone = { λ s. writer_buffer s.inner ≡ [] };

    fn finish(&mut self) -> Result<(), FrameFault> {
        if self.inner.flush().is_err() {
            self.fail();
            return Err(FrameFault::Device);
        }
        self.held = false;
        Ok(())
    }
}
