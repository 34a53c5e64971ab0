//! A reader or a writer whose calls are repeated if a signal interrupts them.
ghost use Rattle.std.specs.Prelude.{take, IfOk, OnErr};
ghost use Rattle.std.specs.Io.{ReadsAtMost, WritesAtMost};
ghost use Rattle.std.specs.Io.KnownBytes.{Appends, Keeps, ReadConsumes};

use std::io::{self, ErrorKind, Read, Write};

/// A reader or a writer whose calls are repeated if a signal interrupts them: a call that it interrupted has read and written nothing.
#[derive(Drop)]
pub struct Steady<T> {
    inner: T,
}

impl<T: Drop> Steady<T> {
    /// The reader or writer, of which no call was made yet.
    pub fn new(inner: T) -> Steady<T> {
        Steady { inner }
    }
}

/// Reads some bytes, and repeats the call as long as a signal interrupts it.
#[tactic(auto, using(crate::proofs::ReadAfter::read_after))]
fn read_again<R: Read>(reader: &mut R, buf: &mut [u8]) -> io::Result<usize>
    ensures bound { ReadsAtMost result buf.new }
    ensures bytes { ReadConsumes (R.remaining reader.old) (R.remaining reader.new) result buf.new }
{
    for _ in 0..u64::MAX {
        match reader.read(buf) {
            Ok(read) => return Ok(read),
            Err(error) => match error.kind() {
                ErrorKind::Interrupted => {}
                _ => return Err(error),
            },
        }
    }
    Err(io::Error::from(ErrorKind::Interrupted))
}

/// Writes some bytes, and repeats the call as long as a signal interrupts it.
fn write_again<W: Write>(writer: &mut W, bytes: &[u8]) -> io::Result<usize>
    ensures bound { WritesAtMost result bytes.now }
    ensures ok { IfOk result (λ n. Appends (W.contents writer.old) (W.contents writer.new) (take n bytes.now)) }
    ensures err { OnErr result (Keeps (W.contents writer.old) (W.contents writer.new)) }
{
    for _ in 0..u64::MAX {
        match writer.write(bytes) {
            Ok(count) => return Ok(count),
            Err(error) => match error.kind() {
                ErrorKind::Interrupted => {}
                _ => return Err(error),
            },
        }
    }
    Err(io::Error::from(ErrorKind::Interrupted))
}

/// Flushes, and repeats the call as long as a signal interrupts it.
fn flush_again<W: Write>(writer: &mut W) -> io::Result<()>
    ensures bytes { Keeps (W.contents writer.old) (W.contents writer.new) }
{
    for _ in 0..u64::MAX {
        match writer.flush() {
            Ok(()) => return Ok(()),
            Err(error) => match error.kind() {
                ErrorKind::Interrupted => {}
                _ => return Err(error),
            },
        }
    }
    Err(io::Error::from(ErrorKind::Interrupted))
}

impl<R: Read + Drop> Read for Steady<R> {
    ghost remaining = { λ steady. R.remaining steady.inner };

    fn read(&mut self, buf: &mut [u8]) -> io::Result<usize> {
        read_again(&mut self.inner, buf)
    }
}

impl<W: Write + Drop> Write for Steady<W> {
    ghost contents = { λ steady. W.contents steady.inner };

    fn write(&mut self, bytes: &[u8]) -> io::Result<usize> {
        write_again(&mut self.inner, bytes)
    }

    fn flush(&mut self) -> io::Result<()> {
        flush_again(&mut self.inner)
    }
}
