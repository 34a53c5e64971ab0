//! Answers leave before more is waited for: a reader that fails if it is asked for more while an answer is held back, and
//! the writer that holds it.
use std::alloc::Global;
use std::cell::Cell;
use std::io::{self, Error, ErrorKind, Read, Write};

/// The end of a part of the input, and how many bytes answer all up to there.
pub type Turn = (usize, usize);

/// A reader whose bytes come in pieces. It fails if fewer or more bytes are passed on than answer what came so far.
#[derive(Drop)]
pub struct Waiting<'a> {
    rest: &'a [u8],
    piece: usize,
    given: usize,
    turns: &'a [Turn],
    passed: &'a Cell<usize>,
}

impl<'a> Waiting<'a> {
    /// None of these bytes has come yet.
    pub fn new(
        rest: &'a [u8],
        piece: usize,
        turns: &'a [Turn],
        passed: &'a Cell<usize>,
    ) -> Waiting<'a> {
        Waiting {
            rest,
            piece,
            given: 0,
            turns,
            passed,
        }
    }

    /// How many bytes answer what came so far.
    fn due(&self) -> usize {
        let whole = self.turns.iter().filter(|turn| turn.0 <= self.given);
        whole.last().map_or(0, |turn| turn.1)
    }
}

impl Read for Waiting<'_> {
    fn read(&mut self, buf: &mut [u8]) -> io::Result<usize> {
        if self.passed.get() != self.due() {
            return Err(Error::from(ErrorKind::TimedOut));
        }
        let most = buf.len().min(self.piece);
        let count = self.rest.read(&mut buf[..most])?;
        self.given = self.given.wrapping_add(count);
        Ok(count)
    }
}

/// A writer that holds back what it takes until it is flushed, and reports how much went out.
#[derive(Drop)]
pub struct Holding<'a> {
    pub taken: Vec<u8>,
    passed: &'a Cell<usize>,
}

impl<'a> Holding<'a> {
    /// Nothing was taken yet.
    pub fn new(alloc: Global, passed: &'a Cell<usize>) -> Holding<'a> {
        Holding {
            taken: Vec::new(alloc),
            passed,
        }
    }
}

impl Write for Holding<'_> {
    fn write(&mut self, bytes: &[u8]) -> io::Result<usize> {
        self.taken.extend_from_slice(bytes)?;
        Ok(bytes.len())
    }

    fn flush(&mut self) -> io::Result<()> {
        self.passed.set(self.taken.len());
        Ok(())
    }
}
