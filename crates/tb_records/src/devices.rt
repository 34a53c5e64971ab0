//! Readers and writers that count their failures, and the loops that fill and empty buffers.
ghost use Rattle.std.specs.Prelude.{false, ◌≡◌, ◌≤◌, ◌<◌, ◌+◌, ◌*◌, ◌++◌, ℕ, [], List, Option, MatchResult, IfSome, OnOk, All, length, take, drop, flat_map, vec_len, vec_capacity};
ghost use Rattle.std.specs.Io.{ReadsAtMost, WritesAtMost, StartsWith};
ghost use Rattle.std.specs.Io.Buffered.{reader_buffer, reader_remaining};
ghost use Rattle.std.specs.Io.KnownBytes.{Consumes, ReadConsumes, WriteAppends};
ghost use Rattle.tb_records.specs.Transport.{uncounted, Input, Output, Fails, Gives, Counts, Takes, Errs, Sent, IsSent};
ghost use Rattle.tb_records.specs.private.Reading.{Fills, FillsAll, ReadsItems, ReadsOr};

use crate::faults::FrameFault;
use crate::layout::Item;
use crate::lists::Items;
use std::alloc::Global;
use std::io;
use std::io::{BufRead, BufReader, Read, Write};
use std::marker::Model;

/// A reader that counts the errors that it returns.
pub trait Source {
    // The bytes that are left, if the reader reports them, and its errors.
    ghost input: { Self → Input };

    /// Reads into the buffer, in the manner of std's `read`. `Ok(0)` for a buffer that is not empty means the end of the input.
    fn pull(&mut self, buf: &mut [u8]) -> io::Result<usize>
        ensures bound { ReadsAtMost result buf.new }
        ensures bytes { ReadConsumes (input self.old).left (input self.new).left result buf.new }
        ensures counted { MatchResult result (λ _. Gives (input self.old) (input self.new))
            (λ _. Fails (input self.old) (input self.new)) };

    /// The number of errors returned. It stays at `2^64 - 1`.
    fn failures(&self) -> u64
        ensures { result ≡ (input self.now).failed };

    /// The bytes that the next pulls return without waiting for more; empty for a reader that does not know.
    fn at_hand(&self) -> &[u8]
        ensures exact { result.now ≡ (input self.now).at_hand }
        ensures first { IfSome (input self.now).left (λ bytes. StartsWith bytes result.now) };

    /// Consumes the first n of the buffered bytes.
    fn skip(&mut self, n: usize)
        requires { n ≤ length (input self.old).at_hand }
        ensures bytes { Consumes (input self.old).left (input self.new).left (take n (input self.old).at_hand) }
        ensures rest { (input self.new).at_hand ≡ drop n (input self.old).at_hand }
        ensures counted { (input self.new).failed ≡ (input self.old).failed }
        ensures last { (input self.new).halted ≡ (input self.old).halted };
}

/// A writer that counts the errors that it returns.
pub trait Sink {
    // The bytes written, if the writer reports them, its errors, and how often it took none of the bytes offered.
    ghost output: { Self → Output };

    /// Writes a prefix of the bytes, in the manner of std's `write`.
    fn put(&mut self, bytes: &[u8]) -> io::Result<usize>
        ensures bound { WritesAtMost result bytes.now }
        ensures bytes { WriteAppends (output self.old).written (output self.new).written result bytes.now }
        ensures counted { MatchResult result (λ n. Takes n bytes.now (output self.old) (output self.new))
            (λ _. Errs (output self.old) (output self.new)) };

    /// The number of errors returned. It stays at `2^64 - 1`.
    fn failures(&self) -> u64
        ensures { result ≡ (output self.now).failed };

    /// Passes on what was put, as far as possible now, to the receiver that waits for it. Nothing more is written, and no error is counted: an error
    /// shows at a later put, or when the writer is flushed at its end.
    fn pass_on(&mut self)
        ensures sent { Sent [] (output self.old) (output self.new) }
        ensures passed { (output self.new).held ≡ false };
}

/// A std reader or writer, with a count of its errors.
#[derive(Drop)]
pub struct Counting<T> {
    inner: T,
    failures: u64,
    // How often none of the bytes offered was taken.
    stalls: u64,
    // Whether the last result was an error, or no byte was taken.
    halted: bool,
    // Whether bytes were taken since the last time that they were passed on.
    held: bool,
}

impl<T> Model for Counting<T> {
    ghost use Rattle.tb_records.specs.Transport.{Counted};

    ghost Value = { Counted T };

    ghost view = { λ s.
        record {
          inner = s.inner;
          failures = s.failures;
          stalls = s.stalls;
          halted = s.halted;
          held = s.held;
        } };
}

impl<T> Counting<T> {
    /// The reader or writer, with nothing counted yet.
    pub fn new(inner: T) -> Counting<T>
        ensures { result ≡ uncounted inner }
    {
        Counting {
            inner,
            failures: 0,
            stalls: 0,
            halted: false,
            held: false,
        }
    }

    /// The reader or writer itself.
    pub fn into_inner(self) -> T
        ensures { result ≡ self.inner }
    {
        let Counting { inner, .. } = self;
        inner
    }
}

impl<T: Read> Source for Counting<T> {
    ghost input = { λ s.
        record
        { left = T.remaining s.inner; failed = s.failures; halted = s.halted; at_hand = [] } };

    fn pull(&mut self, buf: &mut [u8]) -> io::Result<usize> {
        let answer = self.inner.read(buf);
        self.halted = answer.is_err();
        if self.halted {
            self.failures = self.failures.saturating_add(1);
        }
        answer
    }

    fn failures(&self) -> u64 {
        self.failures
    }

    fn at_hand(&self) -> &[u8] {
        &[]
    }

    // None of its bytes is buffered.
    fn skip(&mut self, _: usize) {}
}

impl<T: Write> Sink for Counting<T> {
    ghost output = { λ s.
        record {
          written = T.contents s.inner;
          failed = s.failures;
          stalled = s.stalls;
          halted = s.halted;
          held = s.held;
        } };

    fn put(&mut self, bytes: &[u8]) -> io::Result<usize> {
        let answer = self.inner.write(bytes);
        self.halted = true;
        match &answer {
            Ok(0) if !bytes.is_empty() => self.stalls = self.stalls.saturating_add(1),
            Ok(0) => self.halted = false,
            Ok(_) => {
                self.halted = false;
                self.held = true;
            }
            Err(_) => self.failures = self.failures.saturating_add(1),
        }
        answer
    }

    fn failures(&self) -> u64 {
        self.failures
    }

    fn pass_on(&mut self) {
        let _ = self.inner.flush();
        self.held = false;
    }
}

/// A std reader behind a buffer, with a count of its errors. It knows which bytes are buffered.
#[derive(Drop)]
pub struct Buffered<R> {
    inner: Counting<BufReader<R>>,
}

impl<R> Model for Buffered<R> {
    ghost use Rattle.tb_records.specs.Transport.{Counted};
    ghost use Rattle.std.specs.declared.io.buffered.BufReader.{BufReader};
    ghost use Rattle.std.specs.declared.alloc.Global.{Global};

    ghost Value = { Counted (BufReader R Global) };

    ghost view = { λ s. s.inner };
}

impl<R: Read> Buffered<R> {
    /// The reader behind its buffer, with nothing counted yet.
    pub fn new(inner: BufReader<R>) -> Buffered<R>
        ensures { result ≡ uncounted inner }
    {
        Buffered {
            inner: Counting::new(inner),
        }
    }
}

impl<R: Read> Source for Buffered<R> {
    ghost input = { λ s.
        record {
          left = reader_remaining R.remaining s.inner;
          failed = s.failures;
          halted = s.halted;
          at_hand = reader_buffer s.inner;
        } };

    fn pull(&mut self, buf: &mut [u8]) -> io::Result<usize> {
        self.inner.pull(buf)
    }

    fn failures(&self) -> u64 {
        self.inner.failures()
    }

    fn at_hand(&self) -> &[u8] {
        self.inner.inner.buffer()
    }

    fn skip(&mut self, n: usize) {
        skip_buffered(&mut self.inner.inner, n);
    }
}

/// Consumes the first n bytes of a reader's buffer.
fn skip_buffered<R: Read>(reader: &mut BufReader<R>, n: usize)
    requires { n ≤ length (reader_buffer reader.old) }
    ensures bytes { Consumes (reader_remaining R.remaining reader.old)
        (reader_remaining R.remaining reader.new) (take n (reader_buffer reader.old)) }
    ensures rest { reader_buffer reader.new ≡ drop n (reader_buffer reader.old) }
{
    reader.consume(n);
}

/// Fills the buffer, and returns how many of its bytes were filled: fewer than all only at the end of the input.
pub(crate) fn fill<S: Source>(source: &mut S, buf: &mut [u8]) -> Result<usize, FrameFault>
    ensures bytes { Fills result buf.old buf.new (S.input source.old) (S.input source.new) }
    ensures counted { Counts result (S.input source.old) (S.input source.new) }
{
    let mut at = 0;
    while at < buf.len() {
        match source.pull(&mut buf[at..]) {
            Ok(0) => return Ok(at),
            Ok(n) => at += n,
            Err(_) => return Err(FrameFault::Device),
        }
    }
    Ok(at)
}

/// Writes all the bytes, or returns `Device` if the writer fails or takes nothing.
pub fn put_all<W: Sink>(sink: &mut W, bytes: &[u8]) -> Result<(), FrameFault>
    ensures { IsSent result bytes.now (W.output sink.old) (W.output sink.new) }
{
    let mut at = 0;
    while at < bytes.len() {
        match sink.put(&bytes[at..]) {
            Ok(0) => return Err(FrameFault::Device),
            Ok(n) => at += n,
            Err(_) => return Err(FrameFault::Device),
        }
    }
    Ok(())
}

/// Fills the buffer. Returns `Short` if the input ends before that.
fn fill_all<S: Source>(source: &mut S, buf: &mut [u8]) -> Result<(), FrameFault>
    ensures bytes { FillsAll result buf.old buf.new (S.input source.old) (S.input source.new) }
    ensures counted { Counts result (S.input source.old) (S.input source.new) }
{
    if fill(source, buf)? < buf.len() {
        return Err(FrameFault::Short);
    }
    Ok(())
}

/// Adds the items that the bytes encode, one after the other.
pub(crate) fn push_items<T: Item>(bytes: &[u8], count: usize, items: &mut Vec<T>)
    requires long { length bytes.now ≡ T.SIZE * count }
    requires capacity { vec_len items.old + count ≤ vec_capacity items.old }
    ensures spelled { flat_map T.spelling items.new.items ≡ flat_map T.spelling items.old.items ++ bytes.now }
    ensures fit { All T.Fits items.old.items → All T.Fits items.new.items }
    ensures long { vec_len items.new ≡ vec_len items.old + count }
    ensures capacity { vec_capacity items.new ≡ vec_capacity items.old }
{
    let mut rest = bytes;
    for _ in 0..count {
        let (item, more) = rest.split_at(T::SIZE);
        items.push_reserved(T::read(item));
        rest = more;
    }
}

/// Reads items to an empty list, so many at a time. The buffer is the caller's, and is long enough for these.
fn fill_items<S: Source, T: Item>(
    source: &mut S,
    buf: &mut [u8],
    at_once: usize,
    items: &mut Vec<T>,
    count: usize,
) -> Result<(), FrameFault>
    requires some { 0 < at_once }
    requires buffer { at_once * T.SIZE ≤ length buf.old }
    requires empty { items.old.items ≡ [] }
    requires capacity { count ≤ vec_capacity items.old }
    ensures bytes { ReadsOr result (λ _. ReadsItems T.spelling T.Fits count items.new.items) (count * T.SIZE)
        (S.input source.old) (S.input source.new) }
    ensures counted { Counts result (S.input source.old) (S.input source.new) }
{
    while items.len() < count {
        let n = at_once.min(count - items.len());
        let part = &mut buf[..n * T::SIZE];
        fill_all(source, part)?;
        push_items(part, n, items);
    }
    Ok(())
}

/// So many items go through a small block, of 128 bytes.
fn in_small_block<T: Item>() -> usize
    ensures some { 0 < result }
    ensures few { result ≤ 8 }
    ensures fit { result * T.SIZE ≤ 128 }
{
    if T::SIZE <= 16 { 8 } else { 1 }
}

/// Reads items to an empty list through a block, of 1,024 bytes if a small one is too short for them.
fn fill_through_block<S: Source, T: Item>(
    source: &mut S,
    items: &mut Vec<T>,
    count: usize,
) -> Result<(), FrameFault>
    requires empty { items.old.items ≡ [] }
    requires capacity { count ≤ vec_capacity items.old }
    ensures bytes { ReadsOr result (λ _. ReadsItems T.spelling T.Fits count items.new.items) (count * T.SIZE)
        (S.input source.old) (S.input source.new) }
    ensures counted { Counts result (S.input source.old) (S.input source.new) }
{
    let few = in_small_block::<T>();
    if count <= few {
        fill_items(source, &mut [0; 128], few, items, count)
    } else {
        fill_items(source, &mut [0; 1024], 8 * few, items, count)
    }
}

/// Reads a list of items through a block, of 1,024 bytes if a small one is too short for them. The memory for them is allocated before the first byte
/// is read, and no byte after them is read.
pub(crate) fn items_from<S: Source, T: Item>(
    alloc: Global,
    source: &mut S,
    count: usize,
) -> Result<Items<T>, FrameFault>
    ensures bytes { ReadsOr result (ReadsItems T.spelling T.Fits count) (count * T.SIZE)
        (S.input source.old) (S.input source.new) }
    ensures counted { Counts result (S.input source.old) (S.input source.new) }
{
    let mut items = Vec::with_capacity(alloc, count)?;
    fill_through_block(source, &mut items, count)?;
    Ok(Items::new(items))
}

/// Writes the bytes of items one after another, from the first byte of the block on, and returns their number.
fn spell_items<T: Item>(items: &[T], block: &mut [u8]) -> usize
    requires block { length items.now * T.SIZE ≤ length block.old }
    ensures long { length block.new ≡ length block.old }
    ensures within { result ≤ length block.new }
    ensures spelled { take result block.new ≡ flat_map T.spelling items.now }
    ensures fit { All T.Fits items.now }
{
    let mut buf = [0; 128];
    let mut at = 0;
    for item in items {
        item.write(&mut buf);
        let bytes: &[u8] = &buf;
        block[at..at + T::SIZE].copy_from_slice(&bytes[..T::SIZE]);
        at += T::SIZE;
    }
    at
}

/// Writes a list of items through a block, so many at a time, or stops if the writer fails or takes nothing.
fn put_blocks<W: Sink, T: Item>(
    sink: &mut W,
    block: &mut [u8],
    at_once: usize,
    items: &[T],
) -> Result<(), FrameFault>
    requires some { 0 < at_once }
    requires block { at_once * T.SIZE ≤ length block.old }
    ensures sent { IsSent result (flat_map T.spelling items.now) (W.output sink.old) (W.output sink.new) }
    ensures fit { OnOk result (All T.Fits items.now) }
{
    let mut left = items;
    while !left.is_empty() {
        let (part, rest) = left.split_at(left.len().min(at_once));
        let count = spell_items(part, block);
        put_all(sink, &block[..count])?;
        left = rest;
    }
    Ok(())
}

/// Writes a list of items through a block, of 1,024 bytes if a small one is too short for them, or stops if the writer fails or takes nothing.
/// Without items no block is made.
pub(crate) fn put_items<W: Sink, T: Item>(sink: &mut W, items: &[T]) -> Result<(), FrameFault>
    ensures sent { IsSent result (flat_map T.spelling items.now) (W.output sink.old) (W.output sink.new) }
    ensures fit { OnOk result (All T.Fits items.now) }
{
    if items.is_empty() {
        return Ok(());
    }
    let few = in_small_block::<T>();
    if items.len() <= few {
        put_blocks(sink, &mut [0; 128], few, items)
    } else {
        put_blocks(sink, &mut [0; 1024], 8 * few, items)
    }
}
