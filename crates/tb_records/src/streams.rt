//! Requests that are read from a stream, one by one.
ghost use Rattle.std.specs.Prelude.{◌≡◌, ◌+◌, ◌&&◌, nat_le, length, Some, None, Ok, Err, IfOk, IfSome, MatchOption};
ghost use Rattle.tb_records.specs.Frames.{length_at, IsRequest};
ghost use Rattle.tb_records.specs.private.HeaderFields.{BodyAnswers, HeaderAnswers, IsHeader, RequestAnswers};
ghost use Rattle.tb_records.specs.Operations.{operation_code};
ghost use Rattle.tb_records.specs.Inputs.{opened, fault_in, Answers, IsTimed, TimedAnswers};
ghost use Rattle.tb_records.specs.Transport.{Counts};
ghost use Rattle.tb_records.specs.AtHand.{holds_frame, holds_pair};
ghost use Rattle.tb_records.specs.private.Reading.{MomentAnswers};
ghost use Rattle.tb_records.specs.private.PairAtHand.{PairAnswers};

use crate::bodies::Body;
use crate::devices::{Source, fill, items_from};
use crate::encoding::{u32_at, u64_at};
use crate::faults::FrameFault;
use crate::headers::{Header, request_header};
use crate::operations::Operation;
use crate::reading::read;
use crate::requests::Request;
use std::alloc::{AllocError, Global};
use std::marker::Model;

/// The requests of a reader, one by one. After a fault it returns that fault again and reads nothing.
#[derive(Drop)]
pub struct RequestStream<R: Source + Drop> {
    source: R,
    fault: Option<FrameFault>,
}

impl<R: Source + Drop> Model for RequestStream<R> {
    ghost use Rattle.tb_records.specs.Inputs.{Stream};

    ghost Value = { Stream R };

    ghost view = { λ s. record { source = s.source; fault = s.fault } };
}

impl<R: Source + Drop> RequestStream<R> {
    /// A stream over a reader. It reads nothing yet.
    pub fn new(source: R) -> RequestStream<R>
        ensures { result ≡ opened source }
    {
        RequestStream {
            source,
            fault: None,
        }
    }

    /// The fault that ended the stream.
    fn check(&self) -> Result<(), FrameFault>
        ensures { MatchOption self.now.fault (result ≡ Ok tt) (λ f. result ≡ Err f) }
    {
        self.fault.map_or(Ok(()), Err)
    }

    /// The next request; `None` if the input ends before the first byte. Only the frame of the request that is returned is read; after a fault of the
    /// header the body is unread. `Device` is returned only if the reader returned an error; the reader is not called again after that.
    pub fn next_request(&mut self, alloc: Global) -> Result<Option<Request>, FrameFault>
        ensures again { (f : FrameFault) → self.old.fault ≡ Some f → (result ≡ Err f) × (self.new ≡ self.old) }
        ensures answer { self.old.fault ≡ None
            → Answers result (R.input self.old.source).left (R.input self.new.source).left }
        ensures counted { self.old.fault ≡ None
            → Counts result (R.input self.old.source) (R.input self.new.source) }
        ensures keeps { self.old.fault ≡ None → self.new.fault ≡ fault_in result }
    {
        self.check()?;
        let answer = request_from(alloc, &mut self.source);
        self.fault = answer.as_ref().err().copied();
        answer
    }

    /// The next moment of 8 bytes, and the request after it; `None` if the input ends before the first byte. `Short` if it ends in the moment or in
    /// the frame, or between the two.
    pub fn next_timed(&mut self, alloc: Global) -> Result<Option<(u64, Request)>, FrameFault>
        ensures again { (f : FrameFault) → self.old.fault ≡ Some f → (result ≡ Err f) × (self.new ≡ self.old) }
        ensures answer { self.old.fault ≡ None
            → TimedAnswers result (R.input self.old.source).left (R.input self.new.source).left }
        ensures counted { self.old.fault ≡ None
            → Counts result (R.input self.old.source) (R.input self.new.source) }
        ensures keeps { self.old.fault ≡ None → self.new.fault ≡ fault_in result }
    {
        self.check()?;
        let answer = read_timed_from(alloc, &mut self.source);
        self.fault = answer.as_ref().err().copied();
        answer
    }

    /// The reader, with what is unread.
    pub fn into_source(self) -> R
        ensures { result ≡ self.source }
    {
        let RequestStream { source, fault: _ } = self;
        source
    }
}

/// Returns whether bytes begin with a whole request frame, with the length that its header gives.
pub fn holds_frame(bytes: &[u8]) -> bool
    ensures { result ≡ holds_frame bytes.now }
{
    bytes.len() >= 48 && bytes.len() - 48 >= u32_at(bytes, 32) as usize
}

/// Returns whether bytes begin with a whole pair of a moment and a request frame.
pub fn holds_pair(bytes: &[u8]) -> bool
    ensures { result ≡ holds_pair bytes.now }
{
    bytes.len() >= 8 && holds_frame(&bytes[8..])
}

/// Reads the items of a body. The memory for them is allocated before the first byte is read.
#[tactic(auto, unfolding(crate::specs::Frames::body_bytes))]
fn body_from<S: Source>(
    alloc: Global,
    source: &mut S,
    operation: Operation,
    count: usize,
) -> Result<Body, FrameFault>
    requires { operation_code operation ≡ operation_code Operation.Register → count ≡ 0 }
    ensures bytes { BodyAnswers result operation count (S.input source.old) (S.input source.new) }
    ensures counted { Counts result (S.input source.old) (S.input source.new) }
{
    Ok(match operation {
        Operation::Register => Body::Register,
        Operation::CreateAccounts => Body::CreateAccounts(items_from(alloc, source, count)?),
        Operation::CreateTransfers => Body::CreateTransfers(items_from(alloc, source, count)?),
        Operation::LookupAccounts => Body::LookupAccounts(items_from(alloc, source, count)?),
        Operation::LookupTransfers => Body::LookupTransfers(items_from(alloc, source, count)?),
    })
}

/// Reads the body after a header, and makes the request.
fn request_behind<S: Source>(
    alloc: Global,
    source: &mut S,
    header: &Header,
) -> Result<Request, FrameFault>
    requires { IsHeader header.now }
    ensures bytes { RequestAnswers result header.now (S.input source.old) (S.input source.new) }
    ensures counted { Counts result (S.input source.old) (S.input source.new) }
{
    let body = body_from(alloc, source, header.operation, header.count)?;
    Request::new(header.client, header.session, header.request, body)
}

/// Reads a header and checks it. Returns `None` if the input ends before the first byte.
fn header_from<S: Source>(source: &mut S) -> Result<Option<Header>, FrameFault>
    ensures answer { HeaderAnswers result (S.input source.old).left (S.input source.new).left }
    ensures counted { Counts result (S.input source.old) (S.input source.new) }
{
    let mut bytes = [0; 48];
    let bytes: &mut [u8] = &mut bytes;
    match fill(source, bytes)? {
        0 => return Ok(None),
        n if n < 48 => return Err(FrameFault::Short),
        _ => {}
    }
    Ok(Some(request_header(bytes)?))
}

/// Reads one request. Returns `None` if the input ends before the first byte.
pub(crate) fn request_from<S: Source>(
    alloc: Global,
    source: &mut S,
) -> Result<Option<Request>, FrameFault>
    ensures answer { Answers result (S.input source.old).left (S.input source.new).left }
    ensures right { IfOk result (λ read. IfSome read IsRequest) }
    ensures counted { Counts result (S.input source.old) (S.input source.new) }
{
    let Some(header) = header_from(source)? else {
        return Ok(None)
    };
    Ok(Some(request_behind(alloc, source, &header)?))
}

/// Reads a moment of 8 bytes, and the request after it. Returns `None` if the input ends before the first byte, and `Short` if it ends in the moment
/// or in the frame, or between the two. Only the bytes of the pair that is returned are read; after a fault of the header the body is unread.
///
/// It is compiled into its callers, so that a request is not copied on its way out.
#[inline(always)]
pub fn read_timed_from<R: Source>(
    alloc: Global,
    source: &mut R,
) -> Result<Option<(u64, Request)>, FrameFault>
    ensures answer { TimedAnswers result (R.input source.old).left (R.input source.new).left }
    ensures right { IfOk result (λ read. IfSome read IsTimed) }
    ensures counted { Counts result (R.input source.old) (R.input source.new) }
{
    match pair_in(alloc, source.at_hand()) {
        Ok(Some((moment, request, length))) => {
            source.skip(length);
            Ok(Some((moment, request)))
        }
        Ok(None) => timed_by_parts(alloc, source),
        Err(AllocError) => {
            source.skip(56);
            Err(FrameFault::NoMemory)
        }
    }
}

/// The moment and the request that bytes begin with, and the number of their bytes; `None` if there is no whole pair, or if the request's header has
/// a fault.
#[inline(always)]
fn pair_in(alloc: Global, bytes: &[u8]) -> Result<Option<(u64, Request, usize)>, AllocError>
    ensures { PairAnswers result bytes.now }
{
    if !holds_pair(bytes) {
        return Ok(None);
    }
    match read(alloc, &bytes[8..]) {
        Ok((request, length)) => Ok(Some((u64_at(bytes, 0), request, 8 + length))),
        Err(FrameFault::NoMemory) => Err(AllocError),
        Err(_) => Ok(None),
    }
}

/// As `read_timed_from`, by a read for each part of the pair. It is a function of its own, so that the caller's frame stays small.
#[inline(never)]
fn timed_by_parts<S: Source>(
    alloc: Global,
    source: &mut S,
) -> Result<Option<(u64, Request)>, FrameFault>
    ensures answer { TimedAnswers result (S.input source.old).left (S.input source.new).left }
    ensures right { IfOk result (λ read. IfSome read IsTimed) }
    ensures counted { Counts result (S.input source.old) (S.input source.new) }
{
    let Some(moment) = moment_from(source)? else {
        return Ok(None)
    };
    match request_from(alloc, source)? {
        Some(request) => Ok(Some((moment, request))),
        None => Err(FrameFault::Short),
    }
}

/// Reads a moment. Returns `None` if the input ends before the first byte.
fn moment_from<S: Source>(source: &mut S) -> Result<Option<u64>, FrameFault>
    ensures answer { MomentAnswers result (S.input source.old).left (S.input source.new).left }
    ensures counted { Counts result (S.input source.old) (S.input source.new) }
{
    let mut bytes = [0; 8];
    let bytes: &mut [u8] = &mut bytes;
    match fill(source, bytes)? {
        0 => Ok(None),
        n if n < 8 => Err(FrameFault::Short),
        _ => Ok(Some(u64_at(bytes, 0))),
    }
}
