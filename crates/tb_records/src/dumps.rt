//! The bytes of a dump: its head, and after it the entries of a history and at most one mark among them.
ghost use Rattle.std.specs.Prelude.{◌≡◌, ◌<◌, IfSome, OnOk, None, length};
ghost use Rattle.tb_records.specs.DumpBytes.{head_bytes, entry_bytes, mark_bytes, numbers_bytes, profile_number, HasNoHead, HeadAnswers, HeadCounts, IsClients, IsDumped, ItemAnswers, ItemCounts};
ghost use Rattle.tb_records.specs.private.DumpNumbers.{IsHead, NumbersAnswers};
ghost use Rattle.tb_records.specs.DumpFaults.{dump_fault_name, dump_fault_number};
ghost use Rattle.tb_records.specs.Transport.{Counts, IsSent};
ghost use Rattle.tb_records.specs.AtHand.{holds_item};

use crate::devices::{Sink, Source, fill, put_all};
use crate::encoding::{put_u32, put_u64, u32_at, u64_at};
use crate::faults::FrameFault;
use crate::limits::{ClientsMax, Profile};
use crate::requests::Request;
use crate::streams::{holds_frame, request_from};
use crate::writing::send_request;
use std::alloc::{AllocError, Global};
use std::fmt;
use thiserror::Error;

/// The bytes that a dump begins with.
const SIGNATURE: [u8; 8] = *b"TBSDUMP1";

/// Why a dump is not replayed to its end.
#[derive(Clone, Copy, Debug, PartialEq, Eq, Error)]
pub enum DumpFault {
    /// It does not begin with a head.
    Head,
    /// In the place of a mark there is another number than 2; or a mark follows another mark, or profile 2 is in use.
    Mark,
    /// The next entry cannot be read, or the reply to it cannot be written.
    Frame(FrameFault),
    /// The next entry does not follow from those before it: its commit number is not the next one, its time is too early or too late, or its request
    /// is not new.
    NotLegal,
    /// There is no memory for the machine, or for the next entry.
    NoMemory,
}

impl DumpFault {
    /// The fault's number, 1 to 5.
    pub fn number(self) -> u8
        ensures { result ≡ dump_fault_number self }
    {
        match self {
            DumpFault::Head => 1,
            DumpFault::Mark => 2,
            DumpFault::Frame(_) => 3,
            DumpFault::NotLegal => 4,
            DumpFault::NoMemory => 5,
        }
    }

    /// The fault's name, as a message shows it: for a frame's fault this is that fault's own name.
    pub fn name(self) -> &'static str
        ensures { result.now ≡ dump_fault_name self }
    {
        match self {
            DumpFault::Head => "Head",
            DumpFault::Mark => "Mark",
            DumpFault::Frame(fault) => fault.name(),
            DumpFault::NotLegal => "NotLegal",
            DumpFault::NoMemory => "NoMemory",
        }
    }
}

impl From<FrameFault> for DumpFault {
    ghost use Rattle.tb_records.specs.declared.dumps.DumpFault.TheVariants.{Frame};

    ghost from_gives = { λ of_frame fault. fault ≡ Frame of_frame };

    fn from(fault: FrameFault) -> DumpFault {
        DumpFault::Frame(fault)
    }
}

impl From<AllocError> for DumpFault {
    ghost use Rattle.tb_records.specs.declared.dumps.DumpFault.TheVariants.{NoMemory};

    ghost from_gives = { λ _ fault. fault ≡ NoMemory };

    fn from(_: AllocError) -> DumpFault {
        DumpFault::NoMemory
    }
}

impl fmt::Display for DumpFault {
    ghost use Rattle.std.specs.Prelude.{Some};
    ghost use Rattle.tb_records.specs.DumpFaults.{dump_fault_name};

    ghost output = { λ fault. Some (dump_fault_name fault) };

    fn fmt<W: fmt::Write>(&self, f: &mut fmt::Formatter<W>) -> fmt::Result {
        f.write_str(self.name())
    }
}

/// The beginning of a dump.
#[derive(Clone, Copy)]
pub struct DumpHead {
    /// The profile of its entries, up to its mark if it has one.
    pub profile: Profile,
    /// The greatest number of clients that can have a session at one time.
    pub clients_max: ClientsMax,
}

/// What follows the head of a dump.
#[derive(Drop)]
pub enum DumpItem {
    /// From here on profile 2 executes the entries.
    Mark,
    /// An entry of the history.
    Entry {
        /// Its number in the history.
        commit: u64,
        /// Its time, in nanoseconds.
        time: u64,
        /// Its request.
        request: Request,
    },
}

/// The profile of a number.
fn profile_of(number: u32) -> Option<Profile>
    ensures some { IfSome result (λ profile. number ≡ profile_number profile) }
    ensures none { result ≡ None → (profile : Profile) → number ≡ profile_number profile → ⊥ }
{
    match number {
        1 => Some(Profile::One),
        2 => Some(Profile::Two),
        _ => None,
    }
}

/// The number of a profile.
fn number_of(profile: Profile) -> u32
    ensures { result ≡ profile_number profile }
{
    match profile {
        Profile::One => 1,
        Profile::Two => 2,
    }
}

/// The head that 16 bytes encode.
fn head_in(bytes: &[u8]) -> Option<DumpHead>
    requires { length bytes.now ≡ 16 }
    ensures some { IfSome result (IsHead bytes.now) }
    ensures none { result ≡ None → HasNoHead bytes.now }
{
    if !bytes.starts_with(&SIGNATURE) {
        return None;
    }
    let profile = profile_of(u32_at(bytes, 8))?;
    let clients_max = ClientsMax::new(u32_at(bytes, 12))?;
    Some(DumpHead {
        profile,
        clients_max,
    })
}

/// Reads the head of a dump, 16 bytes. Returns `Head` if they are not a head.
pub fn read_head_from<S: Source>(source: &mut S) -> Result<DumpHead, DumpFault>
    ensures answer { HeadAnswers result (S.input source.old).left (S.input source.new).left }
    ensures counted { HeadCounts result (S.input source.old) (S.input source.new) }
{
    let mut bytes = [0; 16];
    let bytes: &mut [u8] = &mut bytes;
    if fill(source, bytes)? < 16 {
        return Err(DumpFault::Head);
    }
    match head_in(bytes) {
        Some(head) => Ok(head),
        None => Err(DumpFault::Head),
    }
}

/// Reads two numbers of 8 bytes. Returns `None` if the input ends before the first byte, and `Short` if it ends within them.
fn numbers_from<S: Source>(source: &mut S) -> Result<Option<(u64, u64)>, FrameFault>
    ensures answer { NumbersAnswers result (S.input source.old).left (S.input source.new).left }
    ensures counted { Counts result (S.input source.old) (S.input source.new) }
{
    let mut bytes = [0; 16];
    let bytes: &mut [u8] = &mut bytes;
    match fill(source, bytes)? {
        0 => Ok(None),
        n if n < 16 => Err(FrameFault::Short),
        _ => Ok(Some((u64_at(bytes, 0), u64_at(bytes, 8)))),
    }
}

/// Reads what comes next after the head of a dump: a mark or an entry. Returns `None` if the input ends before the first byte, and `Mark` if the
/// bytes are eight zeros and another number than 2. Returns `Short` if the input ends in the 16 bytes of either, in the frame of an entry, or before
/// it.
pub fn read_item_from<S: Source>(
    alloc: Global,
    source: &mut S,
) -> Result<Option<DumpItem>, DumpFault>
    ensures answer { ItemAnswers result (S.input source.old).left (S.input source.new).left }
    ensures counted { ItemCounts result (S.input source.old) (S.input source.new) }
{
    let Some((commit, time)) = numbers_from(source)? else {
        return Ok(None)
    };
    if commit == 0 {
        return if time == 2 {
            Ok(Some(DumpItem::Mark))
        } else {
            Err(DumpFault::Mark)
        };
    }
    match request_from(alloc, source)? {
        Some(request) => Ok(Some(DumpItem::Entry {
            commit,
            time,
            request,
        })),
        None => Err(DumpFault::Frame(FrameFault::Short)),
    }
}

/// Returns whether bytes begin with a whole mark or entry.
pub fn holds_item(bytes: &[u8]) -> bool
    ensures { result ≡ holds_item bytes.now }
{
    bytes.len() >= 16 && (u64_at(bytes, 0) == 0 || holds_frame(&bytes[16..]))
}

/// The 16 bytes of a head.
fn bytes_of_head(head: DumpHead) -> [u8; 16]
    ensures bytes { result ≡ head_bytes head.profile head.clients_max }
    ensures right { IsClients head.clients_max }
{
    let mut bytes = [0; 16];
    bytes[..8].copy_from_slice(&SIGNATURE);
    put_u32(&mut bytes, 8, number_of(head.profile));
    put_u32(&mut bytes, 12, head.clients_max.get());
    bytes
}

/// The 16 bytes of two numbers.
fn bytes_of_numbers(first: u64, second: u64) -> [u8; 16]
    ensures { result ≡ numbers_bytes first second }
{
    let mut bytes = [0; 16];
    put_u64(&mut bytes, 0, first);
    put_u64(&mut bytes, 8, second);
    bytes
}

/// Writes the head of a dump. Returns `Device` if the sink returns an error, or takes nothing of what is left: then a prefix was written.
pub fn send_head<W: Sink>(sink: &mut W, head: DumpHead) -> Result<(), FrameFault>
    ensures sent { IsSent result (head_bytes head.profile head.clients_max) (W.output sink.old) (W.output sink.new) }
    ensures right { IsClients head.clients_max }
{
    put_all(sink, &bytes_of_head(head))
}

/// Writes a mark, in the way of [`send_head`].
pub fn send_mark<W: Sink>(sink: &mut W) -> Result<(), FrameFault>
    ensures { IsSent result mark_bytes (W.output sink.old) (W.output sink.new) }
{
    put_all(sink, &bytes_of_numbers(0, 2))
}

/// Writes an entry, in the way of [`send_head`].
pub fn send_entry<W: Sink>(
    sink: &mut W,
    commit: u64,
    time: u64,
    request: &Request,
) -> Result<(), FrameFault>
    ensures sent { IsSent result (entry_bytes commit time request.now) (W.output sink.old) (W.output sink.new) }
    ensures fits { OnOk result (0 < commit → IsDumped commit time request.now) }
{
    put_all(sink, &bytes_of_numbers(commit, time))?;
    send_request(sink, request)
}
