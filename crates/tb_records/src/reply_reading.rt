//! Replies read from bytes.
ghost use Rattle.std.specs.Prelude.{◌≡◌, ◌≤◌, ◌*◌, ◌++◌, ℕ, List, Some, length, IsTrue, IfOk};
ghost use Rattle.tb_records.specs.private.HeaderFields.{PassesOr, RightOr};
ghost use Rattle.tb_records.specs.Messages.{Answer, first_fault};
ghost use Rattle.tb_records.specs.ReplyFrames.{reply_header_fault, reply_item_size, has_reply_length, SpellsReply, FoundReply, OnlyThisReply};
ghost use Rattle.tb_records.specs.private.ReplyHeaders.{HasReplyFields, IsReplyHeader, IsReplyBody, SpelledItems};
ghost use Rattle.tb_records.specs.ReplyTests.{reply_field_tests, reply_length_tests};

use crate::bodies::ReplyBody;
use crate::devices::push_items;
use crate::encoding::{u8_at, u16_at, u32_at, u64_at, u128_at};
use crate::faults::FrameFault;
use crate::layout::Item;
use crate::limits::ITEMS_MAX;
use crate::lists::Items;
use crate::replies::{Numbers, Reply, Status, is_known};
use std::alloc::{AllocError, Global};

/// The header of a reply, whose numbers go together.
#[derive(Clone, Copy)]
pub(crate) struct ReplyHeader {
    pub numbers: Numbers,
    /// The number of bytes after the header.
    pub len: u32,
}

/// The fields at the beginning of the bytes; or what is wrong with the client, the operation, the status or the zero bytes.
fn fields_in(bytes: &[u8]) -> Result<ReplyHeader, FrameFault>
    requires { 48 ≤ length bytes.now }
    ensures { RightOr result (HasReplyFields bytes.now) (first_fault (reply_field_tests bytes.now)) }
{
    let client = u128_at(bytes, 0);
    if client == 0 {
        return Err(FrameFault::ClientZero);
    }
    let operation = u8_at(bytes, 28);
    if !is_known(operation) {
        return Err(FrameFault::UnknownOperation);
    }
    let Some(status) = Status::from_code(u8_at(bytes, 29)) else {
        return Err(FrameFault::Reserved);
    };
    let low = u16_at(bytes, 30);
    let high = u32_at(bytes, 44);
    if low != 0 || high != 0 {
        return Err(FrameFault::Reserved);
    }
    let numbers = Numbers {
        client,
        session: u64_at(bytes, 16),
        request: u32_at(bytes, 24),
        operation,
        status,
        commit: u64_at(bytes, 36),
    };
    Ok(ReplyHeader {
        numbers,
        len: u32_at(bytes, 32),
    })
}

/// What is wrong with the length of a reply's body.
fn check_length(operation: u8, status: u8, len: u32) -> Result<(), FrameFault>
    ensures { PassesOr result (reply_length_tests operation status len) }
{
    if !is_long(operation, status, len) {
        return Err(FrameFault::BadLength);
    }
    if (len / item_size(operation)) as usize > ITEMS_MAX {
        return Err(FrameFault::TooMany);
    }
    Ok(())
}

/// The header at the beginning of the bytes, or what is wrong with it.
fn header_in(bytes: &[u8]) -> Result<ReplyHeader, FrameFault>
    requires { 48 ≤ length bytes.now }
    ensures { RightOr result (IsReplyHeader bytes.now) (reply_header_fault bytes.now) }
{
    let header = fields_in(bytes)?;
    let numbers = &header.numbers;
    numbers.check()?;
    check_length(numbers.operation, numbers.status.code(), header.len)?;
    Ok(header)
}

/// The size of one item in the reply to an operation: a record, or a result.
fn item_size(operation: u8) -> u32
    ensures { result ≡ reply_item_size operation }
{
    if operation == 131 || operation == 132 {
        128
    } else {
        8
    }
}

/// Whether the body of a reply may have this length.
fn is_long(operation: u8, status: u8, len: u32) -> bool
    ensures { result ≡ has_reply_length operation status len }
{
    if status == 0 && operation != 2 {
        len % item_size(operation) == 0
    } else {
        len == 0
    }
}

/// The items that the bytes encode, one after the other.
pub(crate) fn items_in<T: Item>(
    alloc: Global,
    bytes: &[u8],
    count: usize,
) -> Result<Items<T>, AllocError>
    requires { length bytes.now ≡ T.SIZE * count }
    ensures spelled { IfOk result (λ items. SpelledItems T.spelling T.Fits items bytes.now) }
    ensures long { IfOk result (λ items. length items ≡ count) }
{
    let mut items = Vec::with_capacity(alloc, count)?;
    push_items(bytes, count, &mut items);
    Ok(Items::new(items))
}

/// The body that the bytes encode, of the kind that the operation and the status require.
#[tactic(auto, unfolding(crate::specs::ReplyFrames::reply_body_bytes))]
fn body_in(alloc: Global, operation: u8, status: u8, bytes: &[u8]) -> Result<ReplyBody, AllocError>
    requires { IsTrue (has_reply_length operation status (length bytes.now)) }
    ensures { IfOk result (λ body. IsReplyBody operation status body bytes.now) }
{
    if status != 0 || operation == 2 {
        return Ok(ReplyBody::Empty);
    }
    let count = bytes.len() / item_size(operation) as usize;
    match operation {
        131 => Ok(ReplyBody::Accounts(items_in(alloc, bytes, count)?)),
        132 => Ok(ReplyBody::Transfers(items_in(alloc, bytes, count)?)),
        _ => Ok(ReplyBody::Results(items_in(alloc, bytes, count)?)),
    }
}

/// The reply at the beginning of the bytes, and the length of its frame; or the first of its faults.
fn read(alloc: Global, bytes: &[u8]) -> Result<(Reply, usize), FrameFault>
    ensures { FoundReply result bytes.now }
{
    if bytes.len() < 48 {
        return Err(FrameFault::Short);
    }
    let header = header_in(bytes)?;
    let end = 48 + header.len as usize;
    if bytes.len() < end {
        return Err(FrameFault::Short);
    }
    let status = header.numbers.status.code();
    let body = body_in(alloc, header.numbers.operation, status, &bytes[48..end])?;
    Ok((Reply::lawful(header.numbers, body), end))
}

/// The reply whose frame the bytes begin with, and the length of the frame; or the first fault, in the order of the tests. `NoMemory` comes after all
/// of these.
#[tactic(auto, using(crate::proofs::ReplyLaws::only_this))]
pub fn read_reply(alloc: Global, bytes: &[u8]) -> Result<(Reply, usize), FrameFault>
    ensures found { FoundReply result bytes.now }
    ensures only { (r : Answer) (front rest : List ℕ) → SpellsReply front r
        → bytes.now ≡ front ++ rest
        → OnlyThisReply result r (length front) }
{
    read(alloc, bytes)
}
