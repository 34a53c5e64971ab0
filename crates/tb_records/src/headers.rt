//! The header of a request's frame, and its tests in their order.
ghost use Rattle.std.specs.Prelude.{◌≡◌, ◌==◌, ◌≤◌, ◌<◌, ◌+◌, ◌/◌, Some, false, MatchOption, OnOk, IfOk, length, take};
ghost use Rattle.tb_records.specs.Frames.{header_bytes, header_fault, item_size, length_at};
ghost use Rattle.tb_records.specs.private.HeaderFields.{CountAnswers, HeaderOf, HeaderSpelled, RightOr};
ghost use Rattle.tb_records.specs.Messages.{is_operation};
ghost use Rattle.tb_records.specs.Operations.{operation_code};

use crate::encoding::{u8_at, u24_at, u32_at, u64_at, u96_at, u128_at};
use crate::faults::FrameFault;
use crate::limits::ITEMS_MAX;
use crate::operations::Operation;
use crate::requests::check_numbers;

/// The size of an item in the body of a request.
fn size_of_item(operation: Operation) -> usize
    ensures { result ≡ item_size (operation_code operation) }
{
    match operation {
        Operation::CreateAccounts | Operation::CreateTransfers => 128,
        Operation::Register | Operation::LookupAccounts | Operation::LookupTransfers => 16,
    }
}

/// The fields of a header without a fault.
#[derive(Clone, Copy)]
pub(crate) struct Header {
    pub client: u128,
    pub session: u64,
    pub request: u32,
    pub operation: Operation,
    /// The number of bytes of the body.
    pub length: usize,
    /// The number of items of the body.
    pub count: usize,
}

/// The number of items in a body of this length.
fn count_of(operation: Operation, length: usize) -> Result<usize, FrameFault>
    ensures { CountAnswers result (operation_code operation) length }
{
    let size = size_of_item(operation);
    let register = matches!(operation, Operation::Register);
    let odd = if register { length } else { length % size };
    if odd != 0 {
        return Err(FrameFault::BadLength);
    }
    let count = length / size;
    if count > ITEMS_MAX {
        return Err(FrameFault::TooMany);
    }
    Ok(count)
}

/// The fields of the header that the bytes begin with, or the first of its faults.
#[tactic(auto, unfolding(crate::specs::Frames::header_fault))]
fn header_fields(bytes: &[u8]) -> Result<Header, FrameFault>
    requires { 48 ≤ length bytes.now }
    ensures { RightOr result (HeaderOf bytes.now) (header_fault bytes.now) }
{
    let client = u128_at(bytes, 0);
    if client == 0 {
        return Err(FrameFault::ClientZero);
    }
    let Some(operation) = Operation::from_code(u8_at(bytes, 28)) else {
        return Err(FrameFault::UnknownOperation);
    };
    if u24_at(bytes, 29) != 0 || u96_at(bytes, 36) != 0 {
        return Err(FrameFault::Reserved);
    }
    let session = u64_at(bytes, 16);
    let request = u32_at(bytes, 24);
    check_numbers(matches!(operation, Operation::Register), session, request)?;
    let length = u32_at(bytes, 32) as usize;
    let count = count_of(operation, length)?;
    Ok(Header {
        client,
        session,
        request,
        operation,
        length,
        count,
    })
}

/// The fields of the header that the bytes begin with and encode; or the first of its faults.
#[tactic(auto, using(crate::proofs::HeaderBytes::ok_spelled))]
pub(crate) fn request_header(bytes: &[u8]) -> Result<Header, FrameFault>
    requires { 48 ≤ length bytes.now }
    ensures fields { RightOr result (HeaderOf bytes.now) (header_fault bytes.now) }
    ensures spelled { OnOk result (HeaderSpelled bytes.now) }
{
    header_fields(bytes)
}
