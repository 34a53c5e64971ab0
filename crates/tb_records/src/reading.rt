//! A request that is read from bytes.
ghost use Rattle.std.specs.Prelude.{◌≡◌, ◌++◌, ◌*◌, ℕ, List, [], Some, IfOk, MatchResult, length};
ghost use Rattle.tb_records.specs.Frames.{item_size, Spells};
ghost use Rattle.tb_records.specs.private.HeaderFields.{body_length, IsHeader, ReadsBody, ReadsRequest};
ghost use Rattle.tb_records.specs.Operations.{operation_code};
ghost use Rattle.tb_records.specs.Inputs.{Found, OnlyThis};
ghost use Rattle.tb_records.specs.Messages.{Message};

use crate::bodies::Body;
use crate::faults::FrameFault;
use crate::headers::{Header, request_header};
use crate::operations::Operation;
use crate::reply_reading::items_in;
use crate::requests::Request;
use std::alloc::{AllocError, Global};

/// The request whose frame the bytes begin with, and the length of the frame; or the first fault of the frame. `NoMemory` is returned only if there
/// is no fault.
#[tactic(auto, using(crate::proofs::Spellings::found_only))]
pub fn read_request(alloc: Global, bytes: &[u8]) -> Result<(Request, usize), FrameFault>
    ensures found { Found result bytes.now }
    ensures only { (r : Message) (front rest : List ℕ) → Spells front r
        → bytes.now ≡ front ++ rest
        → OnlyThis result r (length front) }
{
    read(alloc, bytes)
}

/// The body that the bytes encode.
#[tactic(auto, using(crate::proofs::SliceAnswers::all_read), unfolding(crate::specs::Frames::body_bytes))]
fn body_in(
    alloc: Global,
    bytes: &[u8],
    operation: Operation,
    count: usize,
) -> Result<Body, AllocError>
    requires size { length bytes.now ≡ count * item_size (operation_code operation) }
    requires empty { operation_code operation ≡ operation_code Operation.Register → count ≡ 0 }
    ensures { IfOk result (λ b. ReadsBody (operation_code operation) count b (Some bytes.now) (Some [])) }
{
    Ok(match operation {
        Operation::Register => Body::Register,
        Operation::CreateAccounts => Body::CreateAccounts(items_in(alloc, bytes, count)?),
        Operation::CreateTransfers => Body::CreateTransfers(items_in(alloc, bytes, count)?),
        Operation::LookupAccounts => Body::LookupAccounts(items_in(alloc, bytes, count)?),
        Operation::LookupTransfers => Body::LookupTransfers(items_in(alloc, bytes, count)?),
    })
}

/// The request of a header whose body the bytes encode. The only fault is that there is no memory.
#[inline(always)]
fn request_in(alloc: Global, bytes: &[u8], header: &Header) -> Result<Request, FrameFault>
    requires size { length bytes.now ≡ body_length header.now }
    requires header { IsHeader header.now }
    ensures { MatchResult result (λ r. ReadsRequest header.now r (Some bytes.now) (Some []))
        (λ f. f ≡ FrameFault.NoMemory) }
{
    let body = body_in(alloc, bytes, header.operation, header.count)?;
    Request::new(header.client, header.session, header.request, body)
}

#[inline(always)]
pub(crate) fn read(alloc: Global, bytes: &[u8]) -> Result<(Request, usize), FrameFault>
    ensures { Found result bytes.now }
{
    if bytes.len() < 48 {
        return Err(FrameFault::Short);
    }
    let header = request_header(bytes)?;
    if bytes.len() - 48 < header.length {
        return Err(FrameFault::Short);
    }
    let request = request_in(alloc, &bytes[48..48 + header.length], &header)?;
    Ok((request, 48 + header.length))
}
