//! Requests and replies written as frames, to a vector or to a sink.
ghost use Rattle.std.specs.Prelude.{◌≡◌, ◌≤◌, ◌+◌, ◌*◌, ◌++◌, ◌<◌, ◌^◌, length, All, vec_len, vec_capacity, OnOk, OnErr};
ghost use Rattle.std.specs.List.{flat_map};
ghost use Rattle.tb_records.specs.Frames.{body_bytes, request_bytes, BodyFits, IsRequest};
ghost use Rattle.tb_records.specs.Messages.{item_count, answer_count};
ghost use Rattle.tb_records.specs.ReplyFrames.{reply_header_bytes, reply_body_bytes, reply_bytes, ReplyBodyFits, IsReply};
ghost use Rattle.tb_records.specs.Transport.{IsSent};
ghost use Rattle.tb_records.specs.declared.limits.TheConstants.{ITEMS_MAX};
ghost use Rattle.tb_records.specs.private.Headers.{header_of_request, header_of_reply};

use crate::bodies::{Body, ReplyBody};
use crate::devices::{Sink, put_all, put_items};
use crate::encoding::{put_u8, put_u16, put_u32, put_u64, put_u128};
use crate::faults::FrameFault;
use crate::layout::Item;
use crate::replies::Reply;
use crate::requests::Request;
use std::alloc::AllocError;

/// The 48 bytes of a header. A request has status and commit number 0.
fn header(
    client: u128,
    session: u64,
    request: u32,
    operation: u8,
    status: u8,
    len: u32,
    commit: u64,
) -> [u8; 48]
    ensures bytes { result ≡ reply_header_bytes client session request operation status len commit }
    ensures fits { (client < 2 ^ 128) × (session < 2 ^ 64) × (request < 2 ^ 32) × (commit < 2 ^ 64) }
{
    let mut header = [0; 48];
    put_u128(&mut header, 0, client);
    put_u64(&mut header, 16, session);
    put_u32(&mut header, 24, request);
    put_u8(&mut header, 28, operation);
    put_u8(&mut header, 29, status);
    put_u16(&mut header, 30, 0);
    put_u32(&mut header, 32, len);
    put_u64(&mut header, 36, commit);
    put_u32(&mut header, 44, 0);
    header
}

/// The header of a request before a body of this length.
fn request_header(request: &Request, len: u32) -> [u8; 48]
    ensures header { result ≡ header_of_request request.now len }
    ensures fits { (request.now.client < 2 ^ 128)
        × (request.now.session < 2 ^ 64)
        × (request.now.request < 2 ^ 32) }
{
    let (client, session) = (request.client(), request.session());
    header(
        client,
        session,
        request.request(),
        request.operation(),
        0,
        len,
        0,
    )
}

/// The header of a reply before a body of this length.
fn reply_header(reply: &Reply, len: u32) -> [u8; 48]
    ensures header { result ≡ header_of_reply reply.now len }
    ensures fits { (reply.now.client < 2 ^ 128)
        × (reply.now.session < 2 ^ 64)
        × (reply.now.request < 2 ^ 32)
        × (reply.now.commit < 2 ^ 64) }
{
    let (client, session) = (reply.client(), reply.session());
    let (operation, status) = (reply.operation(), reply.status().code());
    header(
        client,
        session,
        reply.request(),
        operation,
        status,
        len,
        reply.commit(),
    )
}

/// Appends the items to a vector that has capacity for them.
fn append_items<T: Item>(items: &[T], out: &mut Vec<u8>)
    requires { vec_len out.old + length (flat_map T.spelling items.now) ≤ vec_capacity out.old }
    ensures appended { out.new.items ≡ out.old.items ++ flat_map T.spelling items.now }
    ensures fit { All T.Fits items.now }
{
    let mut bytes = [0; 128];
    for item in items {
        item.write(&mut bytes);
        out.extend_from_slice(&bytes[..T::SIZE]).unwrap();
    }
}

/// The number of bytes of a request's body.
#[tactic(auto, unfolding(crate::specs::Frames::body_bytes))]
fn body_len(body: &Body) -> u32
    requires { item_count body.now ≤ ITEMS_MAX }
    ensures { result ≡ length (body_bytes body.now) }
{
    match body {
        Body::Register => 0,
        Body::CreateAccounts(events) => items_len(events.as_slice()),
        Body::CreateTransfers(events) => items_len(events.as_slice()),
        Body::LookupAccounts(ids) => items_len(ids.as_slice()),
        Body::LookupTransfers(ids) => items_len(ids.as_slice()),
    }
}

/// The number of bytes of a reply's body.
#[tactic(auto, unfolding(crate::specs::ReplyFrames::reply_body_bytes))]
fn reply_body_len(body: &ReplyBody) -> u32
    requires { answer_count body.now ≤ ITEMS_MAX }
    ensures { result ≡ length (reply_body_bytes body.now) }
{
    match body {
        ReplyBody::Empty => 0,
        ReplyBody::Results(results) => items_len(results.as_slice()),
        ReplyBody::Accounts(accounts) => items_len(accounts.as_slice()),
        ReplyBody::Transfers(transfers) => items_len(transfers.as_slice()),
    }
}

/// The number of bytes of the items of a body.
fn items_len<T: Item>(items: &[T]) -> u32
    requires { length items.now ≤ ITEMS_MAX }
    ensures { result ≡ length (flat_map T.spelling items.now) }
{
    (items.len() * T::SIZE) as u32
}

/// Appends a body to a vector that has capacity for it.
#[tactic(auto, unfolding(crate::specs::Frames::body_bytes))]
fn append_body(body: &Body, out: &mut Vec<u8>)
    requires { vec_len out.old + length (body_bytes body.now) ≤ vec_capacity out.old }
    ensures appended { out.new.items ≡ out.old.items ++ body_bytes body.now }
    ensures fits { BodyFits body.now }
{
    match body {
        Body::Register => {}
        Body::CreateAccounts(events) => append_items(events.as_slice(), out),
        Body::CreateTransfers(events) => append_items(events.as_slice(), out),
        Body::LookupAccounts(ids) => append_items(ids.as_slice(), out),
        Body::LookupTransfers(ids) => append_items(ids.as_slice(), out),
    }
}

/// Appends the body of a reply to a vector that has capacity for it.
#[tactic(auto, unfolding(crate::specs::ReplyFrames::reply_body_bytes))]
fn append_reply_body(body: &ReplyBody, out: &mut Vec<u8>)
    requires { vec_len out.old + length (reply_body_bytes body.now) ≤ vec_capacity out.old }
    ensures appended { out.new.items ≡ out.old.items ++ reply_body_bytes body.now }
    ensures fits { ReplyBodyFits body.now }
{
    match body {
        ReplyBody::Empty => {}
        ReplyBody::Results(results) => append_items(results.as_slice(), out),
        ReplyBody::Accounts(accounts) => append_items(accounts.as_slice(), out),
        ReplyBody::Transfers(transfers) => append_items(transfers.as_slice(), out),
    }
}

/// Appends a request's frame. `AllocError` if there is no memory for all of it: the vector keeps its bytes, and gets no new ones.
pub fn write_request(request: &Request, out: &mut Vec<u8>) -> Result<(), AllocError>
    ensures ok { OnOk result (out.new.items ≡ out.old.items ++ request_bytes request.now) }
    ensures fits { OnOk result (IsRequest request.now) }
    ensures err { OnErr result (out.new.items ≡ out.old.items) }
{
    let body = request.body();
    let len = body_len(body);
    out.reserve(48 + len as usize)?;
    out.extend_from_slice(&request_header(request, len))
        .unwrap();
    append_body(body, out);
    Ok(())
}

/// Appends a reply's frame. `AllocError` if there is no memory for all of it: the vector keeps its bytes, and gets no new ones. That the reply's
/// numbers fit, as the clause `only` of `read_reply` requires, is stated of what was written.
pub fn write_reply(reply: &Reply, out: &mut Vec<u8>) -> Result<(), AllocError>
    ensures ok { OnOk result (out.new.items ≡ out.old.items ++ reply_bytes reply.now) }
    ensures fits { OnOk result (IsReply reply.now) }
    ensures err { OnErr result (out.new.items ≡ out.old.items) }
{
    let body = reply.body();
    let len = reply_body_len(body);
    out.reserve(48 + len as usize)?;
    out.extend_from_slice(&reply_header(reply, len)).unwrap();
    append_reply_body(body, out);
    Ok(())
}

/// Writes the body of a request to a sink.
#[tactic(auto, unfolding(crate::specs::Frames::body_bytes))]
fn send_request_body<W: Sink>(sink: &mut W, body: &Body) -> Result<(), FrameFault>
    ensures sent { IsSent result (body_bytes body.now) (W.output sink.old) (W.output sink.new) }
    ensures fits { OnOk result (BodyFits body.now) }
{
    match body {
        Body::Register => Ok(()),
        Body::CreateAccounts(events) => put_items(sink, events.as_slice()),
        Body::CreateTransfers(events) => put_items(sink, events.as_slice()),
        Body::LookupAccounts(ids) => put_items(sink, ids.as_slice()),
        Body::LookupTransfers(ids) => put_items(sink, ids.as_slice()),
    }
}

/// Writes a request's frame to a sink. Returns `Device` if the sink returns an error, or takes nothing of what is left: then a prefix of the frame
/// was written. That the request's numbers fit, so that the frame is read as no other, is stated of what was written.
pub fn send_request<W: Sink>(sink: &mut W, request: &Request) -> Result<(), FrameFault>
    ensures sent { IsSent result (request_bytes request.now) (W.output sink.old) (W.output sink.new) }
    ensures fits { OnOk result (IsRequest request.now) }
{
    let body = request.body();
    let len = body_len(body);
    put_all(sink, &request_header(request, len))?;
    send_request_body(sink, body)
}

/// Writes the body of a reply to a sink.
#[tactic(auto, unfolding(crate::specs::ReplyFrames::reply_body_bytes))]
fn send_body<W: Sink>(sink: &mut W, body: &ReplyBody) -> Result<(), FrameFault>
    ensures sent { IsSent result (reply_body_bytes body.now) (W.output sink.old) (W.output sink.new) }
    ensures fits { OnOk result (ReplyBodyFits body.now) }
{
    match body {
        ReplyBody::Empty => Ok(()),
        ReplyBody::Results(results) => put_items(sink, results.as_slice()),
        ReplyBody::Accounts(accounts) => put_items(sink, accounts.as_slice()),
        ReplyBody::Transfers(transfers) => put_items(sink, transfers.as_slice()),
    }
}

/// Writes a reply's frame to a sink. Returns `Device` if the sink returns an error, or takes nothing of what is left: then a prefix of the frame was
/// written, and nothing more is offered. That the reply's numbers fit, so that the frame is read as no other, is stated of what was written.
pub fn send_reply<W: Sink>(sink: &mut W, reply: &Reply) -> Result<(), FrameFault>
    ensures sent { IsSent result (reply_bytes reply.now) (W.output sink.old) (W.output sink.new) }
    ensures fits { OnOk result (IsReply reply.now) }
{
    let body = reply.body();
    let len = reply_body_len(body);
    put_all(sink, &reply_header(reply, len))?;
    send_body(sink, body)
}
