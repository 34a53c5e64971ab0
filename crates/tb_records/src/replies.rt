//! Replies whose numbers and bodies go together.
ghost use Rattle.std.specs.Prelude.{◌≡◌, ◌≢◌, ◌==◌, ◌<◌, MatchOption, Some, None, IfOk, Ok, Err, if◌then◌else◌};
ghost use Rattle.tb_records.specs.private.HeaderFields.{PassesOr};
ghost use Rattle.tb_records.specs.Messages.{status_code, operation, answered, answer_fault, has_reply_numbers, has_register_numbers, is_operation, kind_for, IsRight};
ghost use Rattle.tb_records.specs.ReplyTests.{answer_of, number_tests};
ghost use Rattle.tb_records.specs.Statuses.{status_name};

use crate::bodies::ReplyBody;
use crate::faults::FrameFault;
use crate::limits::ITEMS_MAX;
use crate::requests::Request;
use std::alloc::{AllocError, Global};
use std::fmt;
use std::marker::Model;

/// The result of a request.
#[derive(Clone, Copy, Debug, PartialEq, Eq)]
pub enum Status {
    /// 0: the request is in the history, and this is its reply.
    Reply,
    /// 1: the client has no session.
    NoSession,
    /// 2: the session is below the client's.
    SessionTooLow,
    /// 3: the session is above the client's.
    NewerSession,
    /// 4: the client's last request has a greater number.
    Older,
    /// 5: the client's last request has this number and another content.
    Collision,
    /// 6: requests before this one are missing.
    NewerRequest,
    /// 7: the request is new and not yet shown.
    NotYet,
}

impl Status {
    /// All of them, by rising number.
    pub const ALL: [Status; 8] = [
        Status::Reply,
        Status::NoSession,
        Status::SessionTooLow,
        Status::NewerSession,
        Status::Older,
        Status::Collision,
        Status::NewerRequest,
        Status::NotYet,
    ];

    /// The number in a frame.
    pub fn code(self) -> u8
        ensures { result ≡ status_code self }
    {
        match self {
            Status::Reply => 0,
            Status::NoSession => 1,
            Status::SessionTooLow => 2,
            Status::NewerSession => 3,
            Status::Older => 4,
            Status::Collision => 5,
            Status::NewerRequest => 6,
            Status::NotYet => 7,
        }
    }

    /// The status that has a number; `None` above 7.
    pub fn from_code(code: u8) -> Option<Status>
        ensures { MatchOption result (7 < code) (λ status. status_code status ≡ code) }
    {
        match code {
            0 => Some(Status::Reply),
            1 => Some(Status::NoSession),
            2 => Some(Status::SessionTooLow),
            3 => Some(Status::NewerSession),
            4 => Some(Status::Older),
            5 => Some(Status::Collision),
            6 => Some(Status::NewerRequest),
            7 => Some(Status::NotYet),
            _ => None,
        }
    }

    /// The status's name, as a message shows it.
    pub fn name(self) -> &'static str
        ensures { result.now ≡ status_name self }
    {
        match self {
            Status::Reply => "Reply",
            Status::NoSession => "NoSession",
            Status::SessionTooLow => "SessionTooLow",
            Status::NewerSession => "NewerSession",
            Status::Older => "Older",
            Status::Collision => "Collision",
            Status::NewerRequest => "NewerRequest",
            Status::NotYet => "NotYet",
        }
    }
}

impl fmt::Display for Status {
    ghost output = { λ status. Some (status_name status) };

    fn fmt<W: fmt::Write>(&self, f: &mut fmt::Formatter<W>) -> fmt::Result {
        f.write_str(self.name())
    }
}

/// The numbers of a reply, without its body.
#[derive(Clone, Copy)]
pub(crate) struct Numbers {
    pub client: u128,
    pub session: u64,
    pub request: u32,
    pub operation: u8,
    pub status: Status,
    pub commit: u64,
}

/// A reply to a request.
#[derive(Drop)]
pub struct Reply {
    numbers: Numbers,
    body: ReplyBody,
}

impl Model for Reply {
    ghost use Rattle.tb_records.specs.Messages.{Answer, IsRight};
    ghost use Rattle.tb_records.specs.ReplyTests.{answer_of};

    ghost Value = { Answer };

    ghost view = { λ r. answer_of r.numbers r.body };

    ghost invariant = { λ r. IsRight (answer_of r.numbers r.body) };
}

/// Whether an operation has this number.
pub(crate) fn is_known(operation: u8) -> bool
    ensures { result ≡ is_operation operation }
{
    operation == 2 || operation == 129 || operation == 130 || operation == 131 || operation == 132
}

/// The kind of body that an operation and a status require: 0 no body, 1 results, 2 accounts, 3 transfers.
fn kind_of_reply(operation: u8, status: u8) -> u8
    ensures { result ≡ (if status == 0 then kind_for operation else 0) }
{
    if status != 0 {
        return 0;
    }
    match operation {
        2 => 0,
        131 => 2,
        132 => 3,
        _ => 1,
    }
}

/// Whether a register's reply has request 0, and session 0 if it is a refusal.
fn suits_register(status: u8, session: u64, request: u32) -> bool
    ensures { result ≡ has_register_numbers status session request }
{
    request == 0 && (status == 0 || session == 0)
}

/// Whether a reply's session and commit number go together: a refusal has commit 0, the reply to a register has its commit as session, and any other
/// reply a session before its commit.
fn numbers_agree(operation: u8, status: u8, session: u64, commit: u64) -> bool
    ensures { result ≡ has_reply_numbers operation status session commit }
{
    if status != 0 {
        commit == 0
    } else if operation == 2 {
        session != 0 && session == commit
    } else {
        session != 0 && session < commit
    }
}

impl Numbers {
    /// What is wrong with the numbers together: the request of a register or of any other operation, or the session and
    /// the commit number.
    pub(crate) fn check(&self) -> Result<(), FrameFault>
        ensures { PassesOr result (number_tests self.now) }
    {
        let status = self.status.code();
        if self.operation == 2 && !suits_register(status, self.session, self.request) {
            return Err(FrameFault::RegisterNumbers);
        }
        if self.operation != 2 && self.request == 0 {
            return Err(FrameFault::RequestZero);
        }
        if !numbers_agree(self.operation, status, self.session, self.commit) {
            return Err(FrameFault::ReplyNumbers);
        }
        Ok(())
    }
}

/// What is wrong with the numbers of a reply, or with its body next to them.
fn fault_of(numbers: &Numbers, body: &ReplyBody) -> Option<FrameFault>
    ensures { result ≡ answer_fault
        (answered numbers.now.client numbers.now.session numbers.now.request numbers.now.operation numbers.now.status
        numbers.now.commit body.now) }
{
    if numbers.client == 0 {
        return Some(FrameFault::ClientZero);
    }
    if !is_known(numbers.operation) {
        return Some(FrameFault::UnknownOperation);
    }
    if let Err(fault) = numbers.check() {
        return Some(fault);
    }
    if body.kind() != kind_of_reply(numbers.operation, numbers.status.code()) {
        return Some(FrameFault::BadLength);
    }
    if body.len() > ITEMS_MAX {
        return Some(FrameFault::TooMany);
    }
    None
}

impl Reply {
    /// The first fault that the reply's frame would have, also `BadLength` if the body is not of the kind that the operation and the status require;
    /// otherwise the reply.
    pub fn new(
        client: u128,
        session: u64,
        request: u32,
        operation: u8,
        status: Status,
        commit: u64,
        body: ReplyBody,
    ) -> Result<Reply, FrameFault>
        ensures { let r = answered client session request operation status commit body in
            MatchOption (answer_fault r) (result ≡ Ok r) (λ f. result ≡ Err f) }
    {
        let numbers = Numbers {
            client,
            session,
            request,
            operation,
            status,
            commit,
        };
        if let Some(fault) = fault_of(&numbers, &body) {
            drop(body);
            return Err(fault);
        }
        Ok(Reply { numbers, body })
    }

    /// A reply whose numbers and body go together.
    pub(crate) fn lawful(numbers: Numbers, body: ReplyBody) -> Reply
        requires { IsRight (answer_of numbers body) }
        ensures { result ≡ answer_of numbers body }
    {
        Reply { numbers, body }
    }

    /// The refusal of a request: it names the client, the session, the number and the operation of the request, and has
    /// commit 0 and no body.
    pub fn refusal(request: &Request, status: Status) -> Reply
        requires { status ≢ Status.Reply }
        ensures { result
            ≡ answered request.now.client request.now.session request.now.request
            (operation request.now.body) status 0 ReplyBody.Empty }
    {
        let body = request.body();
        let numbers = Numbers {
            client: request.client(),
            session: request.session(),
            request: request.request(),
            operation: body.operation(),
            status,
            commit: 0,
        };
        Reply {
            numbers,
            body: ReplyBody::Empty,
        }
    }

    /// A reply equal to this one.
    pub fn copy(&self, alloc: Global) -> Result<Reply, AllocError>
        ensures { IfOk result (λ reply. reply ≡ self.now) }
    {
        let body = self.body.copy(alloc)?;
        Ok(Reply {
            numbers: self.numbers,
            body,
        })
    }

    /// The client that the reply is for.
    pub fn client(&self) -> u128
        ensures { result ≡ self.now.client }
    {
        self.numbers.client
    }

    /// The session of the client's row; for a register's reply the new session, for a refusal the request's.
    pub fn session(&self) -> u64
        ensures { result ≡ self.now.session }
    {
        self.numbers.session
    }

    /// The number of the request.
    pub fn request(&self) -> u32
        ensures { result ≡ self.now.request }
    {
        self.numbers.request
    }

    /// The number of the operation.
    pub fn operation(&self) -> u8
        ensures { result ≡ self.now.operation }
    {
        self.numbers.operation
    }

    /// The result of the request.
    pub fn status(&self) -> Status
        ensures { result ≡ self.now.status }
    {
        self.numbers.status
    }

    /// The number of the request's entry in the history; 0 for a refusal.
    pub fn commit(&self) -> u64
        ensures { result ≡ self.now.commit }
    {
        self.numbers.commit
    }

    /// Its body.
    pub fn body(&self) -> &ReplyBody
        ensures value { result.now ≡ self.now.body }
        ensures right { IsRight self.now }
    {
        &self.body
    }
}
