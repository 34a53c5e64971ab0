//! The session of one client.
ghost use Rattle.std.specs.Prelude.{◌≡◌, MatchOption, Some, None, Ok, Err};
ghost use Rattle.tb_records.specs.Messages.{is_register};
ghost use Rattle.tb_caller.specs.private.Calling.{phase_fault};
ghost use Rattle.tb_caller.specs.Clients.{client_with, fresh, open_request, stored_request_fault, field_fault, called, names, heard_by, heard, received, ended_in, IsMade, Makes, WritesCall, WritesAgain, ReadsReply};

use crate::faults::{CallFault, FieldFault};
use std::alloc::{AllocError, Global};
use std::marker::Model;
use std::mem;
use tb_records::{Body, FrameFault, Reply, Request, Status, read_reply, write_request};

/// The phase of a session.
#[derive(Drop)]
pub enum Phase {
    /// No register was made.
    Unregistered,
    /// A request waits for its reply, and may have been executed or not.
    Open(Request),
    /// Each request has its reply.
    Idle,
    /// The session is over, and what was sent last may have been executed or not.
    Ended(Request),
}

/// What a reply is for the caller.
#[derive(Clone, Copy, Debug, PartialEq, Eq)]
pub enum Heard {
    /// The reply to the request: it was executed, once.
    Returned,
    /// The session is over.
    Ended,
    /// The request was refused now; an earlier sending may have been executed.
    Refused,
    /// It is not for the request that waits, or no request waits.
    Other,
}

/// The session of one client.
#[derive(Drop)]
pub struct Caller {
    id: u128,
    session: u64,
    last: u32,
    phase: Phase,
}

impl Model for Caller {
    ghost use Rattle.tb_caller.specs.Clients.{Client};

    ghost Value = { Client };

    ghost view = { λ c. record { id = c.id; session = c.session; last = c.last; phase = c.phase } };
}

impl Phase {
    /// The request that waits for its reply.
    fn open(&self) -> Option<&Request>
        ensures { MatchOption result (open_request self.now ≡ None) (λ r. open_request self.now ≡ Some r.now) }
    {
        match self {
            Phase::Open(request) => Some(request),
            Phase::Unregistered => None,
            Phase::Idle => None,
            Phase::Ended(_) => None,
        }
    }
}

/// The phase of a session that is over.
fn ended(phase: Phase) -> Phase
    ensures { result ≡ ended_in phase }
{
    match phase {
        Phase::Open(request) => Phase::Ended(request),
        other => other,
    }
}

/// Says that a body is a register's.
fn is_register(body: &Body) -> bool
    ensures { result ≡ is_register body.now }
{
    matches!(body, Body::Register)
}

/// Says that a reply is for a request.
fn names(request: &Request, reply: &Reply) -> bool
    ensures { result ≡ names request.now reply.now }
{
    reply.client() == request.client()
        && reply.request() == request.request()
        && reply.operation() == request.operation()
        && (matches!(request.body(), Body::Register) || reply.session() == request.session())
}

/// What the status of a reply to the request says.
fn heard_by(status: Status) -> Heard
    ensures { result ≡ heard_by status }
{
    match status {
        Status::Reply => Heard::Returned,
        Status::NoSession => Heard::Ended,
        Status::SessionTooLow => Heard::Ended,
        Status::NewerSession => Heard::Ended,
        Status::Older => Heard::Refused,
        Status::Collision => Heard::Refused,
        Status::NewerRequest => Heard::Refused,
        Status::NotYet => Heard::Refused,
    }
}

impl Caller {
    /// A client that has made no register. Call it once for each id: a second client of the same id would use its numbers again.
    pub fn new(id: u128) -> Caller
        ensures { result ≡ fresh id }
    {
        Caller {
            id,
            session: 0,
            last: 0,
            phase: Phase::Unregistered,
        }
    }

    /// The client that goes on from fields that were stored; or the first thing that is wrong with them.
    pub fn from_fields(
        id: u128,
        session: u64,
        last: u32,
        phase: Phase,
    ) -> Result<Caller, FieldFault>
        ensures { let c = client_with id session last phase in
            MatchOption (field_fault c) (result ≡ Ok c) (λ f. result ≡ Err f) }
    {
        let caller = Caller {
            id,
            session,
            last,
            phase,
        };
        match caller.fault() {
            None => Ok(caller),
            Some(fault) => {
                drop(caller);
                Err(fault)
            }
        }
    }

    /// What the fields have wrong.
    fn fault(&self) -> Option<FieldFault>
        ensures { result ≡ field_fault self.now }
    {
        match &self.phase {
            Phase::Unregistered => {
                if self.session == 0 && self.last == 0 {
                    None
                } else {
                    Some(FieldFault::RegisterNumbers)
                }
            }
            Phase::Open(request) => self.stored_request_fault(request),
            Phase::Idle => None,
            Phase::Ended(request) => self.stored_request_fault(request),
        }
    }

    /// Why a request is not the last one of this client.
    fn stored_request_fault(&self, request: &Request) -> Option<FieldFault>
        ensures { result ≡ stored_request_fault self.now request.now }
    {
        if request.client() != self.id {
            return Some(FieldFault::OtherClient);
        }
        if request.session() != self.session {
            return Some(FieldFault::OtherSession);
        }
        if request.request() != self.last {
            return Some(FieldFault::OtherNumber);
        }
        None
    }

    /// The client's id.
    pub fn id(&self) -> u128
        ensures { result ≡ self.now.id }
    {
        self.id
    }

    /// Its session, 0 before it has one.
    pub fn session(&self) -> u64
        ensures { result ≡ self.now.session }
    {
        self.session
    }

    /// The number of the last request that was made, 0 before.
    pub fn last(&self) -> u32
        ensures { result ≡ self.now.last }
    {
        self.last
    }

    /// Its phase.
    pub fn phase(&self) -> &Phase
        ensures { result.now ≡ self.now.phase }
    {
        &self.phase
    }

    /// The request that waits for its reply, the same each time until the reply has come.
    pub fn request(&self) -> Option<&Request>
        ensures { MatchOption result (open_request self.now.phase ≡ None) (λ r. open_request self.now.phase ≡ Some r.now) }
    {
        self.phase.open()
    }

    /// Why a call makes no request in this phase; `register` says that it is a register.
    fn phase_fault(&self, register: bool) -> Option<CallFault>
        ensures { result ≡ phase_fault self.now.phase self.now.last register }
    {
        match &self.phase {
            Phase::Unregistered => {
                if register {
                    None
                } else {
                    Some(CallFault::NotRegistered)
                }
            }
            Phase::Open(_) => Some(CallFault::Unanswered),
            Phase::Idle => {
                if register {
                    return Some(CallFault::Registered);
                }
                if self.last == u32::MAX {
                    return Some(CallFault::NoNumber);
                }
                None
            }
            Phase::Ended(_) => Some(CallFault::Ended),
        }
    }

    /// The request that a call makes; or why it makes no request.
    fn next_request(&self, body: Body) -> Result<Request, CallFault>
        ensures { IsMade result self.now body }
    {
        let register = is_register(&body);
        if let Some(fault) = self.phase_fault(register) {
            drop(body);
            return Err(fault);
        }
        let session = if register { 0 } else { self.session };
        let number = if register { 0 } else { self.last + 1 };
        match Request::new(self.id, session, number, body) {
            Ok(request) => Ok(request),
            Err(fault) => Err(CallFault::Frame(fault)),
        }
    }

    /// Goes on in another phase.
    fn go_on_in(&mut self, phase: Phase)
        ensures { self.new ≡ record self.old { phase = phase } }
    {
        self.phase = phase;
    }

    /// The session is over.
    fn end(&mut self)
        ensures { self.new ≡ record self.old { phase = ended_in self.old.phase } }
    {
        let phase = mem::replace(&mut self.phase, Phase::Idle);
        self.go_on_in(ended(phase));
    }

    /// A request was made, and waits for its reply.
    fn wait_for(&mut self, request: Request)
        ensures { self.new ≡ called self.old request }
    {
        self.last = request.request();
        self.go_on_in(Phase::Open(request));
    }

    /// Makes the next request, a register first; or returns why it can't, and stays as it was.
    pub fn make_request(&mut self, body: Body) -> Result<(), CallFault>
        ensures { Makes result self.old self.new body }
    {
        let request = self.next_request(body)?;
        self.wait_for(request);
        Ok(())
    }

    /// Makes the next request, and appends its frame. On a fault the client and the vector stay as they were.
    pub fn call(&mut self, body: Body, out: &mut Vec<u8>) -> Result<(), CallFault>
        ensures { WritesCall result self.old self.new body out.old.items out.new.items }
    {
        let request = self.next_request(body)?;
        match write_request(&request, out) {
            Ok(()) => {
                self.wait_for(request);
                Ok(())
            }
            Err(AllocError) => {
                drop(request);
                Err(CallFault::NoMemory)
            }
        }
    }

    /// Appends the frame of the request that waits, the same bytes each time; false if no request waits. Without memory for
    /// all of it the vector stays as it was.
    pub fn again(&self, out: &mut Vec<u8>) -> Result<bool, AllocError>
        ensures { WritesAgain result (open_request self.now.phase) out.old.items out.new.items }
    {
        match self.phase.open() {
            Some(request) => {
                write_request(request, out)?;
                Ok(true)
            }
            None => Ok(false),
        }
    }

    /// What a reply is for the request that waits.
    fn hears(&self, reply: &Reply) -> Heard
        ensures { result ≡ heard self.now reply.now }
    {
        match self.phase.open() {
            Some(request) => {
                if names(request, reply) {
                    heard_by(reply.status())
                } else {
                    Heard::Other
                }
            }
            None => Heard::Other,
        }
    }

    /// Takes a reply that came, and returns what it is for the request that waits.
    pub fn take_reply(&mut self, reply: &Reply) -> Heard
        ensures heard { result ≡ heard self.old reply.now }
        ensures moved { self.new ≡ received self.old reply.now }
    {
        let heard = self.hears(reply);
        match heard {
            Heard::Returned => {
                if reply.operation() == 2 {
                    self.session = reply.session();
                }
                self.go_on_in(Phase::Idle);
            }
            Heard::Ended => self.end(),
            Heard::Refused => {}
            Heard::Other => {}
        }
        heard
    }

    /// Reads the reply whose frame the bytes begin with, and takes it. Returns what it is for the request that waits, the
    /// reply, and the length of its frame. If the bytes begin with no frame, their first fault is returned, and the client
    /// stays as it was.
    pub fn received(
        &mut self,
        alloc: Global,
        bytes: &[u8],
    ) -> Result<(Heard, Reply, usize), FrameFault>
        ensures { ReadsReply result self.old self.new bytes.now }
    {
        let (reply, length) = read_reply(alloc, bytes)?;
        let heard = self.take_reply(&reply);
        Ok((heard, reply, length))
    }
}
