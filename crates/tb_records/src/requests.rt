//! Requests whose numbers keep the rules of sessions.
ghost use Rattle.std.specs.Prelude.{◌≡◌, MatchOption, IfOk, Ok, Err};
ghost use Rattle.tb_records.specs.Messages.{asked, number_fault, operation, IsLawful};
ghost use Rattle.tb_records.specs.private.HeaderFields.{number_tests, PassesOr};

use crate::bodies::Body;
use crate::faults::FrameFault;
use crate::held_bodies::HeldBody;
use crate::limits::ITEMS_MAX;
use std::alloc::{AllocError, Global};
use std::marker::Model;

/// A request of a client: a register, or a numbered request of a session.
#[derive(Drop)]
pub struct Request {
    client: u128,
    session: u64,
    request: u32,
    body: HeldBody,
}

impl Model for Request {
    ghost use Rattle.tb_records.specs.HeldBodies.{body_of};
    ghost use Rattle.tb_records.specs.Messages.{Message, IsLawful, asked};

    ghost Value = { Message };

    ghost view = { λ r. asked r.client r.session r.request (body_of r.body) };

    ghost invariant = { λ r. IsLawful (asked r.client r.session r.request (body_of r.body)) };
}

/// What is wrong with the session and the number of a request, by whether it is a register.
pub(crate) fn check_numbers(register: bool, session: u64, request: u32) -> Result<(), FrameFault>
    ensures { PassesOr result (number_tests register session request) }
{
    if register && (session != 0 || request != 0) {
        return Err(FrameFault::RegisterNumbers);
    }
    if !register && request == 0 {
        return Err(FrameFault::RequestZero);
    }
    Ok(())
}

/// What is wrong with the numbers of a request, or with the length of its body.
fn fault_of(client: u128, session: u64, request: u32, body: &Body) -> Option<FrameFault>
    ensures { result ≡ number_fault (asked client session request body.now) }
{
    if client == 0 {
        return Some(FrameFault::ClientZero);
    }
    if let Err(fault) = check_numbers(matches!(body, Body::Register), session, request) {
        return Some(fault);
    }
    if body.len() > ITEMS_MAX {
        return Some(FrameFault::TooMany);
    }
    None
}

impl Request {
    /// The first of ClientZero, RegisterNumbers (a register with session or request not 0), RequestZero (any other with request 0) and TooMany (more
    /// than 8190 items) that holds; otherwise the request.
    ///
    /// It is compiled into its callers, so that a request is not copied on its way out.
    #[inline(always)]
    pub fn new(client: u128, session: u64, request: u32, body: Body) -> Result<Request, FrameFault>
        ensures { let r = asked client session request body in
            MatchOption (number_fault r) (result ≡ Ok r) (λ f. result ≡ Err f) }
    {
        if let Some(fault) = fault_of(client, session, request, &body) {
            drop(body);
            return Err(fault);
        }
        Ok(Request {
            client,
            session,
            request,
            body: HeldBody::Own(body),
        })
    }

    /// The client that sent it.
    pub fn client(&self) -> u128
        ensures { result ≡ self.now.client }
    {
        self.client
    }

    /// The session; 0 for a register.
    pub fn session(&self) -> u64
        ensures { result ≡ self.now.session }
    {
        self.session
    }

    /// The number of the request in its session; 0 for a register.
    pub fn request(&self) -> u32
        ensures { result ≡ self.now.request }
    {
        self.request
    }

    /// The operation's number.
    pub fn operation(&self) -> u8
        ensures { result ≡ operation self.now.body }
    {
        self.body.get().operation()
    }

    /// Its body.
    pub fn body(&self) -> &Body
        ensures value { result.now ≡ self.now.body }
        ensures lawful { IsLawful self.now }
    {
        self.body.get()
    }

    /// Makes the copies that are made of it from now on share its body, so that they allocate no memory.
    pub fn share(&mut self, alloc: Global) -> Result<(), AllocError>
        ensures { self.new ≡ self.old }
    {
        self.body.share(alloc)
    }

    /// A request equal to this one. If its body is shared, the copy shares it too.
    pub fn copy(&self, alloc: Global) -> Result<Request, AllocError>
        ensures { IfOk result (λ request. request ≡ self.now) }
    {
        let body = self.body.copy(alloc)?;
        Ok(Request {
            client: self.client,
            session: self.session,
            request: self.request,
            body,
        })
    }
}
