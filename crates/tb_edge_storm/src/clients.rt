//! The clients of a storm: each is a `Caller` of tb_caller, with a port and a seat of its own.
ghost use Rattle.std.specs.Prelude.{◌≡◌, ◌<◌, ◌≤◌, ◌+◌, [], Some, None, IfOk, OnOk};
ghost use Rattle.tb_records.specs.Messages.{asked};
ghost use Rattle.tb_caller.specs.declared.callers.Heard.TheVariants as hearing;
ghost use Rattle.tb_edge_storm.specs.declared.faults.StormFault.TheVariants.{GaveUp};
ghost use Rattle.tb_edge_storm.specs.Calls.{accounts_call, transfer_call};
ghost use Rattle.tb_edge_storm.specs.private.Clients.{TransfersMore, Hears, IsNewClient, Plays, Repeats, Returns, offers, repeat_count, repeats_at};
ghost use Rattle.tb_edge_storm.specs.private.Playing.{IsClosed};

use crate::calls::{create_accounts, create_transfer};
use crate::faults::StormFault;
use crate::network::Line;
use crate::stage::Stage;
use std::alloc::Global;
use std::sync::Wait;
use tb_caller::{Caller, Heard};
use tb_published::{Naming, Seat};
use tb_records::{Body, Request};
use tb_service::Port;

/// How often a call looks for its reply.
const LOOKS_PER_CALL: u32 = 1_000_000;

/// How often a request is called.
const CALLS_MAX: u32 = 100;

/// A client: its session, its port, its seat, and the fault that it ended with.
#[derive(Drop)]
pub(crate) struct Client<J: Naming> {
    number: u32,
    caller: Caller,
    pub line: Line,
    pub seat: Seat<J>,
    alloc: Global,
    pub fault: Option<StormFault>,
}

impl<J: Naming> Client<J> {
    /// The client with a number, with a port and a seat.
    pub fn new(alloc: Global, number: u32, port: Port, seat: Seat<J>) -> Client<J>
        ensures { port.offered ≡ [] → IsNewClient port.service port.number number result }
    {
        Client {
            number,
            caller: Caller::new(u128::from(number)),
            line: Line::Open(port),
            seat,
            alloc,
            fault: None,
        }
    }

    /// Closes the port.
    pub fn close<R: Wait>(&mut self, rt: &R)
        ensures { IsClosed self.old self.new }
    {
        self.line.close(rt);
    }

    /// Asks for the reply to the request that waits, and sends the request if the server does not have it yet.
    fn ask<R: Wait>(&mut self, rt: &R) -> Result<Heard, StormFault>
        ensures { IfOk result (λ heard. Hears J.opening heard self.old self.new) }
    {
        let Line::Open(port) = &mut self.line else {
            return Err(StormFault::NoPlace);
        };
        let Some(request) = self.caller.request() else {
            return Err(StormFault::GaveUp);
        };
        let reply = port.call(rt, &mut self.seat, request, LOOKS_PER_CALL)?;
        let heard = self.caller.take_reply(&reply);
        drop(reply);
        Ok(heard)
    }

    /// Asks until the request that waits has its reply; gives up if its session or the server has ended.
    fn settle<R: Wait>(&mut self, rt: &R, stage: &Stage) -> Result<(), StormFault>
        ensures { OnOk result (Hears J.opening hearing.Returned self.old self.new) }
    {
        for _ in 0..CALLS_MAX {
            match self.ask(rt)? {
                Heard::Returned => return Ok(()),
                Heard::Ended => return Err(StormFault::GaveUp),
                Heard::Refused => {}
                Heard::Other => {}
            }
            if stage.is_over() {
                break;
            }
        }
        Err(StormFault::GaveUp)
    }

    /// Makes a call, and asks until it has its reply.
    fn call<R: Wait>(&mut self, rt: &R, stage: &Stage, body: Body) -> Result<(), StormFault>
        ensures { OnOk result (Returns J.opening body self.old self.new) }
    {
        if self.caller.make_request(body).is_err() {
            return Err(StormFault::GaveUp);
        }
        self.settle(rt, stage)
    }

    /// Registers, and creates an account for each of `clients` clients, and the one that all transfers credit.
    fn make_accounts<R: Wait>(
        &mut self,
        rt: &R,
        stage: &Stage,
        clients: u32,
    ) -> Result<(), StormFault>
        ensures { OnOk result (Plays J.opening (accounts_call clients) 1 self.old self.new) }
    {
        if let Err(fault) = self.call(rt, stage, Body::Register) {
            return Err(fault);
        }
        let body = create_accounts(self.alloc, clients)?;
        self.call(rt, stage, body)
    }

    /// Creates the accounts of `clients` clients.
    pub fn create_accounts<R: Wait>(&mut self, rt: &R, stage: &Stage, clients: u32)
        ensures { self.new.fault ≡ None → Plays J.opening (accounts_call clients) 1 self.old self.new }
    {
        self.fault = self.make_accounts(rt, stage, clients).err();
    }

    /// The request of its kth transfer, as it was sent.
    fn sent(&self, k: u32) -> Result<Request, StormFault>
        ensures { IfOk result
            (λ request.
            request ≡ asked self.now.number self.now.caller.session k (transfer_call self.now.number k)) }
    {
        let body = create_transfer(self.alloc, self.number, k)?;
        match Request::new(u128::from(self.number), self.caller.session(), k, body) {
            Ok(request) => Ok(request),
            Err(_) => Err(StormFault::GaveUp),
        }
    }

    /// The network delivers requests again that were answered: that of the kth transfer, and after each third one also that
    /// of the transfer two before it.
    fn repeat<R: Wait>(&mut self, rt: &R, k: u32) -> Result<(), StormFault>
        requires { 1 ≤ k }
        ensures repeats { OnOk result
            (Repeats (repeats_at self.old.number self.old.caller.session k) self.old self.new) }
        ensures count { OnOk result (offers self.new.line ≡ offers self.old.line + repeat_count k) }
    {
        let request = self.sent(k)?;
        if let Err(fault) = self.line.deliver(rt, request) {
            return Err(fault);
        }
        if k % 3 != 0 {
            return Ok(());
        }
        let request = self.sent(k - 2)?;
        self.line.deliver(rt, request)
    }

    /// Creates its next transfer, after `done` transfers, and the network delivers it again.
    fn create_one<R: Wait>(&mut self, rt: &R, stage: &Stage, done: u32) -> Result<(), StormFault>
        requires { done < 1000 }
        ensures on { OnOk result (TransfersMore J.opening done (done + 1) self.old self.new) }
        ensures repeats { OnOk result
            (offers self.old.line + repeat_count (done + 1) ≤ offers self.new.line) }
    {
        let body = create_transfer(self.alloc, self.number, done + 1)?;
        if let Err(fault) = self.call(rt, stage, body) {
            return Err(fault);
        }
        self.repeat(rt, done + 1)
    }

    /// Creates `transfers` transfers, and the network delivers each again.
    fn create_all<R: Wait>(
        &mut self,
        rt: &R,
        stage: &Stage,
        transfers: u32,
    ) -> Result<(), StormFault>
        requires { transfers ≤ 1000 }
        ensures on { OnOk result (TransfersMore J.opening 0 transfers self.old self.new) }
        ensures repeats { OnOk result (offers self.old.line + transfers ≤ offers self.new.line) }
    {
        for done in 0..transfers {
            if let Err(fault) = self.create_one(rt, stage, done) {
                return Err(fault);
            }
        }
        Ok(())
    }

    /// Registers, and creates `transfers` transfers.
    fn make_transfers<R: Wait>(
        &mut self,
        rt: &R,
        stage: &Stage,
        transfers: u32,
    ) -> Result<(), StormFault>
        requires { transfers ≤ 1000 }
        ensures plays { OnOk result (Plays J.opening (transfer_call self.old.number) transfers self.old self.new) }
        ensures repeats { OnOk result (offers self.old.line + transfers ≤ offers self.new.line) }
    {
        if let Err(fault) = self.call(rt, stage, Body::Register) {
            return Err(fault);
        }
        self.create_all(rt, stage, transfers)
    }

    /// Registers, and creates `transfers` transfers; keeps the fault that ended it.
    pub fn create_transfers<R: Wait>(&mut self, rt: &R, stage: &Stage, transfers: u32)
        requires { transfers ≤ 1000 }
        ensures { self.new.fault ≡ None → Plays J.opening (transfer_call self.old.number) transfers self.old self.new }
    {
        self.fault = self.make_transfers(rt, stage, transfers).err();
    }

    /// Gives up before any call.
    pub fn give_up(&mut self)
        ensures { self.new.fault ≡ Some GaveUp }
    {
        self.fault = Some(StormFault::GaveUp);
    }
}
