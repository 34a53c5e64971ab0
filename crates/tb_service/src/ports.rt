//! Ports: what the threads of clients send requests through, and how an order is sent.
ghost use Rattle.std.specs.Prelude.{◌≡◌, true, [], length, false};
ghost use Rattle.crossbeam_channel.specs.Claims.{view, IsSeatAt};
ghost use Rattle.crossbeam_channel.specs.Ends.{sends_on};
ghost use Rattle.tb_service.specs.private.Rule.{SentOrBack};

use crate::batches::Batch;
use crate::calling::ask;
use crate::orders::{Order, What};
use crate::rule::{Sender, Sends, View};
use crossbeam_channel::{Pass, TrySendError};
use std::alloc::Global;
use std::marker::Model;
use std::sync::Wait;
use std::thread::Parker;
use std::time::Duration;
use tb_published::{Naming, Seat, SeatFault};
use tb_records::{Reply, Request, Status};

/// One client thread's way to the server. Contracts see it as its service, its number, and the requests that it sent so far.
/// A port that is dropped and not closed keeps the server waiting.
#[derive(Drop)]
pub struct Port {
    sender: Sender,
    pass: Pass<Order, View>,
    number: u32,
    count: u64,
    alloc: Global,
}

impl Model for Port {
    ghost use Rattle.std.specs.Prelude.{◌≡◌, false};
    ghost use Rattle.crossbeam_channel.specs.Claims.{view as known, IsSeatAt};
    ghost use Rattle.crossbeam_channel.specs.Ends.{sends_on};
    ghost use Rattle.tb_service.specs.Ports.{Offers, IsPortOf, offers_of};

    ghost Value = { Offers };

    ghost view = { λ p. offers_of p.pass };

    ghost invariant = { λ p.
        IsSeatAt (sends_on p.sender) p.pass
        × IsPortOf (known p.pass) p.number p.count
        × ((known p.pass).closed ≡ false) };
}

/// A port that sends no more. Contracts see it as they saw the port.
#[derive(Drop)]
pub struct Closed {
    pass: Pass<Order, View>,
    number: u32,
    handed_over: u64,
}

impl Model for Closed {
    ghost use Rattle.std.specs.Prelude.{◌≡◌, []};
    ghost use Rattle.crossbeam_channel.specs.Claims.{view as known};
    ghost use Rattle.tb_service.specs.Ports.{Offers, IsPortOf, offers_of};

    ghost Value = { Offers };

    ghost view = { λ p. offers_of p.pass };

    ghost invariant = { λ p. (p.pass.me.1 ≡ []) × IsPortOf (known p.pass) p.number p.handed_over };
}

impl Port {
    ghost use Rattle.std.specs.Prelude.{◌∷◌, ◌<◌, ◌≤◌, false, IfOk};
    ghost use mathlib.Core.List.{IsPrefix};
    ghost use Rattle.tb_published.specs.Openings.{AnswersIn};
    ghost use Rattle.tb_service.specs.private.Rule.{port_view};
    ghost use Rattle.tb_service.specs.Ports.{SendsOrReturns, offers_of};
    ghost use Rattle.tb_service.specs.Calls.{OffersOnce};

    pub(crate) fn new(sender: Sender, pass: Pass<Order, View>, number: u32, alloc: Global) -> Port
        requires seated { IsSeatAt (sends_on sender) pass }
        requires fresh { view pass ≡ port_view number [] false }
        ensures { result ≡ offers_of pass }
    {
        Port {
            sender,
            pass,
            number,
            count: 0,
            alloc,
        }
    }

    /// Sends a request. It comes back only if the server is gone, or the port sent 2^64 - 1 requests.
    pub fn offer<R: Wait>(&mut self, rt: &R, request: Request) -> Result<(), Request>
        ensures offered { SendsOrReturns result request (request ∷ []) self.old self.new }
        ensures same { (self.new.service ≡ self.old.service) × (self.new.number ≡ self.old.number) }
    {
        if self.count == u64::MAX {
            return Err(request);
        }
        let order = Order {
            port: self.number,
            what: What::One(request),
        };
        match send(&self.sender, &mut self.pass, rt, order) {
            Ok(()) => {
                self.count += 1;
                Ok(())
            }
            Err(back) => match back.what {
                What::One(request) => Err(request),
                _ => unreachable!(),
            },
        }
    }

    /// Sends one to eight requests, in one order: they are entered in turn and shown together. They come back only if the
    /// server is gone, or the port's count of requests would pass 2^64 - 1.
    pub fn offer_many<R: Wait>(
        &mut self,
        rt: &R,
        requests: Vec<Request>,
    ) -> Result<(), Vec<Request>>
        requires some { 0 < length requests.items }
        requires few { length requests.items ≤ 8 }
        ensures offered { SendsOrReturns result requests requests.items self.old self.new }
        ensures same { (self.new.service ≡ self.old.service) × (self.new.number ≡ self.old.number) }
    {
        let more = requests.len() as u64;
        if more > u64::MAX - self.count {
            return Err(requests);
        }
        let order = Order {
            port: self.number,
            what: What::Many(Batch { requests }),
        };
        match send(&self.sender, &mut self.pass, rt, order) {
            Ok(()) => {
                self.count += more;
                Ok(())
            }
            Err(back) => match back.what {
                What::Many(batch) => Err(batch.requests),
                _ => unreachable!(),
            },
        }
    }

    /// Asks the seat for the reply to a request. If the history that the seat shows does not have it yet, a copy is sent,
    /// once. The seat is then asked again, at most `turns` times, until the reply has another status than NotYet. Returns
    /// the seat's last reply. A fault of the seat ends the call; no memory for the copy ends it as NoMemory.
    pub fn call<J: Naming, R: Wait>(
        &mut self,
        rt: &R,
        seat: &mut Seat<J>,
        request: &Request,
        turns: u32,
    ) -> Result<Reply, SeatFault>
        ensures begins { IsPrefix seat.old seat.new }
        ensures answer { IfOk result (AnswersIn J.opening seat.new request.now) }
        ensures offered { OffersOnce J.opening seat.old seat.new request.now self.old self.new }
        ensures same { (self.new.service ≡ self.old.service) × (self.new.number ≡ self.old.number) }
    {
        let reply = seat.answer(request)?;
        if reply.status() != Status::NotYet {
            return Ok(reply);
        }
        let Ok(copy) = request.copy(self.alloc) else {
            drop(reply);
            return Err(SeatFault::NoMemory);
        };
        drop(self.offer(rt, copy));
        ask(seat, request, turns, reply)
    }

    /// Tells the server that no more requests come.
    pub fn close<R: Wait>(self, rt: &R) -> Closed
        ensures { result ≡ self }
    {
        let Port {
            sender,
            mut pass,
            number,
            count,
            alloc: _,
        } = self;
        let order = Order {
            port: number,
            what: What::Close,
        };
        let _ = send(&sender, &mut pass, rt, order);
        Closed {
            pass,
            number,
            handed_over: count,
        }
    }
}

impl Closed {
    ghost use Rattle.tb_service.specs.Ports.{offers_of};

    /// The number of requests that the port sent.
    pub fn offered(&self) -> u64
        ensures { result ≡ length self.now.offered }
    {
        self.handed_over
    }

    /// The port's number.
    pub(crate) fn number(&self) -> u32
        ensures { result ≡ self.now.number }
    {
        self.number
    }

    /// Its pass, for the server to take in.
    pub(crate) fn into_pass(self) -> Pass<Order, View>
        ensures idle { result.me.1 ≡ [] }
        ensures offers { (view result).offers ≡ true }
        ensures same { offers_of result ≡ self }
    {
        let Closed {
            pass,
            number: _,
            handed_over: _,
        } = self;
        pass
    }
}

/// How often a port naps when the queue is full, before it sleeps until the server wakes it.
const NAPS: u32 = 16;

/// The first nap with an order of one request, in microseconds. It is over before a server has taken what is in a full queue.
const NAP_US: u64 = 20;

/// The same with an order of several requests, which take the server longer.
const LONG_NAP_US: u64 = 160;

/// Yields the core for a moment: each nap is twice as long as the one before, up to four times the first.
fn nap<R: Wait>(rt: &R, what: &What, naps: u32) {
    let first = if let What::Many(_) = what {
        LONG_NAP_US
    } else {
        NAP_US
    };
    Parker::new().park_timeout(rt, Duration::from_micros(first << naps.min(2)));
}

/// Sends an order. It comes back if the server is gone. A server wakes one sleeper with each order that it takes, and this
/// costs it more time than a small request does. So a port whose order finds the queue full naps at first, and then finds
/// space for several orders.
pub(crate) fn send<R: Wait>(
    sender: &Sender,
    pass: &mut Pass<Order, View>,
    rt: &R,
    mut order: Order,
) -> Result<(), Order>
    requires seated { IsSeatAt (sends_on sender.now) pass.old }
    requires offers { (view pass.old).offers ≡ true }
    requires own { order.port ≡ (view pass.old).port }
    requires fresh { (view pass.old).closed ≡ false }
    ensures seated { IsSeatAt (sends_on sender.now) pass.new × (pass.new.id ≡ pass.old.id) }
    ensures sent { SentOrBack result order (view pass.old) (view pass.new) }
{
    for naps in 0..NAPS {
        match sender.try_send_as::<Sends, R>(rt, pass, order) {
            Ok(()) => return Ok(()),
            Err(TrySendError::Full(back)) => order = back,
            Err(refused) => return Err(refused.into_inner()),
        }
        nap(rt, &order.what, naps);
    }
    match sender.send_as::<Sends, R>(rt, pass, order) {
        Ok(()) => Ok(()),
        Err(refused) => Err(refused.into_inner()),
    }
}
