//! What the rows are made of: requests, moments, openings, and a server with its ports. Each opening is named by the call of a
//! function that is generic in its name.
ghost use Rattle.std.specs.Prelude.{◌≡◌, ℕ};
ghost use Rattle.tb_service.specs.Names.{Name};
ghost use Rattle.tb_service.specs.Ports.{AreNumbered};

use crate::comparing::holds;
use std::alloc::Global;
use std::process::Abort;
use std::sync::Wait;
use tb_published::{Naming, Opening, Publisher, Seat, SeatCount, open};
use tb_records::{Body, ClientsMax, Profile, Request};
use tb_service::{Gate, Moments, Port, PortCount, Server, service};
use tb_test_fixtures::{account, creation, lookup, transfer, transfers};

/// A request's client, session and number.
pub type Numbers = (u128, u64, u32);

/// What a request asks for.
#[derive(Clone, Copy)]
pub enum Asked {
    Register,
    /// Accounts 1 and 2.
    TwoAccounts,
    /// Accounts by their ids.
    Lookup(&'static [u128]),
    /// A transfer to account 2: its id, the account that it comes from, and its amount.
    Transfer(u128, u128, u128),
}

fn body_of(rt: &impl Abort, alloc: Global, asked: Asked) -> Body {
    let body = match asked {
        Asked::Register => Ok(Body::Register),
        Asked::TwoAccounts => creation(alloc, &[account(1), account(2)]),
        Asked::Lookup(ids) => lookup(alloc, ids),
        Asked::Transfer(id, debit, amount) => transfers(alloc, &[transfer(id, debit, 2, amount)]),
    };
    body.expect(rt, "memory")
}

/// A request by its numbers.
pub fn request(rt: &impl Abort, alloc: Global, numbers: Numbers, asked: Asked) -> Request {
    let (client, session, number) = numbers;
    let body = body_of(rt, alloc, asked);
    Request::new(client, session, number, body).expect(rt, "a request")
}

/// Client 7's request of this number.
pub fn nth(rt: &impl Abort, alloc: Global, number: u32, asked: Asked) -> Request {
    request(rt, alloc, (7, u64::from(number.min(1)), number), asked)
}

/// Client 7's request of this number: its register, two accounts, and then transfers of 10.
pub fn in_order(rt: &impl Abort, alloc: Global, number: u32) -> Request {
    let asked = match number {
        0 => Asked::Register,
        1 => Asked::TwoAccounts,
        _ => Asked::Transfer(u128::from(number) + 89, 1, 10),
    };
    nth(rt, alloc, number, asked)
}

/// Client 7's first requests, up to this number.
pub fn first_requests(rt: &impl Abort, alloc: Global, count: u32) -> Vec<Request> {
    let mut all = Vec::new(alloc);
    for number in 0..count {
        all.push(in_order(rt, alloc, number)).expect(rt, "memory");
    }
    all
}

/// Moments that rise by the same step each time.
#[derive(Drop)]
pub struct Every {
    pub next: u64,
    pub step: u64,
}

impl Moments for Every {
    ghost tells = { λ before moment after. moment ≡ before.next };

    fn now(&mut self) -> u64 {
        let moment = self.next;
        self.next = moment.saturating_add(self.step);
        moment
    }
}

/// 1, 2, 3 and so on.
pub fn rising() -> Every {
    Every { next: 1, step: 1 }
}

pub fn opening(rt: &impl Abort, profile: Profile, clients_max: u32) -> Opening {
    let clients_max = ClientsMax::new(clients_max).expect(rt, "clients_max");
    Opening::new(profile, clients_max)
}

/// An opening's publisher, and `seats` seats.
pub fn opened<J: Naming, R: Wait + Abort>(
    rt: &R,
    alloc: Global,
    opening: Opening,
    seats: u32,
) -> (Publisher<J>, Vec<Seat<J>>)
    requires { opening ≡ J.opening }
{
    let count = SeatCount::new(seats).expect(rt, "seats");
    open::<J, R>(alloc, rt, opening, count).expect(rt, "a publisher")
}

/// Offers a request, which is sent.
pub fn offer<R: Wait + Abort>(rt: &R, port: &mut Port, request: Request)
    ensures { port.new.service ≡ port.old.service }
{
    let outcome = port.offer(rt, request);
    holds(rt, outcome.is_ok(), "handed over");
    drop(outcome);
}

/// An opening's server with `count` ports, and two seats.
pub fn started<'a, J: Naming, R: Wait + Abort, M: Moments + Drop, G: Gate + Drop>(
    rt: &'a R,
    alloc: Global,
    opening: Opening,
    count: u32,
    moments: M,
    gate: G,
) -> (Server<J, &'a R, M, G>, Vec<Port>, Vec<Seat<J>>)
    requires { opening ≡ J.opening }
    ensures { AreNumbered result.0.service 0 result.1.items }
{
    let (publisher, seats) = opened::<J, R>(rt, alloc, opening, 2);
    let count = PortCount::new(count).expect(rt, "ports");
    let made = service(alloc, publisher, rt, count, moments, gate);
    let (server, ports) = made.expect(rt, "a server");
    (server, ports, seats)
}

/// The last port that is left.
pub fn next_port(rt: &impl Abort, ports: &mut Vec<Port>) -> Port
    ensures { (name : Name) (n : ℕ) → AreNumbered name n ports.old.items
        → AreNumbered name n ports.new.items × (result.service ≡ name) }
{
    if let Some(port) = ports.pop() {
        return port;
    }
    panic!(rt; "a port");
}
