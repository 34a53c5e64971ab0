//! What the requests of an order do to the history, each in its turn.
ghost use Rattle.std.specs.Prelude.{◌≡◌, ◌≤◌, ◌<◌, [], ◌∷◌, ◌++◌, length, OnOk};
ghost use Rattle.tb_service.specs.History.{turn_of, HasTurn};

use crate::gates::{Gate, Moments};
use crate::orders::{Order, What};
use std::alloc::AllocError;
use std::sync::Wait;
use tb_published::{HeldPublisher, Naming, Publisher, TakeFault};
use tb_records::Request;

/// An order has at most this many requests.
const REQUESTS_MAX: usize = 8;

/// A request has its turn at a moment: it is entered if it is new. Returns the fault that leaves it out, if there is one.
fn enter<J: Naming>(publisher: &mut Publisher<J>, request: Request, now: u64) -> Option<TakeFault>
    ensures { HasTurn J.opening publisher.old.history (turn_of now request result) publisher.new.history }
{
    publisher.enter(request, now).err()
}

/// Enters requests, and keeps the port of each place and the refusals.
#[derive(Drop)]
pub struct Clerk<J: Naming, W: Wait + Drop, M: Moments + Drop, G: Gate + Drop> {
    pub held: HeldPublisher<J, W>,
    pub moments: M,
    pub gate: G,
    pub ports: Vec<u32>,
    pub refused: Vec<(u64, TakeFault)>,
}

impl<J: Naming, W: Wait + Drop, M: Moments + Drop, G: Gate + Drop> Clerk<J, W, M, G> {
    ghost use Rattle.std.specs.Prelude.{replicate};
    ghost use Rattle.tb_service.specs.Sent.{requests_in};
    ghost use Rattle.tb_service.specs.Places.{ports_in};
    ghost use Rattle.tb_service.specs.Clerks.{ChangesCapacityAlone, HasCapacity, KeepsCapacity, ServesMore, UsesPlaces};

    /// Takes memory for the requests of one order.
    pub fn reserve(&mut self) -> Result<(), AllocError>
        ensures capacity { OnOk result (HasCapacity 8 self.new) }
        ensures same { ChangesCapacityAlone self.old self.new }
    {
        self.ports.reserve(REQUESTS_MAX)?;
        self.refused.reserve(REQUESTS_MAX)
    }

    /// One request has its turn.
    fn serve(&mut self, port: u32, request: Request)
        requires { HasCapacity 1 self.old }
        ensures served { ServesMore J.opening M.tells G.passes self.old (request ∷ []) self.new }
        ensures ports { self.new.ports.items ≡ self.old.ports.items ++ port ∷ [] }
        ensures capacity { UsesPlaces 1 self.old self.new }
    {
        self.ports.push_reserved(port);
        let place = self.ports.len() as u64;
        self.gate.pass(place);
        let now = self.moments.now();
        if let Some(fault) = enter(&mut self.held.publisher, request, now) {
            self.refused.push_reserved((place, fault));
        }
    }

    /// Requests have their turns, one after another.
    fn serve_all(&mut self, port: u32, requests: Vec<Request>)
        requires { HasCapacity (length requests.items) self.old }
        ensures served { ServesMore J.opening M.tells G.passes self.old requests.items self.new }
        ensures ports { self.new.ports.items ≡ self.old.ports.items ++ replicate (length requests.items) port }
    {
        for request in requests {
            self.serve(port, request);
        }
    }

    /// Has the publisher bring the accounts that requests need into the cache.
    fn touch(&mut self, requests: &[Request])
        ensures { self.new ≡ self.old }
    {
        self.held.publisher.touch(requests);
    }

    /// The requests of an order have their turns.
    pub fn serve_order(&mut self, order: Order)
        requires { HasCapacity 8 self.old }
        ensures served { ServesMore J.opening M.tells G.passes self.old (requests_in order.what) self.new }
        ensures ports { self.new.ports.items ≡ self.old.ports.items ++ ports_in order }
    {
        let Order { port, what } = order;
        match what {
            What::One(request) => self.serve(port, request),
            What::Many(batch) => {
                self.touch(batch.requests.as_slice());
                self.serve_all(port, batch.requests);
            }
            What::Close => {}
        }
    }

    /// Shows what was entered. If there is no memory for it, a later call shows the rest.
    pub fn show<R: Wait>(&mut self, rt: &R)
        ensures same { ChangesCapacityAlone self.old self.new }
        ensures capacity { KeepsCapacity self.old self.new }
    {
        let _ = self.held.publisher.show(rt);
    }
}
