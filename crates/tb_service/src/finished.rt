//! A run that has ended, and the places of each port's requests.
ghost use Rattle.std.specs.Prelude.{◌≡◌, true, IfOk};
ghost use Rattle.crossbeam_channel.specs.Claims.{view, IsSeatAt};
ghost use Rattle.crossbeam_channel.specs.Ends.{sends_on};
ghost use Rattle.tb_service.specs.declared.ends.Ended.TheVariants as way;
ghost use Rattle.tb_service.specs.Places.{ports, places_from};

use crate::ends::Ended;
use crate::orders::Order;
use crate::ports::Closed;
use crate::rule::{Account, Sender, TakesIn, View};
use crossbeam_channel::Pass;
use std::alloc::{AllocError, Global};
use std::marker::Model;
use std::sync::Wait;
use tb_machine::Entry;
use tb_published::{Naming, Publisher, TakeFault};

/// What a server leaves: the history, why it ended, and which requests were left out. Contracts see it with the requests
/// that were taken, and the port of each.
pub struct Finished<J: Naming> {
    /// The history, and what seats are shown of it.
    pub publisher: Publisher<J>,
    /// Why the run ended.
    pub ended: Ended,
    /// The places, from 1, of the requests that were not entered, though they were new: memory or time ran out.
    pub refused: Vec<(u64, TakeFault)>,
    places: Vec<u32>,
    sender: Sender,
    pass: Pass<Order, View>,
    alloc: Global,
}

impl<J: Naming> Model for Finished<J> {
    ghost use Rattle.crossbeam_channel.specs.Claims.{view as known, IsSeatAt};
    ghost use Rattle.crossbeam_channel.specs.Ends.{sends_on};
    ghost use Rattle.tb_service.specs.Finished.{Finish, IsRunServed, finish_of};

    ghost Value = { Finish };

    ghost view = { λ f. finish_of f.publisher f.ended f.refused.items f.pass };

    ghost invariant = { λ f.
        IsSeatAt (sends_on f.sender) f.pass × IsRunServed (known f.pass) f.places.items f.ended };
}

// The places of one port, from 1.
fn places_of(alloc: Global, port: u32, ports: &[u32]) -> Result<Vec<u64>, AllocError>
    ensures { IfOk result (λ places. places.items ≡ places_from port 1 ports.now) }
{
    let mut places = Vec::new(alloc);
    for (at, owner) in ports.iter().enumerate() {
        if *owner == port {
            places.push(at as u64 + 1)?;
        }
    }
    Ok(places)
}

impl<J: Naming> Finished<J> {
    ghost use Rattle.std.specs.Prelude.{IfErr};
    ghost use Rattle.tb_published.specs.Openings.{LegalIn};
    ghost use Rattle.tb_service.specs.Places.{requests};
    ghost use Rattle.tb_service.specs.Names.{service_of};
    ghost use Rattle.tb_service.specs.Finished.{AllAreClosed, IsOffered};

    pub(crate) fn new(
        alloc: Global,
        publisher: Publisher<J>,
        ended: Ended,
        refused: Vec<(u64, TakeFault)>,
        places: Vec<u32>,
        sender: Sender,
        pass: Pass<Order, View>,
    ) -> Finished<J>
        requires seated { IsSeatAt (sends_on sender) pass }
        requires serves { (view pass).serves ≡ true }
        requires placed { ports (view pass).taken ≡ places.items }
        requires over { ended ≡ way.Closed → AllAreClosed (view pass) }
        ensures parts { (result.publisher ≡ publisher)
            × (result.ended ≡ ended)
            × (result.refused ≡ refused.items) }
        ensures pass { (result.taken ≡ requests (view pass).taken)
            × (result.owners ≡ ports (view pass).taken)
            × (result.service ≡ service_of pass) }
    {
        Finished {
            publisher,
            ended,
            refused,
            places,
            sender,
            pass,
            alloc,
        }
    }

    /// Takes a closed port in, and returns the places of the requests that were taken from it. If an allocation fails, the
    /// same port comes back, and nothing has changed.
    pub fn offered_by(&mut self, closed: Closed) -> Result<Vec<u64>, Closed>
        requires service { closed.service ≡ self.old.service }
        ensures places { IfOk result
            (λ places. places.items ≡ places_from closed.number 1 self.old.owners) }
        ensures offered { IfOk result
            (λ places.
            IsOffered closed.offered self.old.taken places.items self.old.ended) }
        ensures back { IfErr result (λ back. back ≡ closed) }
        ensures same { self.new ≡ self.old }
    {
        let Ok(places) = places_of(self.alloc, closed.number(), &self.places) else {
            return Err(closed);
        };
        self.sender
            .absorb::<TakesIn>(&mut self.pass, closed.into_pass());
        self.sender.learn_as::<Account>(&mut self.pass);
        Ok(places)
    }

    /// Only the publisher, to be served again.
    pub fn into_publisher(self) -> Publisher<J>
        ensures { result ≡ self.publisher }
    {
        let Finished {
            publisher,
            ended: _,
            refused: _,
            places: _,
            sender: _,
            pass: _,
            alloc: _,
        } = self;
        publisher
    }

    /// Closes the publisher, and returns its history: seats that ask from then on find no copy.
    pub fn close<R: Wait>(self, rt: &R) -> Vec<Entry>
        ensures history { result.items ≡ self.publisher.history }
        ensures legal { LegalIn J.opening result.items }
    {
        self.into_publisher().close(rt)
    }
}
