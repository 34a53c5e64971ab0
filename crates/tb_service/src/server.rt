//! The server: one thread that enters what all ports offer.
ghost use Rattle.std.specs.Prelude.{◌≡◌, []};
ghost use Rattle.crossbeam_channel.specs.Claims.{view};
ghost use Rattle.tb_service.specs.Places.{ports};

use crate::clerk::Clerk;
use crate::ends::Ended;
use crate::finished::Finished;
use crate::gates::{Gate, Moments};
use crate::inbox::Inbox;
use std::alloc::Global;
use std::marker::Model;
use std::sync::Wait;
use tb_published::Naming;

/// The inbox, and the clerk that serves what comes in.
#[derive(Drop)]
struct Desk<J: Naming, W: Wait + Drop, M: Moments + Drop, G: Gate + Drop> {
    inbox: Inbox,
    clerk: Clerk<J, W, M, G>,
    ghost places: { ports (view inbox.pass).taken ≡ clerk.ports.items },
}

impl<J: Naming, W: Wait + Drop, M: Moments + Drop, G: Gate + Drop> Desk<J, W, M, G> {
    ghost use Rattle.std.specs.Prelude.{Some};
    ghost use Rattle.tb_service.specs.declared.ends.Ended.TheVariants as way;
    ghost use Rattle.tb_service.specs.Finished.{AllAreClosed};
    ghost use Rattle.tb_service.specs.private.Desks.{DeskServes};

    /// Takes one order and serves it; or says that all is over.
    fn step<R: Wait>(&mut self, rt: &R) -> Option<Ended>
        ensures served { DeskServes J.opening M.tells G.passes self.old self.new }
        ensures over { result ≡ Some way.Closed → AllAreClosed (view self.new.inbox.pass) }
    {
        if self.inbox.is_over() {
            return Some(Ended::Closed);
        }
        if self.clerk.reserve().is_err() {
            return Some(Ended::NoMemory);
        }
        let order = self.inbox.take(rt)?;
        self.clerk.serve_order(order);
        self.clerk.show(rt);
        None
    }

    /// Serves orders until all is over.
    fn serve<R: Wait>(&mut self, rt: &R) -> Ended
        ensures served { DeskServes J.opening M.tells G.passes self.old self.new }
        ensures over { result ≡ way.Closed → AllAreClosed (view self.new.inbox.pass) }
    {
        for _ in rt.forever() {
            if let Some(ended) = self.step(rt) {
                return ended;
            }
        }
        unreachable!()
    }
}

/// A server that has not begun. Contracts see it as what it begins with, its service, and the number of its ports. If it is
/// dropped, what ports offer comes back.
#[derive(Drop)]
pub struct Server<J: Naming, W: Wait + Drop, M: Moments + Drop, G: Gate + Drop> {
    desk: Desk<J, W, M, G>,
    alloc: Global,
}

impl<J: Naming, W: Wait + Drop, M: Moments + Drop, G: Gate + Drop> Model for Server<J, W, M, G> {
    ghost use Rattle.std.specs.Prelude.{◌≡◌, []};
    ghost use Rattle.crossbeam_channel.specs.Claims.{view as known};
    ghost use Rattle.tb_service.specs.Names.{service_of};
    ghost use Rattle.tb_service.specs.Clerks.{server_state};
    ghost use Rattle.tb_service.specs.Servers.{Start};

    ghost Value = { Start M G };

    ghost view = { λ s.
        record {
          state = server_state s.desk.clerk;
          service = service_of s.desk.inbox.pass;
          port_count = (known s.desk.inbox.pass).ports;
        } };

    ghost invariant = { λ s.
        ((known s.desk.inbox.pass).taken ≡ []) × (s.desk.clerk.refused.items ≡ []) };
}

impl<J: Naming, W: Wait + Drop, M: Moments + Drop, G: Gate + Drop> Server<J, W, M, G> {
    ghost use Rattle.tb_service.specs.Names.{service_of};
    ghost use Rattle.tb_service.specs.Clerks.{server_state};
    ghost use Rattle.tb_service.specs.Places.{HaveOwners};
    ghost use Rattle.tb_service.specs.Servers.{Finishes};

    pub(crate) fn new(inbox: Inbox, clerk: Clerk<J, W, M, G>, alloc: Global) -> Server<J, W, M, G>
        requires fresh { (view inbox.pass).taken ≡ [] }
        requires unused { clerk.ports.items ≡ [] }
        requires blameless { clerk.refused.items ≡ [] }
        ensures state { result.state ≡ server_state clerk }
        ensures ports { (result.service ≡ service_of inbox.pass)
            × (result.port_count ≡ (view inbox.pass).ports) }
    {
        Server {
            desk: Desk { inbox, clerk },
            alloc,
        }
    }

    /// Serves what the ports offer, until each of them is closed, or there is no memory for the places of one more order.
    /// Each request that is taken was offered by one of the ports from `service`.
    pub fn run<R: Wait>(self, rt: &R) -> Finished<J>
        ensures served { Finishes J.opening M.tells G.passes self.state result.taken result.refused
            result.publisher.history }
        ensures ports { HaveOwners self.port_count result.taken result.owners }
        ensures same { result.service ≡ self.service }
    {
        let Server { mut desk, alloc } = self;
        let ended = desk.serve(rt);
        let Desk { inbox, clerk } = desk;
        let (sender, pass) = inbox.stop();
        let Clerk {
            held,
            moments: _,
            gate: _,
            ports: places,
            refused,
        } = clerk;
        Finished::new(
            alloc,
            held.into_publisher(),
            ended,
            refused,
            places,
            sender,
            pass,
        )
    }
}
