//! The server's end of the queue.
ghost use Rattle.std.specs.Prelude.{◌≡◌, ℕ, true, false, length, slice_index_or, slice_set, ◌<◌};
ghost use Rattle.std.proofs.Props.{props};
ghost use Rattle.crossbeam_channel.specs.Claims.{view, IsSeatAt};
ghost use Rattle.crossbeam_channel.specs.Ends.{sends_on, receives_on};
ghost use Rattle.tb_service.specs.Sent.{is_port_closed};

use crate::orders::{Order, What};
use crate::ports::Port;
use crate::rule::{Opens, Receiver, Sender, TakesOrder, View};
use crossbeam_channel::{Pass, bounded_with};
use std::alloc::{AllocError, Global};
use std::sync::Wait;

/// The queue holds this many orders.
const ORDERS_MAX: usize = 64;

/// Takes the orders of all ports, and knows which ports were closed.
#[derive(Drop)]
pub struct Inbox {
    sender: Sender,
    receiver: Receiver,
    pass: Pass<Order, View>,
    closed: Vec<bool>,
    ghost seated: { IsSeatAt (sends_on sender) pass } by { Prim.hlevel props },
    ghost ends: { receives_on receiver ≡ sends_on sender } by { Prim.hlevel props },
    ghost serves: { (view pass).serves ≡ true },
    ghost counted: { length closed.items ≡ (view pass).ports },
    ghost closes: { (p : ℕ) → is_port_closed p (view pass).taken ≡ slice_index_or closed.items p false } by { Prim.hlevel props },
}

fn mark(flags: &mut Vec<bool>, at: usize)
    requires { at < length flags.old.items }
    ensures { flags.new.items ≡ slice_set flags.old.items at true }
{
    flags[at] = true;
}

impl Inbox {
    ghost use Rattle.std.specs.Prelude.{[], ◌+◌, IfSome, IfOk};
    ghost use Rattle.tb_service.specs.Finished.{AllAreClosed};
    ghost use Rattle.tb_service.specs.private.Inboxes.{IsFreshPort, MakesNone, TakesNextOrder, TakesNoOrder};
    ghost use Rattle.tb_service.specs.Names.{service_of};

    /// A queue with no port.
    pub fn new(alloc: Global) -> Result<Inbox, AllocError>
        ensures { IfOk result (λ inbox. ((view inbox.pass).ports ≡ 0) × ((view inbox.pass).taken ≡ [])) }
    {
        let (sender, receiver, pass) = bounded_with(alloc, ORDERS_MAX)?;
        Ok(Inbox {
            sender,
            receiver,
            pass,
            closed: Vec::new(alloc),
        })
    }

    /// Makes one more port.
    pub fn port(&mut self, alloc: Global, number: u32) -> Result<Port, AllocError>
        requires { number ≡ (view self.old.pass).ports }
        ensures port { IfOk result (IsFreshPort (service_of self.old.pass) number) }
        ensures more { IfOk result (λ port. (view self.new.pass).ports ≡ (view self.old.pass).ports + 1) }
        ensures same { TakesNoOrder self.old.pass self.new.pass }
    {
        let sender = self.sender.try_clone()?;
        self.closed.push(false)?;
        let pass = self.sender.another::<Opens>(&mut self.pass);
        Ok(Port::new(sender, pass, number, alloc))
    }

    /// Waits for an order; None if the receive failed.
    pub fn take<R: Wait>(&mut self, rt: &R) -> Option<Order>
        ensures owned { IfSome result (λ order. order.port < (view self.old.pass).ports) }
        ensures taken { TakesNextOrder result self.old.pass self.new.pass }
        ensures same { MakesNone self.old.pass self.new.pass }
    {
        let Ok(order) = self.receiver.recv_as::<TakesOrder, R>(rt, &mut self.pass) else {
            return None;
        };
        if let What::Close = &order.what {
            mark(&mut self.closed, order.port as usize);
        }
        Some(order)
    }

    /// Says whether each port was closed.
    pub fn is_over(&self) -> bool
        ensures { result ≡ true → AllAreClosed (view self.now.pass) }
    {
        self.closed.iter().all(|is_closed| *is_closed)
    }

    /// Stops receiving: what is offered from now on comes back.
    pub fn stop(self) -> (Sender, Pass<Order, View>)
        ensures seated { IsSeatAt (sends_on result.0) result.1 }
        ensures same { result.1 ≡ self.pass }
    {
        let Inbox {
            sender,
            receiver: _,
            pass,
            closed: _,
        } = self;
        (sender, pass)
    }
}
