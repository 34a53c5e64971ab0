//! The rule that the queue keeps, and its steps.
ghost use Rattle.std.specs.Prelude.{◌≡◌};

use crate::orders::Order;
use crossbeam_channel::protocol::{Join, Lesson, Outcome, Protocol, Split};
use crossbeam_channel::{RuledReceiver, RuledSender};
use std::collections::LinkedList;
use tb_records::Request;

/// What the holder of a pass knows. No value of it is ever made.
pub struct View {
    /// The pass is a port's: it knows the port's number, all that it offered, and whether it sent its close.
    pub offers: bool,
    pub port: u32,
    pub offered: LinkedList<Request>,
    pub closed: bool,
    /// The pass is the server's: it knows how many ports were made, and the orders taken.
    pub serves: bool,
    pub ports: u32,
    pub taken: LinkedList<Order>,
    /// The server took a port's pass in: the number of the last such port, and all that it offered.
    pub knows: bool,
    pub known_port: u32,
    pub known: LinkedList<Request>,
}

/// Each port's requests are taken in the order in which it offered them.
pub struct Orderly;

impl Protocol<Order, View> for Orderly {
    ghost use Rattle.std.specs.Prelude.{[]};
    ghost use Rattle.tb_service.specs.private.Rule.{Queued, server_view};

    ghost holds = { Queued };

    ghost first = { server_view 0 [] };
}

/// The server makes one more port.
pub struct Opens;

impl Split<View> for Opens {
    ghost use Rattle.std.specs.Prelude.{◌+◌, false, []};
    ghost use Rattle.tb_service.specs.private.Rule.{port_view, server_with};

    ghost left = { λ v. server_with v (v.ports + 1) v.taken };

    ghost right = { λ v. port_view v.ports [] false };
}

/// A port sends an order.
pub struct Sends;

impl Outcome<Order, View> for Sends {
    ghost use Rattle.tb_service.specs.private.Rule.{sent};

    ghost then = { λ v o w. w ≡ sent v o };
}

impl Lesson<Order, View> for Sends {
    ghost fact = { λ v items. Unit {0} };
}

/// The server takes an order.
pub struct TakesOrder;

impl Outcome<Order, View> for TakesOrder {
    ghost use Rattle.std.specs.Prelude.{[], ◌∷◌, ◌++◌, ◌<◌};
    ghost use Rattle.tb_service.specs.private.Rule.{server_with};

    ghost then = { λ v o w. (w ≡ server_with v v.ports (v.taken ++ o ∷ [])) × (o.port < v.ports) };
}

impl Lesson<Order, View> for TakesOrder {
    ghost fact = { λ v items. Unit {0} };
}

/// The server takes a closed port's pass in.
pub struct TakesIn;

impl Join<View> for TakesIn {
    ghost use Rattle.tb_service.specs.private.Rule.{taken_in, spent};

    ghost both = { taken_in };

    ghost spent = { spent };
}

/// What the server learns of the port that it took in.
pub struct Account;

impl Lesson<Order, View> for Account {
    ghost use Rattle.tb_service.specs.private.Rule.{TalliesOrders};

    ghost fact = { TalliesOrders };
}

pub type Sender = RuledSender<Order, View, Orderly>;

pub type Receiver = RuledReceiver<Order, View, Orderly>;
