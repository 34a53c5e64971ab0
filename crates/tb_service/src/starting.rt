//! A server and its ports.
ghost use Rattle.std.specs.Prelude.{◌≡◌, IfOk};
ghost use Rattle.crossbeam_channel.specs.Claims.{view};
ghost use Rattle.tb_service.specs.Names.{service_of};
ghost use Rattle.tb_service.specs.History.{state_with};
ghost use Rattle.tb_service.specs.private.Inboxes.{TakesNoOrder};
ghost use Rattle.tb_service.specs.Ports.{ArePortsOf};

use crate::clerk::Clerk;
use crate::gates::{Gate, Moments};
use crate::inbox::Inbox;
use crate::limits::PortCount;
use crate::ports::Port;
use crate::server::Server;
use std::alloc::{AllocError, Global};
use std::sync::Wait;
use tb_published::{HeldPublisher, Naming, Publisher};

// The ports of a queue that has no port, numbered from 0.
fn make_ports(inbox: &mut Inbox, alloc: Global, count: u32) -> Result<Vec<Port>, AllocError>
    requires { (view inbox.old.pass).ports ≡ 0 }
    ensures ports { IfOk result (λ ports. ArePortsOf (service_of inbox.old.pass) count ports.items) }
    ensures made { IfOk result (λ _. (view inbox.new.pass).ports ≡ count) }
    ensures same { TakesNoOrder inbox.old.pass inbox.new.pass }
{
    let mut ports = Vec::new(alloc);
    for number in 0..count {
        let port = inbox.port(alloc, number)?;
        ports.push(port)?;
    }
    Ok(ports)
}

/// A server over a publisher, and its ports, numbered from 0: it never has other ports. The publisher is closed by the
/// handle `rt` if there is no memory for them, and when the server is dropped.
pub fn service<J: Naming, W: Wait + Drop, M: Moments + Drop, G: Gate + Drop>(
    alloc: Global,
    publisher: Publisher<J>,
    rt: W,
    count: PortCount,
    moments: M,
    gate: G,
) -> Result<(Server<J, W, M, G>, Vec<Port>), AllocError>
    ensures begins { IfOk result (λ made. made.0.state ≡ state_with publisher.history moments gate) }
    ensures ports { IfOk result (λ made. ArePortsOf made.0.service count made.1.items) }
    ensures count { IfOk result (λ made. made.0.port_count ≡ count) }
{
    let held = HeldPublisher::new(publisher, rt);
    let mut inbox = match Inbox::new(alloc) {
        Ok(inbox) => inbox,
        Err(AllocError) => {
            drop(held);
            return Err(AllocError);
        }
    };
    let ports = match make_ports(&mut inbox, alloc, count.get()) {
        Ok(ports) => ports,
        Err(AllocError) => {
            drop(inbox);
            drop(held);
            return Err(AllocError);
        }
    };
    let clerk = Clerk {
        held,
        moments,
        gate,
        ports: Vec::new(alloc),
        refused: Vec::new(alloc),
    };
    Ok((Server::new(inbox, clerk, alloc), ports))
}
