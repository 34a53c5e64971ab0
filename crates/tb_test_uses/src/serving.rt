//! A caller of the service: one port, one request, and what then follows about the history that the server leaves.
ghost use Rattle.std.specs.Prelude.{◌≡◌, [], ◌∷◌, length, IfOk};
ghost use Rattle.tb_service.specs.Names.{Name};
ghost use Rattle.tb_service.specs.Ports.{AreNumbered};
ghost use Rattle.tb_service.specs.OfferedLaws.{GrowsByOffers};

use std::alloc::Global;
use std::sync::Wait;
use tb_published::{Naming, Publisher};
use tb_records::Request;
use tb_service::{Closed, Finished, Gate, Moments, Port, PortCount, Server, laws, service};

/// Why nothing was served, or nothing is known of it.
#[derive(Debug, Drop)]
pub enum Unserved {
    /// There was no memory for the server and its port, or for the places of the port.
    NoMemory,
    /// The server was gone before the request was sent.
    Gone,
}

/// The one port.
fn only_port(ports: Vec<Port>) -> Port
    requires one { length ports.items ≡ 1 }
    ensures { (name : Name) → AreNumbered name 0 ports.items
        → (result.service ≡ name) × (result.number ≡ 0) × (result.offered ≡ []) }
{
    let mut ports = ports;
    let port = ports.pop().unwrap();
    drop(ports);
    port
}

/// Sends a request through a port that has offered nothing, and closes it.
fn hand_over<R: Wait>(rt: &R, port: Port, request: Request) -> Result<Closed, Unserved>
    requires fresh { port.offered ≡ [] }
    ensures offered { IfOk result (λ closed. closed.offered ≡ request ∷ []) }
    ensures same { IfOk result
        (λ closed. (closed.service ≡ port.service) × (closed.number ≡ port.number)) }
{
    let mut port = port;
    match port.offer(rt, request) {
        Ok(()) => Ok(port.close(rt)),
        Err(back) => {
            drop(back);
            drop(port);
            Err(Unserved::Gone)
        }
    }
}

/// Runs a server whose one port is closed.
fn run_closed<J: Naming, W: Wait + Drop, M: Moments + Drop, G: Gate + Drop, R: Wait>(
    rt: &R,
    server: Server<J, W, M, G>,
    closed: Closed,
) -> Result<Finished<J>, Unserved>
    requires alone { server.port_count ≡ 1 }
    requires own { (closed.service ≡ server.service) × (closed.number ≡ 0) }
    ensures { IfOk result
        (λ finished.
        GrowsByOffers 1 (λ port. closed.offered) server.state.history
        finished.publisher.history) }
{
    laws::none_invented::<J, M, G>();
    let mut finished = server.run(rt);
    match finished.offered_by(closed) {
        Ok(places) => {
            drop(places);
            Ok(finished)
        }
        Err(back) => {
            drop(back);
            drop(finished.close(rt));
            Err(Unserved::NoMemory)
        }
    }
}

/// Runs a server whose one port sends a request and is closed.
fn run_one<J: Naming, W: Wait + Drop, M: Moments + Drop, G: Gate + Drop, R: Wait>(
    rt: &R,
    server: Server<J, W, M, G>,
    port: Port,
    request: Request,
) -> Result<Finished<J>, Unserved>
    requires alone { server.port_count ≡ 1 }
    requires own { (port.service ≡ server.service) × (port.number ≡ 0) }
    requires fresh { port.offered ≡ [] }
    ensures { IfOk result
        (λ finished.
        GrowsByOffers 1 (λ port. request ∷ []) server.state.history
        finished.publisher.history) }
{
    match hand_over(rt, port, request) {
        Ok(closed) => run_closed(rt, server, closed),
        Err(fault) => {
            drop(server);
            Err(fault)
        }
    }
}

/// Serves one request through a server of one port. The history that it leaves begins with the publisher's, and each entry
/// after that has this request: nothing is invented.
pub fn serve_one<J: Naming, R: Wait, M: Moments + Drop, G: Gate + Drop>(
    rt: &R,
    alloc: Global,
    publisher: Publisher<J>,
    moments: M,
    gate: G,
    request: Request,
) -> Result<Finished<J>, Unserved>
    ensures none_invented { IfOk result
        (λ finished.
        GrowsByOffers 1 (λ port. request ∷ []) publisher.history
        finished.publisher.history) }
{
    let one = PortCount::new(1).unwrap();
    match service(alloc, publisher, rt, one, moments, gate) {
        Ok((server, ports)) => run_one(rt, server, only_port(ports), request),
        Err(_) => {
            drop(request);
            Err(Unserved::NoMemory)
        }
    }
}
