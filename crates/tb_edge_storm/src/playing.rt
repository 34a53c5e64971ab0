//! All clients of a storm: their threads, and what a server that has finished took of their ports.
ghost use Rattle.std.specs.Prelude.{◌≡◌, ◌≤◌, ◌+◌, None, IfOk, IfSome, OnOk};
ghost use Rattle.tb_service.specs.Names.{Name};
ghost use Rattle.tb_service.specs.Ports.{ArePortsOf};
ghost use Rattle.tb_edge_storm.specs.Calls.{accounts_call};
ghost use Rattle.tb_edge_storm.specs.private.Clients.{IsConcluded, Plays, port_of};
ghost use Rattle.tb_edge_storm.specs.Served.{AreLeft};
ghost use Rattle.tb_edge_storm.specs.private.Playing.{AreClosed, AreNew, AreOfService, AreReady, AreServedBy, HaveMade, HaveNoFault, IsNewOn, MakeTransfers};

use crate::clients::Client;
use crate::faults::StormFault;
use crate::network::Line;
use crate::scale::Scale;
use crate::stage::Stage;
use std::alloc::Global;
use std::mem;
use std::sync::Wait;
use std::thread::{self, Threads};
use tb_published::{Naming, Seat};
use tb_service::{Finished, Port};

/// The clients of a storm: the first makes the accounts, the others the transfers.
#[derive(Drop)]
pub(crate) struct Clients<J: Naming> {
    pub first: Client<J>,
    pub others: Vec<Client<J>>,
}

/// The client with a number, with the last of the ports and the last of the seats.
fn next_client<J: Naming>(
    alloc: Global,
    number: u32,
    ports: &mut Vec<Port>,
    seats: &mut Vec<Seat<J>>,
) -> Result<Client<J>, StormFault>
    ensures { IfOk result (IsNewOn number ports.old.items ports.new.items) }
{
    let Some(port) = ports.pop() else {
        return Err(StormFault::NoPlace);
    };
    let Some(seat) = seats.pop() else {
        drop(port);
        return Err(StormFault::NoPlace);
    };
    Ok(Client::new(alloc, number, port, seat))
}

/// Clients 1, 2, 3 and so on, each with one of the ports and one of the seats.
fn make_others<J: Naming>(
    alloc: Global,
    count: u32,
    ports: &mut Vec<Port>,
    seats: &mut Vec<Seat<J>>,
) -> Result<Vec<Client<J>>, StormFault>
    ensures { IfOk result
        (λ others. (name : Name) → ArePortsOf name count ports.old.items → AreNew name count others.items) }
{
    let mut others = Vec::new(alloc);
    for made in 0..count {
        let client = next_client(alloc, made + 1, ports, seats)?;
        others.push(client)?;
    }
    Ok(others)
}

impl<J: Naming> Clients<J> {
    /// The clients of a storm, on the ports of a server.
    pub fn new(
        alloc: Global,
        count: u32,
        ports: &mut Vec<Port>,
        seats: &mut Vec<Seat<J>>,
    ) -> Result<Clients<J>, StormFault>
        ensures { IfOk result
            (λ clients. (name : Name) → ArePortsOf name (count + 1) ports.old.items → AreReady name count clients) }
    {
        let first = next_client(alloc, 100, ports, seats)?;
        match make_others(alloc, count, ports, seats) {
            Ok(others) => Ok(Clients { first, others }),
            Err(fault) => {
                drop(first);
                Err(fault)
            }
        }
    }
}

/// All others make their transfers at once, each in a thread of its own.
fn create_transfers<J: Naming + Send + Sync, R: Threads + Wait + Sync>(
    rt: &R,
    stage: &Stage,
    others: &mut [Client<J>],
    transfers: u32,
)
    requires { transfers ≤ 1000 }
    ensures { MakeTransfers J.opening transfers others.old others.new }
{
    let threads = others.len().max(1);
    thread::for_each_mut(
        rt,
        others,
        threads,
        &|_, client: &mut Client<J>| { client.create_transfers(rt, stage, transfers) },
    );
}

/// Once the server has begun, the first client makes the accounts.
fn create_accounts<J: Naming, R: Wait>(rt: &R, stage: &Stage, first: &mut Client<J>, clients: u32)
    ensures { first.new.fault ≡ None → Plays J.opening (accounts_call clients) 1 first.old first.new }
{
    if stage.has_begun(rt) {
        first.create_accounts(rt, stage, clients);
    } else {
        first.give_up();
    }
}

/// The first client makes the accounts, and then all others their transfers.
fn create_all<J: Naming + Send + Sync, R: Threads + Wait + Sync>(
    rt: &R,
    stage: &Stage,
    clients: &mut Clients<J>,
    scale: Scale,
)
    ensures { (service : Name) → AreReady service scale.clients clients.old
        → HaveMade J.opening service scale.clients scale.transfers clients.new }
{
    create_accounts(rt, stage, &mut clients.first, scale.clients);
    if clients.first.fault.is_none() {
        create_transfers(rt, stage, clients.others.as_mut_slice(), scale.transfers);
    }
}

/// Closes the ports of clients.
fn close_each<J: Naming, R: Wait>(rt: &R, clients: &mut [Client<J>])
    ensures { AreClosed clients.old clients.new }
{
    for client in clients.iter_mut() {
        client.close(rt);
    }
}

/// The clients of a storm make all their calls, and close their ports.
pub(crate) fn play_all<J: Naming + Send + Sync, R: Threads + Wait + Sync>(
    rt: &R,
    stage: &Stage,
    mut clients: Clients<J>,
    scale: Scale,
) -> Clients<J>
    ensures { (service : Name) → AreReady service scale.clients clients
        → HaveMade J.opening service scale.clients scale.transfers result }
{
    create_all(rt, stage, &mut clients, scale);
    clients.first.close(rt);
    close_each(rt, clients.others.as_mut_slice());
    clients
}

/// Takes in the port of a client. NoCopy if the copies do not show all that its seat has seen.
fn take_in<J: Naming>(finished: &mut Finished<J>, client: &mut Client<J>) -> Result<(), StormFault>
    requires { IfSome (port_of client.old.line) (λ port. port.service ≡ finished.old.service) }
    ensures same { finished.new ≡ finished.old }
    ensures served { OnOk result (IsConcluded finished.old client.old) }
{
    let Line::Closed(closed) = mem::replace(&mut client.line, Line::Gone) else {
        return Err(StormFault::NoPlace);
    };
    match finished.offered_by(closed) {
        Ok(places) => drop(places),
        Err(back) => {
            drop(back);
            return Err(StormFault::NoMemory);
        }
    }
    if finished.publisher.beside(&client.seat) {
        Ok(())
    } else {
        Err(StormFault::NoCopy)
    }
}

/// Takes in the ports of clients.
fn take_in_each<J: Naming>(
    finished: &mut Finished<J>,
    clients: &mut [Client<J>],
) -> Result<(), StormFault>
    requires { AreOfService finished.old.service clients.old }
    ensures same { finished.new ≡ finished.old }
    ensures served { OnOk result (AreServedBy finished.old clients.old) }
{
    for client in clients.iter_mut() {
        if let Err(fault) = take_in(finished, client) {
            return Err(fault);
        }
    }
    Ok(())
}

/// Takes in the ports of all clients, none of which met a fault.
pub(crate) fn take_in_all<J: Naming>(
    finished: &mut Finished<J>,
    clients: &mut Clients<J>,
    scale: Scale,
) -> Result<(), StormFault>
    requires made { HaveMade J.opening finished.old.service scale.clients scale.transfers clients.old }
    requires first { clients.old.first.fault ≡ None }
    requires others { HaveNoFault clients.old.others.items }
    ensures same { finished.new ≡ finished.old }
    ensures left { OnOk result (AreLeft J.opening finished.old scale.clients scale.transfers) }
{
    if let Err(fault) = take_in(finished, &mut clients.first) {
        return Err(fault);
    }
    take_in_each(finished, clients.others.as_mut_slice())
}
