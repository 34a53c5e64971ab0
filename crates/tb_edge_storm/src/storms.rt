//! A storm: the server's thread, the clients' threads, and the lines that report on them.
ghost use Rattle.std.specs.Prelude.{◌≡◌, ◌<◌, ◌≤◌, ◌+◌, [], None, length, IfOk};
ghost use mathlib.Core.List.{IsPrefix};
ghost use Rattle.tb_records.specs.Transport.{risen};
ghost use Rattle.tb_edge_commands.specs.ExitStatuses.{PrintsLine};
ghost use Rattle.tb_edge_storm.specs.declared.totals.Totals.{Totals};
ghost use Rattle.tb_edge_storm.specs.declared.faults.StormFault.{StormFault};
ghost use Rattle.tb_edge_storm.specs.private.Found.{CountsTransfers, replies_of, credited_after, Totaled, TotaledIn};
ghost use Rattle.tb_edge_storm.specs.Totals.{first_credits, AreTotals};
ghost use Rattle.tb_edge_storm.specs.private.Outcomes.{Concludes, fared};
ghost use Rattle.tb_service.specs.Names.{Name};
ghost use Rattle.tb_edge_storm.specs.private.Playing.{AreReady, EndsWell, HasRun, HaveMade, IsLearnt};
ghost use Rattle.tb_edge_storm.specs.Storms.{storm_exit_status, storm_line, WritesLines, PrintsOutcome, StormExits};

use crate::clients::Client;
use crate::faults::StormFault;
use crate::outcomes::{answered, conclude, first_fault};
use crate::playing::{Clients, play_all, take_in_all};
use crate::scale::Scale;
use crate::stage::Stage;
use crate::totals::{Totals, lines_of};
use std::alloc::{AllocError, Global};
use std::marker::Brand;
use std::sync::Wait;
use std::thread::{self, Threads};
use tb_published::{Naming, Opening, Publisher, Seat, SeatCount, open};
use tb_records::{Account, CLIENTS_MAX, ClientsMax, Profile, Sink, put_all};
use tb_service::{Finished, Gate, Moments, Open, PortCount, Server, service};

/// Moments 1, 2, 3 and so on.
#[derive(Drop)]
struct Ticks(u64);

impl Moments for Ticks {
    ghost tells = { λ before moment after. (after.0 ≡ risen before.0) × (moment ≡ after.0) };

    fn now(&mut self) -> u64 {
        self.0 = self.0.saturating_add(1);
        self.0
    }
}

/// The fault that is reported for the clients.
fn fared<J: Naming>(first: Option<StormFault>, others: &[Client<J>]) -> Option<StormFault>
    ensures { result ≡ fared first others.now }
{
    let mut fared = first;
    for client in others {
        fared = first_fault(fared, client.fault);
    }
    fared
}

/// How many of the transfers with these ids a seat finds, and after how many entries.
fn count_transfers<J: Naming>(seat: &mut Seat<J>, ids: &[u128]) -> Result<(u64, usize), StormFault>
    ensures begins { IsPrefix seat.old seat.new }
    ensures found { IfOk result (λ found. CountsTransfers J.opening seat.new ids.now found.0 found.1) }
{
    let (seen, transfers) = seat.lookup_transfers(ids)?;
    Ok((seen, transfers.len()))
}

/// What the first of the accounts was credited with; 0 if there is no account.
fn first_credits(accounts: &[Account]) -> u128
    ensures { result ≡ first_credits accounts.now }
{
    match accounts {
        [account, ..] => account.credits_posted,
        [] => 0,
    }
}

/// What account 1000 was credited with, as a seat finds it.
fn credited<J: Naming>(seat: &mut Seat<J>) -> Result<u128, StormFault>
    ensures begins { IsPrefix seat.old seat.new }
    ensures found { IfOk result (λ credited. credited ≡ credited_after J.opening seat.new) }
{
    let (_, accounts) = seat.lookup_accounts(&[1000])?;
    Ok(first_credits(accounts.as_slice()))
}

/// How many entries the history has, if that is as many as a seat has seen. NoCopy if the copies do not show all of them.
fn commits_seen<J: Naming>(
    publisher: &Publisher<J>,
    seat: &Seat<J>,
    seen: u64,
) -> Result<usize, StormFault>
    ensures history { IfOk result (λ _. IsPrefix seat.now publisher.now.history) }
    ensures commits { IfOk result (λ commits. commits ≡ length publisher.now.history) }
    ensures whole { IfOk result (λ commits. seen ≡ commits) }
{
    let commits = publisher.history().len();
    if !publisher.beside(seat) || seen != commits as u64 {
        return Err(StormFault::NoCopy);
    }
    Ok(commits)
}

/// What the first client's seat finds once it has learnt all. NoCopy if the copies do not show the whole history.
#[tactic(auto, using(crate::proofs::SeatAnswers::totaled, crate::proofs::SeatAnswers::learnt))]
fn totals_of<J: Naming>(
    alloc: Global,
    publisher: &Publisher<J>,
    seat: &mut Seat<J>,
    scale: Scale,
) -> Result<Totals, StormFault>
    ensures begins { IsPrefix seat.old seat.new }
    ensures learnt { IsPrefix publisher.now.shown seat.new }
    ensures totals { IfOk result
        (Totaled J.opening scale.clients scale.transfers publisher.now.history) }
{
    let told = publisher.tell();
    seat.learn(&told);
    drop(told);
    let ids = scale.ids(alloc)?;
    let found = count_transfers(seat, ids.as_slice());
    drop(ids);
    let (seen, transfers) = found?;
    let credited = credited(seat)?;
    let commits = commits_seen(publisher, seat, seen)?;
    Ok(Totals {
        commits,
        transfers,
        credited,
    })
}

/// What is reported for a storm whose server has finished, before its ports are taken in.
fn report<J: Naming>(
    alloc: Global,
    finished: &Finished<J>,
    clients: &mut Clients<J>,
    scale: Scale,
) -> Result<Totals, StormFault>
    ensures told { Concludes (replies_of scale.clients scale.transfers) finished.now.ended
        (fared clients.old.first.fault clients.old.others.items) result }
    ensures totals { IfOk result
        (Totaled J.opening scale.clients scale.transfers finished.now.publisher.history) }
    ensures enough { IfOk result
        (λ totals. replies_of scale.clients scale.transfers ≤ totals.commits) }
    ensures well { IfOk result (λ _. fared clients.old.first.fault clients.old.others.items ≡ None) }
    ensures learnt { IsLearnt clients.old clients.new }
{
    let found = totals_of(alloc, &finished.publisher, &mut clients.first.seat, scale);
    answered(
        scale.replies(),
        conclude(
            finished.ended,
            fared(clients.first.fault, clients.others.as_slice()),
            found,
        ),
    )
}

/// What is reported for a storm whose server has finished, once its ports are taken in.
fn settle<J: Naming>(
    alloc: Global,
    finished: &mut Finished<J>,
    clients: &mut Clients<J>,
    scale: Scale,
) -> Result<Totals, StormFault>
    requires { HaveMade J.opening finished.old.service scale.clients scale.transfers clients.old }
    ensures same { finished.new ≡ finished.old }
    ensures well { IfOk result (EndsWell J.opening scale.clients scale.transfers finished.old) }
{
    let totals = match report(alloc, finished, clients, scale) {
        Ok(totals) => totals,
        Err(fault) => return Err(fault),
    };
    if let Err(fault) = take_in_all(finished, clients, scale) {
        return Err(fault);
    }
    Ok(totals)
}

/// Serves what the ports offer, until each of them is closed or memory runs out.
fn serve<J: Naming, R: Wait, W: Wait + Drop, M: Moments + Drop, G: Gate + Drop>(
    rt: &R,
    stage: &Stage,
    server: Server<J, W, M, G>,
) -> Finished<J>
    ensures run { HasRun server.port_count server.state.history result }
    ensures same { result.service ≡ server.service }
{
    stage.begin();
    let finished = server.run(rt);
    stage.end();
    finished
}

/// The storm over a server, whose clients these are.
fn storm_with<J: Naming + Send + Sync, R: Threads + Wait + Sync>(
    rt: &R,
    alloc: Global,
    server: Server<J, &R, Ticks, Open>,
    clients: Clients<J>,
    scale: Scale,
) -> Result<Totals, StormFault>
    requires begins { server.state.history ≡ [] }
    requires ports { server.port_count ≡ scale.clients + 1 }
    requires ready { AreReady server.service scale.clients clients }
    ensures { IfOk result (TotaledIn J.opening scale.clients scale.transfers) }
{
    let stage = &Stage::new();
    let (mut finished, mut clients) = thread::join(
        rt,
        move || -> Finished<J>
            ensures run { HasRun server.entry.port_count server.entry.state.history result }
            ensures same { result.service ≡ server.entry.service }
        { serve(rt, stage, server) },
        move || -> Clients<J>
            ensures { (service : Name) → AreReady service scale.clients clients
                → HaveMade J.opening service scale.clients scale.transfers result }
        { play_all(rt, stage, clients, scale) },
    );
    let told = settle(alloc, &mut finished, &mut clients, scale);
    drop(clients);
    drop(finished.close(rt));
    told
}

/// The storm over a publisher and its seats.
fn storm_over<J: Naming + Send + Sync, R: Threads + Wait + Sync>(
    rt: &R,
    alloc: Global,
    publisher: Publisher<J>,
    seats: &mut Vec<Seat<J>>,
    count: PortCount,
    scale: Scale,
) -> Result<Totals, StormFault>
    requires begins { publisher.history ≡ [] }
    requires count { count ≡ scale.clients + 1 }
    ensures { IfOk result (TotaledIn J.opening scale.clients scale.transfers) }
{
    let Ok((server, mut ports)) = service(alloc, publisher, rt, count, Ticks(0), Open) else {
        return Err(StormFault::NoMemory);
    };
    let made = Clients::new(alloc, scale.clients, &mut ports, seats);
    drop(ports);
    match made {
        Ok(clients) => storm_with(rt, alloc, server, clients, scale),
        Err(fault) => {
            drop(server);
            Err(fault)
        }
    }
}

/// The storm of an opening.
fn storm_in<J: Naming + Send + Sync, R: Threads + Wait + Sync>(
    rt: &R,
    alloc: Global,
    opening: Opening,
    scale: Scale,
) -> Result<Totals, StormFault>
    requires { opening ≡ J.opening }
    ensures { IfOk result (TotaledIn opening scale.clients scale.transfers) }
{
    let count = scale.clients + 1;
    let (Some(seats), Some(ports)) = (SeatCount::new(count), PortCount::new(count)) else {
        return Err(StormFault::NoPlace);
    };
    let (publisher, mut seats) = open::<J, R>(alloc, rt, opening, seats)?;
    let told = storm_over(rt, alloc, publisher, &mut seats, ports, scale);
    drop(seats);
    told
}

/// The storm of profile 1 and the largest number of clients with a session.
#[tactic(auto, using(crate::proofs::SeatAnswers::are_totals))]
fn play<R: Threads + Wait + Sync>(rt: &R, alloc: Global, scale: Scale) -> Result<Totals, StormFault>
    ensures { IfOk result (AreTotals scale.clients scale.transfers) }
{
    let Some(clients_max) = ClientsMax::new(CLIENTS_MAX) else {
        return Err(StormFault::NoPlace);
    };
    let opening = Opening::new(Profile::One, clients_max);
    storm_in::<Brand, R>(rt, alloc, opening, scale)
}

/// The exit status of a fault, whose line is reported.
fn refuse<E: Sink>(fault: StormFault, faults: &mut E) -> u8
    ensures exit_status { result ≡ storm_exit_status fault }
    ensures line { PrintsLine (storm_line fault) (E.output faults.old) (E.output faults.new) }
    ensures failing { 0 < result }
{
    fault.print(faults);
    fault.exit_status()
}

/// Writes the lines of a storm, and returns the exit status.
fn write_lines<W: Sink, E: Sink>(lines: &[u8], writer: &mut W, faults: &mut E) -> u8
    ensures quiet { result ≡ 0 → faults.new ≡ faults.old }
    ensures written { WritesLines lines.now result (W.output writer.old) (W.output writer.new) (E.output faults.old)
        (E.output faults.new) }
{
    match put_all(writer, lines) {
        Ok(()) => 0,
        Err(_) => refuse(StormFault::Device, faults),
    }
}

/// Reports on a storm that was played: writes the lines of its totals, or reports its fault. Returns the exit status.
fn print_outcome<W: Sink, E: Sink>(
    alloc: Global,
    clients: u32,
    played: Result<Totals, StormFault>,
    writer: &mut W,
    faults: &mut E,
) -> u8
    ensures quiet { result ≡ 0 → faults.new ≡ faults.old }
    ensures ends { PrintsOutcome clients played result (W.output writer.old) (W.output writer.new)
        (E.output faults.old) (E.output faults.new) }
{
    let totals = match played {
        Ok(totals) => totals,
        Err(fault) => return refuse(fault, faults),
    };
    match lines_of(alloc, clients, totals) {
        Ok(lines) => write_lines(lines.as_bytes(), writer, faults),
        Err(AllocError) => refuse(StormFault::NoMemory, faults),
    }
}

/// `clients` clients at once create `transfers` transfers each, and repeat requests that were answered. Returns the exit
/// status: 0 if it is done, and four lines report the totals; otherwise that of the fault, whose line goes to `faults`.
#[tactic(auto, using(crate::proofs::Ends::exits_of))]
pub fn storm<R: Threads + Wait + Sync, W: Sink, E: Sink>(
    rt: &R,
    alloc: Global,
    clients: u32,
    transfers: u32,
    writer: &mut W,
    faults: &mut E,
) -> u8
    requires few { clients ≤ 16 }
    requires short { transfers ≤ 1000 }
    ensures quiet { result ≡ 0 → faults.new ≡ faults.old }
    ensures ends { StormExits clients transfers result (W.output writer.old) (W.output writer.new) (E.output faults.old)
        (E.output faults.new) }
{
    let played = play(rt, alloc, Scale { clients, transfers });
    print_outcome(alloc, clients, played, writer, faults)
}
