//! The steps of a machine: what a request does to the ledger, the body of its reply, and the row that keeps both.
ghost use Rattle.std.specs.Prelude.{◌≡◌, ◌+◌, ◌≤◌, max, length, OnOk, OnErr, ◌<◌, MatchResult, IsTrue, None, Some};
ghost use Rattle.tb_records.specs.Messages.{count, item_count, operation, IsRight};
ghost use Rattle.tb_records.specs.ReplyFrames.{reply_bytes, IsReply};
ghost use Rattle.tb_records.specs.declared.limits.TheConstants.{ITEMS_MAX, LAST_MOMENT};
ghost use Rattle.tb_records.specs.Ordered.{Each};
ghost use Rattle.tb_sessions.specs.Admission.{admitted};
ghost use Rattle.tb_sessions.specs.Judged.{class_of};
ghost use Rattle.tb_machine.specs.Histories.{executed, session_of, step, fits};
ghost use Rattle.tb_machine.specs.Judging.{IsDelivered, IfWhole, EntersAndReplies};
ghost use Rattle.tb_machine.specs.private.Serving.{made_entry, row_in, MayBeExecuted, DeliversReply, ExecutesBody, MakesRow, ServesPair, IfUnserved, reply_with};

use crate::entries::Entry;
use crate::machines::Machine;
use std::alloc::{AllocError, Allocator, Global};
use std::mem;
use tb_ledger::Ledger;
use tb_records::{
    Account, Body, FrameFault, Items, Reply, ReplyBody, Request, Sink, Status, Transfer, send_reply,
};
use tb_sessions::{Class, Row, Sessions};

/// What happened to the reply of a request that was executed.
#[derive(Clone, Copy)]
pub enum Delivery {
    /// It was written.
    Whole,
    /// The writer's fault left a prefix of it.
    Cut(FrameFault),
}

/// How a request was served that was to be executed by its client's row.
#[derive(Clone, Copy)]
pub(crate) enum Served {
    /// It was executed, and its reply was written or cut off.
    Executed(Delivery),
    /// There is no memory for it: nothing changed.
    NoMemory,
    /// It has this class and is not New there, or there is no time for it: nothing was called or changed.
    Unserved(Class),
}

impl<A: Allocator + Clone> Machine<A> {
    /// Enters an entry that may come next: its request is executed, and its client's row keeps the request and the
    /// reply. On a refusal the machine is unchanged.
    pub fn apply(&mut self, entry: &Entry) -> Result<(), AllocError>
        requires { IsTrue (fits self.old entry.now) }
        ensures { MatchResult result (λ _. self.new ≡ step self.old entry.now) (λ _. self.new ≡ self.old) }
    {
        let entry = entry.copy(self.global)?;
        self.enter(entry).map_err(|_| AllocError)
    }

    /// As `apply`, for an entry whose request moves into its client's row. A failed allocation returns the entry.
    pub fn enter(&mut self, entry: Entry) -> Result<(), Entry>
        requires { IsTrue (fits self.old entry) }
        ensures { MatchResult result (λ _. self.new ≡ step self.old entry)
            (λ back. (back ≡ entry) × (self.new ≡ self.old)) }
    {
        let commit = entry.commit;
        match row_for(self.global, &mut self.ledger, entry) {
            Ok(row) => {
                keep_row(&mut self.sessions, row);
                self.commit = commit;
                Ok(())
            }
            Err(entry) => Err(entry),
        }
    }

    /// Serves a request that comes at a moment, if it is New compared with its client's row: by one search of the sessions it is executed, the row
    /// keeps it and the reply, and the reply is written. Any other request gets its class, and so do a register of a client without a row and a
    /// request for which there is no time: nothing is called or changed then.
    pub(crate) fn serve_in_session<W: Sink>(
        &mut self,
        writer: &mut W,
        moment: u64,
        request: &mut Request,
    ) -> Served
        ensures served { ServesPair result self.old self.new (moment, request.old)
            (W.output writer.old) (W.output writer.new) }
        ensures unchanged { IfUnserved result (request.new ≡ request.old) }
    {
        let events = request.body().event_count() as u64;
        let Some(time) = self.next_time(moment, events) else {
            return Served::Unserved(self.class(request));
        };
        let commit = self.commit + 1;
        let global = self.global;
        let ledger = &mut self.ledger;
        let served = self.sessions.renew_with(
            request,
            &mut |request: &mut Request, row: &mut Row| {
                serve_row(global, ledger, writer, commit, time, request, row)
            },
        );
        match served {
            Ok(Ok(delivery)) => {
                self.commit = commit;
                Served::Executed(delivery)
            }
            Ok(Err(AllocError)) => Served::NoMemory,
            Err(class) => Served::Unserved(class),
        }
    }

    /// As `enter`, and writes the reply before its row is stored. If the writer failed, the entry has been entered all the same.
    pub fn enter_and_reply<W: Sink>(
        &mut self,
        writer: &mut W,
        entry: Entry,
    ) -> Result<Delivery, Entry>
        requires { IsTrue (fits self.old entry) }
        ensures { EntersAndReplies W.output result self.old self.new entry writer.old writer.new }
    {
        let commit = entry.commit;
        match row_for(self.global, &mut self.ledger, entry) {
            Ok(row) => {
                let delivery = write_reply(writer, &row.reply);
                keep_row(&mut self.sessions, row);
                self.commit = commit;
                Ok(delivery)
            }
            Err(entry) => Err(entry),
        }
    }
}

/// Creates accounts at a time, and returns the body of the reply; if an allocation fails the ledger is unchanged.
fn create_accounts<A: Allocator + Clone>(
    global: Global,
    ledger: &mut Ledger<A>,
    time: u64,
    events: &Items<Account>,
) -> Result<ReplyBody, AllocError>
    requires few { length events.now ≤ ITEMS_MAX }
    requires later { ledger.old.time + max (length events.now) 1 ≤ time }
    requires in_range { time ≤ LAST_MOMENT }
    ensures { ExecutesBody result ledger.old (Body.CreateAccounts events.now) time ledger.new }
{
    let results = ledger.create_accounts(global, time, events.as_slice())?;
    Ok(ReplyBody::Results(Items::new(results)))
}

/// Creates transfers at a time, and returns the body of the reply; if an allocation fails the ledger is unchanged.
fn create_transfers<A: Allocator + Clone>(
    global: Global,
    ledger: &mut Ledger<A>,
    time: u64,
    events: &Items<Transfer>,
) -> Result<ReplyBody, AllocError>
    requires few { length events.now ≤ ITEMS_MAX }
    requires later { ledger.old.time + max (length events.now) 1 ≤ time }
    requires in_range { time ≤ LAST_MOMENT }
    ensures { ExecutesBody result ledger.old (Body.CreateTransfers events.now) time ledger.new }
{
    let results = ledger.create_transfers(global, time, events.as_slice())?;
    Ok(ReplyBody::Results(Items::new(results)))
}

/// Looks accounts up at a time, and returns the body of the reply; if an allocation fails the ledger is unchanged.
fn look_accounts_up<A: Allocator + Clone>(
    global: Global,
    ledger: &mut Ledger<A>,
    time: u64,
    ids: &Items<u128>,
) -> Result<ReplyBody, AllocError>
    requires later { ledger.old.time < time }
    requires in_range { time ≤ LAST_MOMENT }
    ensures { ExecutesBody result ledger.old (Body.LookupAccounts ids.now) time ledger.new }
{
    let mut accounts = Vec::with_capacity(global, ids.len())?;
    ledger.expire(time);
    ledger.fill_accounts(ids.as_slice(), &mut accounts);
    Ok(ReplyBody::Accounts(Items::new(accounts)))
}

/// Looks transfers up at a time, and returns the body of the reply; if an allocation fails the ledger is unchanged.
fn look_transfers_up<A: Allocator + Clone>(
    global: Global,
    ledger: &mut Ledger<A>,
    time: u64,
    ids: &Items<u128>,
) -> Result<ReplyBody, AllocError>
    requires later { ledger.old.time < time }
    requires in_range { time ≤ LAST_MOMENT }
    ensures { ExecutesBody result ledger.old (Body.LookupTransfers ids.now) time ledger.new }
{
    let mut transfers = Vec::with_capacity(global, ids.len())?;
    ledger.expire(time);
    ledger.fill_transfers(ids.as_slice(), &mut transfers);
    Ok(ReplyBody::Transfers(Items::new(transfers)))
}

/// Executes a body at a time, and returns the body of its reply; if an allocation fails the ledger is unchanged.
pub(crate) fn execute<A: Allocator + Clone>(
    global: Global,
    ledger: &mut Ledger<A>,
    time: u64,
    body: &Body,
) -> Result<ReplyBody, AllocError>
    requires few { item_count body.now ≤ ITEMS_MAX }
    requires later { ledger.old.time + max (count body.now) 1 ≤ time }
    requires in_range { time ≤ LAST_MOMENT }
    ensures { ExecutesBody result ledger.old body.now time ledger.new }
{
    match body {
        Body::Register => {
            ledger.expire(time);
            Ok(ReplyBody::Empty)
        }
        Body::CreateAccounts(events) => create_accounts(global, ledger, time, events),
        Body::CreateTransfers(events) => create_transfers(global, ledger, time, events),
        Body::LookupAccounts(ids) => look_accounts_up(global, ledger, time, ids),
        Body::LookupTransfers(ids) => look_transfers_up(global, ledger, time, ids),
    }
}

/// The session that a request belongs to: for a register this is its own commit number.
fn session_of(request: &Request, commit: u64) -> u64
    ensures { let e : Entry = record { commit = commit; time = 0; request = request.now } in result ≡ session_of e }
{
    if matches!(request.body(), Body::Register) {
        commit
    } else {
        request.session()
    }
}

/// The reply to a request that has a commit number.
#[inline(always)]
fn reply_with(request: &Request, commit: u64, body: ReplyBody) -> Reply
    requires { let e : Entry = record { commit = commit; time = 0; request = request.now } in
        IsRight (reply_with e body) }
    ensures { let e : Entry = record { commit = commit; time = 0; request = request.now } in
        result ≡ reply_with e body }
{
    let reply = Reply::new(
        request.client(),
        session_of(request, commit),
        request.request(),
        request.operation(),
        Status::Reply,
        commit,
        body,
    );
    let Ok(reply) = reply else { unreachable!() };
    reply
}

/// Executes an entry's request, and makes the row that its client's session gets: the request moves into it, next to the reply. If an allocation
/// fails the entry is returned and the ledger is unchanged.
pub(crate) fn row_for<A: Allocator + Clone>(
    global: Global,
    ledger: &mut Ledger<A>,
    entry: Entry,
) -> Result<Row, Entry>
    requires { MayBeExecuted ledger.old entry }
    ensures { MakesRow result ledger.old entry ledger.new }
{
    let body = match execute(global, ledger, entry.time, entry.request.body()) {
        Ok(body) => body,
        Err(AllocError) => return Err(entry),
    };
    let reply = reply_with(&entry.request, entry.commit, body);
    let Entry {
        commit,
        request,
        ..
    } = entry;
    Ok(Row {
        client: request.client(),
        session: reply.session(),
        request,
        reply,
        commit,
    })
}

/// Keeps a row, and frees the one that leaves for it.
#[inline(always)]
fn keep_row(sessions: &mut Sessions, row: Row)
    requires of_client { row.request.client ≡ row.client }
    requires new { class_of sessions.old.rows row.request ≡ Class.New }
    requires later { Each (λ (other : Row). other.commit < row.commit) sessions.old.rows }
    ensures { sessions.new
        ≡ record sessions.old { rows = admitted sessions.old.clients_max sessions.old.rows row } }
{
    drop(sessions.record(row));
}

/// Writes a reply.
fn write_reply<W: Sink>(writer: &mut W, reply: &Reply) -> Delivery
    ensures sent { IsDelivered result (reply_bytes reply.now) (W.output writer.old) (W.output writer.new) }
    ensures fits { IfWhole result (IsReply reply.now) }
{
    match send_reply(writer, reply) {
        Ok(()) => Delivery::Whole,
        Err(fault) => Delivery::Cut(fault),
    }
}

/// Executes a request that is New compared with its client's row, puts it and its reply into the row, and writes the reply. The row's old request is
/// then in the place of the request. If an allocation fails everything is as it was.
///
/// The request and its row are changed in place, because some 250 bytes would otherwise be moved three times.
pub(crate) fn serve_row<A: Allocator + Clone, W: Sink>(
    global: Global,
    ledger: &mut Ledger<A>,
    writer: &mut W,
    commit: u64,
    time: u64,
    request: &mut Request,
    row: &mut Row,
) -> Result<Delivery, AllocError>
    requires { MayBeExecuted ledger.old (made_entry commit time request.old) }
    ensures books { OnOk result (ledger.new ≡ executed ledger.old request.old.body time) }
    ensures row { OnOk result (row.new ≡ row_in ledger.old (made_entry commit time request.old)) }
    ensures delivery { DeliversReply result (row_in ledger.old (made_entry commit time request.old)).reply (W.output writer.old)
        (W.output writer.new) }
    ensures same_row { OnErr result (row.new ≡ row.old) }
    ensures same_ledger { OnErr result (ledger.new ≡ ledger.old) }
    ensures same_request { OnErr result (request.new ≡ request.old) }
    ensures same_writer { OnErr result (writer.new ≡ writer.old) }
{
    let body = execute(global, ledger, time, request.body())?;
    let reply = reply_with(request, commit, body);
    let delivery = write_reply(writer, &reply);
    row.client = request.client();
    row.session = reply.session();
    row.commit = commit;
    row.reply = reply;
    mem::swap(&mut row.request, request);
    Ok(delivery)
}
