//! The sessions of the clients: at most one for each client, and at most so many in all.
ghost use Rattle.std.specs.Prelude.{◌≡◌, ◌≢◌, ◌<◌, ◌≤◌, true, false, if◌then◌else◌, IfOk, IfErr, OnOk, OnErr, MatchOption, IfSome, Some, None, [], length};
ghost use Rattle.std.specs.Option.{option_map, IfNone};
ghost use Rattle.tb_records.specs.Messages.{is_register};
ghost use Rattle.tb_records.specs.Ordered.{Each, put, taken_out};
ghost use Rattle.tb_sessions.specs.Judged.{class_beside, class_of, client_of, row_of, GetsClass};
ghost use Rattle.tb_sessions.specs.Admission.{admitted, driven_out, leaving, oldest};
ghost use Rattle.tb_sessions.specs.private.Indexed.{ExchangesSession};
ghost use Rattle.tb_sessions.specs.private.Serving.{TakesKept, ServedKept, Unserved};
ghost use Rattle.tb_sessions.specs.Renewal.{MayServe, Renews, CalledBeside, ServedBy, TakesBoth};

use crate::classes::Class;
use crate::eviction::bring_up;
use crate::rows::Row;
use avl_tree::AvlMap;
use std::alloc::{AllocError, Global};
use std::marker::Model;
use tb_records::{Body, ClientsMax, Request};

/// The sessions of the clients, with capacity for the greatest number of them.
#[derive(Drop)]
pub struct Sessions {
    clients_max: usize,
    /// The rows by client.
    rows: AvlMap<u128, Row, Global>,
    /// The clients, each by its row's commit or by one that its row had before. In a full table the first is at its row's.
    clients: AvlMap<u64, u128, Global>,
}

impl Model for Sessions {
    ghost use Rattle.std.specs.Map.{values_of};
    ghost use Rattle.avl_tree.specs.Map.{entries};
    ghost use Rattle.tb_sessions.specs.Admission.{Table};
    ghost use Rattle.tb_sessions.specs.private.Indexed.{FindsOldest};

    ghost Value = { Table };

    ghost view = { λ s. record { clients_max = s.clients_max; rows = values_of (entries s.rows) } };

    ghost invariant = { λ s. FindsOldest s.clients_max s.rows s.clients };
}

/// How a request of a client without a session relates to the sessions.
fn class_alone(request: &Request) -> Class
    ensures { result ≡ (if is_register request.now.body then Class.New else Class.NoSession) }
{
    if matches!(request.body(), Body::Register) {
        Class::New
    } else {
        Class::NoSession
    }
}

/// Calls the closure with a request and its client's row, if the request is New compared with it; otherwise returns the class.
fn serve_new<R, F: FnMut(&mut Request, &mut Row) -> R>(
    row: &mut Row,
    request: &mut Request,
    serve: &mut F,
) -> Result<R, Class>
    requires callable { class_beside row.old request.old ≡ Class.New
        → TakesBoth F.FnMut serve.old request.old row.old }
    ensures new { OnOk result (class_beside row.old request.old ≡ Class.New) }
    ensures served { IfOk result
        (λ answer. CalledBeside F.FnMut serve.old request.old row.old answer serve.new request.new row.new) }
    ensures told { IfErr result
        (λ class. (class ≡ class_beside row.old request.old) × (class ≢ Class.New)) }
    ensures same_row { OnErr result (row.new ≡ row.old) }
    ensures unchanged { OnErr result ((request.new ≡ request.old) × (serve.new ≡ serve.old)) }
{
    match row.class_beside(request) {
        Class::New => Ok(serve(request, row)),
        class => Err(class),
    }
}

/// Serves a request by the row of its client, as `serve_new`; `None` if the client has no row.
#[inline(always)]
fn serve_by_client<R, F: FnMut(&mut Request, &mut Row) -> R>(
    rows: &mut AvlMap<u128, Row, Global>,
    request: &mut Request,
    serve: &mut F,
) -> Option<Result<R, Class>>
    requires callable { TakesKept F.FnMut serve.old rows.old request.old }
    ensures served { IfSome result
        (λ answer. ServedKept F.FnMut rows.old serve.old request.old answer rows.new serve.new request.new) }
    ensures absent { IfNone result
        (Unserved F.FnMut rows.old serve.old request.old rows.new serve.new request.new) }
    ensures spare { rows.new.spare ≡ rows.old.spare }
{
    let client = request.client();
    rows.update(
        &client,
        &mut |row: &mut Row| { serve_new(row, request, serve) },
    )
}

impl Sessions {
    /// A table without sessions, with capacity for those of so many clients.
    pub fn with_capacity(alloc: Global, clients_max: ClientsMax) -> Result<Sessions, AllocError>
        ensures { IfOk result (λ s. s ≡ record { clients_max = clients_max; rows = [] }) }
    {
        let clients_max = clients_max.get() as usize;
        let mut rows = AvlMap::new_in(alloc);
        rows.reserve(clients_max)?;
        let mut clients = AvlMap::new_in(alloc);
        clients.reserve(clients_max)?;
        Ok(Sessions {
            clients_max,
            rows,
            clients,
        })
    }

    /// The row of a client; `None` for a client without a session.
    pub fn stored(&self, client: u128) -> Option<&Row>
        ensures { MatchOption result (row_of self.now.rows client ≡ None)
            (λ row. row_of self.now.rows client ≡ Some row.now) }
    {
        self.rows.get(&client)
    }

    /// How a request relates to the sessions: New if it is to be executed, Repeat if it gets the stored reply, otherwise why it is refused.
    pub fn classify(&self, request: &Request) -> Class
        ensures { result ≡ class_of self.now.rows request.now }
    {
        match self.stored(request.client()) {
            Some(row) => row.class_beside(request),
            None => class_alone(request),
        }
    }

    /// The client whose session ends if a client without one registers: the one whose last reply has the least commit number; `None` if the table is
    /// not full.
    pub fn evictee(&self) -> Option<u128>
        ensures { result ≡ option_map client_of (driven_out self.now.clients_max self.now.rows) }
    {
        if self.rows.len() < self.clients_max {
            return None;
        }
        match self.clients.first() {
            Some((_, client)) => Some(*client),
            None => None,
        }
    }

    /// Adds a row, and returns the row that leaves: the client's own; or, if the client has no row and the table is full, the row of least commit.
    /// The row is one of a request that is New here, with a later commit than any row here.
    ///
    /// It is inlined into its callers, so that a row is not copied on its way in and out.
    #[inline(always)]
    pub fn record(&mut self, row: Row) -> Option<Row>
        requires of_client { row.request.client ≡ row.client }
        requires new { class_of self.old.rows row.request ≡ Class.New }
        requires later { Each (λ (other : Row). other.commit < row.commit) self.old.rows }
        ensures table { self.new ≡ record self.old { rows = admitted self.old.clients_max self.old.rows row } }
        ensures left { result ≡ leaving self.old.clients_max self.old.rows row }
    {
        let mut row = row;
        if self.renew(&mut row) {
            return Some(row);
        }
        let gone = if self.rows.len() < self.clients_max {
            None
        } else {
            Some(self.drive_out())
        };
        self.put_in(row);
        gone
    }

    /// Serves a request that is New compared with its client's row: the closure is called once, with the request and the row, and may put a later row
    /// of the client in its place. Any other request, and one of a client without a row, gets its class, and nothing is called or changed. The
    /// closure is borrowed, so that the caller has the state that the call left it in.
    ///
    /// It is inlined into its callers, as `record` does.
    #[inline(always)]
    pub fn renew_with<R, F: FnMut(&mut Request, &mut Row) -> R>(
        &mut self,
        request: &mut Request,
        serve: &mut F,
    ) -> Result<R, Class>
        requires callable { MayServe F.FnMut serve.old self.old.rows request.old }
        requires renews { Renews F.FnMut serve.old self.old.rows request.old }
        ensures same_size { self.new.clients_max ≡ self.old.clients_max }
        ensures served { IfOk result
            (λ answer.
            ServedBy F.FnMut serve.old self.old.rows request.old answer serve.new request.new
            self.new.rows) }
        ensures told { IfErr result (GetsClass self.old.rows request.old) }
        ensures unchanged { OnErr result
            ((self.new ≡ self.old) × (request.new ≡ request.old) × (serve.new ≡ serve.old)) }
    {
        match serve_by_client(&mut self.rows, request, serve) {
            Some(Ok(answer)) => {
                bring_up(self.clients_max, &self.rows, &mut self.clients);
                Ok(answer)
            }
            Some(Err(class)) => Err(class),
            None => Err(class_alone(request)),
        }
    }

    /// Exchanges a row and that of its client, if the client has one, and returns whether it has.
    fn renew(&mut self, row: &mut Row) -> bool
        requires later { Each (λ (other : Row). other.commit < row.old.commit) self.old.rows }
        ensures renewed { result ≡ true → ExchangesSession self.old row.old self.new row.new }
        ensures absent { result ≡ false
            → (row.new ≡ row.old)
            × (row_of self.old.rows row.old.client ≡ None)
            × (self.new ≡ self.old) }
    {
        let client = row.client;
        if !self.rows.exchange(&client, row) {
            return false;
        }
        bring_up(self.clients_max, &self.rows, &mut self.clients);
        true
    }

    /// Removes the row of least commit.
    fn drive_out(&mut self) -> Row
        requires { self.old.clients_max ≤ length self.old.rows }
        ensures table { self.new
            ≡ record self.old { rows = taken_out client_of (client_of result) self.old.rows } }
        ensures left { oldest self.old.rows ≡ Some result }
        ensures capacity { length self.new.rows < length self.old.rows }
    {
        let Some((_, client)) = self.clients.pop_first() else {
            unreachable!()
        };
        let Some(row) = self.rows.remove(&client) else {
            unreachable!()
        };
        row
    }

    /// Adds a row next to those of other clients.
    fn put_in(&mut self, row: Row)
        requires absent { row_of self.old.rows row.client ≡ None }
        requires later { Each (λ (other : Row). other.commit < row.commit) self.old.rows }
        requires capacity { length self.old.rows < self.old.clients_max }
        ensures { self.new ≡ record self.old { rows = put client_of row self.old.rows } }
    {
        self.clients.insert_reserved(row.commit, row.client);
        self.rows.insert_reserved(row.client, row);
        bring_up(self.clients_max, &self.rows, &mut self.clients);
    }
}
