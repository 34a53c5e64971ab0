//! The accounts that the next requests need are searched for before the first of them is entered. The searches are
//! interleaved, so that waits for memory overlap. The machine stays.
ghost use Rattle.std.specs.Prelude.{◌≡◌};

use std::alloc::Global;
use tb_machine::{Entry, Machine};
use tb_records::{Body, Request};

/// The accounts of a request's first transfer; 0 if it has no transfer.
fn accounts_of(request: Option<&Request>) -> (u128, u128) {
    let Some(request) = request else {
        return (0, 0);
    };
    let Body::CreateTransfers(transfers) = request.body() else {
        return (0, 0);
    };
    match transfers.as_slice().first() {
        Some(transfer) => (transfer.debit_account_id, transfer.credit_account_id),
        None => (0, 0),
    }
}

/// The accounts of four requests.
fn accounts_of_four(four: [Option<&Request>; 4]) -> [u128; 8] {
    let [a, b, c, d] = four;
    let (a, b) = (accounts_of(a), accounts_of(b));
    let (c, d) = (accounts_of(c), accounts_of(d));
    [a.0, a.1, b.0, b.1, c.0, c.1, d.0, d.1]
}

/// The request of an entry.
fn request_of(entry: Option<&Entry>) -> Option<&Request> {
    match entry {
        Some(entry) => Some(&entry.request),
        None => None,
    }
}

/// The accounts of an entry and of the first three after it.
pub(crate) fn accounts_of_entries(first: &Entry, later: &[Entry]) -> [u128; 8] {
    accounts_of_four([
        Some(&first.request),
        request_of(later.first()),
        request_of(later.get(1)),
        request_of(later.get(2)),
    ])
}

/// Brings the accounts of the first four requests into the cache. A single request is not searched for: its own searches
/// overlap.
fn touch_four(machine: &mut Machine<Global>, requests: &[Request])
    ensures { machine.new ≡ machine.old }
{
    if requests.len() < 2 {
        return;
    }
    machine.touch(&accounts_of_four([
        requests.first(),
        requests.get(1),
        requests.get(2),
        requests.get(3),
    ]));
}

/// Brings the accounts of the first eight requests into the cache, if accounts are many.
pub(crate) fn touch_eight(machine: &mut Machine<Global>, requests: &[Request])
    ensures { machine.new ≡ machine.old }
{
    if !machine.has_many_accounts() {
        return;
    }
    touch_four(machine, requests);
    if let Some((_, later)) = requests.split_at_checked(4) {
        touch_four(machine, later);
    }
}
