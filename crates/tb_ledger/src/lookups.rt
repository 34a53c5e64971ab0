//! Lookups of many ids, eight at a time: their searches are interleaved, so that their waits for memory overlap.
ghost use Rattle.std.specs.Prelude.{◌≡◌, ◌+◌, ◌≤◌, ◌++◌, length, vec_len, vec_capacity};
ghost use Rattle.std.specs.List.{filter_map};
ghost use Rattle.std.specs.Option.{option_copied, option_map};
ghost use Rattle.tb_ledger.specs.private.Lookups.{found_in};

use crate::tables::accounts::AccountRow;
use crate::tables::map::{Keyed, Table};
use crate::tables::transfers::TransferRow;
use std::alloc::Allocator;
use tb_records::{Account, Transfer};

/// A row that a lookup returns as a record.
pub trait Found: Keyed {
    type Record;

    ghost record_now: { Self → Self.Record };

    fn found(&self) -> Self::Record
        ensures { result ≡ record_now self.now };
}

/// An account is found as it is now.
impl Found for AccountRow {
    ghost use Rattle.tb_ledger.specs.Kept.{row_now};

    type Record = Account;

    ghost record_now = { row_now };

    fn found(&self) -> Account {
        self.as_it_stands()
    }
}

/// A transfer is found as it was recorded.
impl Found for TransferRow {
    type Record = Transfer;

    ghost record_now = { λ t. t.recorded };

    fn found(&self) -> Transfer {
        self.recorded()
    }
}

/// Appends the records of the rows that exist.
fn push_found<V: Found>(rows: &[Option<&V>], out: &mut Vec<V::Record>)
    requires { vec_len out.old + length rows.now ≤ vec_capacity out.old }
    ensures items { out.new.items
        ≡ out.old.items ++ filter_map (λ r. option_map V.record_now (option_copied r)) rows.now }
    ensures len { vec_len out.new ≤ vec_len out.old + length rows.now }
    ensures capacity { vec_capacity out.new ≡ vec_capacity out.old }
{
    for row in rows {
        if let Some(row) = row {
            out.push_reserved(row.found());
        }
    }
}

/// Appends the records of the ids by eights, and returns the ids that are left, fewer than eight.
fn fill_eights<'a, V: Found, A: Allocator + Clone>(
    table: &Table<V, A>,
    ids: &'a [u128],
    out: &mut Vec<V::Record>,
) -> &'a [u128]
    requires { vec_len out.old + length ids.now ≤ vec_capacity out.old }
    ensures items { let found = filter_map (found_in V.key V.record_now table.now.items) in
        out.new.items ++ found result.now ≡ out.old.items ++ found ids.now }
    ensures rest { vec_len out.new + length result.now ≤ vec_capacity out.new }
    ensures capacity { vec_capacity out.new ≡ vec_capacity out.old }
{
    let mut rest = ids;
    while let Some((eight, later)) = rest.split_first_chunk::<8>() {
        push_found(&table.get_many(eight), out);
        rest = later;
    }
    rest
}

/// Appends the records of the ids, in their order: an id without a row is skipped.
pub(crate) fn fill<V: Found, A: Allocator + Clone>(
    table: &Table<V, A>,
    ids: &[u128],
    out: &mut Vec<V::Record>,
)
    requires { vec_len out.old + length ids.now ≤ vec_capacity out.old }
    ensures items { out.new.items
        ≡ out.old.items ++ filter_map (found_in V.key V.record_now table.now.items) ids.now }
    ensures capacity { vec_capacity out.new ≡ vec_capacity out.old }
{
    let rest = fill_eights(table, ids, out);
    for id in rest {
        if let Some(row) = table.get(*id) {
            out.push_reserved(row.found());
        }
    }
}
