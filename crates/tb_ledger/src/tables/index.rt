//! The row of a transfer that is recorded, and the index of expiries, which follows the rows of transfers.
ghost use Rattle.std.specs.Prelude.{◌≡◌, ◌-◌, ◌^◌, ◌<◌, ◌≤◌, ◌==◌, true, find, None, length, ◌+◌, ◌*◌};
ghost use Rattle.tb_ledger.specs.Books.{expires_at};
ghost use Rattle.tb_ledger.specs.Kept.{transfer_row_key, times_out, listed, CanList, new_transfer_row, timeout_of, unlisted};
ghost use Rattle.tb_ledger.specs.private.Timeouts.{AreTimeouts};
ghost use Rattle.tb_ledger.specs.private.UndoLog.{IsMarked};
ghost use Rattle.tb_records.specs.Ordered.{put, Rising};
ghost use Rattle.tb_records.specs.declared.limits.TheConstants.{AMOUNT_MAX, LAST_MOMENT};

use crate::tables::map::Table;
use crate::tables::timeouts::{Timeout, Timeouts};
use crate::tables::transfers::{State, TransferRow};
use crate::tables::work::{Undo, UndoLog};
use std::alloc::Allocator;
use tb_records::{NANOSECONDS_PER_SECOND, Transfer};

/// The row of a new transfer: a pending one is open.
pub(crate) fn new_transfer_row(recorded: Transfer) -> TransferRow
    requires plain { recorded.flags < 2 ^ 8 }
    ensures row { result ≡ new_transfer_row recorded }
    ensures fits { recorded.id ≤ AMOUNT_MAX }
{
    TransferRow::new(&recorded)
}

/// Adds the row of a transfer, and its timeout if it has one.
pub(crate) fn add_row<A: Allocator + Clone>(
    transfers: &mut Table<TransferRow, A>,
    timeouts: &mut Timeouts<A>,
    undo_log: &mut UndoLog<A>,
    row: &TransferRow,
)
    requires capacity { 0 < transfers.old.spare }
    requires log { length undo_log.old.changes < undo_log.old.capacity }
    requires fresh { find (λ t. t.recorded.id == row.now.recorded.id) transfers.old.items ≡ None }
    requires can_list { times_out row.now ≡ true → CanList row.now timeouts.old }
    ensures transfers { transfers.new
        ≡ record {
          items = put transfer_row_key row.now transfers.old.items;
          spare = transfers.old.spare - 1;
        } }
    ensures timeouts { timeouts.new ≡ listed row.now timeouts.old }
    ensures rising { Rising transfer_row_key transfers.old.items }
    ensures marked { IsMarked 1 transfers.old.items transfers.new.items timeouts.old timeouts.new undo_log.old
        undo_log.new }
{
    undo_log.note(Undo::AddedTransfer(*row));
    transfers.insert_reserved(*row);
    list(timeouts, row);
}

/// It holds until it is resolved or its timeout ends it.
fn times_out(row: &TransferRow) -> bool
    ensures { result ≡ times_out row.now }
{
    let t = row.recorded();
    t.is_pending() && matches!(row.state(), State::Open) && t.timeout != 0
}

fn timeout_of(row: &TransferRow) -> Timeout
    requires { expires_at row.now.recorded ≤ LAST_MOMENT }
    ensures { result ≡ timeout_of row.now }
{
    let t = row.recorded();
    let after = u64::from(t.timeout) * NANOSECONDS_PER_SECOND;
    Timeout {
        at: t.timestamp + after,
        id: t.id,
    }
}

/// Adds the timeout of a transfer that has one and is open.
pub fn list<A: Allocator + Clone>(timeouts: &mut Timeouts<A>, row: &TransferRow)
    requires { times_out row.now ≡ true → CanList row.now timeouts.old }
    ensures { timeouts.new ≡ listed row.now timeouts.old }
{
    if times_out(row) {
        timeouts.insert_reserved(timeout_of(row));
    }
}

/// Removes the timeout of a transfer that has one and was open.
pub fn unlist<A: Allocator + Clone>(timeouts: &mut Timeouts<A>, row: &TransferRow)
    requires { times_out row.now ≡ true → expires_at row.now.recorded ≤ LAST_MOMENT }
    ensures timeouts { timeouts.new ≡ unlisted row.now timeouts.old }
    ensures ordered { times_out row.now ≡ true → AreTimeouts timeouts.old.items }
{
    if times_out(row) {
        timeouts.remove(timeout_of(row));
    }
}
