//! A caller of the ledger.
ghost use Rattle.std.specs.Prelude.{◌≡◌, ◌<◌, ◌∷◌, [], IfOk, OnOk, OnErr};
ghost use Rattle.std.specs.Option.{option_to_list};
ghost use Rattle.tb_ledger.specs.Batches.{results};
ghost use Rattle.tb_ledger.specs.WorkedRows.{request};
ghost use Rattle.tb_records.specs.declared.limits.TheConstants.{LAST_MOMENT};

use std::alloc::{AllocError, Allocator, Global};
use tb_ledger::Ledger;
use tb_records::{EventResult, Transfer};

/// Enters one transfer at the next moment, and returns why it was refused, as the one result of its batch: None if it was
/// accepted.
pub fn enter_transfer<A: Allocator + Clone>(
    ledger: &mut Ledger<A>,
    global: Global,
    transfer: Transfer,
) -> Result<Option<EventResult>, AllocError>
    requires { ledger.old.time < LAST_MOMENT }
    ensures answer { IfOk result
        (λ refused. option_to_list refused ≡ results (request ledger.old (transfer ∷ [])).codes) }
    ensures books { OnOk result (ledger.new ≡ (request ledger.old (transfer ∷ [])).books) }
    ensures unchanged { OnErr result (ledger.new ≡ ledger.old) }
{
    let time = ledger.time() + 1;
    let mut refused = ledger.create_transfers(global, time, &[transfer])?;
    Ok(refused.pop())
}
