//! Which fault of a storm is reported.
ghost use Rattle.std.specs.Prelude.{◌≡◌, ◌≤◌, Ok, None, IfOk};
ghost use Rattle.tb_edge_storm.specs.private.Outcomes.{totals_answered, first_reported, outcome_of};

use crate::faults::StormFault;
use crate::totals::Totals;
use tb_service::Ended;

/// The first of two faults; but that a client gave up is reported only if there is no other fault.
pub(crate) fn first_fault(first: Option<StormFault>, next: Option<StormFault>) -> Option<StormFault>
    ensures { result ≡ first_reported first next }
{
    match (first, next) {
        (None, next) => next,
        (Some(StormFault::GaveUp), Some(fault)) => Some(fault),
        (first, _) => first,
    }
}

/// What is reported for a storm, from how its server ended, the fault of its clients, and the totals that a seat found.
pub(crate) fn conclude(
    ended: Ended,
    fared: Option<StormFault>,
    found: Result<Totals, StormFault>,
) -> Result<Totals, StormFault>
    ensures told { result ≡ outcome_of ended fared found }
    ensures totals { IfOk result (λ totals. (found ≡ Ok totals) × (fared ≡ None)) }
{
    match (ended, fared, found) {
        (Ended::NoMemory, _, _) => Err(StormFault::NoMemory),
        (Ended::Closed, None, found) => found,
        (Ended::Closed, Some(StormFault::GaveUp), Err(fault)) => Err(fault),
        (Ended::Closed, Some(fault), _) => Err(fault),
    }
}

/// What is reported; GaveUp instead of totals with fewer entries than the clients saw replies.
pub(crate) fn answered(replies: u32, told: Result<Totals, StormFault>) -> Result<Totals, StormFault>
    ensures told { result ≡ totals_answered replies told }
    ensures totals { IfOk result (λ totals. (told ≡ Ok totals) × (replies ≤ totals.commits)) }
{
    match told {
        Ok(totals) if (totals.commits as u64) < u64::from(replies) => Err(StormFault::GaveUp),
        told => told,
    }
}
