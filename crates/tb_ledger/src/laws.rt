//! Laws of the ledger's definitions. The functions do nothing: each states a law, and is proved.
ghost use Rattle.tb_ledger.specs.Batches.{account_events, transfer_events};
ghost use Rattle.tb_ledger.specs.Cuttings.{CutsOneWay};
ghost use Rattle.tb_ledger.specs.Meanings.{HeldWhileOpen, SettlesBoth};

/// A batch is cut into chains in one way: into nonempty chains, one after another, in which all events except the last are linked. The last event of
/// each chain except the final one is not linked.
pub fn chains_are_cut_one_way()
    ensures accounts { CutsOneWay account_events }
    ensures transfers { CutsOneWay transfer_events }
{}

/// What counts in the pending sums: a pending transfer exactly as long as no post or void names it and it has not expired.
pub fn pending_sums_hold_what_is_open()
    ensures { HeldWhileOpen }
{}

/// The effect of a post or void on the sums if its verdict is 0: the pending transfer that it names exists and holds. On both sides its whole amount
/// is removed from the pending sum, and what is posted is added to the posted sum.
pub fn posts_and_voids_settle()
    ensures { SettlesBoth }
{}
