//! Examples, computed: the results of the definitions for requests whose results are known, by either profile. The functions do nothing. Each states
//! examples, and is proved by computing them.
ghost use Rattle.tb_ledger.specs.WorkedRows.{Created, Balancing, PostsAndVoids, Lookups, Closing, Chains, Accounts, ReservedFlags, Overflow, FailedIds, Expiry};
ghost use Rattle.tb_records.specs.declared.limits.Profile.TheVariants.{One, Two};

/// Accounts get the timestamps of their places in the batch.
pub fn created()
    ensures one { Created One }
    ensures two { Created Two }
{}

/// A balancing transfer records the lowered amount, 0 if nothing is left, and its repeat exists unless it asks for less.
pub fn balancing()
    ensures one { Balancing One }
    ensures two { Balancing Two }
{}

/// A post of the whole, of a part, of nothing; a void; and posts and voids of transfers that are resolved already or not pending.
pub fn posts_and_voids()
    ensures one { PostsAndVoids One }
    ensures two { PostsAndVoids Two }
{}

/// The accounts and transfers that are found: whole records, in the order of the ids; an absent id is skipped, and one requested twice is returned
/// twice.
pub fn lookups()
    ensures one { Lookups One }
    ensures two { Lookups Two }
{}

/// A closing transfer closes its account for everything except voids, until it is voided itself. An account that is sent again exists, with its
/// current flags.
pub fn closing()
    ensures one { Closing One }
    ensures two { Closing Two }
{}

/// A chain is applied as a whole or not at all; a chain that the batch cuts off is open.
pub fn chains()
    ensures one { Chains One }
    ensures two { Chains Two }
{}

/// Accounts that are refused, and accounts that must not exceed their credits or debits.
pub fn accounts()
    ensures one { Accounts One }
    ensures two { Accounts Two }
{}

/// A flag above the known ones is refused, also imported.
pub fn reserved_flags()
    ensures one { ReservedFlags One }
    ensures two { ReservedFlags Two }
{}

/// A sum that would pass the largest number is refused: pending and posted ones of either side, and both together.
pub fn overflow()
    ensures one { Overflow One }
    ensures two { Overflow Two }
{}

/// By profile 2 an id that failed permanently is refused again, also if its chain was undone; by profile 1 it is free.
pub fn failed_ids()
    ensures { FailedIds }
{}

/// A pending transfer holds its amount, and a closing one its account, until the moment at which it expires.
pub fn expiry()
    ensures one { Expiry One }
    ensures two { Expiry Two }
{}
