//! Examples: scripts, and the replies that the definitions give to them, computed. A call does nothing; its promise is the example.
ghost use Rattle.tb_machine.specs.WorkedRows.{FirstRequests, Refusals, GreatestSum, Eviction, EndOfTime, EvictionStorm, UnfitEntries, MarkedHistory, ScriptInParts, CopiesInAScript, BoundedMoments, RegisterRun};

/// A register, the same again, two accounts, their lookup, a transfer.
pub fn first_requests()
    ensures { FirstRequests }
{}

/// A repeat, and one refusal of each status.
pub fn refusals()
    ensures { Refusals }
{}

/// The greatest sum of an account, and a transfer that would overflow it.
pub fn greatest_sum()
    ensures { GreatestSum }
{}

/// The client whose reply has the least commit number loses its session.
pub fn eviction()
    ensures { Eviction }
{}

/// After the last moment there is no time for a request.
pub fn end_of_time()
    ensures { EndOfTime }
{}

/// A hundred clients in one place.
pub fn eviction_storm()
    ensures { EvictionStorm }
{}

/// Entries that do not follow one register, each with the first check that it fails.
pub fn unfit_entries()
    ensures { UnfitEntries }
{}

/// A mark between two registers.
pub fn marked_history()
    ensures { MarkedHistory }
{}

/// A script in two parts.
pub fn script_in_parts()
    ensures { ScriptInParts }
{}

/// A second copy of a request, and one of a register whose client lost its row.
pub fn copies_in_a_script()
    ensures { CopiesInAScript }
{}

/// Moments that leave time for all events of a script, and one that does not.
pub fn bounded_moments()
    ensures { BoundedMoments }
{}

/// A run over the bytes of a register, when nothing fails.
pub fn register_run()
    ensures { RegisterRun }
{}
