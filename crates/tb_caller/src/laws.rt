//! The laws of a client, of a history, and of both with a network between them. A call does nothing; its promise is the law.
ghost use Rattle.std.specs.Prelude.{ℕ, Option};
ghost use Rattle.tb_records.specs.declared.limits.Profile.{Profile};
ghost use Rattle.tb_machine.specs.Histories.{IsLegal, after};
ghost use Rattle.tb_caller.specs.CallLaws.{FieldsAreRight, InHistory, InLog, InScript, OneClient, OverForGood};
ghost use Rattle.tb_caller.specs.Networks.{CallsOnce, NeverRefused};
ghost use Rattle.tb_caller.specs.Streams.{ReadsWhatWasSent};
ghost use Rattle.tb_caller.specs.Marked.{HoldWithMark};
ghost use Rattle.tb_caller.specs.Worked.{BothReturn, LookupWaits};

/// Whatever it hears, and wherever its process ends: all that a client sends is its one register, and calls of one session,
/// no two with the same number, numbers in the order of sending. Each has a frame. The session is that of a register's
/// reply. A reply is taken for a request that was sent, and has its client and its number.
pub fn one_client()
    ensures { OneClient }
{}

/// `from_fields` takes the fields of each state that a client comes to.
pub fn fields_are_right()
    ensures { FieldsAreRight }
{}

/// A server sent the frames of some replies, one after another, or a prefix of these bytes: no other reply is read.
pub fn reads_what_was_sent()
    ensures { ReadsWhatWasSent }
{}

/// In a legal history with nothing invented of a client: a request that returned a reply, given after a prefix of the history,
/// is there once, and its entry gave this reply. Any other call is there at most once. Calls are in their order.
pub fn in_history()
    ensures { (profile : Profile) (clients_max : ℕ) → InHistory (IsLegal profile clients_max) (after profile clients_max) }
{}

/// The same for a server that reads a script of what was sent after a legal history, by the replies to it.
pub fn in_script()
    ensures { InScript }
{}

/// The same for several machines that read one log, each up to its own place, by the replies of any of them.
pub fn in_log()
    ensures { InLog }
{}

/// Once a client's session was said to be over, after a prefix of the history that has its register, no later call under it
/// is entered: what is in the history by then is all that ever will be.
pub fn over_for_good()
    ensures { (profile : Profile) (clients_max : ℕ) → OverForGood (IsLegal profile clients_max) (after profile clients_max) }
{}

/// Both ends together, with frames between them: any number of clients with ids of their own, whatever the network loses,
/// repeats or delays, and whatever other clients use the server.
pub fn calls_once()
    ensures { (profile : Profile) (clients_max : ℕ) → CallsOnce (IsLegal profile clients_max) (after profile clients_max) }
{}

/// While its session is in the server's table, the call that a client waits for is entered next, or has its reply. One more
/// sending finds out which, and is refused only if there is no time left.
pub fn never_refused()
    ensures { (profile : Profile) (clients_max : ℕ) → NeverRefused (IsLegal profile clients_max) (after profile clients_max) }
{}

/// The laws `in_history`, `over_for_good`, `calls_once` and `never_refused` of a history in which profile 1 changes to
/// profile 2.
pub fn with_mark()
    ensures { (profile : Profile) (clients_max : ℕ) (mark : Option ℕ) → HoldWithMark profile clients_max mark }
{}

/// A schedule in which a register and a lookup return, with the change to profile 2 between them.
pub fn both_return()
    ensures returns { BothReturn }
    ensures waits { LookupWaits }
{}
