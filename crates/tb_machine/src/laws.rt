//! The laws of legal histories, over the definitions only. A call does nothing; its promise is the law.
ghost use Rattle.tb_machine.specs.Dumps.{OneDump};
ghost use Rattle.tb_machine.specs.ScriptLaws.{AcceptedIsLegal, RepliesAreOfHistory, ServedAreLawful};
ghost use Rattle.tb_machine.specs.ReplicaLaws.{FromHere, ReplyPrefix, SameAgain, CopyChangesNothing, Timely};
ghost use Rattle.tb_machine.specs.ReplyLaws.{RepliesFit, RepliesReadBack, AnswersFit, GivenFit, AcceptedAreRequests};
ghost use Rattle.tb_machine.specs.MarkedLaws.{OneKeyWith, FirstReplyWith, NotNewAgainWith, StaysOutWith, LimitsHoldWith, LedgersBalanceWith};
ghost use Rattle.tb_machine.specs.MarkedLaws.{NextIsLegalWith, MovedIsLegalWith, AcceptedIsLegalWith, DumpedIsLegal};
ghost use Rattle.tb_machine.specs.Recording.{OneRecord};
ghost use Rattle.tb_machine.specs.Restoring.{RestoresHistory};
ghost use Rattle.tb_machine.specs.Settling.{IdsRiseAfter, PostsAndVoidsSettle};
ghost use Rattle.tb_machine.specs.HistoryLaws.{OneKey, FirstReply, NotNewAgain, StaysOut, LimitsHold, LedgersBalance};

/// In a legal history each client, session and request number is unique; a register counts with the session that its reply names.
pub fn one_key()
    ensures { OneKey }
{}

/// After a legal history a request that is a repeat is in the one entry that its client's row names by its commit number, and the stored reply is the
/// one that was given there.
pub fn first_reply()
    ensures { FirstReply }
{}

/// After a legal history the request of one of its entries is New only if it is a register, and its client no longer has a row.
pub fn not_new_again()
    ensures { NotNewAgain }
{}

/// Once a session's row was removed, a request of that session that is not a register has the class NoSession or SessionTooLow forever after.
pub fn stays_out()
    ensures { StaysOut }
{}

/// After a legal history the pending and posted sums of every account fit in 128 bits on each side and respect its limits. In each ledger the debits
/// of all accounts add up to their credits, pending and posted.
pub fn sums_balance()
    ensures limits { LimitsHold }
    ensures ledgers { LedgersBalance }
{}

/// What is accepted of the pairs of a script, whose requests keep the rules, is a legal history, so that each law above holds of it.
pub fn accepted_is_legal()
    ensures { AcceptedIsLegal }
{}

/// The replies to a script are those of the history that it makes: each request gets the reply to the entry that holds it, or is refused.
pub fn replies_are_of_history()
    ensures { RepliesAreOfHistory }
{}

/// The replies to a script of requests have frames, whatever their moments are: the numbers of each fit their fields and go
/// together. So what encodes them encodes no other replies.
pub fn replies_fit()
    ensures fit { RepliesFit }
    ensures read_back { RepliesReadBack }
{}

/// After a legal history of requests, with or without a mark, the answer to each request has a frame, also if it is a refusal; so has the reply to
/// each entry. A history that a script of requests makes consists of requests.
pub fn answers_fit()
    ensures answers { AnswersFit }
    ensures given { GivenFit }
    ensures held { AcceptedAreRequests }
{}

/// The requests that `run` served keep the rules, if the reader reports its bytes.
pub fn served_are_lawful()
    ensures { ServedAreLawful }
{}

/// Each encoding of a dump has one decoding: one profile, one number of clients, one history, and one place of a mark.
pub fn one_dump()
    ensures { OneDump }
{}

/// The laws of legal histories also hold with a mark among the entries, from which on profile 2 serves. Keys are unique, a repeat gets its first
/// reply, no request is new again, a session that was removed stays out, limits and sums hold.
pub fn laws_with_a_mark()
    ensures keys { OneKeyWith }
    ensures first_reply { FirstReplyWith }
    ensures not_new_again { NotNewAgainWith }
    ensures stays_out { StaysOutWith }
    ensures limits { LimitsHoldWith }
    ensures ledgers { LedgersBalanceWith }
{}

/// These are legal with a mark: a legal history with one more entry that may come next, and that of a machine that changes to profile 2. So is what
/// is accepted of the pairs of a script, with the mark before the first entry above a number, and what a dump wrote.
pub fn legal_with_a_mark()
    ensures next { NextIsLegalWith }
    ensures moved { MovedIsLegalWith }
    ensures accepted { AcceptedIsLegalWith }
    ensures dumped { DumpedIsLegal }
{}

/// A machine that is restored from the entries of a journal follows them exactly as far as they are a legal history. An entry is entered if the
/// history stays legal with it. If not, no history that continues with it is legal, and its place is reported.
pub fn restores_history()
    ensures { RestoresHistory }
{}

/// Each record of a journal belongs to one entry: what was written is what is read.
pub fn one_record()
    ensures { OneRecord }
{}

/// After entries, with or without a mark, each id is unique in the books. So each accepted post or void of a following entry settles: the pending
/// transfer that it names exists and holds. Its whole amount leaves the pending sums on both sides, and what is posted is added to the posted sums.
pub fn posts_and_voids_settle()
    ensures ids_rise { IdsRiseAfter }
    ensures settle { PostsAndVoidsSettle }
{}

/// What is accepted of two parts of a script is what is accepted of the second after what is accepted of the first.
pub fn from_here()
    ensures { FromHere }
{}

/// The replies to two parts of a script are those to the first, and then those to the second after what the first made: so replicas at different
/// places of one script never contradict each other.
pub fn prefix()
    ensures { ReplyPrefix }
{}

/// A pair whose request the history holds changes nothing, unless it is a register whose client no longer has a row: so a second copy anywhere later
/// in a script changes no other reply.
pub fn same_again()
    ensures same { SameAgain }
    ensures copies { CopyChangesNothing }
{}

/// If all moments are at most a bound that leaves a nanosecond for each event, register and lookup of the script, each new pair has a time: so no
/// script that keeps the bound ends a replica.
pub fn timely()
    ensures { Timely }
{}
