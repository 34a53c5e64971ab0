//! The laws of clients and their server. A call does nothing; its promise is the law.
ghost use Rattle.tb_caller_laws.specs.ExactlyOnce.{EachCallOnce, EndedIsFinal, NeverNewer};
ghost use Rattle.tb_caller_laws.specs.KeptCalls.{AcrossCrashes};
ghost use Rattle.tb_caller_laws.specs.SeatCalls.{InSeats};
ghost use Rattle.tb_caller_laws.specs.PortCalls.{InService};
ghost use Rattle.tb_caller_laws.specs.Others.{MeetsOthers};
ghost use Rattle.tb_caller_laws.specs.Worked.{IsWorked};

/// Each call is executed once, in a world of
///
/// - any clients with ids of their own, which end and come back with what they stored;
/// - a network that loses, repeats, delays and reorders frames both ways;
/// - a server over one file, which is killed or loses power at any moment, and is started again any number of times; or machines on one agreed log,
///   which end and start again too.
///
/// The promises, for any schedule of them:
///
/// - `calls`: a call that returned is in the history once, now and after each later start, in the entry that its reply names, and this is its reply.
///   Any other call is there at most once, and the calls of a client are there in their order. The session of a register that returned is that of one
///   entry of the history; after an eviction, another entry may hold the same register.
/// - `ended`: once a client has heard that its session is over, each call of it was executed by then or never will be. Whatever any of the clients
///   sends first after that is executed later: so a lookup decides.
/// - `newer`: no call that waits is answered with status 3.
///
/// The premises, and what gives them:
///
/// - what a client may do (`MayAct`): `Caller::call`, `again`, `take_reply` and `from_fields`, and the rules of its program;
/// - `Start`: `tb_file::Keeper::start`, by `IsStarted`;
/// - `Read`, `Reply` and `Stop`: `tb_file::keep`, by the clauses `served`, `moments` and `ended` of `tb_file::laws::at_each_moment`;
/// - `Replay`: `tb_machine::run` and `tb_log::follow`, over the pairs of the log.
///
/// Assumed are a disk as `tb_file` assumes it, or a log that all machines agree on; a network that makes no frames; a reader that reads what a run
/// sent from its beginning; and that no two clients have one id.
pub fn exactly_once()
    ensures calls { EachCallOnce }
    ensures ended { EndedIsFinal }
    ensures newer { NeverNewer }
{}

/// A schedule that meets these premises, with a lost reply, a repeat, an eviction, a power loss amid a commit, and restarts of the server and of a
/// client. What a client sent and returned in it meets the premises of the other laws here, and of those of `tb_caller` over lists.
pub fn schedule_is_possible()
    ensures worked { IsWorked }
    ensures others { MeetsOthers }
{}

/// Runs over one file, one after another, each ended by a crash or by itself. Each reply that was read from what one of them sent is that of the
/// call's one entry in the history that is there in the end.
pub fn across_crashes()
    ensures { AcrossCrashes }
{}

/// In one opening: each reply that a seat gave to a call is that of the call's one entry, however little of the history the seat had seen.
pub fn in_seats()
    ensures { InSeats }
{}

/// The same for a run of a server: all that its ports offered of the client was sent, so nothing of the client is invented.
pub fn in_service()
    ensures { InService }
{}
