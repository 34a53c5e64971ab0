//! A log followed with the ledger in memory.
ghost use Rattle.std.specs.Prelude.{◌≡◌};
ghost use Rattle.tb_edge_file.specs.Ends.{outcome_by};
ghost use Rattle.tb_edge_file.specs.ExitStatuses.{item_fault};
ghost use Rattle.tb_edge_file.specs.Follower.{FollowsLog, SendsReplies};

use crate::faults::{Failed, KeepCommandFault, item_fault};
use crate::keeping::failed_pipe;
use crate::outlets::Outlet;
use std::alloc::Global;
use tb_file::Rules;
use tb_log::{LogFault, follow};
use tb_records::{Sink, Source};

/// How a log ended. If a pipe failed, it is this one.
fn followed_outcome(followed: Result<u64, LogFault>, pipe: Failed) -> Result<(), KeepCommandFault>
    ensures { result ≡ outcome_by (item_fault pipe) followed }
{
    match followed {
        Ok(_) => Ok(()),
        Err(fault) => Err(item_fault(fault, pipe)),
    }
}

/// Sends the replies before a fault, which are held back. If that fails, that is the fault.
fn send_replies<W: Outlet>(
    followed: Result<(), KeepCommandFault>,
    writer: &mut W,
) -> Result<(), KeepCommandFault>
    ensures { SendsReplies followed result (W.output writer.old) (W.output writer.new) }
{
    match followed {
        Ok(()) => Ok(()),
        Err(fault) => match writer.finish() {
            Ok(()) => Err(fault),
            Err(_) => Err(KeepCommandFault::Device(Failed::Output)),
        },
    }
}

/// Follows a log from its first entry on, until it ends.
pub(crate) fn follow_log<R: Source, W: Outlet>(
    alloc: Global,
    rules: Rules,
    reader: &mut R,
    writer: &mut W,
) -> Result<(), KeepCommandFault>
    ensures { FollowsLog result rules.profile rules.clients_max (R.input reader.old) (R.input reader.new)
        (W.output writer.old) (W.output writer.new) }
{
    let failures = reader.failures();
    let followed = follow(alloc, rules.profile, rules.clients_max, reader, writer);
    let pipe = failed_pipe(failures, reader.failures());
    send_replies(followed_outcome(followed, pipe), writer)
}
