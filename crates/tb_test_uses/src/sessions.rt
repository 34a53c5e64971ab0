//! A caller of the sessions.
ghost use Rattle.std.specs.Prelude.{◌≡◌, ◌<◌, IfOk, IfErr, OnOk};
ghost use Rattle.tb_records.specs.Ordered.{Each};
ghost use Rattle.tb_sessions.specs.Admission.{admitted, leaving};
ghost use Rattle.tb_test_uses.specs.Rows.{use_row};

use tb_records::{Reply, Request};
use tb_sessions::{Class, Row, Sessions};

/// Keeps a request that is New, with the reply to it, which its commit number belongs to. Returns the row that leaves for
/// it; a request that isn't New comes back.
pub fn keep(
    sessions: &mut Sessions,
    request: Request,
    reply: Reply,
    commit: u64,
) -> Result<Option<Row>, Request>
    requires later { Each (λ (row : Row). row.commit < commit) sessions.old.rows }
    ensures left { IfOk result
        (λ left. left ≡ leaving sessions.old.clients_max sessions.old.rows (use_row request reply commit)) }
    ensures kept { OnOk result
        (sessions.new
        ≡ record sessions.old { rows = admitted sessions.old.clients_max sessions.old.rows (use_row request reply commit) }) }
    ensures back { IfErr result (λ back. (back ≡ request) × (sessions.new ≡ sessions.old)) }
{
    if !matches!(sessions.classify(&request), Class::New) {
        drop(reply);
        return Err(request);
    }
    let row = Row {
        client: request.client(),
        session: reply.session(),
        request,
        reply,
        commit,
    };
    Ok(sessions.record(row))
}
