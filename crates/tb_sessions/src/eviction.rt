//! The clients in the order in which their sessions end if the table is full.
ghost use Rattle.std.specs.Prelude.{IfSome};
ghost use Rattle.std.specs.Option.{IfNone};
ghost use Rattle.tb_sessions.specs.private.Indexed.{IsIndexed, IsFirstIndexed, IsFirstBehind, FindsOldest};

use crate::rows::Row;
use avl_tree::AvlMap;
use std::alloc::Global;

/// The commit of the first client's row, if the client is at an earlier one.
fn first_behind(
    rows: &AvlMap<u128, Row, Global>,
    clients: &AvlMap<u64, u128, Global>,
) -> Option<u64>
    ensures behind { IfSome result (λ commit. IsFirstBehind rows.now clients.now commit) }
    ensures due { IfNone result (IsFirstIndexed rows.now clients.now) }
{
    let (commit, client) = clients.first()?;
    let row = rows.get(client)?;
    if row.commit == *commit {
        None
    } else {
        Some(row.commit)
    }
}

/// Moves clients to the commits of their rows, from the first on, until the first is at its row's. It does so only in a full table, because a session
/// ends only there.
pub fn bring_up(
    clients_max: usize,
    rows: &AvlMap<u128, Row, Global>,
    clients: &mut AvlMap<u64, u128, Global>,
)
    requires { IsIndexed clients_max rows.now clients.old }
    ensures { FindsOldest clients_max rows.now clients.new }
{
    if rows.len() < clients_max {
        return;
    }
    while let Some(commit) = first_behind(rows, clients) {
        let Some((_, client)) = clients.pop_first() else {
            unreachable!()
        };
        clients.insert_reserved(commit, client);
    }
}
