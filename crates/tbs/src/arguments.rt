//! The words that ask for a storm.
ghost use Rattle.std.specs.Prelude.{◌≡◌, ◌≤◌, map, string_bytes, IfSome};
ghost use Rattle.tbs.specs.private.Storms.{storm_of};

use tb_edge_commands::number;

/// The number of clients and of transfers that `storm` is asked for; None if the words do not ask for a storm.
pub fn read_storm(words: &[String]) -> Option<(u32, u32)>
    ensures value { result ≡ storm_of (map string_bytes words.now) }
    ensures limits { IfSome result (λ scale. (scale.0 ≤ 16) × (scale.1 ≤ 1000)) }
{
    let [word, clients, transfers] = words else {
        return None;
    };
    if word.as_str() != "storm" {
        return None;
    }
    match (
        number(clients.as_bytes(), 1, 16),
        number(transfers.as_bytes(), 1, 1000),
    ) {
        (Some(clients), Some(transfers)) => Some((clients as u32, transfers as u32)),
        _ => None,
    }
}
