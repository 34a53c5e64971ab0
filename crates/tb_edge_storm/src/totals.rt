//! What a storm leaves, and the lines that report on it.
ghost use Rattle.std.specs.Prelude.{◌≡◌, ◌++◌, string_bytes, IfOk};
ghost use Rattle.tb_edge_storm.specs.Storms.{numbered_line, storm_lines};

use std::alloc::{AllocError, Global};

/// What a storm leaves: the entries of the history, the transfers that are found, and what account 1000 was credited with.
#[derive(Clone, Copy)]
pub struct Totals {
    pub commits: usize,
    pub transfers: usize,
    pub credited: u128,
}

/// Adds a line of a word and a number.
fn add_line(alloc: Global, lines: &mut String, word: &str, number: u128) -> Result<(), AllocError>
    ensures { IfOk result
        (λ _. string_bytes lines.new ≡ string_bytes lines.old ++ numbered_line word.now number) }
{
    let digits = number.to_string(alloc)?;
    lines.push_str(word)?;
    lines.push_str(digits.as_str())?;
    lines.push_str("\n")
}

/// The four lines that report on a storm of `clients` clients.
pub(crate) fn lines_of(alloc: Global, clients: u32, totals: Totals) -> Result<String, AllocError>
    ensures { IfOk result (λ lines. string_bytes lines ≡ storm_lines clients totals) }
{
    let mut lines = String::new(alloc);
    add_line(alloc, &mut lines, "clients ", u128::from(clients))?;
    add_line(alloc, &mut lines, "commits ", totals.commits as u128)?;
    add_line(alloc, &mut lines, "transfers ", totals.transfers as u128)?;
    add_line(alloc, &mut lines, "credited ", totals.credited)?;
    Ok(lines)
}
