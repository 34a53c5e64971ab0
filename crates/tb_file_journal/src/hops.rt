//! The blocks in a piece of a file, followed by their lengths.
ghost use Rattle.std.specs.Prelude.{◌≤◌, ◌≡◌, ◌<◌, ◌^◌, List, ℕ};
ghost use Rattle.tb_file_journal.specs.declared.hops.Hop.TheVariants as variants;
ghost use Rattle.tb_file_journal.specs.Reading.{HasAhead};
ghost use Rattle.tb_file_journal.specs.private.Hops.{HopsTo, FollowsPiece, FindsLatch, IsNear};

use crate::reading::{asked, is_closed};

// Latch, length and checksum of a block.
const FIXED_BYTES: usize = 11;

// The place to which the blocks of a piece lead.
#[derive(Clone, Copy)]
pub enum Hop {
    // To a closed latch at this offset.
    Closed(usize),
    // To this offset, which is not in the piece.
    Further(usize),
    // To a block that is not whole.
    Broken,
}

#[tactic(auto, using(crate::proofs::Following::followed_first, crate::proofs::Following::followed_next, crate::proofs::Following::leads_on, crate::proofs::Following::leads_from))]
// Follows the blocks of a piece that begins at this offset with a block.
pub fn follow(piece: &[u8], at: usize, len: usize) -> Hop
    requires near { at < 2 ^ 62 }
    ensures leads { FollowsPiece result at piece.now len }
    ensures further { (next : ℕ) → result ≡ variants.Further next → at < next }
    ensures closed { (end : ℕ) → result ≡ variants.Closed end → (at ≤ end) × IsNear end }
{
    let mut end = at;
    let mut rest = piece;
    loop {
        match step(rest, end, len) {
            Hop::Further(next) => {
                if rest.len() < FIXED_BYTES || next - end > rest.len() - FIXED_BYTES {
                    return Hop::Further(next);
                }
                let (_, behind) = rest.split_at(next - end);
                rest = behind;
                end = next;
            }
            stop => return stop,
        }
    }
}

// Follows one block.
fn step(rest: &[u8], at: usize, len: usize) -> Hop
    ensures hops { (file : List ℕ) → HasAhead 11 at file rest.now → HopsTo result at file len }
    ensures further { (next : ℕ) → result ≡ variants.Further next → at < next }
    ensures closed { (end : ℕ) → result ≡ variants.Closed end → end ≡ at }
{
    if is_end(rest) {
        return Hop::Closed(at);
    }
    match at.checked_add(asked(rest)) {
        Some(next) if rest.len() >= FIXED_BYTES && next <= len => Hop::Further(next),
        _ => Hop::Broken,
    }
}

// Returns whether these bytes begin with a closed latch.
pub fn is_end(rest: &[u8]) -> bool
    ensures { (at : ℕ) (file : List ℕ) → HasAhead 11 at file rest.now → FindsLatch at file result }
{
    match rest {
        [w, x, y, z, ..] => is_closed(*w, *x, *y, *z),
        _ => false,
    }
}
