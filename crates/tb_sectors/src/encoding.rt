//! A batch as the bytes of its sectors.
ghost use Rattle.std.specs.Prelude.{◌≡◌, ◌≤◌, ◌<◌, ◌+◌, ◌^◌, ◌++◌, ◌-◌, ◌&&◌, not, length, replicate, if◌then◌else◌, OnOk};
ghost use Rattle.std.specs.Int.{w32, to_le_bytes};
ghost use Rattle.tb_sectors.specs.Checksum.{remainder};
ghost use Rattle.tb_sectors.specs.Stamped.{blank, further};
ghost use Rattle.tb_sectors.specs.Encoding.{number_bytes, latch_bytes, raw, raws, open_sector, cut_batch, cleared_bytes, whole_sector};
ghost use Rattle.tb_sectors.specs.Latches.{closed_written};
ghost use Rattle.tb_sectors.specs.private.Latched.{latched, latched_batch, latched_further};

use crate::checksums::remainder_after;
use std::alloc::AllocError;

/// A sector has so many bytes.
pub const SECTOR_BYTES: usize = 512;

/// A sector has so many bytes of the stream: the others are its stamp.
pub const BYTES_IN_A_SECTOR: usize = 492;

/// Adds the sectors of a batch. It begins in a sector that has so many batches and these bytes, written last by the batch of this number: the last
/// sector of a journal, or a new one after it, with no batches and no bytes.
pub fn push_batch(
    out: &mut Vec<u8>,
    number: u64,
    begun: u16,
    kept: &[u8],
    bytes: &[u8],
) -> Result<(), AllocError>
    requires numbered { number < 2 ^ 64 - 1 }
    requires few { begun < 2 ^ 16 - 1 }
    requires fits { length kept.now ≤ 492 }
    ensures { OnOk result (out.new.items ≡ out.old.items ++ raws (cut_batch (open_sector number begun kept.now) bytes.now)) }
{
    push_latched(out, number, begun, kept, bytes, false)
}

/// Adds the sectors of a batch whose last one has a closed latch: it begins in a new sector, after the batch of this number.
pub fn push_closed_batch(out: &mut Vec<u8>, number: u64, bytes: &[u8]) -> Result<(), AllocError>
    requires { number < 2 ^ 64 - 1 }
    ensures { OnOk result (out.new.items ≡ out.old.items ++ closed_written number bytes.now) }
{
    push_latched(out, number, 0, &[], bytes, true)
}

// Adds the sectors of a batch, with this latch in the last one.
fn push_latched(
    out: &mut Vec<u8>,
    number: u64,
    begun: u16,
    kept: &[u8],
    bytes: &[u8],
    closed: bool,
) -> Result<(), AllocError>
    requires numbered { number < 2 ^ 64 - 1 }
    requires few { begun < 2 ^ 16 - 1 }
    requires fits { length kept.now ≤ 492 }
    ensures { OnOk result (out.new.items ≡ out.old.items ++ raws (latched_batch closed (cut_batch (open_sector number begun kept.now) bytes.now))) }
{
    let room = BYTES_IN_A_SECTOR - kept.len();
    let (first, more) = bytes.split_at(room.min(bytes.len()));
    let last = more.is_empty();
    let ends = end_in(last, kept.len() + first.len(), kept.len());
    let closes = closes_at(last, closed);
    push_sector(out, number + 1, begun + 1, ends, kept, first, closes)?;
    push_further(out, number + 1, more, closed)?;
    Ok(())
}

/// Adds what clears a torn end: the last sector of the batches that are whole, with these bytes, and so many sectors of zeros.
pub fn push_cleared(
    out: &mut Vec<u8>,
    number: u64,
    begun: u16,
    kept: &[u8],
    torn: usize,
) -> Result<(), AllocError>
    requires { length kept.now ≤ 492 }
    ensures { OnOk result (out.new.items ≡ out.old.items ++ cleared_bytes (whole_sector number begun kept.now) torn) }
{
    let ends = end_in(true, kept.len(), 0);
    push_sector(out, number, begun, ends, kept, &[], false)?;
    push_blanks(out, torn)?;
    Ok(())
}

// Adds sectors of zeros.
fn push_blanks(out: &mut Vec<u8>, count: usize) -> Result<(), AllocError>
    ensures { OnOk result (out.new.items ≡ out.old.items ++ raws (replicate count blank)) }
{
    for _added in 0..count {
        push_sector(out, 0, 0, 0, &[], &[], false)?;
    }
    Ok(())
}

// Adds the further sectors of a batch, with this latch in the last one.
fn push_further(
    out: &mut Vec<u8>,
    number: u64,
    bytes: &[u8],
    closed: bool,
) -> Result<(), AllocError>
    ensures { OnOk result (out.new.items ≡ out.old.items ++ latched_further closed number bytes.now) }
{
    let mut rest = bytes;
    while !rest.is_empty() {
        let (piece, more) = rest.split_at(rest.len().min(BYTES_IN_A_SECTOR));
        push_piece(out, number, piece, more.is_empty(), closed)?;
        rest = more;
    }
    Ok(())
}

// Adds a further sector of a batch: the last one, with this latch, or one after which the batch goes on.
fn push_piece(
    out: &mut Vec<u8>,
    number: u64,
    piece: &[u8],
    last: bool,
    closed: bool,
) -> Result<(), AllocError>
    requires { length piece.now ≤ 492 }
    ensures { OnOk result (out.new.items ≡ out.old.items ++ raw (latched (last && closed) (further number piece.now (not last)))) }
{
    let ends = end_in(last, piece.len(), piece.len() + 1);
    push_sector(out, number, 0, ends, &[], piece, closes_at(last, closed))
}

// The last sector of a batch has its latch, and the latch of any other one is open.
fn closes_at(last: bool, closed: bool) -> bool
    ensures { result ≡ (last && closed) }
{
    last && closed
}

// Where the last batch that ends in a sector ends: after all of its bytes, or elsewhere.
fn end_in(last: bool, all: usize, other: usize) -> u16
    requires all { all ≤ 492 }
    requires other { other ≤ 493 }
    ensures { result ≡ (if last then all else other) }
{
    if last { all as u16 } else { other as u16 }
}

// Adds a sector.
fn push_sector(
    out: &mut Vec<u8>,
    number: u64,
    begun: u16,
    ends: u16,
    kept: &[u8],
    bytes: &[u8],
    closed: bool,
) -> Result<(), AllocError>
    requires { length kept.now + length bytes.now ≤ 492 }
    ensures { OnOk result (out.new.items ≡ out.old.items ++ raw (record { number = number; begun = begun; ends = ends; bytes = kept.now ++ bytes.now; closed = closed })) }
{
    let used = kept.len() + bytes.len();
    let numbers = numbers_of(number, begun, used as u16, ends);
    let blank = [0; BYTES_IN_A_SECTOR];
    let (zeros, _) = blank.split_at(BYTES_IN_A_SECTOR - used);
    let end = end_of(latch_of(closed), sum_of(&numbers, kept, bytes, zeros));
    out.extend_from_slice(&numbers)?;
    out.extend_from_slice(&end)?;
    out.extend_from_slice(kept)?;
    out.extend_from_slice(bytes)?;
    out.extend_from_slice(zeros)?;
    Ok(())
}

// The numbers of a stamp.
#[tactic(auto, unfolding(crate::specs::Encoding::number_bytes))]
fn numbers_of(number: u64, begun: u16, used: u16, ends: u16) -> [u8; 14]
    ensures { result ≡ number_bytes number begun used ends }
{
    let [a, b, c, d, e, f, g, h] = number.to_le_bytes();
    let [i, j] = begun.to_le_bytes();
    let [k, l] = used.to_le_bytes();
    let [m, n] = ends.to_le_bytes();
    [a, b, c, d, e, f, g, h, i, j, k, l, m, n]
}

// The checksum of a sector, by its parts but for the latch.
#[tactic(auto, using(crate::proofs::Remainders::remainder_append))]
fn sum_of(numbers: &[u8], kept: &[u8], bytes: &[u8], zeros: &[u8]) -> u32
    ensures { result ≡ remainder (numbers.now ++ ((kept.now ++ bytes.now) ++ zeros.now)) 0 }
{
    let sum = remainder_after(remainder_after(0, numbers), kept);
    remainder_after(remainder_after(sum, bytes), zeros)
}

// The end of a stamp: the latch and the checksum.
fn end_of(latch: [u8; 2], sum: u32) -> [u8; 6]
    ensures { result ≡ latch ++ to_le_bytes w32 sum }
{
    let [a, b] = latch;
    let [c, d, e, f] = sum.to_le_bytes();
    [a, b, c, d, e, f]
}

// The two bytes of a latch.
pub(crate) fn latch_of(closed: bool) -> [u8; 2]
    ensures { result ≡ latch_bytes closed }
{
    if closed { [90, 195] } else { [0, 0] }
}
