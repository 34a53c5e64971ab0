//! The ways in which a journal's file is written: a batch with one sync or with two, what clears a torn one, and zeros ahead of the batches.
ghost use Rattle.std.specs.Prelude.{◌≡◌, ◌≤◌, ◌^◌, length, replicate, min, max, OnOk};
ghost use Rattle.tb_sectors.specs.Sectors.{IsSettled};
ghost use Rattle.tb_sectors.specs.Steps.{Overwrites, OverwritesRange, WritesBatch, WritesClosedBatch, ClosesLatch, opened_before, ClearsTorn, Reserves};

use crate::devices::{RangeFile, SectorFault, SectorFile};
use crate::encoding::latch_of;

/// Zeros are written ahead in steps of at least so many bytes,
pub const RESERVE_MIN: usize = 1 << 16;

/// and at most so many.
pub const RESERVE_MAX: usize = 1 << 26;

// The latch of a sector begins so many bytes before its end.
const LATCH_BEFORE_END: usize = 498;

/// Writes the sectors of a batch, and syncs: at `Ok` the batch is acknowledged.
pub fn commit<D: SectorFile>(device: &mut D, at: usize, sectors: &[u8]) -> Result<(), SectorFault>
    requires { at ≤ length (D.disk device.old).seen }
    ensures writes { Overwrites at sectors.now result (D.disk device.old) (D.disk device.new) }
    ensures commits { WritesBatch at sectors.now result (D.disk device.old) (D.disk device.new) }
{
    match device.write_at(at, sectors) {
        Ok(()) => device.sync(),
        Err(fault) => Err(fault),
    }
}

/// Writes the sectors of a batch after the closed latch that ends a journal at this offset, and syncs; then opens that latch, and syncs: at `Ok` the
/// batch is acknowledged. Nothing is assumed of an interrupted write.
pub fn commit_after_latch<D: RangeFile>(
    device: &mut D,
    end: usize,
    sectors: &[u8],
) -> Result<(), SectorFault>
    requires latch { 512 ≤ end }
    requires within { end ≤ length (D.disk device.old).seen }
    ensures seen { OnOk result ((D.disk device.new).seen ≡ opened_before end sectors.now (D.disk device.old).seen) }
    ensures commits { WritesClosedBatch end sectors.now result (D.disk device.old) (D.disk device.new) }
{
    match write_and_sync(device, end, sectors) {
        Ok(()) => write_and_sync(device, end - LATCH_BEFORE_END, &latch_of(false)),
        Err(fault) => Err(fault),
    }
}

/// Closes the latch that ends a journal at this offset, and syncs: then commits with two syncs may follow those with one.
pub fn close_latch<D: RangeFile>(device: &mut D, end: usize) -> Result<(), SectorFault>
    requires latch { 512 ≤ end }
    requires within { end ≤ length (D.disk device.old).seen }
    ensures { ClosesLatch end result (D.disk device.old) (D.disk device.new) }
{
    write_and_sync(device, end - LATCH_BEFORE_END, &latch_of(true))
}

// Writes, and syncs.
fn write_and_sync<D: RangeFile>(file: &mut D, at: usize, bytes: &[u8]) -> Result<(), SectorFault>
    requires { at ≤ length (D.disk file.old).seen }
    ensures { OverwritesRange at bytes.now result (D.disk file.old) (D.disk file.new) }
{
    match file.write_at(at, bytes) {
        Ok(()) => file.sync(),
        Err(fault) => Err(fault),
    }
}

/// Writes over what a crash left of a commit, and syncs. Before that nothing is written there: a batch with the same number would take the sectors of the
/// torn one for its own.
pub fn clear<D: SectorFile>(device: &mut D, at: usize, sectors: &[u8]) -> Result<(), SectorFault>
    requires { at ≤ length (D.disk device.old).seen }
    ensures { ClearsTorn at sectors.now result (D.disk device.old) (D.disk device.new) }
{
    commit(device, at, sectors)
}

/// Writes zeros after the end of a file, and syncs, so that commits there change neither its length nor where its bytes are on the disk.
pub fn reserve<D: SectorFile>(device: &mut D, end: usize, zeros: &[u8]) -> Result<(), SectorFault>
    requires ends { end ≡ length (D.disk device.old).seen }
    requires zeros { zeros.now ≡ replicate (length zeros.now) 0 }
    requires settled { IsSettled (D.disk device.old) }
    ensures { Reserves zeros.now result (D.disk device.old) (D.disk device.new) }
{
    commit(device, end, zeros)
}

/// How many zeros are written next, if a file has so many bytes: as many again, within the two bounds.
pub fn next_reserve(bytes: usize) -> usize
    ensures { result ≡ min (max (2 ^ 16) bytes) (2 ^ 26) }
{
    bytes.max(RESERVE_MIN).min(RESERVE_MAX)
}
