//! A file on a disk whose sectors are old or new, and on one of which nothing is assumed: what a read returns, and what a crash may leave.
ghost use Rattle.std.specs.Prelude.{◌≡◌, ◌≤◌, ℕ, List, length, IfOk};
ghost use Rattle.tb_sectors.specs.Sectors.{Disk, Looks, ReadsAt, Writes, Syncs};
ghost use Rattle.tb_sectors.specs.Ranges.{WritesRange};

/// Why a call on a file failed.
#[derive(Clone, Copy, Debug, PartialEq, Eq)]
pub enum SectorFault {
    /// There is no memory.
    Memory,
    /// The device failed.
    Failed,
}

/// A file on a disk that writes each sector of 512 bytes whole: after a crash it is old or new.
pub trait SectorFile {
    /// The disk and its clock.
    ghost disk: { Self → Disk };

    /// Some of the bytes from an offset on: as many as fit, or all that are left.
    fn read_at(&mut self, at: usize, into: &mut [u8]) -> Result<usize, SectorFault>
        ensures bytes { IfOk result (λ count. ReadsAt count at (disk self.old).seen into.new) }
        ensures looks { Looks (disk self.old) (disk self.new) };

    /// The number of bytes.
    fn len(&mut self) -> Result<usize, SectorFault>
        ensures count { IfOk result (λ len. len ≡ length (disk self.old).seen) }
        ensures looks { Looks (disk self.old) (disk self.new) };

    /// Writes over what is there, and past the end. Until a sync, a crash may leave each sector as it was or as it is written.
    fn write_at(&mut self, at: usize, bytes: &[u8]) -> Result<(), SectorFault>
        requires { at ≤ length (disk self.old).seen }
        ensures { Writes at bytes.now result (disk self.old) (disk self.new) };

    /// After it, a crash leaves what a read returns, as long as no sync has failed.
    fn sync(&mut self) -> Result<(), SectorFault>
        ensures { Syncs result (disk self.old) (disk self.new) };

    /// What a read returns is one of the files that a crash may leave: a kill of the process is therefore a crash too.
    ghost stays: { (file : Self) → (disk file).may_leave (disk file).seen };

    /// This moment is one of those since an earlier one.
    ghost counts_now: { (file : Self) (t : ℕ) (c : List ℕ) → t ≤ (disk file).moment → (disk file).may_leave c → (disk file).left_since t c };

    /// Since this moment there is no other moment.
    ghost only_now: { (file : Self) (c : List ℕ) → (disk file).left_since (disk file).moment c → (disk file).may_leave c };
}

/// A file on a disk of which nothing is assumed: after a crash, the range of a write that was not synced may have any bytes.
pub trait RangeFile {
    /// The disk and its clock.
    ghost disk: { Self → Disk };

    /// Writes over what is there, and past the end. Until a sync, a crash may leave any bytes in the range.
    fn write_at(&mut self, at: usize, bytes: &[u8]) -> Result<(), SectorFault>
        requires { at ≤ length (disk self.old).seen }
        ensures { WritesRange at bytes.now result (disk self.old) (disk self.new) };

    /// After it, a crash leaves what a read returns, as long as no sync has failed.
    fn sync(&mut self) -> Result<(), SectorFault>
        ensures { Syncs result (disk self.old) (disk self.new) };

    /// What a read returns is one of the files that a crash may leave: a kill of the process is therefore a crash too.
    ghost stays: { (file : Self) → (disk file).may_leave (disk file).seen };

    /// This moment is one of those since an earlier one.
    ghost counts_now: { (file : Self) (t : ℕ) (c : List ℕ) → t ≤ (disk file).moment → (disk file).may_leave c → (disk file).left_since t c };

    /// Since this moment there is no other moment.
    ghost only_now: { (file : Self) (c : List ℕ) → (disk file).left_since (disk file).moment c → (disk file).may_leave c };
}
