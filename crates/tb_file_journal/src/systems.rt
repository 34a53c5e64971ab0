//! A file as the system's calls see it.
ghost use Rattle.std.specs.Prelude.{◌≡◌, ◌≤◌, ◌<◌, ◌-◌, ◌^◌, ℕ, List, length, IfOk};
ghost use Rattle.tb_file_journal.specs.Device.{Disk};
ghost use Rattle.tb_file_journal.specs.System.{Preads, Pwrites, Ftruncates, Fdatasyncs, Fstats, CountsDown};

use std::io::ErrorKind;

/// An open file of a system, by POSIX's calls. A read and a write may transfer fewer bytes than requested, a signal may interrupt a call, and a call
/// may fail. An offset has 64 bits.
pub trait System {
    /// Holds of a system that reports what its calls do.
    ghost tells: { Type 0 };

    /// The file on its disk.
    ghost disk: { Self → Disk };

    /// At most so many signals interrupt the next calls, until one is not interrupted.
    ghost interruptions: { Self → ℕ };

    /// Reads some of the bytes from an offset on.
    fn pread(&mut self, into: &mut [u8], offset: u64) -> Result<usize, ErrorKind>
        // Holds of any system, so that no reader trusts a count that is too large.
        ensures within { IfOk result (λ count. count ≤ length into.new) }
        ensures reads { tells → Preads offset into.new result (disk self.old) (disk self.new) }
        ensures again { tells → CountsDown result (interruptions self.old) (interruptions self.new) };

    /// Writes some of these bytes at an offset.
    fn pwrite(&mut self, bytes: &[u8], offset: u64) -> Result<usize, ErrorKind>
        requires { tells → offset ≤ length (disk self.old).seen }
        ensures within { IfOk result (λ count. count ≤ length bytes.now) }
        ensures writes { tells → Pwrites offset bytes.now result (disk self.old) (disk self.new) }
        ensures again { tells → CountsDown result (interruptions self.old) (interruptions self.new) };

    /// Cuts the file to a length.
    fn ftruncate(&mut self, len: u64) -> Result<(), ErrorKind>
        requires { tells → len ≤ length (disk self.old).seen }
        ensures cuts { tells → Ftruncates len result (disk self.old) (disk self.new) }
        ensures again { tells → CountsDown result (interruptions self.old) (interruptions self.new) };

    /// After it, a crash leaves what a read returns.
    fn fdatasync(&mut self) -> Result<(), ErrorKind>
        ensures syncs { tells → Fdatasyncs result (disk self.old) (disk self.new) }
        ensures again { tells → CountsDown result (interruptions self.old) (interruptions self.new) };

    /// The file's length.
    fn fstat(&mut self) -> Result<u64, ErrorKind>
        ensures { tells → Fstats result (disk self.old) (disk self.new) };

    /// This moment is one of those since an earlier one.
    ghost counts_now: { (file : Self) (t : ℕ) (c : List ℕ) → t ≤ (disk file).moment → (disk file).may_leave c → (disk file).left_since t c };

    /// Since this moment there is no other moment.
    ghost only_now: { (file : Self) (c : List ℕ) → (disk file).left_since (disk file).moment c → (disk file).may_leave c };

    /// What a read returns is one of the files that a crash may leave.
    ghost stays: { (file : Self) → tells → (disk file).may_leave (disk file).seen };

    /// A file's length is an offset, of 63 bits and a sign.
    ghost fits: { (file : Self) → tells → length (disk file).seen < 2 ^ 63 };

    /// No call is interrupted for ever.
    ghost ends: { (file : Self) → tells → interruptions file < 2 ^ 64 - 1 };
}
