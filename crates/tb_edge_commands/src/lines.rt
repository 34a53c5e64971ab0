//! The line that reports a fault.
ghost use Rattle.std.specs.Prelude.{◌≡◌, ◌≤◌, length};
ghost use Rattle.tb_edge_commands.specs.ExitStatuses.{line_named, PrintsLine};

use arrayvec::ArrayVec;
use tb_records::{Sink, put_all};

/// The bytes that a fault's line may have: `tbs: `, a fault's name of at most 26 letters, and the line's end.
pub const LINE_BYTES: usize = 32;

/// The line of a fault with a name, in a buffer of its own, so it needs no memory.
pub fn line_of(name: &str) -> ArrayVec<u8, LINE_BYTES>
    requires short { length name.now ≤ 26 }
    ensures { result.items ≡ line_named name.now }
{
    let mut line = ArrayVec::new();
    line.try_extend_from_slice(b"tbs: ").unwrap();
    line.try_extend_from_slice(name.as_bytes()).unwrap();
    line.try_extend_from_slice(b"\n").unwrap();
    line
}

/// Writes a line as far as the writer takes it.
pub fn put_line<E: Sink>(line: &[u8], faults: &mut E)
    ensures { PrintsLine line.now (E.output faults.old) (E.output faults.new) }
{
    let _ = put_all(faults, line);
}
