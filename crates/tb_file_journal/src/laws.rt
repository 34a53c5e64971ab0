//! What holds of every file that grows while it is read.
ghost use Rattle.tb_file_journal.specs.GrowingLaws.{EachMomentIsLater, LaterMomentsFollow, ShownIsAPrefix};

/// A file is later than itself, and what is later than a later moment is later.
pub fn moments_follow()
    ensures now { EachMomentIsLater }
    ensures next { LaterMomentsFollow }
{}

/// The records that a snapshot shows are a prefix of those of every later file, byte for byte: unless the machine lost power meanwhile no later
/// reader misses one.
pub fn shown_is_a_prefix()
    ensures { ShownIsAPrefix }
{}
