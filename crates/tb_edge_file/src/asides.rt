//! Bytes that a start copies before it cuts them off.
ghost use Rattle.std.specs.Prelude.{◌≡◌};
ghost use Rattle.tb_edge_file.specs.Asides.{uncopied_text};

/// Why bytes that were to be cut off were not copied.
#[derive(Clone, Copy, Debug, PartialEq, Eq)]
pub enum Uncopied {
    /// The disk is full.
    Full,
    /// This user may make no file there.
    Forbidden,
    /// There are as many copies already as there may be of one file.
    TooMany,
    /// Another file has the name of the copy.
    Taken,
    /// Another call failed, or there is no memory.
    Failed,
}

/// The greatest number of copies next to one file.
pub const COPIES_MAX: usize = 16;

/// Why a call on a file that is served failed, if what opened it knows more than the call's fault says.
#[derive(Clone, Copy, Debug, PartialEq, Eq)]
pub enum Reason {
    /// The name no longer leads to what was opened.
    Gone,
    /// What the name leads to could not be looked at.
    Unseen,
    /// What a start was to cut off was not copied.
    NotCopied(Uncopied),
}

/// What is reported of a file whose torn bytes were not copied, after its path.
pub(crate) fn uncopied_text(why: Uncopied) -> &'static str
    ensures { result.now ≡ uncopied_text why }
{
    match why {
        Uncopied::Full =>
            ": the disk is full; free space for a copy of its torn bytes, or start with --drop-torn",
        Uncopied::Forbidden =>
            ": no permission to copy its torn bytes next to it; allow that, or start with --drop-torn",
        Uncopied::TooMany =>
            " has 16 copies of torn bytes next to it; move them elsewhere, or start with --drop-torn",
        Uncopied::Taken =>
            ": another file has the name of the copy of its torn bytes; move it elsewhere, or start with --drop-torn",
        Uncopied::Failed =>
            ": its torn bytes were not copied; look at the disk, or start with --drop-torn",
    }
}
