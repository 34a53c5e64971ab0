//! The outcome of a call, and the status that reports it to a caller in C.
ghost use Rattle.std.specs.Prelude.{◌≡◌};
ghost use Rattle.tb_embed.specs.Outcomes.{outcome_status, length_of};

/// The outcome of a call.
#[derive(Clone, Copy, Debug, PartialEq, Eq)]
pub enum Outcome {
    /// It did what it is for, and wrote this many bytes.
    Done(usize),
    /// The handle is closed.
    Closed,
    /// The arguments are wrong, or the handle that is to be opened is open.
    Usage,
    /// There was no memory to open a handle, or to enter a new request, and nothing changed.
    NoMemory,
    /// There was no memory to read a frame, and nothing changed.
    Unread,
    /// The bytes are not one frame of a request.
    Malformed,
    /// The request is new, and the end of time leaves no time for it.
    TimeExhausted,
    /// No record has the id.
    Absent,
    /// The room is too small: this many bytes were to be written.
    TooSmall(usize),
}

impl Outcome {
    /// The status, as embed/tb_embed.h names it.
    pub fn status(self) -> u32
        ensures { result ≡ outcome_status self }
    {
        match self {
            Outcome::Done(_) => 0,
            Outcome::Closed => 1,
            Outcome::Usage => 2,
            Outcome::NoMemory | Outcome::Unread => 3,
            Outcome::Malformed => 4,
            Outcome::TimeExhausted => 5,
            Outcome::Absent => 6,
            Outcome::TooSmall(_) => 7,
        }
    }

    /// The number of bytes that were written, or that the room must have.
    pub fn length(self) -> usize
        ensures { result ≡ length_of self }
    {
        match self {
            Outcome::Done(length) | Outcome::TooSmall(length) => length,
            _ => 0,
        }
    }
}
