//! Why the program ends with an exit status other than 0, and the line of a refusal.
use std::alloc::{AllocError, AllocFailed};
use std::io;

/// What is wrong with what a call returned, or with what is there after it.
#[derive(Clone, Copy, Debug)]
pub enum Why {
    /// It was refused though allocations are refused once.
    RefusedTwice,
    /// It was refused, or the request was not new, and something changed all the same.
    Changed,
    /// A new request's entry may not come next.
    Unfit,
    /// The request has no time.
    NoTime,
    /// What was entered is no repeat when it is taken again.
    NoRepeat,
    /// The commit number is not that of the new entry.
    OtherCommit,
    /// A place is not that of its turn.
    OtherPlace,
    /// An offer came back though the server was there.
    OfferRefused,
    /// A seat sees what is not shown.
    SeenTooMuch,
    /// A seat doesn't see what is shown.
    SeenTooLittle,
    /// What a seat has seen fell.
    SeenFell,
    /// What was taken is not shown.
    NotShown,
    /// A request was called over and over, and not answered.
    NoAnswer,
    /// A seat has no status for a request.
    NoStatus,
    /// The script has more pairs than a queue holds.
    TooManyPairs,
    /// More was answered than there is capacity for.
    NoCapacity,
}

/// Why the program ends with an exit status other than 0.
#[derive(Clone, Copy, Debug)]
pub enum Trouble {
    /// There is no memory for what the program itself needs, or it was given no such script.
    SetUp,
    /// The server is gone: it ended out of memory.
    Gone,
    /// A call returned what it must not, or changed what it must not.
    Wrong(Why),
}

impl Trouble {
    /// 1 if a call was wrong, 3 if the program's own memory was refused, 4 if the server is gone.
    pub fn exit_status(self) -> u8 {
        match self {
            Trouble::Wrong(_) => 1,
            Trouble::SetUp => 3,
            Trouble::Gone => 4,
        }
    }
}

impl From<AllocError> for Trouble {
    fn from(_: AllocError) -> Trouble {
        Trouble::SetUp
    }
}

impl<T: Drop> From<AllocFailed<T>> for Trouble {
    fn from(_: AllocFailed<T>) -> Trouble {
        Trouble::SetUp
    }
}

impl From<io::Error> for Trouble {
    fn from(_: io::Error) -> Trouble {
        Trouble::SetUp
    }
}

/// Prints that a call was refused, and by which fault.
pub fn note<R: Eprint>(rt: &R, call: &str, fault: &str) {
    let _ = eprintln!(rt; "{call} {fault}");
}

/// Prints that a call had no memory.
pub fn note_no_memory<R: Eprint>(rt: &R, call: &str) {
    note(rt, call, "NoMemory");
}

/// Wrong, unless it holds.
pub fn expect(holds: bool, why: Why) -> Result<(), Trouble> {
    if holds {
        Ok(())
    } else {
        Err(Trouble::Wrong(why))
    }
}
