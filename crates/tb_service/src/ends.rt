//! Why a run ends.

/// Why a run ended.
#[derive(Clone, Copy, Debug, PartialEq, Eq)]
pub enum Ended {
    /// Each port's close was taken.
    Closed,
    /// There was no memory for the places of one more order.
    NoMemory,
}
