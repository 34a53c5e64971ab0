//! Published copies of a machine. One publisher enters requests into a history. Client threads read replies and records from
//! two copies of the machine after it, each through its own seat, without a lock.
//!
//! Modules:
//!
//! - `naming`: `Naming`, the name of an opening, a type parameter.
//! - `limits`: `SeatCount`.
//! - `faults`: what became of a request that was taken, why a call is refused.
//! - `front`: `Front`, a prefix of the history as a token over a book that counts entries; `HistoryHead`, the head of the
//!   history, which only it adds to.
//! - `ahead`: the accounts that the next requests need, searched for beforehand if accounts are many.
//! - `replica`: `Replica`, a copy, which is a machine and a front; `Posted`, what the publisher passes to the copies.
//! - `rule`: the rule of the copies: all that any reader has seen is a prefix of what is shown.
//! - `entering`: how the publisher judges a request by its own machine, and enters it.
//! - `offering`: the next entry, made ready for the copies.
//! - `copies`: `Copies`, the two copies: how they begin, take in what was offered, and are swapped.
//! - `seat`: `Seat`, what a client thread reads through; how it looks at the copy that is shown.
//! - `told`: `Told`, what the publisher tells seats.
//! - `publisher`: `Publisher`, the only one that enters requests.
//! - `holder`: `HeldPublisher`, a publisher that closes when it is dropped.
//! - `publishing`: `Opening`, by which rules a publisher begins; `open`, a publisher and its seats.
//! - `laws`: what follows about what seats have seen: functions that do nothing.
#![tactic(auto)]

mod ahead;
mod copies;
mod entering;
mod faults;
mod front;
mod holder;
pub mod laws;
mod limits;
mod naming;
mod offering;
mod publisher;
mod publishing;
mod replica;
mod rule;
mod seat;
mod told;

pub use faults::{OpenFault, SeatFault, TakeFault, Taken};
pub use holder::HeldPublisher;
pub use limits::SeatCount;
pub use naming::Naming;
pub use publisher::Publisher;
pub use publishing::{Opening, open};
pub use seat::Seat;
pub use told::Told;
