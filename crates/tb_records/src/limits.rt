//! The rules of a ledger, how many clients it serves, and how many items a body has.
ghost use Rattle.std.specs.Prelude.{◌≡◌, ◌≤◌, ◌<◌, IfSome, IsSome, ◌↔◌};
ghost use Rattle.tb_records.specs.Limits.{IsClients};

use std::marker::Model;

/// The greatest number of clients that can have a session at one time.
pub const CLIENTS_MAX: u32 = 64;

/// The greatest number of items that a body has.
pub const ITEMS_MAX: usize = 8190;

/// The nanoseconds of a second. Moments, times and timestamps count nanoseconds, a timeout counts seconds.
pub const NANOSECONDS_PER_SECOND: u64 = 1_000_000_000;

/// The last moment of the clock, 2^63 - 1 nanoseconds: no time, timestamp or expiry is above it.
pub const LAST_MOMENT: u64 = 9_223_372_036_854_775_807;

/// The largest amount and the largest sum, 2^128 - 1. No id has this number.
pub const AMOUNT_MAX: u128 = u128::MAX;

/// The rules of the ledger.
#[derive(Clone, Copy, Debug, PartialEq, Eq)]
pub enum Profile {
    /// A refused transfer's id may be used again.
    One,
    /// The id of a transfer that was refused for a transient cause is refused from then on.
    Two,
}

/// How many clients can have a session at one time, from 1 to `CLIENTS_MAX`.
#[derive(Clone, Copy)]
pub struct ClientsMax {
    number: u32,
}

impl Model for ClientsMax {
    ghost use Rattle.std.specs.Prelude.{ℕ};
    ghost use Rattle.tb_records.specs.Limits.{IsClients};

    ghost Value = { ℕ };

    ghost view = { λ c. c.number };

    ghost invariant = { λ c. IsClients c.number };

    ghost inverse = { λ n. record { number = n } };
}

impl ClientsMax {
    /// `None` if the number is not from 1 to `CLIENTS_MAX`.
    pub fn new(number: u32) -> Option<ClientsMax>
        ensures value { IfSome result (λ c. c ≡ number) }
        ensures range { IsSome result ↔ IsClients number }
    {
        if number < 1 || CLIENTS_MAX < number {
            return None;
        }
        Some(ClientsMax { number })
    }

    /// The number.
    pub fn get(self) -> u32
        ensures value { result ≡ self }
        ensures positive { 0 < self }
        ensures at_most { self ≤ CLIENTS_MAX }
    {
        self.number
    }
}
