//! How many seats there are.
ghost use Rattle.std.specs.Prelude.{◌≡◌, ◌≤◌, ◌<◌, IfSome, IsSome, ◌↔◌};

use std::marker::Model;

/// The number of seats, from 1 to 32.
#[derive(Clone, Copy)]
pub struct SeatCount {
    number: u32,
}

impl Model for SeatCount {
    ghost use Rattle.std.specs.Prelude.{ℕ, ◌<◌, ◌≤◌};

    ghost Value = { ℕ };

    ghost view = { λ c. c.number };

    ghost invariant = { λ c. (0 < c.number) × (c.number ≤ 32) };

    ghost inverse = { λ n. record { number = n } };
}

impl SeatCount {
    /// None if the number is not from 1 to 32.
    pub fn new(number: u32) -> Option<SeatCount>
        ensures value { IfSome result (λ c. c ≡ number) }
        ensures range { IsSome result ↔ ((0 < number) × (number ≤ 32)) }
    {
        if number < 1 || 32 < number {
            return None;
        }
        Some(SeatCount { number })
    }

    /// The number.
    pub fn get(self) -> u32
        ensures value { result ≡ self }
        ensures range { (0 < self) × (self ≤ 32) }
    {
        self.number
    }
}
