//! The limits as numbers, and laws of frames, for every request whose numbers fit their fields. None of them makes a call.
ghost use Rattle.std.specs.Prelude.{◌≡◌, ◌++◌, None, ℕ, List};
ghost use Rattle.tb_records.specs.Frames.{request_bytes, request_fault, FitsFrame, IsRequest};
ghost use Rattle.tb_records.specs.Messages.{Message, number_fault};
ghost use Rattle.tb_records.specs.declared.limits.TheConstants.{CLIENTS_MAX, ITEMS_MAX, NANOSECONDS_PER_SECOND, LAST_MOMENT, AMOUNT_MAX};

/// The limits that the definitions name: 64 clients, 8190 items, 10^9 nanoseconds in a second, the last moment 2^63 - 1, the
/// largest amount 2^128 - 1.
pub fn limits()
    ensures clients { CLIENTS_MAX ≡ 64 }
    ensures items { ITEMS_MAX ≡ 8190 }
    ensures second { NANOSECONDS_PER_SECOND ≡ 1000000000 }
    ensures last_moment { LAST_MOMENT ≡ 9223372036854775807 }
    ensures largest_amount { AMOUNT_MAX ≡ 340282366920938463463374607431768211455 }
{}

/// The frame of a request has no fault, whatever follows it.
#[tactic(auto, using(crate::proofs::Spellings::spelled_sound))]
pub fn spelled_whole()
    ensures { (r : Message) (more : List ℕ) → IsRequest r → request_fault (request_bytes r ++ more) ≡ None }
{}

/// Each request has one frame, and no frame is a prefix of another one.
#[tactic(auto, using(crate::proofs::Spellings::spelled_once))]
pub fn one_reading()
    ensures { (r s : Message) (x y : List ℕ) → IsRequest r
        → IsRequest s
        → request_bytes r ++ x ≡ request_bytes s ++ y
        → (r ≡ s) × (x ≡ y) }
{}

/// The first fault of a request's values is the first fault of their frame.
#[tactic(auto, using(crate::proofs::Spellings::one_fault))]
pub fn one_fault()
    ensures { (r : Message) (more : List ℕ) → FitsFrame r
        → request_fault (request_bytes r ++ more) ≡ number_fault r }
{}
