//! The rule of the copies: each reader sees all that it had seen before.
use crate::naming::Naming;
use crate::replica::Replica;
use atomic_table::{Join, Split};
use crossbeam_utils::rule::{Outcome, Protocol};

/// What a reader or the publisher has seen. Code makes only the first value of it, which has seen nothing.
pub type View = Option<crate::front::Front>;

/// The rule of the copies.
pub struct Published;

impl<J: Naming> Protocol<Replica<J>, View> for Published {
    ghost use Rattle.std.specs.Prelude.{None};
    ghost use Rattle.tb_published.specs.private.Sharing.{ShowsToReaders};

    ghost holds = { ShowsToReaders };

    ghost first = { None };
}

/// What a step of a reader or of the publisher reports.
pub struct Look;

impl<J: Naming> Outcome<Replica<J>, View> for Look {
    ghost use Rattle.tb_published.specs.private.Sharing.{Sees};

    ghost then = { Sees };
}

/// What the publisher has seen, passed to a reader that has seen nothing.
pub struct Notes;

impl Split<View> for Notes {
    ghost left = { λ v. v };

    ghost right = { λ v. v };
}

impl Join<View> for Notes {
    ghost use Rattle.std.specs.Prelude.{None};

    ghost both = { λ v w. w };

    ghost spent = { None };
}
