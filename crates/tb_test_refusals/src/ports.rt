//! The ports of a service, and the moments of its requests.
ghost use Rattle.std.specs.Prelude.{◌≡◌, ◌<◌, ◌+◌, ℕ, length};
ghost use Rattle.tb_service.specs.Names.{Name};
ghost use Rattle.tb_service.specs.Ports.{AreNumbered};

use crate::scripts::Pair;
use tb_service::{Moments, Port};

/// The moments of a script, one for each request; then the last one again and again.
#[derive(Clone, Copy)]
pub struct Listed<'a> {
    pairs: &'a [Pair],
    last: u64,
}

impl<'a> Listed<'a> {
    pub fn new(pairs: &'a [Pair]) -> Listed<'a> {
        Listed { pairs, last: 0 }
    }
}

impl Moments for Listed<'_> {
    ghost tells = { λ before moment after. Unit {0} };

    fn now(&mut self) -> u64 {
        if let Some((pair, rest)) = self.pairs.split_first() {
            self.last = pair.moment;
            self.pairs = rest;
        }
        self.last
    }
}

/// The last port that is left.
pub fn next_port(ports: &mut Vec<Port>) -> Port
    requires some { 0 < length ports.old.items }
    ensures fewer { length ports.new.items + 1 ≡ length ports.old.items }
    ensures own { (name : Name) (n : ℕ) → AreNumbered name n ports.old.items
        → AreNumbered name n ports.new.items × (result.service ≡ name) }
{
    if let Some(port) = ports.pop() {
        return port;
    }
    unreachable!()
}
