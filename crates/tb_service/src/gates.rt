//! The source of a server's moments, and what each request passes before it is entered.
ghost use Rattle.std.specs.Prelude.{ℕ};

/// Gives the moments of requests, in nanoseconds.
pub trait Moments {
    ghost use Rattle.std.specs.Prelude.{ℕ};

    /// From the first state this moment can be given, and it leaves the second.
    ghost tells: { Self → ℕ → Self → Type 0 };

    /// The moment of the next request.
    fn now(&mut self) -> u64
        ensures { tells self.old result self.new };
}

/// Comes before the history.
pub trait Gate {
    ghost use Rattle.std.specs.Prelude.{ℕ};

    /// In the first state the gate can be passed with this place, and it leaves the second.
    ghost passes: { Self → ℕ → Self → Type 0 };

    /// Lets the request at a place pass. The server calls it with 1, 2, 3 and so on, each before that request is entered.
    fn pass(&mut self, place: u64)
        ensures { passes self.old place self.new };
}

/// The gate that lets all pass.
#[derive(Clone, Copy)]
pub struct Open;

impl Gate for Open {
    ghost passes = { λ before place after. Unit {0} };

    fn pass(&mut self, place: u64) {
        let _ = place;
    }
}
