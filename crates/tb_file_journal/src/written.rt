//! Writes a record where it waits.
ghost use Rattle.std.specs.Prelude.{◌≡◌, ◌++◌, List, ℕ, OnOk, OnErr};

use std::alloc::AllocError;

/// Writes the bytes of a record after those that wait for a commit, so that they are not copied.
pub trait Written {
    /// The bytes.
    ghost bytes: { Self → List ℕ };

    /// What is known once they are written. By default nothing.
    ghost known: { Self → Type 0 } = { λ _. Unit {0} };

    /// Appends the bytes. `AllocError` if there is no memory for all of them: the vector keeps its bytes, and gets no new ones.
    fn write(&self, out: &mut Vec<u8>) -> Result<(), AllocError>
        ensures ok { OnOk result (out.new.items ≡ out.old.items ++ bytes self.now) }
        ensures fact { OnOk result (known self.now) }
        ensures err { OnErr result (out.new.items ≡ out.old.items) };
}
