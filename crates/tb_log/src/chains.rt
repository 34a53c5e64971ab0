//! Hashes of parts that came one after another.
ghost use Rattle.std.specs.Prelude.{◌≡◌};
ghost use Rattle.tb_log.specs.Format.{no_hash, chained_hash};

use sha2::{Digest, Sha256};
use std::marker::Model;

/// The hash of consecutive parts: for each part it is SHA-256 of the hash before it and its bytes. Its 32 bytes continue with the next part.
#[derive(Drop)]
pub(crate) struct Chain {
    hash: [u8; 32],
}

impl Model for Chain {
    ghost use Rattle.std.specs.Prelude.{ℕ, List};

    ghost Value = { List ℕ };

    ghost view = { λ c. c.hash };
}

impl Chain {
    /// The hash before the first part: 32 zeros.
    pub(crate) fn new() -> Chain
        ensures { result ≡ no_hash }
    {
        Chain { hash: [0; 32] }
    }

    /// The 32 bytes.
    pub(crate) fn as_bytes(&self) -> &[u8; 32]
        ensures { result.now ≡ self.now }
    {
        &self.hash
    }

    /// Adds a part.
    pub(crate) fn add(&mut self, bytes: &[u8])
        ensures { self.new ≡ chained_hash self.old bytes.now }
    {
        let mut hasher = Sha256::new();
        hasher.update(&self.hash);
        hasher.update(bytes);
        self.hash = hasher.finalize();
    }
}
