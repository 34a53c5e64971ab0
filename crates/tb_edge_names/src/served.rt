//! Files that are served, by the system's calls on their names.
ghost use Rattle.std.specs.Prelude.{◌≡◌, ◌≢◌, ℕ, List, false, true, Ok, IfOk};
ghost use Rattle.tb_edge_file.specs.Names.{Creates, IsUntouched, Opens};
ghost use Rattle.tb_edge_names.specs.Served.{Follows, Identifies, Links, file_number};

use std::io::Error;
use tb_edge_file::FileSystem;
use tb_file_journal::System;

/// The identity of a file: its device and its inode, which no other file has as long as it is open.
#[derive(Clone, Copy, Debug)]
pub struct Identity {
    pub device: u64,
    pub inode: u64,
}

impl Identity {
    /// Says whether both are of one file.
    #[tactic(auto, unfolding(crate::specs::Served::file_number))]
    pub fn is(self, other: Identity) -> bool
        ensures same { result ≡ true → file_number self ≡ file_number other }
        ensures other { result ≡ false → file_number self ≢ file_number other }
    {
        if self.device != other.device {
            return false;
        }
        self.inode == other.inode
    }
}

/// What the system says of a file.
#[derive(Clone, Copy, Debug)]
pub struct Status {
    pub identity: Identity,
    /// Whether it is a regular file.
    pub is_file: bool,
    /// How many names it has.
    pub links: u64,
    /// The number of bytes.
    pub len: u64,
}

/// Files that are served or read while they are served, by the system's calls. Each contract is what the call is trusted to do, while nobody else
/// changes these names or files; what others did before is between two calls (`meanwhile`).
pub trait ServedFiles: FileSystem {
    /// An open file that is served or read.
    type Served: System + Drop;

    /// The number of an open file.
    ghost numbered: { Self.Served → ℕ };

    /// This program has locked a file: nobody else has, as long as it is open.
    ghost locked: { Self.Served → Type 0 };

    /// Others may have changed names and files. After it nothing is known of them.
    fn meanwhile(&mut self);

    /// The last look at a name failed, and it is not known whether it leads to a file.
    ghost unseen: { Self → List ℕ → Type 0 };

    /// What a name leads to.
    fn follow(&mut self, name: &str) -> Result<Status, Error>
        ensures { Self.tells → Follows (unseen self.new name.now) name.now result (Self.names self.old) (Self.names self.new) };

    /// What an open file is.
    fn identify(&mut self, file: &Self::Served) -> Result<Status, Error>
        ensures { Self.tells → Identifies (numbered file.now) result (Self.names self.old) (Self.names self.new) };

    /// Opens an existing file for reading and writing. No sync of it has failed since.
    fn open_served(&mut self, name: &str) -> Result<Self::Served, Error>
        ensures opens { Self.tells → Opens numbered name.now result (Self.names self.old) (Self.names self.new) }
        ensures seen { Self.tells → IfOk result (λ file. (Self.Served.disk file).seen ≡ (Self.names self.new).bytes (numbered file)) }
        ensures sound { Self.Served.tells → IfOk result (λ file. (Self.Served.disk file).sound ≡ true) };

    /// Opens an existing file only for reading.
    fn open_read(&mut self, name: &str) -> Result<Self::Served, Error>
        ensures opens { Self.tells → Opens numbered name.now result (Self.names self.old) (Self.names self.new) }
        ensures seen { Self.tells → IfOk result (λ file. (Self.Served.disk file).seen ≡ (Self.names self.new).bytes (numbered file)) };

    /// Creates a file, which must not exist, for reading and writing, with access for its owner only.
    fn create_served(&mut self, name: &str) -> Result<Self::Served, Error>
        ensures creates { Self.tells → Creates numbered name.now result (Self.names self.old) (Self.names self.new) }
        ensures seen { Self.tells → IfOk result (λ file. (Self.Served.disk file).seen ≡ (Self.names self.new).bytes (numbered file)) }
        ensures sound { Self.Served.tells → IfOk result (λ file. (Self.Served.disk file).sound ≡ true) };

    /// Gives what has a name another one, which nothing has. A link is not followed.
    fn link(&mut self, name: &str, new: &str) -> Result<(), Error>
        ensures { Self.tells → Links name.now new.now result (Self.names self.old) (Self.names self.new) };

    /// Locks an open file; false if another process has locked it.
    fn lock(&mut self, file: &Self::Served) -> Result<bool, Error>
        ensures locks { Self.tells → result ≡ Ok true → locked file.now }
        ensures same { Self.tells → IsUntouched (Self.names self.old) (Self.names self.new) };

    /// The same files, for another user of them.
    fn share(&self) -> Self
        ensures { Self.tells → IsUntouched (Self.names self.now) (Self.names result) };
}
