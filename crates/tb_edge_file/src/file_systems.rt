//! The names of files, as the system's calls see them.
ghost use Rattle.std.specs.Prelude.{◌≡◌, ℕ};
ghost use Rattle.tb_edge_file.specs.Names.{Creates, Empties, Finds, Names, Opens, ReadsAll, ChangesName, IsUntouched, SyncsFile, SyncsName, WritesAll};

use std::io::Error;
use tb_file_journal::FileFault;

/// What the system says of what has a name.
#[derive(Clone, Copy, Debug)]
pub struct Found {
    /// Whether it is a regular file, and no link to one.
    pub is_file: bool,
    /// The number of bytes.
    pub len: u64,
}

/// Names of files, by the system's calls. Each contract is what the call is trusted to do, while nobody else changes these names or files.
pub trait FileSystem {
    /// An open file.
    type File: Drop;

    /// Holds of a file system that reports what its calls do.
    ghost tells: { Type 0 };

    /// The names and the files.
    ghost names: { Self → Names };

    /// The number of an open file.
    ghost number: { Self.File → ℕ };

    /// What has this name. A link is not followed.
    fn find(&mut self, name: &str) -> Result<Found, Error>
        ensures { tells → Finds name.now result (names self.old) (names self.new) };

    /// Opens an existing file for reading.
    fn open(&mut self, name: &str) -> Result<Self::File, Error>
        ensures { tells → Opens number name.now result (names self.old) (names self.new) };

    /// Creates a file, which must not exist, for writing.
    fn create(&mut self, name: &str) -> Result<Self::File, Error>
        ensures { tells → Creates number name.now result (names self.old) (names self.new) };

    /// Opens an existing file for writing, and cuts all its bytes off.
    fn empty(&mut self, name: &str) -> Result<Self::File, Error>
        ensures { tells → Empties number name.now result (names self.old) (names self.new) };

    /// Reads a file that was just opened to its end.
    fn read_all(&mut self, file: &mut Self::File, into: &mut Vec<u8>) -> Result<(), Error>
        ensures file { tells → number file.new ≡ number file.old }
        ensures reads { tells → ReadsAll (number file.old) into.old.items into.new.items result (names self.old) (names self.new) };

    /// Writes bytes into a file that was just opened and has none.
    fn write_all(&mut self, file: &mut Self::File, bytes: &[u8]) -> Result<(), Error>
        ensures file { tells → number file.new ≡ number file.old }
        ensures writes { tells → WritesAll (number file.old) bytes.now result (names self.old) (names self.new) };

    /// Syncs a file.
    fn sync(&mut self, file: &Self::File) -> Result<(), Error>
        ensures { tells → SyncsFile (number file.now) result (names self.old) (names self.new) };

    /// Syncs the folder of a name.
    fn sync_folder(&mut self, name: &str) -> Result<(), FileFault>
        ensures { tells → SyncsName name.now result (names self.old) (names self.new) };

    /// Removes a name.
    fn remove(&mut self, name: &str) -> Result<(), Error>
        ensures { tells → ChangesName name.now (names self.old) (names self.new) };

    /// How many names there are next to this one that begin with it and then with these bytes.
    fn count_beginning(&mut self, name: &str, then: &str) -> Result<usize, Error>
        ensures { tells → IsUntouched (names self.old) (names self.new) };
}
