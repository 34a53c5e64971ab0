//! The names of the system's files, and the files that are opened by them.

use crate::descriptors::HighFiles;
use std::fs;
use std::fs::{File, Metadata, TryLockError};
use std::io::{Error, ErrorKind, Read, Write};
use std::os::unix::fs::{FileExt, MetadataExt, OpenOptionsExt};
use tb_edge_file::{FileSystem, Found};
use tb_edge_names::{Identity, ServedFiles, Status};
use tb_file_journal::{FileFault, System, sync_folder};

/// The names of the system's files. Each call is one of std's, trusted to keep the contracts of `FileSystem` and `ServedFiles`; no proof covers
/// what they do.
#[derive(Drop)]
pub struct HostNames<'a> {
    rt: &'a HostRuntime,
    files: HighFiles<'a>,
}

impl<'a> HostNames<'a> {
    /// The names of the system's files.
    pub fn new(rt: &'a HostRuntime) -> HostNames<'a> {
        HostNames {
            rt,
            files: HighFiles::new(rt),
        }
    }
}

/// A file that the system has opened. Each call is one of std's, trusted to keep the contract of `System`.
#[derive(Drop)]
pub struct OpenFile {
    file: File,
}

impl System for OpenFile {
    ghost use Rattle.tb_file_journal.specs.Real.{untold};

    ghost tells = { ⊥ };

    ghost disk = { λ _. untold };

    ghost interruptions = { λ _. 0 };

    ghost counts_now = { λ _ t c le now. now };

    ghost only_now = { λ _ c left. left };

    ghost stays = { λ _ told. absurd told };

    ghost fits = { λ _ told. absurd told };

    ghost ends = { λ _ told. absurd told };

    fn pread(&mut self, into: &mut [u8], offset: u64) -> Result<usize, ErrorKind> {
        self.file
            .read_at(into, offset)
            .map_err(|error| error.kind())
    }

    fn pwrite(&mut self, bytes: &[u8], offset: u64) -> Result<usize, ErrorKind> {
        self.file
            .write_at(bytes, offset)
            .map_err(|error| error.kind())
    }

    fn ftruncate(&mut self, len: u64) -> Result<(), ErrorKind> {
        self.file.set_len(len).map_err(|error| error.kind())
    }

    fn fdatasync(&mut self) -> Result<(), ErrorKind> {
        self.file.sync_data().map_err(|error| error.kind())
    }

    fn fstat(&mut self) -> Result<u64, ErrorKind> {
        match self.file.metadata() {
            Ok(metadata) => Ok(metadata.len()),
            Err(error) => Err(error.kind()),
        }
    }
}

/// What the system says of a file.
fn status_of(found: &Metadata) -> Status {
    Status {
        identity: Identity {
            device: found.dev(),
            inode: found.ino(),
        },
        is_file: found.is_file(),
        links: found.nlink(),
        len: found.len(),
    }
}

/// The folder of a file, and the file's name in it.
fn folder_and_name(path: &str) -> (&str, &str) {
    match path.rsplit_once('/') {
        Some(("", name)) => ("/", name),
        Some((folder, name)) => (folder, name),
        None => (".", path),
    }
}

/// Says whether a name begins with another and then with these bytes.
fn begins(name: &str, of: &str, then: &str) -> bool {
    match name.strip_prefix(of) {
        Some(rest) => rest.starts_with(then),
        None => false,
    }
}

impl<'a> FileSystem for HostNames<'a> {
    ghost use Rattle.tb_edge_file.specs.Names.{unknown};

    type File = File;

    ghost tells = { ⊥ };

    ghost names = { λ _. unknown };

    ghost number = { λ _. 0 };

    fn find(&mut self, name: &str) -> Result<Found, Error> {
        let found = fs::symlink_metadata(&self.files, name)?;
        Ok(Found {
            is_file: found.is_file(),
            len: found.len(),
        })
    }

    fn open(&mut self, name: &str) -> Result<File, Error> {
        File::open(&self.files, name)
    }

    fn create(&mut self, name: &str) -> Result<File, Error> {
        let mut how = File::options();
        let how = how.write(true).create_new(true).mode(0o600);
        how.open(&self.files, name)
    }

    fn empty(&mut self, name: &str) -> Result<File, Error> {
        let mut how = File::options();
        let how = how.write(true).truncate(true);
        how.open(&self.files, name)
    }

    fn read_all(&mut self, file: &mut File, into: &mut Vec<u8>) -> Result<(), Error> {
        file.read_to_end(into)?;
        Ok(())
    }

    fn write_all(&mut self, file: &mut File, bytes: &[u8]) -> Result<(), Error> {
        file.write_all(bytes)
    }

    fn sync(&mut self, file: &File) -> Result<(), Error> {
        file.sync_all()
    }

    fn sync_folder(&mut self, name: &str) -> Result<(), FileFault> {
        sync_folder(&self.files, name)
    }

    fn remove(&mut self, name: &str) -> Result<(), Error> {
        fs::remove_file(self.rt, name)
    }

    fn count_beginning(&mut self, name: &str, then: &str) -> Result<usize, Error> {
        let (folder, of) = folder_and_name(name);
        let mut count = 0_usize;
        for entry in fs::read_dir(self.rt, folder)? {
            match entry {
                Ok(entry) if begins(entry.file_name(), of, then) => count = count.saturating_add(1),
                Ok(_) => {}
                // A name that is not UTF-8 does not begin so.
                Err(error) if error.kind() == ErrorKind::InvalidFilename => {}
                Err(error) => return Err(error),
            }
        }
        Ok(count)
    }
}

impl<'a> ServedFiles for HostNames<'a> {
    type Served = OpenFile;

    ghost numbered = { λ _. 0 };

    ghost locked = { λ _. ⊥ };

    fn meanwhile(&mut self) {}

    ghost unseen = { λ _ _. ⊥ };

    fn follow(&mut self, name: &str) -> Result<Status, Error> {
        let found = fs::metadata(&self.files, name)?;
        Ok(status_of(&found))
    }

    fn identify(&mut self, file: &OpenFile) -> Result<Status, Error> {
        let found = file.file.metadata()?;
        Ok(status_of(&found))
    }

    fn open_served(&mut self, name: &str) -> Result<OpenFile, Error> {
        let file = File::options()
            .read(true)
            .write(true)
            .open(&self.files, name)?;
        Ok(OpenFile { file })
    }

    fn open_read(&mut self, name: &str) -> Result<OpenFile, Error> {
        let file = File::open(&self.files, name)?;
        Ok(OpenFile { file })
    }

    fn create_served(&mut self, name: &str) -> Result<OpenFile, Error> {
        self.files.check_room()?;
        let mut how = File::options();
        let how = how.read(true).write(true).create_new(true).mode(0o600);
        let file = how.open(&self.files, name)?;
        Ok(OpenFile { file })
    }

    fn link(&mut self, name: &str, new: &str) -> Result<(), Error> {
        fs::hard_link(self.rt, name, new)
    }

    fn lock(&mut self, file: &OpenFile) -> Result<bool, Error> {
        match file.file.try_lock() {
            Ok(()) => Ok(true),
            Err(TryLockError::WouldBlock) => Ok(false),
            Err(TryLockError::Error(error)) => Err(error),
        }
    }

    fn share(&self) -> HostNames<'a> {
        HostNames::new(self.rt)
    }
}
