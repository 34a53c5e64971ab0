//! A file of the system.
ghost use Rattle.tb_file_journal.specs.Real.{untold};

use crate::faults::JournalFault;
use crate::posix::Posix;
use crate::systems::System;
use std::fs::{File, Files, OpenFile, TryLockError};
use std::io::ErrorKind;
use std::os::unix::fs::{FileExt, OpenOptionsExt};
use std::{fs, io};

/// Why a file was not opened.
#[derive(Debug, Drop)]
pub enum FileFault {
    /// Another process has it open.
    Locked,
    /// A sync of the file or of its folder failed with this fault.
    Sync(JournalFault),
    /// The system's error of any other call.
    System(io::Error),
    /// It is no regular file: a folder, a FIFO or a device.
    NotAFile,
    /// Something has this name, but a new file was to be made.
    Exists,
    /// It is a symbolic link to nothing.
    Dangling,
}

impl From<io::Error> for FileFault {
    ghost use Rattle.std.specs.Prelude.{◌≡◌};
    ghost use Rattle.tb_file_journal.specs.declared.real.FileFault.TheVariants.{System};

    ghost from_gives = { λ error fault. fault ≡ System error };

    fn from(error: io::Error) -> FileFault {
        FileFault::System(error)
    }
}

/// A file that the system has opened. Each call is one of std's. No proof covers what they do: they are trusted to keep the contract of `System`.
#[derive(Drop)]
pub struct HostFile {
    file: File,
}

impl System for HostFile {
    ghost tells = { ⊥ };

    ghost disk = { λ _. untold };

    ghost interruptions = { λ _. 0 };

    ghost counts_now = { λ _ t c le now. now };

    ghost only_now = { λ _ c left. left };

    ghost stays = { λ _ told. absurd told };

    ghost fits = { λ _ told. absurd told };

    ghost ends = { λ _ told. absurd told };

    fn pread(&mut self, into: &mut [u8], offset: u64) -> Result<usize, ErrorKind> {
        self.file
            .read_at(into, offset)
            .map_err(|error| error.kind())
    }

    fn pwrite(&mut self, bytes: &[u8], offset: u64) -> Result<usize, ErrorKind> {
        self.file
            .write_at(bytes, offset)
            .map_err(|error| error.kind())
    }

    fn ftruncate(&mut self, len: u64) -> Result<(), ErrorKind> {
        self.file.set_len(len).map_err(|error| error.kind())
    }

    fn fdatasync(&mut self) -> Result<(), ErrorKind> {
        self.file.sync_data().map_err(|error| error.kind())
    }

    fn fstat(&mut self) -> Result<u64, ErrorKind> {
        match self.file.metadata() {
            Ok(metadata) => Ok(metadata.len()),
            Err(error) => Err(error.kind()),
        }
    }
}

/// A file of the system as a device, locked as long as it is open.
pub type Real = Posix<HostFile>;

impl Posix<HostFile> {
    /// Opens a regular file that exists.
    pub fn open<R: Files<File = File>>(rt: &R, path: &str) -> Result<Real, FileFault> {
        locked(there(rt, path)?)
    }

    /// Opens a file, and creates it if it is missing, with access for its owner only; then its name is durable. A file that is not regular and a
    /// symbolic link to nothing are refused.
    pub fn make<R: Files<File = File> + Alloc>(rt: &R, path: &str) -> Result<Real, FileFault> {
        match opened_or_made(rt, path) {
            Ok(file) => {
                let real = locked(file)?;
                sync_folder(rt, path)?;
                Ok(real)
            }
            Err(fault) => Err(fault),
        }
    }

    /// Creates a file that does not exist, with access for its owner only; then its name is durable.
    pub fn make_new<R: Files<File = File> + Alloc>(rt: &R, path: &str) -> Result<Real, FileFault> {
        match made(rt, path) {
            Ok(file) => {
                let real = locked(file)?;
                sync_folder(rt, path)?;
                Ok(real)
            }
            Err(fault) => Err(fault),
        }
    }

    /// Opens an existing file for reading only: it needs no write permission and takes no lock, so another process may append to it meanwhile. A
    /// write or a cut of it fails. A symbolic link to nothing is reported as such.
    pub fn look<R: Files<File = File>>(rt: &R, path: &str) -> Result<Real, FileFault> {
        find_regular(rt, path)?;
        let file = regular(File::open(rt, path)?)?;
        Ok(Posix::new(HostFile { file }))
    }
}

// A file that exists, or one that is created. Between the two checks another process may create it.
fn opened_or_made<R: Files<File = File>>(rt: &R, path: &str) -> Result<File, FileFault> {
    match made(rt, path) {
        Err(FileFault::Exists) => there(rt, path),
        answer => answer,
    }
}

// An existing regular file, opened for reading and writing.
fn there<R: Files<File = File>>(rt: &R, path: &str) -> Result<File, FileFault> {
    find_regular(rt, path)?;
    regular(File::options().read(true).write(true).open(rt, path)?)
}

// Refuses a name that has no regular file. A FIFO is not opened: that would wait for a writer.
fn find_regular<R: Files<File = File>>(rt: &R, path: &str) -> Result<(), FileFault> {
    let found = match fs::metadata(rt, path) {
        Ok(found) => found,
        Err(error) => return Err(of_link(rt, path, error)),
    };
    if !found.is_file() {
        return Err(FileFault::NotAFile);
    }
    Ok(())
}

// The same for an open file: its name may belong to another file by now.
fn regular(file: File) -> Result<File, FileFault> {
    if !file.metadata()?.is_file() {
        return Err(FileFault::NotAFile);
    }
    Ok(file)
}

// A new file, which only its owner may read and write.
fn made<R: Files<File = File>>(rt: &R, path: &str) -> Result<File, FileFault> {
    let mut how = File::options();
    let how = how.read(true).write(true).create_new(true).mode(0o600);
    match how.open(rt, path) {
        Ok(file) => Ok(file),
        Err(error) => match error.kind() {
            ErrorKind::AlreadyExists => Err(FileFault::Exists),
            _ => Err(FileFault::System(error)),
        },
    }
}

// Why a file is not opened: its name is a symbolic link to nothing, or the error of the system.
fn of_link<R: Files<File = File>>(rt: &R, path: &str, error: io::Error) -> FileFault {
    match (error.kind(), fs::symlink_metadata(rt, path)) {
        (ErrorKind::NotFound, Ok(found)) if found.is_symlink() => FileFault::Dangling,
        _ => FileFault::System(error),
    }
}

// Locks a file, and syncs it.
fn locked(file: File) -> Result<Real, FileFault> {
    match file.try_lock() {
        Ok(()) => Posix::synced(HostFile { file }).map_err(|fault| FileFault::Sync(fault)),
        Err(TryLockError::WouldBlock) => Err(FileFault::Locked),
        Err(TryLockError::Error(error)) => Err(FileFault::System(error)),
    }
}

/// Syncs the folder of a file, so that the file's name is durable. For a symbolic link this is the folder of its target.
pub fn sync_folder<R: Files + Alloc>(rt: &R, path: &str) -> Result<(), FileFault> {
    if fs::symlink_metadata(rt, path)?.is_symlink() {
        let target = fs::canonicalize(rt, path)?;
        return synced(File::open(rt, folder_of(target.as_str()))?.sync_all());
    }
    synced(File::open(rt, folder_of(path))?.sync_all())
}

// The result of a sync.
fn synced(answer: io::Result<()>) -> Result<(), FileFault> {
    answer.map_err(|_| FileFault::Sync(JournalFault::SyncFailed))
}

// The folder that a path names a file in.
fn folder_of(path: &str) -> &str {
    match path.rfind('/') {
        Some(0) => "/",
        Some(at) => &path[..at],
        None => ".",
    }
}
