//! Files that take none of the descriptors of the standard streams.

use std::alloc::{Allocator, Global};
use std::fs::{File, Files, Metadata, OpenOptions};
use std::io;
use std::path::PathBuf;

/// The files of the system, none of which is open on descriptors 0 to 2. If a standard stream was closed before the program
/// started, the system opens the next file on its descriptor, and what is meant for the stream would be written into the
/// file. So each file that is opened is duplicated above them, and the first descriptor is closed. A stream that was closed
/// stays closed.
#[derive(Drop)]
pub struct HighFiles<'a> {
    rt: &'a HostRuntime,
}

impl<'a> HighFiles<'a> {
    /// The files of the system.
    pub fn new(rt: &'a HostRuntime) -> HighFiles<'a> {
        HighFiles { rt }
    }

    /// An error if fewer descriptors are free than the making of a file takes: its own, the one that it is opened on first,
    /// and one for its folder.
    pub fn check_room(&self) -> io::Result<()> {
        let first = File::open(self.rt, "/dev/null")?;
        let second = File::try_clone(&first)?;
        let third = File::try_clone(&second)?;
        drop(third);
        drop(second);
        drop(first);
        Ok(())
    }
}

impl<'a> Alloc for HighFiles<'a> {
    type A = Global;

    fn alloc(&self) -> Global {
        self.rt.alloc()
    }
}

impl<'a> Files for HighFiles<'a> {
    type File = File;

    type Dir = <HostRuntime as Files>::Dir;

    // A duplicate has the lowest descriptor that is free from 3 on.
    fn open_file(&self, how: &OpenOptions, path: &str) -> io::Result<File> {
        let first = self.rt.open_file(how, path)?;
        File::try_clone(&first)
    }

    fn open_dir(&self, path: &str) -> io::Result<Self::Dir> {
        self.rt.open_dir(path)
    }

    fn metadata(&self, path: &str) -> io::Result<Metadata> {
        self.rt.metadata(path)
    }

    fn symlink_metadata(&self, path: &str) -> io::Result<Metadata> {
        self.rt.symlink_metadata(path)
    }

    fn copy(&self, from: &str, to: &str) -> io::Result<u64> {
        self.rt.copy(from, to)
    }

    fn rename(&self, from: &str, to: &str) -> io::Result<()> {
        self.rt.rename(from, to)
    }

    fn remove_file(&self, path: &str) -> io::Result<()> {
        self.rt.remove_file(path)
    }

    fn create_dir(&self, path: &str) -> io::Result<()> {
        self.rt.create_dir(path)
    }

    fn remove_dir(&self, path: &str) -> io::Result<()> {
        self.rt.remove_dir(path)
    }

    fn remove_dir_all<B: Allocator>(&self, alloc: B, path: &str) -> io::Result<()> {
        self.rt.remove_dir_all(alloc, path)
    }

    fn canonicalize<B: Allocator>(&self, alloc: B, path: &str) -> io::Result<PathBuf<B>> {
        self.rt.canonicalize(alloc, path)
    }
}
