//! What opens a file: to serve it, to make it, or to read it.
ghost use Rattle.std.specs.Prelude.{◌≡◌, ℕ, List, true, IfOk, None, Some};
ghost use Rattle.tb_edge_file.specs.Names.{IsUntouched};
ghost use Rattle.tb_edge_names.specs.Served.{IsOpenAt, IsReadFrom, IsServed, KeepsFolder, MakesOnly, NameStays, OnlySyncs, file_number};

use crate::served::{Identity, ServedFiles};
use std::io::{Error, ErrorKind};
use tb_file_journal::{Device, FileFault, Posix};

/// A file that was opened, and its identity.
#[derive(Drop)]
pub struct Opened<S> {
    pub file: Posix<S>,
    pub identity: Identity,
}

/// Why a name that was not followed is not opened: it is a symbolic link to nothing, or the error of the system.
fn of_link<F: ServedFiles>(files: &mut F, name: &str, error: Error) -> FileFault
    ensures { F.tells → IsUntouched (F.names files.old) (F.names files.new) }
{
    if error.kind() != ErrorKind::NotFound {
        return FileFault::System(error);
    }
    match files.find(name) {
        Ok(_) => FileFault::Dangling,
        Err(_) => FileFault::System(error),
    }
}

/// Refuses a name that leads to no regular file. A FIFO is not opened: that would wait for a writer.
#[tactic(auto, using(crate::proofs::Openings::untouched_then))]
fn find_regular<F: ServedFiles>(files: &mut F, name: &str) -> Result<(), FileFault>
    ensures { F.tells → IsUntouched (F.names files.old) (F.names files.new) }
{
    match files.follow(name) {
        Ok(status) if status.is_file => Ok(()),
        Ok(_) => Err(FileFault::NotAFile),
        Err(error) => Err(of_link(files, name, error)),
    }
}

/// The identity of an open file, which has to be regular: its name may lead to another file by now.
fn regular<F: ServedFiles>(files: &mut F, file: &F::Served) -> Result<Identity, FileFault>
    ensures same { F.tells → IsUntouched (F.names files.old) (F.names files.new) }
    ensures is { F.tells → IfOk result (λ identity. file_number identity ≡ F.numbered file.now) }
{
    match files.identify(file) {
        Ok(status) if status.is_file => Ok(status.identity),
        Ok(_) => Err(FileFault::NotAFile),
        Err(error) => Err(FileFault::System(error)),
    }
}

/// Opens a regular file that exists.
#[tactic(auto, using(crate::proofs::Openings::untouched_then, crate::proofs::Openings::open_at))]
fn existing<F: ServedFiles>(files: &mut F, name: &str) -> Result<F::Served, FileFault>
    ensures same { F.tells → IsUntouched (F.names files.old) (F.names files.new) }
    ensures opened { F.tells → IfOk result (λ file. IsOpenAt F.numbered F.Served.disk name.now file (F.names files.new)) }
    ensures sound { F.Served.tells → IfOk result (λ file. (F.Served.disk file).sound ≡ true) }
{
    find_regular(files, name)?;
    match files.open_served(name) {
        Ok(file) => Ok(file),
        Err(error) => Err(FileFault::System(error)),
    }
}

/// Creates a file that does not exist.
#[tactic(auto, using(crate::proofs::Openings::made_new, crate::proofs::Openings::made_none, crate::proofs::Openings::new_at, crate::proofs::Openings::folder_new, crate::proofs::Openings::folder_same))]
pub(crate) fn created<F: ServedFiles>(files: &mut F, name: &str) -> Result<F::Served, FileFault>
    ensures makes { F.tells → MakesOnly name.now (F.names files.old) (F.names files.new) }
    ensures folder { F.tells → KeepsFolder name.now (F.names files.old) (F.names files.new) }
    ensures none { F.tells → IfOk result (λ _. (F.names files.old).leads name.now ≡ None) }
    ensures opened { F.tells → IfOk result (λ file. IsOpenAt F.numbered F.Served.disk name.now file (F.names files.new)) }
    ensures sound { F.Served.tells → IfOk result (λ file. (F.Served.disk file).sound ≡ true) }
{
    match files.create_served(name) {
        Ok(file) => Ok(file),
        Err(error) if error.kind() == ErrorKind::AlreadyExists => Err(FileFault::Exists),
        Err(error) => Err(FileFault::System(error)),
    }
}

/// Opens a file that exists, or creates it. Between the two another process may create it.
#[tactic(auto, using(crate::proofs::Openings::made_then, crate::proofs::Openings::folder_then))]
fn existing_or_created<F: ServedFiles>(files: &mut F, name: &str) -> Result<F::Served, FileFault>
    ensures makes { F.tells → MakesOnly name.now (F.names files.old) (F.names files.new) }
    ensures folder { F.tells → KeepsFolder name.now (F.names files.old) (F.names files.new) }
    ensures opened { F.tells → IfOk result (λ file. IsOpenAt F.numbered F.Served.disk name.now file (F.names files.new)) }
    ensures sound { F.Served.tells → IfOk result (λ file. (F.Served.disk file).sound ≡ true) }
{
    match created(files, name) {
        Ok(file) => Ok(file),
        Err(FileFault::Exists) => existing(files, name),
        Err(fault) => Err(fault),
    }
}

/// Locks an open file, and syncs it.
#[tactic(auto, using(crate::proofs::Openings::untouched_then, crate::proofs::Openings::served))]
pub(crate) fn locked<F: ServedFiles>(
    files: &mut F,
    file: F::Served,
) -> Result<Opened<F::Served>, FileFault>
    ensures same { F.tells → IsUntouched (F.names files.old) (F.names files.new) }
    ensures served { F.tells → F.Served.tells → (name : List ℕ) → IsOpenAt F.numbered F.Served.disk name file (F.names files.old) → (F.Served.disk file).sound ≡ true
        → IfOk result (λ opened. IsServed F.numbered F.locked name opened.identity (⟦<Posix<F::Served> as Device>⟧.disk opened.file) (F.names files.new)) }
    ensures sound { F.Served.tells → (F.Served.disk file).sound ≡ true → IfOk result (λ opened. (⟦<Posix<F::Served> as Device>⟧.disk opened.file).sound ≡ true) }
{
    let identity = match regular(files, &file) {
        Ok(identity) => identity,
        Err(fault) => {
            drop(file);
            return Err(fault);
        }
    };
    match files.lock(&file) {
        Ok(true) => match Posix::synced(file) {
            Ok(file) => Ok(Opened { file, identity }),
            Err(fault) => Err(FileFault::Sync(fault)),
        },
        Ok(false) => Err(FileFault::Locked),
        Err(error) => Err(FileFault::System(error)),
    }
}

/// Locks an open file, and syncs it and its name.
#[tactic(auto, using(crate::proofs::Openings::only_syncs, crate::proofs::Openings::only_untouched, crate::proofs::Openings::served_named, crate::proofs::Openings::name_stays))]
fn locked_with_name<F: ServedFiles>(
    files: &mut F,
    name: &str,
    file: F::Served,
) -> Result<Opened<F::Served>, FileFault>
    ensures syncs { F.tells → OnlySyncs name.now (F.names files.old) (F.names files.new) }
    ensures served { F.tells → F.Served.tells → IsOpenAt F.numbered F.Served.disk name.now file (F.names files.old) → (F.Served.disk file).sound ≡ true
        → IfOk result (λ opened. IsServed F.numbered F.locked name.now opened.identity (⟦<Posix<F::Served> as Device>⟧.disk opened.file) (F.names files.new)) }
    ensures name { F.tells → IfOk result (λ _. NameStays name.now (F.names files.old) (F.names files.new)) }
    ensures sound { F.Served.tells → (F.Served.disk file).sound ≡ true → IfOk result (λ opened. (⟦<Posix<F::Served> as Device>⟧.disk opened.file).sound ≡ true) }
{
    let opened = locked(files, file)?;
    match files.sync_folder(name) {
        Ok(()) => Ok(opened),
        Err(fault) => {
            drop(opened);
            Err(fault)
        }
    }
}

/// Opens a regular file that exists, to serve it: it makes nothing. The file is locked, and durable as it was read.
#[tactic(auto, using(crate::proofs::Openings::untouched_then))]
pub fn open_existing<F: ServedFiles>(
    files: &mut F,
    name: &str,
) -> Result<Opened<F::Served>, FileFault>
    ensures same { F.tells → IsUntouched (F.names files.old) (F.names files.new) }
    ensures served { F.tells → F.Served.tells
        → IfOk result (λ opened. IsServed F.numbered F.locked name.now opened.identity (⟦<Posix<F::Served> as Device>⟧.disk opened.file) (F.names files.new)) }
    ensures sound { F.Served.tells → IfOk result (λ opened. (⟦<Posix<F::Served> as Device>⟧.disk opened.file).sound ≡ true) }
{
    let file = existing(files, name)?;
    locked(files, file)
}

/// Opens a regular file, and creates it if it is missing, with access for its owner only. The file is locked, and durable as it was read, and so
/// is its name. A file that is not regular and a symbolic link to nothing are refused.
#[tactic(auto, using(crate::proofs::Openings::made_syncs, crate::proofs::Openings::name_stays_since))]
pub fn open_or_create<F: ServedFiles>(
    files: &mut F,
    name: &str,
) -> Result<Opened<F::Served>, FileFault>
    ensures makes { F.tells → MakesOnly name.now (F.names files.old) (F.names files.new) }
    ensures served { F.tells → F.Served.tells
        → IfOk result (λ opened. IsServed F.numbered F.locked name.now opened.identity (⟦<Posix<F::Served> as Device>⟧.disk opened.file) (F.names files.new)) }
    ensures name { F.tells → IfOk result (λ _. NameStays name.now (F.names files.old) (F.names files.new)) }
    ensures sound { F.Served.tells → IfOk result (λ opened. (⟦<Posix<F::Served> as Device>⟧.disk opened.file).sound ≡ true) }
{
    let file = existing_or_created(files, name)?;
    locked_with_name(files, name, file)
}

/// Opens a regular file that exists only for reading: it makes nothing, needs no write permission and takes no lock, so another process may append
/// to it meanwhile. A write or a cut of it fails. A symbolic link to nothing is reported as such.
#[tactic(auto, using(crate::proofs::Openings::untouched_then, crate::proofs::Openings::read_from, crate::proofs::Openings::opened_is))]
pub fn open_to_read<F: ServedFiles>(
    files: &mut F,
    name: &str,
) -> Result<Opened<F::Served>, FileFault>
    ensures same { F.tells → IsUntouched (F.names files.old) (F.names files.new) }
    ensures read { F.tells → IfOk result (λ opened. IsReadFrom name.now (⟦<Posix<F::Served> as Device>⟧.disk opened.file) (F.names files.new)) }
    ensures is { F.tells → IfOk result (λ opened. (F.names files.old).leads name.now ≡ Some (file_number opened.identity)) }
{
    find_regular(files, name)?;
    let file = match files.open_read(name) {
        Ok(file) => file,
        Err(error) => return Err(FileFault::System(error)),
    };
    match regular(files, &file) {
        Ok(identity) => {
            let file = Posix::new(file);
            Ok(Opened { file, identity })
        }
        Err(fault) => {
            drop(file);
            Err(fault)
        }
    }
}
