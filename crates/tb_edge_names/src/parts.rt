//! The new file of a copy: it has a name of its own until all of it is durable.
ghost use Rattle.std.specs.Prelude.{◌≡◌, ◌≢◌, true, None, Some, IfOk, OnOk, string_bytes};
ghost use Rattle.tb_edge_file.specs.Names.{ChangesName, IsUntouched};
ghost use Rattle.tb_edge_names.specs.Parts.{GivesName, NamesPart, RemakesOnly, SettlesName, part_name};
ghost use Rattle.tb_edge_names.specs.Served.{IsLinked, IsOpenAt, IsServed, MakesOnly, file_number};

use crate::opening::{Opened, created, locked};
use crate::served::{Identity, ServedFiles};
use std::alloc::{AllocError, Global};
use std::io::ErrorKind;
use tb_edge_file::{OpeningFault, opening_fault};
use tb_file_journal::{Device, FileFault, Posix};

/// The name that a new file has before it gets its own.
pub(crate) fn part_name(alloc: Global, name: &str) -> Result<String, AllocError>
    ensures { IfOk result (λ part. string_bytes part ≡ part_name name.now) }
{
    let mut part = String::from_str(alloc, name)?;
    part.push_str(".part")?;
    Ok(part)
}

/// Refuses a name that something has.
#[tactic(auto, using(crate::proofs::NewFiles::none_found))]
fn find_none<F: ServedFiles>(files: &mut F, name: &str) -> Result<(), FileFault>
    ensures same { F.tells → IsUntouched (F.names files.old) (F.names files.new) }
    ensures none { F.tells → OnOk result ((F.names files.old).leads name.now ≡ None) }
{
    match files.find(name) {
        Ok(_) => Err(FileFault::Exists),
        Err(error) => match error.kind() {
            ErrorKind::NotFound => Ok(()),
            _ => Err(FileFault::System(error)),
        },
    }
}

/// Says whether a name leads to an open file.
#[tactic(auto, using(crate::proofs::Openings::untouched_then))]
fn leads_to<F: ServedFiles>(files: &mut F, name: &str, file: &F::Served) -> Result<bool, FileFault>
    ensures { F.tells → IsUntouched (F.names files.old) (F.names files.new) }
{
    let held = match files.identify(file) {
        Ok(status) => status.identity,
        Err(error) => return Err(FileFault::System(error)),
    };
    match files.follow(name) {
        Ok(status) => Ok(status.identity.is(held)),
        Err(error) => Err(FileFault::System(error)),
    }
}

/// Opens a file of this name that was found.
fn open_found<F: ServedFiles>(files: &mut F, part: &str) -> Result<Option<F::Served>, FileFault>
    ensures { F.tells → IsUntouched (F.names files.old) (F.names files.new) }
{
    match files.open_served(part) {
        Ok(file) => Ok(Some(file)),
        Err(error) => Err(FileFault::System(error)),
    }
}

/// Opens a regular file of this name; None if nothing has it.
#[tactic(auto, using(crate::proofs::Openings::untouched_then))]
fn open_left<F: ServedFiles>(files: &mut F, part: &str) -> Result<Option<F::Served>, FileFault>
    ensures { F.tells → IsUntouched (F.names files.old) (F.names files.new) }
{
    match files.find(part) {
        Ok(found) if found.is_file => open_found(files, part),
        Ok(_) => Err(FileFault::NotAFile),
        Err(error) => match error.kind() {
            ErrorKind::NotFound => Ok(None),
            _ => Err(FileFault::System(error)),
        },
    }
}

/// Locks a file that an earlier copy left under this name, if the name still leads to it: another copy may have it.
#[tactic(auto, using(crate::proofs::Openings::untouched_then))]
fn lock_left<F: ServedFiles>(files: &mut F, part: &str, file: &F::Served) -> Result<(), FileFault>
    ensures { F.tells → IsUntouched (F.names files.old) (F.names files.new) }
{
    match files.lock(file) {
        Ok(true) => {
            if leads_to(files, part, file)? {
                Ok(())
            } else {
                Err(FileFault::Locked)
            }
        }
        Ok(false) => Err(FileFault::Locked),
        Err(error) => Err(FileFault::System(error)),
    }
}

/// Removes the name of a file that an earlier copy left, under its lock. Returns that file, which stays locked as long as it is open.
#[tactic(auto, using(crate::proofs::NewFiles::only_untouched, crate::proofs::NewFiles::only_removed))]
fn remove_left<F: ServedFiles>(files: &mut F, part: &str) -> Result<Option<F::Served>, FileFault>
    ensures { F.tells → ChangesName part.now (F.names files.old) (F.names files.new) }
{
    let Some(file) = open_left(files, part)? else {
        return Ok(None);
    };
    match lock_left(files, part, &file) {
        Ok(()) => match files.remove(part) {
            Ok(()) => Ok(Some(file)),
            Err(error) => {
                drop(file);
                Err(FileFault::System(error))
            }
        },
        Err(fault) => {
            drop(file);
            Err(fault)
        }
    }
}

/// Creates the file of a part, which does not exist unless another copy made it meanwhile.
fn created_alone<F: ServedFiles>(files: &mut F, part: &str) -> Result<F::Served, FileFault>
    ensures makes { F.tells → MakesOnly part.now (F.names files.old) (F.names files.new) }
    ensures opened { F.tells → IfOk result (λ file. IsOpenAt F.numbered F.Served.disk part.now file (F.names files.new)) }
    ensures sound { F.Served.tells → IfOk result (λ file. (F.Served.disk file).sound ≡ true) }
{
    match created(files, part) {
        Ok(file) => Ok(file),
        Err(FileFault::Exists) => Err(FileFault::Locked),
        Err(fault) => Err(fault),
    }
}

/// Creates the file of a part. One that an earlier copy left is removed before.
#[tactic(auto, using(crate::proofs::NewFiles::remakes, crate::proofs::NewFiles::remakes_none))]
fn created_again<F: ServedFiles>(files: &mut F, part: &str) -> Result<F::Served, FileFault>
    ensures makes { F.tells → RemakesOnly part.now (F.names files.old) (F.names files.new) }
    ensures opened { F.tells → IfOk result (λ file. IsOpenAt F.numbered F.Served.disk part.now file (F.names files.new)) }
    ensures sound { F.Served.tells → IfOk result (λ file. (F.Served.disk file).sound ≡ true) }
{
    let left = remove_left(files, part)?;
    let made = created_alone(files, part);
    drop(left);
    made
}

/// Creates a file for a name that leads to none, under the name of its part, with access for its owner only. It is locked.
#[tactic(auto, using(crate::proofs::NewFiles::remakes_same, crate::proofs::NewFiles::same_remakes, crate::proofs::NewFiles::remakes_untouched))]
pub fn create_part<F: ServedFiles>(
    files: &mut F,
    part: &str,
    name: &str,
) -> Result<Opened<F::Served>, FileFault>
    ensures makes { F.tells → RemakesOnly part.now (F.names files.old) (F.names files.new) }
    ensures none { F.tells → IfOk result (λ _. (F.names files.old).leads name.now ≡ None) }
    ensures served { F.tells → F.Served.tells
        → IfOk result (λ opened. IsServed F.numbered F.locked part.now opened.identity (⟦<Posix<F::Served> as Device>⟧.disk opened.file) (F.names files.new)) }
    ensures sound { F.Served.tells → IfOk result (λ opened. (⟦<Posix<F::Served> as Device>⟧.disk opened.file).sound ≡ true) }
{
    find_none(files, name)?;
    let file = created_again(files, part)?;
    locked(files, file)
}

/// Says whether the name of a part leads to the file of this identity.
fn find_part<F: ServedFiles>(
    files: &mut F,
    part: &str,
    identity: Identity,
) -> Result<(), OpeningFault>
    ensures same { F.tells → IsUntouched (F.names files.old) (F.names files.new) }
    ensures led { F.tells → OnOk result ((F.names files.old).leads part.now ≡ Some (file_number identity)) }
{
    match files.follow(part) {
        Ok(status) => {
            if status.identity.is(identity) {
                Ok(())
            } else {
                Err(OpeningFault::Missing)
            }
        }
        Err(error) => Err(opening_fault(&FileFault::System(error))),
    }
}

/// Gives a part a name that leads to none.
fn link_part<F: ServedFiles>(files: &mut F, part: &str, name: &str) -> Result<(), OpeningFault>
    ensures linked { F.tells → OnOk result (IsLinked part.now name.now (F.names files.old) (F.names files.new)) }
    ensures rest { F.tells → ChangesName name.now (F.names files.old) (F.names files.new) }
{
    match files.link(part, name) {
        Ok(()) => Ok(()),
        Err(error) => match error.kind() {
            ErrorKind::AlreadyExists => Err(OpeningFault::Exists),
            _ => Err(opening_fault(&FileFault::System(error))),
        },
    }
}

/// Takes the name of a part away, and syncs the folder of its own name. A part that keeps both names is whole.
#[tactic(auto, using(crate::proofs::NewFiles::settles, crate::proofs::NewFiles::settles_not))]
fn settle_name<F: ServedFiles>(files: &mut F, part: &str, name: &str) -> Result<(), OpeningFault>
    requires apart { name.now ≢ part.now }
    ensures { F.tells → SettlesName part.now name.now result (F.names files.old) (F.names files.new) }
{
    let _kept = files.remove(part);
    match files.sync_folder(name) {
        Ok(()) => Ok(()),
        Err(fault) => Err(opening_fault(&fault)),
    }
}

/// Gives the part of this identity a name that leads to none.
fn give_name<F: ServedFiles>(
    files: &mut F,
    part: &str,
    name: &str,
    identity: Identity,
) -> Result<(), OpeningFault>
    requires apart { name.now ≢ part.now }
    ensures { F.tells → GivesName part.now name.now identity result (F.names files.old) (F.names files.new) }
{
    match find_part(files, part, identity) {
        Ok(()) => match link_part(files, part, name) {
            Ok(()) => settle_name(files, part, name),
            Err(fault) => Err(fault),
        },
        Err(fault) => Err(fault),
    }
}

/// Gives the part of this identity its name, if that leads to none. No file is replaced.
#[tactic(auto, using(crate::proofs::NewFiles::since))]
pub fn name_part<F: ServedFiles>(
    files: &mut F,
    part: &str,
    name: &str,
    identity: Identity,
) -> Result<(), OpeningFault>
    requires apart { name.now ≢ part.now }
    ensures { F.tells → NamesPart F.names part.now name.now identity result (F.names files.new) }
{
    files.meanwhile();
    give_name(files, part, name, identity)
}
