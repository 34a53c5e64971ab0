//! Copies of what a start cuts off, each in a file next to the one that is cut.
ghost use Rattle.std.specs.Prelude.{◌≡◌, ℕ, List, Ok, IfOk, OnOk, string_bytes};
ghost use Rattle.tb_edge_file.specs.CutCopies.{IsKept, IsSoundAt};
ghost use Rattle.tb_edge_file.specs.private.CopySteps.{Has, IsFilled, IsPlain, IsWritten};
ghost use Rattle.tb_edge_file.specs.Names.{IsUntouched};
ghost use Rattle.tb_edge_file.specs.declared.cut_copies.FoundCopy.TheVariants.{Torn, Whole};

use crate::asides::{COPIES_MAX, Uncopied};
use crate::file_systems::FileSystem;
use std::alloc::Global;
use std::format;
use std::io::{Error, ErrorKind};
use tb_file_journal::checksum_of;

/// Why a call that was to make a copy failed.
fn of_call(error: Error) -> Uncopied {
    match error.kind() {
        ErrorKind::StorageFull | ErrorKind::QuotaExceeded | ErrorKind::FileTooLarge =>
            Uncopied::Full,
        ErrorKind::PermissionDenied | ErrorKind::ReadOnlyFilesystem => Uncopied::Forbidden,
        ErrorKind::AlreadyExists => Uncopied::Taken,
        _ => Uncopied::Failed,
    }
}

/// What has the name of a copy.
enum FoundCopy {
    /// Nothing.
    Nothing,
    /// The copy.
    Whole,
    /// A copy that is not whole.
    Torn,
}

/// What is in a regular file of this name that has at most `len` bytes.
#[tactic(auto, using(crate::proofs::CutCopies::untouched_then))]
fn read<F: FileSystem>(
    alloc: Global,
    files: &mut F,
    name: &str,
    len: usize,
) -> Result<Vec<u8>, Uncopied>
    ensures same { F.tells → IsUntouched (F.names files.old) (F.names files.new) }
    ensures read { F.tells → IfOk result (λ content. Has (F.names files.old) name.now content.items) }
{
    let found = files.find(name).map_err(of_call)?;
    if !found.is_file || found.len > len as u64 {
        return Err(Uncopied::Taken);
    }
    let mut content = Vec::new(alloc);
    let mut file = files.open(name).map_err(of_call)?;
    files.read_all(&mut file, &mut content).map_err(of_call)?;
    Ok(content)
}

/// Looks for a copy of these bytes, whose checksum is in its name. A copy with another checksum is partial: its making was cut short.
#[tactic(auto, using(crate::proofs::CutCopies::untouched_then, crate::proofs::CutCopies::has_still))]
fn find<F: FileSystem>(
    alloc: Global,
    files: &mut F,
    name: &str,
    bytes: &[u8],
    checksum: u32,
) -> Result<FoundCopy, Uncopied>
    ensures same { F.tells → IsUntouched (F.names files.old) (F.names files.new) }
    ensures whole { F.tells → result ≡ Ok Whole → Has (F.names files.old) name.now bytes.now }
    ensures torn { F.tells → result ≡ Ok Torn → IsPlain (F.names files.old) name.now }
{
    if let Err(error) = files.find(name) {
        return match error.kind() {
            ErrorKind::NotFound => Ok(FoundCopy::Nothing),
            _ => Err(of_call(error)),
        };
    }
    let content = read(alloc, files, name, bytes.len())?;
    if content.as_slice() == bytes {
        Ok(FoundCopy::Whole)
    } else if checksum_of(&[], &content) == checksum {
        Err(Uncopied::Taken)
    } else {
        Ok(FoundCopy::Torn)
    }
}

/// Writes bytes into a file that was just opened and has none, and syncs it.
#[tactic(auto, using(crate::proofs::CutCopies::filled_by, crate::proofs::CutCopies::unsynced_by, crate::proofs::CutCopies::unwritten_by))]
fn fill<F: FileSystem>(files: &mut F, file: &mut F::File, bytes: &[u8]) -> Result<(), Uncopied>
    ensures { F.tells → IsFilled (F.number file.old) bytes.now result (F.names files.old) (F.names files.new) }
{
    if let Err(error) = files.write_all(file, bytes) {
        return Err(of_call(error));
    }
    match files.sync(file) {
        Ok(()) => Ok(()),
        Err(error) => Err(of_call(error)),
    }
}

/// Creates a file of these bytes, and syncs it.
#[tactic(auto, using(crate::proofs::CutCopies::written_new))]
fn write<F: FileSystem>(files: &mut F, name: &str, bytes: &[u8]) -> Result<(), Uncopied>
    ensures { F.tells → OnOk result (IsWritten (F.names files.old) (F.names files.new) name.now bytes.now) }
{
    let mut file = files.create(name).map_err(of_call)?;
    fill(files, &mut file, bytes)
}

/// Makes a copy that does not exist. A copy that is not whole is removed again.
#[tactic(auto, using(crate::proofs::CutCopies::written_since))]
fn make<F: FileSystem>(files: &mut F, path: &str, name: &str, bytes: &[u8]) -> Result<(), Uncopied>
    ensures { F.tells → OnOk result (IsWritten (F.names files.old) (F.names files.new) name.now bytes.now) }
{
    if files.count_beginning(path, ".cut-").map_err(of_call)? >= COPIES_MAX {
        return Err(Uncopied::TooMany);
    }
    match write(files, name, bytes) {
        Err(Uncopied::Taken) => Err(Uncopied::Taken),
        Err(why) => {
            // If it stays, the next start makes it again.
            let _ = files.remove(name);
            Err(why)
        }
        Ok(()) => Ok(()),
    }
}

/// Makes a copy that is not whole again.
#[tactic(auto, using(crate::proofs::CutCopies::written_again))]
fn make_again<F: FileSystem>(files: &mut F, name: &str, bytes: &[u8]) -> Result<(), Uncopied>
    ensures { F.tells → IsSoundAt (F.names files.old) name.now → IsPlain (F.names files.old) name.now
        → OnOk result (IsWritten (F.names files.old) (F.names files.new) name.now bytes.now) }
{
    let mut file = files.empty(name).map_err(of_call)?;
    fill(files, &mut file, bytes)
}

/// Syncs a copy that was read.
#[tactic(auto, using(crate::proofs::CutCopies::written_synced))]
fn sync<F: FileSystem>(files: &mut F, name: &str) -> Result<(), Uncopied>
    ensures { F.tells → IsSoundAt (F.names files.old) name.now → (bytes : List ℕ) → Has (F.names files.old) name.now bytes
        → OnOk result (IsWritten (F.names files.old) (F.names files.new) name.now bytes) }
{
    let file = files.open(name).map_err(of_call)?;
    files.sync(&file).map_err(of_call)
}

/// Makes or finds a file of this name with exactly these bytes, and syncs it.
#[tactic(auto, using(crate::proofs::CutCopies::written_since, crate::proofs::CutCopies::sound_still, crate::proofs::CutCopies::has_still, crate::proofs::CutCopies::plain_still))]
fn save<F: FileSystem>(
    alloc: Global,
    files: &mut F,
    path: &str,
    name: &str,
    bytes: &[u8],
    checksum: u32,
) -> Result<(), Uncopied>
    ensures { F.tells → IsSoundAt (F.names files.old) name.now → OnOk result (IsWritten (F.names files.old) (F.names files.new) name.now bytes.now) }
{
    match find(alloc, files, name, bytes, checksum)? {
        FoundCopy::Nothing => make(files, path, name, bytes),
        FoundCopy::Whole => sync(files, name),
        FoundCopy::Torn => make_again(files, name, bytes),
    }
}

/// Copies bytes that are in the file of this path from an offset on into a file next to it, durably, and returns its name. If they have a copy
/// there, it is kept; a copy that is not whole is made again.
#[tactic(auto, using(crate::proofs::CutCopies::kept_by))]
pub fn copy_cut<F: FileSystem>(
    alloc: Global,
    files: &mut F,
    path: &str,
    at: usize,
    bytes: &[u8],
) -> Result<String, Uncopied>
    ensures { F.tells → IfOk result (λ name. IsSoundAt (F.names files.old) (string_bytes name) → IsKept (F.names files.new) (string_bytes name) bytes.now) }
{
    let checksum = checksum_of(&[], bytes);
    let Ok(name) = format!(in alloc; "{path}.cut-{at}-{checksum:08x}") else {
        return Err(Uncopied::Failed);
    };
    save(alloc, files, path, name.as_str(), bytes, checksum)?;
    match files.sync_folder(name.as_str()) {
        Ok(()) => Ok(name),
        Err(_) => Err(Uncopied::Failed),
    }
}
