//! The names of the files that `tbd` serves, reads and copies to: what opens them, what a name leads to, and the copies next to them. Over the
//! system's calls, each with an assumed contract.
//!
//! Modules, each over those before it:
//!
//! - `served`: `ServedFiles`, the system's calls on files that are served, and what they are trusted to do.
//! - `looks`: whether a name leads to a file.
//! - `opening`: what opens a file, to serve it, to make it, or to read it.
//! - `parts`: the new file of a copy, which has a name of its own until all of it is durable.
//! - `names`: `Name`, what the name of an open file leads to, and the copies next to it.
//! - `named_files`: `NamedFiles`, what opens the files of a file system by their names.
//! - `laws`: the contracts of the system's calls can be met.
#![tactic(auto)]

pub mod laws;
mod looks;
mod named_files;
mod names;
mod opening;
mod parts;
mod served;

pub use named_files::{NamedFiles, Surroundings};
pub use names::{Copies, Copying, Dropping, Name, Notes};
pub use opening::{Opened, open_existing, open_or_create, open_to_read};
pub use parts::{create_part, name_part};
pub use served::{Identity, ServedFiles, Status};
