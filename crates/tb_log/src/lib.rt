//! A follower of a log: entries of pairs, each at its position, are served as one script, and each reply is written with the
//! position of its entry and its index there. Hashes of the log and of the replies show whether two followers are the same.
//!
//! Modules, each over those before it:
//!
//! - `faults`: why a follower ends before its log does.
//! - `checksums`: the checksum of an entry.
//! - `chains`: `Chain`, a hash of parts that came one after another.
//! - `inputs`: bytes and numbers from a reader.
//! - `entries`: an entry's content from a reader, checked.
//! - `followers`: `Follower`, a machine with the position and the hashes; the answers to a pair and to a question.
//! - `following`: `follow`, all items of a log.
//! - `laws`: that the replies are those to the script that the entries encode.
#![tactic(auto)]

mod chains;
mod checksums;
mod entries;
mod faults;
mod followers;
mod following;
mod inputs;
pub mod laws;

pub use faults::LogFault;
pub use following::follow;
