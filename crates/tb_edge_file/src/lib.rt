//! The commands of `tbd`, a ledger server whose history is in a file: over whatever opens devices, any reader and any writer. One of them follows a
//! log with the ledger in memory, and opens no file.
//!
//! Modules, each over those before it:
//!
//! - `arguments`: `read_command`, what the arguments of the command line ask for.
//! - `help`: the pages of usage.
//! - `live`: `Live`, a file that is read while another program may append to it.
//! - `mending`: `Mended`, a file whose first bytes are read as a journal's.
//! - `laws`: what holds of every dump of a file that grows.
//! - `openers`: `Opener`, what opens the device of a name, and why it does not.
//! - `outlets`: `Outlet`, a writer that says at its end whether all that was put was sent.
//! - `steady`: `Steady`, a reader or a writer whose calls are repeated if a signal interrupts them.
//! - `refusals`: the calls that a wrapper of a device refuses itself.
//! - `places`: `Named`, a file that is compared with what its name leads to, and whose bytes are set aside before they are cut off.
//! - `asides`: why bytes that were to be cut off were not copied.
//! - `file_systems`: `FileSystem`, the names of files, as the system's calls see them.
//! - `cut_copies`: copies of what a start cuts off.
//! - `ends`: `Files` and `Ends`, what contracts know of what a command works with.
//! - `kinds`: what a file is that holds no ledger, by its first bytes.
//! - `faults`: why a command ends with an exit status other than 0.
//! - `printable`: a path or an argument as a line shows it, without control characters.
//! - `lines`: the lines that report faults, and what is wrong with arguments.
//! - `reports`: `Reported`, a file that reports how far it was read.
//! - `dates`: moments as dates.
//! - `summaries`: what `check` reports of a file.
//! - `naming`: what there is to say of a file that is refused.
//! - `files`: `dump` and `check`, a file read without a write.
//! - `copies`: what is reported of a file that was copied.
//! - `rescues`: what is reported of a file that was copied and read on after its damage, and its new file.
//! - `copying`: `salvage` and `backup`, a file copied into a new one.
//! - `following`: the entries of a file above a commit number, as it grows.
//! - `keeping`: `run`, a ledger over a file served.
//! - `follower`: `follow`, a log followed with the ledger in memory.
//! - `commands`: each form over a file, over what opens devices.
//! - `executing`: `execute`, each command, and the exit status of each outcome.
//! - `host`: `serve`, from a program's input and output to `execute`.
//!
//! specs/Forms says which arguments ask for what, specs/Outcomes, specs/Copies and specs/Follower what each form does, specs/Exits how a command ends,
//! specs/ExitStatuses the exit status and the line of each fault, specs/Hosts what `serve` does.
#![tactic(auto)]

mod arguments;
mod asides;
mod commands;
mod copies;
mod copying;
mod cut_copies;
mod dates;
mod ends;
mod executing;
mod faults;
mod file_systems;
mod files;
mod follower;
mod following;
mod help;
mod host;
mod keeping;
mod kinds;
pub mod laws;
mod lines;
mod live;
mod mending;
mod naming;
mod openers;
mod outlets;
mod places;
mod printable;
mod refusals;
mod reports;
mod rescues;
mod steady;
mod summaries;

pub use arguments::{Command, FORMS, Form, Options, read_command};
pub use asides::{COPIES_MAX, Reason, Uncopied};
pub use commands::{check_over, dump_over};
pub use copies::Copied;
pub use cut_copies::copy_cut;
pub use ends::{Ends, Files, Pipes};
pub use executing::Terminals;
pub use faults::{Damage, Failed, KeepCommandFault, Mismatch, Numbers, words_fault};
pub use file_systems::{FileSystem, Found};
pub use following::Part;
pub use host::serve;
pub use kinds::FileKind;
pub use lines::{print_named, refuse, refuse_words};
pub use live::Live;
pub use mending::Mended;
pub use openers::{Opener, OpeningFault, Waited, opening_fault, unread_fault};
pub use outlets::{Outgoing, Outlet};
pub use places::{Named, Place};
pub use reports::Reported;
pub use rescues::{Finished, Rescued};
pub use steady::Steady;
pub use summaries::Summary;
