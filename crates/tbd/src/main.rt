//! `tbd`: a ledger server whose history is in a file. It serves requests from standard input to standard output, and sends
//! each reply when the entry that it rests on is durable. It writes the history of a file as a dump, reports what is in a
//! file, copies one, and follows a log in memory. tb_edge_file has what it does, over any files, reader and writer.
//!
//! Modules:
//!
//! - `descriptors`: `HighFiles`, files that take none of the descriptors of the standard streams.
//! - `host_names`: `HostNames`, the names of the system's files, and the files that are opened by them.
//! - `wholes`: the whole entries among bytes that are cut off.
//! - `notes`: what is noted of the file that is served: why a call failed, and what was copied.
//! - `surroundings`: lines on standard error, and the clock.
//! - `running`: what the words ask for, done over these.
#![tactic(auto)]

mod descriptors;
mod host_names;
mod notes;
mod running;
mod surroundings;
mod wholes;

use running::run_words;
use std::process::ExitCode;
use surroundings::lines;
use tb_edge_commands::words;
use tb_edge_file::{refuse, words_fault};
use tb_records::Counting;

fn main(rt: HostRuntime) -> ExitCode {
    let mut faults = Counting::new(lines(&rt));
    let exit_status = match words(&rt) {
        Ok(words) => run_words(&rt, words.as_slice(), &mut faults),
        Err(error) => refuse(words_fault(&error), &mut faults),
    };
    ExitCode::from(exit_status)
}
