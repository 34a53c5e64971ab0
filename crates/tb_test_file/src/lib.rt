//! Tests of the libraries that keep a ledger in a file, only by their public calls: so none of them is proved a second time for
//! its tests. What arguments and files do to `tbd` is tested over the program, by tests/files.
//!
//! Modules:
//!
//! - `steps`: what each test wants, and small files in memory.
//! - `journal`: of tb_file_journal.
//! - `keep`: of tb_file.
//! - `keep_commands`: of tb_edge_file.
#![tactic(auto)]

#[cfg(test)]
mod journal;
#[cfg(test)]
mod keep;
#[cfg(test)]
mod keep_commands;
#[cfg(test)]
mod steps;
