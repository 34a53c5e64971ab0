//! Tests of tb_machine and of the libraries that it is built on, only by their public calls; and each allocation of a ledger's rows is refused in
//! turn. What arguments, input and output do to `tbs` is tested over the program, by tests/programs.
//!
//! Modules:
//!
//! - `comparing`: what is compared, each in one place.
//! - `maps`: of avl_tree.
//! - `ledger`: of tb_ledger.
//! - `machine`: of tb_machine.
//! - `records`: of tb_records.
//! - `refusing`: of tb_machine, over an allocator that refuses.
#![tactic(auto)]

#[cfg(test)]
mod comparing;
#[cfg(test)]
mod ledger;
#[cfg(test)]
mod machine;
#[cfg(test)]
mod maps;
#[cfg(test)]
mod records;
#[cfg(test)]
mod refusing;
