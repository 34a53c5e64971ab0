//! What `tbd` does that no file brings about: a file that grows between two reads, a long file, faults of the system by their kinds.
//!
//! Modules:
//!
//! - `growth`: a file to which another program appends while it is read.
//! - `faults`: what is reported of faults of the system.
//! - `reports`: how far a long file was read.
mod faults;
mod growth;
mod reports;
