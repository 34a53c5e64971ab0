//! What ledgers and machines do if an allocation is refused: each in turn.
//!
//! Modules, each over those before it:
//!
//! - `rows`: the requests of worked examples, and what they leave.
//! - `shown`: what a machine shows.
//! - `applying`: a request applied as an entry, or served as a pair.
//! - `growth_tests`: each allocation and each chunk refused.
//! - `batch_tests`: how many bytes a batch of transfers asks for.
mod applying;
mod batch_tests;
mod growth_tests;
mod rows;
mod shown;
