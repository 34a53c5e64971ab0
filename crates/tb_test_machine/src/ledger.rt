//! What a ledger's own calls show, only by public calls. The worked examples of accounts and transfers are in `machine`, where requests are
//! served by machines.
//!
//! Modules, each over those before it:
//!
//! - `runs`: a ledger that one request after another moves on.
//! - `lookups`: what is found.
//! - `searches`: how far a search goes.
mod lookups;
mod runs;
mod searches;
