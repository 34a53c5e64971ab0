//! The state machine that the sessions call: accounts, transfers, chains and expiry.
//!
//! Modules, in layers, each over those before it. All are private except `laws` and `worked_rows`.
//!
//! - `tables`: what a ledger keeps.
//!   - `absent_ids`: what a table knows of its keys without a search: the greatest, and absent ids.
//!   - `map`: rows by rising key over an `AvlMap`; a finite map for all modules above.
//!   - `accounts`: the row of an account, 128 bytes.
//!   - `transfers`: the row of a transfer, 128 bytes.
//!   - `timeouts`: those of open pending transfers, by the moment at which they end.
//!   - `rows`: all tables.
//!   - `index`: how the timeouts follow the rows of transfers.
//!   - `work`: a batch in progress: all tables, the undo log of its current chain, the results so far.
//! - `batches`: the events of one request, chain by chain; a chain is applied as a whole or not at all. `Event`, what it requires of an event.
//!   - `ahead`: the accounts that the next eight transfers need, searched for beforehand if there are many accounts.
//!   - `results`: the results of a broken chain; where a result becomes its number.
//! - `kinds`: an event of each kind is judged by the current tables, and changes them if it is accepted.
//!   - `account`: an account.
//!   - `two_party`: a transfer between two accounts, single-phase or pending.
//!   - `resolving`: a post or void, and what it copies from the pending transfer that it names.
//!   - `transfer`: a transfer of either kind, its id, and failed ids.
//! - `expiry`: pending transfers whose timeout has passed.
//! - `lookups`: lookups of many ids, eight at a time.
//! - `ledgers`: `Ledger`, all that the crates above call.
//! - `laws`: laws of the definitions: functions that do nothing.
//! - `worked_rows`: requests and the results that the definitions give to them.
//!
//! Memory for a batch is reserved first: rows, failed ids, timeouts, results, undo log. specs/private/Capacity says what the tables can still take,
//! and what events use of it; specs/private/Steps what events require of a batch in progress and what they leave. Undoing a chain makes nodes spare,
//! and cannot fail. specs/Verdicts follows the order in which the tests are applied to an event, each test once. For an account: its own, exists,
//! new. For a transfer: its own, exists, failed id; then for a post or void its own, those of the pending transfer that it names, and the closed
//! accounts, and for any other its own, the pair of accounts, and the amounts.
#![tactic(auto)]

mod batches;
mod expiry;
mod kinds;
pub mod laws;
mod ledgers;
mod lookups;
mod tables;
pub mod worked_rows;

pub use ledgers::Ledger;
