//! A ledger server whose history outlives its process: entries are in a journal before their replies are sent.
//!
//! Modules, each over those before it:
//!
//! - `faults`: why a kept ledger does not go on.
//! - `keepers`: `Keeper`, a machine, and the journal that holds its entries.
//! - `recovering`: record 0 of the journal, the rules of the ledger; a machine from the records after it, each entered before the next is read.
//! - `torn`: `torn_behind`, the torn bytes after a file's records, counted.
//! - `creating`: `create`, `Keeper::open` and `Keeper::start`.
//! - `replies`: replies held in memory until the entries that they depend on are durable.
//! - `rounds`: `keep`, pairs served, entries committed, and then replies sent.
//! - `dumps`: the rules, the history, the dump and the later entries of a file, read without a write.
//! - `quick`: the numbers and times of a file's entries, read without building the ledger.
//! - `putting`: records put into the journal of a new file, in batches.
//! - `salvaging`: the entries of a file copied into a new one.
//! - `reading_on`: the entries after a file's damage, copied too.
//! - `laws`: what holds of every kept ledger: functions that do nothing.
//! - `worked_rows`: small files, and what the definitions make of them.
//!
//! specs/Keeping says what a file represents, and specs/Rounds what serving does. specs/Creating, Recovering, Torn, Reading and Quick say what the
//! others do, specs/RecordSteps what a step of a reading finds and what is put into a journal. specs/Moments and Again say what holds at each moment and
//! after a crash.
#![tactic(auto)]

mod creating;
mod dumps;
mod faults;
mod keepers;
pub mod laws;
mod putting;
mod quick;
mod reading_on;
mod recovering;
mod replies;
mod rounds;
mod salvaging;
mod torn;
pub mod worked_rows;

pub use creating::{NotKept, create};
pub use dumps::{read_history, read_rules, write_dump, write_entries};
pub use faults::{DumpFault, KeepFault, SalvageFault, StartFault};
pub use keepers::Keeper;
pub use putting::{append_batched, commit_waiting};
pub use quick::read_quick;
pub use reading_on::{ReadOn, read_on};
pub use recovering::{Rules, read_head, replay_journal, write_head};
pub use rounds::{BATCH_BYTES_MAX, HELD_BYTES_MAX, keep};
pub use salvaging::{NotSalvaged, Salvaged, backup, salvage};
pub use torn::{TornFault, torn_behind};
