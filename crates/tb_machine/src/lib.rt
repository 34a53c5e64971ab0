//! A ledger with sessions as one machine: entries, the state that they lead to, the laws of its histories, the serving of a script, and the dump of a
//! history and its replay.
//!
//! Modules, each over those before it:
//!
//! - `entries`: `Entry`, a commit number, a time and a request.
//! - `machines`: `Machine`, a ledger and its sessions, which entries move on.
//! - `judgements`: how a machine judges a request at a moment: new, with its entry, or of another class.
//! - `executing`: its steps: what a request does to the ledger, the reply to it, the row that it leaves.
//! - `pools`: the pools in which a server's records are.
//! - `serving`: `run`, which reads and executes a script and writes the replies; `serve_pair`, one pair of it.
//! - `answering`: the answer to a request from a machine that stays as it is.
//! - `dumping`: `dump`, a script executed, and its history written.
//! - `replaying`: `replay`, a dump read, each entry checked and entered, each reply written.
//! - `restoring`: one entry as the record of a journal; a machine from entries, each checked first, with the cause of a refusal.
//! - `laws`: laws of legal histories: functions that do nothing.
//! - `worked_rows`: scripts and the replies that the definitions give to them.
//!
//! specs/Histories has `step`, legal histories and the definition of an answer; specs/Worked what `run`, `dump` and `replay` share;
//! specs/private/Serving what the steps of `run` do with one pair; specs/ScriptLaws what connects `run` with the laws. `run` serves a request of a
//! session by `Machine::serve_in_session`, at its client's row. All other callers judge a request by `Machine::judge`, which makes the entry of a new
//! one; `replay` checks an entry by `Machine::fits`, `restore` by its causes. `dump`, `replay` and `restore` enter it by `Machine::enter`, `run` a
//! register by `Machine::enter_and_reply`, which writes the reply before its row is stored. `answer_known` answers a request that is not new.
#![tactic(auto)]

mod answering;
mod dumping;
mod entries;
mod executing;
mod judgements;
pub mod laws;
mod machines;
mod pools;
mod replaying;
mod restoring;
mod serving;
pub mod worked_rows;

pub use answering::answer_of;
pub use dumping::dump;
pub use entries::Entry;
pub use executing::Delivery;
pub use judgements::Judged;
pub use machines::Machine;
pub use replaying::replay;
pub use restoring::{RestoreFault, Unfit, read_entry, restore, write_entry};
pub use serving::{RunFault, answer_known, run, serve_pair, status_of};
