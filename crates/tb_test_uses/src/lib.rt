//! Uses of each library, as a caller writes them: the examples of the pages CALLING.md, proved.
//!
//! Modules, each the caller of one library:
//!
//! - `maps`: of avl_tree.
//! - `ledgers`: of tb_ledger.
//! - `sessions`: of tb_sessions.
//! - `retries`: of tb_machine: a request entered once, its repeat answered.
//! - `publishing`: of tb_published: a publisher that takes and tells, a client thread that learns and asks.
//! - `seating`: of tb_published: two seats next to one history.
//! - `serving`: of tb_service: one port, one request, and the places of its requests.
#![tactic(auto)]

pub mod ledgers;
pub mod maps;
pub mod publishing;
pub mod retries;
pub mod seating;
pub mod serving;
pub mod sessions;
