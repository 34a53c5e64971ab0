//! What a ledger keeps: rows by their keys, an index of timeouts, and the batch in progress.

pub(crate) mod absent_ids;
pub(crate) mod accounts;
pub(crate) mod index;
pub(crate) mod map;
pub(crate) mod rows;
pub(crate) mod timeouts;
pub(crate) mod transfers;
pub(crate) mod work;
