//! Accounts, transfers, requests and replies of the ledger, as values and as bytes.
//!
//! Modules. `dumps`, `streams`, `laws` and `reply_laws` are public; all other public names are exported from here.
//!
//! - `limits`: `Profile`, `ClientsMax`, the most items of a body, the last moment.
//! - `operations`: the operations, by TigerBeetle's names and numbers.
//! - `account_flags`: the flags of accounts, by name and bit.
//! - `transfer_flags`: the flags of transfers.
//! - `account_results`: the result codes of accounts, by name and number.
//! - `transfer_results`: the result codes of transfers.
//! - `lists`: `Items`, a list in a public type, over a vector.
//! - `faults`: `FrameFault`, why bytes are no frame.
//! - `encoding`: numbers in bytes, the lowest byte first.
//! - `headers`: the header of a request's frame, and its tests in their order.
//! - `records`: `Account`, `Transfer` and `EventResult`, and their bytes.
//! - `bodies`: the bodies of requests and replies.
//! - `held_bodies`: the body of one request, or of several copies of it.
//! - `requests`: `Request`, one whose numbers keep the rules of sessions.
//! - `replies`: `Reply`, one whose numbers and body go together; `Status`.
//! - `layout`: how each item of a body is written and read.
//! - `reply_reading`: a reply from bytes.
//! - `devices`: readers and writers that count their failures (`Source`, `Sink`), each seen as one ghost value.
//! - `streams`: requests and moments from a reader, one by one.
//! - `reading`: a request from bytes.
//! - `writing`: frames to a vector or to a writer.
//! - `dumps`: the head, the mark and the entries of a dump, read and written.
//! - `laws`: laws of the frames of requests: encoded whole, one decoding, one fault.
//! - `reply_laws`: the same laws for replies.
#![tactic(auto)]

mod account_flags;
mod account_results;
mod bodies;
mod devices;
pub mod dumps;
mod encoding;
mod faults;
mod headers;
mod held_bodies;
pub mod laws;
mod layout;
mod limits;
mod lists;
mod operations;
mod reading;
mod records;
mod replies;
pub mod reply_laws;
mod reply_reading;
mod requests;
pub mod streams;
mod transfer_flags;
mod transfer_results;
mod writing;

pub use account_flags::AccountFlag;
pub use account_results::CreateAccountResult;
pub use bodies::{Body, ReplyBody};
pub use devices::{Buffered, Counting, Sink, Source, put_all};
pub use dumps::{DumpFault, DumpHead, DumpItem};
pub use faults::FrameFault;
pub use limits::{
    AMOUNT_MAX, CLIENTS_MAX, ClientsMax, ITEMS_MAX, LAST_MOMENT, NANOSECONDS_PER_SECOND, Profile,
};
pub use lists::Items;
pub use operations::Operation;
pub use reading::read_request;
pub use records::{Account, EventResult, Transfer};
pub use replies::{Reply, Status};
pub use reply_reading::read_reply;
pub use requests::Request;
pub use streams::{RequestStream, holds_frame, holds_pair, read_timed_from};
pub use transfer_flags::TransferFlag;
pub use transfer_results::CreateTransferResult;
pub use writing::{send_reply, send_request, write_reply, write_request};
