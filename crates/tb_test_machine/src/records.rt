//! The vectors of requests and replies, and the faults of frames.
//!
//! Modules:
//!
//! - `frame_tests`: requests.
//! - `reply_tests`: replies.
mod frame_tests;
mod reply_tests;
