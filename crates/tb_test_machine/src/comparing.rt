//! What is compared, each in one place: whoever calls these has one call to prove, and no text to put together.
use std::fmt::Debug;
use std::process::Abort;

/// It is so. What is asked is in the message.
pub fn holds(rt: &impl Abort, is_so: bool, asked: &str) {
    assert!(rt; is_so, "{asked}");
}

/// It is so. The row that it is asked of is in the message.
pub fn holds_at(rt: &impl Abort, is_so: bool, at: &impl Debug) {
    assert!(rt; is_so, "at {at:?}");
}
