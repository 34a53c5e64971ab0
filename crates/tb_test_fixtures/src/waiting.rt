//! Whether another thread has come as far as a test waits for.
use std::sync::atomic::{AtomicBool, AtomicU64, Ordering};
use std::thread;

/// How often a wait looks whether a thread has begun.
const LOOKS: u32 = 1_000_000;

/// Waits until this is so, with at most `looks` looks; says whether it is.
fn comes<F: Fn() -> bool>(looks: u32, is_so: F) -> bool
    requires { F.IsAlwaysCallable is_so }
{
    for _ in 0..looks {
        if is_so() {
            return true;
        }
        thread::yield_now();
    }
    false
}

/// Waits for a thread, such as a server's next to its clients, and says whether it has begun. If no thread can be made,
/// `join` runs the server after the clients: an offer would then wait for ever, once the queue is full.
pub fn has_begun(begun: &AtomicBool) -> bool {
    comes(LOOKS, || begun.load(Ordering::SeqCst))
}

/// Waits until a number is at least `least`, with at most `looks` looks; says whether it is.
pub fn reaches(number: &AtomicU64, least: u64, looks: u32) -> bool {
    comes(looks, || number.load(Ordering::SeqCst) >= least)
}
