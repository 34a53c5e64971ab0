//! What the server's thread reports to the clients.
use std::sync::Wait;
use std::sync::atomic::{AtomicBool, Ordering};
use std::thread::Parker;
use std::time::Duration;

/// How often the clients look whether the server's thread has begun.
const LOOKS_MAX: u32 = 400_000;

/// The microseconds between two looks: twenty seconds in all, or more.
const NAP_US: u64 = 50;

/// Whether the server's thread has begun, and whether it has ended.
#[derive(Drop)]
pub(crate) struct Stage {
    begun: AtomicBool,
    over: AtomicBool,
}

impl Stage {
    pub fn new() -> Stage {
        Stage {
            begun: AtomicBool::new(false),
            over: AtomicBool::new(false),
        }
    }

    /// The server's thread has begun.
    pub fn begin(&self) {
        self.begun.store(true, Ordering::SeqCst);
    }

    /// The server has ended.
    pub fn end(&self) {
        self.over.store(true, Ordering::SeqCst);
    }

    /// Says whether the server has ended: then no request is answered any more.
    pub fn is_over(&self) -> bool {
        self.over.load(Ordering::SeqCst)
    }

    /// Waits for the server's thread, and says whether it has begun. If no thread can be made, `join` runs the server after
    /// the clients: an offer would then wait for ever, once the queue is full. Each nap yields the core, so a thread that
    /// was made has begun long before the last look, whatever else the machine does.
    pub fn has_begun<R: Wait>(&self, rt: &R) -> bool {
        for _ in 0..LOOKS_MAX {
            if self.begun.load(Ordering::SeqCst) {
                return true;
            }
            Parker::new().park_timeout(rt, Duration::from_micros(NAP_US));
        }
        false
    }
}
