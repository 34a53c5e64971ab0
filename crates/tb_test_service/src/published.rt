//! Worked examples through `take` and seats, only by public calls of tb_published.
//!
//! Modules, each over those before it:
//!
//! - `frames`: reply frames in hexadecimal.
//! - `expecting`: what becomes of a request, and what a seat finds then.
//! - `steps`: a publisher and two seats by steps.
//! - `rows`: the first requests, their bytes, and what the seats look up.
//! - `examples`: examples by steps.
//! - `threads`: seats next to the publisher, in threads.
mod examples;
mod expecting;
mod frames;
mod rows;
mod steps;
mod threads;
