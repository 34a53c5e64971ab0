//! Worked examples through ports and a server, only by public calls of tb_service.
//!
//! Modules, each over those before it:
//!
//! - `steps`: a server, two ports and a seat by steps.
//! - `examples`: examples by steps.
//! - `handovers`: a server that is gone.
//! - `gates`: a gate at which a request waits.
//! - `progress`: answers while the server still runs.
//! - `repeats`: the same requests by two ports.
//! - `threads`: what is done next to a server that runs.
mod examples;
mod gates;
mod handovers;
mod progress;
mod repeats;
mod steps;
mod threads;
