//! Tests of tb_published, tb_service and tb_edge_storm, only by their public calls.
//!
//! Modules:
//!
//! - `comparing`: what is compared, in one place.
//! - `making`: what the rows are made of.
//! - `published`: of tb_published.
//! - `service`: of tb_service.
//! - `storm`: of tb_edge_storm.
#![tactic(auto)]

#[cfg(test)]
mod comparing;
#[cfg(test)]
mod making;
#[cfg(test)]
mod published;
#[cfg(test)]
mod service;
#[cfg(test)]
mod storm;
