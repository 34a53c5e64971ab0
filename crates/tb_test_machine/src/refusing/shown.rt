//! What a machine shows: the same after a refused call as before, and what the last request leaves.
use crate::refusing::rows::Left;
use std::alloc::Allocator;
use std::process::Abort;
use tb_machine::Machine;
use tb_records::{Account, EventResult, ReplyBody, Transfer};

/// The transfers that the rows name.
const TRANSFERS: [u128; 13] = [11, 20, 21, 22, 23, 24, 25, 26, 27, 28, 50, 51, 53];

/// What a machine shows: its last commit number and time, the commit number of client 7's stored reply, its accounts 1 and 2, and those of the
/// rows' transfers that exist.
#[derive(Drop)]
pub(crate) struct Shown {
    commit: u64,
    time: u64,
    stored: Option<u64>,
    accounts: Vec<Account>,
    transfers: Vec<Transfer>,
}

pub(crate) fn look<A: Allocator + Clone>(rt: &impl Abort, machine: &Machine<A>) -> Shown {
    Shown {
        commit: machine.commit(),
        time: machine.time(),
        stored: machine.reply_of(7).map(|reply| reply.commit()),
        accounts: machine.lookup_accounts(&[1, 2]).expect(rt, "accounts"),
        transfers: machine.lookup_transfers(&TRANSFERS).expect(rt, "transfers"),
    }
}

/// Both show the same.
pub(crate) fn same(one: &Shown, other: &Shown) -> bool {
    one.commit == other.commit
        && one.time == other.time
        && one.stored == other.stored
        && one.accounts.as_slice() == other.accounts.as_slice()
        && one.transfers.as_slice() == other.transfers.as_slice()
}

/// Client 7's stored reply has these results.
fn has_results<A: Allocator + Clone>(machine: &Machine<A>, wanted: &[EventResult]) -> bool {
    match machine.reply_of(7) {
        Some(reply) => match reply.body() {
            ReplyBody::Results(results) => results.as_slice() == wanted,
            _ => false,
        },
        None => false,
    }
}

/// What is pending and what was posted: the debits of account 1, which are the credits of account 2.
fn sums<A: Allocator + Clone>(machine: &Machine<A>) -> Option<(u128, u128)> {
    let (first, second) = (machine.account(1)?, machine.account(2)?);
    let debits = (first.debits_pending, first.debits_posted);
    (debits == (second.credits_pending, second.credits_posted)).then_some(debits)
}

/// The machine has what the requests leave.
pub(crate) fn is_left<A: Allocator + Clone>(machine: &Machine<A>, left: Left<'_>) -> bool {
    let (_, results, wanted) = left;
    has_results(machine, results) && sums(machine) == Some(wanted)
}
