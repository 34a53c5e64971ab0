//! The body of a request and the body of a reply.
ghost use Rattle.std.specs.Prelude.{◌≡◌, IfOk};
ghost use Rattle.tb_records.specs.Messages.{operation, count, item_count, answer_count, kind_of};
ghost use Rattle.tb_records.specs.Same.{same_body};

use crate::lists::Items;
use crate::records::{Account, EventResult, Transfer};
use std::alloc::{AllocError, Global};

/// What a request asks for.
#[derive(Drop)]
pub enum Body {
    /// Operation 2: a session.
    Register,
    /// Operation 129.
    CreateAccounts(Items<Account>),
    /// Operation 130.
    CreateTransfers(Items<Transfer>),
    /// Operation 131, by ids.
    LookupAccounts(Items<u128>),
    /// Operation 132, by ids.
    LookupTransfers(Items<u128>),
}

impl Body {
    /// The operation's number.
    pub fn operation(&self) -> u8
        ensures { result ≡ operation self.now }
    {
        match self {
            Body::Register => 2,
            Body::CreateAccounts(_) => 129,
            Body::CreateTransfers(_) => 130,
            Body::LookupAccounts(_) => 131,
            Body::LookupTransfers(_) => 132,
        }
    }

    /// The number of events or ids.
    pub fn len(&self) -> usize
        ensures { result ≡ item_count self.now }
    {
        match self {
            Body::Register => 0,
            Body::CreateAccounts(events) => events.len(),
            Body::CreateTransfers(events) => events.len(),
            Body::LookupAccounts(ids) => ids.len(),
            Body::LookupTransfers(ids) => ids.len(),
        }
    }

    /// The number of events; 0 for a register or a lookup.
    pub fn event_count(&self) -> usize
        ensures { result ≡ count self.now }
    {
        match self {
            Body::CreateAccounts(events) => events.len(),
            Body::CreateTransfers(events) => events.len(),
            Body::Register => 0,
            Body::LookupAccounts(_) => 0,
            Body::LookupTransfers(_) => 0,
        }
    }

    /// Returns whether both ask for the same: the same operation, over the same items in the same order.
    pub fn same(&self, other: &Body) -> bool
        ensures { result ≡ same_body self.now other.now }
    {
        match (self, other) {
            (Body::Register, Body::Register) => true,
            (Body::CreateAccounts(a), Body::CreateAccounts(b)) => a.as_slice() == b.as_slice(),
            (Body::CreateTransfers(a), Body::CreateTransfers(b)) => a.as_slice() == b.as_slice(),
            (Body::LookupAccounts(a), Body::LookupAccounts(b)) => a.as_slice() == b.as_slice(),
            (Body::LookupTransfers(a), Body::LookupTransfers(b)) => a.as_slice() == b.as_slice(),
            _ => false,
        }
    }

    /// A body equal to this one.
    pub fn copy(&self, alloc: Global) -> Result<Body, AllocError>
        ensures { IfOk result (λ body. body ≡ self.now) }
    {
        Ok(match self {
            Body::Register => Body::Register,
            Body::CreateAccounts(events) => Body::CreateAccounts(events.copy(alloc)?),
            Body::CreateTransfers(events) => Body::CreateTransfers(events.copy(alloc)?),
            Body::LookupAccounts(ids) => Body::LookupAccounts(ids.copy(alloc)?),
            Body::LookupTransfers(ids) => Body::LookupTransfers(ids.copy(alloc)?),
        })
    }
}

/// The body of a reply.
#[derive(Drop)]
pub enum ReplyBody {
    /// The body of the reply to a register, and of a refusal.
    Empty,
    /// The events of a batch that were not accepted, by rising index.
    Results(Items<EventResult>),
    /// The accounts that were found.
    Accounts(Items<Account>),
    /// The transfers that were found.
    Transfers(Items<Transfer>),
}

impl ReplyBody {
    /// The number of results or records.
    pub fn len(&self) -> usize
        ensures { result ≡ answer_count self.now }
    {
        match self {
            ReplyBody::Empty => 0,
            ReplyBody::Results(results) => results.len(),
            ReplyBody::Accounts(accounts) => accounts.len(),
            ReplyBody::Transfers(transfers) => transfers.len(),
        }
    }

    /// A body equal to this one.
    pub fn copy(&self, alloc: Global) -> Result<ReplyBody, AllocError>
        ensures { IfOk result (λ body. body ≡ self.now) }
    {
        Ok(match self {
            ReplyBody::Empty => ReplyBody::Empty,
            ReplyBody::Results(results) => ReplyBody::Results(results.copy(alloc)?),
            ReplyBody::Accounts(accounts) => ReplyBody::Accounts(accounts.copy(alloc)?),
            ReplyBody::Transfers(transfers) => ReplyBody::Transfers(transfers.copy(alloc)?),
        })
    }

    /// The kind of body: 0 no body, 1 results, 2 accounts, 3 transfers.
    pub(crate) fn kind(&self) -> u8
        ensures { result ≡ kind_of self.now }
    {
        match self {
            ReplyBody::Empty => 0,
            ReplyBody::Results(_) => 1,
            ReplyBody::Accounts(_) => 2,
            ReplyBody::Transfers(_) => 3,
        }
    }
}
