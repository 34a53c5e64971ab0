//! What requests carry.
use std::alloc::{AllocError, Global};
use tb_records::{Account, Body, Items, Transfer};

/// Items in memory of their own.
fn items<T: Copy + Drop>(alloc: Global, all: &[T]) -> Result<Items<T>, AllocError> {
    Ok(Items::new(Vec::from_slice(alloc, all)?))
}

/// The creation of accounts.
pub fn creation(alloc: Global, accounts: &[Account]) -> Result<Body, AllocError> {
    Ok(Body::CreateAccounts(items(alloc, accounts)?))
}

/// The creation of transfers.
pub fn transfers(alloc: Global, all: &[Transfer]) -> Result<Body, AllocError> {
    Ok(Body::CreateTransfers(items(alloc, all)?))
}

/// A lookup of accounts.
pub fn lookup(alloc: Global, ids: &[u128]) -> Result<Body, AllocError> {
    Ok(Body::LookupAccounts(items(alloc, ids)?))
}
