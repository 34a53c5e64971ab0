//! An allocator that refuses one allocation, or all from one on, and counts its blocks and the bytes that it is asked for.
use std::alloc::{AllocError, Allocator};
use std::cell::Cell;

/// What was asked of an allocator.
#[derive(Clone, Copy, Debug, PartialEq, Eq)]
pub struct Tally {
    /// The allocations that were asked for.
    pub asked: u64,
    /// The first allocation that is refused; 0 if no allocation is.
    pub refused_at: u64,
    /// The last one that is refused.
    pub refused_until: u64,
    /// The blocks taken and not given back.
    pub blocks: u64,
    /// The bytes of all allocations that were asked for.
    pub bytes: u64,
    /// The bytes of the greatest of them.
    pub greatest: u64,
}

/// An allocator over another one. It refuses one allocation, once, or all from one on until it relents, and counts its
/// blocks and bytes.
pub struct Refusing<B: Allocator> {
    inner: B,
    tally: Cell<Tally>,
}

impl<B: Allocator> Refusing<B> {
    /// Refuses the allocation with this number, from 1; no allocation if it is 0.
    pub fn new(inner: B, refused_at: u64) -> Refusing<B> {
        Refusing::within(inner, refused_at, refused_at)
    }

    /// Refuses the allocation with this number, from 1, and all after it until it relents; no allocation if it is 0.
    pub fn from(inner: B, refused_at: u64) -> Refusing<B> {
        let refused_until = if refused_at == 0 { 0 } else { u64::MAX };
        Refusing::within(inner, refused_at, refused_until)
    }

    /// Refuses the allocations from one number up to another.
    fn within(inner: B, refused_at: u64, refused_until: u64) -> Refusing<B> {
        Refusing {
            inner,
            tally: Cell::new(Tally {
                asked: 0,
                refused_at,
                refused_until,
                blocks: 0,
                bytes: 0,
                greatest: 0,
            }),
        }
    }

    /// Grants `count` allocations from now on, and refuses all after them until it relents.
    pub fn allow(&self, count: u64) {
        let mut now = self.tally.get();
        now.refused_at = now.asked.wrapping_add(count).wrapping_add(1);
        now.refused_until = u64::MAX;
        self.tally.set(now);
    }

    /// Refuses no allocation any more.
    pub fn relent(&self) {
        let mut now = self.tally.get();
        now.refused_until = 0;
        self.tally.set(now);
    }

    /// What was asked of it.
    pub fn tally(&self) -> Tally {
        self.tally.get()
    }
}

impl<B: Allocator> Drop for Refusing<B> {
    fn drop(self) {
        let Self { inner: _, tally: _ } = self;
    }
}

/// Counts an allocation of `size` bytes that is asked for, and says whether it is refused.
fn refuses(tally: &Cell<Tally>, size: usize) -> bool {
    let mut now = tally.get();
    now.asked = now.asked.wrapping_add(1);
    now.bytes = now.bytes.wrapping_add(size as u64);
    now.greatest = now.greatest.max(size as u64);
    let refused = now.refused_at <= now.asked && now.asked <= now.refused_until;
    if !refused {
        now.blocks = now.blocks.wrapping_add(1);
    }
    tally.set(now);
    refused
}

/// Counts a block that comes back.
fn takes_back(tally: &Cell<Tally>) {
    let mut now = tally.get();
    now.blocks = now.blocks.wrapping_sub(1);
    tally.set(now);
}

unsafe impl<B: Allocator> Allocator for Refusing<B> {
    ghost dealloc_token = { λ heap ty ptr. B.dealloc_token heap.inner ty ptr };

    fn allocate(&self, size: usize, align: usize) -> Result<*mut u8, AllocError> {
        if refuses(&self.tally, size) {
            return Err(AllocError);
        }
        self.inner.allocate(size, align)
    }

    unsafe fn deallocate(&self, ptr: *mut u8, size: usize, align: usize) {
        takes_back(&self.tally);
        self.inner.deallocate(ptr, size, align);
    }
}
