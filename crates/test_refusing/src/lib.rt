//! An allocator for tests. It counts the requests for memory and their bytes, and refuses those requests that a test names,
//! so that a test can refuse each request of a call in turn. A request is an allocation or a growth, and a growth asks for
//! all bytes of the grown block.
//!
//! It has the one `unsafe impl` of this repository. Its safety has a handwritten proof in `proofs/`. No contract can
//! say what it counts and refuses; its tests show that. It serves one thread.
#![tactic(auto)]

use std::alloc::{AllocError, Allocator};
use std::cell::Cell;

/// What was asked for, and which requests are refused: those from `first` to `last`, counted from 1.
#[derive(Drop)]
struct Plan {
    asked: Cell<u64>,
    bytes: Cell<u64>,
    first: Cell<u64>,
    last: Cell<u64>,
}

/// An allocator that passes each request on to `inner`, except for those that it is to refuse. A collection borrows it
/// as a `&`, and the test that owns it reads how many requests there were.
pub struct Refusing<B: Allocator> {
    inner: B,
    plan: Plan,
}

impl<B: Allocator> Refusing<B> {
    /// Makes an allocator over `inner` that refuses nothing yet.
    pub fn new(inner: B) -> Refusing<B> {
        Refusing {
            inner,
            plan: Plan {
                asked: Cell::new(0),
                bytes: Cell::new(0),
                first: Cell::new(u64::MAX),
                last: Cell::new(0),
            },
        }
    }

    /// Sets the counts to 0, and refuses only the request number `n`. The next request is number 1.
    pub fn refuse_only(&self, n: u64) {
        self.plan.asked.set(0);
        self.plan.bytes.set(0);
        self.plan.first.set(n);
        self.plan.last.set(n);
    }

    /// Sets the counts to 0, and refuses the request number `n` and each later one. The next request is number 1.
    pub fn refuse_from(&self, n: u64) {
        self.plan.asked.set(0);
        self.plan.bytes.set(0);
        self.plan.first.set(n);
        self.plan.last.set(u64::MAX);
    }

    /// Sets the counts to 0, and refuses nothing.
    pub fn refuse_none(&self) {
        self.plan.asked.set(0);
        self.plan.bytes.set(0);
        self.plan.first.set(u64::MAX);
        self.plan.last.set(0);
    }

    /// The number of requests since `refuse_only`, `refuse_from` or `refuse_none` was called last.
    pub fn asked(&self) -> u64 {
        self.plan.asked.get()
    }

    /// The bytes of these requests in all, also of those that were refused.
    pub fn bytes(&self) -> u64 {
        self.plan.bytes.get()
    }

    /// Whether a request was refused since `refuse_only`, `refuse_from` or `refuse_none` was called last.
    pub fn has_refused(&self) -> bool {
        self.plan.first.get() <= self.plan.asked.get().min(self.plan.last.get())
    }
}

impl<B: Allocator> Drop for Refusing<B> {
    fn drop(self) {
        let Self { inner: _, plan: _ } = self;
    }
}

fn admits(plan: &Plan, size: usize) -> bool {
    let number = plan.asked.get().saturating_add(1);
    plan.asked.set(number);
    plan.bytes.set(plan.bytes.get().saturating_add(size as u64));
    number < plan.first.get() || plan.last.get() < number
}

unsafe impl<B: Allocator> Allocator for Refusing<B> {
    ghost dealloc_token = { λ heap ty ptr. B.dealloc_token heap.inner ty ptr };

    fn allocate(&self, size: usize, align: usize) -> Result<*mut u8, AllocError> {
        if admits(&self.plan, size) {
            self.inner.allocate(size, align)
        } else {
            Err(AllocError)
        }
    }

    unsafe fn deallocate(&self, ptr: *mut u8, size: usize, align: usize) {
        self.inner.deallocate(ptr, size, align);
    }
}

#[cfg(test)]
mod tests;
