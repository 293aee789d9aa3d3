//! Slots in which a reader keeps values.

use std::alloc::{AllocError, Global};

/// A value in each of so many slots, or none. They take no memory before the first is kept. Where a
/// value can't be kept for want of memory, its slot stays as it was.
#[derive(Drop)]
pub struct Slots<T: Drop> {
    slots: Vec<Option<Box<T>>>,
}

impl<T: Drop> Slots<T> {
    /// Nothing is kept yet.
    pub fn new(alloc: Global) -> Slots<T> {
        Slots {
            slots: Vec::new(alloc),
        }
    }

    /// Whether nothing was kept yet.
    pub fn is_empty(&self) -> bool {
        self.slots.is_empty()
    }

    /// The value in a slot, if there is one.
    #[inline(always)]
    pub fn at(&self, slot: usize) -> Option<&T> {
        if slot >= self.slots.len() {
            return None;
        }
        match &self.slots[slot] {
            Some(kept) => Some(kept),
            None => None,
        }
    }

    /// Keeps a value in one of so many slots, in the place of what is there.
    pub fn put(&mut self, alloc: Global, count: usize, slot: usize, value: T) {
        if self.take(alloc, count).is_ok()
            && slot < self.slots.len()
            && let Ok(kept) = Box::new(alloc, value)
        {
            self.slots[slot] = Some(kept);
        }
    }

    /// Allocates so many slots, unless they are there.
    fn take(&mut self, alloc: Global, count: usize) -> Result<(), AllocError> {
        if self.slots.is_empty() {
            let mut slots = Vec::with_capacity(alloc, count)?;
            for _ in 0..count {
                slots.push(None)?;
            }
            self.slots = slots;
        }
        Ok(())
    }
}
