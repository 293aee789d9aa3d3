//! Where what comes next is looked for first.

use crate::identity_hash::SLOTS;
use std::alloc::Global;

/// The slot of what was found last, and after each slot that of what came next the last time: a
/// sender's points come in the same order again. It is a hint alone.
#[derive(Drop)]
pub struct Followed {
    last: usize,
    next: Vec<u16>,
}

impl Followed {
    /// Nothing came yet. Takes no memory.
    pub fn new(alloc: Global) -> Followed {
        Followed {
            last: 0,
            next: Vec::new(alloc),
        }
    }

    /// The slot of what comes next, if it is known.
    pub fn next(&self) -> Option<usize> {
        if self.last < self.next.len() {
            Some(usize::from(self.next[self.last]))
        } else {
            None
        }
    }

    /// Notes the slot of what came next.
    pub fn go_to(&mut self, slot: usize) {
        if self.last < self.next.len()
            && let Ok(next) = u16::try_from(slot)
        {
            self.next[self.last] = next;
        }
        self.last = slot;
    }

    /// The same where there may be no room for notes yet.
    pub fn go_to_new(&mut self, slot: usize) {
        if self.next.is_empty() {
            let _ = self.next.resize(SLOTS, 0);
        }
        self.go_to(slot);
    }
}
