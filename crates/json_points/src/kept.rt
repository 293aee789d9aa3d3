//! What a reader keeps from one body to the next.

use crate::identity_cache::IdentityCache;
use crate::set_cache::SetCache;
use json::Scratch;
use std::alloc::Global;

/// The identities and resources that were read, and memory for the next text. One reader has one,
/// for as long as it runs. What a body says does not depend on it.
#[derive(Drop)]
pub struct Kept {
    pub(crate) cache: IdentityCache,
    pub(crate) sets: SetCache,
    pub(crate) scratch: Scratch,
    /// The identities of what `otlp_read` has read.
    pub(crate) other: otlp_read::IdentityCache,
}

impl Kept {
    /// Nothing is kept yet. Takes no memory.
    pub fn new(alloc: Global) -> Kept {
        Kept {
            cache: IdentityCache::new(alloc),
            sets: SetCache::new(alloc),
            scratch: Scratch::new(alloc),
            other: otlp_read::IdentityCache::new(alloc),
        }
    }
}
