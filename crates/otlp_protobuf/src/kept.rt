//! What a reader keeps from one body to the next.

use crate::identity_cache::IdentityCache;
use crate::known_runs::KnownRuns;
use crate::set_cache::SetCache;
use std::alloc::Global;

/// The identities, resources, scopes and attributes that were read. One reader has one, for as long
/// as it runs. What a body says does not depend on it.
#[derive(Drop)]
pub struct Kept {
    pub(crate) cache: IdentityCache,
    pub(crate) sets: SetCache,
    pub(crate) known: KnownRuns,
}

impl Kept {
    /// Nothing is kept yet. Takes no memory.
    pub fn new(alloc: Global) -> Kept {
        Kept {
            cache: IdentityCache::new(alloc),
            sets: SetCache::new(alloc),
            known: KnownRuns::new(alloc),
        }
    }
}
