//! The attribute sets of resources and scopes that a reader keeps from one body to the next.

ghost use Rattle.std.specs.Prelude.{◌≡◌, IfOk, IfSome, Some, option_map};
ghost use Rattle.otlp_protobuf.specs.Wire.{fields};
ghost use Rattle.otlp_protobuf.specs.Fields.{contents};
ghost use Rattle.otlp_protobuf.specs.inner.Sets.{set_said};

use crate::byte_hash::ByteHash;
use crate::known_set::KnownSet;
use crate::slots::Slots;
use std::alloc::{AllocError, Global};

/// How many sets are kept.
const SETS: usize = 128;

/// The sets of earlier messages, each in the slot that the hash of its message says. One that is
/// kept is shared: nothing is read or allocated. No answer depends on what is kept: messages are
/// compared byte by byte. The set of one of more than 4,096 bytes is not kept.
#[derive(Drop)]
pub struct SetCache {
    slots: Slots<KnownSet>,
}

impl SetCache {
    /// Nothing is kept yet. Takes no memory.
    pub fn new(alloc: Global) -> SetCache {
        SetCache {
            slots: Slots::new(alloc),
        }
    }

    /// The attribute set that the field of this number says in a message with this hash. `None` if
    /// it is one that no series may have.
    pub fn set_in(
        &mut self,
        alloc: Global,
        hash: ByteHash,
        bytes: &[u8],
        number: u32,
    ) -> Result<Option<KnownSet>, AllocError>
        ensures { IfOk result (λ o. option_map (λ k. k.set) o
            ≡ set_said (contents number (fields bytes.now))) }
    {
        let slot = hash.slot(SETS);
        if let Some(set) = self.share_at(alloc, slot, bytes, number) {
            return Ok(Some(set));
        }
        let set = KnownSet::read(alloc, bytes, number)?;
        if let Some(set) = &set
            && hash.is_small()
            && let Ok(shared) = set.share(alloc)
        {
            self.slots.put(alloc, SETS, slot, shared);
        }
        Ok(set)
    }

    /// A share of the set in a slot, if it is that of the message.
    fn share_at(&self, alloc: Global, slot: usize, bytes: &[u8], number: u32) -> Option<KnownSet>
        ensures { IfSome result (λ k.
            set_said (contents number (fields bytes.now)) ≡ Some k.set) }
    {
        let kept = self.slots.at(slot)?;
        if kept.is_of(bytes, number) {
            kept.share(alloc).ok()
        } else {
            None
        }
    }
}
