//! Attribute sets of resources and scopes, with the bytes that say them.

ghost use Rattle.std.specs.Prelude.{◌≡◌, IfOk, IfSome, IsTrue, Some, option_map};
ghost use Rattle.std.specs.Option.{ForSome};
ghost use Rattle.std.specs.Arc.{arc_value};
ghost use Rattle.otlp_protobuf.specs.Wire.{fields};
ghost use Rattle.otlp_protobuf.specs.Fields.{contents};
ghost use Rattle.otlp_protobuf.specs.inner.Sets.{set_said};

use crate::attributes::attributes_in;
use series_id::AttrSet;
use std::alloc::{AllocError, Global};
use std::sync::Arc;

/// The attribute set that the field of this number says in a message, with the message's bytes.
#[derive(Drop)]
pub struct KnownSet {
    pub set: AttrSet,
    pub number: u32,
    /// None if there was no memory for them.
    pub bytes: Option<Arc<Vec<u8>, Global>>,
    ghost is_said: { ForSome bytes (λ b.
        set_said (contents number (fields (arc_value b).items)) ≡ Some set) },
}

impl KnownSet {
    /// Reads the set of a message. `None` if it is one that no series may have.
    pub fn read(alloc: Global, bytes: &[u8], number: u32) -> Result<Option<KnownSet>, AllocError>
        ensures { IfOk result (λ o. option_map (λ k. k.set) o
            ≡ set_said (contents number (fields bytes.now))) }
    {
        let Some(set) = attributes_in(alloc, bytes, number)? else {
            return Ok(None);
        };
        let bytes = shared_bytes(alloc, bytes);
        Ok(Some(KnownSet { set, number, bytes }))
    }

    /// The same, shared with this one. Takes no memory: it fails only where a count of owners is
    /// full.
    pub fn share(&self, alloc: Global) -> Result<KnownSet, AllocError>
        ensures { IfOk result (λ k. k.set ≡ self.now.set) }
    {
        let set = self.set.copy(alloc)?;
        let number = self.number;
        let bytes = match &self.bytes {
            Some(bytes) => Some(Arc::try_clone(bytes)?),
            None => None,
        };
        Ok(KnownSet { set, number, bytes })
    }

    /// Whether the field of this number says it in this message.
    pub fn is_of(&self, bytes: &[u8], number: u32) -> bool
        ensures only { IsTrue result
            → set_said (contents number (fields bytes.now)) ≡ Some self.now.set }
    {
        match &self.bytes {
            Some(own) => self.number == number && own.as_slice() == bytes,
            None => false,
        }
    }

    /// Whether both are known to be the same set.
    pub fn is_same(&self, other: &KnownSet) -> bool
        ensures only { IsTrue result → self.now.set ≡ other.now.set }
    {
        match &other.bytes {
            Some(bytes) => self.is_of(bytes.as_slice(), other.number),
            None => false,
        }
    }
}

/// A copy of bytes, to be shared, if there is memory for it.
fn shared_bytes(alloc: Global, bytes: &[u8]) -> Option<Arc<Vec<u8>, Global>>
    ensures { IfSome result (λ b. (arc_value b).items ≡ bytes.now) }
{
    let copy = Vec::from_slice(alloc, bytes).ok()?;
    Arc::new(alloc, copy).ok()
}
