//! The hash by which a reader looks for what it keeps.

ghost use Rattle.std.specs.Prelude.{◌<◌};

use std::hash::{FoldHasher, Hasher};

/// The largest size, in bytes, of what says an identity that is kept.
const MAX_KEPT: usize = 4096;

/// A hash of bytes, and how many they are: in which slots what they say is looked for.
///
/// No answer depends on a hash, since the bytes of what a slot holds are compared.
#[derive(Clone, Copy)]
pub struct ByteHash {
    hasher: FoldHasher,
    size: usize,
}

impl ByteHash {
    /// The hash of no bytes.
    pub fn new() -> ByteHash {
        ByteHash {
            hasher: FoldHasher::default(),
            size: 0,
        }
    }

    /// The hash with more bytes.
    pub fn with(self, bytes: &[u8]) -> ByteHash {
        let ByteHash { mut hasher, size } = self;
        hasher.write(bytes);
        let size = size.saturating_add(bytes.len());
        ByteHash { hasher, size }
    }

    /// Whether the bytes are few enough for what they say to be kept.
    pub fn is_small(self) -> bool {
        self.size <= MAX_KEPT
    }

    /// Which of so many slots is the first.
    pub fn slot(self, slots: usize) -> usize
        requires { 0 < slots }
    {
        (self.hasher.finish() % slots as u64) as usize
    }

    /// Which of so many slots is the other one.
    pub fn other_slot(self, slots: usize) -> usize
        requires { 0 < slots }
    {
        ((self.hasher.finish() >> 32) % slots as u64) as usize
    }
}
