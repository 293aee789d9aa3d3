ghost use Rattle.std.specs.Prelude.{◌≡◌, ℕ, ◌+◌, ◌*◌, ◌<◌, ◌≤◌, ◌↔◌, IsTrue, length, slice_index};
ghost use Rattle.bucket_lanes.specs.ByPlace.{IsClear};

use crate::blocks::{LANES, every, load, none_above};

/// Sets every word to 0. Takes no memory.
pub fn clear(words: &mut [u64])
    ensures { IsClear words.new }
{
    words.fill(0);
}

/// Whether the eight words from an index on are 0.
#[inline(always)]
fn is_block_zero(words: &[u64], at: usize) -> bool
    requires { at + 8 ≤ length words.now }
    ensures { IsTrue result ↔ ((k : ℕ) → k < 8 → slice_index words.now (at + k) ≡ 0) }
{
    none_above(load(words, at), every(0))
}

/// Whether the words of the first so many blocks of eight are 0.
fn are_blocks_zero(words: &[u64], blocks: usize) -> bool
    requires { 8 * blocks ≤ length words.now }
    ensures { IsTrue result ↔ ((k : ℕ) → k < 8 * blocks → slice_index words.now k ≡ 0) }
{
    for block in 0..blocks {
        if !is_block_zero(words, block * LANES) {
            return false;
        }
    }
    true
}

/// Whether the words from an index on are 0.
fn is_tail_zero(words: &[u64], from: usize) -> bool
    ensures { IsTrue result ↔ ((k : ℕ) → from ≤ k → k < length words.now
        → slice_index words.now k ≡ 0) }
{
    for k in from..words.len() {
        if words[k] != 0 {
            return false;
        }
    }
    true
}

/// Whether every word is 0. Takes no memory.
pub fn is_zero(words: &[u64]) -> bool
    ensures { IsTrue result ↔ IsClear words.now }
{
    let blocks = words.len() / LANES;
    are_blocks_zero(words, blocks) && is_tail_zero(words, blocks * LANES)
}
