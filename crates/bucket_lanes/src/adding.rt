ghost use Rattle.std.specs.Prelude.{◌≡◌, ℕ, ◌+◌, ◌-◌, ◌*◌, ◌<◌, ◌≤◌, ◌^◌, length, slice_index};
ghost use Rattle.bucket_lanes.specs.ByPlace.{Fits, AreSums, IsClear};

use crate::blocks::{LANES, load, store, sums};
use crate::clearing::clear;

/// Adds the eight words of `src` from an index on to those of `dst`.
#[inline(always)]
fn add_block(dst: &mut [u64], src: &[u64], at: usize)
    requires room { (at + 8 ≤ length dst.old) × (at + 8 ≤ length src.now) }
    requires fits { (k : ℕ) → k < 8
        → slice_index dst.old (at + k) + slice_index src.now (at + k) < 2 ^ 64 }
    ensures here { (k : ℕ) → k < 8
        → slice_index dst.new (at + k) ≡ slice_index dst.old (at + k) + slice_index src.now
        (at + k) }
    ensures before { (k : ℕ) → k < at → slice_index dst.new k ≡ slice_index dst.old k }
    ensures after { (k : ℕ) → at + 8 ≤ k → slice_index dst.new k ≡ slice_index dst.old k }
{
    let sum = sums(load(dst, at), load(src, at));
    store(dst, at, sum);
}

/// Adds the words of the first so many blocks of eight.
fn add_blocks(dst: &mut [u64], src: &[u64], blocks: usize)
    requires same { length dst.old ≡ length src.now }
    requires fits { Fits (2 ^ 64 - 1) dst.old src.now }
    requires room { 8 * blocks ≤ length dst.old }
    ensures sums { (k : ℕ) → k < 8 * blocks
        → slice_index dst.new k ≡ slice_index dst.old k + slice_index src.now k }
    ensures rest { (k : ℕ) → 8 * blocks ≤ k → slice_index dst.new k ≡ slice_index dst.old k }
{
    for block in 0..blocks {
        add_block(dst, src, block * LANES);
    }
}

/// Adds the words from an index on.
fn add_tail(dst: &mut [u64], src: &[u64], from: usize)
    requires same { length dst.old ≡ length src.now }
    requires fits { (k : ℕ) → from ≤ k → k < length dst.old
        → slice_index dst.old k + slice_index src.now k < 2 ^ 64 }
    ensures sums { (k : ℕ) → from ≤ k → k < length dst.old
        → slice_index dst.new k ≡ slice_index dst.old k + slice_index src.now k }
    ensures rest { (k : ℕ) → k < from → slice_index dst.new k ≡ slice_index dst.old k }
{
    for k in from..dst.len() {
        dst[k] += src[k];
    }
}

/// Adds the words of `src` to those of `dst`, word by word. Takes no memory.
pub fn add_into(dst: &mut [u64], src: &[u64])
    requires same { length dst.old ≡ length src.now }
    requires fits { Fits (2 ^ 64 - 1) dst.old src.now }
    ensures { AreSums dst.old src.now dst.new }
{
    let blocks = dst.len() / LANES;
    add_blocks(dst, src, blocks);
    add_tail(dst, src, blocks * LANES);
}

/// Adds the words of `src` to those of `dst`, word by word, and sets those of `src` to 0. Takes no
/// memory.
pub fn move_into(dst: &mut [u64], src: &mut [u64])
    requires same { length dst.old ≡ length src.old }
    requires fits { Fits (2 ^ 64 - 1) dst.old src.old }
    ensures sums { AreSums dst.old src.old dst.new }
    ensures none { IsClear src.new }
{
    add_into(dst, src);
    clear(src);
}
