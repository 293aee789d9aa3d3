ghost use Rattle.std.specs.Prelude.{◌≡◌, ℕ, ◌+◌, ◌-◌, ◌*◌, ◌<◌, ◌≤◌, length, slice_index};
ghost use Rattle.bucket_lanes.specs.ByPlace.{Covers, AreDifferences};

use crate::blocks::{LANES, differences, load, store};

/// Subtracts the eight words of `src` from an index on from those of `dst`.
#[inline(always)]
fn sub_block(dst: &mut [u64], src: &[u64], at: usize)
    requires room { (at + 8 ≤ length dst.old) × (at + 8 ≤ length src.now) }
    requires within { (k : ℕ) → k < 8
        → slice_index src.now (at + k) ≤ slice_index dst.old (at + k) }
    ensures here { (k : ℕ) → k < 8
        → slice_index dst.new (at + k) + slice_index src.now (at + k) ≡ slice_index dst.old
        (at + k) }
    ensures before { (k : ℕ) → k < at → slice_index dst.new k ≡ slice_index dst.old k }
    ensures after { (k : ℕ) → at + 8 ≤ k → slice_index dst.new k ≡ slice_index dst.old k }
{
    let rest = differences(load(dst, at), load(src, at));
    store(dst, at, rest);
}

/// Subtracts the words of the first so many blocks of eight.
fn sub_blocks(dst: &mut [u64], src: &[u64], blocks: usize)
    requires same { length dst.old ≡ length src.now }
    requires within { Covers dst.old src.now }
    requires room { 8 * blocks ≤ length dst.old }
    ensures differences { (k : ℕ) → k < 8 * blocks
        → slice_index dst.new k + slice_index src.now k ≡ slice_index dst.old k }
    ensures rest { (k : ℕ) → 8 * blocks ≤ k → slice_index dst.new k ≡ slice_index dst.old k }
{
    for block in 0..blocks {
        sub_block(dst, src, block * LANES);
    }
}

/// Subtracts the words from an index on.
fn sub_tail(dst: &mut [u64], src: &[u64], from: usize)
    requires same { length dst.old ≡ length src.now }
    requires within { (k : ℕ) → from ≤ k → k < length dst.old
        → slice_index src.now k ≤ slice_index dst.old k }
    ensures differences { (k : ℕ) → from ≤ k → k < length dst.old
        → slice_index dst.new k + slice_index src.now k ≡ slice_index dst.old k }
    ensures rest { (k : ℕ) → k < from → slice_index dst.new k ≡ slice_index dst.old k }
{
    for k in from..dst.len() {
        dst[k] -= src[k];
    }
}

/// Subtracts the words of `src` from those of `dst`, word by word. Takes no memory.
pub fn sub_from(dst: &mut [u64], src: &[u64])
    requires same { length dst.old ≡ length src.now }
    requires within { Covers dst.old src.now }
    ensures { AreDifferences dst.old src.now dst.new }
{
    let blocks = dst.len() / LANES;
    sub_blocks(dst, src, blocks);
    sub_tail(dst, src, blocks * LANES);
}
