ghost use Rattle.std.specs.Prelude.{◌≡◌, ℕ, ◌+◌, ◌*◌, ◌<◌, ◌≤◌, ◌↔◌, IsTrue, length, slice_index};
ghost use Rattle.bucket_lanes.specs.ByPlace.{Fits};

use crate::blocks::{LANES, differences, every, load, none_above};

/// Whether no sum of the eight words from an index on is greater than `most`. Each word of `a` is
/// compared with `most` minus the word of `b`, so an overflow of a lane can't hide a sum.
#[inline(always)]
fn fits_block(a: &[u64], b: &[u64], most: u64, at: usize) -> bool
    requires room { (at + 8 ≤ length a.now) × (at + 8 ≤ length b.now) }
    ensures { IsTrue result ↔ ((k : ℕ) → k < 8
        → slice_index a.now (at + k) + slice_index b.now (at + k) ≤ most) }
{
    let limit = every(most);
    let used = load(b, at);
    if !none_above(used, limit) {
        return false;
    }
    none_above(load(a, at), differences(limit, used))
}

/// Whether no sum of the first so many blocks of eight is greater than `most`.
fn fit_blocks(a: &[u64], b: &[u64], most: u64, blocks: usize) -> bool
    requires same { length a.now ≡ length b.now }
    requires room { 8 * blocks ≤ length a.now }
    ensures { IsTrue result ↔ ((k : ℕ) → k < 8 * blocks
        → slice_index a.now k + slice_index b.now k ≤ most) }
{
    for block in 0..blocks {
        if !fits_block(a, b, most, block * LANES) {
            return false;
        }
    }
    true
}

/// Whether no sum from an index on is greater than `most`.
fn fits_tail(a: &[u64], b: &[u64], most: u64, from: usize) -> bool
    requires { length a.now ≡ length b.now }
    ensures { IsTrue result ↔ ((k : ℕ) → from ≤ k → k < length a.now
        → slice_index a.now k + slice_index b.now k ≤ most) }
{
    for k in from..a.len() {
        if b[k] > most || a[k] > most - b[k] {
            return false;
        }
    }
    true
}

/// Whether every sum of two words is at most `most`, even if the sum does not fit 64 bits. Takes
/// no memory.
pub fn fits(a: &[u64], b: &[u64], most: u64) -> bool
    requires { length a.now ≡ length b.now }
    ensures { IsTrue result ↔ Fits most a.now b.now }
{
    let blocks = a.len() / LANES;
    fit_blocks(a, b, most, blocks) && fits_tail(a, b, most, blocks * LANES)
}
