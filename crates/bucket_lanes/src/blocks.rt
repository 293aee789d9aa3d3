//! Vector operations on a block of eight words: load, store, add, subtract, compare.
ghost use Rattle.std.specs.Prelude.{◌≡◌, ℕ, ◌+◌, ◌<◌, ◌≤◌, ◌^◌, ◌↔◌, IsTrue, length, slice_index};

use std::simd::prelude::*;

/// How many words a block has.
pub const LANES: usize = 8;

/// The eight words from an index on.
#[inline(always)]
pub fn load(words: &[u64], at: usize) -> u64x8
    requires { at + 8 ≤ length words.now }
    ensures long { length result ≡ 8 }
    ensures each { (k : ℕ) → k < 8 → slice_index result k ≡ slice_index words.now (at + k) }
{
    u64x8::from_slice(&words[at..])
}

/// Writes eight words from an index on.
#[inline(always)]
pub fn store(words: &mut [u64], at: usize, block: u64x8)
    requires room { at + 8 ≤ length words.old }
    requires long { length block ≡ 8 }
    ensures here { (k : ℕ) → k < 8 → slice_index words.new (at + k) ≡ slice_index block k }
    ensures before { (k : ℕ) → k < at → slice_index words.new k ≡ slice_index words.old k }
    ensures after { (k : ℕ) → at + 8 ≤ k → slice_index words.new k ≡ slice_index words.old k }
{
    block.copy_to_slice(&mut words[at..]);
}

/// The same number in every lane.
#[inline(always)]
pub fn every(number: u64) -> u64x8
    ensures long { length result ≡ 8 }
    ensures each { (k : ℕ) → k < 8 → slice_index result k ≡ number }
{
    u64x8::splat(number)
}

/// The sums, lane by lane.
#[inline(always)]
pub fn sums(a: u64x8, b: u64x8) -> u64x8
    requires long { (length a ≡ 8) × (length b ≡ 8) }
    requires fits { (k : ℕ) → k < 8 → slice_index a k + slice_index b k < 2 ^ 64 }
    ensures long { length result ≡ 8 }
    ensures each { (k : ℕ) → k < 8 → slice_index result k ≡ slice_index a k + slice_index b k }
{
    a.strict_add(b)
}

/// The differences, lane by lane.
#[inline(always)]
pub fn differences(a: u64x8, b: u64x8) -> u64x8
    requires long { (length a ≡ 8) × (length b ≡ 8) }
    requires within { (k : ℕ) → k < 8 → slice_index b k ≤ slice_index a k }
    ensures long { length result ≡ 8 }
    ensures each { (k : ℕ) → k < 8 → slice_index result k + slice_index b k ≡ slice_index a k }
{
    a.strict_sub(b)
}

/// Whether no lane of the first block is greater than the same lane of the second.
#[inline(always)]
pub fn none_above(a: u64x8, most: u64x8) -> bool
    requires { (length a ≡ 8) × (length most ≡ 8) }
    ensures { IsTrue result ↔ ((k : ℕ) → k < 8 → slice_index a k ≤ slice_index most k) }
{
    a.simd_gt(most).to_bitmask() == 0
}
