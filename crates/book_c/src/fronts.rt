//! Writes into slices of the caller.
ghost use Rattle.std.specs.Prelude.{◌≡◌, ◌⊎◌, ◌<◌, ◌++◌, drop, length};

use crate::statuses::{DONE, TOO_SHORT};

/// Copies these to the front of a slice, or nothing where there is no room for them all.
pub fn copy_front<T: Copy>(items: &[T], out: &mut [T]) -> u32
    ensures done { result ≡ DONE → out.new ≡ items.now ++ drop (length items.now) out.old }
    ensures short { result ≡ TOO_SHORT → length out.old < length items.now }
    ensures left { result ≡ TOO_SHORT → out.new ≡ out.old }
    ensures one { (result ≡ DONE) ⊎ (result ≡ TOO_SHORT) }
{
    if out.len() < items.len() {
        return TOO_SHORT;
    }
    out[..items.len()].copy_from_slice(items);
    DONE
}
