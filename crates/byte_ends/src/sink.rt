ghost use Rattle.std.specs.Prelude.{◌≡◌, ◌≢◌, ◌≤◌, ◌<◌, Option, List, ℕ, None, length, IfOk};
ghost use Rattle.std.specs.Prelude.{is_err};
ghost use Rattle.byte_ends.specs.Ends.{Took};
ghost use Rattle.byte_ends.specs.Counts.{counted};

use crate::Failed;

/// A writer of bytes.
pub trait Sink {
    /// The bytes that were taken so far, if the type knows them: a socket does not.
    ghost contents: { Self → Option (List ℕ) } = { λ _. None };

    /// How many calls have failed.
    ghost failures: { Self → ℕ };

    /// The count after one more failed call. A bounded counter wraps around.
    ghost one_more: { ℕ → ℕ };

    /// Takes some of the bytes, from the front, and returns how many: at least one, if there is
    /// one. To take none of some is a failure. A call that fails takes no byte.
    fn write(&mut self, bytes: &[u8]) -> Result<usize, Failed>
        ensures bound { IfOk result (λ n. n ≤ length bytes.now) }
        ensures some { 0 < length bytes.now → IfOk result (λ n. 0 < n) }
        ensures bytes { Took (contents self.old) (contents self.new) result bytes.now }
        ensures failed { failures self.new ≡ counted one_more (is_err result) (failures self.old) };

    /// A failed call always changes the count.
    ghost tells_one_more: { (n : ℕ) → one_more n ≢ n };
}
