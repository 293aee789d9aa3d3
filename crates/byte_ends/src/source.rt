ghost use Rattle.std.specs.Prelude.{◌≡◌, ◌≢◌, ◌≤◌, Option, List, ℕ, None, length, IfOk, is_err};
ghost use Rattle.std.specs.Result.{result_unwrap_or};
ghost use Rattle.byte_ends.specs.Ends.{Gave};
ghost use Rattle.byte_ends.specs.Counts.{counted};

use crate::Failed;

/// A reader of bytes.
pub trait Source {
    /// The bytes that are left, if the type knows them: a socket does not.
    ghost remaining: { Self → Option (List ℕ) } = { λ _. None };

    /// How many calls have failed.
    ghost failures: { Self → ℕ };

    /// The count after one more failed call. A bounded counter wraps around.
    ghost one_more: { ℕ → ℕ };

    /// How many bytes the last call read: 0 if it failed.
    ghost given: { Self → ℕ };

    /// Reads some bytes into the front of the buffer, and returns how many: 0 only at the end of
    /// the bytes or for an empty buffer. A call that fails loses no byte.
    fn read(&mut self, buf: &mut [u8]) -> Result<usize, Failed>
        ensures bound { IfOk result (λ n. n ≤ length buf.new) }
        ensures bytes { Gave (remaining self.old) (remaining self.new) result buf.new }
        ensures failed { failures self.new ≡ counted one_more (is_err result) (failures self.old) }
        ensures given { given self.new ≡ result_unwrap_or result 0 };

    /// A failed call always changes the count.
    ghost tells_one_more: { (n : ℕ) → one_more n ≢ n };
}
