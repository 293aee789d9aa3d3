ghost use Rattle.std.specs.Prelude.{◌≡◌, [], Some};

use crate::{Failed, Sink, Step};
use std::alloc::Global;

/// A sink for tests, which stores the bytes that it takes. Each call follows the next step; after
/// the last step each call takes all bytes. A call also fails if memory for the bytes runs out.
#[derive(Drop)]
pub struct Tape<'a> {
    taken: Vec<u8>,
    steps: &'a [Step],
    failures: u64,
}

impl<'a> Tape<'a> {
    ghost use Rattle.byte_ends.specs.Parts.{tape_steps};

    /// A sink that has taken nothing, with no failed call. Its first call follows the first step.
    pub fn new(alloc: Global, steps: &'a [Step]) -> Self
        ensures bytes { ⟦<Tape<'a> as Sink>⟧.contents result ≡ Some [] }
        ensures steps { tape_steps result ≡ steps.now }
        ensures failed { ⟦<Tape<'a> as Sink>⟧.failures result ≡ 0 }
    {
        Tape {
            taken: Vec::new(alloc),
            steps,
            failures: 0,
        }
    }

    /// The bytes that were taken, in order.
    pub fn taken(&self) -> &[u8]
        ensures { ⟦<Tape<'a> as Sink>⟧.contents self.now ≡ Some result.now }
    {
        self.taken.as_slice()
    }
}

impl Sink for Tape<'_> {
    ghost use Rattle.std.specs.Prelude.{◌≤◌, ◌<◌, drop, length, IfOk, is_err};
    ghost use Rattle.byte_ends.specs.Counts.{counted, next_count};
    ghost use Rattle.byte_ends.specs.inner.Counts.{next_count-differs};
    ghost use Rattle.byte_ends.specs.Ends.{Took};
    ghost use Rattle.byte_ends.specs.Parts.{tape_steps};
    ghost use Rattle.byte_ends.specs.Steps.{write_limit};

    ghost contents = { λ s. Some s.taken.items };

    ghost failures = { λ s. s.failures };

    ghost one_more = { next_count };

    fn write(&mut self, bytes: &[u8]) -> Result<usize, Failed>
        ensures bound { IfOk result (λ n. n ≤ length bytes.now) }
        ensures some { 0 < length bytes.now → IfOk result (λ n. 0 < n) }
        ensures bytes { Took (⟦<Self as Sink>⟧.contents self.old)
            (⟦<Self as Sink>⟧.contents self.new) result bytes.now }
        ensures failed { ⟦<Self as Sink>⟧.failures self.new ≡ counted next_count (is_err result)
            (⟦<Self as Sink>⟧.failures self.old) }
        ensures step { IfOk result (λ n. write_limit (tape_steps self.old) (length bytes.now)
            ≡ Some n) }
        ensures steps { tape_steps self.new ≡ drop 1 (tape_steps self.old) }
    {
        let mut most = bytes.len();
        if let Some((step, later)) = self.steps.split_first() {
            self.steps = later;
            match step {
                Step::AtMost(n) if *n > 0 => most = most.min(*n),
                _ => {
                    self.failures = self.failures.wrapping_add(1);
                    return Err(Failed);
                }
            }
        }
        match self.taken.extend_from_slice(&bytes[..most]) {
            Ok(()) => Ok(most),
            Err(_) => {
                self.failures = self.failures.wrapping_add(1);
                Err(Failed)
            }
        }
    }

    ghost tells_one_more = { next_count-differs };
}
