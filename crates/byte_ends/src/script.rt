ghost use Rattle.std.specs.Prelude.{◌≡◌, Some};

use crate::{Failed, Source, Step};

/// A source for tests, over these bytes. Each call follows the next step; after the last step each
/// call fills the buffer as far as the bytes go.
#[derive(Drop)]
pub struct Script<'a> {
    bytes: &'a [u8],
    steps: &'a [Step],
    failures: u64,
    given: usize,
}

impl<'a> Script<'a> {
    ghost use Rattle.byte_ends.specs.Parts.{script_bytes, script_steps};

    /// A source of all these bytes, with no failed call. Its first call follows the first step.
    pub fn new(bytes: &'a [u8], steps: &'a [Step]) -> Self
        ensures bytes { script_bytes result ≡ bytes.now }
        ensures steps { script_steps result ≡ steps.now }
        ensures failed { ⟦<Script<'a> as Source>⟧.failures result ≡ 0 }
    {
        Script {
            bytes,
            steps,
            failures: 0,
            given: 0,
        }
    }

    /// The bytes that are left.
    pub fn left(&self) -> &'a [u8]
        ensures { result.now ≡ script_bytes self.now }
    {
        self.bytes
    }
}

impl Source for Script<'_> {
    ghost use Rattle.std.specs.Prelude.{◌≤◌, min, drop, length, IfOk, is_err};
    ghost use Rattle.std.specs.Option.{option_map};
    ghost use Rattle.std.specs.Result.{result_ok, result_unwrap_or};
    ghost use Rattle.byte_ends.specs.Counts.{counted, next_count};
    ghost use Rattle.byte_ends.specs.inner.Counts.{next_count-differs};
    ghost use Rattle.byte_ends.specs.Ends.{Gave};
    ghost use Rattle.byte_ends.specs.Parts.{script_bytes, script_steps};
    ghost use Rattle.byte_ends.specs.Steps.{read_limit};

    ghost remaining = { λ s. Some (script_bytes s) };

    ghost failures = { λ s. s.failures };

    ghost one_more = { next_count };

    ghost given = { λ s. s.given };

    fn read(&mut self, buf: &mut [u8]) -> Result<usize, Failed>
        ensures bound { IfOk result (λ n. n ≤ length buf.new) }
        ensures bytes { Gave (⟦<Self as Source>⟧.remaining self.old)
            (⟦<Self as Source>⟧.remaining self.new) result buf.new }
        ensures failed { ⟦<Self as Source>⟧.failures self.new ≡ counted next_count (is_err result)
            (⟦<Self as Source>⟧.failures self.old) }
        ensures given { ⟦<Self as Source>⟧.given self.new ≡ result_unwrap_or result 0 }
        ensures step { result_ok result ≡ option_map (λ most. min most
            (length (script_bytes self.old))) (read_limit (script_steps self.old)
            (length buf.old)) }
        ensures steps { script_steps self.new ≡ drop 1 (script_steps self.old) }
    {
        self.given = 0;
        let mut most = buf.len();
        if let Some((step, later)) = self.steps.split_first() {
            self.steps = later;
            match step {
                Step::AtMost(n) => {
                    // A read of 0 bytes would report the end.
                    most = most.min((*n).max(1));
                }
                Step::Fail => {
                    self.failures = self.failures.wrapping_add(1);
                    return Err(Failed);
                }
            }
        }
        let n = most.min(self.bytes.len());
        let (front, rest) = self.bytes.split_at(n);
        buf[..n].copy_from_slice(front);
        self.bytes = rest;
        self.given = n;
        Ok(n)
    }

    ghost tells_one_more = { next_count-differs };
}
