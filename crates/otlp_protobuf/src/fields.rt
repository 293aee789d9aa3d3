//! The fields of a message, one after the other, where they are in its bytes.

ghost use Rattle.std.specs.Prelude.{◌≡◌, ◌∷◌, ◌++◌, [], IfSome, MatchOption, map};
ghost use Rattle.otlp_protobuf.specs.inner.Runs.{attribute};
ghost use Rattle.otlp_protobuf.specs.inner.RunViews.{run_messages};
ghost use Rattle.otlp_protobuf.specs.Wire.{field_at, fields};
ghost use Rattle.otlp_protobuf.specs.inner.Views.{Gives, payload_data, field_data, fields_data};

use crate::known_run::KnownRun;
use crate::malformed::Malformed;
use crate::runs::after_run;
use crate::wire::{Payload, key, payload_at};

/// A field of a message.
#[derive(Clone, Copy)]
pub struct Field<'a> {
    pub number: u32,
    pub payload: Payload<'a>,
}

/// The field at the front, and the bytes after it.
#[inline(always)]
#[tactic(auto, unfolding(crate::specs::Wire::field_at))]
pub fn field_at(bytes: &[u8]) -> Result<(Field<'_>, &[u8]), Malformed>
    ensures { Gives (λ r. (field_data r.0, r.1.now)) result (field_at bytes.now) }
{
    let (key, rest) = key(bytes)?;
    let (payload, rest) = payload_at(key, rest)?;
    let number = key / 8;
    Ok((Field { number, payload }, rest))
}

/// The fields of a message that are still to come, at most `left` of them.
#[derive(Clone, Copy)]
pub struct Fields<'a> {
    pub rest: &'a [u8],
    pub left: usize,
}

impl<'a> Fields<'a> {
    /// The fields of a message, up to the first that is malformed.
    pub fn of(bytes: &'a [u8]) -> Fields<'a>
        ensures { fields_data result ≡ fields bytes.now }
    {
        Fields {
            rest: bytes,
            left: bytes.len(),
        }
    }

    /// The fields after known attributes at the front.
    #[inline(always)]
    pub fn after_run(self, run: &KnownRun) -> Option<Fields<'a>>
        ensures { IfSome result (λ r. fields_data self.entry
            ≡ map (attribute run.now.number) (run_messages run.now) ++ fields_data r) }
    {
        if self.left < run.count {
            return None;
        }
        let rest = after_run(&run.bytes, self.rest)?;
        let left = self.left - run.count;
        Some(Fields { rest, left })
    }

    /// The next field.
    #[inline(always)]
    #[tactic(auto, using(crate::proofs::WireLemmas::fields_step, crate::proofs::WireLemmas::no_fields))]
    pub fn next(&mut self) -> Option<Field<'a>>
        ensures { MatchOption result (fields_data self.old ≡ [])
            (λ f. fields_data self.old ≡ field_data f ∷ fields_data self.new) }
    {
        if self.left == 0 {
            return None;
        }
        let Ok((field, rest)) = field_at(self.rest) else {
            return None;
        };
        self.rest = rest;
        self.left -= 1;
        Some(field)
    }
}
