//! The attributes of a point, where they are in its bytes.

ghost use Rattle.std.specs.Prelude.{◌≡◌, ◌∷◌, ◌<◌, IfOk, IfSome};
ghost use Rattle.otlp_protobuf.specs.inner.Runs.{SaysRun};
ghost use Rattle.otlp_protobuf.specs.inner.Views.{field_data, fields_data};

use crate::fields::{Field, Fields};
use crate::known_run::KnownRun;
use crate::runs::run_at;
use std::alloc::{AllocError, Global};

/// The attributes of a point: its bytes, and which of its fields they are.
#[derive(Clone, Copy)]
pub struct PointAttributes<'a> {
    pub bytes: &'a [u8],
    pub number: u32,
    ghost some: { 0 < number },
    ghost few: { number < 16 },
}

impl<'a> PointAttributes<'a> {
    /// The first that stand one after the other, and how many they are.
    pub fn run(self) -> (&'a [u8], usize)
        ensures { SaysRun self.entry.number result.1 result.0.now }
    {
        let key = (self.number * 8 + 2) as u8;
        let front = from_key(key, self.bytes);
        let (size, count) = run_at(key, front);
        (&front[..size], count)
    }

    /// A copy of them.
    pub fn known(self, alloc: Global) -> Result<KnownRun, AllocError>
        ensures { IfOk result (λ k. k.number ≡ self.entry.number) }
    {
        let number = self.number;
        let (run, count) = self.run();
        let bytes = Vec::from_slice(alloc, run)?;
        Ok(KnownRun {
            number,
            bytes,
            count,
        })
    }
}

/// The bytes from the first field with this key on.
fn from_key(key: u8, bytes: &[u8]) -> &[u8] {
    let mut rest = Fields::of(bytes);
    while let Some(_) = next_before(&mut rest, key) {}
    rest.rest
}

/// The next field, if it has another key.
fn next_before<'a>(rest: &mut Fields<'a>, key: u8) -> Option<Field<'a>>
    ensures { IfSome result (λ f. fields_data rest.old ≡ field_data f ∷ fields_data rest.new) }
{
    match rest.rest {
        [first, ..] if *first == key => None,
        _ => rest.next(),
    }
}
