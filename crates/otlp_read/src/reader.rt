//! What the walk through a request hands on, and its loop over the objects of an array.

ghost use Rattle.std.specs.Prelude.{map, Result};
ghost use Rattle.serde_json.specs.Data.{Data};
ghost use Rattle.serde_json.specs.View.{view};
ghost use Rattle.otlp_read.specs.declared.place.Place.{Place};
ghost use Rattle.otlp_read.specs.inner.Containers.{Gives};
ghost use Rattle.otlp_read.specs.Tallies.{Tally, tally};
ghost use Rattle.otlp_read.specs.Reading.{each};

use crate::fault::ReadFault;
use crate::identity_cache::IdentityCache;
use crate::reading::Reading;
use serde_json::Value;
use std::alloc::Global;

/// A reader of a request: its memory, its cache, and what it has read so far.
#[derive(Drop)]
pub struct Reader<'c> {
    pub alloc: Global,
    pub cache: &'c mut IdentityCache,
    pub out: Reading,
}

/// How the objects of an array are read, by what they are in.
pub trait Object: Copy {
    /// What an object adds.
    ghost adds: { Self → Data → Tally → Result Tally Place };

    /// Reads an object.
    fn read(self, reader: &mut Reader<'_>, value: &Value) -> Result<(), ReadFault>
        ensures { Gives (λ _. tally reader.new.out) result (adds self (view value.now)
            (tally reader.old.out)) };
}

/// Reads the objects of an array in order.
pub fn each<O: Object>(reader: &mut Reader<'_>, above: O, values: &[Value]) -> Result<(), ReadFault>
    ensures { Gives (λ _. tally reader.new.out) result (each (O.adds above) (map view values.now)
        (tally reader.old.out)) }
{
    for value in values {
        above.read(reader, value)?;
    }
    Ok(())
}
