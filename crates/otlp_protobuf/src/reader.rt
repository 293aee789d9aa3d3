//! What the walk through a request hands on, and its loop over the messages of a list.

ghost use Rattle.std.specs.Prelude.{◌≡◌, ℕ, List, OnOk, Ok, Result, map};
ghost use Rattle.serde_json.specs.Data.{Data};
ghost use Rattle.otlp_read.specs.declared.place.Place.{Place};
ghost use Rattle.otlp_read.specs.Reading.{each};
ghost use Rattle.otlp_read.specs.Tallies.{Tally, tally};
ghost use Rattle.otlp_protobuf.specs.Wire.{fields};
ghost use Rattle.otlp_protobuf.specs.Fields.{contents};

use crate::fields::Fields;
use crate::identity_cache::IdentityCache;
use crate::scan::next_content;
use crate::set_cache::SetCache;
use otlp_read::Reading;
use std::alloc::{AllocError, Global};

/// A reader of a request: its memory, its caches, and what it has read so far.
#[derive(Drop)]
pub struct Reader<'c> {
    pub alloc: Global,
    pub cache: &'c mut IdentityCache,
    pub sets: &'c mut SetCache,
    pub out: Reading,
}

/// How the messages of a list are read, by what they are in.
pub trait Object: Copy {
    /// A message as JSON.
    ghost shows: { List ℕ → Data };

    /// What it adds.
    ghost adds: { Self → Data → Tally → Result Tally Place };

    /// Reads a message.
    fn read(self, reader: &mut Reader<'_>, bytes: &[u8]) -> Result<(), AllocError>
        ensures { OnOk result (adds self (shows bytes.now) (tally reader.old.out)
            ≡ Ok (tally reader.new.out)) };
}

/// Reads the messages of the list of this number in order.
pub fn each<O: Object>(
    reader: &mut Reader<'_>,
    above: O,
    bytes: &[u8],
    number: u32,
) -> Result<(), AllocError>
    ensures { OnOk result (each (O.adds above) (map O.shows (contents number (fields bytes.now)))
        (tally reader.old.out) ≡ Ok (tally reader.new.out)) }
{
    let mut rest = Fields::of(bytes);
    while let Some(content) = next_content(&mut rest, number) {
        above.read(reader, content)?;
    }
    Ok(())
}
