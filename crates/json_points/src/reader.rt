//! What the walk through a request hands on, and its loop over the objects of an array.

ghost use Rattle.std.specs.Prelude.{◌≡◌, List, OnOk, Ok, Result};
ghost use Rattle.serde_json.specs.Data.{Data};
ghost use Rattle.otlp_read.specs.declared.place.Place.{Place};
ghost use Rattle.otlp_read.specs.Reading.{each};
ghost use Rattle.otlp_read.specs.Tallies.{Tally, tally};
ghost use Rattle.json_points.specs.inner.Nodes.{AreItems, data_at};
ghost use Rattle.json_points.specs.inner.Slots.{IsList};

use crate::identity_cache::IdentityCache;
use crate::node::{Node, Nodes};
use crate::set_cache::SetCache;
use crate::unknown::Unknown;
use otlp_read::Reading;
use std::alloc::Global;

/// A reader of a request: its memory, its caches, and what it has read so far.
#[derive(Drop)]
pub struct Reader<'c> {
    pub alloc: Global,
    pub cache: &'c mut IdentityCache,
    pub sets: &'c mut SetCache,
    pub out: Reading,
}

/// How the objects of an array are read, by what they are in.
pub trait Object: Copy {
    /// What an object adds.
    ghost adds: { Self → Data → Tally → Result Tally Place };

    /// Reads an object.
    fn read(self, reader: &mut Reader<'_>, node: &Node<'_, '_>) -> Result<(), Unknown>
        ensures { OnOk result (adds self (data_at node.now) (tally reader.old.out)
            ≡ Ok (tally reader.new.out)) };
}

/// Reads the objects of an array in order, none if it is absent.
pub fn each<O: Object>(
    reader: &mut Reader<'_>,
    above: O,
    list: Option<Nodes<'_, '_>>,
) -> Result<(), Unknown>
    ensures { OnOk result ((ds : List Data) → IsList list.entry ds
        → each (O.adds above) ds (tally reader.old.out) ≡ Ok (tally reader.new.out)) }
{
    match list {
        None => Ok(()),
        Some(nodes) => each_of(reader, above, nodes),
    }
}

fn each_of<O: Object>(
    reader: &mut Reader<'_>,
    above: O,
    nodes: Nodes<'_, '_>,
) -> Result<(), Unknown>
    ensures { OnOk result ((ds : List Data) → AreItems nodes.entry ds
        → each (O.adds above) ds (tally reader.old.out) ≡ Ok (tally reader.new.out)) }
{
    let mut rest = nodes;
    while let Some(node) = rest.next() {
        above.read(reader, &node)?;
    }
    Ok(())
}
