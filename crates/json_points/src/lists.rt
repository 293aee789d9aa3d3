//! Reads arrays, each element in the same way.

ghost use Rattle.std.specs.Prelude.{◌≡◌, List, option_map, IfOk, Option};
ghost use Rattle.serde_json.specs.Data.{Data};
ghost use Rattle.series_id.specs.declared.limits.TheConstants.{MAX_BOUND};
ghost use Rattle.otlp_read.specs.Integers.{unsigned_64, signed_in};
ghost use Rattle.otlp_read.specs.Lists.{all_of, list_in};
ghost use Rattle.json_points.specs.inner.Nodes.{AreItems, data_at};
ghost use Rattle.json_points.specs.inner.Slots.{slot_data};

use crate::integers::{signed, unsigned_64};
use crate::node::{Node, Nodes};
use series_id::limits::MAX_BOUND;
use std::alloc::{AllocError, Global};

/// Room for as many elements as a histogram has buckets by default.
const USUAL: usize = 16;

/// A type as which the elements of an array are read.
pub trait Element: Drop {
    /// What a value is read as, if it is such an element.
    ghost reads: { Data → Option Self };

    /// Reads an element; `None` if the value is none.
    fn read(alloc: Global, node: &Node<'_, '_>) -> Result<Option<Self>, AllocError>
        ensures { IfOk result (λ o. o ≡ reads (data_at node.now)) };
}

/// A bucket of a histogram.
impl Element for u64 {
    ghost reads = { unsigned_64 };

    fn read(_alloc: Global, node: &Node<'_, '_>) -> Result<Option<u64>, AllocError> {
        Ok(unsigned_64(node))
    }
}

/// A bound of a histogram.
impl Element for i64 {
    ghost reads = { signed_in MAX_BOUND MAX_BOUND };

    fn read(_alloc: Global, node: &Node<'_, '_>) -> Result<Option<i64>, AllocError> {
        Ok(signed(node, MAX_BOUND, MAX_BOUND))
    }
}

/// The elements of an array, none if the field is absent. `None` if the field is no array, or one
/// of its values is no such element.
pub fn list_in<T: Element>(
    alloc: Global,
    found: &Option<Node<'_, '_>>,
) -> Result<Option<Vec<T>>, AllocError>
    ensures { IfOk result (λ o. option_map (λ v. v.items) o ≡ list_in T.reads
        (slot_data found.now)) }
{
    let Some(node) = found else {
        return Ok(Some(Vec::new(alloc)));
    };
    match node.items() {
        None => Ok(None),
        Some(nodes) => all_of(alloc, nodes),
    }
}

/// The elements of a list, if each value is one.
fn all_of<T: Element>(alloc: Global, nodes: Nodes<'_, '_>) -> Result<Option<Vec<T>>, AllocError>
    ensures { IfOk result (λ o. (ds : List Data) → AreItems nodes.entry ds
        → option_map (λ v. v.items) o ≡ all_of T.reads ds) }
{
    let mut found = Vec::with_capacity(alloc, USUAL)?;
    let mut rest = nodes;
    while let Some(node) = rest.next() {
        let Some(element) = T::read(alloc, &node)? else {
            return Ok(None);
        };
        found.push(element)?;
    }
    Ok(Some(found))
}
