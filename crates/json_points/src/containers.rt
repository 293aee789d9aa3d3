//! Reads containers: objects, and arrays of objects. One of another type is not known here.

ghost use Rattle.std.specs.Prelude.{◌≡◌, List, IfOk, IsTrue, Ok, true};
ghost use Rattle.std.specs.List.{list_all};
ghost use Rattle.serde_json.specs.Data.{Data};
ghost use Rattle.otlp_read.specs.declared.place.Place.{Place};
ghost use Rattle.otlp_read.specs.Containers.{is_object, objects, object_in};
ghost use Rattle.json_points.specs.inner.Nodes.{AreItems, data_at};
ghost use Rattle.json_points.specs.inner.Slots.{slot_data, IsList};

use crate::node::{Node, Nodes};
use crate::unknown::Unknown;

/// The elements of an array of objects, none if the field is absent.
pub fn objects<'t, 'a>(found: &Option<Node<'t, 'a>>) -> Result<Option<Nodes<'t, 'a>>, Unknown>
    ensures { IfOk result (λ list. (ds : List Data) × IsList list ds
        × ((place : Place) → objects place (slot_data found.now) ≡ Ok ds)) }
{
    let Some(node) = found else {
        return Ok(None);
    };
    let Some(items) = node.items() else {
        return Err(Unknown);
    };
    let Some(list) = node.items() else {
        return Err(Unknown);
    };
    if are_objects(items) {
        Ok(Some(list))
    } else {
        Err(Unknown)
    }
}

/// Whether all items are objects.
fn are_objects(items: Nodes<'_, '_>) -> bool
    ensures { IsTrue result → (ds : List Data) → AreItems items.entry ds
        → list_all is_object ds ≡ true }
{
    let mut rest = items;
    while let Some(node) = rest.next() {
        if !node.is_object() {
            return false;
        }
    }
    true
}

/// The object of a field, if the field is present.
#[tactic(auto, unfolding(otlp_read::specs::Containers::object_in))]
pub fn object_in<'t, 'a>(found: Option<Node<'t, 'a>>) -> Result<Option<Node<'t, 'a>>, Unknown>
    ensures { IfOk result (λ o. (place : Place)
        → object_in place (slot_data found.entry) ≡ Ok (slot_data o)) }
{
    match found {
        None => Ok(None),
        Some(node) => {
            if node.is_object() {
                Ok(Some(node))
            } else {
                Err(Unknown)
            }
        }
    }
}
