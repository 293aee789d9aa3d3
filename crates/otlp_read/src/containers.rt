//! Reads containers: objects, and arrays of objects.

ghost use Rattle.std.specs.Prelude.{◌≡◌, map};
ghost use Rattle.std.specs.List.{list_all};
ghost use Rattle.serde_json.specs.View.{view};
ghost use Rattle.otlp_read.specs.Containers.{is_object, objects, object_in};
ghost use Rattle.otlp_read.specs.inner.Containers.{Gives};
ghost use Rattle.otlp_read.specs.inner.RefViews.{found_data};

use crate::fault::ReadFault;
use crate::place::Place;
use serde_json::Value;

/// The elements of an array of objects, none if the field is absent. Fails with `WrongShape` if the
/// field is no array, or if an element is no object.
#[tactic(auto, using(crate::proofs::ContainerLemmas::elements_view), unfolding(crate::specs::Containers::objects))]
pub fn objects<'v>(found: Option<&'v Value>, place: Place) -> Result<&'v [Value], ReadFault>
    ensures { Gives (λ vs. map view vs.now) result (objects place (found_data found.entry)) }
{
    let Some(found) = found else {
        return Ok(&[]);
    };
    let Some(list) = found.as_array() else {
        return Err(ReadFault::WrongShape(place));
    };
    let list = list.as_slice();
    if !are_objects(list) {
        return Err(ReadFault::WrongShape(place));
    }
    Ok(list)
}

/// Whether all values are objects.
fn are_objects(list: &[Value]) -> bool
    ensures { result ≡ list_all is_object (map view list.now) }
{
    for value in list {
        if !value.is_object() {
            return false;
        }
    }
    true
}

/// The object of a field, if the field is present. Fails with `WrongShape` if it is no object.
#[tactic(auto, unfolding(crate::specs::Containers::object_in))]
pub fn object_in<'v>(found: Option<&'v Value>, place: Place) -> Result<Option<&'v Value>, ReadFault>
    ensures { Gives (λ o. found_data o) result (object_in place (found_data found.entry)) }
{
    match found {
        None => Ok(None),
        Some(value) if value.is_object() => Ok(Some(value)),
        Some(_) => Err(ReadFault::WrongShape(place)),
    }
}
