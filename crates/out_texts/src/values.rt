//! Builds the elements of JSON arrays.

ghost use Rattle.std.specs.Prelude.{◌≡◌, map, IfOk};
ghost use Rattle.serde_json.specs.Data.{Data};
ghost use Rattle.serde_json.specs.View.{view, items_view, items_of};

use serde_json::Value;
use std::alloc::{AllocError, Global};

/// What can be an element of a JSON array.
pub(crate) trait HasValue {
    /// Its value.
    ghost value_of: { Self → Data };

    /// Builds its value.
    fn value(&self, alloc: Global) -> Result<Value, AllocError>
        ensures { IfOk result (λ v. view v ≡ value_of self.now) };
}

/// The elements of an array, in order.
pub(crate) fn values_of<T: HasValue>(alloc: Global, items: &[T]) -> Result<Vec<Value>, AllocError>
    ensures { IfOk result (λ vs. items_view vs.items ≡ items_of (map T.value_of items.now)) }
{
    let mut values = Vec::new(alloc);
    for item in items {
        values.push(item.value(alloc)?)?;
    }
    Ok(values)
}
