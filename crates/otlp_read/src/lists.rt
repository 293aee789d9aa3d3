//! Reads arrays, each element in the same way.

ghost use Rattle.std.specs.Prelude.{◌≡◌, map, option_map, IfOk, Option};
ghost use Rattle.serde_json.specs.Data.{Data};
ghost use Rattle.serde_json.specs.View.{view};
ghost use Rattle.series_id.specs.declared.limits.TheConstants.{MAX_BOUND};
ghost use Rattle.otlp_read.specs.Integers.{unsigned_64, signed_in};
ghost use Rattle.otlp_read.specs.Lists.{all_of, elements_in, list_in};
ghost use Rattle.otlp_read.specs.inner.RefViews.{found_data};

use crate::integers::{signed, unsigned_64};
use serde_json::Value;
use series_id::limits::MAX_BOUND;
use std::alloc::{AllocError, Global};

/// A type as which the elements of an array are read.
pub trait Element: Drop {
    /// What a value is read as, if it is such an element.
    ghost reads: { Data → Option Self };

    /// Reads an element; `None` if the value is none.
    fn read(alloc: Global, value: &Value) -> Result<Option<Self>, AllocError>
        ensures { IfOk result (λ o. o ≡ reads (view value.now)) };
}

/// A bucket of a histogram.
impl Element for u64 {
    ghost reads = { unsigned_64 };

    fn read(_alloc: Global, value: &Value) -> Result<Option<u64>, AllocError> {
        Ok(unsigned_64(value))
    }
}

/// A bound of a histogram.
impl Element for i64 {
    ghost reads = { signed_in MAX_BOUND MAX_BOUND };

    fn read(_alloc: Global, value: &Value) -> Result<Option<i64>, AllocError> {
        Ok(signed(value, MAX_BOUND, MAX_BOUND))
    }
}

/// The elements of an array, none if the field is absent. `None` if the field is no array.
#[tactic(auto, using(crate::proofs::ContainerLemmas::elements_view), unfolding(crate::specs::Lists::elements_in))]
pub fn elements_in<'v>(found: Option<&'v Value>) -> Option<&'v [Value]>
    ensures { option_map (λ vs. map view vs.now) result ≡ elements_in (found_data found.entry) }
{
    let Some(found) = found else {
        return Some(&[]);
    };
    let list = found.as_array()?;
    Some(list.as_slice())
}

/// The elements of an array, none if the field is absent. `None` if the field is no array, or one
/// of its values is no such element.
pub fn list_in<T: Element>(
    alloc: Global,
    found: Option<&Value>,
) -> Result<Option<Vec<T>>, AllocError>
    ensures { IfOk result (λ o. option_map (λ v. v.items) o ≡ list_in T.reads
        (found_data found.entry)) }
{
    match elements_in(found) {
        None => Ok(None),
        Some(values) => all_of(alloc, values),
    }
}

/// The elements of a list, if each value is one.
fn all_of<T: Element>(alloc: Global, values: &[Value]) -> Result<Option<Vec<T>>, AllocError>
    ensures { IfOk result (λ o. option_map (λ v. v.items) o ≡ all_of T.reads
        (map view values.now)) }
{
    let mut found = Vec::with_capacity(alloc, values.len())?;
    for value in values {
        let Some(element) = T::read(alloc, value)? else {
            return Ok(None);
        };
        found.push(element)?;
    }
    Ok(Some(found))
}
