//! Reads lists of numbers of 8 bytes, packed or not, each in the same way.

ghost use Rattle.std.specs.Prelude.{◌≡◌, ◌∷◌, ℕ, [], IfOk, IsTrue, MatchOption, Option, Some};
ghost use Rattle.std.specs.Prelude.{map, option_map};
ghost use Rattle.serde_json.specs.Data.{Data};
ghost use Rattle.series_id.specs.declared.limits.TheConstants.{MAX_BOUND};
ghost use Rattle.otlp_read.specs.Integers.{unsigned_64, signed_in};
ghost use Rattle.otlp_read.specs.Lists.{all_of};
ghost use Rattle.otlp_protobuf.specs.Wire.{fields};
ghost use Rattle.otlp_protobuf.specs.Fields.{numbers, numbers_at, packed};
ghost use Rattle.otlp_protobuf.specs.Members.{double_data, unsigned_data};
ghost use Rattle.otlp_protobuf.specs.inner.NumberViews.{numbers_data};
ghost use Rattle.otlp_protobuf.specs.inner.Views.{field_data, fields_data};

use crate::doubles::bound_double;
use crate::fields::{Field, Fields};
use crate::number_list::NumberList;
use crate::wire::{Payload, fixed64};
use std::alloc::{AllocError, Global};

/// A type as which numbers of 8 bytes are read.
pub trait Number: Drop {
    /// A number as JSON, by its bits.
    ghost shows: { ℕ → Data };

    /// What it is read as, if it is such a number.
    ghost reads: { Data → Option Self };

    /// Reads a number; `None` if it is none.
    fn of_bits(bits: u64) -> Option<Self>
        ensures { result ≡ reads (shows bits) };
}

/// A bucket of a histogram.
impl Number for u64 {
    ghost shows = { unsigned_data };

    ghost reads = { unsigned_64 };

    fn of_bits(bits: u64) -> Option<u64> {
        Some(bits)
    }
}

/// A bound of a histogram.
impl Number for i64 {
    ghost shows = { double_data };

    ghost reads = { signed_in MAX_BOUND MAX_BOUND };

    fn of_bits(bits: u64) -> Option<i64> {
        bound_double(bits)
    }
}

/// The numbers of one field that are still to come: those that are packed in the field that is
/// under way, and the fields behind it.
#[derive(Clone, Copy)]
pub struct Numbers<'a> {
    pub packed: &'a [u8],
    pub number: u32,
    pub rest: Fields<'a>,
}

impl<'a> Numbers<'a> {
    /// The numbers of a list.
    pub fn of(list: NumberList<'a>) -> Numbers<'a>
        ensures { numbers_data result ≡ numbers list.entry.number (fields list.entry.bytes.now) }
    {
        let number = list.number;
        match list.spot {
            Some(packed) => Numbers {
                packed,
                number,
                rest: Fields { rest: &[], left: 0 },
            },
            None => Numbers {
                packed: &[],
                number,
                rest: Fields::of(list.bytes),
            },
        }
    }

    /// The next number.
    #[inline(always)]
    pub fn next(&mut self) -> Option<u64>
        ensures { MatchOption result (numbers_data self.old ≡ [])
            (λ n. numbers_data self.old ≡ n ∷ numbers_data self.new) }
    {
        match next_packed(self.packed) {
            Some((bits, packed)) => {
                self.packed = packed;
                Some(bits)
            }
            None => self.next_field(),
        }
    }

    /// The first number of the fields behind the one that is under way.
    #[inline(never)]
    fn next_field(&mut self) -> Option<u64>
        ensures { MatchOption result (numbers self.old.number (fields_data self.old.rest) ≡ [])
            (λ n. numbers self.old.number (fields_data self.old.rest)
            ≡ n ∷ numbers_data self.new) }
    {
        while let Some(field) = self.rest.next() {
            if let Some((bits, packed)) = first_at(self.number, field) {
                self.packed = packed;
                return Some(bits);
            }
        }
        None
    }
}

/// The first of packed numbers, and the others.
#[inline(always)]
fn next_packed(bytes: &[u8]) -> Option<(u64, &[u8])>
    ensures { MatchOption result (packed bytes.now ≡ [])
        (λ r. packed bytes.now ≡ r.0 ∷ packed r.1.now) }
{
    match fixed64(bytes) {
        Ok(first) => Some(first),
        Err(_) => None,
    }
}

/// The first number of a field, and the others that are packed in it, if it has this number.
fn first_at<'a>(number: u32, field: Field<'a>) -> Option<(u64, &'a [u8])>
    ensures { MatchOption result (numbers_at number (field_data field.entry) ≡ [])
        (λ r. numbers_at number (field_data field.entry) ≡ r.0 ∷ packed r.1.now) }
{
    if field.number != number {
        return None;
    }
    match field.payload {
        Payload::Fixed64(bits) => Some((bits, &[])),
        Payload::Bytes(content) => next_packed(content),
        _ => None,
    }
}

/// The numbers of a list, if each is such a number.
pub fn numbers_in<T: Number>(
    alloc: Global,
    list: NumberList<'_>,
) -> Result<Option<Vec<T>>, AllocError>
    ensures { IfOk result (λ o. option_map (λ v. v.items) o
        ≡ all_of T.reads (map T.shows (numbers list.entry.number
        (fields list.entry.bytes.now)))) }
{
    let mut rest = Numbers::of(list);
    let mut found = Vec::with_capacity(alloc, rest.packed.len() / 8)?;
    while let Some(bits) = rest.next() {
        let Some(element) = T::of_bits(bits) else {
            return Ok(None);
        };
        found.push(element)?;
    }
    Ok(Some(found))
}

/// Whether the numbers are these bounds.
pub fn are_bounds(numbers: Numbers<'_>, bounds: &[i64]) -> bool
    ensures only { IsTrue result → all_of (signed_in MAX_BOUND MAX_BOUND)
        (map double_data (numbers_data numbers.entry)) ≡ Some bounds.now }
{
    let mut rest = numbers;
    let mut count: usize = 0;
    while let Some(bits) = rest.next() {
        if count >= bounds.len() {
            return false;
        }
        if !is_bound(bits, &bounds[count]) {
            return false;
        }
        count += 1;
    }
    count >= bounds.len()
}

/// Whether the number of these bits is this bound.
fn is_bound(bits: u64, bound: &i64) -> bool
    ensures only { IsTrue result
        → signed_in MAX_BOUND MAX_BOUND (double_data bits) ≡ Some bound.now }
{
    match bound_double(bits) {
        Some(found) => found == *bound,
        None => false,
    }
}
