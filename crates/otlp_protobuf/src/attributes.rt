//! Reads attribute lists (`KeyValue`).

ghost use Rattle.std.specs.Prelude.{◌≡◌, ◌≢◌, IfOk, OnErr, OnOk, Some, map, option_map};
ghost use Rattle.std.specs.Result.{result_ok};
ghost use Rattle.serde_json.specs.Data.{string};
ghost use Rattle.otlp_read.specs.Attributes.{pair_of, set_of, attributes_in};
ghost use Rattle.otlp_read.specs.Fields.{text_in};
ghost use Rattle.otlp_protobuf.specs.Wire.{fields};
ghost use Rattle.otlp_protobuf.specs.Fields.{contents};
ghost use Rattle.otlp_protobuf.specs.Members.{list_data};
ghost use Rattle.otlp_protobuf.specs.Values.{key_value};

use crate::lists::{Element, all_of};
use crate::scan::{text_at, whole_at};
use crate::values::value_in;
use series_id::limits::MAX_TEXT;
use series_id::{AttrFault, AttrSet, AttrValue, Text};
use std::alloc::{AllocError, Global};

/// The attribute set of the list of this number. `None` if it is one that no series may have.
#[tactic(auto, unfolding(otlp_read::specs::Attributes::attributes_in), using(crate::proofs::ValueLemmas::list_read))]
pub fn attributes_in(
    alloc: Global,
    bytes: &[u8],
    number: u32,
) -> Result<Option<AttrSet>, AllocError>
    ensures { IfOk result (λ o. o ≡ attributes_in (Some (list_data
        (map key_value (contents number (fields bytes.now)))))) }
{
    match all_of(alloc, bytes, number)? {
        None => Ok(None),
        Some(pairs) => set_of(alloc, pairs),
    }
}

/// A text of at most `MAX_TEXT` bytes, empty if it is absent.
#[tactic(auto, unfolding(otlp_read::specs::Fields::text_in))]
pub fn text_in<'a>(found: Option<&'a str>) -> Option<&'a str>
    ensures { option_map (λ s. s.now) result
        ≡ text_in (option_map string (option_map (λ s. s.now) found.entry)) }
{
    let Some(text) = found else {
        return Some("");
    };
    if text.len() <= MAX_TEXT {
        Some(text)
    } else {
        None
    }
}

impl Element for (Text, AttrValue) {
    ghost shows = { key_value };

    ghost reads = { pair_of };

    fn read(alloc: Global, bytes: &[u8]) -> Result<Option<(Text, AttrValue)>, AllocError> {
        pair_of(alloc, bytes)
    }
}

/// The key and the value of an attribute; `None` if it is none.
#[tactic(auto, using(crate::proofs::ValueLemmas::pair_is))]
fn pair_of(alloc: Global, bytes: &[u8]) -> Result<Option<(Text, AttrValue)>, AllocError>
    ensures { IfOk result (λ o. o ≡ pair_of (key_value bytes.now)) }
{
    let Some(key) = text_in(text_at(bytes, 1)) else {
        return Ok(None);
    };
    let whole = whole_at(alloc, bytes, 2)?;
    let Some(found) = value_in(alloc, whole.bytes())? else {
        return Ok(None);
    };
    let key = Text::new(String::from_str(alloc, key)?);
    Ok(Some((key, found)))
}

/// The set of the pairs; `None` if they break a rule of sets.
fn set_of(alloc: Global, pairs: Vec<(Text, AttrValue)>) -> Result<Option<AttrSet>, AllocError>
    ensures { IfOk result (λ o. o ≡ set_of pairs.items) }
{
    let set = allowed_set(AttrSet::from_pairs(alloc, pairs))?;
    Ok(set)
}

/// The set, or `None` if its pairs break a rule of sets. Fails only if an allocation failed.
fn allowed_set(set: Result<AttrSet, AttrFault>) -> Result<Option<AttrSet>, AllocError>
    ensures set { IfOk result (λ o. o ≡ result_ok set) }
    ensures ok { OnOk result (set ≢ Err AttrFault.NoMemory) }
    ensures memory { OnErr result (set ≡ Err AttrFault.NoMemory) }
{
    match set {
        Ok(set) => Ok(Some(set)),
        Err(AttrFault::NoMemory) => Err(AllocError),
        Err(_) => Ok(None),
    }
}
