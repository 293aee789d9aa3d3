//! Reads attribute lists (`KeyValue` of `opentelemetry/proto/common/v1/common.proto`).

ghost use Rattle.std.specs.Prelude.{◌≡◌, ◌≢◌, IfOk, IfSome, OnErr, OnOk, Some};
ghost use Rattle.std.specs.Result.{result_ok};
ghost use Rattle.otlp_read.specs.Attributes.{pair_of, set_of, attributes_in};
ghost use Rattle.json_points.specs.inner.Nodes.{data_at};
ghost use Rattle.json_points.specs.inner.Slots.{slot_data};
ghost use Rattle.json_points.specs.inner.RefViews.{pair_data};

use crate::fields::{field, text_in};
use crate::lists::{Element, list_in};
use crate::members::{Pair, two_members};
use crate::names::is_named;
use crate::node::Node;
use crate::scalar_ref::PairRef;
use crate::values::{only_scalar, value_in};
use series_id::{AttrFault, AttrSet, AttrValue, Text};
use std::alloc::{AllocError, Global};

/// The attribute set of a field, empty if it is absent. `None` if the field is no attribute list,
/// or one that no series may have.
#[tactic(auto, unfolding(otlp_read::specs::Attributes::attributes_in))]
pub fn attributes_in(
    alloc: Global,
    found: &Option<Node<'_, '_>>,
) -> Result<Option<AttrSet>, AllocError>
    ensures { IfOk result (λ o. o ≡ attributes_in (slot_data found.now)) }
{
    match list_in(alloc, found)? {
        None => Ok(None),
        Some(pairs) => set_of(alloc, pairs),
    }
}

impl Element for (Text, AttrValue) {
    ghost reads = { pair_of };

    fn read(alloc: Global, node: &Node<'_, '_>) -> Result<Option<(Text, AttrValue)>, AllocError> {
        pair_of(alloc, node)
    }
}

/// The key and the value of an attribute; `None` if it is none.
#[tactic(auto, unfolding(otlp_read::specs::Attributes::pair_of))]
fn pair_of(alloc: Global, node: &Node<'_, '_>) -> Result<Option<(Text, AttrValue)>, AllocError>
    ensures { IfOk result (λ o. o ≡ pair_of (data_at node.now)) }
{
    if !node.is_object() {
        return Ok(None);
    }
    let Some(key) = text_in(&field(node, "key")) else {
        return Ok(None);
    };
    let Some(found) = value_in(alloc, &field(node, "value"))? else {
        return Ok(None);
    };
    let key = Text::new(String::from_str(alloc, key)?);
    Ok(Some((key, found)))
}

/// An attribute that is a key and a single value, in this order and with nothing else.
#[inline(always)]
pub fn pair_ref<'a>(node: &Node<'_, 'a>) -> Option<PairRef<'a>>
    ensures { IfSome result (λ p. pair_of (data_at node.now) ≡ Some (pair_data p)) }
{
    let Some(Pair { first, second }) = two_members(node) else {
        return None;
    };
    if !is_named(first.name, "key") {
        return None;
    }
    if !is_named(second.name, "value") {
        return None;
    }
    let key = text_in(&first.value.present())?;
    let value = only_scalar(&second.value)?;
    Some(PairRef { key, value })
}

/// The set of the pairs; `None` if they break a rule of sets.
fn set_of(alloc: Global, pairs: Vec<(Text, AttrValue)>) -> Result<Option<AttrSet>, AllocError>
    ensures { IfOk result (λ o. o ≡ set_of pairs.items) }
{
    let set = allowed_set(AttrSet::from_pairs(alloc, pairs))?;
    Ok(set)
}

/// The set, or `None` if its pairs break a rule of sets. Fails only if an allocation failed.
fn allowed_set(set: Result<AttrSet, AttrFault>) -> Result<Option<AttrSet>, AllocError>
    ensures set { IfOk result (λ o. o ≡ result_ok set) }
    ensures ok { OnOk result (set ≢ Err AttrFault.NoMemory) }
    ensures memory { OnErr result (set ≡ Err AttrFault.NoMemory) }
{
    match set {
        Ok(set) => Ok(Some(set)),
        Err(AttrFault::NoMemory) => Err(AllocError),
        Err(_) => Ok(None),
    }
}
