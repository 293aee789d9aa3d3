//! Reads single fields of an object: texts, booleans, flags, the temporality, times.

ghost use Rattle.std.specs.Prelude.{◌≡◌, option_map, option_and_then};
ghost use Rattle.serde_json.specs.Find.{as_number, as_u64};
ghost use Rattle.otlp_read.specs.Fields.{field, flags_fit, text_in, truth_in, is_delta};
ghost use Rattle.otlp_read.specs.Fields.{is_one};
ghost use Rattle.json_points.specs.inner.Nodes.{data_at};
ghost use Rattle.json_points.specs.inner.Slots.{slot_data};

use crate::integers::unsigned;
use crate::node::Node;
use crate::numbers::number;
use series_id::limits::MAX_TEXT;

/// The member of this name, if it is present and not null.
#[tactic(auto, unfolding(otlp_read::specs::Fields::field))]
pub fn field<'t, 'a>(node: &Node<'t, 'a>, name: &str) -> Option<Node<'t, 'a>>
    ensures { slot_data result ≡ field name.now (data_at node.now) }
{
    match node.get(name) {
        Some(found) => found.present(),
        None => None,
    }
}

/// Whether the point has a recorded value: the flags fit 32 bits and their lowest bit is not set
/// (`DataPointFlags` of `opentelemetry/proto/metrics/v1/metrics.proto`).
#[tactic(auto, unfolding(otlp_read::specs::Fields::flags_fit))]
pub fn flags_fit(found: &Option<Node<'_, '_>>) -> bool
    ensures { result ≡ flags_fit (slot_data found.now) }
{
    match found {
        None => true,
        Some(node) => match unsigned(node, u32::MAX as u64) {
            Some(flags) => flags % 2 == 0,
            None => false,
        },
    }
}

/// A text of at most `MAX_TEXT` bytes, empty if it is absent.
#[tactic(auto, unfolding(otlp_read::specs::Fields::text_in))]
pub fn text_in<'a>(found: &Option<Node<'_, 'a>>) -> Option<&'a str>
    ensures { option_map (λ s. s.now) result ≡ text_in (slot_data found.now) }
{
    let Some(node) = found else {
        return Some("");
    };
    let text = node.as_str()?;
    if text.len() <= MAX_TEXT {
        Some(text)
    } else {
        None
    }
}

/// A boolean, false if it is absent.
#[tactic(auto, unfolding(otlp_read::specs::Fields::truth_in))]
pub fn truth_in(found: &Option<Node<'_, '_>>) -> Option<bool>
    ensures { result ≡ truth_in (slot_data found.now) }
{
    match found {
        None => Some(false),
        Some(node) => node.as_bool(),
    }
}

/// Whether the temporality is delta: the number 1.
#[tactic(auto, unfolding(otlp_read::specs::Fields::is_delta))]
pub fn is_delta(found: &Option<Node<'_, '_>>) -> bool
    ensures { result ≡ is_delta (slot_data found.now) }
{
    match found {
        None => false,
        Some(node) => is_one(node),
    }
}

/// Whether a value is the number 1.
fn is_one(node: &Node<'_, '_>) -> bool
    ensures { result ≡ is_one (option_and_then as_u64 (as_number (data_at node.now))) }
{
    match number(node) {
        Some(number) => match number.as_u64() {
            Some(number) => number == 1,
            None => false,
        },
        None => false,
    }
}
