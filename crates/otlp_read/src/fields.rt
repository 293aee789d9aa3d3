//! Reads single fields of an object: texts, booleans, flags, the temporality, times.

ghost use Rattle.std.specs.Prelude.{◌≡◌, option_map};
ghost use Rattle.serde_json.specs.View.{view};
ghost use Rattle.otlp_read.specs.Fields.{field, flags_fit, text_in, truth_in, is_delta, nanos_in};
ghost use Rattle.otlp_read.specs.inner.RefViews.{found_data};

use crate::integers::{unsigned, unsigned_64};
use serde_json::Value;
use series_id::limits::MAX_TEXT;

/// The member of this name, if it is present and not null.
#[tactic(auto, unfolding(crate::specs::Fields::field))]
pub fn field<'v>(value: &'v Value, name: &str) -> Option<&'v Value>
    ensures { found_data result ≡ field name.now (view value.now) }
{
    let found = value.get(name)?;
    if found.is_null() { None } else { Some(found) }
}

/// Whether the point has a recorded value: the flags fit 32 bits and their lowest bit is not set
/// (`DataPointFlags` of `opentelemetry/proto/metrics/v1/metrics.proto`).
#[tactic(auto, unfolding(crate::specs::Fields::flags_fit))]
pub fn flags_fit(found: Option<&Value>) -> bool
    ensures { result ≡ flags_fit (found_data found.entry) }
{
    match found {
        None => true,
        Some(value) => match unsigned(value, u32::MAX as u64) {
            Some(flags) => flags % 2 == 0,
            None => false,
        },
    }
}

/// A text of at most `MAX_TEXT` bytes, empty if it is absent.
#[tactic(auto, unfolding(crate::specs::Fields::text_in))]
pub fn text_in<'v>(found: Option<&'v Value>) -> Option<&'v str>
    ensures { option_map (λ s. s.now) result ≡ text_in (found_data found.entry) }
{
    let Some(value) = found else {
        return Some("");
    };
    let text = value.as_str()?;
    if text.len() <= MAX_TEXT {
        Some(text)
    } else {
        None
    }
}

/// A boolean, false if it is absent.
#[tactic(auto, unfolding(crate::specs::Fields::truth_in))]
pub fn truth_in(found: Option<&Value>) -> Option<bool>
    ensures { result ≡ truth_in (found_data found.entry) }
{
    match found {
        None => Some(false),
        Some(value) => value.as_bool(),
    }
}

/// Whether the temporality is delta: the number 1.
#[tactic(auto, unfolding(crate::specs::Fields::is_delta))]
pub fn is_delta(found: Option<&Value>) -> bool
    ensures { result ≡ is_delta (found_data found.entry) }
{
    match found {
        None => false,
        Some(value) => match value.as_u64() {
            Some(number) => number == 1,
            None => false,
        },
    }
}

/// A time in nanoseconds since the epoch, if it is present.
#[tactic(auto, unfolding(crate::specs::Fields::nanos_in))]
pub fn nanos_in(found: Option<&Value>) -> Option<u64>
    ensures { result ≡ nanos_in (found_data found.entry) }
{
    unsigned_64(found?)
}
