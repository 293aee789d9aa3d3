//! Reads whole numbers: JSON numbers, or decimal texts (proto3 JSON mapping).

ghost use Rattle.std.specs.Prelude.{◌≡◌, ◌<◌, ◌≤◌, ◌^◌};
ghost use Rattle.serde_json.specs.View.{view};
ghost use Rattle.otlp_read.specs.Integers.{magnitude, text_whole, whole, unsigned_in, unsigned_64};
ghost use Rattle.otlp_read.specs.Integers.{signed_in, signed_64};

use decimals::number_up_to;
use serde_json::Value;

/// The number of the digits, if it is below 2^64.
#[tactic(auto, unfolding(crate::specs::Integers::magnitude))]
fn digits_below(text: &str) -> Option<u64>
    ensures { result ≡ magnitude text.now }
{
    number_up_to(text.as_bytes(), u64::MAX)
}

/// The number of a text: an optional minus, then digits.
fn whole_text(text: &str) -> Option<i128>
    ensures { result ≡ text_whole text.now }
{
    match text.strip_prefix('-') {
        Some(digits) => {
            let size = digits_below(digits)?;
            Some(-i128::from(size))
        }
        None => {
            let size = digits_below(text)?;
            Some(i128::from(size))
        }
    }
}

/// The whole number of a value. 64-bit integers come as numbers or as strings (proto3 JSON
/// mapping). A number with a fraction or an exponent is none.
fn whole(value: &Value) -> Option<i128>
    ensures { result ≡ whole (view value.now) }
{
    match value.as_str() {
        Some(text) => whole_text(text),
        None => value.as_number()?.as_i128(),
    }
}

/// The number of a value, if it is a whole number from 0 to `most`.
#[tactic(auto, unfolding(crate::specs::Integers::unsigned_in))]
pub fn unsigned(value: &Value, most: u64) -> Option<u64>
    ensures { result ≡ unsigned_in most (view value.now) }
{
    let found = whole(value)?;
    if found < 0 || found > i128::from(most) {
        return None;
    }
    Some(found as u64)
}

/// The number of a value, if it is a whole number from `-below` to `above`.
#[tactic(auto, unfolding(crate::specs::Integers::signed_in))]
pub fn signed(value: &Value, below: u64, above: u64) -> Option<i64>
    requires low { below ≤ 2 ^ 63 }
    requires high { above < 2 ^ 63 }
    ensures { result ≡ signed_in below above (view value.now) }
{
    let found = whole(value)?;
    if found < -i128::from(below) || found > i128::from(above) {
        return None;
    }
    Some(found as i64)
}

/// The number of a value, if it is a whole number of 64 bits without a sign.
pub fn unsigned_64(value: &Value) -> Option<u64>
    ensures { result ≡ unsigned_64 (view value.now) }
{
    unsigned(value, u64::MAX)
}

/// The number of a value, if it is a whole number of 64 bits with a sign.
pub fn signed_64(value: &Value) -> Option<i64>
    ensures { result ≡ signed_64 (view value.now) }
{
    signed(value, 1 << 63, (1 << 63) - 1)
}
