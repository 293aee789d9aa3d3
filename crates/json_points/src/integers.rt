//! Reads whole numbers: JSON numbers, or decimal texts (proto3 JSON mapping).

ghost use Rattle.std.specs.Prelude.{◌≡◌, ◌==◌, ◌||◌, ◌-◌, ◌<◌, ◌≤◌, ◌^◌, IfSome, Some};
ghost use Rattle.std.specs.Prelude.{slice_index};
ghost use Rattle.otlp_read.specs.Integers.{magnitude, text_whole, whole, unsigned_in, unsigned_64};
ghost use Rattle.otlp_read.specs.Integers.{signed_in, signed_64, up_to};
ghost use Rattle.json_points.specs.inner.Nodes.{data_at};

use crate::node::Node;
use crate::numbers::number;
use decimals::{number_up_to, numerals_are_read};
use fast_float::parse_u64;

/// The number of the digits, if it is below 2^64.
#[tactic(auto, unfolding(otlp_read::specs::Integers::magnitude))]
fn digits_below(text: &str) -> Option<u64>
    ensures { result ≡ magnitude text.now }
{
    number_up_to(text.as_bytes(), u64::MAX)
}

/// The number of a text: an optional minus, then digits.
fn whole_text(text: &str) -> Option<i128>
    ensures { result ≡ text_whole text.now }
{
    match text.strip_prefix('-') {
        Some(digits) => {
            let size = digits_below(digits)?;
            Some(-i128::from(size))
        }
        None => {
            let size = digits_below(text)?;
            Some(i128::from(size))
        }
    }
}

/// The whole number of a value. 64-bit integers come as numbers or as strings (proto3 JSON
/// mapping). A number with a fraction or an exponent is none.
fn whole(node: &Node<'_, '_>) -> Option<i128>
    ensures { result ≡ whole (data_at node.now) }
{
    match node.as_str() {
        Some(text) => whole_text(text),
        None => number(node)?.as_i128(),
    }
}

/// The number of a value, if it is a whole number from 0 to `most`.
#[tactic(auto, unfolding(otlp_read::specs::Integers::unsigned_in))]
pub fn unsigned(node: &Node<'_, '_>, most: u64) -> Option<u64>
    ensures { result ≡ unsigned_in most (data_at node.now) }
{
    let found = whole(node)?;
    if found < 0 || found > i128::from(most) {
        return None;
    }
    Some(found as u64)
}

/// The number of a value, if it is a whole number from `-below` to `above`.
#[tactic(auto, unfolding(otlp_read::specs::Integers::signed_in))]
pub fn signed(node: &Node<'_, '_>, below: u64, above: u64) -> Option<i64>
    requires low { below ≤ 2 ^ 63 }
    requires high { above < 2 ^ 63 }
    ensures { result ≡ signed_in below above (data_at node.now) }
{
    let found = whole(node)?;
    if found < -i128::from(below) || found > i128::from(above) {
        return None;
    }
    Some(found as i64)
}

/// The number of a text, if it is one of 64 bits without a sign.
pub fn unsigned_text(text: &str) -> Option<u64>
    ensures { result ≡ up_to (2 ^ 64 - 1) (text_whole text.now) }
{
    if let Some(found) = many_digits(text.as_bytes()) {
        return Some(found);
    }
    let found = whole_text(text)?;
    if found < 0 || found > i128::from(u64::MAX) {
        return None;
    }
    Some(found as u64)
}

/// The number of digits that have no sign, read several at a time. `None` says nothing.
#[tactic(auto, unfolding(otlp_read::specs::Integers::magnitude))]
fn many_digits(digits: &[u8]) -> Option<u64>
    ensures { IfSome result (λ n. up_to (2 ^ 64 - 1) (text_whole digits.now) ≡ Some n) }
{
    numerals_are_read();
    if has_sign(digits) {
        return None;
    }
    match parse_u64(digits) {
        Ok(found) => Some(found),
        Err(_) => None,
    }
}

/// Whether a sign stands first.
fn has_sign(bytes: &[u8]) -> bool
    ensures { result ≡ (slice_index bytes.now 0 == 43 || slice_index bytes.now 0 == 45) }
{
    !bytes.is_empty() && (bytes[0] == b'+' || bytes[0] == b'-')
}

/// The number of a value, if it is a whole number of 64 bits without a sign.
pub fn unsigned_64(node: &Node<'_, '_>) -> Option<u64>
    ensures { result ≡ unsigned_64 (data_at node.now) }
{
    unsigned(node, u64::MAX)
}

/// The number of a value, if it is a whole number of 64 bits with a sign.
pub fn signed_64(node: &Node<'_, '_>) -> Option<i64>
    ensures { result ≡ signed_64 (data_at node.now) }
{
    signed(node, 1 << 63, (1 << 63) - 1)
}
