//! Whether bytes are a message.

ghost use Rattle.std.specs.Prelude.{◌≡◌, ◌<◌, ◌-◌, ◌%◌, ◌==◌, if◌then◌else◌, length, option_map};
ghost use Rattle.std.specs.Prelude.{Ok, Err, IfSome, IsTrue, MatchOption, None};
ghost use Rattle.std.specs.Str.{is_utf8};
ghost use Rattle.otlp_protobuf.specs.Checks.{nested, plain_checked, checked_from, checked};
ghost use Rattle.otlp_protobuf.specs.Schema.{kind_of};
ghost use Rattle.otlp_protobuf.specs.inner.Views.{Gives, payload_data};

use crate::fields::{Field, field_at};
use crate::known_runs::KnownRuns;
use crate::malformed::Malformed;
use crate::schema::{Kind, Message};
use crate::wire::Payload;

/// How many levels of messages may be in a message: protobuf's own readers allow 100 in all.
pub const MAX_LEVELS: u32 = 99;

/// Checks a message with all that is in it. What is known of its points' attributes is not checked
/// again.
pub fn checked(known: &mut KnownRuns, message: Message, bytes: &[u8]) -> Result<(), Malformed>
    ensures { Gives (λ done. done) result (checked message bytes.now) }
{
    checked_from(known, message, bytes, MAX_LEVELS, bytes.len())
}

/// The same with so many levels of messages below it at most, and so many fields.
#[tactic(auto, using(crate::proofs::CheckLemmas::check_step))]
fn checked_from(
    known: &mut KnownRuns,
    message: Message,
    bytes: &[u8],
    levels: u32,
    left: usize,
) -> Result<(), Malformed>
    ensures { Gives (λ done. done) result (checked_from left levels message bytes.now) }
{
    let mut rest = bytes;
    let mut left = left;
    while left > 0 {
        if rest.is_empty() {
            return Ok(());
        }
        left -= 1;
        let (field, after) = field_at(rest)?;
        let kind = message.kind_of(field.number);
        let Some((inner, content)) = nested(kind, field.payload) else {
            plain_checked(kind, field.payload)?;
            rest = after;
            continue;
        };
        if levels == 0 {
            return Err(Malformed::Deep);
        }
        rest = after;
        let Some((content, fewer)) = rest_of(known, inner, content, levels - 1, left) else {
            continue;
        };
        checked_from(known, inner, content, levels - 1, fewer)?;
        known.keep(inner, content, levels - 1, fewer);
    }
    ended(rest)
}

/// What is left to check of a message, if there is something, and how many fields it may have: of a
/// point what comes after its numbers, which change with each body, and known attributes.
#[inline(always)]
fn rest_of<'a>(
    known: &mut KnownRuns,
    message: Message,
    bytes: &'a [u8],
    levels: u32,
    left: usize,
) -> Option<(&'a [u8], usize)>
    ensures { MatchOption result (checked_from left levels message bytes.now ≡ Ok tt)
        (λ r. checked_from r.1 levels message r.0.now
        ≡ checked_from left levels message bytes.now) }
{
    match message {
        Message::NumberPoint => rest_of_point(known, Message::NumberPoint, bytes, levels, left),
        Message::HistogramPoint => {
            rest_of_point(known, Message::HistogramPoint, bytes, levels, left)
        }
        _ => Some((bytes, left)),
    }
}

/// The same of a point.
#[inline(always)]
fn rest_of_point<'a>(
    known: &mut KnownRuns,
    message: Message,
    bytes: &'a [u8],
    levels: u32,
    left: usize,
) -> Option<(&'a [u8], usize)>
    ensures { MatchOption result (checked_from left levels message bytes.now ≡ Ok tt)
        (λ r. checked_from r.1 levels message r.0.now
        ≡ checked_from left levels message bytes.now) }
{
    let (rest, left) = after_known(known, message, bytes, levels, left);
    if rest.is_empty() {
        None
    } else {
        Some((rest, left))
    }
}

/// What is left after the numbers at the front of a point, known attributes, and the numbers behind
/// them.
#[inline(always)]
fn after_known<'a>(
    known: &mut KnownRuns,
    message: Message,
    bytes: &'a [u8],
    levels: u32,
    left: usize,
) -> (&'a [u8], usize)
    ensures { checked_from result.1 levels message result.0.now
        ≡ checked_from left levels message bytes.now }
{
    let (rest, left) = after_numbers(message, bytes, levels, left);
    match known.after(message, rest, levels, left) {
        Some((rest, left)) => after_numbers(message, rest, levels, left),
        None => (rest, left),
    }
}

/// What is left after the numbers at the front of a point.
#[inline(always)]
fn after_numbers(message: Message, bytes: &[u8], levels: u32, left: usize) -> (&[u8], usize)
    ensures { checked_from result.1 levels message result.0.now
        ≡ checked_from left levels message bytes.now }
{
    let mut rest = bytes;
    let mut left = left;
    while left > 0 {
        let Some(after) = after_number(message, rest, levels, left) else {
            return (rest, left);
        };
        rest = after;
        left -= 1;
    }
    (rest, left)
}

/// The bytes after a field of numbers.
#[inline(always)]
#[tactic(auto, using(crate::proofs::CheckLemmas::check_step))]
fn after_number(message: Message, bytes: &[u8], levels: u32, left: usize) -> Option<&[u8]>
    requires { 0 < left }
    ensures { IfSome result (λ after. checked_from (left - 1) levels message after.now
        ≡ checked_from left levels message bytes.now) }
{
    if bytes.is_empty() {
        return None;
    }
    let Ok((field, after)) = field_at(bytes) else {
        return None;
    };
    if is_number(message, field) {
        Some(after)
    } else {
        None
    }
}

/// Whether a field is a number of its own wire type, or several.
#[inline(always)]
fn is_number(message: Message, field: Field<'_>) -> bool
    ensures none { IsTrue result
        → nested (kind_of message field.entry.number) (payload_data field.entry.payload) ≡ None }
    ensures passes { IsTrue result → plain_checked (kind_of message field.entry.number)
        (payload_data field.entry.payload) ≡ Ok tt }
{
    match (message.kind_of(field.number), field.payload) {
        (Kind::Fixed64, Payload::Fixed64(_)) => true,
        (Kind::Varint, Payload::Varint(_)) => true,
        (Kind::Packed, Payload::Bytes(content)) => content.len() % 8 == 0,
        _ => false,
    }
}

/// Nothing may be left.
fn ended(rest: &[u8]) -> Result<(), Malformed>
    ensures { Gives (λ done. done) result
        (if length rest.now == 0 then Ok tt else Err Malformed.Cut) }
{
    if rest.is_empty() {
        Ok(())
    } else {
        Err(Malformed::Cut)
    }
}

/// The message that a field has.
fn nested<'a>(kind: Kind, payload: Payload<'a>) -> Option<(Message, &'a [u8])>
    ensures { option_map (λ r. (r.0, r.1.now)) result ≡ nested kind (payload_data payload.entry) }
{
    match (kind, payload) {
        (Kind::Inner(message), Payload::Bytes(content)) => Some((message, content)),
        _ => None,
    }
}

/// Checks the wire type of a field that has no message.
fn plain_checked(kind: Kind, payload: Payload<'_>) -> Result<(), Malformed>
    ensures { Gives (λ done. done) result (plain_checked kind (payload_data payload.entry)) }
{
    match (kind, payload) {
        (Kind::Unknown, _) => Ok(()),
        (Kind::Old, _) => Err(Malformed::Old),
        (Kind::Varint, Payload::Varint(_)) => Ok(()),
        (Kind::Fixed64, Payload::Fixed64(_)) => Ok(()),
        (Kind::Packed, Payload::Fixed64(_)) => Ok(()),
        (Kind::Packed, Payload::Bytes(content)) => packed_checked(content),
        (Kind::Text, Payload::Bytes(content)) => text_checked(content),
        (Kind::Bytes, Payload::Bytes(_)) => Ok(()),
        _ => Err(Malformed::OtherType),
    }
}

fn packed_checked(content: &[u8]) -> Result<(), Malformed>
    ensures { Gives (λ done. done) result
        (if length content.now % 8 == 0 then Ok tt else Err Malformed.OtherType) }
{
    if content.len() % 8 == 0 {
        Ok(())
    } else {
        Err(Malformed::OtherType)
    }
}

fn text_checked(content: &[u8]) -> Result<(), Malformed>
    ensures { Gives (λ done. done) result
        (if is_utf8 content.now then Ok tt else Err Malformed.NotText) }
{
    if is_text(content) {
        Ok(())
    } else {
        Err(Malformed::NotText)
    }
}

/// Whether bytes are UTF-8.
fn is_text(bytes: &[u8]) -> bool
    ensures { result ≡ is_utf8 bytes.now }
{
    match std::str::from_utf8(bytes) {
        Ok(_) => true,
        Err(_) => false,
    }
}
