//! Finds fields of a message by their numbers, in its bytes.

ghost use Rattle.std.specs.Prelude.{◌≡◌, ◌∷◌, ◌++◌, [], ℕ, List, IfOk, MatchOption, None, Some};
ghost use Rattle.std.specs.Prelude.{option_and_then, option_map};
ghost use Rattle.otlp_protobuf.specs.Wire.{Field as FieldData, fields};
ghost use Rattle.otlp_protobuf.specs.Fields.{gathered, newer, last, bits, content, if_text};
ghost use Rattle.otlp_protobuf.specs.Fields.{text_of, text_at, content_at, contents, so_far};
ghost use Rattle.otlp_protobuf.specs.Fields.{whole_at, with_first};
ghost use Rattle.otlp_protobuf.specs.inner.Views.{payload_data, field_data, fields_data};
ghost use Rattle.otlp_protobuf.specs.inner.Views.{whole_data};
ghost use Rattle.otlp_protobuf.specs.inner.Parts.{part_with};

use crate::fields::{Field, Fields};
use crate::wire::Payload;
use std::alloc::{AllocError, Global};

/// What a message says, gathered field by field.
pub trait Gathered: Copy {
    /// What there is after a field.
    ghost takes: { Self → FieldData → Self };

    /// Takes a field.
    fn take(self, field: Field<'_>) -> Self
        ensures { result ≡ takes self (field_data field.entry) };
}

/// The last value of this number.
pub fn last<'a>(bytes: &'a [u8], number: u32) -> Option<Payload<'a>>
    ensures { option_map payload_data result ≡ last number bytes.now }
{
    last_of(Fields::of(bytes), number)
}

/// The last value of this number in fields.
pub fn last_of<'a>(fields: Fields<'a>, number: u32) -> Option<Payload<'a>>
    ensures { option_map payload_data result
        ≡ gathered (newer number) None (fields_data fields.entry) }
{
    let mut found = None;
    let mut rest = fields;
    while let Some(field) = rest.next() {
        found = newer(number, found, field);
    }
    found
}

/// The last values of two numbers.
pub fn last_two<'a>(
    bytes: &'a [u8],
    one: u32,
    other: u32,
) -> (Option<Payload<'a>>, Option<Payload<'a>>)
    ensures one { option_map payload_data result.0 ≡ last one bytes.now }
    ensures other { option_map payload_data result.1 ≡ last other bytes.now }
{
    last_two_of(Fields::of(bytes), one, other)
}

/// The last values of two numbers in fields.
pub fn last_two_of<'a>(
    fields: Fields<'a>,
    one: u32,
    other: u32,
) -> (Option<Payload<'a>>, Option<Payload<'a>>)
    ensures one { option_map payload_data result.0
        ≡ gathered (newer one) None (fields_data fields.entry) }
    ensures other { option_map payload_data result.1
        ≡ gathered (newer other) None (fields_data fields.entry) }
{
    let mut first = None;
    let mut second = None;
    let mut rest = fields;
    while let Some(field) = rest.next() {
        first = newer(one, first, field);
        second = newer(other, second, field);
    }
    (first, second)
}

/// The value of a field of this number, if it is one, else what was found before.
fn newer<'a>(number: u32, found: Option<Payload<'a>>, field: Field<'a>) -> Option<Payload<'a>>
    ensures { option_map payload_data result
        ≡ newer number (option_map payload_data found.entry) (field_data field.entry) }
{
    if field.number == number {
        Some(field.payload)
    } else {
        found
    }
}

/// The bits of a number.
pub fn bits(payload: Payload<'_>) -> u64
    ensures { result ≡ bits (payload_data payload.entry) }
{
    match payload {
        Payload::Varint(bits) => bits,
        Payload::Fixed64(bits) => bits,
        _ => 0,
    }
}

/// The bytes of a text, a message or of packed numbers.
pub fn content(payload: Payload<'_>) -> Option<&[u8]>
    ensures { option_map (λ b. b.now) result ≡ content (payload_data payload.entry) }
{
    match payload {
        Payload::Bytes(content) => Some(content),
        _ => None,
    }
}

/// The same, none if there are no such bytes.
pub fn content_or_none(payload: Payload<'_>) -> &[u8]
    ensures { result.now ≡ so_far (content (payload_data payload.entry)) }
{
    match content(payload) {
        Some(content) => content,
        None => &[],
    }
}

/// A text, if the bytes are UTF-8.
fn if_text(bytes: &[u8]) -> Option<&str>
    ensures { option_map (λ s. s.now) result ≡ if_text bytes.now }
{
    match std::str::from_utf8(bytes) {
        Ok(text) => Some(text),
        Err(_) => None,
    }
}

/// A text.
pub fn text_of(payload: Payload<'_>) -> Option<&str>
    ensures { option_map (λ s. s.now) result ≡ text_of (payload_data payload.entry) }
{
    if_text(content(payload)?)
}

/// A text, if it is there.
pub fn text_if(found: Option<Payload<'_>>) -> Option<&str>
    ensures { option_map (λ s. s.now) result
        ≡ option_and_then text_of (option_map payload_data found.entry) }
{
    text_of(found?)
}

/// The text of this number.
pub fn text_at(bytes: &[u8], number: u32) -> Option<&str>
    ensures { option_map (λ s. s.now) result ≡ text_at number bytes.now }
{
    text_of(last(bytes, number)?)
}

/// The bytes of a field, if it has this number.
#[inline(always)]
pub fn content_at<'a>(number: u32, field: Field<'a>) -> Option<&'a [u8]>
    ensures { option_map (λ b. b.now) result ≡ content_at number (field_data field.entry) }
{
    if field.number == number {
        content(field.payload)
    } else {
        None
    }
}

/// The bytes of the next field of this number. Others are passed over.
#[inline(always)]
#[tactic(auto, unfolding(crate::specs::Fields::contents))]
pub fn next_content<'a>(rest: &mut Fields<'a>, number: u32) -> Option<&'a [u8]>
    ensures { MatchOption result (contents number (fields_data rest.old) ≡ [])
        (λ b. contents number (fields_data rest.old)
        ≡ b.now ∷ contents number (fields_data rest.new)) }
{
    while let Some(field) = rest.next() {
        if let Some(content) = content_at(number, field) {
            return Some(content);
        }
    }
    None
}

/// A message, where it is in the bytes around it, or, if it comes in several parts, a copy of them
/// one after the other.
#[derive(Drop)]
pub enum Whole<'a> {
    Absent,
    Slice(&'a [u8]),
    Joined(Vec<u8>),
}

impl<'a> Whole<'a> {
    /// Its bytes.
    pub fn bytes(&self) -> Option<&[u8]>
        ensures { option_map (λ b. b.now) result ≡ whole_data self.now }
    {
        match self {
            Whole::Absent => None,
            Whole::Slice(bytes) => Some(bytes),
            Whole::Joined(bytes) => Some(bytes.as_slice()),
        }
    }

    /// Its bytes, none if it is absent.
    pub fn bytes_or_none(&self) -> &[u8]
        ensures { result.now ≡ so_far (whole_data self.now) }
    {
        match self.bytes() {
            Some(bytes) => bytes,
            None => &[],
        }
    }

    /// The message with one more part.
    pub fn with(self, alloc: Global, part: &'a [u8]) -> Result<Whole<'a>, AllocError>
        ensures { IfOk result (λ w. whole_data w
            ≡ Some (so_far (whole_data self.entry) ++ part.now)) }
    {
        match self {
            Whole::Absent => Ok(Whole::Slice(part)),
            Whole::Slice(first) => {
                let mut both = Vec::from_slice(alloc, first)?;
                both.extend_from_slice(part)?;
                Ok(Whole::Joined(both))
            }
            Whole::Joined(mut all) => {
                all.extend_from_slice(part)?;
                Ok(Whole::Joined(all))
            }
        }
    }
}

impl<'a> Whole<'a> {
    /// The message with a field, if it has this number.
    pub fn with_field(
        self,
        alloc: Global,
        number: u32,
        field: Field<'a>,
    ) -> Result<Whole<'a>, AllocError>
        ensures { IfOk result (λ w. whole_data w
            ≡ part_with number (whole_data self.entry) (field_data field.entry)) }
    {
        match content_at(number, field) {
            Some(part) => self.with(alloc, part),
            None => Ok(self),
        }
    }
}

/// The message of this number.
pub fn whole_at<'a>(alloc: Global, bytes: &'a [u8], number: u32) -> Result<Whole<'a>, AllocError>
    ensures { IfOk result (λ w. whole_data w ≡ whole_at number bytes.now) }
{
    let mut found = Whole::Absent;
    let mut rest = Fields::of(bytes);
    while let Some(part) = next_content(&mut rest, number) {
        found = found.with(alloc, part)?;
    }
    Ok(found)
}
