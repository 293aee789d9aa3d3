//! The wire format: numbers, keys, and what comes after a key
//! (<https://protobuf.dev/programming-guides/encoding/>).

ghost use Rattle.std.specs.Prelude.{◌≡◌, ◌≤◌, ◌^◌, if◌then◌else◌, Ok, Err};
ghost use Rattle.otlp_protobuf.specs.Wire.{varint, weighed, key, taken, plain};
ghost use Rattle.otlp_protobuf.specs.Wire.{fixed64, fixed32, counted, group_from, payload_at};
ghost use Rattle.otlp_protobuf.specs.inner.Views.{Gives, payload_data};

use crate::malformed::Malformed;

/// How many groups may be nested in a group: protobuf's own readers allow 100 in all.
pub const MAX_INNER: u32 = 99;

/// What a field has.
#[derive(Clone, Copy)]
pub enum Payload<'a> {
    Varint(u64),
    Fixed64(u64),
    Bytes(&'a [u8]),
    /// What is in it is passed over: no message of OTLP has had one.
    Group,
    Fixed32(u32),
}

/// A number of any length.
#[inline(never)]
#[tactic(auto, unfolding(crate::specs::Wire::varint_from))]
fn long_varint(bytes: &[u8]) -> Result<(u64, &[u8]), Malformed>
    ensures { Gives (λ r. (r.0, r.1.now)) result (varint bytes.now) }
{
    let mut rest = bytes;
    let mut unit: u64 = 1;
    let mut sum: u64 = 0;
    while let [byte, after @ ..] = rest {
        let Some(value) = weighed(*byte, unit, sum) else {
            return Err(Malformed::LongNumber);
        };
        if *byte < 128 {
            return Ok((value, after));
        }
        if unit > LAST_UNIT {
            return Err(Malformed::LongNumber);
        }
        rest = after;
        unit *= 128;
        sum = value;
    }
    Err(Malformed::Cut)
}

/// The last weight after which another group of bits may come.
const LAST_UNIT: u64 = 72_057_594_037_927_936;

/// A sum and the bits of a byte at this weight, unless they pass 64 bits.
fn weighed(byte: u8, unit: u64, sum: u64) -> Option<u64>
    ensures { result ≡ weighed byte unit sum }
{
    u64::from(byte % 128).checked_mul(unit)?.checked_add(sum)
}

/// A number of at most 64 bits, and the bytes after it. Most have one byte, or two.
#[inline(always)]
#[tactic(auto, unfolding(crate::specs::Wire::varint_from))]
pub fn varint(bytes: &[u8]) -> Result<(u64, &[u8]), Malformed>
    ensures { Gives (λ r. (r.0, r.1.now)) result (varint bytes.now) }
{
    if let [byte, rest @ ..] = bytes
        && *byte < 128
        && let Some(number) = weighed(*byte, 1, 0)
    {
        return Ok((number, rest));
    }
    if let [byte, next, rest @ ..] = bytes
        && *byte >= 128
        && *next < 128
        && let Some(low) = weighed(*byte, 1, 0)
        && let Some(number) = weighed(*next, 128, low)
    {
        return Ok((number, rest));
    }
    long_varint(bytes)
}

/// The key of a field, its number and its wire type, and the bytes after it.
#[inline(always)]
#[tactic(auto, unfolding(crate::specs::Wire::key))]
pub fn key(bytes: &[u8]) -> Result<(u32, &[u8]), Malformed>
    ensures { Gives (λ r. (r.0, r.1.now)) result (key bytes.now) }
{
    let (key, rest) = varint(bytes)?;
    if key > u32::MAX as u64 {
        return Err(Malformed::LongNumber);
    }
    if key < 8 {
        return Err(Malformed::NoNumber);
    }
    Ok((key as u32, rest))
}

/// So many bytes, and those after them.
#[inline(always)]
pub fn taken(count: u64, bytes: &[u8]) -> Result<(&[u8], &[u8]), Malformed>
    ensures { Gives (λ r. (r.0.now, r.1.now)) result (taken count bytes.now) }
{
    if count > bytes.len() as u64 {
        return Err(Malformed::Cut);
    }
    Ok(bytes.split_at(count as usize))
}

/// A number of 8 bytes, and the bytes after it.
#[inline(always)]
pub fn fixed64(bytes: &[u8]) -> Result<(u64, &[u8]), Malformed>
    ensures { Gives (λ r. (r.0, r.1.now)) result (fixed64 bytes.now) }
{
    if bytes.len() < 8 {
        return Err(Malformed::Cut);
    }
    let (front, rest) = bytes.split_at(8);
    let number = u64::from_le_bytes([
        front[0], front[1], front[2], front[3], front[4], front[5], front[6], front[7],
    ]);
    Ok((number, rest))
}

/// A number of 4 bytes, and the bytes after it.
pub fn fixed32(bytes: &[u8]) -> Result<(u32, &[u8]), Malformed>
    ensures { Gives (λ r. (r.0, r.1.now)) result (fixed32 bytes.now) }
{
    if bytes.len() < 4 {
        return Err(Malformed::Cut);
    }
    let (front, rest) = bytes.split_at(4);
    Ok((
        u32::from_le_bytes([front[0], front[1], front[2], front[3]]),
        rest,
    ))
}

/// The bytes of a field that says how many they are, and the bytes after them.
#[inline(always)]
#[tactic(auto, unfolding(crate::specs::Wire::counted))]
pub fn counted(bytes: &[u8]) -> Result<(&[u8], &[u8]), Malformed>
    ensures { Gives (λ r. (r.0.now, r.1.now)) result (counted bytes.now) }
{
    let (count, rest) = varint(bytes)?;
    taken(count, rest)
}

/// What comes after a key that begins and ends no group, and the bytes after it.
#[inline(always)]
#[tactic(auto, unfolding(crate::specs::Wire::plain))]
fn plain(key: u32, bytes: &[u8]) -> Result<(Payload<'_>, &[u8]), Malformed>
    ensures { Gives (λ r. (payload_data r.0, r.1.now)) result (plain key bytes.now) }
{
    match key % 8 {
        0 => {
            let (number, rest) = varint(bytes)?;
            Ok((Payload::Varint(number), rest))
        }
        1 => {
            let (number, rest) = fixed64(bytes)?;
            Ok((Payload::Fixed64(number), rest))
        }
        2 => {
            let (content, rest) = counted(bytes)?;
            Ok((Payload::Bytes(content), rest))
        }
        5 => {
            let (number, rest) = fixed32(bytes)?;
            Ok((Payload::Fixed32(number), rest))
        }
        _ => Err(Malformed::WireType),
    }
}

/// Passes over what is in a group of this number, at most `left` fields and groups, and over its
/// end: the bytes after it. So many more groups may be nested in it.
#[inline(never)]
#[tactic(auto, using(crate::proofs::WireLemmas::group_step))]
fn group(bytes: &[u8], number: u32, levels: u32, left: usize) -> Result<&[u8], Malformed>
    ensures { Gives (λ r. r.now) result (group_from left levels number bytes.now) }
{
    let mut rest = bytes;
    let mut left = left;
    while left > 0 {
        left -= 1;
        let (key, after) = key(rest)?;
        if key % 8 == END_GROUP {
            return ended(key / 8 == number, after);
        }
        if key % 8 != START_GROUP {
            let (_, after) = plain(key, after)?;
            rest = after;
            continue;
        }
        if levels == 0 {
            return Err(Malformed::Deep);
        }
        rest = group(after, key / 8, levels - 1, left)?;
    }
    Err(Malformed::Cut)
}

/// The wire types that begin and end a group.
const START_GROUP: u32 = 3;

const END_GROUP: u32 = 4;

/// The bytes after the end of a group, if it is the end of its own.
fn ended(is_own: bool, after: &[u8]) -> Result<&[u8], Malformed>
    ensures { Gives (λ r. r.now) result (if is_own then Ok after.now else Err Malformed.WireType) }
{
    if is_own {
        Ok(after)
    } else {
        Err(Malformed::WireType)
    }
}

/// What comes after a key, and the bytes after it.
#[inline(always)]
#[tactic(auto, unfolding(crate::specs::Wire::payload_at))]
pub fn payload_at(key: u32, bytes: &[u8]) -> Result<(Payload<'_>, &[u8]), Malformed>
    ensures { Gives (λ r. (payload_data r.0, r.1.now)) result (payload_at key bytes.now) }
{
    if key % 8 == START_GROUP {
        let rest = group(bytes, key / 8, MAX_INNER, bytes.len())?;
        Ok((Payload::Group, rest))
    } else {
        plain(key, bytes)
    }
}
