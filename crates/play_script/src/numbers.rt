//! Reads the numbers of a script.

ghost use Rattle.std.specs.Prelude.{◌≡◌};
ghost use Rattle.play_script.specs.Numbers as spec;

use decimals::number_up_to;

/// The greatest number.
pub const MAX_NUMBER: u64 = u64::MAX;

/// The greatest status of an answer.
const MAX_STATUS: u64 = 65_535;

/// The greatest value of a point.
pub const MAX_ABOVE: u64 = 9_223_372_036_854_775_807;

/// The greatest size of a value below zero.
pub const MAX_BELOW: u64 = 9_223_372_036_854_775_808;

/// The number below 2^64 in decimal digits. Leading zeros are allowed.
pub fn number(digits: &[u8]) -> Option<u64>
    ensures { result ≡ spec.number digits.now }
{
    number_up_to(digits, MAX_NUMBER)
}

/// The status below 2^16 in decimal digits. Leading zeros are allowed.
pub fn status(digits: &[u8]) -> Option<u16>
    ensures { result ≡ spec.status digits.now }
{
    let code = number_up_to(digits, MAX_STATUS)?;
    Some(code as u16)
}

/// The signed number of 64 bits in decimal digits, with or without a `-`.
pub fn value(text: &[u8]) -> Option<i64>
    ensures { result ≡ spec.value text.now }
{
    match text.split_first() {
        None => None,
        Some((b'-', digits)) => {
            let size = number_up_to(digits, MAX_BELOW)?;
            Some((-i128::from(size)) as i64)
        }
        Some(_) => {
            let size = number_up_to(text, MAX_ABOVE)?;
            Some(size as i64)
        }
    }
}
