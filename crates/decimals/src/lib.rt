//! Reads whole numbers that are written as decimal digits. Scripts, requests, header fields and
//! the command line all read their numbers here.
#![tactic(auto)]

ghost use Rattle.std.specs.Prelude.{◌≡◌, ◌↔◌, ◌+◌, ℕ, List, Some, true, min, option_map};
ghost use Rattle.std.specs.Str.{all_ascii_digits};
ghost use Rattle.std.specs.Str.Parse.{digits_value};
ghost use Rattle.decimals.specs.Numbers as spec;

/// The number that the decimal digits write, if it is at most `most`. At least one digit; leading
/// zeros are allowed, a sign is not.
pub fn number_up_to(digits: &[u8], most: u64) -> Option<u64>
    ensures { result ≡ spec.number_up_to most digits.now }
{
    if digits.is_empty() {
        return None;
    }
    let mut value = 0u64;
    for digit in digits {
        if !digit.is_ascii_digit() {
            return None;
        }
        value = value
            .checked_mul(10)?
            .checked_add(u64::from(*digit - b'0'))?;
    }
    if value > most {
        return None;
    }
    Some(value)
}

/// The number that the decimal digits write, or `most + 1` if it is greater than `most`. `None` if
/// there is no digit, or anything but digits.
pub fn capped(digits: &[u8], most: u64) -> Option<u128>
    ensures { result ≡ option_map (λ n. min n (most + 1)) (spec.number digits.now) }
{
    if digits.is_empty() || !are_digits(digits) {
        return None;
    }
    Some(capped_value(digits, most))
}

fn are_digits(text: &[u8]) -> bool
    ensures { result ≡ all_ascii_digits text.now }
{
    for byte in text {
        if !byte.is_ascii_digit() {
            return false;
        }
    }
    true
}

/// The value of the decimal digits, or `most + 1` if it is greater than `most`.
fn capped_value(digits: &[u8], most: u64) -> u128
    requires { all_ascii_digits digits.now ≡ true }
    ensures { result ≡ min (digits_value 10 digits.now) (most + 1) }
{
    let cap = u128::from(most) + 1;
    let mut value = 0u128;
    for digit in digits {
        value = (value * 10 + u128::from(*digit - b'0')).min(cap);
    }
    value
}

/// The law of `number_up_to`: it returns a number exactly where the digits are a numeral of that
/// number and it is within the limit. Does nothing when it runs.
pub fn numerals_are_read()
    ensures { (most : ℕ) (digits : List ℕ) (n : ℕ) → (spec.number_up_to most digits ≡ Some n)
        ↔ spec.TellsUpTo most digits n }
{}
