//! Appends texts of any bytes, escaped.

ghost use Rattle.std.specs.Prelude.{◌≡◌, ◌++◌, ◌<◌, OnOk};
ghost use Rattle.out_texts.specs.Escaped as spec;

use std::alloc::AllocError;

/// A hexadecimal digit, in upper case.
fn hex_digit(digit: u8) -> u8
    requires { digit < 16 }
    ensures { result ≡ spec.hex_digit digit }
{
    if digit < 10 {
        b'0' + digit
    } else {
        b'A' - 10 + digit
    }
}

/// Whether a byte is written as it is: a letter, a digit, or one of `-./_`.
fn is_plain(byte: u8) -> bool
    ensures { result ≡ spec.is_plain byte }
{
    matches!(byte, b'0'..=b'9' | b'A'..=b'Z' | b'a'..=b'z' | b'-' | b'.' | b'/' | b'_')
}

/// Appends a byte as it is, if it is plain, else as `%` and two hexadecimal digits.
#[tactic(auto, unfolding(crate::specs::Escaped::escaped_byte))]
fn put_byte(out: &mut Vec<u8>, byte: u8) -> Result<(), AllocError>
    ensures { OnOk result (out.new.items ≡ out.old.items ++ spec.escaped_byte byte) }
{
    if is_plain(byte) {
        out.push(byte)?;
    } else {
        out.extend_from_slice(&[b'%', hex_digit(byte / 16), hex_digit(byte % 16)])?;
    }
    Ok(())
}

/// Appends a text, each byte that is not plain as `%` and two hexadecimal digits.
pub(crate) fn put_escaped(out: &mut Vec<u8>, text: &[u8]) -> Result<(), AllocError>
    ensures { OnOk result (out.new.items ≡ out.old.items ++ spec.escaped text.now) }
{
    for byte in text {
        put_byte(out, *byte)?;
    }
    Ok(())
}
