//! Appends numbers, and lists of texts with a mark in between.

ghost use Rattle.std.specs.Prelude.{◌≡◌, ◌++◌, ◌∷◌, ℕ, List, decimal, OnOk, flat_map};
ghost use Rattle.std.specs.Fmt.{signed_decimal};
ghost use Rattle.out_texts.specs.Rows.{joined, row_text};

use itoa::{Buffer, Integer};
use std::alloc::AllocError;

/// What has a text, and can be an element of a list.
pub(crate) trait HasText {
    /// Its text.
    ghost text_of: { Self → List ℕ };

    /// Appends its text.
    fn put(&self, out: &mut Vec<u8>) -> Result<(), AllocError>
        ensures { OnOk result (out.new.items ≡ out.old.items ++ text_of self.now) };
}

/// Appends texts, with the mark before each.
pub(crate) fn put_more<T: HasText>(
    out: &mut Vec<u8>,
    mark: u8,
    more: &[T],
) -> Result<(), AllocError>
    ensures { OnOk result (out.new.items ≡ out.old.items
        ++ flat_map (λ x. mark ∷ T.text_of x) more.now) }
{
    for item in more {
        out.push(mark)?;
        item.put(out)?;
    }
    Ok(())
}

/// Appends texts, with the mark in between.
pub(crate) fn put_joined<T: HasText>(
    out: &mut Vec<u8>,
    mark: u8,
    items: &[T],
) -> Result<(), AllocError>
    ensures { OnOk result (out.new.items ≡ out.old.items ++ joined mark T.text_of items.now) }
{
    let Some((first, more)) = items.split_first() else {
        return Ok(());
    };
    first.put(out)?;
    put_more(out, mark, more)
}

/// Appends a number in decimal, with `-` before it if it is negative.
fn put_integer<I: Integer>(out: &mut Vec<u8>, number: I) -> Result<(), AllocError>
    ensures { OnOk result (out.new.items ≡ out.old.items ++ I.text number) }
{
    let mut buffer = Buffer::new();
    out.extend_from_slice(buffer.format(number).as_bytes())
}

impl HasText for u64 {
    ghost text_of = { decimal };

    fn put(&self, out: &mut Vec<u8>) -> Result<(), AllocError> {
        put_integer(out, *self)
    }
}

impl HasText for u128 {
    ghost text_of = { decimal };

    fn put(&self, out: &mut Vec<u8>) -> Result<(), AllocError> {
        put_integer(out, *self)
    }
}

impl HasText for i64 {
    ghost text_of = { signed_decimal };

    fn put(&self, out: &mut Vec<u8>) -> Result<(), AllocError> {
        put_integer(out, *self)
    }
}

/// Appends a number in decimal.
pub fn put_number(out: &mut Vec<u8>, number: u64) -> Result<(), AllocError>
    ensures { OnOk result (out.new.items ≡ out.old.items ++ decimal number) }
{
    put_integer(out, number)
}

/// Appends the words in decimal, with commas in between.
#[tactic(auto, unfolding(crate::specs::Rows::row_text))]
pub fn put_row(out: &mut Vec<u8>, words: &[u64]) -> Result<(), AllocError>
    ensures { OnOk result (out.new.items ≡ out.old.items ++ row_text words.now) }
{
    put_joined(out, b',', words)
}
