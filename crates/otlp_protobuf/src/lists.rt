//! Reads lists of messages, each element in the same way.

ghost use Rattle.std.specs.Prelude.{◌≡◌, ℕ, List, Option, IfOk, map, option_map};
ghost use Rattle.serde_json.specs.Data.{Data};
ghost use Rattle.otlp_read.specs.Lists.{all_of};
ghost use Rattle.otlp_protobuf.specs.Wire.{fields};
ghost use Rattle.otlp_protobuf.specs.Fields.{contents};

use crate::fields::Fields;
use crate::scan::next_content;
use std::alloc::{AllocError, Global};

/// A type as which the elements of a list are read.
pub trait Element: Drop {
    /// An element as JSON.
    ghost shows: { List ℕ → Data };

    /// What it is read as, if it is such an element.
    ghost reads: { Data → Option Self };

    /// Reads an element; `None` if it is none.
    fn read(alloc: Global, bytes: &[u8]) -> Result<Option<Self>, AllocError>
        ensures { IfOk result (λ o. o ≡ reads (shows bytes.now)) };
}

/// The elements of the list of this number, if each is one.
pub fn all_of<T: Element>(
    alloc: Global,
    bytes: &[u8],
    number: u32,
) -> Result<Option<Vec<T>>, AllocError>
    ensures { IfOk result (λ o. option_map (λ v. v.items) o
        ≡ all_of T.reads (map T.shows (contents number (fields bytes.now)))) }
{
    let mut found = Vec::new(alloc);
    let mut rest = Fields::of(bytes);
    while let Some(content) = next_content(&mut rest, number) {
        let Some(element) = T::read(alloc, content)? else {
            return Ok(None);
        };
        found.push(element)?;
    }
    Ok(Some(found))
}
