//! A list with nothing in it yet.
ghost use Rattle.std.specs.Prelude.{◌≡◌, None, length, IfOk};
ghost use Rattle.std.specs.List.{All};

use std::alloc::{AllocError, Global};

/// So many times nothing.
pub fn none_of<T: Drop>(alloc: Global, count: usize) -> Result<Vec<Option<T>>, AllocError>
    ensures length { IfOk result (λ list. length list.items ≡ count) }
    ensures none { IfOk result (λ list. All (λ o. o ≡ None) list.items) }
{
    let mut list = Vec::with_capacity(alloc, count)?;
    for _ in 0..count {
        list.push(None)?;
    }
    Ok(list)
}
