//! Writes a JSON value as text.

ghost use Rattle.std.specs.Prelude.{◌≡◌, ◌≤◌, false, IfOk};
ghost use Rattle.serde_json.specs.Data.{depth};
ghost use Rattle.serde_json.specs.Read.{max_depth};
ghost use Rattle.serde_json.specs.View.{view};
ghost use Rattle.serde_json.specs.Written.{compact_text, has_float};
ghost use Rattle.out_texts.specs.inner.Back.{IsTextOf};

use serde_json::Value;
use std::alloc::{AllocError, Global};

/// The compact text of a value without floats. If the value is nested no deeper than `serde_json`
/// reads, it can be read back from the text.
pub(crate) fn text_of(alloc: Global, value: Value) -> Result<Vec<u8>, AllocError>
    requires { has_float (view value) ≡ false }
    ensures text { IfOk result (λ text. text.items ≡ compact_text (view value)) }
    ensures back { depth (view value) ≤ max_depth
        → IfOk result (λ text. IsTextOf (view value) text.items) }
{
    value.to_vec(alloc)
}
