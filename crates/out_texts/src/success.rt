//! Writes the body of a success response to a sender.

ghost use Rattle.std.specs.Prelude.{◌≡◌, IfOk};
ghost use Rattle.serde_json.specs.View.{view};
ghost use Rattle.out_texts.specs.Answers as spec;

use crate::json_text::text_of;
use crate::objects::Object;
use serde_json::Value;
use std::alloc::{AllocError, Global};

/// The body of a success response, as JSON.
#[tactic(auto, unfolding(crate::specs::Answers::success_value))]
fn success_value(alloc: Global, foreign: u64) -> Result<Value, AllocError>
    ensures { IfOk result (λ v. view v ≡ spec.success_value foreign) }
{
    if foreign == 0 {
        return Object::new(alloc).finish();
    }
    let partial = Object::new(alloc)
        .text("errorMessage", "points outside the profile")
        .decimal("rejectedDataPoints", foreign);
    Object::new(alloc)
        .object("partialSuccess", partial)
        .finish()
}

/// The body of the response to an accepted request. `foreign` is the number of its points outside
/// the profile, which were left out (OTLP/HTTP, "Full Success" and "Partial Success").
pub fn success_text(alloc: Global, foreign: u64) -> Result<Vec<u8>, AllocError>
    ensures { IfOk result (λ text. text.items ≡ spec.success_text foreign) }
{
    let value = success_value(alloc, foreign)?;
    text_of(alloc, value)
}
