//! Writes the body of a refusal.

ghost use Rattle.std.specs.Prelude.{◌≡◌, codes, IfOk};
ghost use Rattle.serde_json.specs.View.{view};
ghost use Rattle.out_texts.specs.Answers as spec;

use crate::json_text::text_of;
use serde_json::{Value, json};
use std::alloc::{AllocError, Global};

/// The body for being out of memory. It is a constant, since nothing can be allocated then.
const NO_MEMORY: &str = r#"{"message":"no memory"}"#;

/// The body of a refusal, as JSON.
#[tactic(auto, unfolding(crate::specs::Answers::status_value))]
fn status_value(alloc: Global, message: &str) -> Result<Value, AllocError>
    ensures { IfOk result (λ v. view v ≡ spec.status_value message.now) }
{
    json!(in alloc; {"message": message})
}

/// The body of a refusal, which gives the reason in words (`google.rpc.Status`, `message`).
pub fn status_text(alloc: Global, message: &str) -> Result<Vec<u8>, AllocError>
    ensures { IfOk result (λ text. text.items ≡ spec.status_text message.now) }
{
    let value = status_value(alloc, message)?;
    text_of(alloc, value)
}

/// The body of the refusal for being out of memory: `status_text` of `no memory`. Allocates
/// nothing.
pub fn no_memory_text() -> &'static [u8]
    ensures { result.now ≡ spec.status_text (codes "no memory") }
{
    NO_MEMORY.as_bytes()
}
