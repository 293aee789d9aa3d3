//! Writes the body of the response to a flush order.

ghost use Rattle.std.specs.Prelude.{◌≡◌, codes, IfOk};
ghost use Rattle.serde_json.specs.View.{view};
ghost use Rattle.out_texts.specs.Answers as spec;

use crate::json_text::text_of;
use crate::objects::Object;
use back_answers::Act;
use serde_json::Value;
use std::alloc::{AllocError, Global};

/// The word for what was done with a flush.
fn act_name(act: Act) -> &'static str
    ensures { result.now ≡ spec.act_name act }
{
    match act {
        Act::Settle => "settled",
        Act::DropFlush => "dropped",
        Act::GiveBack => "returned",
    }
}

/// The body of the response to a flush order, as JSON.
#[tactic(auto, unfolding(crate::specs::Answers::turn_value))]
fn turn_value(
    alloc: Global,
    flush: u64,
    points: u64,
    act: Act,
    after: Option<u64>,
) -> Result<Value, AllocError>
    ensures { IfOk result (λ v. view v ≡ spec.turn_value flush points act after) }
{
    let turn = Object::new(alloc)
        .text("act", act_name(act))
        .decimal("flush", flush)
        .decimal("points", points);
    match after {
        None => turn.finish(),
        Some(seconds) => turn.decimal("retryAfter", seconds).finish(),
    }
}

/// The body of the response to a flush order: what was done with the flush of this number, how many
/// points it had, and the seconds to wait before the next order, if the back end named them.
pub fn turn_text(
    alloc: Global,
    flush: u64,
    points: u64,
    act: Act,
    after: Option<u64>,
) -> Result<Vec<u8>, AllocError>
    ensures { IfOk result (λ text. text.items ≡ spec.turn_text flush points act after) }
{
    let value = turn_value(alloc, flush, points, act, after)?;
    text_of(alloc, value)
}
