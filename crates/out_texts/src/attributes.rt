//! Builds attributes as JSON (`KeyValue` and `AnyValue` of
//! `opentelemetry/proto/common/v1/common.proto`).

ghost use Rattle.std.specs.Prelude.{◌≡◌, IfOk};
ghost use Rattle.serde_json.specs.View.{view};
ghost use Rattle.out_texts.specs.Attributes as spec;

use crate::objects::Object;
use crate::values::{HasValue, values_of};
use serde_json::{Value, json};
use series_id::{AttrSet, AttrValue, Attribute, Scalar};
use std::alloc::{AllocError, Global};

impl HasValue for Scalar {
    ghost value_of = { spec.scalar_value };

    /// A single value, as an `AnyValue`.
    #[tactic(auto, unfolding(crate::specs::Attributes::scalar_value))]
    fn value(&self, alloc: Global) -> Result<Value, AllocError> {
        let object = Object::new(alloc);
        match self {
            Scalar::Empty => object.finish(),
            Scalar::Truth(truth) => object.value("boolValue", Value::from(*truth)).finish(),
            Scalar::Int(number) => object.signed("intValue", *number).finish(),
            Scalar::Text(text) => object.text("stringValue", text.as_str()).finish(),
        }
    }
}

/// A single value or a list, as an `AnyValue`.
#[tactic(auto, unfolding(crate::specs::Attributes::attr_value))]
fn attr_value(alloc: Global, value: &AttrValue) -> Result<Value, AllocError>
    ensures { IfOk result (λ v. view v ≡ spec.attr_value value.now) }
{
    match value {
        AttrValue::One(scalar) => scalar.value(alloc),
        AttrValue::Many(scalars) => {
            let values = values_of(alloc, scalars.as_slice())?;
            json!(in alloc; {"arrayValue": {"values": values}})
        }
    }
}

impl HasValue for Attribute {
    ghost value_of = { spec.attribute_value };

    /// An attribute, as a `KeyValue`.
    #[tactic(auto, unfolding(crate::specs::Attributes::attribute_value))]
    fn value(&self, alloc: Global) -> Result<Value, AllocError> {
        let value = attr_value(alloc, &self.value)?;
        Object::new(alloc)
            .text("key", self.key.as_str())
            .value("value", value)
            .finish()
    }
}

/// The attributes of a set, an array in key order.
#[tactic(auto, unfolding(crate::specs::Attributes::attributes_value))]
pub(crate) fn attributes_value(alloc: Global, set: &AttrSet) -> Result<Value, AllocError>
    ensures { IfOk result (λ v. view v ≡ spec.attributes_value set.now) }
{
    let values = values_of(alloc, set.pairs())?;
    json!(in alloc; values)
}
