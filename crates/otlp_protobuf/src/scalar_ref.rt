//! Attributes and single values of them, as references: no text is copied.

ghost use Rattle.std.specs.Prelude.{◌≡◌, IfOk};
ghost use Rattle.otlp_protobuf.specs.inner.RefViews.{scalar_data};

use series_id::{Scalar, Text};
use std::alloc::{AllocError, Global};

/// A single value of an attribute.
#[derive(Clone, Copy)]
pub enum ScalarRef<'v> {
    Empty,
    Truth(bool),
    Int(i64),
    Text(&'v str),
}

impl<'v> ScalarRef<'v> {
    /// A scalar with a copy of the text.
    pub fn to_scalar(self, alloc: Global) -> Result<Scalar, AllocError>
        ensures { IfOk result (λ scalar. scalar ≡ scalar_data self.entry) }
    {
        match self {
            ScalarRef::Empty => Ok(Scalar::Empty),
            ScalarRef::Truth(truth) => Ok(Scalar::Truth(truth)),
            ScalarRef::Int(number) => Ok(Scalar::Int(number)),
            ScalarRef::Text(text) => {
                let text = String::from_str(alloc, text)?;
                Ok(Scalar::Text(Text::new(text)))
            }
        }
    }
}
