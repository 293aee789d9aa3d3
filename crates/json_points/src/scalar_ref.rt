//! Attributes and single values of them, as references: no text is copied.

ghost use Rattle.std.specs.Prelude.{◌≡◌, IfOk, IsTrue};
ghost use Rattle.json_points.specs.inner.RefViews.{scalar_data};

use series_id::{Scalar, Text};
use std::alloc::{AllocError, Global};

/// An attribute of a document that has a single value.
#[derive(Clone, Copy)]
pub struct PairRef<'v> {
    pub key: &'v str,
    pub value: ScalarRef<'v>,
}

/// A single value of an attribute, of a document or of a set.
#[derive(Clone, Copy)]
pub enum ScalarRef<'v> {
    Empty,
    Truth(bool),
    Int(i64),
    Text(&'v str),
}

/// What stands where no attribute was put yet.
pub const NO_PAIR: PairRef<'static> = PairRef {
    key: "",
    value: ScalarRef::Empty,
};

impl<'v> ScalarRef<'v> {
    /// A reference to a scalar.
    pub fn of(scalar: &'v Scalar) -> ScalarRef<'v>
        ensures { scalar_data result ≡ scalar.now }
    {
        match scalar {
            Scalar::Empty => ScalarRef::Empty,
            Scalar::Truth(truth) => ScalarRef::Truth(*truth),
            Scalar::Int(number) => ScalarRef::Int(*number),
            Scalar::Text(text) => ScalarRef::Text(text.as_str()),
        }
    }

    /// A scalar with a copy of the text.
    pub fn to_scalar(self, alloc: Global) -> Result<Scalar, AllocError>
        ensures { IfOk result (λ scalar. scalar ≡ scalar_data self.entry) }
    {
        match self {
            ScalarRef::Empty => Ok(Scalar::Empty),
            ScalarRef::Truth(truth) => Ok(Scalar::Truth(truth)),
            ScalarRef::Int(number) => Ok(Scalar::Int(number)),
            ScalarRef::Text(text) => {
                let text = String::from_str(alloc, text)?;
                Ok(Scalar::Text(Text::new(text)))
            }
        }
    }

    /// Whether two values are equal.
    pub fn is_same(self, other: ScalarRef<'_>) -> bool
        ensures only { IsTrue result → scalar_data self.entry ≡ scalar_data other.entry }
    {
        match (self, other) {
            (ScalarRef::Empty, ScalarRef::Empty) => true,
            (ScalarRef::Truth(mine), ScalarRef::Truth(its)) => mine == its,
            (ScalarRef::Int(mine), ScalarRef::Int(its)) => mine == its,
            (ScalarRef::Text(mine), ScalarRef::Text(its)) => mine == its,
            _ => false,
        }
    }
}
