//! What tests ask, as calls: a test ends with what is wrong, and says it. The standard library's
//! macros are proved anew at each place, with the types of what they compare: without them
//! `edge_tests` is proved in four fifths of the processor time.
#![tactic(auto)]

ghost use Rattle.std.specs.Prelude.{◌≡◌, IfOk, IfErr, true, false};

use std::fmt::{Debug, Display};
use std::test::Fail;

/// Ends the test unless the fact holds: `ensure!(n < 3)`, or `ensure!(n < 3, name)`, which says of
/// which case.
#[macro_export]
macro_rules! ensure {
    ($fact:expr) => { $crate::holds($fact, stringify!($fact))? };
    ($fact:expr, $case:expr) => { $crate::holds_of($fact, stringify!($fact), $case)? };
}

/// Ends the test unless both are the same: `ensure_eq!(got, want)`, or
/// `ensure_eq!(got, want, name)`.
#[macro_export]
macro_rules! ensure_eq {
    ($got:expr, $want:expr) => { $crate::same($got, $want)? };
    ($got:expr, $want:expr, $case:expr) => { $crate::same_of($got, $want, $case)? };
}

/// `ensure!` of a fact with this text.
pub fn holds(fact: bool, text: &str) -> Result<(), Fail>
    ensures holds { IfOk result (λ u. fact ≡ true) }
    ensures fails { IfErr result (λ e. fact ≡ false) }
{
    if fact {
        return Ok(());
    }
    Err(Fail::new(format_args!("it is not so: {text}")))
}

/// The same of a case.
pub fn holds_of(fact: bool, text: &str, case: impl Display + Drop) -> Result<(), Fail>
    ensures holds { IfOk result (λ u. fact ≡ true) }
    ensures fails { IfErr result (λ e. fact ≡ false) }
{
    if fact {
        return Ok(());
    }
    Err(Fail::new(format_args!("of {case} it is not so: {text}")))
}

/// `ensure_eq!` of two values.
pub fn same<T: PartialEq + Debug + Drop>(got: T, want: T) -> Result<(), Fail>
    ensures same { IfOk result (λ u. T.eq got want ≡ true) }
    ensures differ { IfErr result (λ e. T.eq got want ≡ false) }
{
    if got == want {
        return Ok(());
    }
    Err(Fail::new(format_args!("{got:?}, where {want:?} is wanted")))
}

/// The same of a case.
pub fn same_of<T: PartialEq + Debug + Drop>(
    got: T,
    want: T,
    case: impl Display + Drop,
) -> Result<(), Fail>
    ensures same { IfOk result (λ u. T.eq got want ≡ true) }
    ensures differ { IfErr result (λ e. T.eq got want ≡ false) }
{
    if got == want {
        return Ok(());
    }
    Err(Fail::new(format_args!("of {case}: {got:?}, where {want:?} is wanted")))
}
