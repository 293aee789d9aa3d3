//! The fields of a point but its attributes, of which is noted whether they are known.

ghost use Rattle.std.specs.Prelude.{◌≡◌, ◌∷◌, [], ℕ, List, IsTrue, MatchOption};
ghost use Rattle.otlp_protobuf.specs.Wire.{fields};
ghost use Rattle.otlp_protobuf.specs.Fields.{contents};
ghost use Rattle.otlp_protobuf.specs.inner.Runs.{others};
ghost use Rattle.otlp_protobuf.specs.inner.RunViews.{Sees, messages_of, run_messages};
ghost use Rattle.otlp_protobuf.specs.inner.Views.{field_data, fields_data};

use crate::fields::{Field, Fields};
use crate::known_run::KnownRun;

/// What is known of the attributes so far: there was none, they were those that are known, or there
/// were others.
#[derive(Clone, Copy)]
pub enum Seen {
    None,
    Run,
    Others,
}

/// The next field that is no attribute. Those that are known are passed over by their bytes.
#[inline(always)]
pub fn next_other<'a>(
    rest: &mut Fields<'a>,
    seen: &mut Seen,
    number: u32,
    known: Option<&KnownRun>,
) -> Option<Field<'a>>
    ensures field { MatchOption result (others number (fields_data rest.old) ≡ [])
        (λ f. others number (fields_data rest.old)
        ≡ field_data f ∷ others number (fields_data rest.new)) }
    ensures seen { (all : List (List ℕ))
        → Sees (messages_of known.entry) seen.old (contents number (fields_data rest.old)) all
        → MatchOption result (Sees (messages_of known.entry) seen.new [] all)
        (λ _. Sees (messages_of known.entry) seen.new
        (contents number (fields_data rest.new)) all) }
{
    pass_run(rest, seen, number, known);
    next_unlike(rest, seen, number)
}

/// Passes over the attributes that are known.
#[inline(always)]
fn pass_run(rest: &mut Fields<'_>, seen: &mut Seen, number: u32, known: Option<&KnownRun>)
    ensures same { others number (fields_data rest.new) ≡ others number (fields_data rest.old) }
    ensures seen { (all : List (List ℕ))
        → Sees (messages_of known.entry) seen.old (contents number (fields_data rest.old)) all
        → Sees (messages_of known.entry) seen.new (contents number (fields_data rest.new)) all }
{
    if let Seen::None = *seen
        && let Some(run) = known
        && run.number == number
        && let Some(after) = rest.after_run(run)
    {
        *rest = after;
        *seen = Seen::Run;
    }
}

/// The next field that has another number.
#[inline(always)]
fn next_unlike<'a>(rest: &mut Fields<'a>, seen: &mut Seen, number: u32) -> Option<Field<'a>>
    ensures field { MatchOption result (others number (fields_data rest.old) ≡ [])
        (λ f. others number (fields_data rest.old)
        ≡ field_data f ∷ others number (fields_data rest.new)) }
    ensures seen { (known all : List (List ℕ))
        → Sees known seen.old (contents number (fields_data rest.old)) all
        → MatchOption result (Sees known seen.new [] all)
        (λ _. Sees known seen.new (contents number (fields_data rest.new)) all) }
{
    while let Some(field) = rest.next() {
        if field.number != number {
            return Some(field);
        }
        *seen = Seen::Others;
    }
    None
}

/// Whether the attributes of a message are those that are known.
pub fn are_known(bytes: &[u8], known: &KnownRun) -> bool
    ensures only { IsTrue result
        → run_messages known.now ≡ contents known.now.number (fields bytes.now) }
{
    let mut rest = Fields::of(bytes);
    let mut seen = Seen::None;
    while let Some(_) = next_other(&mut rest, &mut seen, known.number, Some(known)) {}
    is_run(seen)
}

/// Whether they were those that are known.
#[inline(always)]
pub fn is_run(seen: Seen) -> bool
    ensures only { (known all : List (List ℕ)) → IsTrue result → Sees known seen [] all
        → known ≡ all }
{
    match seen {
        Seen::Run => true,
        _ => false,
    }
}
