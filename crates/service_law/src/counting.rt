ghost use Rattle.std.specs.Prelude.{◌≡◌, [], List, Some, true};
ghost use Rattle.metric_events.specs.Recovery.{are_in_turn};
ghost use Rattle.service_law.specs.Machine.{Event, Run, behind, book};
ghost use Rattle.service_law.specs.Counted.{IsCounted, Rule, all_rules, without};

/// The law of the service. Does nothing when it runs: a caller that names it can cite its clauses.
///
/// - `counted`: whatever happens, if all rules are kept each accepted point counts once: it is
///   pending, quarantined, in the outbox, delivered or dropped.
/// - `in_turn`: what the books know then is in turn, as `books::booking` wants it.
/// - `needed`: without any one of the rules something may happen behind which that is not so.
pub fn counting()
    ensures counted { (es : List Event) → IsCounted (behind all_rules es) }
    ensures in_turn { (es : List Event) (r : Run) → (behind all_rules es).run ≡ Some r
        → are_in_turn [] (book r) ≡ true }
    ensures needed { (r : Rule) → (es : List Event) × (IsCounted (behind (without r) es) → ⊥) }
{}
