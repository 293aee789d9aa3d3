ghost use Rattle.std.specs.Prelude.{ℕ, ◌≡◌, ◌<◌, ◌++◌, ◌∷◌, [], List, Option, Some, None, false};
ghost use Rattle.std.specs.List.{AllByRecursion};
ghost use Rattle.service_law.specs.Runs.{IsReading, IsState, Options, ToldApart, after};
ghost use Rattle.service_law.specs.Runs.{bases, bases_behind, entries, entry, goes_down, lasts};
ghost use Rattle.service_law.specs.Runs.{latest};
ghost use Rattle.service_law.specs.Runs.{replayed, taken};
ghost use Rattle.service_law.specs.Sums.{InTurn, Reading, plus, sum_of_rows, time_of, total};

/// The law of runs. Does nothing when it runs: a caller that names it can cite its clauses.
///
/// A series' cumulative points come in any order, with repeats, of one run after another.
///
/// - `sums`: what was counted, and the words from which each run was counted, are together the last
///   words of each run. They are nothing, but of a run that began at an unknown time, or before the
///   folder was made.
/// - `goes_on`: so it is from any point on that was kept, as behind a snapshot.
/// - `in_turn`: the spans of what was counted are in order, and each is one that the book takes.
/// - `again`: a point that came before changes nothing when it comes again.
/// - `lost`: a point that is lost costs nothing, since a later one of its run has its words: unless
///   it is the one from which its run counts, or the one that shows that the run began anew.
/// - `replayed`: what is kept at any time, and then the journal's entries from before it and behind
///   it, are what is kept in the end.
pub fn running()
    ensures sums { (o : Options) (n : ℕ) (ps : List Reading) → AllByRecursion (IsReading n) ps
        → plus (total n (entries o None ps)) (sum_of_rows n (bases n o (taken o None ps)))
        ≡ sum_of_rows n (lasts o (taken o None ps)) }
    ensures goes_on { (o : Options) (n : ℕ) (q : Reading) (ps : List Reading) → IsReading n q
        → AllByRecursion (IsReading n) ps
        → plus (total n (entries o (Some q) ps))
        (plus q.words (sum_of_rows n (bases_behind n o q (taken o (Some q) ps))))
        ≡ sum_of_rows n (lasts o (q ∷ taken o (Some q) ps)) }
    ensures in_turn { (o : Options) (n : ℕ) (s : Option Reading) (ps : List Reading)
        → IsState n s → AllByRecursion (IsReading n) ps → InTurn (time_of s) (entries o s ps) }
    ensures again { (o : Options) (n : ℕ) (ps qs : List Reading) (p : Reading)
        → AllByRecursion (IsReading n) (ps ++ p ∷ qs)
        → entry o (latest o None (ps ++ p ∷ qs)) p ≡ None }
    ensures lost { (o : Options) (n : ℕ) (s : Option Reading) (p q : Reading) → IsState n s
        → IsReading n p → IsReading n q → p.start ≡ q.start → p.time < q.time
        → goes_down o p.words q.words ≡ false → ToldApart o s p
        → (after o (after o s p) q ≡ after o s q)
        × (total n (entries o s (p ∷ q ∷ [])) ≡ total n (entries o s (q ∷ []))) }
    ensures replayed { (o : Options) (n : ℕ) (s : Option Reading) (ps qs : List Reading)
        → IsState n s → AllByRecursion (IsReading n) (ps ++ qs)
        → replayed (latest o s ps) (entries o s (ps ++ qs)) ≡ latest o s (ps ++ qs) }
{}
