ghost use Rattle.std.specs.Prelude.{ℕ, ◌≡◌, ◌++◌, ◌∷◌, [], List, Some, None, drop, true, false};
ghost use Rattle.std.specs.List.{AllByRecursion, filter};
ghost use Rattle.series_id.specs.Identity.{Identity};
ghost use Rattle.metric_events.specs.History.{History, Opened, ◌▸◌};
ghost use Rattle.metric_events.specs.Running.{is_other_sender};
ghost use Rattle.metric_events.specs.Legal.{IsLegal, MayAdmit, MayTake, is_held};
ghost use Rattle.metric_events.specs.Recovery.{IsAtRest, Numbered, all_points, are_in_turn};
ghost use Rattle.metric_events.specs.Recovery.{quarantined, readmitted};
ghost use Rattle.metric_events.specs.Priming.{IsKnown, Known, KnowsExactly};
ghost use Rattle.metric_events.specs.Recall.{bodies};
ghost use Rattle.metric_events.specs.Lasting.{is_one_of};
ghost use Rattle.metric_events.specs.Congruence.{StandAlike};
ghost use Rattle.metric_events.specs.declared.accepted.Accepted.{Accepted};
ghost use Rattle.metric_events.specs.declared.batch.Batch.{Batch};
ghost use Rattle.metric_events.specs.declared.flight.Flight.{Flight};
ghost use Rattle.metric_events.specs.declared.opening.Opening.{Opening};
ghost use Rattle.metric_events.specs.declared.event.Event.TheVariants.{Admit, Confirm, Take};
ghost use Rattle.metric_events.specs.declared.event.Event.TheVariants.{Settle, Quarantine, Lift};
ghost use Rattle.service_law.specs.Machine.{Checkpoint, Run, World, begun, book, fresh};
ghost use Rattle.service_law.specs.Machine.{given_back, has_committed, has_taken, replay_order};
ghost use Rattle.service_law.specs.Machine.{takes, unsent};
ghost use Rattle.service_law.specs.Counted.{all_rules};
ghost use Rattle.service_law.specs.Known.{Flies, Knows, MayTakeAll, Opens, Spells, TakesAll};
ghost use Rattle.service_law.specs.Known.{flush_numbers, fresh_books, giving_back, series_of_all};
ghost use Rattle.service_law.specs.Known.{taking};

/// The books of the machine are those of a history. Does nothing when it runs: a caller that names
/// it can cite its clauses.
///
/// - `opened`, `primed`: fresh books that know what was sent, and have no post yet, are those of a
///   history that opens so, with these series, their owners and frontiers, and nothing pending; and
///   of one that was primed with them (`metric_events::laws::priming`) and is at rest.
/// - `started`: and a start's are those of such a history that admits and confirms the posts that
///   are replayed, one by one in the machine's order, and then quarantines the senders, in whatever
///   order. Where it may admit them, the machine leaves out none.
/// - `posted`: a post that a history may admit is one that the machine's books take, if they know
///   what the history does; and then they know it too. Each run of the machine is in turn.
/// - `written`: so it is behind records of posts that are written.
/// - `taken`: and behind a checkpoint's flush, which takes all but what is of quarantined senders.
///   What the checkpoint has is then what is in flight.
/// - `several`: so it is where several flushes, one after another, take all that.
/// - `flying`: what is in flight stays so behind posts, records that are written, quarantines and
///   releases, and where another flush is settled.
/// - `committed`, `settled`: behind a commit the books know what they knew. A flush may be settled
///   behind the commit or before it: they know the same.
/// - `given_back`: what a checkpoint gives back is pending again, as what its flushes give back,
///   which they may.
/// - `quarantined`, `lifted`: so it is behind a quarantine and a release.
/// - `recovered`: a history that stands alike is known as well: that is what a fresh book is, which
///   is primed and gets the pending posts again (`metric_events::laws`).
pub fn booking()
    ensures opened { (O : Opening) (known : List Accepted) → Opens O known
        → Knows (Opened O) (fresh_books known) }
    ensures primed { (H : History) (ks : List Known) (known : List Accepted) → IsLegal H
        → IsAtRest H → KnowsExactly ks H → AllByRecursion IsKnown ks → Spells ks known
        → Knows H (fresh_books known) }
    ensures started { (F : History) (w : World) (known : List Accepted) (ns : List Numbered)
        (ss : List (List ℕ)) → Knows F (fresh_books known)
        → are_in_turn [] (book (fresh all_rules w known)) ≡ true
        → bodies ns ≡ replay_order all_rules w.quarantined (unsent w w.journal)
        → ((s : List ℕ) → is_held s ss ≡ is_held s w.quarantined) → IsLegal (readmitted F ns)
        → ((fresh all_rules w known).pending ≡ all_points ns)
        × Knows (quarantined (readmitted F ns) ss) (fresh all_rules w known) }
    ensures posted { (E : History) (r : Run) (b : ℕ) (body : Batch) → Knows E r
        → are_in_turn [] (book r) ≡ true → MayAdmit E b body
        → (takes r body ≡ true)
        × Knows (E ▸ Admit b body ▸ Confirm b) (has_taken all_rules body r) }
    ensures written { (E : History) (r : Run) (n : ℕ) → Knows E r
        → Knows E (record r { queue = drop n r.queue }) }
    ensures taken { (E : History) (r : Run) (w : World) (f : ℕ) (series : List Identity) → Knows E r
        → are_in_turn [] (book r) ≡ true → r.checkpoint ≡ None → MayTake E f series
        → TakesAll E series → Knows (E ▸ Take f series) (begun all_rules w r None)
        × Flies (E ▸ Take f series) (f ∷ []) (begun all_rules w r None) }
    ensures several { (E : History) (r : Run) (w : World) (ls : List Flight) → Knows E r
        → are_in_turn [] (book r) ≡ true → r.checkpoint ≡ None → MayTakeAll E ls
        → TakesAll E (series_of_all ls) → Knows (taking E ls) (begun all_rules w r None)
        × Flies (taking E ls) (flush_numbers ls) (begun all_rules w r None) }
    ensures flying { (E : History) (r : Run) (fs : List ℕ) → Flies E fs r
        → ((b : ℕ) (body : Batch)
        → Flies (E ▸ Admit b body ▸ Confirm b) fs (has_taken all_rules body r))
        × ((n : ℕ) → Flies E fs (record r { queue = drop n r.queue }))
        × ((s : List ℕ) → Flies (E ▸ Quarantine s) fs (record r { held = r.held ++ s ∷ [] }))
        × ((s : List ℕ)
        → Flies (E ▸ Lift s) fs (record r { held = filter (is_other_sender s) r.held }))
        × ((g : ℕ) → is_one_of g fs ≡ false → Flies (E ▸ Settle g) fs r) }
    ensures committed { (E : History) (r : Run) (c : Checkpoint) → Knows E r → r.checkpoint ≡ Some c
        → Knows E (has_committed c r) }
    ensures given_back { (E : History) (r : Run) (fs : List ℕ) → Knows E r → Flies E fs r
        → (IsLegal E → IsLegal (giving_back E fs))
        × Knows (giving_back E fs) (given_back r r.checkpoint) }
    ensures settled { (E : History) (r : Run) (f : ℕ) → Knows E r → Knows (E ▸ Settle f) r }
    ensures quarantined { (E : History) (r : Run) (s : List ℕ) → Knows E r
        → Knows (E ▸ Quarantine s) (record r { held = r.held ++ s ∷ [] }) }
    ensures lifted { (E : History) (r : Run) (s : List ℕ) → Knows E r
        → Knows (E ▸ Lift s) (record r { held = filter (is_other_sender s) r.held }) }
    ensures recovered { (E F : History) (r : Run) → IsLegal E → IsLegal F → Knows E r
        → StandAlike E F → Knows F r }
{}
