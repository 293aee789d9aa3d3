//! Laws of the definitions, each as the contract of a function that does nothing.
ghost use Rattle.std.specs.Prelude.{◌≡◌, ℕ, List, Option, map};
ghost use Rattle.series_id.specs.Identity.{Identity};
ghost use Rattle.otlp_read.specs.Tallies.{Tally};
ghost use Rattle.book_desk.specs.Reads.{IsKept, IsPut};
ghost use Rattle.book_desk.specs.Said.{ArePartsSaid};
ghost use Rattle.book_desk.specs.Splits.{points_in};
ghost use Rattle.book_desk.specs.declared.draft.Counts.{Counts};
ghost use Rattle.book_desk.specs.declared.part.Part.{Part};
ghost use Rattle.book_desk.specs.declared.window.Window.{Window};

/// Words that say a post's parts, put for as many books and within the same window, make parts of
/// the same points, in the same order.
pub fn said_again()
    ensures same { (books : ℕ) (sender another : List ℕ) (window : Window) (t : Tally)
        (counts again : Counts) (parts made : List (Option Part)) (names : List Identity)
        (words : List ℕ)
        → IsKept books sender window t counts parts → ArePartsSaid names words parts
        → IsPut names another words books window again made
        → map points_in made ≡ map points_in parts }
{}
