//! The levels of a request, and whether two series share the element of a level.

ghost use Rattle.std.specs.Prelude.{◌≡◌};
ghost use Rattle.out_texts.specs.Sharing.{shares};

use series_id::SeriesId;

/// The levels of a request at which points share an element (OTLP metrics, `ResourceMetrics`,
/// `ScopeMetrics` and `Metric`).
#[derive(Clone, Copy)]
pub(crate) enum Level {
    Resource,
    Scope,
    Metric,
}

impl Level {
    /// Whether two series share the element of this level.
    #[tactic(auto, unfolding(crate::specs::Sharing::shares))]
    pub(crate) fn is_shared(self, mine: &SeriesId, its: &SeriesId) -> bool
        ensures { result ≡ shares self mine.now its.now }
    {
        match self {
            Level::Resource => mine.shares_resource(its),
            Level::Scope => mine.shares_scope(its),
            Level::Metric => mine.shares_stream(its),
        }
    }
}
