//! Which points of a post are taken, by the time at which they end.
use metric_events::point::Point;

/// The times, in nanoseconds, at which a point may end; both are included.
#[derive(Clone, Copy)]
pub struct Window {
    pub from: u64,
    pub until: u64,
}

impl Window {
    ghost use Rattle.std.specs.Prelude.{◌≡◌};
    ghost use Rattle.book_desk.specs.Windows.{is_within};

    /// All times.
    pub const ALL: Window = Window {
        from: 0,
        until: u64::MAX,
    };

    /// Whether the point ends within it.
    pub fn has(&self, point: &Point) -> bool
        ensures { result ≡ is_within self.now point.now }
    {
        let end = point.span().end();
        self.from <= end && end <= self.until
    }
}
