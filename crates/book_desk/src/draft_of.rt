//! A post of points that were read.
ghost use Rattle.std.specs.Prelude.{◌≡◌, ◌<◌, length, IfOk};
ghost use Rattle.std.specs.List.{All};
ghost use Rattle.book_desk.specs.Drafts.{HasRead};
ghost use Rattle.book_desk.specs.Splits.{IsFrom};
ghost use Rattle.book_desk.specs.inner.Alone.{alone};

use crate::draft::Draft;
use crate::home::home;
use crate::window::Window;
use metric_events::point::Point;
use metric_events::sender_name::SenderName;
use std::alloc::{AllocError, Global};

/// Splits these points of a sender into parts, in order.
pub fn draft_of(
    alloc: Global,
    sender: SenderName,
    points: &[Point],
    books: usize,
    window: Window,
) -> Result<Draft, AllocError>
    requires { 0 < books }
    ensures read { IfOk result (λ d. HasRead d (alone points.now)) }
    ensures from { IfOk result (λ d. All (IsFrom d.sender) d.parts.items) }
    ensures sender { IfOk result (λ d. d.sender ≡ sender) }
    ensures window { IfOk result (λ d. d.window ≡ window) }
    ensures books { IfOk result (λ d. length d.parts.items ≡ books) }
{
    let mut draft = Draft::new(alloc, sender, books, window, points.len())?;
    for i in 0..points.len() {
        let point = &points[i];
        let home = home(books, point.series());
        draft.add(home, Some(point.copy(alloc)?))?;
    }
    Ok(draft)
}
