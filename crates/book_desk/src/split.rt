//! Splits a post into parts.
ghost use Rattle.std.specs.Prelude.{◌≡◌, ◌<◌, ◌++◌, ◌∷◌, [], List, length, IfOk, OnOk};
ghost use Rattle.std.specs.List.{All};
ghost use Rattle.metric_events.specs.DataPoint.{DataPoint};
ghost use Rattle.book_desk.specs.Homes as homes;
ghost use Rattle.book_desk.specs.Splits.{points_in, places_in, AreSplit, IsFrom};

use crate::part::Part;
use metric_events::batch::Batch;
use metric_events::point::Point;
use metric_events::points::Points;
use metric_events::sender_name::SenderName;
use std::alloc::{AllocError, Global};

/// A part with this point alone, and room for so many.
fn part_of(
    alloc: Global,
    sender: &SenderName,
    point: Point,
    place: usize,
    room: usize,
) -> Result<Part, AllocError>
    ensures points { IfOk result (λ part. part.body.points ≡ point ∷ []) }
    ensures places { IfOk result (λ part. part.places.items ≡ place ∷ []) }
    ensures sender { IfOk result (λ part. part.body.sender ≡ sender.now) }
{
    let mut points = Points::new(alloc);
    points.reserve(room)?;
    points.push(point)?;
    let mut places = Vec::with_capacity(alloc, room)?;
    places.push(place)?;
    let sender = sender.copy(alloc)?;
    Ok(Part {
        body: Batch { sender, points },
        places,
    })
}

/// Puts a point of the post into a book's part.
fn put(
    alloc: Global,
    part: &mut Option<Part>,
    sender: &SenderName,
    point: Point,
    place: usize,
    room: usize,
) -> Result<(), AllocError>
    requires { IsFrom sender.now part.old }
    ensures points { OnOk result (points_in part.new ≡ points_in part.old ++ point ∷ []) }
    ensures places { OnOk result (places_in part.new ≡ places_in part.old ++ place ∷ []) }
    ensures from { OnOk result (IsFrom sender.now part.new) }
{
    match part {
        Some(part) => {
            part.body.points.push(point)?;
            part.places.push(place)?;
            Ok(())
        }
        None => {
            *part = Some(part_of(alloc, sender, point, place, room)?);
            Ok(())
        }
    }
}

/// Puts a point into the part of its book, behind those that came before.
pub fn put_home(
    alloc: Global,
    parts: &mut [Option<Part>],
    sender: &SenderName,
    home: usize,
    point: Point,
    place: usize,
    room: usize,
) -> Result<(), AllocError>
    requires within { home < length parts.old }
    requires home { home ≡ homes.home (length parts.old) point.series }
    requires from { All (IsFrom sender.now) parts.old }
    ensures books { length parts.new ≡ length parts.old }
    ensures split { OnOk result ((ps : List DataPoint) → AreSplit parts.old ps → place ≡ length ps
        → AreSplit parts.new (ps ++ point ∷ [])) }
    ensures from { OnOk result (All (IsFrom sender.now) parts.new) }
{
    put(alloc, &mut parts[home], sender, point, place, room)?;
    Ok(())
}
