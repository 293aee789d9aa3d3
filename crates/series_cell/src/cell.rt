//! The cell of one series.
ghost use Rattle.std.specs.Prelude.{◌≡◌, ℕ, ◌+◌, ◌-◌, ◌<◌, ◌≤◌, ◌^◌, ◌++◌, ◌∷◌, [], List, map};
ghost use Rattle.std.specs.Prelude.{drop, take, length, slice_index, nat_lt, true, IfOk, OnOk};
ghost use Rattle.std.specs.Prelude.{OnErr, IsOk, max};
ghost use Rattle.std.specs.List.{list_any};
ghost use Rattle.bucket_lanes.specs.ByPlace.{Fits};
ghost use Rattle.metric_events.specs.Points.{admitted, landed};
ghost use Rattle.metric_events.specs.Legal.{is_batch_home};
ghost use Rattle.metric_events.specs.declared.place.Place.TheVariants.{Home, Acknowledged, Dropped};
ghost use Rattle.metric_events.specs.declared.accepted.Accepted.{Accepted};
ghost use Rattle.metric_events.specs.declared.opened_series.OpenedSeries.{OpenedSeries};
ghost use Rattle.series_cell.specs.Cells.{Stands, IsOfSame, HasHome, HandsOn, AreTogether};
ghost use Rattle.series_cell.specs.Cells.{is_of_batch, is_home_of, bare, end_of, home_hull};
ghost use Rattle.series_cell.specs.Cells.{flight_hull, lifted, opened_with};
ghost use Rattle.series_cell.specs.declared.batch_span.TheConstants.{KEPT_ROOM, LEAST_ROOM};

use crate::batch_span::{
    BatchSpan, drop_first, end_or, find_start, give_back_room, has_batch, hull, join_all,
    make_room, spans_from, spans_to,
};
use crate::cell_parts::CellParts;
use crate::rows::Rows;
use metric_events::point::Point;
use metric_events::sender_name::SenderName;
use metric_events::span::Span;
use series_id::{SeriesId, SharedId};
use std::alloc::{AllocError, Global};
use std::marker::Model;

/// The totals of one series: a row of what was accepted, of what is pending (`stored`), in flight,
/// acknowledged and dropped; and the spans of the points that are in flight or pending, those in
/// flight first. The rows change by vector operations. All of it is on the heap, the rows in one
/// block: a cell is one word, which a list of cells moves cheaply.
#[derive(Drop)]
pub struct Cell {
    kept: Box<CellParts>,
}

impl Model for Cell {
    ghost use Rattle.series_cell.specs.Cells.{CellView};

    ghost Value = { CellView };

    ghost use Rattle.series_cell.specs.inner.CellParts.{view_of, IsKept};

    ghost view = { λ c. view_of c.kept.value };

    ghost invariant = { λ c. IsKept c.kept.value };
}

impl Cell {
    /// A cell that represents no points. Fails only if an allocation fails.
    pub fn new(alloc: Global, owner: SenderName, id: SeriesId) -> Result<Cell, AllocError>
        ensures none { IfOk result (λ c. Stands c []) }
        ensures owner { IfOk result (λ c. c.owner ≡ owner) }
        ensures id { IfOk result (λ c. c.id ≡ id) }
    {
        Cell::of_shared(alloc, owner, SharedId::new(alloc, id)?)
    }

    /// As `new`, with a shared identity.
    pub fn of_shared(alloc: Global, owner: SenderName, id: SharedId) -> Result<Cell, AllocError>
        ensures none { IfOk result (λ c. Stands c []) }
        ensures owner { IfOk result (λ c. c.owner ≡ owner) }
        ensures id { IfOk result (λ c. c.id ≡ id) }
    {
        let rows = Rows::new(alloc, id.as_series().row_len())?;
        let kept = CellParts {
            owner,
            id,
            rows,
            spans: Vec::new(alloc),
            cut: 0,
            flush: 0,
            landed: 0,
        };
        Ok(Cell {
            kept: Box::new(alloc, kept)?,
        })
    }

    /// Makes room for one more point where there is none. Nothing else changes.
    fn make_room(&mut self) -> Result<(), AllocError>
        ensures room { OnOk result (1 ≤ self.new.spare) }
        ensures succeeds { 1 ≤ self.old.spare → IsOk result }
        ensures less { self.old.spare ≤ self.new.spare }
        ensures most { self.new.spare ≤ max self.old.spare (max (length self.old.spans)
            LEAST_ROOM) }
        ensures rest { self.new ≡ record self.old { spare = self.new.spare } }
        ensures err { OnErr result (self.new ≡ self.old) }
        ensures stands { (qs : List Accepted) → Stands self.old qs → Stands self.new qs }
    {
        make_room(&mut self.kept.spans)
    }

    /// Adds a point of a batch, as pending. Takes memory only if no room is spare, and then at
    /// most doubles the room. If memory runs out, nothing changes.
    pub fn put(&mut self, point: &Point, batch: u64) -> Result<(), AllocError>
        requires series { point.now.series ≡ self.old.id }
        requires order { end_of self.old ≤ point.now.span.start }
        requires fits { Fits (2 ^ 64 - 1) self.old.accepted point.now.row }
        ensures ok { OnOk result ((qs : List Accepted) → Stands self.old qs
            → Stands self.new (qs ++ admitted batch self.old.owner point.now ∷ [])) }
        ensures same { IsOfSame self.old self.new }
        ensures flush { self.new.flush ≡ self.old.flush }
        ensures room { 1 ≤ self.old.spare → IsOk result }
        ensures spare { self.old.spare ≤ self.new.spare + 1 }
        ensures most { self.new.spare ≤ max self.old.spare (max (length self.old.spans)
            LEAST_ROOM) }
        ensures err { OnErr result (self.new ≡ self.old) }
    {
        self.make_room()?;
        self.put_reserved(point, batch);
        Ok(())
    }

    /// As `put`, where room is spare. Takes no memory.
    fn put_reserved(&mut self, point: &Point, batch: u64)
        requires room { 1 ≤ self.old.spare }
        requires series { point.now.series ≡ self.old.id }
        requires order { end_of self.old ≤ point.now.span.start }
        requires fits { Fits (2 ^ 64 - 1) self.old.accepted point.now.row }
        ensures stands { (qs : List Accepted) → Stands self.old qs
            → Stands self.new (qs ++ admitted batch self.old.owner point.now ∷ []) }
        ensures same { IsOfSame self.old self.new }
        ensures flush { self.new.flush ≡ self.old.flush }
        ensures less { self.old.spare ≤ self.new.spare + 1 }
        ensures spare { self.new.spare ≤ self.old.spare }
    {
        let kept = self.kept.as_mut();
        kept.rows.add(point.row());
        kept.spans.push_reserved(BatchSpan {
            span: point.span(),
            batch,
        });
    }

    /// Adds the span of a point of a batch, as pending, without its words: the rows stay. As with
    /// `put`, memory is taken only if no room is spare, and nothing changes if it runs out.
    pub fn put_span(&mut self, point: &Point, batch: u64) -> Result<(), AllocError>
        requires series { point.now.series ≡ self.old.id }
        requires order { end_of self.old ≤ point.now.span.start }
        ensures ok { OnOk result ((qs : List Accepted) → Stands self.old qs
            → Stands self.new (qs ++ admitted batch self.old.owner (bare point.now) ∷ [])) }
        ensures same { IsOfSame self.old self.new }
        ensures flush { self.new.flush ≡ self.old.flush }
        ensures room { 1 ≤ self.old.spare → IsOk result }
        ensures spare { self.old.spare ≤ self.new.spare + 1 }
        ensures most { self.new.spare ≤ max self.old.spare (max (length self.old.spans)
            LEAST_ROOM) }
        ensures err { OnErr result (self.new ≡ self.old) }
    {
        self.make_room()?;
        self.put_span_reserved(point, batch);
        Ok(())
    }

    /// As `put_span`, where room is spare. Takes no memory.
    fn put_span_reserved(&mut self, point: &Point, batch: u64)
        requires room { 1 ≤ self.old.spare }
        requires series { point.now.series ≡ self.old.id }
        requires order { end_of self.old ≤ point.now.span.start }
        ensures stands { (qs : List Accepted) → Stands self.old qs
            → Stands self.new (qs ++ admitted batch self.old.owner (bare point.now) ∷ []) }
        ensures same { IsOfSame self.old self.new }
        ensures flush { self.new.flush ≡ self.old.flush }
        ensures less { self.old.spare ≤ self.new.spare + 1 }
        ensures spare { self.new.spare ≤ self.old.spare }
    {
        let kept = self.kept.as_mut();
        let span = point.span();
        // So the span is an interval.
        let _end = span.end();
        kept.spans.push_reserved(BatchSpan { span, batch });
    }

    /// Whether a point of the batch is pending here. If the batch has points here, and all of them
    /// are pending or none is, this says whether all of them are.
    pub fn can_remove(&self, batch: u64) -> bool
        ensures exact { (qs : List Accepted) → Stands self.now qs
            → result ≡ list_any (is_home_of batch) qs }
        ensures whole { (qs : List Accepted) → Stands self.now qs
            → list_any (is_of_batch batch) qs ≡ true → AreTogether batch qs
            → result ≡ is_batch_home batch qs }
    {
        let kept = self.kept.as_ref();
        has_batch(spans_from(&kept.spans, kept.cut), batch)
    }

    /// Removes a pending point of a batch, as if it had never been added.
    pub fn remove(&mut self, batch: u64, point: &Point)
        requires { HasHome self.old batch point.now }
        ensures stands { (before after : List Accepted)
            → Stands self.old (before ++ admitted batch self.old.owner point.now ∷ after)
            → Stands self.new (before ++ after) }
        ensures same { IsOfSame self.old self.new }
    {
        // Only the contract needs it.
        let _batch = batch;
        let kept = self.kept.as_mut();
        let at = kept.cut + find_start(spans_from(&kept.spans, kept.cut), point.span().start());
        kept.rows.sub(point.row());
        kept.spans.remove(at);
        give_back_room(&mut kept.spans);
    }

    /// Removes a pending point of a batch that was added by its span alone: the rows stay.
    pub fn remove_span(&mut self, batch: u64, point: &Point)
        requires { HasHome self.old batch (bare point.now) }
        ensures stands { (before after : List Accepted)
            → Stands self.old (before ++ admitted batch self.old.owner (bare point.now) ∷ after)
            → Stands self.new (before ++ after) }
        ensures same { IsOfSame self.old self.new }
    {
        // Only the contract needs it.
        let _batch = batch;
        let kept = self.kept.as_mut();
        let home = spans_from(&kept.spans, kept.cut);
        let place = kept.cut + find_start(home, point.span().start());
        kept.spans.remove(place);
        give_back_room(&mut kept.spans);
    }

    /// All pending points go into flight with this flush.
    pub fn lift_off(&mut self, flush: u64)
        requires { self.old.cut ≡ 0 }
        ensures stands { (qs : List Accepted) → Stands self.old qs
            → Stands self.new (map (lifted flush) qs) }
        ensures same { IsOfSame self.old self.new }
        ensures flush { self.new.flush ≡ flush }
        ensures spare { self.old.spare ≤ self.new.spare }
    {
        let kept = self.kept.as_mut();
        kept.rows.lift_off();
        kept.cut = kept.spans.len();
        kept.flush = flush;
    }

    /// The points in flight are pending again.
    pub fn set_down(&mut self)
        ensures stands { (qs : List Accepted) → Stands self.old qs
            → Stands self.new (map (landed self.old.flush Home) qs) }
        ensures same { IsOfSame self.old self.new }
        ensures spare { self.old.spare ≤ self.new.spare }
    {
        let kept = self.kept.as_mut();
        kept.rows.set_down();
        kept.cut = 0;
    }

    /// The points in flight are acknowledged.
    pub fn acknowledge(&mut self)
        ensures stands { (qs : List Accepted) → Stands self.old qs
            → Stands self.new (map (landed self.old.flush Acknowledged) qs) }
        ensures same { IsOfSame self.old self.new }
    {
        let kept = self.kept.as_mut();
        kept.rows.acknowledge();
        kept.landed = kept.landed.max(end_or(spans_to(&kept.spans, kept.cut), 0));
        drop_first(&mut kept.spans, kept.cut);
        give_back_room(&mut kept.spans);
        kept.cut = 0;
    }

    /// The points in flight are dropped.
    pub fn discard(&mut self)
        ensures stands { (qs : List Accepted) → Stands self.old qs
            → Stands self.new (map (landed self.old.flush Dropped) qs) }
        ensures same { IsOfSame self.old self.new }
    {
        let kept = self.kept.as_mut();
        kept.rows.discard();
        kept.landed = kept.landed.max(end_or(spans_to(&kept.spans, kept.cut), 0));
        drop_first(&mut kept.spans, kept.cut);
        give_back_room(&mut kept.spans);
        kept.cut = 0;
    }

    /// Begins the next round, where nothing is in flight. What was acknowledged and dropped is
    /// past. The pending points become one point with their covering span, which is all that is
    /// accepted. Owner and frontier stay. A cell that represents no points still does. Takes no
    /// memory.
    pub fn carry(&mut self)
        requires { self.old.cut ≡ 0 }
        ensures stands { (s : OpenedSeries) → HandsOn self.old s → 0 < end_of self.old
            → Stands self.new (opened_with s) }
        ensures none { Stands self.old [] → Stands self.new [] }
        ensures same { IsOfSame self.old self.new }
    {
        let frontier = self.frontier();
        let kept = self.kept.as_mut();
        kept.rows.carry();
        kept.landed = frontier;
        join_all(&mut kept.spans);
        give_back_room(&mut kept.spans);
    }

    /// Whether points are in flight.
    pub fn is_flying(&self) -> bool
        ensures { result ≡ nat_lt 0 self.now.cut }
    {
        0 < self.kept.cut
    }

    /// Whether points are pending.
    pub fn has_stored(&self) -> bool
        ensures { result ≡ nat_lt self.now.cut (length self.now.spans) }
    {
        self.kept.cut < self.kept.spans.len()
    }

    /// For how many more points there is room. Where no point is pending or in flight that is not
    /// more than `KEPT_ROOM`: what was asked for beyond it is given back.
    pub fn room(&self) -> usize
        ensures value { result ≡ self.now.spare }
        ensures lean { self.now.spans ≡ [] → result ≤ KEPT_ROOM }
    {
        self.kept.spans.capacity() - self.kept.spans.len()
    }

    /// The owner of the series: its sender.
    pub fn owner(&self) -> &SenderName
        ensures { result.now ≡ self.now.owner }
    {
        &self.kept.owner
    }

    /// The series.
    pub fn id(&self) -> &SeriesId
        ensures { result.now ≡ self.now.id }
    {
        self.kept.id.as_series()
    }

    /// The same, as the shared identity.
    pub fn shared_id(&self) -> &SharedId
        ensures { result.now ≡ self.now.id }
    {
        &self.kept.id
    }

    /// The greatest end of its points in nanoseconds, 0 if there is none.
    pub fn frontier(&self) -> u64
        ensures { result ≡ end_of self.now }
    {
        self.kept.landed.max(end_or(&self.kept.spans, 0))
    }

    /// The sum of the rows of all its points.
    pub fn accepted(&self) -> &[u64]
        ensures { result.now ≡ self.now.accepted }
    {
        self.kept.rows.accepted()
    }

    /// The sum of the rows of the pending points.
    pub fn stored(&self) -> &[u64]
        ensures { result.now ≡ self.now.stored }
    {
        self.kept.rows.stored()
    }

    /// The sum of the rows of the points in flight.
    pub fn in_flight(&self) -> &[u64]
        ensures { result.now ≡ self.now.in_flight }
    {
        self.kept.rows.in_flight()
    }

    /// The sum of the rows of the points that the back end has accepted.
    pub fn acknowledged(&self) -> &[u64]
        ensures { result.now ≡ self.now.acknowledged }
    {
        self.kept.rows.acknowledged()
    }

    /// The sum of the rows of the points that the back end has refused permanently.
    pub fn dropped(&self) -> &[u64]
        ensures { result.now ≡ self.now.dropped }
    {
        self.kept.rows.dropped()
    }

    /// The covering span of the pending points.
    pub fn stored_span(&self) -> Option<Span>
        ensures { result ≡ home_hull self.now }
    {
        let kept = self.kept.as_ref();
        hull(spans_from(&kept.spans, kept.cut))
    }

    /// The covering span of the points in flight.
    pub fn flight_span(&self) -> Option<Span>
        ensures { result ≡ flight_hull self.now }
    {
        let kept = self.kept.as_ref();
        hull(spans_to(&kept.spans, kept.cut))
    }
}
