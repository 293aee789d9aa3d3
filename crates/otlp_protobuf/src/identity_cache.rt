//! The identities that a reader keeps from one body to the next.

ghost use Rattle.std.specs.Prelude.{◌≡◌, IfOk, IfSome, IsTrue, List, ℕ, Some, option_and_then};
ghost use Rattle.series_id.specs.Identity.{IsIdentity};
ghost use Rattle.series_id.specs.declared.kinds.Kind.{Kind};
ghost use Rattle.otlp_read.specs.Streams.{identity_in, series_of};
ghost use Rattle.otlp_protobuf.specs.inner.Sets.{said_list, set_said};
ghost use Rattle.otlp_protobuf.specs.inner.KeptViews.{kept_messages};
ghost use Rattle.otlp_protobuf.specs.inner.KindViews.{attributes_data, kind_data, says_kind};
ghost use Rattle.otlp_protobuf.specs.inner.RunViews.{messages_of, run_messages};
ghost use Rattle.otlp_protobuf.specs.inner.StreamViews.{stream_data};

use crate::byte_hash::ByteHash;
use crate::followed::{Followed, SLOTS};
use crate::kept_series::KeptSeries;
use crate::kind_ref::KindRef;
use crate::known_run::KnownRun;
use crate::lookup::is_series;
use crate::others::are_known;
use crate::point_attributes::PointAttributes;
use crate::slots::Slots;
use crate::streams::Stream;
use series_id::SharedId;
use std::alloc::{AllocError, Global};

/// The identities of earlier points, with the bytes that said them. A point of the same bytes
/// shares the identity, and nothing of it is read. It is looked for first where the point was that
/// came after the one before it the last time, since a sender's points come in the same order
/// again; then where its hash says.
///
/// What a body says does not depend on its reader's cache: what a slot holds is compared in full.
/// It is replaced by a later one that needs its slot. One that more than 4,096 bytes say is not
/// kept. If memory for the slots or for what is kept can't be allocated, it is not kept.
#[derive(Drop)]
pub struct IdentityCache {
    slots: Slots<KeptSeries>,
    followed: Followed,
}

impl IdentityCache {
    /// Nothing is kept yet. Takes no memory.
    pub fn new(alloc: Global) -> IdentityCache {
        IdentityCache {
            slots: Slots::new(alloc),
            followed: Followed::new(alloc),
        }
    }

    /// The series that came after the last one before.
    #[inline(always)]
    pub fn next(&self) -> Option<&KeptSeries> {
        self.slots.at(self.followed.next()?)
    }

    /// It came again.
    #[inline(always)]
    pub fn go_on(&mut self) {
        if let Some(slot) = self.followed.next() {
            self.followed.go_to(slot);
        }
    }

    /// The series of a stream with this kind and these attributes, if it is kept. Takes no memory.
    pub fn look_up(
        &mut self,
        hash: ByteHash,
        stream: &Stream<'_>,
        kind: &KindRef<'_>,
        attributes: PointAttributes<'_>,
    ) -> Option<SharedId>
        ensures { IfSome result (λ s. option_and_then
            (λ k. series_of (stream_data stream.now) k
            (said_list (attributes_data attributes.entry)))
            (kind_data kind.now) ≡ Some s) }
    {
        let mut slot = hash.slot(SLOTS);
        let mut found = share_of(self.slots.at(slot), stream, kind, attributes);
        if found.is_none() {
            slot = hash.other_slot(SLOTS);
            found = share_of(self.slots.at(slot), stream, kind, attributes);
        }
        if found.is_some() {
            self.followed.go_to(slot);
        }
        found
    }

    /// Keeps a series of a stream with these attributes, if it is small and there is memory.
    pub fn keep(
        &mut self,
        alloc: Global,
        hash: ByteHash,
        stream: &Stream<'_>,
        kind: KindRef<'_>,
        attributes: PointAttributes<'_>,
        series: &SharedId,
    )
        requires kind { kind_data kind ≡ Some series.now.kind }
        requires stream { (stream_data stream.now).scope.resource ≡ series.now.resource }
        requires attributes { set_said (attributes_data attributes) ≡ Some series.now.attrs }
    {
        if hash.is_small()
            && let Ok(run) = attributes.known(alloc)
            && are_known(attributes.bytes, &run)
            && let Ok(kept) = kept_series(alloc, stream, kind, run, series)
        {
            let first = hash.slot(SLOTS);
            let slot = if self.slots.at(first).is_none() {
                first
            } else {
                hash.other_slot(SLOTS)
            };
            self.slots.put(alloc, SLOTS, slot, kept);
            self.followed.go_to_new(slot);
        }
    }
}

/// The attributes of a kept series.
#[inline(always)]
pub fn run_of(kept: Option<&KeptSeries>) -> Option<&KnownRun>
    ensures { messages_of result ≡ kept_messages kept.entry }
{
    match kept {
        Some(kept) => Some(&kept.run),
        None => None,
    }
}

/// A share of a kept series, if it has the point's attributes, and is that of the stream and the
/// kind.
#[inline(always)]
pub fn share_if(
    kept: Option<&KeptSeries>,
    is_known: bool,
    stream: &Stream<'_>,
    kind: &KindRef<'_>,
) -> Option<SharedId>
    ensures { IfSome result (λ s. (messages : List (List ℕ))
        → (IsTrue is_known → kept_messages kept.entry ≡ messages)
        → option_and_then (λ k. series_of (stream_data stream.now) k (said_list messages))
        (kind_data kind.now) ≡ Some s) }
{
    let kept = kept?;
    if is_known && is_series(kept, stream, kind) {
        kept.series.share().ok()
    } else {
        None
    }
}

/// The same of these attributes.
fn share_of(
    kept: Option<&KeptSeries>,
    stream: &Stream<'_>,
    kind: &KindRef<'_>,
    attributes: PointAttributes<'_>,
) -> Option<SharedId>
    ensures { IfSome result (λ s. option_and_then
        (λ k. series_of (stream_data stream.now) k (said_list (attributes_data attributes.entry)))
        (kind_data kind.now) ≡ Some s) }
{
    let is_known = have_run(kept, attributes);
    share_if(kept, is_known, stream, kind)
}

/// Whether the attributes are those of a kept series.
fn have_run(kept: Option<&KeptSeries>, attributes: PointAttributes<'_>) -> bool
    ensures only { IsTrue result → kept_messages kept.entry ≡ attributes_data attributes.entry }
{
    match kept {
        Some(kept) => {
            kept.run.number == attributes.number && are_known(attributes.bytes, &kept.run)
        }
        None => false,
    }
}

/// A series with what said it.
fn kept_series(
    alloc: Global,
    stream: &Stream<'_>,
    kind: KindRef<'_>,
    run: KnownRun,
    series: &SharedId,
) -> Result<KeptSeries, AllocError>
    requires kind { kind_data kind ≡ Some series.now.kind }
    requires stream { (stream_data stream.now).scope.resource ≡ series.now.resource }
    requires attributes { set_said (run_messages run) ≡ Some series.now.attrs }
{
    let resource = stream.scope.resource.share(alloc)?;
    let bounds = bounds_of(alloc, kind)?;
    let series = series.share()?;
    Ok(KeptSeries {
        series,
        resource,
        run,
        bounds,
    })
}

/// A copy of the bounds of a histogram, if one field has them all.
fn bounds_of(alloc: Global, kind: KindRef<'_>) -> Result<Option<Vec<u8>>, AllocError>
    ensures { IfOk result (λ o. IfSome o (λ b.
        (k : Kind) → kind_data kind.entry ≡ Some k → says_kind b.items k)) }
{
    match kind {
        KindRef::Histogram { bounds } => match bounds.spot {
            Some(packed) => Ok(Some(Vec::from_slice(alloc, packed)?)),
            None => Ok(None),
        },
        KindRef::Sum { .. } => Ok(None),
    }
}
