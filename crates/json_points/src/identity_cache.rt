//! The identities that a reader keeps from one body to the next.

ghost use Rattle.std.specs.Prelude.{◌≡◌, ◌≤◌, [], length, IfOk, IfSome};
ghost use Rattle.json_points.specs.declared.identity_hash.TheConstants.{SLOTS};

use crate::followed::Followed;
use crate::identity_hash::{IdentityHash, SLOTS};
use crate::slot::Slot;
use series_id::{SeriesId, SharedId};
use std::alloc::{AllocError, Global};
use std::marker::Model;

/// The identities of earlier points. A point whose identity is kept shares it, and no second one is
/// made. It is looked for first where the point was that came after the one before it the last
/// time, then where its hash says. Contracts see the slots: there are none before the first
/// identity is kept.
///
/// What a body says does not depend on its reader's cache: an identity in a slot is compared in
/// full, or its stream by the identity that stands for it. It is replaced by a later one that needs
/// its slot, so there are never more than `SLOTS` of them, and as many that stand for a stream. One
/// of more than 4,096 bytes is not kept. If the memory for the slots can't be allocated, nothing is
/// kept.
#[derive(Drop)]
pub struct IdentityCache {
    slots: Vec<Option<Slot>>,
    followed: Followed,
}

impl Model for IdentityCache {
    ghost use Rattle.std.specs.Prelude.{◌≤◌, length, List, Option};
    ghost use Rattle.json_points.specs.declared.identity_hash.TheConstants.{SLOTS};
    ghost use Rattle.json_points.specs.declared.slot.Slot.{Slot};

    ghost Value = { List (Option Slot) };

    ghost view = { λ m. m.slots.items };

    ghost invariant = { λ m. length m.slots.items ≤ SLOTS };
}

impl IdentityCache {
    /// A cache without an identity. Takes no memory until it keeps the first.
    pub fn new(alloc: Global) -> IdentityCache
        ensures { result ≡ [] }
    {
        IdentityCache {
            slots: Vec::new(alloc),
            followed: Followed::new(alloc),
        }
    }

    /// Whether there are no slots.
    pub(crate) fn is_empty(&self) -> bool {
        self.slots.is_empty()
    }

    /// The identity in a slot, if there is one.
    pub(crate) fn at(&self, slot: usize) -> Option<&Slot> {
        identity_at(self.slots.as_slice(), slot)
    }

    /// The slot of the identity that comes next, if it is known.
    pub(crate) fn next(&self) -> Option<usize> {
        self.followed.next()
    }

    /// The identity that stands for the stream of what comes next, if it is known.
    pub(crate) fn next_stream(&self) -> Option<SharedId> {
        self.at(self.next()?)?.stream().share().ok()
    }

    /// Replaces what is in a slot.
    pub(crate) fn replace(&mut self, slot: usize, kept: Slot) {
        if slot < self.slots.len() {
            self.slots[slot] = Some(kept);
        }
    }

    /// Notes the slot of the identity that came next.
    pub(crate) fn go_to(&mut self, slot: usize)
        ensures { self.new ≡ self.old }
    {
        self.followed.go_to(slot);
    }

    /// This identity, shared with the one in a slot if they are equal. Otherwise it is kept.
    pub(crate) fn shared(
        &mut self,
        alloc: Global,
        hash: IdentityHash,
        series: SeriesId,
    ) -> Result<SharedId, AllocError>
        ensures { IfOk result (λ shared. shared ≡ series) }
    {
        if let Some(shared) = self.share_same(hash.slot(), &series) {
            self.go_to(hash.slot());
            return Ok(shared);
        }
        if let Some(shared) = self.share_same(hash.other_slot(), &series) {
            self.go_to(hash.other_slot());
            return Ok(shared);
        }
        let shared = SharedId::new(alloc, series)?;
        self.keep(alloc, hash, &shared);
        Ok(shared)
    }

    /// A share of the identity in a slot, if it is this one.
    fn share_same(&self, slot: usize, series: &SeriesId) -> Option<SharedId>
        ensures { IfSome result (λ shared. shared ≡ series.now) }
    {
        let kept = self.at(slot)?;
        if kept.series.as_series().is_same(series) {
            kept.series.share().ok()
        } else {
            None
        }
    }

    /// Keeps an identity, if it is small and there are slots or memory for them.
    fn keep(&mut self, alloc: Global, hash: IdentityHash, series: &SharedId) {
        if hash.is_small() && take_slots(alloc, &mut self.slots).is_ok() {
            let slot = put(&mut self.slots, hash, series);
            self.followed.go_to_new(slot);
        }
    }
}

/// The identity in one of these slots, if there is one.
fn identity_at(slots: &[Option<Slot>], slot: usize) -> Option<&Slot> {
    if slot < slots.len() {
        slots[slot].as_ref()
    } else {
        None
    }
}

/// Allocates the slots, unless they are there.
fn take_slots(alloc: Global, slots: &mut Vec<Option<Slot>>) -> Result<(), AllocError>
    requires { length slots.old.items ≤ SLOTS }
    ensures { length slots.new.items ≤ SLOTS }
{
    if slots.is_empty() {
        *slots = free_slots(alloc)?;
    }
    Ok(())
}

/// Puts an identity into the first of its slots if that is free, else into the other one: which.
fn put(slots: &mut Vec<Option<Slot>>, hash: IdentityHash, series: &SharedId) -> usize
    ensures { length slots.new.items ≡ length slots.old.items }
{
    let slot = if identity_at(slots.as_slice(), hash.slot()).is_none() {
        hash.slot()
    } else {
        hash.other_slot()
    };
    if slot < slots.len()
        && let Ok(kept) = Slot::new(series)
    {
        slots[slot] = Some(kept);
    }
    slot
}

/// As many slots as a cache has, all free.
fn free_slots(alloc: Global) -> Result<Vec<Option<Slot>>, AllocError>
    ensures { IfOk result (λ slots. length slots.items ≡ SLOTS) }
{
    let mut slots = Vec::with_capacity(alloc, SLOTS)?;
    for _ in 0..SLOTS {
        slots.push(None)?;
    }
    Ok(slots)
}
