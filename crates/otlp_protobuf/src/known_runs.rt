//! The attributes of points that a reader has checked.

ghost use Rattle.std.specs.Prelude.{◌≡◌, IfSome, IsTrue, Ok};
ghost use Rattle.otlp_protobuf.specs.Checks.{checked_from};
ghost use Rattle.otlp_protobuf.specs.inner.Runs.{IsKey};

use crate::byte_hash::ByteHash;
use crate::checked_run::CheckedRun;
use crate::followed::{Followed, SLOTS};
use crate::runs::{after_run, run_at};
use crate::schema::Message;
use crate::slots::Slots;
use std::alloc::Global;

/// The most bytes of attributes that are kept.
const MOST_BYTES: usize = 1024;

/// The attributes of the points of earlier bodies, those of a point together. They need no check
/// again. What a body says does not depend on them: they are compared byte by byte.
#[derive(Drop)]
pub struct KnownRuns {
    alloc: Global,
    slots: Slots<CheckedRun>,
    followed: Followed,
}

impl KnownRuns {
    /// None is known yet. Takes no memory.
    pub fn new(alloc: Global) -> KnownRuns {
        KnownRuns {
            alloc,
            slots: Slots::new(alloc),
            followed: Followed::new(alloc),
        }
    }

    /// What is left to check of a point after the attributes at the front, if they are known.
    #[inline(always)]
    pub fn after<'a>(
        &mut self,
        message: Message,
        bytes: &'a [u8],
        levels: u32,
        left: usize,
    ) -> Option<(&'a [u8], usize)>
        ensures { IfSome result (λ r. checked_from r.1 levels message r.0.now
            ≡ checked_from left levels message bytes.now) }
    {
        if let Some(slot) = self.followed.next()
            && let Some(after) = self.after_at(slot, message, bytes, levels, left)
        {
            self.followed.go_to(slot);
            return Some(after);
        }
        self.after_other(message, bytes, levels, left)
    }

    /// The same where those that came next the last time are others.
    #[inline(never)]
    fn after_other<'a>(
        &mut self,
        message: Message,
        bytes: &'a [u8],
        levels: u32,
        left: usize,
    ) -> Option<(&'a [u8], usize)>
        ensures { IfSome result (λ r. checked_from r.1 levels message r.0.now
            ≡ checked_from left levels message bytes.now) }
    {
        let key = attribute_key(message)?;
        let (size, _) = run_at(key, bytes);
        let slot = ByteHash::new().with(&bytes[..size]).slot(SLOTS);
        let after = self.after_at(slot, message, bytes, levels, left)?;
        self.followed.go_to(slot);
        Some(after)
    }

    /// The same where they are those in a slot.
    #[inline(always)]
    fn after_at<'a>(
        &self,
        slot: usize,
        message: Message,
        bytes: &'a [u8],
        levels: u32,
        left: usize,
    ) -> Option<(&'a [u8], usize)>
        ensures { IfSome result (λ r. checked_from r.1 levels message r.0.now
            ≡ checked_from left levels message bytes.now) }
    {
        let kept = self.slots.at(slot)?;
        after_checked(kept, message, bytes, levels, left)
    }

    /// Keeps the attributes at the front of a point that has passed its check.
    #[inline(never)]
    pub fn keep(&mut self, message: Message, bytes: &[u8], levels: u32, left: usize)
        requires { checked_from left levels message bytes.now ≡ Ok tt }
    {
        let Some(key) = attribute_key(message) else {
            return;
        };
        let (size, count) = run_at(key, bytes);
        if size > MOST_BYTES || count == 0 || count > left {
            return;
        }
        let run = &bytes[..size];
        let Ok(copy) = Vec::from_slice(self.alloc, run) else {
            return;
        };
        let slot = ByteHash::new().with(run).slot(SLOTS);
        let kept = CheckedRun {
            message,
            bytes: copy,
            count,
            levels,
            left: left - count,
        };
        self.slots.put(self.alloc, SLOTS, slot, kept);
        self.followed.go_to_new(slot);
    }
}

/// The key of the attributes of a message, if it is a point.
fn attribute_key(message: Message) -> Option<u8>
    ensures { IfSome result (IsKey message) }
{
    match message {
        Message::NumberPoint => Some(58),
        Message::HistogramPoint => Some(74),
        _ => None,
    }
}

/// What is left to check of a point after these attributes, if it begins with them.
#[inline(always)]
fn after_checked<'a>(
    kept: &CheckedRun,
    message: Message,
    bytes: &'a [u8],
    levels: u32,
    left: usize,
) -> Option<(&'a [u8], usize)>
    ensures { IfSome result (λ r. checked_from r.1 levels message r.0.now
        ≡ checked_from left levels message bytes.now) }
{
    if !are_alike(kept.message, message) || kept.levels != levels || left < kept.count {
        return None;
    }
    let fewer = left - kept.count;
    if fewer < kept.left {
        return None;
    }
    let after = after_run(&kept.bytes, bytes)?;
    Some((after, fewer))
}

/// Whether both are points of one kind.
fn are_alike(one: Message, other: Message) -> bool
    ensures only { IsTrue result → one ≡ other }
{
    match (one, other) {
        (Message::NumberPoint, Message::NumberPoint) => true,
        (Message::HistogramPoint, Message::HistogramPoint) => true,
        _ => false,
    }
}
