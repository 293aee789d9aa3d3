//! A post in the making: its parts, while its points come one after the other.
use crate::none::none_of;
use crate::part::Part;
use crate::split::put_home;
use crate::window::Window;
use metric_events::point::Point;
use metric_events::sender_name::SenderName;
use std::alloc::{AllocError, Global};

/// How many points a post has.
#[derive(Clone, Copy)]
pub struct Counts {
    /// Those of the profile that end within the window: they are admitted.
    pub points: u64,
    /// Those that are not of the profile.
    pub foreign: u64,
    /// Those of the profile that end outside the window.
    pub outside: u64,
}

/// The parts of a post of this sender, one for each book, and how many points have come.
#[derive(Drop)]
pub struct Draft {
    pub alloc: Global,
    pub sender: SenderName,
    pub window: Window,
    pub parts: Vec<Option<Part>>,
    pub counts: Counts,
    /// How many points a part may get, about.
    pub room: usize,
}

impl Draft {
    ghost use Rattle.std.specs.Prelude.{◌≡◌, ◌+◌, ◌<◌, ◌≤◌, ◌^◌, [], length, IfOk, OnOk};
    ghost use Rattle.std.specs.List.{All};
    ghost use Rattle.std.specs.Option.{ForSome};
    ghost use Rattle.otlp_read.specs.Tallies.{Tally, add_point, nothing};
    ghost use Rattle.book_desk.specs.Drafts.{HasRead};
    ghost use Rattle.book_desk.specs.Homes as homes;
    ghost use Rattle.book_desk.specs.Reads.{AreParts};
    ghost use Rattle.book_desk.specs.Splits.{IsFrom};
    ghost use Rattle.book_desk.specs.Windows.{within};

    /// No points yet, of at most so many, for so many books.
    pub fn new(
        alloc: Global,
        sender: SenderName,
        books: usize,
        window: Window,
        most: usize,
    ) -> Result<Draft, AllocError>
        requires { 0 < books }
        ensures read { IfOk result (λ d. HasRead d nothing) }
        ensures from { IfOk result (λ d. All (IsFrom d.sender) d.parts.items) }
        ensures sender { IfOk result (λ d. d.sender ≡ sender) }
        ensures window { IfOk result (λ d. d.window ≡ window) }
        ensures books { IfOk result (λ d. length d.parts.items ≡ books) }
        ensures none { IfOk result (λ d. d.counts.points + d.counts.outside ≡ 0) }
    {
        let parts = none_of(alloc, books)?;
        Ok(Draft {
            alloc,
            sender,
            window,
            parts,
            counts: Counts {
                points: 0,
                foreign: 0,
                outside: 0,
            },
            room: (most / books).saturating_add(1),
        })
    }

    /// Puts a point behind the others of its book, or counts it: one that is outside the window, or
    /// a foreign one, which is none.
    pub fn add(&mut self, home: usize, point: Option<Point>) -> Result<(), AllocError>
        requires home { ForSome point (λ p. home ≡ homes.home (length self.old.parts.items)
            p.series) }
        requires within { home < length self.old.parts.items }
        requires few { self.old.counts.points + self.old.counts.outside + 1 < 2 ^ 64 }
        requires from { All (IsFrom self.old.sender) self.old.parts.items }
        ensures read { OnOk result ((t : Tally) → HasRead self.old t
            → HasRead self.new (add_point point t)) }
        ensures from { OnOk result (All (IsFrom self.new.sender) self.new.parts.items) }
        ensures sender { self.new.sender ≡ self.old.sender }
        ensures window { self.new.window ≡ self.old.window }
        ensures books { length self.new.parts.items ≡ length self.old.parts.items }
        ensures more { self.new.counts.points + self.new.counts.outside
            ≤ self.old.counts.points + self.old.counts.outside + 1 }
    {
        let Some(point) = point else {
            self.counts.foreign = self.counts.foreign.saturating_add(1);
            return Ok(());
        };
        if !self.window.has(&point) {
            self.counts.outside += 1;
            return Ok(());
        }
        let place = self.counts.points as usize;
        put_home(
            self.alloc,
            &mut self.parts,
            &self.sender,
            home,
            point,
            place,
            self.room,
        )?;
        self.counts.points += 1;
        Ok(())
    }

    /// How many books there are.
    pub fn books(&self) -> usize
        ensures { result ≡ length self.now.parts.items }
    {
        self.parts.len()
    }

    /// The parts, or none if there are no points.
    pub fn into_parts(self) -> Vec<Option<Part>>
        requires { All (IsFrom self.sender) self.parts.items }
        ensures { (t : Tally) → HasRead self t → AreParts (length self.parts.items) self.sender
            (within self.window t.points) result.items }
    {
        let Draft {
            alloc,
            sender: _,
            window: _,
            parts,
            counts,
            room: _,
        } = self;
        if counts.points == 0 {
            return Vec::new(alloc);
        }
        parts
    }
}
