//! Reads posts. A reader has no lock: each thread has one of its own.
ghost use Rattle.std.specs.Prelude.{◌≡◌, ◌<◌, [], None, IfOk, IfErr, OnErr, IfSome, IfNone};
ghost use Rattle.std.specs.List.{All};
ghost use Rattle.metric_events.specs.Senders.{name_fault};
ghost use Rattle.otlp_read.specs.Tallies.{tally};
ghost use Rattle.book_desk.specs.inner.Opened.{HasPoints};
ghost use Rattle.book_desk.specs.inner.Faults as faults;
ghost use Rattle.book_desk.specs.EndRanges.{IsRangeOf, ends_of};
ghost use Rattle.book_desk.specs.Naming.{Extends};
ghost use Rattle.book_desk.specs.Reads.{IsRead, IsUnread, IsReadBytes, IsUnreadBytes};
ghost use Rattle.book_desk.specs.Reads.{IsPut, IsNotPut, IsKept};
ghost use Rattle.book_desk.specs.Said.{ArePartsSaid};

use crate::by_number::{PutFault, draft_said};
use crate::draft::Counts;
use crate::draft_of::draft_of;
use crate::end_range::{EndRange, end_range};
use crate::names::Names;
use crate::part::Part;
use crate::said::words_said;
use crate::window::Window;
use json_points::{Kept, read_request_with};
use metric_events::sender_name::{NameFault, SenderName};
use otlp_protobuf::Malformed;
use otlp_read::{ReadFault, Reading};
use std::alloc::{AllocError, Global};
use std::marker::Model;
use std::mem;

/// Why a post is not read.
#[derive(Clone, Copy, Debug, PartialEq, Eq)]
pub enum PostFault {
    /// The sender has no name of 1 to 64 bytes of `A-Z a-z 0-9 . _ -`.
    BadSender,
    /// The body is no JSON.
    NotJson,
    /// A container of the body has the wrong type.
    WrongShape,
    NoMemory,
}

/// Why a post in protobuf is not read.
#[derive(Clone, Copy, Debug, PartialEq, Eq)]
pub enum BytesFault {
    /// The sender has no name of 1 to 64 bytes of `A-Z a-z 0-9 . _ -`.
    BadSender,
    /// The bytes are no request. `Malformed` is their first fault.
    Malformed(Malformed),
    NoMemory,
}

/// Identities that were read, and the post that was read last, in parts: one for each book, or none
/// if the post has no points. Contracts see the parts.
#[derive(Drop)]
pub struct Reader {
    alloc: Global,
    kept: Kept,
    kept_bytes: otlp_protobuf::Kept,
    parts: Vec<Option<Part>>,
}

impl Model for Reader {
    ghost use Rattle.std.specs.Prelude.{List, Option};
    ghost use Rattle.std.specs.List.{All};
    ghost use Rattle.book_desk.specs.declared.part.Part.{Part};
    ghost use Rattle.book_desk.specs.inner.Opened.{HasPoints};

    ghost Value = { List (Option Part) };

    ghost view = { λ r. r.parts.items };

    ghost invariant = { λ r. All HasPoints r.parts.items };
}

fn sender_fault(fault: NameFault) -> PostFault
    ensures { result ≡ faults.sender_fault fault }
{
    match fault {
        NameFault::NoMemory => PostFault::NoMemory,
        _ => PostFault::BadSender,
    }
}

fn body_fault(fault: ReadFault) -> PostFault
    ensures { result ≡ faults.body_fault fault }
{
    match fault {
        ReadFault::NotJson => PostFault::NotJson,
        ReadFault::WrongShape(_) => PostFault::WrongShape,
        ReadFault::NoMemory => PostFault::NoMemory,
    }
}

/// The same of a post in protobuf.
fn bytes_sender_fault(fault: NameFault) -> BytesFault
    ensures { result ≡ faults.bytes_sender_fault fault }
{
    match fault {
        NameFault::NoMemory => BytesFault::NoMemory,
        _ => BytesFault::BadSender,
    }
}

fn bytes_fault(fault: otlp_protobuf::ReadFault) -> BytesFault
    ensures { result ≡ faults.bytes_fault fault }
{
    match fault {
        otlp_protobuf::ReadFault::Malformed(why) => BytesFault::Malformed(why),
        otlp_protobuf::ReadFault::NoMemory => BytesFault::NoMemory,
    }
}

/// The same of points by number.
fn put_sender_fault(fault: NameFault) -> PutFault
    ensures { result ≡ faults.put_fault fault }
{
    match fault {
        NameFault::NoMemory => PutFault::NoMemory,
        _ => PutFault::BadSender,
    }
}

impl Reader {
    /// A reader that has read nothing. Takes no memory.
    pub fn new(alloc: Global) -> Reader
        ensures { result ≡ [] }
    {
        Reader {
            alloc,
            kept: Kept::new(alloc),
            kept_bytes: otlp_protobuf::Kept::new(alloc),
            parts: Vec::new(alloc),
        }
    }

    /// Reads a post and splits its points that end within the window into parts, one for each of so
    /// many books. What was read before is gone, also if the post can't be read.
    pub fn read(
        &mut self,
        sender: &[u8],
        body: &[u8],
        books: usize,
        window: Window,
    ) -> Result<Counts, PostFault>
        requires { 0 < books }
        ensures read { IfOk result (λ counts. IsRead sender.now body.now books window counts
            self.new) }
        ensures fault { IfErr result (λ e. IsUnread sender.now body.now e) }
        ensures none { OnErr result (self.new ≡ []) }
    {
        self.parts = Vec::new(self.alloc);
        let sender = match SenderName::new(self.alloc, sender) {
            Ok(sender) => sender,
            Err(fault) => return Err(sender_fault(fault)),
        };
        let reading = match read_request_with(self.alloc, body, &mut self.kept) {
            Ok(reading) => reading,
            Err(fault) => return Err(body_fault(fault)),
        };
        let Ok(counts) = self.keep(sender, &reading, books, window) else {
            return Err(PostFault::NoMemory);
        };
        Ok(counts)
    }

    /// As `read`, of a body in protobuf.
    pub fn read_protobuf(
        &mut self,
        sender: &[u8],
        body: &[u8],
        books: usize,
        window: Window,
    ) -> Result<Counts, BytesFault>
        requires { 0 < books }
        ensures read { IfOk result (λ counts. IsReadBytes sender.now body.now books window counts
            self.new) }
        ensures fault { IfErr result (λ e. IsUnreadBytes sender.now body.now e) }
        ensures none { OnErr result (self.new ≡ []) }
    {
        self.parts = Vec::new(self.alloc);
        let sender = match SenderName::new(self.alloc, sender) {
            Ok(sender) => sender,
            Err(fault) => return Err(bytes_sender_fault(fault)),
        };
        let reading = match otlp_protobuf::read_request_with(
            self.alloc,
            body,
            &mut self.kept_bytes,
        ) {
            Ok(reading) => reading,
            Err(fault) => return Err(bytes_fault(fault)),
        };
        let Ok(counts) = self.keep(sender, &reading, books, window) else {
            return Err(BytesFault::NoMemory);
        };
        Ok(counts)
    }

    /// Keeps what was read of a sender, split into parts.
    fn keep(
        &mut self,
        sender: SenderName,
        reading: &Reading,
        books: usize,
        window: Window,
    ) -> Result<Counts, AllocError>
        requires books { 0 < books }
        requires named { name_fault sender ≡ None }
        ensures kept { IfOk result (λ counts. IsKept books sender window (tally reading.now) counts
            self.new) }
        ensures same { OnErr result (self.new ≡ self.old) }
    {
        let points = reading.points.as_slice();
        let Ok(draft) = draft_of(self.alloc, sender, points, books, window) else {
            return Err(AllocError);
        };
        let mut counts = draft.counts;
        counts.foreign = reading.foreign;
        self.parts = draft.into_parts();
        Ok(counts)
    }

    /// As `read`, of points by number: their series are among the names, and the words say them in
    /// turn (`specs/Words`). They share the identities of the names.
    pub fn put(
        &mut self,
        names: &Names,
        sender: &[u8],
        words: &[u64],
        books: usize,
        window: Window,
    ) -> Result<Counts, PutFault>
        requires { 0 < books }
        ensures put { IfOk result (λ counts. IsPut names.now sender.now words.now books window
            counts self.new) }
        ensures fault { IfErr result (λ e. IsNotPut names.now sender.now words.now e) }
        ensures none { OnErr result (self.new ≡ []) }
    {
        self.parts = Vec::new(self.alloc);
        let sender = match SenderName::new(self.alloc, sender) {
            Ok(sender) => sender,
            Err(fault) => return Err(put_sender_fault(fault)),
        };
        let draft = match draft_said(self.alloc, sender, names, words, books, window) {
            Ok(draft) => draft,
            Err(fault) => return Err(fault),
        };
        let counts = draft.counts;
        self.parts = draft.into_parts();
        Ok(counts)
    }

    /// The least and the greatest time at which a point ends of those that it has; none where it
    /// has no points.
    pub fn ends(&self) -> Option<EndRange>
        ensures range { IfSome result (λ range. IsRangeOf (ends_of self.now) range) }
        ensures none { IfNone result (ends_of self.now ≡ []) }
    {
        end_range(&self.parts)
    }

    /// The words that say the points that it has, part after part, as `put` takes them. A series
    /// that has no number gets the next one, and keeps it also if memory runs out.
    pub fn words(&self, names: &mut Names) -> Result<Vec<u64>, AllocError>
        ensures said { IfOk result (λ words. ArePartsSaid names.new words.items self.now) }
        ensures more { Extends names.old names.new }
    {
        words_said(self.alloc, self.parts(), names)
    }

    /// The parts.
    pub(crate) fn parts(&self) -> &[Option<Part>]
        ensures { result.now ≡ self.now }
    {
        self.parts.as_slice()
    }

    /// The parts, which are gone from the reader then.
    pub(crate) fn take_parts(&mut self) -> Vec<Option<Part>>
        ensures parts { result.items ≡ self.old }
        ensures points { All HasPoints result.items }
        ensures gone { self.new ≡ [] }
    {
        mem::replace(&mut self.parts, Vec::new(self.alloc))
    }
}
