//! A decoder of a message that comes in pieces.
ghost use Rattle.std.specs.Prelude.{◌≡◌, ◌≢◌, ◌+◌, ◌≤◌, ◌++◌, List, ℕ, Some, None, Ok, Err};
ghost use Rattle.std.specs.Prelude.{[], length, true, false};
ghost use Rattle.std.specs.Result.{result_err};
ghost use Rattle.http_edge.specs.Message.{Message};
ghost use Rattle.http_edge.specs.Reading.{BeginsWith, NotYet};
ghost use Rattle.http_edge.specs.Form.{IsAnswer};
ghost use Rattle.http_edge.specs.Answer.{Reports, request_form};
ghost use Rattle.http_edge.specs.Holds.{fault_in, content_in, kept_len, Holds};
ghost use Rattle.http_edge.specs.Holds.{most_to_come, most_of_a_message};

use crate::fault::HttpFault;
use crate::limits::{MAX_HEAD, MAX_TRAILER};
use crate::machine::Machine;
use crate::request::Request;
use std::alloc::Global;
use std::marker::Model;

/// A decoder of one request. It is fed the message's bytes in pieces of any lengths and reads each
/// byte of a body once. It keeps the bytes of the head, the content of the body so far, and of a
/// chunked body the part so far of a size line or of the trailer section. After a fault it keeps
/// nothing.
#[derive(Drop)]
pub struct Decoder {
    alloc: Global,
    machine: Machine,
}

impl Model for Decoder {
    ghost use Rattle.http_edge.specs.Holds.{Progress, IsSound};
    ghost use Rattle.http_edge.specs.inner.Holds.{progress_of};

    ghost Value = { Progress };

    ghost view = { λ d. progress_of d.machine };

    ghost invariant = { λ d. IsSound (progress_of d.machine) };
}

impl Decoder {
    /// A decoder that was fed nothing. It allocates nothing.
    pub fn new(alloc: Global) -> Self
        ensures nothing { Holds result [] }
        ensures fine { fault_in result ≡ None }
    {
        Decoder {
            alloc,
            machine: Machine::new(alloc),
        }
    }

    /// Feeds the next piece, and returns whether the message is whole; bytes behind it are thrown
    /// away. A fault other than NoMemory comes only where no bytes that begin with those that were
    /// fed have a message. NoMemory comes where an allocation failed, and the bytes are lost; once
    /// the message is whole no call returns it. After a fault each later call returns it again.
    pub fn feed(&mut self, piece: &[u8]) -> Result<bool, HttpFault>
        ensures holds { (bytes : List ℕ) →
            Holds self.old bytes → Holds self.new (bytes ++ piece.now) }
        ensures reports { (bytes : List ℕ) →
            Holds self.old bytes → Reports (bytes ++ piece.now) result }
        ensures fault { fault_in self.new ≡ result_err result }
        ensures again { (e : HttpFault) → fault_in self.old ≡ Some e → result ≡ Err e }
        // Once the message is whole, it stays as it is.
        ensures whole { (bytes : List ℕ) (m : Message) →
            Holds self.old bytes → fault_in self.old ≡ None → BeginsWith bytes m
            → (result ≡ Ok true) × (self.new ≡ self.old) }
        // However long the pieces go on, they end.
        ensures bounded { (bytes : List ℕ) →
            Holds self.old bytes → result ≡ Ok false
            → length (bytes ++ piece.now) ≤ most_of_a_message }
        // Less is to come behind each piece.
        ensures less { result ≡ Ok false →
            most_to_come self.new + length piece.now ≤ most_to_come self.old }
    {
        self.machine.feed(self.alloc, piece)
    }

    /// How many bytes it keeps: at most 32,768 more than the decoded body so far. It allocates
    /// nothing.
    pub fn held(&self) -> usize
        ensures all { result ≡ kept_len self.now }
        ensures small { result ≤ length (content_in self.now) + (MAX_HEAD + MAX_TRAILER) }
    {
        self.machine.held()
    }

    /// The request, where the bytes end here: Closed where there were none, Truncated where a
    /// message could still come, and the fault of an earlier call again. NoMemory comes where an
    /// allocation for the request failed.
    pub fn finish(self) -> Result<Request, HttpFault>
        ensures answers { (bytes : List ℕ) → Holds self bytes → IsAnswer request_form bytes result }
        ensures closed { Holds self [] → fault_in self ≡ None → result ≡ Err HttpFault.Closed }
        ensures cut { (bytes : List ℕ) →
            Holds self bytes → fault_in self ≡ None → bytes ≢ [] → NotYet bytes
            → result ≡ Err HttpFault.Truncated }
        ensures again { (e : HttpFault) → fault_in self ≡ Some e → result ≡ Err e }
    {
        let Decoder { alloc, machine } = self;
        machine.finish(alloc)
    }
}
