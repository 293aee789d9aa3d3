//! The machine that reads a message from pieces of its bytes.
ghost use Rattle.std.specs.Prelude.{◌≡◌, ◌≢◌, ◌+◌, ◌≤◌, ◌<◌, ◌++◌, List, ℕ, Some, None, Ok, Err};
ghost use Rattle.std.specs.Prelude.{[], length, true, IfOk, IfErr};
ghost use Rattle.std.specs.Result.{result_err};
ghost use Rattle.http_edge.specs.Form.{IsAnswer, Gives};
ghost use Rattle.http_edge.specs.Answer.{Fails, request_form};
ghost use Rattle.httparse.specs.Grammar.{RequestHead, HasNoRequest};
ghost use Rattle.http_edge.specs.Message.{IsHeadAt};
ghost use Rattle.http_edge.specs.Reading.{NotYet, message_of};
ghost use Rattle.http_edge.specs.Body.{is_whole, IsOpen};
ghost use Rattle.http_edge.specs.inner.Body.{body_state, Reaches, Refuses};
ghost use Rattle.http_edge.specs.Holds.{fault_in, content_in, kept_len, IsSound, Holds};
ghost use Rattle.http_edge.specs.inner.Holds.{progress_of, start, TakesHead, IsFed, IsFramed};
ghost use Rattle.http_edge.specs.inner.Holds.{Starts};

use crate::body::Body;
use crate::fault::HttpFault;
use crate::framing::{Framing, frame};
use crate::head::look_for_head;
use crate::limits::{MAX_FIELDS, MAX_HEAD, MAX_TRAILER};
use crate::phase::Phase;
use crate::request::{Request, request_of};
use httparse::spans::EMPTY_HEADER_SPAN;
use std::alloc::Global;
use std::mem;

/// How far a message was read.
#[derive(Drop)]
pub enum Machine {
    /// The bytes of the head so far, or none.
    InHead(Vec<u8>),
    /// The head, and its body so far.
    InBody(Vec<u8>, Body),
    /// It failed, and each later call returns the fault again.
    Failed(HttpFault),
}

impl Machine {
    /// Before the first byte.
    pub fn new(alloc: Global) -> Self
        ensures { progress_of result ≡ start }
    {
        Machine::InHead(Vec::new(alloc))
    }

    /// Takes the next piece, and does not yet keep the fault that it returns.
    fn advance(&mut self, alloc: Global, piece: &[u8]) -> Result<bool, HttpFault>
        requires { IsSound (progress_of self.old) }
        ensures { IsFed (progress_of self.old) (progress_of self.new) piece.now result }
    {
        match self {
            Machine::InHead(head) => {
                let Some((n, framing)) = take_head(head, piece)? else {
                    return Ok(false);
                };
                let mut body = empty_body(alloc, framing);
                let done = take_body(&mut body, &piece[n..])?;
                let whole = mem::replace(head, Vec::new(alloc));
                *self = Machine::InBody(whole, body);
                Ok(done)
            }
            Machine::InBody(_, body) => take_body(body, piece),
            Machine::Failed(fault) => Err(*fault),
        }
    }

    /// Takes the next piece, and returns whether the message is whole.
    pub fn feed(&mut self, alloc: Global, piece: &[u8]) -> Result<bool, HttpFault>
        requires { IsSound (progress_of self.old) }
        ensures fed { IsFed (progress_of self.old) (progress_of self.new) piece.now result }
        ensures sound { IsSound (progress_of self.new) }
        ensures fault_is { fault_in (progress_of self.new) ≡ result_err result }
    {
        match self.advance(alloc, piece) {
            Ok(done) => Ok(done),
            Err(fault) => {
                *self = Machine::Failed(fault);
                Err(fault)
            }
        }
    }

    /// The request, where the bytes end here.
    pub fn finish(self, alloc: Global) -> Result<Request, HttpFault>
        requires { IsSound (progress_of self) }
        ensures answers { (bytes : List ℕ) → Holds (progress_of self) bytes
            → IsAnswer request_form bytes result }
        ensures again { (e : HttpFault) → fault_in (progress_of self) ≡ Some e → result ≡ Err e }
        ensures closed { Holds (progress_of self) [] → fault_in (progress_of self) ≡ None
            → result ≡ Err HttpFault.Closed }
        ensures cut { (bytes : List ℕ) →
            Holds (progress_of self) bytes → fault_in (progress_of self) ≡ None
            → bytes ≢ [] → NotYet bytes → result ≡ Err HttpFault.Truncated }
    {
        match self {
            Machine::Failed(fault) => Err(fault),
            Machine::InHead(head) => {
                if head.is_empty() {
                    return Err(HttpFault::Closed);
                }
                Err(HttpFault::Truncated)
            }
            Machine::InBody(head, body) => {
                if !body.is_whole() {
                    return Err(HttpFault::Truncated);
                }
                whole_request(alloc, &head, body.content)
            }
        }
    }

    /// How many bytes are kept.
    pub fn held(&self) -> usize
        requires { IsSound (progress_of self.now) }
        ensures all { result ≡ kept_len (progress_of self.now) }
        ensures small { result
            ≤ length (content_in (progress_of self.now)) + (MAX_HEAD + MAX_TRAILER) }
    {
        match self {
            Machine::InHead(head) => head.len(),
            Machine::InBody(head, body) => head.len() + body.content.len() + body.part.len(),
            Machine::Failed(_) => 0,
        }
    }
}

/// Takes some bytes of the head. Where it ends in the piece, returns how many of them are of the
/// head, and how the head frames its body.
fn take_head(head: &mut Vec<u8>, piece: &[u8]) -> Result<Option<(usize, Framing)>, HttpFault>
    requires short { length head.old.items < MAX_HEAD }
    requires none { HasNoRequest head.old.items }
    ensures ok { IfOk result (TakesHead head.old.items head.new.items piece.now) }
    ensures fault { IfErr result (λ e. Fails e (head.old.items ++ piece.now)) }
{
    let had = head.len();
    let n = piece.len().min(MAX_HEAD - had);
    head.extend_from_slice(&piece[..n])?;
    let mut spans = [EMPTY_HEADER_SPAN; MAX_FIELDS];
    let Some(found) = look_for_head(head, &mut spans)? else {
        return Ok(None);
    };
    let framing = frame(head, &spans[..found.headers], found.version)?;
    head.truncate(found.len);
    Ok(Some((found.len - had, framing)))
}

/// A body of that framing, of which nothing was read.
fn empty_body(alloc: Global, framing: Framing) -> Body
    requires { IsFramed framing }
    ensures { Starts framing (body_state result) }
{
    Body {
        content: Vec::new(alloc),
        part: Vec::new(alloc),
        phase: first_phase(framing),
    }
}

/// The first phase of a body of that framing.
fn first_phase(framing: Framing) -> Phase
    requires { IsFramed framing }
    ensures { Starts framing (record { phase = result; content = []; part = [] }) }
{
    match framing {
        Framing::Chunked => Phase::Line,
        Framing::Sized(n) => {
            if n == 0 {
                return Phase::Whole;
            }
            Phase::Counted(n)
        }
    }
}

/// Takes bytes behind the head. Bytes behind a whole message are not looked at.
fn take_body(body: &mut Body, piece: &[u8]) -> Result<bool, HttpFault>
    requires { IsOpen (body_state body.old) }
    ensures ok { IfOk result (λ done.
        Reaches (body_state body.old) (body_state body.new) piece.now
        × (done ≡ is_whole body.new.phase)) }
    ensures fault { IfErr result (λ e. Refuses e (body_state body.old) piece.now) }
    ensures whole { is_whole body.old.phase ≡ true →
        (result ≡ Ok true) × (body_state body.new ≡ body_state body.old) }
{
    if body.is_whole() {
        return Ok(true);
    }
    body.feed(piece)?;
    Ok(body.is_whole())
}

/// The request of a head that was read before, and of that body.
fn whole_request(alloc: Global, head: &[u8], content: Vec<u8>) -> Result<Request, HttpFault>
    requires { length head.now ≤ MAX_HEAD }
    ensures { (k : RequestHead) →
        IsHeadAt head.now k [] → Gives request_form (message_of k content.items) result }
{
    let mut spans = [EMPTY_HEADER_SPAN; MAX_FIELDS];
    match look_for_head(head, &mut spans) {
        Ok(Some(found)) => Ok(request_of(alloc, head, &spans, found, content)?),
        Ok(None) => Err(HttpFault::BadHead),
        Err(fault) => Err(fault),
    }
}
