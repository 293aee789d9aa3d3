//! A body that is being read (RFC 9112, sections 6 and 7).
ghost use Rattle.std.specs.Prelude.{◌≡◌, ◌<◌, ◌≤◌, length, IfErr, OnOk};
ghost use Rattle.http_edge.specs.Body.{is_whole, IsOpen};
ghost use Rattle.http_edge.specs.inner.Body.{body_state, Reaches, Refuses, IsStep};

use crate::fault::HttpFault;
use crate::limits::{MAX_BODY, MAX_FIELDS, MAX_LINE, MAX_TRAILER};
use crate::phase::Phase;
use httparse::spans::{EMPTY_HEADER_SPAN, parse_headers};
use httparse::{Status, parse_chunk_size};

/// A body that is being read: the content so far, and the part so far of a size line or of a
/// trailer section.
#[derive(Drop)]
pub struct Body {
    pub content: Vec<u8>,
    pub part: Vec<u8>,
    pub phase: Phase,
}

/// How many of the bytes to look at for a line: those up to its line feed, and no more than there
/// is room for.
fn line_len(bytes: &[u8], room: usize) -> usize
    requires some { 0 < length bytes.now }
    requires room { 0 < room }
    ensures some { 0 < result }
    ensures within { result ≤ length bytes.now }
    ensures fits { result ≤ room }
{
    let line = match bytes.iter().position(|b| *b == b'\n') {
        Some(at) => at + 1,
        None => bytes.len(),
    };
    line.min(room)
}

impl Body {
    /// Takes some bytes of a body of a known length (RFC 9112, section 6.2), `left` of which are to
    /// come.
    fn take_counted(&mut self, left: usize, piece: &[u8]) -> Result<usize, HttpFault>
        requires phase { self.old.phase ≡ Phase.Counted left }
        requires is_open { IsOpen (body_state self.old) }
        requires some { 0 < length piece.now }
        ensures { IsStep (body_state self.old) (body_state self.new) piece.now result }
    {
        let n = left.min(piece.len());
        self.content.extend_from_slice(&piece[..n])?;
        if n == left {
            self.phase = Phase::Whole;
            return Ok(n);
        }
        self.phase = Phase::Counted(left - n);
        Ok(n)
    }

    /// Takes some bytes of a chunk (RFC 9112, section 7.1), `left` of which are to come.
    fn take_content(&mut self, left: usize, piece: &[u8]) -> Result<usize, HttpFault>
        requires phase { self.old.phase ≡ Phase.Content left }
        requires is_open { IsOpen (body_state self.old) }
        requires some { 0 < length piece.now }
        ensures { IsStep (body_state self.old) (body_state self.new) piece.now result }
    {
        let n = left.min(piece.len());
        self.content.extend_from_slice(&piece[..n])?;
        if n == left {
            self.phase = Phase::Return;
            return Ok(n);
        }
        self.phase = Phase::Content(left - n);
        Ok(n)
    }

    /// Takes the carriage return behind a chunk.
    fn take_return(&mut self, piece: &[u8]) -> Result<usize, HttpFault>
        requires phase { self.old.phase ≡ Phase.Return }
        requires is_open { IsOpen (body_state self.old) }
        requires some { 0 < length piece.now }
        ensures { IsStep (body_state self.old) (body_state self.new) piece.now result }
    {
        if piece[0] != b'\r' {
            return Err(HttpFault::BadChunk);
        }
        self.phase = Phase::LineFeed;
        Ok(1)
    }

    /// Takes the line feed behind a chunk.
    fn take_line_feed(&mut self, piece: &[u8]) -> Result<usize, HttpFault>
        requires phase { self.old.phase ≡ Phase.LineFeed }
        requires is_open { IsOpen (body_state self.old) }
        requires some { 0 < length piece.now }
        ensures { IsStep (body_state self.old) (body_state self.new) piece.now result }
    {
        if piece[0] != b'\n' {
            return Err(HttpFault::BadChunk);
        }
        self.part.clear();
        self.phase = Phase::Line;
        Ok(1)
    }

    /// Takes a size line, or some bytes of one (RFC 9112, section 7.1).
    fn take_line(&mut self, piece: &[u8]) -> Result<usize, HttpFault>
        requires phase { self.old.phase ≡ Phase.Line }
        requires is_open { IsOpen (body_state self.old) }
        requires some { 0 < length piece.now }
        ensures { IsStep (body_state self.old) (body_state self.new) piece.now result }
    {
        let had = self.part.len();
        let n = line_len(piece, MAX_LINE - had);
        self.part.extend_from_slice(&piece[..n])?;
        match parse_chunk_size(&self.part) {
            Ok(Status::Complete((len, size))) => {
                let taken = len - had;
                self.part.clear();
                if size == 0 {
                    self.phase = Phase::Trailer;
                    return Ok(taken);
                }
                if size > (MAX_BODY - self.content.len()) as u64 {
                    return Err(HttpFault::BodyTooLong);
                }
                self.phase = Phase::Content(size as usize);
                Ok(taken)
            }
            Ok(Status::Partial) => {
                if self.part.len() >= MAX_LINE {
                    return Err(HttpFault::BadChunk);
                }
                Ok(n)
            }
            Err(_) => Err(HttpFault::BadChunk),
        }
    }

    /// Takes the trailer section, which is thrown away, or some bytes of it (RFC 9112, section
    /// 7.1.2).
    fn take_trailer(&mut self, piece: &[u8]) -> Result<usize, HttpFault>
        requires phase { self.old.phase ≡ Phase.Trailer }
        requires is_open { IsOpen (body_state self.old) }
        requires some { 0 < length piece.now }
        ensures { IsStep (body_state self.old) (body_state self.new) piece.now result }
    {
        let n = piece.len().min(MAX_TRAILER - self.part.len());
        self.part.extend_from_slice(&piece[..n])?;
        let mut spans = [EMPTY_HEADER_SPAN; MAX_FIELDS];
        match parse_headers(&self.part, &mut spans) {
            Ok(Status::Complete(_)) => {
                self.part.clear();
                self.phase = Phase::Whole;
                Ok(piece.len())
            }
            Ok(Status::Partial) => {
                if self.part.len() >= MAX_TRAILER {
                    return Err(HttpFault::BadChunk);
                }
                Ok(n)
            }
            Err(_) => Err(HttpFault::BadChunk),
        }
    }

    /// Takes some bytes of whatever the phase asks for.
    fn step(&mut self, piece: &[u8]) -> Result<usize, HttpFault>
        requires is_open { IsOpen (body_state self.old) }
        requires some { 0 < length piece.now }
        ensures { IsStep (body_state self.old) (body_state self.new) piece.now result }
    {
        match self.phase {
            Phase::Counted(left) => self.take_counted(left, piece),
            Phase::Line => self.take_line(piece),
            Phase::Content(left) => self.take_content(left, piece),
            Phase::Return => self.take_return(piece),
            Phase::LineFeed => self.take_line_feed(piece),
            Phase::Trailer => self.take_trailer(piece),
            Phase::Whole => Ok(piece.len()),
        }
    }

    /// Takes a piece. Bytes behind the body are thrown away.
    pub fn feed(&mut self, piece: &[u8]) -> Result<(), HttpFault>
        requires { IsOpen (body_state self.old) }
        ensures reaches { OnOk result
            (Reaches (body_state self.old) (body_state self.new) piece.now) }
        ensures fault { IfErr result (λ e. Refuses e (body_state self.old) piece.now) }
    {
        let mut at = 0;
        'steps: while at < piece.len() {
            at += self.step(&piece[at..])?;
        }
        Ok(())
    }

    /// The body is whole.
    pub fn is_whole(&self) -> bool
        ensures { result ≡ is_whole self.now.phase }
    {
        matches!(self.phase, Phase::Whole)
    }
}
