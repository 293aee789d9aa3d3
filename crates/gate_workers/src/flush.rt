//! A flush turn, and its exchange with the back end.
ghost use Rattle.std.specs.Prelude.{ℕ, List, ◌≤◌, length, ◌<◌, ◌^◌};
ghost use Rattle.back_answers.specs.declared.answer.Answer.{Answer};
ghost use Rattle.gate_workers.specs.Turns.{IsTurn, IsClosing};
ghost use Rattle.gate_workers.specs.Paced.{IsTurnPaced};
ghost use Rattle.http_edge.specs.Sent.{Sent, Failed};
ghost use Rattle.http_edge.specs.Texts.{post_text};
ghost use Rattle.http_edge.specs.declared.written.Written.{Written};
ghost use Rattle.gate_workers.specs.Exchanged.{IsAnswered};

use crate::store::Store;
use crate::worker::{Pace, Spot};
use back_answers::{Act, Answer, act, classify};
use byte_ends::{Sink, Source};
use delta_book::faults::TakeFault;
use http_edge::{MAX_HEAD, Written, read_response, write_post};
use metric_events::limits::MAX_TAKEN;
use out_texts::request_text;
use std::alloc::Global;

/// The result of a flush turn.
#[derive(Clone, Copy, Debug, PartialEq, Eq)]
pub enum Turn {
    /// There was nothing to take.
    Idle,
    /// Too many flushes were live, or the journal was full.
    Full,
    /// Out of memory: no flush was taken, or it was given back before it was sent.
    NoMemory,
    /// A flush of so many points was sent. It ended by the act of the answer.
    Done {
        flush: u64,
        points: u64,
        answer: Answer,
        act: Act,
    },
}

/// The way to the back end.
pub trait Uplink {
    /// What a request is sent with: what the pace gave when it was asked.
    type Pass;

    /// How a call with its bytes and its answer changes the uplink.
    ghost sends: { Self → List ℕ → Answer → Self → Type 0 };

    /// Sends a request's body, and returns the class of the answer.
    fn send(&mut self, pass: Self::Pass, bytes: &[u8]) -> Answer
        ensures { sends self.old bytes.now result self.new };
}

/// Ends a flush by the act. Where it is not live, nothing changes.
fn end_flush<K: Store>(keeper: &mut K, flush: u64, by: Act)
    ensures { IsClosing K.gives by flush keeper.old keeper.new }
{
    match by {
        Act::Settle => {
            let _ = keeper.settle(flush);
        }
        Act::GiveBack => {
            let _ = keeper.give_back(flush);
        }
        Act::DropFlush => {
            let _ = keeper.drop_flush(flush);
        }
    }
}

/// Takes a flush, asks the pace, sends the flush, and ends it by the answer. Without memory for its
/// text it is given back. That the pace is asked first the types say: what it gives is what the
/// flush is sent with.
pub fn flush_turn<T: Drop, K: Store, U: Uplink<Pass = T>, P: Pace<Pass = T>>(
    alloc: Global,
    keeper: &mut K,
    uplink: &mut U,
    pace: &mut P,
    max: usize,
) -> Turn
    requires low { 1 ≤ max }
    requires high { max ≤ MAX_TAKEN }
    ensures turn { IsTurn K.gives U.sends max keeper.old keeper.new uplink.old uplink.new result }
    ensures paced { IsTurnPaced P.reaches pace.old pace.new result }
{
    let flush = match keeper.take(max) {
        Ok(None) => return Turn::Idle,
        Err(TakeFault::Full) => return Turn::Full,
        Err(TakeFault::NoMemory) => return Turn::NoMemory,
        Ok(Some(flush)) => flush,
    };
    let Ok(text) = request_text(alloc, &flush) else {
        end_flush(keeper, flush.number, Act::GiveBack);
        return Turn::NoMemory;
    };
    let pass = pace.at(Spot::BeforeSend);
    let answer = uplink.send(pass, text.as_slice());
    let by = act(answer);
    end_flush(keeper, flush.number, by);
    Turn::Done {
        flush: flush.number,
        points: flush.points.as_slice().len() as u64,
        answer,
        act: by,
    }
}

/// Posts the body, and reads the head of the answer. No read follows the one that completes it or
/// shows that none can come. The answer is Unknown unless the whole request was written and a head
/// was read, and no memory is taken: so a request that was answered is Unknown only where a call
/// failed or no head came.
pub fn exchange<S: Source, W: Sink>(
    reader: &mut S,
    writer: &mut W,
    host: &str,
    body: &[u8],
) -> Answer
    requires { length host.now < 2 ^ 32 }
    ensures { (written : Written)
        × Sent (W.contents writer.old) (W.contents writer.new) (post_text host.now body.now) written
        × Failed W.one_more (W.failures writer.old) (W.failures writer.new) written
        × IsAnswered (S.remaining reader.old) (S.remaining reader.new) (S.given reader.new)
        S.one_more (S.failures reader.old) (S.failures reader.new) written result }
{
    match write_post(writer, host, body) {
        Written::All => {}
        Written::None_ => return Answer::Unknown,
        Written::Part(_) => return Answer::Unknown,
    }
    let mut head = [0u8; MAX_HEAD];
    match read_response(reader, &mut head) {
        Err(_) => Answer::Unknown,
        Ok(reply) => classify(reply.status, reply.retry_after),
    }
}
