//! Laws of messages and of the answers about them.
ghost use Rattle.std.specs.Prelude.{◌≡◌, ◌≢◌, ◌++◌, List, ℕ, [], Result};
ghost use Rattle.http_edge.specs.declared.fault.HttpFault.{HttpFault};
ghost use Rattle.http_edge.specs.declared.request.Request.{Request};
ghost use Rattle.http_edge.specs.Message.{Message};
ghost use Rattle.http_edge.specs.Reading.{BeginsWith, IsTooLong};
ghost use Rattle.http_edge.specs.Form.{IsAnswer, Gives, Delivers, IsClosed};
ghost use Rattle.http_edge.specs.Answer.{Fails, request_form, ReportsTooLong};
ghost use Rattle.http_edge.specs.declared.reply.Reply.{Reply};
ghost use Rattle.http_edge.specs.Delivery.{Says, ReportsSize};
ghost use Rattle.http_edge.specs.Reply.{ReplyHead, BeginsWithReply, reply_form, SaysReply};

/// Bytes begin with at most one message, and not also with one that is too long; either has a byte.
pub fn one_message()
    ensures unique { (buf : List ℕ) (m n : Message) →
        BeginsWith buf m → BeginsWith buf n → m ≡ n }
    ensures exclusive { (buf : List ℕ) (m : Message) → BeginsWith buf m → ¬ (IsTooLong buf) }
    ensures some { (buf : List ℕ) (m : Message) → BeginsWith buf m → buf ≢ [] }
    ensures some_too_long { (buf : List ℕ) → IsTooLong buf → buf ≢ [] }
{}

/// Where bytes begin with a message, it is the answer, and where a size is the first thing that is
/// wrong behind the head, BodyTooLong is; unless memory ran out.
pub fn one_answer()
    ensures message { (bytes : List ℕ) (m : Message) (r : Result Request HttpFault) →
        IsAnswer request_form bytes r → BeginsWith bytes m → Gives request_form m r }
    ensures too_long { (bytes : List ℕ) (r : Result Request HttpFault) →
        IsAnswer request_form bytes r → IsTooLong bytes → ReportsTooLong r }
{}

/// What a reading of all the bytes of a source says, unless a call failed or memory ran out: the
/// message where they begin with one, BodyTooLong where the size is the first thing that is wrong,
/// and Closed where there is no byte.
pub fn one_reading()
    ensures message { (bytes : List ℕ) (r : Result Request HttpFault) →
        Says bytes r → Delivers request_form bytes r }
    ensures too_long { (bytes : List ℕ) (r : Result Request HttpFault) →
        Says bytes r → ReportsSize bytes r }
    ensures closed { (r : Result Request HttpFault) → Says [] r → IsClosed r }
{}

/// Where a feed has returned a fault, no bytes that begin with those that were fed have a message,
/// unless memory ran out.
pub fn fault_lasts()
    ensures { (e : HttpFault) (bytes more : List ℕ) (m : Message) →
        Fails e bytes → BeginsWith (bytes ++ more) m → e ≡ HttpFault.NoMemory }
{}

/// Bytes begin with at most one head of a response. What it says is what a reading of all the bytes
/// of a source says, unless a call failed or memory ran out.
pub fn one_reply()
    ensures unique { (buf : List ℕ) (t u : ReplyHead) →
        BeginsWithReply buf t → BeginsWithReply buf u → t ≡ u }
    ensures reading { (bytes : List ℕ) (r : Result Reply HttpFault) →
        SaysReply bytes r → Delivers reply_form bytes r }
    ensures closed { (r : Result Reply HttpFault) → SaysReply [] r → IsClosed r }
{}
