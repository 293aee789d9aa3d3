//! The table of answers: what a status and `Retry-After` mean, and what becomes of the flush.

ghost use Rattle.std.specs.Prelude.{◌≡◌, ◌⊎◌, ◌↔◌, ℕ, Option, option_copied, IsSomeAnd};
ghost use Rattle.back_answers.specs.Answers.{answer_of, act_of, IsSuccess, IsError, IsRetryable};
ghost use Rattle.back_answers.specs.Answers.{IsThrottling};
ghost use Rattle.back_answers.specs.Delay.{delay_seconds, IsDelayOf};

use crate::answer::{Act, Answer};
use decimals::number_up_to;

// The retryable statuses (RFC 6585, section 4; RFC 9110, section 15.6).
const TOO_MANY_REQUESTS: u16 = 429;

const BAD_GATEWAY: u16 = 502;

const SERVICE_UNAVAILABLE: u16 = 503;

const GATEWAY_TIMEOUT: u16 = 504;

/// The meaning of an answer with this status (OTLP/HTTP, "Failures" and "Throttling").
/// `retry_after` is the value of its `Retry-After`, if it has one (RFC 9110, section 10.2.3).
///
/// Of the errors, 429, 502, 503 and 504 are retryable, and only 429 and 503 have seconds to wait.
/// If the value is not a number of seconds below 2^64, the answer is retryable without seconds.
#[tactic(auto, unfolding(crate::specs::Answers::answer_of))]
pub fn classify(status: u16, retry_after: Option<&[u8]>) -> Answer
    ensures answer { result ≡ answer_of status (option_copied retry_after.entry) }

    // The same in the protocol's words: a class has these statuses and no other.
    ensures success { (result ≡ Answer.Success) ↔ IsSuccess status }
    ensures is_final { (result ≡ Answer.Final) ↔ (IsError status × ¬ (IsRetryable status)) }
    ensures retryable { ((after : Option ℕ) × (result ≡ Answer.Retryable after))
        ↔ IsRetryable status }
    ensures unknown { (result ≡ Answer.Unknown) ↔ ¬ (IsSuccess status ⊎ IsError status) }

    // The seconds are those of the value, if the status may have some.
    ensures waits { (n : ℕ) → (result ≡ Answer.Retryable (Some n))
        ↔ (IsThrottling status × IsSomeAnd (option_copied retry_after.entry)
        (λ value. IsDelayOf value n)) }
{
    match status {
        200..=299 => Answer::Success,
        TOO_MANY_REQUESTS | SERVICE_UNAVAILABLE => Answer::Retryable {
            after: retry_after.and_then(seconds),
        },
        BAD_GATEWAY | GATEWAY_TIMEOUT => Answer::Retryable { after: None },
        400..=599 => Answer::Final,
        _ => Answer::Unknown,
    }
}

/// The seconds in the value of a `Retry-After` field (RFC 9110, section 10.2.3): one or more
/// decimal digits, of a number below 2^64. A date, or any other value, has none.
#[tactic(auto, unfolding(crate::specs::Delay::delay_seconds))]
fn seconds(value: &[u8]) -> Option<u64>
    ensures { result ≡ delay_seconds value.now }
{
    number_up_to(value, u64::MAX)
}

/// What is done with the flush that was answered. Only a success settles it, and only a final
/// error drops it. After any other answer, or none, it is given back.
pub fn act(answer: Answer) -> Act
    ensures act { result ≡ act_of answer }
    ensures settles { (result ≡ Act.Settle) ↔ (answer ≡ Answer.Success) }
    ensures drops { (result ≡ Act.DropFlush) ↔ (answer ≡ Answer.Final) }
{
    match answer {
        Answer::Success => Act::Settle,
        Answer::Final => Act::DropFlush,
        Answer::Retryable { .. } | Answer::Unknown => Act::GiveBack,
    }
}
