//! The classes of answers, and what is done after each.

ghost use Rattle.std.specs.Prelude.{◌≡◌};
ghost use Rattle.back_answers.specs.Waits.{asked_wait};

/// What an answer of the back end means for the request that it answers.
#[derive(Clone, Copy, Debug, PartialEq, Eq)]
pub enum Answer {
    /// The back end took the request.
    Success,
    /// The back end did not take the request now. It may be sent again.
    Retryable {
        /// The seconds that the back end asks to wait before that, if it names them.
        after: Option<u64>,
    },
    /// The back end refused the request. It must not be sent again.
    Final,
    /// There is no answer, or one that the protocol does not know.
    Unknown,
}

impl Answer {
    /// The seconds that it asks to wait before the request is sent again, if it names them.
    pub fn asked_wait(self) -> Option<u64>
        ensures { result ≡ asked_wait self }
    {
        match self {
            Answer::Retryable { after } => after,
            Answer::Success | Answer::Final | Answer::Unknown => None,
        }
    }
}

/// What is done with a flush once its request was answered.
#[derive(Clone, Copy, Debug, PartialEq, Eq)]
pub enum Act {
    /// Its points are acknowledged.
    Settle,
    /// Its points are pending again, and a later flush takes them.
    GiveBack,
    /// Its points are dropped.
    DropFlush,
}
