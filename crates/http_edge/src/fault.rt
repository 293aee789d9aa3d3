//! Why a message could not be read.
ghost use Rattle.std.specs.Prelude.{◌≡◌};
ghost use Rattle.http_edge.specs.declared.fault.HttpFault.TheVariants.{NoMemory};

use std::alloc::AllocError;

/// Why there is no message.
#[derive(Clone, Copy, Debug, PartialEq, Eq)]
pub enum HttpFault {
    /// The bytes ended before the first one.
    Closed,
    /// No head can begin so (RFC 9112, sections 3 to 5).
    BadHead,
    /// The head has more fields than `MAX_FIELDS`.
    TooManyHeaders,
    /// The head is longer than `MAX_HEAD`.
    HeadTooLong,
    /// The fields of the head frame no body (RFC 9112, section 6.3).
    BadLength,
    /// The body is longer than `MAX_BODY`.
    BodyTooLong,
    /// The chunks or the trailer section are wrong (RFC 9112, section 7.1).
    BadChunk,
    /// The bytes ended inside the message.
    Truncated,
    /// A call of the reader failed.
    Io,
    /// An allocation for the message failed.
    NoMemory,
}

impl From<AllocError> for HttpFault {
    ghost from_gives = { λ _ e. e ≡ NoMemory };

    fn from(_e: AllocError) -> HttpFault {
        HttpFault::NoMemory
    }
}
