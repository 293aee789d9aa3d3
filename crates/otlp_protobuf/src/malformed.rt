//! Why bytes are no message.

/// What is wrong with the bytes: the first fault from left to right.
#[derive(Clone, Copy, Debug, PartialEq, Eq)]
pub enum Malformed {
    /// A field passes the end.
    Cut,
    /// A number has more bits than its type.
    LongNumber,
    /// A field has the number 0.
    NoNumber,
    /// A field has a wire type that there is not, or a group ends that has not begun.
    WireType,
    /// Groups or messages are nested too deep.
    Deep,
    /// A field that is known has another wire type than its own.
    OtherType,
    /// A text is not UTF-8.
    NotText,
    /// A field of an older version of OTLP, whose points would be lost in silence.
    Old,
}
