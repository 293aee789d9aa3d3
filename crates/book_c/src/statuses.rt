//! The statuses that cross, one for each answer.

/// Done: taken, read, written or ended.
pub const DONE: u32 = 0;
/// The sender is quarantined.
pub const QUARANTINED: u32 = 1;
/// A book has no room for one more entry, open batch, live flush or quarantined sender.
pub const FULL: u32 = 2;
/// The point's series has another sender.
pub const OTHER_WRITER: u32 = 3;
/// The point starts before its series' frontier.
pub const OUT_OF_ORDER: u32 = 4;
/// A book would have too many series.
pub const TOO_MANY_SERIES: u32 = 5;
/// The sum of a series would be over a limit.
pub const TOO_LARGE: u32 = 6;
/// An allocation failed.
pub const NO_MEMORY: u32 = 7;
/// That is no sender's name.
pub const BAD_SENDER: u32 = 8;
/// The body is no JSON.
pub const NOT_JSON: u32 = 9;
/// A container of the body has the wrong type.
pub const WRONG_SHAPE: u32 = 10;
/// There is nothing to admit, to take or to end.
pub const NOTHING: u32 = 11;
/// There is no such flush, book or number, words end within a point, or a flush is not live.
pub const NO_SUCH: u32 = 12;
/// The sender is quarantined already.
pub const ALREADY: u32 = 13;
/// The sender is not quarantined.
pub const NOT_QUARANTINED: u32 = 14;
/// The flushes that were taken before are not ended.
pub const NOT_ENDED: u32 = 15;
/// No book holds something pending that a part goes beyond.
pub const NONE_CROSSES: u32 = 17;
/// The slice has no room for that.
pub const TOO_SHORT: u32 = 18;
/// The body is no request in protobuf.
pub const NOT_PROTOBUF: u32 = 19;
