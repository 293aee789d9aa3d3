/// What comes next of a body.
#[derive(Clone, Copy, Debug, PartialEq, Eq)]
pub enum Phase {
    /// So many bytes of a body that has its length in the head.
    Counted(usize),
    /// A size line, or the rest of one.
    Line,
    /// So many bytes of a chunk.
    Content(usize),
    /// The carriage return behind a chunk.
    Return,
    /// The line feed behind a chunk.
    LineFeed,
    /// The trailer section, or the rest of it.
    Trailer,
    /// Nothing: the body is whole, and what follows is not of it.
    Whole,
}
