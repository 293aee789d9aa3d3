/// What one call of a `Script` or a `Tape` does.
#[derive(Clone, Copy, Debug, PartialEq, Eq)]
pub enum Step {
    /// Moves at most so many bytes. At 0 a `Script` still gives one byte, and a `Tape` fails.
    AtMost(usize),
    /// Moves no byte, and fails.
    Fail,
}
