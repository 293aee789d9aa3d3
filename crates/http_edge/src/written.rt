/// How much of a text was written.
#[derive(Clone, Copy, Debug, PartialEq, Eq)]
pub enum Written {
    /// All of its bytes.
    All,
    /// None of them, because the first call failed.
    None_,
    /// This many of its first bytes, some but not all, because a later call failed.
    Part(usize),
}
