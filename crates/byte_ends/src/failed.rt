/// A read or a write that failed. It moved no byte. It does not say why it failed.
#[derive(Clone, Copy, Debug, PartialEq, Eq)]
pub struct Failed;
