//! Compares the names of members.

ghost use Rattle.std.specs.Prelude.{◌≡◌, length};
ghost use Rattle.std.specs.Str.{bytes_eq};

/// Whether a name is this one. Where that is a constant, it takes a few instructions.
#[inline(always)]
pub fn is_named(name: &str, wanted: &str) -> bool
    ensures { result ≡ bytes_eq name.now wanted.now }
{
    let mine = name.as_bytes();
    let its = wanted.as_bytes();
    if mine.len() == its.len() {
        are_same(mine, its)
    } else {
        false
    }
}

/// Whether as many bytes are the same.
#[inline(always)]
fn are_same(mine: &[u8], its: &[u8]) -> bool
    requires { length mine.now ≡ length its.now }
    ensures { result ≡ bytes_eq mine.now its.now }
{
    let mut same = true;
    let mut left = its.len();
    while left > 0 {
        left -= 1;
        same = (mine[left] == its[left]) & same;
    }
    same
}
