//! Plain loops, word by word, to compare the vector operations with.
ghost use Rattle.std.specs.Prelude.{◌≡◌, length};

/// A loop in place of a vector operation.
#[derive(Clone, Copy)]
pub enum Loop {
    Fits,
    AddInto,
    SubFrom,
    MoveInto,
    IsZero,
    Clear,
}

impl Loop {
    /// The loop with this name.
    pub fn of_name(name: &str) -> Option<Loop> {
        match name {
            "plain_fits" => Some(Loop::Fits),
            "plain_add_into" => Some(Loop::AddInto),
            "plain_sub_from" => Some(Loop::SubFrom),
            "plain_move_into" => Some(Loop::MoveInto),
            "plain_is_zero" => Some(Loop::IsZero),
            "plain_clear" => Some(Loop::Clear),
            _ => None,
        }
    }
}

/// Whether each sum of two words is at most `most`.
fn fits(a: &[u64], b: &[u64], most: u64) -> bool
    requires { length a.now ≡ length b.now }
{
    for k in 0..a.len() {
        if b[k] > most || a[k] > most - b[k] {
            return false;
        }
    }
    true
}

/// Adds the words of `src` to those of `dst`, modulo 2^64.
fn add_into(dst: &mut [u64], src: &[u64])
    requires { length dst.old ≡ length src.now }
{
    for k in 0..dst.len() {
        dst[k] = dst[k].wrapping_add(src[k]);
    }
}

/// Subtracts the words of `src` from those of `dst`, modulo 2^64.
fn sub_from(dst: &mut [u64], src: &[u64])
    requires { length dst.old ≡ length src.now }
{
    for k in 0..dst.len() {
        dst[k] = dst[k].wrapping_sub(src[k]);
    }
}

/// Adds the words of `src` to those of `dst`, modulo 2^64, and sets those of `src` to 0.
fn move_into(dst: &mut [u64], src: &mut [u64])
    requires { length dst.old ≡ length src.old }
{
    for k in 0..dst.len() {
        dst[k] = dst[k].wrapping_add(src[k]);
        src[k] = 0;
    }
}

/// Whether every word is 0.
fn is_zero(words: &[u64]) -> bool {
    for k in 0..words.len() {
        if words[k] != 0 {
            return false;
        }
    }
    true
}

/// Sets every word to 0.
fn clear(words: &mut [u64]) {
    for k in 0..words.len() {
        words[k] = 0;
    }
}

/// Runs a loop once on rows of 0, and returns whether its result is right for such rows.
fn step(plain: Loop, dst: &mut [u64], src: &mut [u64]) -> bool
    requires { length dst.old ≡ length src.old }
{
    match plain {
        Loop::Fits => fits(dst, src, u64::MAX),
        Loop::AddInto => {
            add_into(dst, src);
            true
        }
        Loop::SubFrom => {
            sub_from(dst, src);
            true
        }
        Loop::MoveInto => {
            move_into(dst, src);
            true
        }
        Loop::IsZero => is_zero(dst),
        Loop::Clear => {
            clear(dst);
            true
        }
    }
}

/// Runs a loop `times` times on two rows of 0, each time both ways round, and counts the right
/// results.
pub fn run(plain: Loop, dst: &mut [u64], src: &mut [u64], times: u64) -> u64
    requires { length dst.old ≡ length src.old }
{
    let mut count = 0u64;
    for _ in 0..times {
        count = count.wrapping_add(u64::from(step(plain, dst, src)));
        count = count.wrapping_add(u64::from(step(plain, src, dst)));
    }
    count
}
