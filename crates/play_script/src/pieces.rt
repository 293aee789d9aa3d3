//! Splits a script into lines, and a line into words.

ghost use Rattle.std.specs.Prelude.{◌≡◌, ◌==◌, ◌∷◌, [], ◌<◌, List, MatchOption, length, position};
ghost use Rattle.play_script.specs.Pieces.{pieces, lines, words};

/// What ends a line.
pub const LINE_FEED: u8 = 10;

/// What separates two words.
pub const SPACE: u8 = 32;

/// Bytes up to the first mark, and what follows it, where there is one.
#[derive(Drop)]
pub struct Cut<'a> {
    pub first: &'a [u8],
    pub rest: Option<&'a [u8]>,
}

/// The position of the first mark.
fn place_of(bytes: &[u8], mark: u8) -> Option<usize>
    ensures { result ≡ position (λ b. b == mark) bytes.now }
{
    bytes.iter().position(|byte| *byte == mark)
}

/// The bytes before the first mark, and those after it.
fn cut_at(bytes: &[u8], mark: u8) -> Cut<'_>
    ensures short { MatchOption result.rest (result.first.now ≡ bytes.now)
        (λ rest. length rest.now < length bytes.now) }
    ensures pieces { MatchOption result.rest (pieces mark bytes.now ≡ result.first.now ∷ [])
        (λ rest. pieces mark bytes.now ≡ result.first.now ∷ pieces mark rest.now) }
{
    match place_of(bytes, mark) {
        Some(at) => Cut {
            first: &bytes[..at],
            rest: Some(&bytes[at + 1..]),
        },
        None => Cut {
            first: bytes,
            rest: None,
        },
    }
}

/// The first word of a line, and the rest of the line after the space that ends it.
pub fn cut_word(line: &[u8]) -> Cut<'_>
    ensures short { MatchOption result.rest (result.first.now ≡ line.now)
        (λ rest. length rest.now < length line.now) }
    ensures words { MatchOption result.rest (words line.now ≡ result.first.now ∷ [])
        (λ rest. words line.now ≡ result.first.now ∷ words rest.now) }
{
    cut_at(line, SPACE)
}

/// The first line of a text that is not empty, and the text after it.
pub fn cut_line(text: &[u8]) -> (&[u8], &[u8])
    requires { 0 < length text.now }
    ensures short { length result.1.now < length text.now }
    ensures lines { lines text.now ≡ result.0.now ∷ lines result.1.now }
{
    let piece = cut_at(text, LINE_FEED);
    match piece.rest {
        Some(rest) => (piece.first, rest),
        None => (piece.first, &[]),
    }
}
