//! Looks over a tape once: how deep it nests, and whether `serde_json` reads its numbers.

ghost use Rattle.std.specs.Prelude.{◌≡◌, ◌∷◌, ◌+◌, ◌≤◌, ◌<◌, List, IfSome, IsTrue, map, Some};
ghost use Rattle.std.specs.Prelude.{option_map};
ghost use Rattle.json.specs.Token.{Token};
ghost use Rattle.json.specs.Tape.{node_token};
ghost use Rattle.serde_json.specs.Data.{Num};
ghost use Rattle.serde_json.specs.Read.{number_of};
ghost use Rattle.json_points.specs.inner.Plain.{Plain};
ghost use Rattle.json_points.specs.declared.plain.TheConstants.{MAX_OPEN};

use crate::numbers::parse;
use json::Node;

/// How deep a text may nest. A request needs 14 levels, `serde_json` reads 127.
pub const MAX_OPEN: usize = 100;

/// Whether the text of a tape nests no deeper than `MAX_OPEN`, and each number is in range.
pub fn is_plain(nodes: &[Node<'_>]) -> bool
    ensures { IsTrue result → Plain 0 (map node_token nodes.now) }
{
    let mut depth: usize = 0;
    for node in nodes {
        match after(depth, node) {
            Some(next) => depth = next,
            None => return false,
        }
    }
    true
}

/// How many brackets are open after a token; `None` if there are too many, or if it is a number
/// that is out of range.
fn after(depth: usize, node: &Node<'_>) -> Option<usize>
    requires { depth ≤ MAX_OPEN }
    ensures plain { IfSome result (λ n. (ts : List Token) → Plain n ts
        → Plain depth (node_token node.now ∷ ts)) }
    ensures few { IfSome result (λ n. n ≤ MAX_OPEN) }
{
    match node {
        Node::Object(_) => opened(depth),
        Node::Array(_) => opened(depth),
        Node::EndObject => Some(depth.saturating_sub(1)),
        Node::EndArray => Some(depth.saturating_sub(1)),
        Node::Number(text) => if_in_range(text, depth),
        Node::Key(_) => Some(depth),
        Node::String(_) => Some(depth),
        Node::Bool(_) => Some(depth),
        Node::Null => Some(depth),
    }
}

/// One bracket more.
fn opened(depth: usize) -> Option<usize>
    ensures { IfSome result (λ n. (n ≡ depth + 1) × (depth < MAX_OPEN)) }
{
    if depth < MAX_OPEN {
        Some(depth + 1)
    } else {
        None
    }
}

/// This depth, if the number is in range.
fn if_in_range(text: &str, depth: usize) -> Option<usize>
    ensures { IfSome result (λ n. (n ≡ depth) × (m : Num) × (number_of text.now ≡ Some m)) }
{
    if parse(text).is_some() {
        Some(depth)
    } else {
        None
    }
}
