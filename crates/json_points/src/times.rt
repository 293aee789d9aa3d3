//! The times of a list's points: most have the same text as the point before.

ghost use Rattle.std.specs.Prelude.{◌≡◌, ◌-◌, ◌^◌};
ghost use Rattle.otlp_read.specs.Fields.{field, nanos_in};
ghost use Rattle.otlp_read.specs.Integers.{text_whole, unsigned_64, up_to};
ghost use Rattle.json_points.specs.inner.Nodes.{data_at};
ghost use Rattle.json_points.specs.inner.Slots.{slot_data};

use crate::fields::field;
use crate::integers::{unsigned_64, unsigned_text};
use crate::node::Node;
use crate::stream_hash::StreamHash;

/// A text, and the time that it writes, if it writes one.
#[derive(Clone, Copy)]
pub struct Time<'a> {
    text: &'a str,
    nanos: Option<u64>,
    ghost is_written: { nanos ≡ up_to (2 ^ 64 - 1) (text_whole text.now) },
}

/// Start and end of the point before, and the hash of the stream.
#[derive(Clone, Copy)]
pub struct Times<'a> {
    pub start: Time<'a>,
    pub end: Time<'a>,
    pub hash: StreamHash,
}

impl<'a> Times<'a> {
    /// No point came before.
    pub fn none() -> Times<'a> {
        Times {
            start: Time::none(),
            end: Time::none(),
            hash: StreamHash::none(),
        }
    }
}

impl<'a> Time<'a> {
    /// The empty text, which writes no time.
    fn none() -> Time<'a> {
        Time {
            text: "",
            nanos: None,
        }
    }

    /// The time of a field, and keeps it if it is a text.
    #[tactic(auto, unfolding(otlp_read::specs::Fields::nanos_in))]
    pub fn read(&mut self, found: &Option<Node<'_, 'a>>) -> Option<u64>
        ensures { result ≡ nanos_in (slot_data found.now) }
    {
        match found {
            None => None,
            Some(node) => self.of_node(node),
        }
    }

    /// The same of the field of this name.
    pub fn read_at(&mut self, node: &Node<'_, 'a>, name: &str) -> Option<u64>
        ensures { result ≡ nanos_in (field name.now (data_at node.now)) }
    {
        self.read(&field(node, name))
    }

    /// The time of a value.
    fn of_node(&mut self, node: &Node<'_, 'a>) -> Option<u64>
        ensures { result ≡ unsigned_64 (data_at node.now) }
    {
        match node.as_str() {
            Some(text) => self.of_text(text),
            None => unsigned_64(node),
        }
    }

    /// The time that a text writes.
    fn of_text(&mut self, text: &'a str) -> Option<u64>
        ensures { result ≡ up_to (2 ^ 64 - 1) (text_whole text.now) }
    {
        if self.text != text {
            let nanos = unsigned_text(text);
            *self = Time { text, nanos };
        }
        self.nanos
    }
}
