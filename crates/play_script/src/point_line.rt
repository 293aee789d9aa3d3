//! A point of an `admit` line.

ghost use Rattle.std.specs.Prelude.{◌≡◌, true};
ghost use Rattle.metric_events.specs.Senders.{is_sender_name};

/// A point of an `admit` line. Its name is a part of the line; its times are nanoseconds.
#[derive(Clone, Copy)]
pub struct PointLine<'a> {
    pub name: &'a [u8],
    pub start: u64,
    pub end: u64,
    pub value: i64,
    pub ghost named: { is_sender_name name.now ≡ true },
}
