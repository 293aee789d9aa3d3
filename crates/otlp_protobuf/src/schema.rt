//! The messages of a metrics request, and what their fields have
//! (`opentelemetry/proto/metrics/v1/metrics.proto`, `common/v1/common.proto`).

ghost use Rattle.std.specs.Prelude.{◌≡◌};
ghost use Rattle.otlp_protobuf.specs.Schema.{kind_of, list_of, of_exemplar, of_histogram};
ghost use Rattle.otlp_protobuf.specs.Schema.{of_histogram_point, of_metric, of_number_point};
ghost use Rattle.otlp_protobuf.specs.Schema.{of_sum, of_value};

/// A message.
#[derive(Clone, Copy)]
pub enum Message {
    Request,
    ResourceMetrics,
    Resource,
    ScopeMetrics,
    Scope,
    Metric,
    /// A gauge, an exponential histogram or a summary.
    OtherData,
    OtherPoint,
    Sum,
    NumberPoint,
    Histogram,
    HistogramPoint,
    Exemplar,
    KeyValue,
    AnyValue,
    ArrayValue,
    KeyValueList,
}

/// What a field has.
#[derive(Clone, Copy)]
pub enum Kind {
    /// Nothing that a request says by it is read.
    Unknown,
    /// It is of an older version.
    Old,
    Varint,
    Fixed64,
    /// Numbers of 8 bytes, one after the other, or a single one.
    Packed,
    Text,
    Bytes,
    Inner(Message),
}

impl Message {
    /// What the field of this number has.
    #[inline(always)]
    #[tactic(auto, unfolding(crate::specs::Schema::kind_of))]
    pub fn kind_of(self, number: u32) -> Kind
        ensures { result ≡ kind_of self number }
    {
        match self {
            Message::Request => list_of(Message::ResourceMetrics, number),
            Message::ResourceMetrics => match number {
                1 => Kind::Inner(Message::Resource),
                2 => Kind::Inner(Message::ScopeMetrics),
                1000 => Kind::Old,
                _ => Kind::Unknown,
            },
            Message::Resource => list_of(Message::KeyValue, number),
            Message::ScopeMetrics => match number {
                1 => Kind::Inner(Message::Scope),
                2 => Kind::Inner(Message::Metric),
                _ => Kind::Unknown,
            },
            Message::Scope => match number {
                1 | 2 => Kind::Text,
                3 => Kind::Inner(Message::KeyValue),
                _ => Kind::Unknown,
            },
            Message::Metric => of_metric(number),
            Message::OtherData => list_of(Message::OtherPoint, number),
            Message::OtherPoint => Kind::Unknown,
            Message::Sum => of_sum(number),
            Message::NumberPoint => of_number_point(number),
            Message::Histogram => of_histogram(number),
            Message::HistogramPoint => of_histogram_point(number),
            Message::Exemplar => of_exemplar(number),
            Message::KeyValue => match number {
                1 => Kind::Text,
                2 => Kind::Inner(Message::AnyValue),
                _ => Kind::Unknown,
            },
            Message::AnyValue => of_value(number),
            Message::ArrayValue => list_of(Message::AnyValue, number),
            Message::KeyValueList => list_of(Message::KeyValue, number),
        }
    }
}

/// A message that is a list.
fn list_of(inner: Message, number: u32) -> Kind
    ensures { result ≡ list_of inner number }
{
    if number == 1 {
        Kind::Inner(inner)
    } else {
        Kind::Unknown
    }
}

fn of_metric(number: u32) -> Kind
    ensures { result ≡ of_metric number }
{
    match number {
        1 | 3 => Kind::Text,
        4 | 6 | 8 => Kind::Old,
        5 | 10 | 11 => Kind::Inner(Message::OtherData),
        7 => Kind::Inner(Message::Sum),
        9 => Kind::Inner(Message::Histogram),
        _ => Kind::Unknown,
    }
}

fn of_sum(number: u32) -> Kind
    ensures { result ≡ of_sum number }
{
    match number {
        1 => Kind::Inner(Message::NumberPoint),
        2 | 3 => Kind::Varint,
        _ => Kind::Unknown,
    }
}

fn of_histogram(number: u32) -> Kind
    ensures { result ≡ of_histogram number }
{
    match number {
        1 => Kind::Inner(Message::HistogramPoint),
        2 => Kind::Varint,
        _ => Kind::Unknown,
    }
}

#[inline(always)]
fn of_number_point(number: u32) -> Kind
    ensures { result ≡ of_number_point number }
{
    match number {
        1 => Kind::Old,
        2 | 3 | 4 | 6 => Kind::Fixed64,
        5 => Kind::Inner(Message::Exemplar),
        7 => Kind::Inner(Message::KeyValue),
        8 => Kind::Varint,
        _ => Kind::Unknown,
    }
}

#[inline(always)]
fn of_histogram_point(number: u32) -> Kind
    ensures { result ≡ of_histogram_point number }
{
    match number {
        1 => Kind::Old,
        2 | 3 | 4 | 5 => Kind::Fixed64,
        6 | 7 => Kind::Packed,
        8 => Kind::Inner(Message::Exemplar),
        9 => Kind::Inner(Message::KeyValue),
        10 => Kind::Varint,
        _ => Kind::Unknown,
    }
}

fn of_exemplar(number: u32) -> Kind
    ensures { result ≡ of_exemplar number }
{
    match number {
        2 | 3 | 6 => Kind::Fixed64,
        4 | 5 => Kind::Bytes,
        7 => Kind::Inner(Message::KeyValue),
        _ => Kind::Unknown,
    }
}

fn of_value(number: u32) -> Kind
    ensures { result ≡ of_value number }
{
    match number {
        1 => Kind::Text,
        2 | 3 => Kind::Varint,
        4 => Kind::Fixed64,
        5 => Kind::Inner(Message::ArrayValue),
        6 => Kind::Inner(Message::KeyValueList),
        7 => Kind::Bytes,
        _ => Kind::Unknown,
    }
}
