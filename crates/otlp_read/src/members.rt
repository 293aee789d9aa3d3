//! Finds several members of an object in one pass.

ghost use Rattle.std.specs.Prelude.{◌≡◌, ◌||◌, Some, codes, if◌then◌else◌, is_some, bytes_eq};
ghost use Rattle.serde_json.specs.Data.{object};
ghost use Rattle.serde_json.specs.View.{view, members_view};
ghost use Rattle.otlp_read.specs.Fields.{present};
ghost use Rattle.otlp_read.specs.Values.{fields_of};
ghost use Rattle.otlp_read.specs.inner.ValueViews.{fields_data};
ghost use Rattle.otlp_read.specs.inner.RefViews.{IsMember, found_data};

use serde_json::{Map, Value};

/// The fields of a sum's or a histogram's point that are present (`NumberDataPoint` and
/// `HistogramDataPoint` of `opentelemetry/proto/metrics/v1/metrics.proto`).
#[derive(Clone, Copy)]
pub struct PointMembers<'v> {
    pub start: Option<&'v Value>,
    pub end: Option<&'v Value>,
    pub flags: Option<&'v Value>,
    pub attributes: Option<&'v Value>,
    pub number: Option<&'v Value>,
    pub double: Option<&'v Value>,
    pub count: Option<&'v Value>,
    pub total: Option<&'v Value>,
    pub buckets: Option<&'v Value>,
    pub bounds: Option<&'v Value>,
}

/// Finds the members of these names, each as a variable of its own, in one pass.
macro_rules! find_members {
    ($members:ident, $($slot:ident = $name:literal),+) => {
        $(let mut $slot = None;)+
        for (name, member) in $members {
            let name = name.as_str();
            $(set_if_named(&mut $slot, $name, name, member);)+
        }
    };
}

/// Sets `slot` to the member if the member has the wanted name. `null` counts as absent.
#[inline(always)]
pub fn set_if_named<'v>(slot: &mut Option<&'v Value>, wanted: &str, name: &str, member: &'v Value)
    ensures { found_data slot.new ≡ (if bytes_eq wanted.now name.now then present
        (Some (view member.now)) else found_data slot.old) }
{
    if wanted == name {
        *slot = if member.is_null() { None } else { Some(member) };
    }
}

/// The fields of a point, in one pass over its members.
pub fn point_members<'v>(members: &'v Map<String, Value>) -> PointMembers<'v>
    ensures start { IsMember members.now.entries (codes "startTimeUnixNano") result.start }
    ensures end { IsMember members.now.entries (codes "timeUnixNano") result.end }
    ensures flags { IsMember members.now.entries (codes "flags") result.flags }
    ensures attributes { IsMember members.now.entries (codes "attributes") result.attributes }
    ensures number { IsMember members.now.entries (codes "asInt") result.number }
    ensures double { IsMember members.now.entries (codes "asDouble") result.double }
    ensures count { IsMember members.now.entries (codes "count") result.count }
    ensures total { IsMember members.now.entries (codes "sum") result.total }
    ensures buckets { IsMember members.now.entries (codes "bucketCounts") result.buckets }
    ensures bounds { IsMember members.now.entries (codes "explicitBounds") result.bounds }
{
    find_members!(
        members,
        start = "startTimeUnixNano",
        end = "timeUnixNano",
        flags = "flags",
        attributes = "attributes",
        number = "asInt",
        double = "asDouble",
        count = "count",
        total = "sum",
        buckets = "bucketCounts",
        bounds = "explicitBounds"
    );
    PointMembers {
        start,
        end,
        flags,
        attributes,
        number,
        double,
        count,
        total,
        buckets,
        bounds,
    }
}

/// The fields of a value that are present (`AnyValue` of
/// `opentelemetry/proto/common/v1/common.proto`).
#[derive(Clone, Copy)]
pub struct ValueFields<'v> {
    pub text: Option<&'v Value>,
    pub truth: Option<&'v Value>,
    pub int: Option<&'v Value>,
    pub list: Option<&'v Value>,
    /// Whether there is a double, a map or bytes, which no series may have.
    pub other: bool,
}

/// The fields of a value, in one pass over its members.
pub fn fields_of<'v>(members: &'v Map<String, Value>) -> ValueFields<'v>
    ensures { fields_data result ≡ fields_of (object (members_view members.now.entries)) }
{
    find_members!(
        members,
        text = "stringValue",
        truth = "boolValue",
        int = "intValue",
        list = "arrayValue",
        double = "doubleValue",
        map = "kvlistValue",
        bytes = "bytesValue"
    );
    ValueFields {
        text,
        truth,
        int,
        list,
        other: has_any(double, map, bytes),
    }
}

/// Whether one of three fields is present.
fn has_any(one: Option<&Value>, another: Option<&Value>, third: Option<&Value>) -> bool
    ensures { result ≡ (is_some (found_data one.entry) || is_some (found_data another.entry)
        || is_some (found_data third.entry)) }
{
    one.is_some() || another.is_some() || third.is_some()
}

/// The fields of an attribute that are present (`KeyValue` there).
#[derive(Clone, Copy)]
pub struct PairFields<'v> {
    pub key: Option<&'v Value>,
    pub value: Option<&'v Value>,
}

/// The fields of an attribute, in one pass over its members.
pub fn pair_fields<'v>(members: &'v Map<String, Value>) -> PairFields<'v>
    ensures key { IsMember members.now.entries (codes "key") result.key }
    ensures value { IsMember members.now.entries (codes "value") result.value }
{
    find_members!(members, key = "key", value = "value");
    PairFields { key, value }
}
