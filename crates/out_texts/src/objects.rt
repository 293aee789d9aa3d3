//! Builds JSON objects member by member.

ghost use Rattle.std.specs.Prelude.{◌≡◌, decimal, IfOk};
ghost use Rattle.std.specs.Fmt.{signed_decimal};
ghost use Rattle.serde_json.specs.Data.{Members, string, object, no_members, put};
ghost use Rattle.serde_json.specs.View.{view};
ghost use Rattle.out_texts.specs.inner.Objects.{HasMembers};

use serde_json::{Map, Value};
use std::alloc::{AllocError, Global};

/// A JSON object under construction. After a failed allocation it has no members any more, and
/// `finish` returns the error. So the calls can be chained, and nothing has to be freed in between.
#[derive(Drop)]
pub(crate) struct Object {
    alloc: Global,
    map: Option<Map<String, Value>>,
}

impl Object {
    /// An object without members.
    pub(crate) fn new(alloc: Global) -> Object
        ensures { HasMembers result no_members }
    {
        Object {
            alloc,
            map: Some(Map::new(alloc)),
        }
    }

    /// An object after a failed allocation.
    fn out_of_memory(alloc: Global) -> Object
        ensures { (ms : Members) → HasMembers result ms }
    {
        Object { alloc, map: None }
    }

    /// Adds a member.
    pub(crate) fn value(self, key: &str, value: Value) -> Object
        ensures { (ms : Members) → HasMembers self ms
            → HasMembers result (put key.now (view value) ms) }
    {
        let Object { alloc, map } = self;
        let Some(mut map) = map else {
            return Object::out_of_memory(alloc);
        };
        match serde_json::put(&mut map, alloc, key, value) {
            Ok(()) => Object {
                alloc,
                map: Some(map),
            },
            Err(_) => Object::out_of_memory(alloc),
        }
    }

    /// Adds a text.
    pub(crate) fn text(self, key: &str, text: &str) -> Object
        ensures { (ms : Members) → HasMembers self ms
            → HasMembers result (put key.now (string text.now) ms) }
    {
        match Value::try_from_str(self.alloc, text) {
            Ok(value) => self.value(key, value),
            Err(_) => Object::out_of_memory(self.alloc),
        }
    }

    /// Adds a number as a decimal text.
    pub(crate) fn decimal(self, key: &str, number: u64) -> Object
        ensures { (ms : Members) → HasMembers self ms
            → HasMembers result (put key.now (string (decimal number)) ms) }
    {
        match number.to_string(self.alloc) {
            Ok(text) => self.value(key, Value::from(text)),
            Err(_) => Object::out_of_memory(self.alloc),
        }
    }

    /// Adds a number as a decimal text, with `-` before it if it is negative.
    pub(crate) fn signed(self, key: &str, number: i64) -> Object
        ensures { (ms : Members) → HasMembers self ms
            → HasMembers result (put key.now (string (signed_decimal number)) ms) }
    {
        match number.to_string(self.alloc) {
            Ok(text) => self.value(key, Value::from(text)),
            Err(_) => Object::out_of_memory(self.alloc),
        }
    }

    /// Adds an object.
    pub(crate) fn object(self, key: &str, inner: Object) -> Object
        ensures { (ms more : Members) → HasMembers self ms → HasMembers inner more
            → HasMembers result (put key.now (object more) ms) }
    {
        match inner.finish() {
            Ok(value) => self.value(key, value),
            Err(_) => Object::out_of_memory(self.alloc),
        }
    }

    /// The object. Fails if an allocation failed since `new`.
    pub(crate) fn finish(self) -> Result<Value, AllocError>
        ensures { (ms : Members) → HasMembers self ms → IfOk result (λ v. view v ≡ object ms) }
    {
        match self.map {
            Some(map) => Ok(Value::Object(map)),
            None => Err(AllocError),
        }
    }
}
