//! The identity of a series, and the order of series.

ghost use Rattle.std.specs.Prelude.{◌≡◌, ◌↔◌, IfOk, IsTrue, Some, refl};
ghost use Rattle.series_id.specs.Checks.{checked_identity};
ghost use Rattle.series_id.specs.Identity.{row_length};
ghost use Rattle.series_id.specs.SeriesLaws.{same_series_equiv, same_series_per};
ghost use Rattle.series_id.specs.SeriesLaws.{same_series_ties, series_po};
ghost use Rattle.series_id.specs.Totals.{series_total};
ghost use Rattle.series_id.specs.Order.{metric_cmp, resource_cmp, scope_cmp, stream_cmp};
ghost use Rattle.series_id.specs.Order.{same_series, series_before, series_cmp};
ghost use Rattle.series_id.specs.Sharing.{HasOneResource, HasOneScope, HasOneStream};
ghost use Rattle.series_id.specs.Sharing.{shares_resource, shares_scope, shares_stream};

use crate::attributes::AttrSet;
use crate::faults::IdFault;
use crate::kinds::Kind;
use crate::texts::Text;
use std::alloc::{AllocError, Global};
use std::cmp::Ordering;
use std::marker::Model;

/// The identity of a series. Contracts see it as an `Identity`. A copy takes memory; a `SharedId`
/// stores it once for several owners.
pub struct SeriesId {
    resource: AttrSet,
    scope_name: Text,
    scope_version: Text,
    scope_attrs: AttrSet,
    name: Text,
    unit: Text,
    kind: Kind,
    attrs: AttrSet,
}

impl Model for SeriesId {
    ghost use Rattle.series_id.specs.Identity.{Identity};

    ghost Value = { Identity };

    ghost use Rattle.series_id.specs.Identity.{IsIdentity};
    ghost use Rattle.series_id.specs.inner.Views.{identity_of};

    ghost view = { identity_of };

    ghost invariant = { λ s. IsIdentity (identity_of s) };
}

// Written by hand: a derived `drop` is proved again in each crate that drops one.
impl Drop for SeriesId {
    fn drop(self) {
        let SeriesId {
            resource: _,
            scope_name: _,
            scope_version: _,
            scope_attrs: _,
            name: _,
            unit: _,
            kind: _,
            attrs: _,
        } = self;
    }
}

impl SeriesId {
    /// The identity with these parts. Takes no memory.
    ///
    /// Fails with `TextTooLong` exactly where the scope's name or version, the metric's name or
    /// the unit has more than `MAX_TEXT` bytes.
    pub fn new(
        resource: AttrSet,
        scope_name: Text,
        scope_version: Text,
        scope_attrs: AttrSet,
        name: Text,
        unit: Text,
        kind: Kind,
        attrs: AttrSet,
    ) -> Result<SeriesId, IdFault>
        ensures { result ≡ checked_identity (record {
          resource = resource;
          scope_name = scope_name;
          scope_version = scope_version;
          scope_attrs = scope_attrs;
          name = name;
          unit = unit;
          kind = kind;
          attrs = attrs;
        }) }
    {
        if scope_name.is_long() || scope_version.is_long() || name.is_long() || unit.is_long() {
            return Err(IdFault::TextTooLong);
        }
        Ok(SeriesId {
            resource,
            scope_name,
            scope_version,
            scope_attrs,
            name,
            unit,
            kind,
            attrs,
        })
    }

    /// The resource's attributes.
    pub fn resource(&self) -> &AttrSet
        ensures { result.now ≡ self.now.resource }
    {
        &self.resource
    }

    /// The name of the instrumentation scope.
    pub fn scope_name(&self) -> &Text
        ensures { result.now ≡ self.now.scope_name }
    {
        &self.scope_name
    }

    /// The version of the instrumentation scope.
    pub fn scope_version(&self) -> &Text
        ensures { result.now ≡ self.now.scope_version }
    {
        &self.scope_version
    }

    /// The attributes of the instrumentation scope.
    pub fn scope_attrs(&self) -> &AttrSet
        ensures { result.now ≡ self.now.scope_attrs }
    {
        &self.scope_attrs
    }

    /// The metric's name.
    pub fn name(&self) -> &Text
        ensures { result.now ≡ self.now.name }
    {
        &self.name
    }

    /// The metric's unit.
    pub fn unit(&self) -> &Text
        ensures { result.now ≡ self.now.unit }
    {
        &self.unit
    }

    /// The metric's kind.
    pub fn kind(&self) -> &Kind
        ensures { result.now ≡ self.now.kind }
    {
        &self.kind
    }

    /// The point's attributes.
    pub fn attrs(&self) -> &AttrSet
        ensures { result.now ≡ self.now.attrs }
    {
        &self.attrs
    }

    /// How many words a row of the series has: 3 for a sum; for a histogram 4 more than it has
    /// bounds.
    pub fn row_len(&self) -> usize
        ensures { result ≡ row_length self.now.kind }
    {
        self.kind.row_len()
    }

    /// An equal identity.
    pub fn copy(&self, alloc: Global) -> Result<SeriesId, AllocError>
        ensures { IfOk result (λ copy. copy ≡ self.now) }
    {
        let resource = self.resource.copy(alloc)?;
        let scope_name = self.scope_name.copy(alloc)?;
        let scope_version = self.scope_version.copy(alloc)?;
        let scope_attrs = self.scope_attrs.copy(alloc)?;
        let name = self.name.copy(alloc)?;
        let unit = self.unit.copy(alloc)?;
        let kind = self.kind.copy(alloc)?;
        let attrs = self.attrs.copy(alloc)?;
        Ok(SeriesId {
            resource,
            scope_name,
            scope_version,
            scope_attrs,
            name,
            unit,
            kind,
            attrs,
        })
    }

    /// Whether both identify the same series: whether all fields are equal.
    #[tactic(auto, unfolding(crate::specs::Order::same_series))]
    pub fn is_same(&self, other: &SeriesId) -> bool
        ensures value { result ≡ same_series self.now other.now }
        ensures exact { IsTrue result ↔ (self.now ≡ other.now) }
    {
        self.compare(other).is_eq()
    }

    /// Whether this series comes before the other in the order of series.
    #[tactic(auto, unfolding(crate::specs::Order::series_before))]
    pub fn is_before(&self, other: &SeriesId) -> bool
        ensures { result ≡ series_before self.now other.now }
    {
        self.compare(other).is_lt()
    }

    /// Whether both series have the same resource attributes.
    pub fn shares_resource(&self, other: &SeriesId) -> bool
        ensures value { result ≡ shares_resource self.now other.now }
        ensures exact { IsTrue result ↔ HasOneResource self.now other.now }
    {
        self.compare_resource(other).is_eq()
    }

    /// Whether both series have the same scope: name, version and attributes.
    pub fn shares_scope(&self, other: &SeriesId) -> bool
        ensures value { result ≡ shares_scope self.now other.now }
        ensures exact { IsTrue result ↔ HasOneScope self.now other.now }
    {
        self.compare_scope(other).is_eq()
    }

    /// Whether both series have the same stream: the metric's name, unit and kind.
    pub fn shares_stream(&self, other: &SeriesId) -> bool
        ensures value { result ≡ shares_stream self.now other.now }
        ensures exact { IsTrue result ↔ HasOneStream self.now other.now }
    {
        self.compare_stream(other).is_eq()
    }

    /// Compares two series: the first field that differs decides.
    #[tactic(auto, unfolding(crate::specs::Order::series_cmp))]
    fn compare(&self, other: &SeriesId) -> Ordering
        ensures { result ≡ series_cmp self.now other.now }
    {
        let resource = self.compare_resource(other);
        if resource.is_ne() {
            return resource;
        }
        let scope = self.compare_scope(other);
        if scope.is_ne() {
            return scope;
        }
        self.compare_metric(other)
    }

    /// Compares the resources.
    fn compare_resource(&self, other: &SeriesId) -> Ordering
        ensures { result ≡ resource_cmp self.now other.now }
    {
        self.resource.compare(&other.resource)
    }

    /// Compares the scopes: name, version and attributes.
    #[tactic(auto, unfolding(crate::specs::Order::scope_cmp))]
    fn compare_scope(&self, other: &SeriesId) -> Ordering
        ensures { result ≡ scope_cmp self.now other.now }
    {
        let name = self.scope_name.compare(&other.scope_name);
        if name.is_ne() {
            return name;
        }
        let version = self.scope_version.compare(&other.scope_version);
        if version.is_ne() {
            return version;
        }
        self.scope_attrs.compare(&other.scope_attrs)
    }

    /// Compares the metrics: name, unit, kind and point attributes.
    #[tactic(auto, unfolding(crate::specs::Order::metric_cmp))]
    fn compare_metric(&self, other: &SeriesId) -> Ordering
        ensures { result ≡ metric_cmp self.now other.now }
    {
        let stream = self.compare_stream(other);
        if stream.is_ne() {
            return stream;
        }
        self.attrs.compare(&other.attrs)
    }

    /// Compares the streams: the metric's name, unit and kind.
    fn compare_stream(&self, other: &SeriesId) -> Ordering
        ensures { result ≡ stream_cmp self.now other.now }
    {
        let name = self.name.compare(&other.name);
        if name.is_ne() {
            return name;
        }
        let unit = self.unit.compare(&other.unit);
        if unit.is_ne() {
            return unit;
        }
        self.kind.compare(&other.kind)
    }
}

impl PartialEq for SeriesId {
    ghost eq = { same_series };

    ghost laws = { same_series_per };

    fn eq(&self, other: &SeriesId) -> bool {
        self.is_same(other)
    }
}

impl Eq for SeriesId {
    ghost laws = { same_series_equiv };
}

impl PartialOrd for SeriesId {
    ghost partial_cmp = { λ x y. Some (series_cmp x y) };

    ghost laws = { series_po };

    fn partial_cmp(&self, other: &SeriesId) -> Option<Ordering> {
        Some(self.compare(other))
    }
}

impl Ord for SeriesId {
    ghost cmp = { series_cmp };

    ghost total = { series_total };

    ghost matches_partial_cmp = { λ x y. refl };

    ghost matches_eq = { same_series_ties };

    fn cmp(&self, other: &SeriesId) -> Ordering {
        SeriesId::compare(self, other)
    }
}
