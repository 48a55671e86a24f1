ghost use Rattle.std.specs.List.Sorted.{IsNonDecreasingBy};
ghost use Rattle.std.specs.List.{list_all, list_any};
ghost use Rattle.std.specs.Prelude.{◌≡◌, ◌&&◌, Bool, nat_eq};
ghost use Rattle.dq_base.specs.Canonical.{IsCanonical};
ghost use Rattle.dq_base.specs.Covering as cover;
ghost use Rattle.dq_base.specs.Covering.{Filled, Total, needs};
ghost use Rattle.dq_base.specs.Dims.{dim_eq};
ghost use Rattle.dq_base.specs.declared.predicate.Predicate.{Predicate as PredicateOf};
ghost use Rattle.dq_base.specs.declared.query.Query.{Query as QueryOf};
ghost use Rattle.dq_cover.specs.Parts.{AreParts};

use crate::members::is_member;
use crate::parts::{Parts, parts_of};
use crate::sameness::{same_dim, same_query};
use crate::testing::within;
use dq_base::{Canon, Dim, Measure, Predicate, Query};

/// Whether the bands of the one are made of whole bands of the other.
fn is_made_of(d: &Dim, e: &Dim) -> bool
    ensures { result ≡ cover.made_of d.now e.now }
{
    d.column() == e.column() && d.width() % e.width() == 0
}

fn makes(dims: &[Dim], d: &Dim) -> bool
    ensures { result ≡ list_any (cover.made_of d.now) dims.now }
{
    dims.iter().any(|e| is_made_of(d, e))
}

fn makes_all(p: &Query, dims: &[Dim]) -> bool
    ensures { result ≡ list_all (cover.makes p.now) dims.now }
{
    dims.iter().all(|d| makes(p.dims.as_slice(), d))
}

fn has_dim(dims: &[Dim], d: &Dim) -> bool
    ensures { result ≡ list_any (dim_eq d.now) dims.now }
{
    dims.iter().any(|e| same_dim(d, e))
}

fn all_in_dims(a: &[Dim], b: &[Dim]) -> bool
    ensures { result ≡ cover.all_in_dims a.now b.now }
{
    a.iter().all(|d| has_dim(b, d))
}

fn same_dims(p: &Query, q: &Query) -> bool
    ensures { result ≡ cover.same_dims p.now q.now }
{
    all_in_dims(p.dims.as_slice(), q.dims.as_slice())
        && all_in_dims(q.dims.as_slice(), p.dims.as_slice())
}

/// The predicates of an ascending list on a column, by halving.
fn on_column(filters: &[Predicate], column: u32) -> &[Predicate]
    requires { IsNonDecreasingBy (λ f. f.column) filters.now }
    ensures { (t : PredicateOf → Bool) → list_any (λ g. nat_eq g.column column && t g) result.now ≡ list_any (λ g. nat_eq g.column column && t g) filters.now }
{
    let first = filters.partition_point(|f| f.column < column);
    let rest = &filters[first..];
    let count = rest.partition_point(|f| f.column <= column);
    &rest[..count]
}

fn any_within(filters: &[Predicate], f: &Predicate) -> bool
    ensures { result ≡ list_any (λ g. nat_eq g.column f.now.column && cover.within g.test f.now.test) filters.now }
{
    filters
        .iter()
        .any(|g| g.column == f.column && within(&g.test, &f.test))
}

/// Whether some predicate of q on its column leaves only values of which this one holds.
fn is_implied(q: &Query, f: &Predicate) -> bool
    requires { IsCanonical q.now }
    ensures { result ≡ cover.implied q.now f.now }
{
    any_within(on_column(q.filters.as_slice(), f.column), f)
}

fn all_implied(q: &Query, filters: &[Predicate]) -> bool
    requires { IsCanonical q.now }
    ensures { result ≡ list_all (cover.implied q.now) filters.now }
{
    filters.iter().all(|f| is_implied(q, f))
}

fn is_predicate(p: &Query, g: &Predicate) -> bool
    requires { IsCanonical p.now }
    ensures { result ≡ list_any (cover.predicate_eq g.now) p.now.filters }
{
    is_member(p.filters.as_slice(), g)
}

fn is_checkable(parts: &Parts, p: &Query, g: &Predicate) -> bool
    requires canonical { IsCanonical p.now }
    requires parts { AreParts parts.now p.now }
    ensures { result ≡ cover.checkable p.now g.now }
{
    is_predicate(p, g) || parts.groups_by(p, g.column)
}

fn all_checkable(parts: &Parts, p: &Query, filters: &[Predicate]) -> bool
    requires canonical { IsCanonical p.now }
    requires parts { AreParts parts.now p.now }
    ensures { result ≡ list_all (cover.checkable p.now) filters.now }
{
    filters.iter().all(|g| is_checkable(parts, p, g))
}

fn gives_filled(parts: &Parts, p: &Query, c: u32) -> bool
    requires { AreParts parts.now p.now }
    ensures { (q : QueryOf) → result ≡ cover.gives p.now q (Filled c) }
{
    parts.shows(p, Measure::Count(c))
        || parts.shows(p, Measure::Avg(c))
        || (parts.groups_by(p, c) && parts.shows(p, Measure::Rows))
}

fn gives_total(parts: &Parts, p: &Query, c: u32) -> bool
    requires { AreParts parts.now p.now }
    ensures { (q : QueryOf) → result ≡ cover.gives p.now q (Total c) }
{
    parts.shows(p, Measure::Sum(c))
        || parts.shows(p, Measure::Avg(c))
        || (parts.groups_by(p, c) && parts.shows(p, Measure::Rows))
}

/// Whether the answer of p has the parts of a measure, for a query q. `alike` says whether they have the same dimensions.
fn gives(parts: &Parts, p: &Query, q: &Query, alike: bool, m: Measure) -> bool
    requires parts { AreParts parts.now p.now }
    requires alike { alike ≡ cover.same_dims p.now q.now }
    ensures { result ≡ list_all (cover.gives p.now q.now) (needs m) }
{
    match m {
        Measure::Rows => parts.shows(p, Measure::Rows),
        Measure::Count(c) => gives_filled(parts, p, c),
        Measure::Sum(c) => gives_total(parts, p, c),
        Measure::Min(c) => parts.shows(p, Measure::Min(c)) || parts.groups_by(p, c),
        Measure::Max(c) => parts.shows(p, Measure::Max(c)) || parts.groups_by(p, c),
        Measure::Distinct(c) => {
            parts.groups_by(p, c) || (parts.shows(p, Measure::Distinct(c)) && alike)
        }
        Measure::Avg(c) => gives_total(parts, p, c) && gives_filled(parts, p, c),
    }
}

fn all_given(parts: &Parts, p: &Query, q: &Query, alike: bool) -> bool
    requires parts { AreParts parts.now p.now }
    requires alike { alike ≡ cover.same_dims p.now q.now }
    ensures { result ≡ list_all (λ m. list_all (cover.gives p.now q.now) (needs m)) q.now.measures }
{
    q.measures
        .as_slice()
        .iter()
        .all(|m| gives(parts, p, q, alike, *m))
}

/// Whether the answer of p shows what the predicates and the measures of q need.
fn shows_enough(p: &Query, q: &Query) -> bool
    requires { IsCanonical p.now }
    ensures { result ≡ (list_all (cover.checkable p.now) q.now.filters && list_all (λ m. list_all (cover.gives p.now q.now) (needs m)) q.now.measures) }
{
    let parts = parts_of(p);
    all_checkable(&parts, p, q.filters.as_slice()) && all_given(&parts, p, q, same_dims(p, q))
}

fn query_covers(p: &Query, q: &Query) -> bool
    requires p { IsCanonical p.now }
    requires q { IsCanonical q.now }
    ensures { result ≡ cover.covers p.now q.now }
{
    p.source == q.source
        && (p.top.is_none() || same_query(p, q))
        && makes_all(p, q.dims.as_slice())
        && all_implied(q, p.filters.as_slice())
        && shows_enough(p, q)
}

/// Whether the answer of q can be computed from the answer of p. It takes no memory. The cost: the predicates of q are
/// found among those of p by halving, those of p among those of q on the same column; the measures of both are read once,
/// and their dimensions, which are few, are compared in pairs. Sources that differ are refused at once, and so is a p that
/// has a top and isn't q.
pub fn covers(p: &Canon, q: &Canon) -> bool
    ensures { result ≡ cover.covers p.now q.now }
{
    query_covers(p.query(), q.query())
}
