ghost use Rattle.std.specs.Arc.{arc_value};
ghost use Rattle.std.specs.Prelude.{◌≡◌, ◌<◌, ◌∷◌, IfOk, OnOk, fold, length, map};
ghost use Rattle.indexmap.specs.IndexSet.{keys};
ghost use Rattle.dq_base.specs.Batches as batch;
ghost use Rattle.dq_base.specs.Batches.{union, with_measure};
ghost use Rattle.dq_base.specs.Canonical.{IsCanonical};
ghost use Rattle.dq_fuse.specs.Shown.{tag_of};

use dq_base::{Canon, Canons, Duplicate, List, Measure, Measures, Memory, Query};
use indexmap::IndexSet;
use std::alloc::Global;
use std::hash::{Hash, Hasher};
use std::sync::Arc;

/// A measure that can be looked up.
#[derive(Clone, Copy)]
struct Shown(Measure);

/// The kind of a measure, and its column.
fn tag(measure: Measure) -> (u8, u32)
    ensures { result ≡ tag_of measure }
{
    match measure {
        Measure::Rows => (0, 0),
        Measure::Count(c) => (1, c),
        Measure::Sum(c) => (2, c),
        Measure::Min(c) => (3, c),
        Measure::Max(c) => (4, c),
        Measure::Distinct(c) => (5, c),
        Measure::Avg(c) => (6, c),
    }
}

impl PartialEq for Shown {
    ghost use Rattle.std.specs.Cmp.{partial_equiv_from_equiv};
    ghost use Rattle.dq_fuse.specs.Shown.{tag_eq, tag_eq_equiv};

    ghost eq = { λ a b. tag_eq a.0 b.0 };

    ghost laws = { partial_equiv_from_equiv (tag_eq_equiv (λ a. a.0)) };

    fn eq(&self, other: &Shown) -> bool {
        tag(self.0) == tag(other.0)
    }
}

impl Eq for Shown {
    ghost use Rattle.dq_fuse.specs.Shown.{tag_eq_equiv};

    ghost laws = { tag_eq_equiv (λ a. a.0) };
}

impl Hash for Shown {
    ghost use Rattle.dq_fuse.specs.Shown.{tag_input, tag_alike};

    ghost hash_input = { λ a. tag_input a.0 };

    ghost respects_eq = { (tag_alike (λ a. a.0)).fed };

    fn hash<H: Hasher>(&self, state: &mut H) {
        tag(self.0).hash(state);
    }
}

/// Puts measures into the set; what is new goes to the end.
fn insert_all(seen: &mut IndexSet<Shown>, measures: &[Measure]) -> Result<(), Memory>
    ensures { OnOk result (map (λ s. s.0) (keys seen.new) ≡ fold with_measure (map (λ s. s.0) (keys seen.old)) measures.now) }
{
    for measure in measures {
        seen.insert(Shown(*measure))?;
    }
    Ok(())
}

/// Puts all queries' measures into the set.
fn insert_each(seen: &mut IndexSet<Shown>, queries: &[Arc<Canon>]) -> Result<(), Memory>
    ensures { OnOk result (map (λ s. s.0) (keys seen.new) ≡ fold (λ ms q. fold with_measure ms q.measures) (map (λ s. s.0) (keys seen.old)) (map arc_value queries.now)) }
{
    for owner in queries {
        insert_all(seen, owner.query().measures.as_slice())?;
    }
    Ok(())
}

/// The measures of a set in its order.
fn list_of(alloc: Global, seen: &IndexSet<Shown>) -> Result<Measures, Memory>
    ensures { IfOk result (λ list. list ≡ map (λ s. s.0) (keys seen.now)) }
{
    let mut list = List::new(alloc);
    for shown in seen.as_slice() {
        list.push(shown.0)?;
    }
    Ok(list)
}

/// The measures of all, in first-seen order.
fn union_of(alloc: Global, first: &Query, others: &Canons) -> Result<Measures, Memory>
    ensures { IfOk result (λ list. list ≡ union (first.now ∷ others.now)) }
{
    let mut seen = IndexSet::new(alloc);
    insert_all(&mut seen, first.measures.as_slice())?;
    insert_each(&mut seen, others.as_slice())?;
    list_of(alloc, &seen)
}

/// The key of a group of more than one.
pub(crate) fn fused_key(alloc: Global, first: &Query, others: &Canons) -> Result<Arc<Canon>, Memory>
    requires canonical { IsCanonical first.now }
    requires more { 0 < length others.now }
    ensures { IfOk result (λ key. arc_value key ≡ batch.fused_key others.now first.now) }
{
    let query = Query {
        source: first.source,
        filters: first.filters.duplicate(alloc)?,
        dims: first.dims.duplicate(alloc)?,
        measures: union_of(alloc, first, others)?,
        order: List::new(alloc),
        top: None,
    };
    let key = Arc::new(alloc, Canon::new(query))?;
    Ok(key)
}
