ghost use Rattle.std.specs.Arc.{arc_value};
ghost use Rattle.std.specs.BTreeSet.{keys};
ghost use Rattle.std.specs.Prelude.{◌≡◌, ◌++◌, ◌∷◌, [], IfOk, OnOk, fold, length, map, List as ListOf};
ghost use Rattle.std.specs.Hash as fed;
ghost use Rattle.dq_base.specs.Sets.{set_of, with};
ghost use Rattle.dq_fuse.specs.Kinds.{HashWrites, kind_input, kind_of, pair_of, pair_cmp, predicate_input, test_input, value_input};

use dq_base::{Canon, Dim, List, Memory, Predicate, Query, Test, Value};
use std::alloc::Global;
use std::collections::BTreeSet;
use std::hash::{Hash, Hasher};
use std::marker::Model;
use std::sync::Arc;

/// What queries that fuse have in common: source, predicates, and the set of the dimensions with their widths.
#[derive(Drop)]
pub(crate) struct Kind {
    owner: Arc<Canon>,
    dims: List<(u32, u32)>,
}

impl Model for Kind {
    ghost use Rattle.std.specs.Arc.{arc_value};
    ghost use Rattle.dq_fuse.specs.Kinds.{KindOf};

    ghost Value = { KindOf };

    ghost view = { λ k. record { source = (arc_value k.owner).source; filters = (arc_value k.owner).filters; dims = k.dims } };
}

/// Puts a dimension into the set.
fn insert_dim(set: &mut BTreeSet<(u32, u32)>, dim: &Dim) -> Result<(), Memory>
    ensures { OnOk result (keys set.new ≡ with pair_cmp (pair_of dim.now) (keys set.old)) }
{
    set.insert((dim.column(), dim.width()))?;
    Ok(())
}

/// The columns and widths of the dimensions, ascending and without repeats.
fn dim_set(alloc: Global, dims: &[Dim]) -> Result<List<(u32, u32)>, Memory>
    ensures { IfOk result (λ set. set ≡ set_of pair_cmp (map pair_of dims.now)) }
{
    let mut set = BTreeSet::new(alloc);
    for dim in dims {
        insert_dim(&mut set, dim)?;
    }
    let items = set.into_iter().collect(alloc)?;
    Ok(List::from_vec(items))
}

impl Kind {
    /// The kind of a query, in the time of sorting its dimensions. It shares the query.
    pub(crate) fn of(alloc: Global, owner: &Arc<Canon>) -> Result<Kind, Memory>
        ensures { IfOk result (λ kind. kind ≡ kind_of (arc_value owner.now)) }
    {
        let dims = dim_set(alloc, owner.query().dims.as_slice())?;
        let owner = Arc::try_clone(owner)?;
        Ok(Kind { owner, dims })
    }
}

impl PartialEq for Kind {
    ghost use Rattle.std.specs.Cmp.{partial_equiv_from_equiv};
    ghost use Rattle.dq_fuse.specs.Kinds.{kind_eq};
    ghost use Rattle.dq_fuse.specs.KindLaws.{kind_eq_equiv};

    ghost eq = { kind_eq };

    ghost laws = { partial_equiv_from_equiv kind_eq_equiv };

    fn eq(&self, other: &Kind) -> bool {
        let own = self.owner.query();
        let its = other.owner.query();
        own.source == its.source && own.filters == its.filters && self.dims == other.dims
    }
}

impl Eq for Kind {
    ghost use Rattle.dq_fuse.specs.KindLaws.{kind_eq_equiv};

    ghost laws = { kind_eq_equiv };
}

impl Hash for Kind {
    ghost use Rattle.dq_fuse.specs.Kinds.{kind_input};
    ghost use Rattle.dq_fuse.specs.KindLaws.{kind_alike};

    ghost hash_input = { kind_input };

    ghost respects_eq = { kind_alike.fed };

    fn hash<H: Hasher>(&self, state: &mut H) {
        feed_kind(self.owner.query(), self.dims.as_slice(), state);
    }
}

/// The parts of a kind.
fn feed_kind<H: Hasher>(query: &Query, dims: &[(u32, u32)], state: &mut H)
    ensures { state.new ≡ fold H.write state.old (kind_input (record { source = query.now.source; filters = query.now.filters; dims = dims.now })) }
{
    state.write_u32(query.source);
    feed_all(query.filters.as_slice(), state);
    dims.hash(state);
}

/// What can be fed to a hasher.
trait Feeds {
    // The writes that `feed` makes, in their order.
    ghost input: { Self → HashWrites };

    fn feed<H: Hasher>(&self, state: &mut H)
        ensures { state.new ≡ fold H.write state.old (input self.now) };
}

/// The length, and then each item.
fn feed_all<T: Feeds, H: Hasher>(items: &[T], state: &mut H)
    ensures { state.new ≡ fold H.write state.old (fed.slice T.input items.now) }
{
    state.write_usize(items.len());
    for i in 0..items.len() {
        items[i].feed(state);
    }
}

impl Feeds for Value {
    ghost input = { value_input };

    fn feed<H: Hasher>(&self, state: &mut H) {
        match self {
            Value::Null => state.write_u8(0),
            Value::Int(n) => {
                state.write_u8(1);
                state.write_i64(*n);
            }
            Value::Word(text) => {
                state.write_u8(2);
                state.write_usize(text.bytes().len());
                state.write(text.bytes());
            }
        }
    }
}

impl Feeds for Test {
    ghost input = { test_input };

    fn feed<H: Hasher>(&self, state: &mut H) {
        match self {
            Test::Among(list) => {
                state.write_u8(0);
                feed_all(list.as_slice(), state);
            }
            Test::Except(list) => {
                state.write_u8(1);
                feed_all(list.as_slice(), state);
            }
            Test::Between(low, high) => {
                state.write_u8(2);
                low.hash(state);
                high.hash(state);
            }
        }
    }
}

impl Feeds for Predicate {
    ghost input = { predicate_input };

    fn feed<H: Hasher>(&self, state: &mut H) {
        state.write_u32(self.column);
        self.test.feed(state);
    }
}
