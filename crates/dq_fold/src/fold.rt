ghost use Rattle.std.specs.Prelude.{◌≡◌, ◌+◌, ◌^◌, ◌<◌, ◌≤◌, ◌++◌, ◌∷◌, [], true, false, List as ListOf, IfOk, OnErr, OnOk, map};
ghost use Rattle.dq_base.specs.Answers.{answer, first_rows};
ghost use Rattle.dq_base.specs.Canonical.{IsCanonical};
ghost use Rattle.dq_base.specs.declared.value.Value.{Value as ValueOf};
ghost use Rattle.dq_fold.specs.Folding.{IsGroups, folded, groups_of};

use crate::groups::{Groups, add_row, fill, merge_groups, no_tallies, rows_of};
use crate::keeps::is_kept;
use crate::order::sort_rows;
use dq_base::{Canon, List, Memory, Query, Table, Value, Values};
use std::alloc::Global;
use std::marker::Model;

/// The groups of the rows that were added, for one query, which it borrows. Contracts see it as the query, the groups by
/// key, how many rows were added, and whether an addition failed: then it is spent.
#[derive(Drop)]
pub struct Fold<'a> {
    alloc: Global,
    key: &'a Canon,
    buffer: Values,
    groups: Groups,
    rows: u64,
    // No code reads it: it is there for the invariant, which says nothing of a fold that is spent.
    spent: bool,
}

impl<'a> Model for Fold<'a> {
    ghost use Rattle.dq_fold.specs.Folding.{Folded, IsFolding};

    ghost Value = { Folded };

    ghost view = { λ f. record { key = f.key.now; groups = f.groups; rows = f.rows; spent = f.spent } };

    ghost invariant = { λ f. IsFolding (record { key = f.key.now; groups = f.groups; rows = f.rows; spent = f.spent }) };
}

impl<'a> Fold<'a> {
    /// The fold of no rows. Without dimensions it has one group from the start, and else none.
    pub fn new(alloc: Global, key: &'a Canon) -> Result<Fold<'a>, Memory>
        ensures { IfOk result (λ fold. fold ≡ folded key.now []) }
    {
        let groups = first_groups(alloc, key.query())?;
        Ok(Fold {
            alloc,
            key,
            buffer: List::new(alloc),
            groups,
            rows: 0,
            spent: false,
        })
    }

    /// Adds a row. A column that it lacks reads as null. After an `Err` the fold is spent, and can only be dropped.
    ///
    /// A row that isn't kept costs its predicates times the logarithm of their lists only. A row of a known group costs a
    /// look-up among the groups, mostly one comparison and at most the logarithm of the groups, and an addition for each
    /// measure.
    pub fn add(&mut self, values: &[Value]) -> Result<(), Memory>
        requires fresh { self.old.spent ≡ false }
        requires room { self.old.rows < 2 ^ 23 }
        ensures ok { OnOk result ((rows : ListOf (ListOf ValueOf)) → self.old ≡ folded self.old.key rows → self.new ≡ folded self.old.key (rows ++ values.now ∷ [])) }
        ensures err { OnErr result (self.new.spent ≡ true) }
    {
        self.spent = true;
        self.rows += 1;
        let key = self.key;
        add_to_groups(
            self.alloc,
            key.query(),
            &mut self.buffer,
            &mut self.groups,
            values,
        )?;
        self.spent = false;
        Ok(())
    }

    /// Adds the rows of another fold of the same query, after the rows of this one. After an `Err` the fold is spent, and
    /// can only be dropped.
    ///
    /// Each group of the other costs a look-up among the groups. One that this fold lacks is moved over; else there is an
    /// addition for each measure, and for each of its different values where they are counted. Of a known group only a new
    /// bound or a new different value takes memory.
    pub fn merge(&mut self, other: Fold<'a>) -> Result<(), Memory>
        requires fresh { self.old.spent ≡ false }
        requires other { other.spent ≡ false }
        requires same { other.key ≡ self.old.key }
        requires room { self.old.rows + other.rows ≤ 2 ^ 23 }
        ensures ok { OnOk result ((rows more : ListOf (ListOf ValueOf)) → self.old ≡ folded self.old.key rows → other.entry ≡ folded self.old.key more → self.new ≡ folded self.old.key (rows ++ more)) }
        ensures err { OnErr result (self.new.spent ≡ true) }
    {
        self.spent = true;
        self.rows += other.rows;
        merge_groups(self.alloc, &mut self.groups, other.groups)?;
        self.spent = false;
        Ok(())
    }

    /// The answer over the rows that were added. It costs a sort of the groups' rows.
    pub fn finish(self) -> Result<Table, Memory>
        requires { self.spent ≡ false }
        ensures { IfOk result (λ table. (rows : ListOf (ListOf ValueOf)) → self.entry ≡ folded self.entry.key rows → table ≡ answer self.entry.key rows) }
    {
        let key = self.key;
        let q = key.query();
        let mut rows = rows_of(self.alloc, &self.groups)?;
        sort_rows(q, &mut rows)?;
        Ok(first_of(List::from_vec(rows), q.top))
    }
}

/// The groups over no rows: one without dimensions, and else none.
fn first_groups(alloc: Global, q: &Query) -> Result<Groups, Memory>
    ensures { IfOk result (λ groups. groups ≡ groups_of q.now []) }
{
    let mut groups = Groups::new(alloc);
    if q.dims.len() != 0 {
        return Ok(groups);
    }
    let tallies = no_tallies(alloc, q.measures.as_slice())?;
    groups.insert(alloc, List::new(alloc), tallies)?;
    Ok(groups)
}

/// Adds a row to the group of its key, if the query keeps it.
fn add_to_groups(
    alloc: Global,
    q: &Query,
    buffer: &mut Values,
    groups: &mut Groups,
    row: &[Value],
) -> Result<(), Memory>
    requires canonical { IsCanonical q.now }
    requires groups { IsGroups q.now groups.old }
    ensures { OnOk result ((rows : ListOf (ListOf ValueOf)) → groups.old ≡ groups_of q.now rows → groups.new ≡ groups_of q.now (rows ++ row.now ∷ [])) }
{
    if !is_kept(q, row) {
        return Ok(());
    }
    fill(alloc, buffer, q.dims.as_slice(), row)?;
    add_row(alloc, groups, buffer, q.measures.as_slice(), row)?;
    Ok(())
}

/// The first rows, or all without a top.
fn first_of(table: Table, top: Option<u32>) -> Table
    ensures { result ≡ first_rows top table }
{
    let mut first = table;
    if let Some(count) = top {
        first.truncate(u64::from(count));
    }
    first
}
