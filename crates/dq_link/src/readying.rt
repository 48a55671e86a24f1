ghost use Rattle.std.specs.Arc.{arc_value};
ghost use Rattle.std.specs.List.{fold};
ghost use Rattle.std.specs.Prelude.{◌≡◌, None, Some, IfOk};
ghost use Rattle.dq_base.specs.Answers.{answer};
ghost use Rattle.dq_base.specs.Validity.{first_reason};
ghost use Rattle.dq_text.specs.Said.{said};
ghost use Rattle.dq_text.specs.Statements.{spelling};
ghost use Rattle.dq_link.specs.Meanings.{Means};
ghost use Rattle.dq_link.specs.Mirrors.{holding, lists_in, long_list, long_lists, mounting, preparing, roomed};
ghost use Rattle.dq_link.specs.Mounts.{KeepsAs, MountsAs, SetsAs, StandsFor};
ghost use Rattle.dq_link.specs.Steps.{Advances, CanAdvance};

use crate::fault::LinkFault;
use crate::link::Link;
use crate::mirrored::Mirrored;
use crate::needs::SPELLED;
use dq_base::{Predicate, Query, Test, Values};
use dq_extract::Extract;
use dq_text::Statement;
use std::alloc::Global;
use std::sync::Arc;

impl<L: Link> Mirrored<L> {
    /// Mounts a version, where another or none is mounted.
    fn mount_newly(
        &mut self,
        alloc: Global,
        source: u32,
        stamp: u64,
        extract: &Arc<Extract>,
    ) -> Result<(), LinkFault>
        requires can { CanAdvance L.mounts L.tables L.faults L.runs L.calls L.planned (mounting source stamp) self.old }
        requires stands { StandsFor (L.mounts self.old.link) source (record { stamp = stamp; version = arc_value extract.now }) }
        ensures moves { Advances L.mounts L.tables L.faults L.runs L.calls L.planned (mounting source stamp) self.old self.new result }
        ensures mounts { SetsAs source (Some (record { stamp = stamp; version = arc_value extract.now })) (L.mounts self.old.link) (L.mounts self.new.link) result }
    {
        if self.has_mounted(source, stamp) {
            return Ok(());
        }
        self.mount(alloc, source, stamp, extract)
    }

    /// Drops the table put longest ago of those whose list isn't needed, where no further table may stand.
    fn make_room(&mut self, alloc: Global, filters: &[Predicate]) -> Result<(), LinkFault>
        requires { CanAdvance L.mounts L.tables L.faults L.runs L.calls L.planned (roomed (lists_in filters.now)) self.old }
        ensures moves { Advances L.mounts L.tables L.faults L.runs L.calls L.planned (roomed (lists_in filters.now)) self.old self.new result }
        ensures mounts { KeepsAs (L.mounts self.old.link) (L.mounts self.new.link) result }
    {
        if !self.is_full() {
            return Ok(());
        }
        match self.spare(filters) {
            None => Ok(()),
            Some(number) => self.drop_table(alloc, number),
        }
    }

    /// Puts a list, where no table holds it.
    fn hold(&mut self, alloc: Global, filters: &[Predicate], list: &Values) -> Result<(), LinkFault>
        requires { CanAdvance L.mounts L.tables L.faults L.runs L.calls L.planned (λ r. holding (lists_in filters.now) r list.now) self.old }
        ensures moves { Advances L.mounts L.tables L.faults L.runs L.calls L.planned (λ r. holding (lists_in filters.now) r list.now) self.old self.new result }
        ensures mounts { KeepsAs (L.mounts self.old.link) (L.mounts self.new.link) result }
    {
        if self.holds(list) {
            return Ok(());
        }
        self.make_room(alloc, filters)?;
        self.put(alloc, list)
    }

    fn hold_long(
        &mut self,
        alloc: Global,
        filters: &[Predicate],
        list: &Values,
    ) -> Result<(), LinkFault>
        requires { CanAdvance L.mounts L.tables L.faults L.runs L.calls L.planned (λ r. fold (holding (lists_in filters.now)) r (long_list list.now)) self.old }
        ensures moves { Advances L.mounts L.tables L.faults L.runs L.calls L.planned (λ r. fold (holding (lists_in filters.now)) r (long_list list.now)) self.old self.new result }
        ensures mounts { KeepsAs (L.mounts self.old.link) (L.mounts self.new.link) result }
    {
        if list.len() <= SPELLED {
            return Ok(());
        }
        self.hold(alloc, filters, list)
    }

    fn hold_of(
        &mut self,
        alloc: Global,
        filters: &[Predicate],
        test: &Test,
    ) -> Result<(), LinkFault>
        requires { CanAdvance L.mounts L.tables L.faults L.runs L.calls L.planned (λ r. fold (holding (lists_in filters.now)) r (long_lists test.now)) self.old }
        ensures moves { Advances L.mounts L.tables L.faults L.runs L.calls L.planned (λ r. fold (holding (lists_in filters.now)) r (long_lists test.now)) self.old self.new result }
        ensures mounts { KeepsAs (L.mounts self.old.link) (L.mounts self.new.link) result }
    {
        match test {
            Test::Among(list) => self.hold_long(alloc, filters, list),
            Test::Except(list) => self.hold_long(alloc, filters, list),
            Test::Between(_, _) => Ok(()),
        }
    }

    /// Holds the lists of some of the filters.
    fn hold_each(
        &mut self,
        alloc: Global,
        filters: &[Predicate],
        some: &[Predicate],
    ) -> Result<(), LinkFault>
        requires { CanAdvance L.mounts L.tables L.faults L.runs L.calls L.planned (λ r. fold (holding (lists_in filters.now)) r (lists_in some.now)) self.old }
        ensures moves { Advances L.mounts L.tables L.faults L.runs L.calls L.planned (λ r. fold (holding (lists_in filters.now)) r (lists_in some.now)) self.old self.new result }
        ensures mounts { KeepsAs (L.mounts self.old.link) (L.mounts self.new.link) result }
    {
        match some.split_first() {
            None => Ok(()),
            Some((first, others)) => {
                self.hold_of(alloc, filters, &first.test)?;
                self.hold_each(alloc, filters, others)
            }
        }
    }

    /// Mounts the version that a query is of, and holds the query's lists.
    pub(crate) fn prepare(
        &mut self,
        alloc: Global,
        stamp: u64,
        extract: &Arc<Extract>,
        query: &Query,
    ) -> Result<(), LinkFault>
        requires can { CanAdvance L.mounts L.tables L.faults L.runs L.calls L.planned (preparing stamp query.now) self.old }
        requires stands { StandsFor (L.mounts self.old.link) query.now.source (record { stamp = stamp; version = arc_value extract.now }) }
        ensures moves { Advances L.mounts L.tables L.faults L.runs L.calls L.planned (preparing stamp query.now) self.old self.new result }
        ensures mounts { MountsAs query.now.source (record { stamp = stamp; version = arc_value extract.now }) (L.mounts self.old.link) (L.mounts self.new.link) result }
    {
        self.mount_newly(alloc, query.source, stamp, extract)?;
        let filters = query.filters.as_slice();
        self.hold_each(alloc, filters, filters)
    }

    /// Makes the link ready for a query of a version, and says the query's statement.
    pub(crate) fn ready(
        &mut self,
        alloc: Global,
        stamp: u64,
        extract: &Arc<Extract>,
        query: &Query,
    ) -> Result<Statement, LinkFault>
        requires can { CanAdvance L.mounts L.tables L.faults L.runs L.calls L.planned (preparing stamp query.now) self.old }
        requires stands { StandsFor (L.mounts self.old.link) query.now.source (record { stamp = stamp; version = arc_value extract.now }) }
        requires valid { first_reason (arc_value extract.now).heading.sorts query.now ≡ None }
        ensures moves { Advances L.mounts L.tables L.faults L.runs L.calls L.planned (preparing stamp query.now) self.old self.new result }
        ensures mounts { MountsAs query.now.source (record { stamp = stamp; version = arc_value extract.now }) (L.mounts self.old.link) (L.mounts self.new.link) result }
        ensures said { IfOk result (λ s. s ≡ said self.new.mirror.tables stamp query.now) }
        ensures means { IfOk result (λ s. Means (L.mounts self.new.link) (L.tables self.new.link) (spelling s) (answer query.now (arc_value extract.now).rows)) }
    {
        self.prepare(alloc, stamp, extract, query)?;
        let statement = self.say(alloc, stamp, query)?;
        Ok(statement)
    }
}
