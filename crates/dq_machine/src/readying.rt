ghost use Rattle.std.specs.List.{fold};
ghost use Rattle.std.specs.Prelude.{◌≡◌, ◌+◌, ◌*◌, ◌<◌, ◌≤◌, ◌^◌, length, take, OnOk, IfOk};
ghost use Rattle.dq_link.specs.Mirrors.{holding, lists_in, long_list, long_lists, mounting, readying, roomed};

use crate::mirror::{Mirror, Readying};
use crate::needs::SPELLED;
use dq_base::{Memory, Predicate, Query, Test, Values};
use std::alloc::Global;

impl Readying {
    // Mounts a version, where another or none is mounted.
    fn mount_newly(&mut self, source: u32, stamp: u64) -> Result<(), Memory>
        requires { self.old.count < 2 ^ 127 }
        ensures moves { OnOk result (self.new ≡ mounting source stamp self.old) }
        ensures count { OnOk result (self.new.count ≤ self.old.count + 1) }
        ensures next { OnOk result (self.new.mirror.next + self.old.count ≤ self.old.mirror.next + self.new.count) }
    {
        if self.has_mounted(source, stamp) {
            return Ok(());
        }
        self.mount(source, stamp)
    }

    // Drops the table put longest ago of those whose list isn't needed, where no further table may stand.
    fn make_room(&mut self, filters: &[Predicate])
        requires { self.old.count < 2 ^ 127 }
        ensures moves { self.new ≡ roomed (lists_in filters.now) self.old }
        ensures count { self.new.count ≤ self.old.count + 1 }
        ensures least { self.old.count ≤ self.new.count }
        ensures next { self.new.mirror.next ≡ self.old.mirror.next }
    {
        if !self.is_full() {
            return;
        }
        match self.spare(filters) {
            None => {}
            Some(number) => self.drop_table(number),
        }
    }

    // Puts a list, where no table holds it.
    fn hold(&mut self, alloc: Global, filters: &[Predicate], list: &Values) -> Result<(), Memory>
        requires count { self.old.count + 1 < 2 ^ 127 }
        requires next { self.old.mirror.next < 2 ^ 127 }
        ensures moves { OnOk result (self.new ≡ holding (lists_in filters.now) self.old list.now) }
        ensures count { OnOk result (self.new.count ≤ self.old.count + 2) }
        ensures next { OnOk result (self.new.mirror.next + self.old.count ≤ self.old.mirror.next + self.new.count) }
    {
        if self.holds(list) {
            return Ok(());
        }
        self.make_room(filters);
        self.put(alloc, list)
    }

    // Puts it where it is long.
    fn hold_long(
        &mut self,
        alloc: Global,
        filters: &[Predicate],
        list: &Values,
    ) -> Result<(), Memory>
        requires count { self.old.count + 1 < 2 ^ 127 }
        requires next { self.old.mirror.next < 2 ^ 127 }
        ensures moves { OnOk result (self.new ≡ fold (holding (lists_in filters.now)) self.old (long_list list.now)) }
        ensures count { OnOk result (self.new.count ≤ self.old.count + 2) }
        ensures next { OnOk result (self.new.mirror.next + self.old.count ≤ self.old.mirror.next + self.new.count) }
    {
        if list.len() <= SPELLED {
            return Ok(());
        }
        self.hold(alloc, filters, list)
    }

    // Holds the list of a test.
    fn hold_of(&mut self, alloc: Global, filters: &[Predicate], test: &Test) -> Result<(), Memory>
        requires count { self.old.count + 1 < 2 ^ 127 }
        requires next { self.old.mirror.next < 2 ^ 127 }
        ensures moves { OnOk result (self.new ≡ fold (holding (lists_in filters.now)) self.old (long_lists test.now)) }
        ensures count { OnOk result (self.new.count ≤ self.old.count + 2) }
        ensures next { OnOk result (self.new.mirror.next + self.old.count ≤ self.old.mirror.next + self.new.count) }
    {
        match test {
            Test::Among(list) => self.hold_long(alloc, filters, list),
            Test::Except(list) => self.hold_long(alloc, filters, list),
            Test::Between(_, _) => Ok(()),
        }
    }

    // Holds the lists of the filters.
    fn hold_each(&mut self, alloc: Global, filters: &[Predicate]) -> Result<(), Memory>
        requires count { self.old.count ≤ 1 }
        requires next { self.old.mirror.next < 2 ^ 66 }
        ensures moves { OnOk result (self.new ≡ fold (holding (lists_in filters.now)) self.old (lists_in filters.now)) }
        ensures next { OnOk result (self.new.mirror.next + self.old.count ≤ self.old.mirror.next + self.new.count) }
        ensures count { OnOk result (self.new.count ≤ self.old.count + 2 * length filters.now) }
    {
        for predicate in filters {
            self.hold_of(alloc, filters, &predicate.test)?;
        }
        Ok(())
    }
}

/// A mirror that is made ready for a query of the version of that stamp, and how many calls that takes of the link.
pub(crate) fn make_ready(
    alloc: Global,
    mirror: Mirror,
    stamp: u64,
    query: &Query,
) -> Result<Readying, Memory>
    requires { mirror.next < 2 ^ 66 }
    ensures moves { IfOk result (λ r. r ≡ readying mirror stamp query.now) }
    ensures next { IfOk result (λ r. r.mirror.next ≤ mirror.next + r.count) }
    ensures count { IfOk result (λ r. r.count < 2 ^ 66) }
{
    let mut readying = Readying { mirror, count: 0 };
    readying.mount_newly(query.source, stamp)?;
    readying.hold_each(alloc, query.filters.as_slice())?;
    Ok(readying)
}
