ghost use Rattle.std.specs.Arc.{arc_value};
ghost use Rattle.std.specs.Prelude.{◌≡◌, ◌+◌, ℕ, Option, Some, None, IfOk, IsSome};
ghost use Rattle.dq_link.specs.Calls.{CountsFaults, HasRoom};
ghost use Rattle.dq_link.specs.Meanings.{HasMeaning, Means};
ghost use Rattle.dq_link.specs.Mounts.{Holdings, Mounts, KeepsAs, SetsAs};

use crate::fault::LinkFault;
use dq_base::{Table, Values};
use dq_extract::Extract;
use std::alloc::Global;
use std::sync::Arc;

/// A connection to a back end, which holds versions of extracts and tables of values, and runs statements over them. What its
/// calls cost is the back end's.
///
/// `Failed` comes only where the count of faults rose in that call, or stands at its end, and tells nothing of what stands then.
/// `Memory` changes nothing but the counts.
pub trait Link: Drop {
    /// The version that is mounted for each source, and its stamp.
    ghost mounts: { Self → Mounts };

    /// The list in each table, by the table's number.
    ghost tables: { Self → Holdings };

    /// How often it has failed. The count stands still at the last value of u64.
    ghost faults: { Self → ℕ };

    /// How often `run` was called.
    ghost runs: { Self → ℕ };

    /// How often a call was made, but for `faults`.
    ghost calls: { Self → ℕ };

    /// The number of the call that is planned to fail, from 1, and 0 for none, where it tells that.
    ghost planned: { Self → Option ℕ };

    /// Mounts a version for its source, in place of the one that was mounted.
    fn mount(
        &mut self,
        alloc: Global,
        source: u32,
        stamp: u64,
        extract: Arc<Extract>,
    ) -> Result<(), LinkFault>
        requires { HasRoom (runs self.old) (calls self.old) }
        ensures mounts { SetsAs source (Some (record { stamp = stamp; version = arc_value extract })) (mounts self.old) (mounts self.new) result }
        ensures tables { KeepsAs (tables self.old) (tables self.new) result }
        ensures cause { CountsFaults (faults self.old) (faults self.new) result }
        ensures calls { calls self.new ≡ calls self.old + 1 }
        ensures runs { runs self.new ≡ runs self.old }
        ensures planned { planned self.new ≡ planned self.old };

    /// Puts a list into a new table of that number.
    fn put_table(&mut self, alloc: Global, name: u64, list: Arc<Values>) -> Result<(), LinkFault>
        requires room { HasRoom (runs self.old) (calls self.old) }
        requires new { tables self.old name ≡ None }
        ensures mounts { KeepsAs (mounts self.old) (mounts self.new) result }
        ensures tables { SetsAs name (Some (arc_value list)) (tables self.old) (tables self.new) result }
        ensures cause { CountsFaults (faults self.old) (faults self.new) result }
        ensures calls { calls self.new ≡ calls self.old + 1 }
        ensures runs { runs self.new ≡ runs self.old }
        ensures planned { planned self.new ≡ planned self.old };

    /// Takes a table out.
    fn drop_table(&mut self, alloc: Global, name: u64) -> Result<(), LinkFault>
        requires room { HasRoom (runs self.old) (calls self.old) }
        requires there { IsSome (tables self.old name) }
        ensures mounts { KeepsAs (mounts self.old) (mounts self.new) result }
        ensures tables { SetsAs name None (tables self.old) (tables self.new) result }
        ensures cause { CountsFaults (faults self.old) (faults self.new) result }
        ensures calls { calls self.new ≡ calls self.old + 1 }
        ensures runs { runs self.new ≡ runs self.old }
        ensures planned { planned self.new ≡ planned self.old };

    /// Runs a statement, whose text has to mean something over what is mounted and put: the answer that it means.
    fn run(&mut self, alloc: Global, text: &[u8]) -> Result<Table, LinkFault>
        requires room { HasRoom (runs self.old) (calls self.old) }
        requires meaning { HasMeaning (mounts self.old) (tables self.old) text.now }
        ensures answer { IfOk result (λ table. Means (mounts self.old) (tables self.old) text.now table) }
        ensures mounts { KeepsAs (mounts self.old) (mounts self.new) result }
        ensures tables { KeepsAs (tables self.old) (tables self.new) result }
        ensures cause { CountsFaults (faults self.old) (faults self.new) result }
        ensures calls { calls self.new ≡ calls self.old + 1 }
        ensures runs { runs self.new ≡ runs self.old + 1 }
        ensures planned { planned self.new ≡ planned self.old };

    /// The count of faults. It isn't counted as a call.
    fn faults(&self) -> u64
        ensures { result ≡ faults self.now };
}
