ghost use Rattle.std.specs.Prelude.{◌≡◌, ◌^◌, ◌<◌};
ghost use Rattle.dq_text.specs.Statements.{spelling};
ghost use Rattle.dq_link.specs.Meanings.{HasMeaning, Means};
ghost use Rattle.dq_link.specs.Mounts.{Same};
ghost use Rattle.dq_link.specs.Ran.{CountsAs, LastAs, OfAny, OfDone, OfKept, RoseAs};

use crate::fault::LinkFault;
use crate::link::Link;
use crate::pooled::{Pooled, Wreck};
use dq_base::Table;
use dq_text::{Statement, print};
use std::alloc::Global;
use std::snapshot::Snapshot;

/// A link that ran a statement, and the table that it gave; or why it didn't.
#[derive(Drop)]
pub enum Ran<L: Link> {
    /// The table is what the statement means.
    Done(Pooled<L>, Table),
    /// Memory was wanting, for the text or in the link.
    Memory(Pooled<L>),
    /// The link failed.
    Failed(Wreck<L>),
}

impl<L: Link> Pooled<L> {
    /// Runs a statement, whose text has to mean something over what stands on the link. Where its text finds no memory, the link
    /// isn't called, and its runs tell that. After `Done` and `Memory` the same stands as before. The cost is that of the text and
    /// of the link's run.
    pub fn run(self, alloc: Global, s: &Statement) -> Ran<L>
        requires meaning { HasMeaning (L.mounts self.link) (L.tables self.link) (spelling s.now) }
        requires room { L.calls self.link < 2 ^ 40 }
        ensures number { OfAny (λ number link. number ≡ self.number) result }
        ensures planned { OfAny (λ number link. L.planned link ≡ L.planned self.link) result }
        ensures counts { CountsAs L.runs L.calls self.link result }
        ensures answer { OfDone (λ table. Means (L.mounts self.link) (L.tables self.link) (spelling s.now) table) result }
        ensures mirror { OfKept (λ p. p.mirror ≡ self.mirror) result }
        ensures mounts { OfKept (λ p. Same (L.mounts self.link) (L.mounts p.link)) result }
        ensures tables { OfKept (λ p. Same (L.tables self.link) (L.tables p.link)) result }
        ensures faults { RoseAs L.faults (L.faults self.link) result }
        ensures last { LastAs L.runs self (spelling s.now) result }
    {
        let Pooled {
            number,
            runs,
            mut mirrored,
            last,
        } = self;
        let Ok(text) = print(alloc, s) else {
            return Ran::Memory(Pooled {
                number,
                runs,
                mirrored,
                last,
            });
        };
        let runs = runs + 1;
        let last = Some(Snapshot::of(&text));
        match mirrored.run(alloc, text.bytes()) {
            Ok(table) => Ran::Done(
                Pooled {
                    number,
                    runs,
                    mirrored,
                    last,
                },
                table,
            ),
            Err(LinkFault::Memory) => Ran::Memory(Pooled {
                number,
                runs,
                mirrored,
                last,
            }),
            Err(LinkFault::Failed) => {
                let calls = mirrored.calls();
                Ran::Failed(Wreck {
                    number,
                    runs,
                    calls,
                    link: mirrored.into_link(),
                })
            }
        }
    }
}
