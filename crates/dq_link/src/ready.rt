ghost use Rattle.std.specs.Arc.{arc_value};
ghost use Rattle.std.specs.Prelude.{◌≡◌, ◌-◌, ◌^◌, ◌≤◌, None};
ghost use Rattle.dq_base.specs.Answers.{answer};
ghost use Rattle.dq_base.specs.Validity.{first_reason};
ghost use Rattle.dq_text.specs.Said.{said};
ghost use Rattle.dq_text.specs.Statements.{spelling};
ghost use Rattle.dq_link.specs.Meanings.{Means};
ghost use Rattle.dq_link.specs.Mirrors.{readied, readying_count};
ghost use Rattle.dq_link.specs.Mounts.{StandsFor};
ghost use Rattle.dq_link.specs.Readied.{CallsAs, LastAs, MountedAs, OfAny, OfReady, RoseAs};

use crate::fault::LinkFault;
use crate::link::Link;
use crate::pooled::{Pooled, Wreck};
use dq_base::Canon;
use dq_extract::Extract;
use dq_text::Statement;
use std::alloc::Global;
use std::sync::Arc;

/// A link that was made ready for a query, and the statement of the query on it; or why it wasn't.
#[derive(Drop)]
pub enum Readied<L: Link> {
    /// The link is ready.
    Ready(Pooled<L>, Statement),
    /// Memory was wanting. What was done so far stands.
    Memory(Pooled<L>),
    /// The link failed.
    Failed(Wreck<L>),
}

impl<L: Link> Pooled<L> {
    /// Makes the link ready for a query of a version. The version is mounted where another or none is. Each list of more than 16
    /// values is put into a table, where none holds it; where 16 tables stand, the one put longest ago of those that the
    /// query doesn't need is dropped first. The cost is that of reading the query and the tables' lists once for each list.
    pub fn ready(self, alloc: Global, stamp: u64, extract: &Arc<Extract>, key: &Canon) -> Readied<L>
        requires valid { first_reason (arc_value extract.now).heading.sorts key.now ≡ None }
        requires stands { StandsFor (L.mounts self.link) key.now.source (record { stamp = stamp; version = arc_value extract.now }) }
        requires room { L.calls self.link ≤ 2 ^ 40 - 34 }
        ensures number { OfAny (λ number link. number ≡ self.number) result }
        ensures runs { OfAny (λ number link. L.runs link ≡ L.runs self.link) result }
        ensures planned { OfAny (λ number link. L.planned link ≡ L.planned self.link) result }
        ensures calls { CallsAs (readying_count self.mirror stamp key.now) L.calls (L.calls self.link) result }
        ensures few { readying_count self.mirror stamp key.now ≤ 33 }
        ensures mirror { OfReady (λ p s. p.mirror ≡ readied self.mirror stamp key.now) result }
        ensures said { OfReady (λ p s. s ≡ said p.mirror.tables stamp key.now) result }
        ensures means { OfReady (λ p s. Means (L.mounts p.link) (L.tables p.link) (spelling s) (answer key.now (arc_value extract.now).rows)) result }
        ensures mounts { MountedAs key.now.source (record { stamp = stamp; version = arc_value extract.now }) L.mounts (L.mounts self.link) result }
        ensures faults { RoseAs L.faults (L.faults self.link) result }
        ensures last { LastAs self.last result }
    {
        let Pooled {
            number,
            runs,
            mut mirrored,
            last,
        } = self;
        match mirrored.ready(alloc, stamp, extract, key.query()) {
            Ok(statement) => Readied::Ready(
                Pooled {
                    number,
                    runs,
                    mirrored,
                    last,
                },
                statement,
            ),
            Err(LinkFault::Memory) => Readied::Memory(Pooled {
                number,
                runs,
                mirrored,
                last,
            }),
            Err(LinkFault::Failed) => {
                let calls = mirrored.calls();
                Readied::Failed(Wreck {
                    number,
                    runs,
                    calls,
                    link: mirrored.into_link(),
                })
            }
        }
    }
}
