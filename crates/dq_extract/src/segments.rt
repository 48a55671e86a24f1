ghost use Rattle.std.specs.Arc.{arc_value};
ghost use Rattle.std.specs.Prelude.{◌≡◌, ◌<◌, ◌^◌, [], ◌∷◌, ◌++◌, Some, IfOk, OnErr, OnOk, length, option_map, slice_get};

use crate::owners::Owners;
use crate::segment::Segment;
use dq_base::{Duplicate, Memory};
use std::alloc::Global;
use std::marker::Model;
use std::sync::Arc;

// How many segments a chunk has.
const CHUNK: u64 = 512;

// More chunks than any memory holds.
const MOST_CHUNKS: u64 = 4_294_967_296;

/// Shared segments in order. Contracts see what each owner owns; places count from 0.
///
/// They stand in chunks of 512, of which lists share the whole ones: a copy of `n` segments costs `n / 512` and 512 owners.
#[derive(Drop)]
pub struct SegmentList {
    whole: Owners<Owners<Segment>>,
    last: Owners<Segment>,
}

impl Model for SegmentList {
    ghost use Rattle.std.specs.Prelude.{List};
    ghost use Rattle.dq_base.specs.Versions.{Version};

    ghost Value = { List Version };

    ghost use Rattle.dq_extract.specs.Chunks.{AreChunks, in_chunks};

    ghost view = { λ l. in_chunks l.whole l.last };

    ghost invariant = { λ l. AreChunks l.whole l.last };
}

impl SegmentList {
    /// The empty list. It takes no memory.
    pub fn new(alloc: Global) -> SegmentList
        ensures { result ≡ [] }
    {
        SegmentList {
            whole: Owners::new(alloc),
            last: Owners::new(alloc),
        }
    }

    /// How many segments there are.
    pub fn len(&self) -> u64
        ensures { result ≡ length self.now }
    {
        self.whole.len() * CHUNK + self.last.len()
    }

    /// The segment at a place, or none exactly where the place isn't below the length. The cost is constant.
    pub fn get(&self, place: u64) -> Option<&Arc<Segment>>
        ensures { option_map (λ owner. arc_value owner.now) result ≡ slice_get self.now place }
    {
        match self.whole.get(place / CHUNK) {
            Some(chunk) => chunk.get(place % CHUNK),
            None => self.last.get(place - self.whole.len() * CHUNK),
        }
    }

    /// Puts a segment at the end, in constant time but for growth, and each 512 times in the time of a chunk. An `Err`
    /// changes nothing.
    pub fn push(&mut self, owner: Arc<Segment>) -> Result<(), Memory>
        ensures ok { OnOk result (self.new ≡ self.old ++ arc_value owner ∷ []) }
        ensures err { OnErr result (self.new ≡ self.old) }
    {
        if self.last.len() < CHUNK {
            return self.last.push(owner);
        }
        close_chunk(&mut self.whole, &mut self.last, owner)
    }

    /// One more owner of the segment at a place. Its rows aren't copied.
    pub fn share(&self, place: u64) -> Result<Arc<Segment>, Memory>
        requires { place < length self.now }
        ensures { IfOk result (λ owner. slice_get self.now place ≡ Some (arc_value owner)) }
    {
        let Some(owner) = self.get(place) else {
            unreachable!();
        };
        match Arc::try_clone(owner) {
            Ok(more) => Ok(more),
            Err(_) => Err(Memory),
        }
    }
}

// The last chunk, which is whole, goes to the others, and this segment begins the next. An `Err` changes nothing.
fn close_chunk(
    whole: &mut Owners<Owners<Segment>>,
    last: &mut Owners<Segment>,
    owner: Arc<Segment>,
) -> Result<(), Memory>
    ensures whole { OnOk result (whole.new ≡ whole.old ++ last.old ∷ []) }
    ensures last { OnOk result (last.new ≡ arc_value owner ∷ []) }
    ensures few { OnOk result (length whole.old < 2 ^ 32) }
    ensures same { OnErr result (whole.new ≡ whole.old) }
    ensures same_last { OnErr result (last.new ≡ last.old) }
{
    if MOST_CHUNKS <= whole.len() {
        return Err(Memory);
    }
    let alloc = last.alloc();
    let mut next = Owners::new(alloc);
    next.push(owner)?;
    let copy = last.duplicate(alloc)?;
    let chunk = Arc::new(alloc, copy)?;
    whole.push(chunk)?;
    *last = next;
    Ok(())
}

impl Duplicate for SegmentList {
    /// One more owner of each whole chunk, and of each segment of the last one.
    fn duplicate(&self, alloc: Global) -> Result<SegmentList, Memory> {
        let whole = self.whole.duplicate(alloc)?;
        let last = self.last.duplicate(alloc)?;
        Ok(SegmentList { whole, last })
    }
}
