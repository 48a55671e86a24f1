ghost use Rattle.std.specs.Prelude.{◌≡◌, ◌<◌, ◌^◌, ◌-◌, Some, [], IfOk, length, min};
ghost use Rattle.dq_outside.specs.Writes.{CountsFaults, TakesSome};

use crate::memory_folder::listed;
use crate::sink::{Sink, SinkFault};
use dq_base::{Bytes, Numbers64};
use std::alloc::Global;

/// A sink in memory, and the numbers of the calls of `write` that fail, from 1. It fails in those and nowhere else.
#[derive(Drop)]
pub struct MemSink {
    bytes: Bytes,
    fails: Numbers64,
    calls: u64,
    faults: u64,
    most: usize,
    ghost takes_some: { 0 < most },
}

impl MemSink {
    ghost use Rattle.dq_outside.specs.InMemory.{failing_writes, most_at_once, writes_made};

    /// An empty sink that fails in these calls, numbered from 1, and takes a piece whole in every other. It takes no memory.
    pub fn new(alloc: Global, fails: Numbers64) -> MemSink
        ensures written { ⟦<MemSink as Sink>⟧.written result ≡ Some [] }
        ensures faults { ⟦<MemSink as Sink>⟧.faults result ≡ 0 }
        ensures fails { failing_writes result ≡ fails }
        ensures calls { writes_made result ≡ 0 }
        ensures most { most_at_once result ≡ 2 ^ 64 - 1 }
    {
        MemSink {
            bytes: Bytes::new(alloc),
            fails,
            calls: 0,
            faults: 0,
            most: usize::MAX,
        }
    }

    /// The same, but a call takes at most so many bytes.
    pub fn short(alloc: Global, fails: Numbers64, most: usize) -> MemSink
        requires { 0 < most }
        ensures written { ⟦<MemSink as Sink>⟧.written result ≡ Some [] }
        ensures faults { ⟦<MemSink as Sink>⟧.faults result ≡ 0 }
        ensures fails { failing_writes result ≡ fails }
        ensures calls { writes_made result ≡ 0 }
        ensures most { most_at_once result ≡ most }
    {
        MemSink {
            bytes: Bytes::new(alloc),
            fails,
            calls: 0,
            faults: 0,
            most,
        }
    }

    /// What was written.
    pub fn bytes(&self) -> &[u8]
        ensures { Some result.now ≡ ⟦<MemSink as Sink>⟧.written self.now }
    {
        self.bytes.bytes()
    }
}

impl Sink for MemSink {
    ghost use Rattle.std.specs.Prelude.{◌≡◌, Some, IfOk, length, min};
    ghost use Rattle.dq_outside.specs.Fails.{WriteFailsWhere, is_listed, next_call};
    ghost use Rattle.dq_outside.specs.InMemory.{failing_writes, most_at_once, writes_made};
    ghost use Rattle.dq_outside.specs.Writes.{CountsEachFault, CountsFaults, TakesSome};

    ghost written = { λ s. Some s.bytes };

    ghost faults = { λ s. s.faults };

    fn write(&mut self, piece: &[u8]) -> Result<usize, SinkFault>
        ensures bytes { TakesSome (⟦<MemSink as Sink>⟧.written self.old) (⟦<MemSink as Sink>⟧.written self.new) piece.now result }
        ensures cause { CountsFaults (⟦<MemSink as Sink>⟧.faults self.old) (⟦<MemSink as Sink>⟧.faults self.new) result }

        // It fails in the listed calls and nowhere else, and otherwise takes as much as a call may.
        ensures alone { WriteFailsWhere (is_listed (failing_writes self.old) (writes_made self.new)) result }
        ensures count { IfOk result (λ n. n ≡ min (length piece.now) (most_at_once self.old)) }
        ensures counted { writes_made self.new ≡ next_call (writes_made self.old) }
        ensures same_fails { failing_writes self.new ≡ failing_writes self.old }
        ensures same_most { most_at_once self.new ≡ most_at_once self.old }
        ensures faults { CountsEachFault (⟦<MemSink as Sink>⟧.faults self.old) (⟦<MemSink as Sink>⟧.faults self.new) result }
    {
        self.calls = self.calls.saturating_add(1);
        if listed(&self.fails, self.calls) {
            self.faults = self.faults.saturating_add(1);
            return Err(SinkFault::Failed);
        }
        let count = piece.len().min(self.most);
        match self.bytes.append(&piece[..count]) {
            Ok(()) => Ok(count),
            Err(_) => Err(SinkFault::Memory),
        }
    }
}

/// A sink in memory that never fails.
#[derive(Drop)]
pub struct SureSink {
    bytes: Bytes,
}

impl SureSink {
    /// An empty sink. It takes no memory.
    pub fn new(alloc: Global) -> SureSink
        ensures written { ⟦<SureSink as Sink>⟧.written result ≡ Some [] }
        ensures faults { ⟦<SureSink as Sink>⟧.faults result ≡ 0 }
    {
        SureSink {
            bytes: Bytes::new(alloc),
        }
    }

    /// What was written.
    pub fn bytes(&self) -> &[u8]
        ensures { Some result.now ≡ ⟦<SureSink as Sink>⟧.written self.now }
    {
        self.bytes.bytes()
    }
}

impl Sink for SureSink {
    ghost use Rattle.std.specs.Prelude.{◌≡◌, ◌≢◌, Some, Err, IfOk, length};
    ghost use Rattle.dq_outside.specs.Writes.{CountsFaults, TakesSome};
    ghost use Rattle.dq_outside.specs.declared.sink.SinkFault.TheVariants as fault;

    ghost written = { λ s. Some s.bytes };

    ghost faults = { λ s. 0 };

    fn write(&mut self, piece: &[u8]) -> Result<usize, SinkFault>
        ensures bytes { TakesSome (⟦<SureSink as Sink>⟧.written self.old) (⟦<SureSink as Sink>⟧.written self.new) piece.now result }
        ensures cause { CountsFaults (⟦<SureSink as Sink>⟧.faults self.old) (⟦<SureSink as Sink>⟧.faults self.new) result }
        ensures whole { IfOk result (λ n. n ≡ length piece.now) }
        ensures sure { result ≢ Err fault.Failed }
        ensures faults { ⟦<SureSink as Sink>⟧.faults self.new ≡ ⟦<SureSink as Sink>⟧.faults self.old }
    {
        match self.bytes.append(piece) {
            Ok(()) => Ok(piece.len()),
            Err(_) => Err(SinkFault::Memory),
        }
    }
}
