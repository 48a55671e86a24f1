ghost use Rattle.std.specs.Prelude.{◌≡◌, Option, List, ℕ, OnOk, OnErr};
ghost use Rattle.dq_outside.specs.Writes.{appended, WritesPrefix, TakesSome, CountsFaults};

/// Why a sink didn't take a piece.
#[derive(Clone, Copy, Debug, PartialEq, Eq)]
pub enum SinkFault {
    /// It couldn't be written, or took nothing of a piece that isn't empty.
    Failed,
    /// Memory was wanting.
    Memory,
}

/// A sink, to which bytes are written in order.
pub trait Sink {
    /// The bytes that were written, where it tells them.
    ghost written: { Self → Option (List ℕ) };

    /// How often it has failed. The count stands still at the last value of u64.
    ghost faults: { Self → ℕ };

    /// Writes some bytes from the front of the piece, at least one if it isn't empty, and answers how many. An `Err` wrote
    /// nothing.
    fn write(&mut self, piece: &[u8]) -> Result<usize, SinkFault>
        ensures bytes { TakesSome (written self.old) (written self.new) piece.now result }
        ensures cause { CountsFaults (faults self.old) (faults self.new) result };
}

/// Writes the whole text. After an `Err`, which is the sink's, a prefix of it was written.
pub fn write_all<S: Sink>(sink: &mut S, text: &[u8]) -> Result<(), SinkFault>
    ensures ok { OnOk result (S.written sink.new ≡ appended (S.written sink.old) text.now) }
    ensures err { OnErr result (WritesPrefix (S.written sink.old) (S.written sink.new) text.now) }
    ensures cause { CountsFaults (S.faults sink.old) (S.faults sink.new) result }
{
    let mut at: usize = 0;
    while at < text.len() {
        let count = sink.write(&text[at..])?;
        at += count;
    }
    Ok(())
}
