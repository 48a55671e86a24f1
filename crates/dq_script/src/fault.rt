ghost use Rattle.dq_script.specs.declared.fault.ScriptFault.TheVariants.{Memory as NoMemory};
ghost use Rattle.std.specs.Prelude.{◌≡◌};

use dq_base::{Limit, Memory, Text};
use thiserror::Error;

/// Why a script isn't read. Paths are JSON Pointers (RFC 6901), so places in them count from 0.
#[derive(Debug, Drop, Error)]
pub enum ScriptFault {
    /// The bytes are no JSON.
    #[error("not json")]
    NotJson,
    /// The value at this path has another shape.
    #[error("shape")]
    Shape(Text),
    /// This limit is passed, by this number.
    #[error("limit")]
    Limit(Limit, u64),
    /// The name at this path is that of no extract.
    #[error("unknown extract")]
    UnknownExtract(Text),
    /// The number at this path is that of no lane.
    #[error("unknown lane")]
    UnknownLane(Text),
    /// Memory was wanting.
    #[error("out of memory")]
    Memory,
}

impl From<Memory> for ScriptFault {
    ghost from_gives = { λ _ e. e ≡ NoMemory };

    fn from(_memory: Memory) -> ScriptFault {
        ScriptFault::Memory
    }
}
