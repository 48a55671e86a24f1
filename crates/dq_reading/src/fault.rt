use dq_base::Memory;
use thiserror::Error;

/// Why a part of a text wasn't read.
#[derive(Clone, Copy, Debug, PartialEq, Eq, Error)]
pub enum TextFault {
    /// What was looked for doesn't stand there.
    #[error("not in the grammar")]
    NotInGrammar,
    /// Memory was wanting.
    #[error("out of memory")]
    Memory,
}

impl From<Memory> for TextFault {
    ghost use Rattle.std.specs.Prelude.{◌≡◌};
    ghost use Rattle.dq_reading.specs.declared.fault.TextFault.TheVariants as fault;

    ghost from_gives = { λ _ e. e ≡ fault.Memory };

    fn from(_error: Memory) -> TextFault {
        TextFault::Memory
    }
}
