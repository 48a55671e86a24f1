use dq_base::Memory;
use thiserror::Error;

/// Why bytes weren't read as a report.
#[derive(Clone, Copy, Debug, PartialEq, Eq, Error)]
pub enum ParseFault {
    /// The bytes are no report.
    #[error("not a report")]
    NotReport,
    /// Memory was wanting.
    #[error("out of memory")]
    Memory,
}

impl From<Memory> for ParseFault {
    ghost use Rattle.std.specs.Prelude.{◌≡◌};
    ghost use Rattle.dq_parse.specs.declared.fault.ParseFault.TheVariants as fault;

    ghost from_gives = { λ _ e. e ≡ fault.Memory };

    fn from(_error: Memory) -> ParseFault {
        ParseFault::Memory
    }
}
