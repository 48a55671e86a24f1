use dq_base::Memory;
use thiserror::Error;

/// Why a file wasn't loaded. Rows count from 1 behind the header, and columns from 1.
#[derive(Clone, Copy, Debug, PartialEq, Eq, Error)]
pub enum LoadFault {
    /// There is no first record, or its fields aren't the schema's names.
    #[error("header")]
    Header,
    /// The row has more or fewer fields than there are columns.
    #[error("width {0}")]
    Width(u64),
    /// The field of that row and whole column is neither empty nor a whole number within 64 bits.
    #[error("number {0} {1}")]
    Number(u64, u64),
    /// The field of that row and text column isn't UTF-8.
    #[error("not text {0} {1}")]
    NotText(u64, u64),
    /// The rows have more cells than there is room for.
    #[error("too many cells")]
    TooManyCells,
    /// Memory was wanting.
    #[error("out of memory")]
    Memory,
}

impl From<Memory> for LoadFault {
    ghost use Rattle.std.specs.Prelude.{◌≡◌};
    ghost use Rattle.dq_extract.specs.declared.fault.LoadFault.TheVariants as fault;

    ghost from_gives = { λ _ e. e ≡ fault.Memory };

    fn from(_error: Memory) -> LoadFault {
        LoadFault::Memory
    }
}
