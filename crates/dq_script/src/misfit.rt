ghost use Rattle.std.specs.Prelude.{◌≡◌, [], ◌∷◌, ◌++◌, IfOk};
ghost use Rattle.dq_script.specs.declared.misfit.Misfit.TheVariants.{At, Memory as NoMemory};
ghost use Rattle.dq_script.specs.Readings.{IsWithin};

use dq_base::{Memory, Text};
use std::alloc::{AllocError, Global};

// Why a part of a script isn't read: the path of its first fault from the part itself on, or want of memory.
#[derive(Debug, Drop)]
pub enum Misfit {
    At(Text),
    Memory,
}

impl From<Memory> for Misfit {
    ghost from_gives = { λ _ e. e ≡ NoMemory };

    fn from(_memory: Memory) -> Misfit {
        Misfit::Memory
    }
}

impl From<AllocError> for Misfit {
    ghost from_gives = { λ _ e. e ≡ NoMemory };

    fn from(_error: AllocError) -> Misfit {
        Misfit::Memory
    }
}

// The fault of the part itself. It takes no memory.
pub fn here(alloc: Global) -> Misfit
    ensures { result ≡ At [] }
{
    Misfit::At(Text::new(alloc))
}

// A path that begins with this step.
pub fn path_from(alloc: Global, step: &[u8], rest: &[u8]) -> Result<Text, Memory>
    ensures { IfOk result (λ path. path ≡ 47 ∷ (step.now ++ rest.now)) }
{
    let mut path = Text::new(alloc);
    path.push(b'/')?;
    path.append(step)?;
    path.append(rest)?;
    Ok(path)
}

// The fault of a part as its whole tells it.
pub fn within(alloc: Global, step: &[u8], misfit: Misfit) -> Misfit
    ensures { IsWithin step.now misfit result }
{
    match misfit {
        Misfit::At(rest) => match path_from(alloc, step, rest.bytes()) {
            Ok(path) => Misfit::At(path),
            Err(Memory) => Misfit::Memory,
        },
        Misfit::Memory => Misfit::Memory,
    }
}
