ghost use Rattle.std.specs.Prelude.{◌≡◌, IfOk};
ghost use Rattle.dq_backend.specs.Dialled.{new_dialer};

use crate::dialer::InDialer;
use crate::link::InLink;
use dq_base::{Fails, Memory};
use dq_link::Office;
use std::alloc::Global;

/// A back end in memory. What is wanted to fail in a lane fails there, and nothing else. A lane's dialer costs the length of what is
/// wanted to fail there, which it copies.
#[derive(Drop)]
pub struct InOffice;

impl InOffice {
    /// The back end. It takes no memory, and the same time always.
    pub fn new() -> InOffice {
        InOffice
    }
}

impl Office for InOffice {
    type L = InLink;

    type D = InDialer;

    fn dialer(&mut self, alloc: Global, _lane: u32, fails: &Fails) -> Result<InDialer, Memory>
        ensures { IfOk result (λ dialer. dialer ≡ new_dialer fails.now) }
    {
        InDialer::new(alloc, fails)
    }
}
