/// A gate that a lane passes before it runs a statement. A test can hold lanes there.
pub trait Gate {
    /// Passes the lane, which is at this step; both are numbered from 1. It returns.
    fn pass(&self, lane: u32, step: u32);
}

/// A gate that holds nothing.
#[derive(Clone, Copy, Debug, PartialEq, Eq)]
pub struct PassGate;

impl Gate for PassGate {
    fn pass(&self, _lane: u32, _step: u32) {}
}
