//! What is passed before each job.

/// Something that each slot passes once before its job. It returns, and has no effect on any answer: a test sees by it
/// which workers are at work.
pub trait Gate {
    /// Passes the slot with this number, from 0.
    fn pass(&self, slot: u32);
}

/// A gate that does nothing.
#[derive(Clone, Copy, Debug)]
pub struct OpenGate;

impl Gate for OpenGate {
    fn pass(&self, _slot: u32) {}
}
