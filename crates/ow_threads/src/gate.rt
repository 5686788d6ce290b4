// Gates at which a worker may be held, so that the order of several workers can be chosen.

/// Where a worker is.
#[derive(Clone, Copy, Debug, PartialEq, Eq)]
pub enum Stage {
    /// It is about to carry out the run of this number.
    BeforeRun(u64),
    /// It has carried out the run of this number, and hasn't reported its end yet. A sweep may have recorded one.
    AfterRun(u64),
    /// It is about to take the container out of the slot of this number.
    BeforeTake(u32),
    /// It is about to look for a container in the slot of this number that has lain there for long.
    BeforeReap(u32),
}

/// Holds workers back.
pub trait Gate {
    /// Lets a worker at this stage pass. It may wait first, for as long as it likes.
    fn pass(&self, stage: Stage);
}

/// A gate that holds nobody.
#[derive(Clone, Copy, Debug)]
pub struct OpenGate {}

impl OpenGate {
    /// An open gate.
    pub fn new() -> OpenGate {
        OpenGate {}
    }
}

impl Gate for OpenGate {
    fn pass(&self, _stage: Stage) {}
}
