// Containers that are wanted ahead of runs.
ghost use Rattle.std.specs.Prelude.{◌≡◌, ◌↔◌, IsTrue};

use crate::replies::Kind;
use ow_value::{Items, NoMemory, PlainData};
use std::alloc::Global;

/// How many containers of a kind and a memory are to be ready before a run needs one.
#[derive(Clone, Copy, Debug, PartialEq, Eq, Drop)]
pub struct Prewarm {
    /// Which runner the containers are for.
    pub kind: Kind,
    /// The memory of each, in MB.
    pub memory: u32,
    /// How many.
    pub count: u32,
}

/// A list of what is wanted ahead, in the order of the office table.
pub type Prewarms = Items<Prewarm>;

impl PlainData for Prewarm {
    fn same(&self, other: &Prewarm) -> bool {
        same_kinds(self.kind, other.kind)
            && self.memory == other.memory
            && self.count == other.count
    }

    fn copy(&self, _alloc: Global) -> Result<Prewarm, NoMemory> {
        Ok(*self)
    }
}

fn same_kinds(a: Kind, b: Kind) -> bool
    ensures { IsTrue result ↔ (a ≡ b) }
{
    match (a, b) {
        (Kind::Plain, Kind::Plain) => true,
        (Kind::Program, Kind::Program) => true,
        _ => false,
    }
}
