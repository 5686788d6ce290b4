// What counts of one namespace.
ghost use Rattle.std.specs.Prelude.{◌≡◌, ◌≤◌, ◌<◌, ◌+◌, ◌-◌, ◌^◌, ◌∷◌, [], ℕ, List, OnOk};
ghost use Rattle.ow_tenant.specs.Notes.{Notes, ended, fired, fires, invoked, latest};
ghost use Rattle.ow_tenant.specs.Windows.{HasRoom, Stands};

use crate::queue::Queue;
use ow_value::NoMemory;
use std::alloc::Global;

/// What counts of one namespace.
#[derive(Drop)]
pub(crate) struct Window {
    pub(crate) invocations: Queue,
    pub(crate) fires: Queue,
    /// How many invocations have not ended.
    pub(crate) running: u64,
}

impl Window {
    /// Nothing. This takes no memory.
    pub(crate) fn new(alloc: Global) -> Window
        ensures invocations { result.invocations.moments ≡ [] }
        ensures fires { result.fires.moments ≡ [] }
        ensures running { result.running ≡ 0 }
    {
        Window {
            invocations: Queue::new(alloc),
            fires: Queue::new(alloc),
            running: 0,
        }
    }

    /// Makes room for that many invocations and as many fires.
    pub(crate) fn reserve(&mut self, count: u32) -> Result<(), NoMemory>
        ensures stands { (notes : Notes) (namespace : List ℕ) → Stands namespace self.old notes → Stands namespace self.new notes }
        ensures keeps { (n f : ℕ) → HasRoom n f self.old → HasRoom n f self.new }
        ensures room { OnOk result (HasRoom count count self.new) }
        ensures running { self.new.running ≡ self.old.running }
    {
        if u64::MAX - self.running < u64::from(count) {
            return Err(NoMemory);
        }
        self.invocations.reserve(count as usize)?;
        self.fires.reserve(count as usize)
    }

    /// One more invocation.
    pub(crate) fn note(&mut self, at: u64)
        requires { HasRoom 1 0 self.old }
        ensures stands { (notes : Notes) (namespace : List ℕ) → latest notes ≤ at → Stands namespace self.old notes → Stands namespace self.new (invoked namespace at ∷ notes) }
        ensures room { (n f : ℕ) → HasRoom (n + 1) f self.old → HasRoom n f self.new }
        ensures running { self.new.running ≡ self.old.running + 1 }
    {
        self.invocations.add(at);
        self.running += 1;
    }

    /// One more fire.
    pub(crate) fn note_fire(&mut self, at: u64)
        requires { HasRoom 0 1 self.old }
        ensures stands { (notes : Notes) (namespace : List ℕ) → latest notes ≤ at → Stands namespace self.old notes → Stands namespace self.new (fired namespace at ∷ notes) }
        ensures room { (n f : ℕ) → HasRoom n (f + 1) self.old → HasRoom n f self.new }
        ensures running { self.new.running ≡ self.old.running }
    {
        self.fires.add(at);
    }

    /// One invocation has ended.
    pub(crate) fn end(&mut self)
        requires { 0 < self.old.running }
        ensures stands { (notes : Notes) (namespace : List ℕ) → Stands namespace self.old notes → Stands namespace self.new (ended namespace ∷ notes) }
        ensures room { (n f : ℕ) → HasRoom n f self.old → HasRoom n f self.new }
    {
        self.running -= 1;
    }
}
