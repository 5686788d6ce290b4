// One to four slots.
ghost use Rattle.std.specs.Prelude.{◌≡◌, ◌≤◌, [], ◌∷◌, length};

use std::marker::Model;

/// One to four slots whose containers are to be removed.
#[derive(Drop)]
pub struct Removal {
    slots: [u32; 4],
    len: usize,
}

impl Model for Removal {
    ghost use Rattle.std.specs.Prelude.{◌≤◌, List, ℕ, take};

    ghost Value = { List ℕ };

    ghost view = { λ r. take r.len r.slots };

    ghost invariant = { λ r. (1 ≤ r.len) × (r.len ≤ 4) };
}

impl Removal {
    /// The slots, in the order in which they are to be removed.
    pub fn as_slice(&self) -> &[u32]
        ensures value { result.now ≡ self.now }
        ensures count { (1 ≤ length result.now) × (length result.now ≤ 4) }
    {
        &self.slots[..self.len]
    }

    pub(crate) fn one(a: u32) -> Removal
        ensures { result ≡ a ∷ [] }
    {
        Removal {
            slots: [a, 0, 0, 0],
            len: 1,
        }
    }

    pub(crate) fn two(a: u32, b: u32) -> Removal
        ensures { result ≡ a ∷ b ∷ [] }
    {
        Removal {
            slots: [a, b, 0, 0],
            len: 2,
        }
    }

    pub(crate) fn three(a: u32, b: u32, c: u32) -> Removal
        ensures { result ≡ a ∷ b ∷ c ∷ [] }
    {
        Removal {
            slots: [a, b, c, 0],
            len: 3,
        }
    }

    pub(crate) fn four(a: u32, b: u32, c: u32, d: u32) -> Removal
        ensures { result ≡ a ∷ b ∷ c ∷ d ∷ [] }
    {
        Removal {
            slots: [a, b, c, d],
            len: 4,
        }
    }
}
