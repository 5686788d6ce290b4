// Plain data: what is copied and compared.
ghost use Rattle.std.specs.Prelude.{◌≡◌, ◌↔◌, IsTrue, IfOk};

use crate::memory::NoMemory;
use crate::val::{Params, Val, Vals};
use crate::walk;
use std::alloc::Global;

/// Plain data, which is distinguished by its value alone, and whose copies are equal to it.
pub trait PlainData: Sized {
    /// Whether both are equal.
    fn same(&self, other: &Self) -> bool
        ensures { IsTrue result ↔ (self.now ≡ other.now) };

    /// An equal one. What is shared by count is shared by the copy too.
    fn copy(&self, alloc: Global) -> Result<Self, NoMemory>
        ensures { IfOk result (λ x. x ≡ self.now) };
}

impl<T: PlainData> PlainData for Option<T> {
    fn same(&self, other: &Option<T>) -> bool {
        match (self, other) {
            (None, None) => true,
            (Some(x), Some(y)) => x.same(y),
            _ => false,
        }
    }

    fn copy(&self, alloc: Global) -> Result<Option<T>, NoMemory> {
        match self {
            Some(x) => Ok(Some(x.copy(alloc)?)),
            None => Ok(None),
        }
    }
}

impl<A: PlainData + Drop, B: PlainData> PlainData for (A, B) {
    fn same(&self, other: &(A, B)) -> bool {
        self.0.same(&other.0) && self.1.same(&other.1)
    }

    fn copy(&self, alloc: Global) -> Result<(A, B), NoMemory> {
        let first = self.0.copy(alloc)?;
        let second = self.1.copy(alloc)?;
        Ok((first, second))
    }
}

impl PlainData for u8 {
    fn same(&self, other: &u8) -> bool {
        *self == *other
    }

    fn copy(&self, _alloc: Global) -> Result<u8, NoMemory> {
        Ok(*self)
    }
}

impl PlainData for Val {
    fn same(&self, other: &Val) -> bool {
        walk::same(self, other)
    }

    fn copy(&self, alloc: Global) -> Result<Val, NoMemory> {
        walk::copy(alloc, self)
    }
}

impl PlainData for Vals {
    fn same(&self, other: &Vals) -> bool {
        self.is_same(other)
    }

    fn copy(&self, _alloc: Global) -> Result<Vals, NoMemory> {
        self.again()
    }
}

impl PlainData for Params {
    fn same(&self, other: &Params) -> bool {
        self.is_same(other)
    }

    fn copy(&self, _alloc: Global) -> Result<Params, NoMemory> {
        self.again()
    }
}
