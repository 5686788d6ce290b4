// What a key may do in a namespace.
ghost use Rattle.std.specs.Prelude.{◌≡◌};
ghost use Rattle.ow_tenant.specs.Rights.{all_rights, has_right, no_rights, with_right};

use ow_value::{NoMemory, PlainData};
use std::alloc::Global;

/// What a request needs in a namespace.
#[derive(Clone, Copy, Debug, PartialEq, Eq, Drop)]
pub enum Right {
    /// To see entities, and the records of activations.
    Read,
    /// To put entities and to remove them.
    Write,
    /// To invoke actions and to fire triggers.
    Invoke,
}

/// The rights of a key in one namespace.
#[derive(Clone, Copy, Debug, PartialEq, Eq, Drop)]
pub(crate) struct Rights {
    pub(crate) read: bool,
    pub(crate) write: bool,
    pub(crate) invoke: bool,
}

impl Rights {
    pub(crate) fn none() -> Rights
        ensures { result ≡ no_rights }
    {
        Rights {
            read: false,
            write: false,
            invoke: false,
        }
    }

    pub(crate) fn all() -> Rights
        ensures { result ≡ all_rights }
    {
        Rights {
            read: true,
            write: true,
            invoke: true,
        }
    }

    // These and one more.
    pub(crate) fn with(self, right: Right) -> Rights
        ensures { result ≡ with_right right self }
    {
        match right {
            Right::Read => Rights { read: true, ..self },
            Right::Write => Rights {
                write: true,
                ..self
            },
            Right::Invoke => Rights {
                invoke: true,
                ..self
            },
        }
    }

    pub(crate) fn has(self, right: Right) -> bool
        ensures { result ≡ has_right right self }
    {
        match right {
            Right::Read => self.read,
            Right::Write => self.write,
            Right::Invoke => self.invoke,
        }
    }
}

impl PlainData for Rights {
    fn same(&self, other: &Rights) -> bool {
        self.read == other.read && self.write == other.write && self.invoke == other.invoke
    }

    fn copy(&self, _alloc: Global) -> Result<Rights, NoMemory> {
        Ok(*self)
    }
}
