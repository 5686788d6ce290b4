// Why a name calls no action, a package can't be bound, or a parameter can't be given.
ghost use Rattle.std.specs.Prelude.{◌≡◌};
ghost use Rattle.ow_packages.specs.Refusal.{package_refusal_number};

use ow_value::{NoMemory, Str};

/// Why a name calls no action, a package can't be bound, or a parameter can't be given.
#[derive(Drop)]
pub enum PackageRefusal {
    /// There is no such entity, or it can't be reached.
    NotFound,
    /// The package to be bound is a binding itself.
    BindsABinding,
    /// The parameter of this name has a value that can't be replaced.
    Fixed {
        /// As it was given.
        name: Str,
    },
    /// Out of memory. This says nothing about the rows.
    NoMemory,
}

impl PackageRefusal {
    /// The number by which a client distinguishes the refusals. Out of memory has 0.
    pub fn number(&self) -> u32
        ensures { result ≡ package_refusal_number self.now }
    {
        match self {
            PackageRefusal::NoMemory => 0,
            PackageRefusal::NotFound => 14,
            PackageRefusal::BindsABinding => 15,
            PackageRefusal::Fixed { .. } => 16,
        }
    }
}

impl From<NoMemory> for PackageRefusal {
    ghost use Rattle.std.specs.Prelude.{◌≡◌};
    ghost use Rattle.ow_packages.specs.declared.refusal.PackageRefusal.TheVariants.{NoMemory};

    ghost from_gives = { λ _ e. e ≡ NoMemory };

    fn from(_refused: NoMemory) -> PackageRefusal {
        PackageRefusal::NoMemory
    }
}
