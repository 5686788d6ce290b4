// What the table says of a namespace and of a key.
ghost use Rattle.std.specs.Prelude.{◌≡◌, map, IfOk};
ghost use Rattle.ow_tenant.specs.Rights.{has_right};
ghost use Rattle.ow_tenant.specs.Tenants.{name_value, rights_in};

use crate::limits::NamespaceLimits;
use crate::rights::{Right, Rights};
use crate::tenants::names_of;
use ow_names::EntityName;
use ow_value::{ByText, NoMemory, PlainData, Str, Vals};
use std::alloc::Global;

/// What a row says of a namespace.
#[derive(Clone, Copy, Drop)]
pub(crate) struct Space {
    pub(crate) number: u32,
    pub(crate) limits: NamespaceLimits,
}

/// Who holds a key, by the rows that speak of it.
#[derive(Drop)]
pub struct Holder {
    /// In whose name what is asked is run.
    pub subject: Str,
    /// The key's own namespace.
    pub home: EntityName,
    /// By namespace.
    pub(crate) rights: ByText<Rights>,
}

impl Holder {
    /// Whether the key has the right in the namespace.
    pub fn may(&self, namespace: &[u8], right: Right) -> bool
        ensures { result ≡ has_right right (rights_in namespace.now self.now) }
    {
        match self.rights.find(namespace) {
            Some(rights) => rights.has(right),
            None => false,
        }
    }
}

impl Holder {
    /// The names of the namespaces in which the key has a right, in the order of their bytes.
    pub fn granted(&self, alloc: Global) -> Result<Vals, NoMemory>
        ensures { IfOk result (λ names. names ≡ map name_value self.now.rights) }
    {
        names_of(alloc, self.rights.entries())
    }
}

impl PlainData for Space {
    fn same(&self, other: &Space) -> bool {
        self.number == other.number && self.limits.same(&other.limits)
    }

    fn copy(&self, _alloc: Global) -> Result<Space, NoMemory> {
        Ok(*self)
    }
}

impl PlainData for Holder {
    fn same(&self, other: &Holder) -> bool {
        self.subject.same(&other.subject)
            && self.home.same(&other.home)
            && self.rights.same(&other.rights)
    }

    fn copy(&self, alloc: Global) -> Result<Holder, NoMemory> {
        let subject = self.subject.copy(alloc)?;
        let home = self.home.copy(alloc)?;
        Ok(Holder {
            subject,
            home,
            rights: self.rights.copy(alloc)?,
        })
    }
}
