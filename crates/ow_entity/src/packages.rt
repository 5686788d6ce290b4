// Packages: as they are stored, and as bodies give them.

use crate::params::EntityParams;
use ow_names::FullName;
use ow_value::{NoMemory, PlainData, copied4};
use std::alloc::Global;

/// A stored package. Actions lie in it, and its own parameters are below theirs.
#[derive(Drop)]
pub struct Package {
    /// Its namespace, and what it is called there. It lies in no package.
    pub name: FullName,
    /// Shown as `0.0.version`. The first is 1.
    pub version: u32,
    /// Whether it is shared: whether other namespaces may read and invoke what lies in it.
    pub publish: bool,
    /// What each action in it is given below its own parameters.
    pub params: EntityParams,
    /// The annotations.
    pub notes: EntityParams,
    /// The package that it binds, where it is a binding.
    pub binding: Option<FullName>,
}

/// A package as a body gives it: each field, or none where the body leaves it out.
#[derive(Drop)]
pub struct PackageDraft {
    /// This comes from the path, and not from the body.
    pub name: FullName,
    /// Whether it is shared.
    pub publish: Option<bool>,
    /// The parameters.
    pub params: Option<EntityParams>,
    /// The annotations.
    pub notes: Option<EntityParams>,
    /// The package that it is to bind, or none where it is to be no binding.
    pub binding: Option<Option<FullName>>,
}

impl PlainData for Package {
    fn same(&self, other: &Package) -> bool {
        self.name.same(&other.name)
            && self.version == other.version
            && self.publish == other.publish
            && self.params.same(&other.params)
            && self.notes.same(&other.notes)
            && self.binding.same(&other.binding)
    }

    fn copy(&self, alloc: Global) -> Result<Package, NoMemory> {
        let (name, params, notes, binding) = copied4(
            alloc,
            &self.name,
            &self.params,
            &self.notes,
            &self.binding,
        )?;
        Ok(Package {
            name,
            version: self.version,
            publish: self.publish,
            params,
            notes,
            binding,
        })
    }
}

impl PlainData for PackageDraft {
    fn same(&self, other: &PackageDraft) -> bool {
        self.name.same(&other.name)
            && self.publish == other.publish
            && self.params.same(&other.params)
            && self.notes.same(&other.notes)
            && self.binding.same(&other.binding)
    }

    fn copy(&self, alloc: Global) -> Result<PackageDraft, NoMemory> {
        let (name, params, notes, binding) = copied4(
            alloc,
            &self.name,
            &self.params,
            &self.notes,
            &self.binding,
        )?;
        Ok(PackageDraft {
            name,
            publish: self.publish,
            params,
            notes,
            binding,
        })
    }
}
