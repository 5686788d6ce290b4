// Full names: their parts, their order and their texts.
ghost use Rattle.std.specs.Prelude.{◌≡◌, ◌↔◌, ◌++◌, ℕ, List, Ok, IsTrue, IfOk, OnOk, string_bytes};
ghost use Rattle.std.specs.declared.cmp.Ordering.TheVariants.{Equal};
ghost use Rattle.ow_value.specs.Value.{text_cmp};
ghost use Rattle.ow_names.specs.FullName.{full_text, local_text, IsFullName};
ghost use Rattle.ow_names.specs.Path.{home, resolved};

use crate::name::EntityName;
use crate::order::{order_of_parts, order_to_end};
use ow_value::{NoMemory, PlainData};
use std::alloc::Global;
use std::cmp::Ordering;

/// What an entity is called in all of the service. A package is called by a name without a package.
#[derive(Drop)]
pub struct FullName {
    /// The namespace of the entity.
    pub namespace: EntityName,
    /// The package of this namespace that the entity lies in, if any.
    pub package: Option<EntityName>,
    /// What the entity is called there.
    pub name: EntityName,
}

impl FullName {
    /// The order of the bytes of the full texts.
    pub fn compare(&self, other: &FullName) -> Ordering
        ensures order { result ≡ text_cmp (full_text self.now) (full_text other.now) }
        ensures equal { (result ≡ Equal) ↔ (self.now ≡ other.now) }
    {
        self.known();
        other.known();
        let namespaces = order_of_parts(self.namespace.as_part(), other.namespace.as_part());
        namespaces.then(self.compare_within(other))
    }

    fn compare_within(&self, other: &FullName) -> Ordering
        ensures { result ≡ text_cmp (local_text self.now.package self.now.name) (local_text other.now.package other.now.name) }
    {
        let name = self.name.as_part();
        let other_name = other.name.as_part();
        match (&self.package, &other.package) {
            (None, None) => name.cmp(&other_name),
            (Some(a), None) => order_to_end(a.as_part(), other_name),
            (None, Some(b)) => order_to_end(b.as_part(), name).reverse(),
            (Some(a), Some(b)) => order_of_parts(a.as_part(), b.as_part()).then(name.cmp(
                &other_name,
            )),
        }
    }

    // Makes known that each part is a name.
    fn known(&self)
        ensures { IsFullName self.now }
    {
        self.namespace.as_str();
        if let Some(package) = &self.package {
            package.as_str();
        }
        self.name.as_str();
    }
}

impl PlainData for FullName {
    fn same(&self, other: &FullName) -> bool {
        self.namespace.same(&other.namespace)
            && self.package.same(&other.package)
            && self.name.same(&other.name)
    }

    fn copy(&self, alloc: Global) -> Result<FullName, NoMemory> {
        let namespace = self.namespace.copy(alloc)?;
        let package = self.package.copy(alloc)?;
        let name = self.name.copy(alloc)?;
        Ok(FullName {
            namespace,
            package,
            name,
        })
    }
}

/// The text `/namespace/name` or `/namespace/package/name`.
pub fn full_text(alloc: Global, name: &FullName) -> Result<String, NoMemory>
    ensures text { IfOk result (λ s. string_bytes s ≡ full_text name.now) }

    // A namespace that is itself called `_` is read as the reader's own.
    ensures reads_back { IfOk result (λ s. (here : List ℕ) → home here name.now.namespace ≡ name.now.namespace
        → resolved here (string_bytes s) ≡ Ok name.now) }
{
    name.known();
    let mut text = String::with_capacity(alloc, 64)?;
    text.push('/')?;
    text.push_str(name.namespace.as_str())?;
    text.push('/')?;
    push_local(&mut text, name)?;
    Ok(text)
}

fn push_local(text: &mut String, name: &FullName) -> Result<(), NoMemory>
    ensures { OnOk result (string_bytes text.new ≡ string_bytes text.old ++ local_text name.now.package name.now.name) }
{
    match &name.package {
        None => {
            text.push_str(name.name.as_str())?;
            Ok(())
        }
        Some(package) => {
            text.push_str(package.as_str())?;
            text.push('/')?;
            text.push_str(name.name.as_str())?;
            Ok(())
        }
    }
}
