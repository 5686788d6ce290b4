// What can be reached from a namespace.
ghost use Rattle.std.specs.Prelude.{◌≡◌, IfOk};
ghost use Rattle.std.specs.Option.{option_copied};
ghost use Rattle.ow_packages.specs.Access.{is_shared, package_at, action_at, package_of, lying_in, reached_package};

use ow_entity::{Action, EntityKind, Lookup, Package, Row};
use ow_names::{EntityName, FullName};
use ow_value::{NoMemory, PlainData, Shared};
use std::alloc::Global;

/// The package of the name, where it is reached from the namespace.
pub fn reached_package<'a, T: Lookup>(
    rows: &'a T,
    name: &FullName,
    from: &EntityName,
) -> Option<&'a Package>
    ensures { option_copied result ≡ reached_package (T.found rows.now) name.now from.now }
{
    match rows.row(EntityKind::Package, name) {
        Some(Row::Package(bundle)) => {
            let bundle = bundle.get();
            if bundle.publish || name.namespace.as_str() == from.as_str() {
                Some(bundle)
            } else {
                None
            }
        }
        _ => None,
    }
}

/// Whether the package of the name exists and is shared.
pub fn is_shared<T: Lookup>(rows: &T, name: &FullName) -> bool
    ensures { result ≡ is_shared (package_at (T.found rows.now) name.now) }
{
    match rows.row(EntityKind::Package, name) {
        Some(Row::Package(bundle)) => bundle.get().publish,
        _ => false,
    }
}

/// The action of the name.
pub(crate) fn action_at<'a, T: Lookup>(rows: &'a T, name: &FullName) -> Option<&'a Shared<Action>>
    ensures { option_copied result ≡ action_at (T.found rows.now) name.now }
{
    match rows.row(EntityKind::Action, name) {
        Some(Row::Action(action)) => Some(action),
        _ => None,
    }
}

/// The package in which the name lies, if it lies in one.
pub fn package_of(alloc: Global, name: &FullName) -> Result<Option<FullName>, NoMemory>
    ensures { IfOk result (λ p. p ≡ package_of name.now) }
{
    let Some(bundle) = &name.package else {
        return Ok(None);
    };
    let namespace = name.namespace.copy(alloc)?;
    let name = bundle.copy(alloc)?;
    Ok(Some(FullName {
        namespace,
        package: None,
        name,
    }))
}

/// What the name is called in the package.
pub fn lying_in(alloc: Global, bundle: &FullName, name: &EntityName) -> Result<FullName, NoMemory>
    ensures { IfOk result (λ n. n ≡ lying_in bundle.now name.now) }
{
    let namespace = bundle.namespace.copy(alloc)?;
    let inside = bundle.name.copy(alloc)?;
    let name = name.copy(alloc)?;
    Ok(FullName {
        namespace,
        package: Some(inside),
        name,
    })
}
