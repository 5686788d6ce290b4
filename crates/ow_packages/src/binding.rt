// What can be bound.
ghost use Rattle.std.specs.Prelude.{◌≡◌};
ghost use Rattle.std.specs.Result.{result_err};
ghost use Rattle.ow_packages.specs.Binding.{binding_refusal};

use crate::access::reached_package;
use crate::refusal::PackageRefusal;
use ow_entity::Lookup;
use ow_names::{EntityName, FullName};

/// Whether a package of the namespace may bind the target. This takes no memory.
pub fn check_binding<T: Lookup>(
    rows: &T,
    target: &FullName,
    from: &EntityName,
) -> Result<(), PackageRefusal>
    ensures { result_err result ≡ binding_refusal (T.found rows.now) target.now from.now }
{
    match reached_package(rows, target, from) {
        None => Err(PackageRefusal::NotFound),
        Some(bundle) => match &bundle.binding {
            Some(_) => Err(PackageRefusal::BindsABinding),
            None => Ok(()),
        },
    }
}
