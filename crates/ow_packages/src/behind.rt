// What a name refers to.
ghost use Rattle.std.specs.Prelude.{◌≡◌, ◌≢◌, Some, None, IfOk, MatchResult};
ghost use Rattle.std.specs.Option.{option_copied};
ghost use Rattle.ow_packages.specs.Effective.{Behind, behind, behind_bare, behind_in, params_over, effective_of, effective, FindsEach, Answers};

use crate::access::{action_at, lying_in, package_of, reached_package};
use crate::effective_action::Effective;
use crate::refusal::PackageRefusal;
use ow_entity::{Action, Lookup, Package};
use ow_names::{EntityName, FullName};
use ow_value::{NoMemory, Params, PlainData, Shared, merge};
use std::alloc::Global;

/// What the name calls for a caller in the namespace: the action, through one binding at most. Its parameters go over
/// those of the binding, and these over those of the package.
pub fn effective<T: Lookup>(
    alloc: Global,
    rows: &T,
    name: &FullName,
    from: &EntityName,
) -> Result<Effective, PackageRefusal>
    ensures value { MatchResult result (λ e. effective (T.found rows.now) name.now from.now ≡ Some e)
        (λ e. e ≢ PackageRefusal.NoMemory → (e ≡ PackageRefusal.NotFound) × (effective (T.found rows.now) name.now from.now ≡ None)) }
    ensures finds { IfOk result (λ e. (b : Behind) → behind (T.found rows.now) name.now from.now ≡ Some b → FindsEach e.params b) }
{
    called(alloc, rows, name, from)
}

fn called<T: Lookup>(
    alloc: Global,
    rows: &T,
    name: &FullName,
    from: &EntityName,
) -> Result<Effective, PackageRefusal>
    ensures { Answers (behind (T.found rows.now) name.now from.now) result }
{
    let Some(bundle) = package_of(alloc, name)? else {
        return bare(alloc, rows, name, from);
    };
    match reached_package(rows, &bundle, from) {
        Some(bundle) => in_package(alloc, rows, name, bundle),
        None => Err(PackageRefusal::NotFound),
    }
}

// An action outside packages.
fn bare<T: Lookup>(
    alloc: Global,
    rows: &T,
    name: &FullName,
    from: &EntityName,
) -> Result<Effective, PackageRefusal>
    ensures { Answers (behind_bare (T.found rows.now) name.now from.now) result }
{
    if name.namespace.as_str() != from.as_str() {
        return Err(PackageRefusal::NotFound);
    }
    match action_at(rows, name) {
        Some(action) => Ok(made(alloc, action, None, None)?),
        None => Err(PackageRefusal::NotFound),
    }
}

// The action that a name in the package refers to.
fn in_package<T: Lookup>(
    alloc: Global,
    rows: &T,
    name: &FullName,
    bundle: &Package,
) -> Result<Effective, PackageRefusal>
    ensures { Answers (behind_in (T.found rows.now) name.now bundle.now bundle.now.binding) result }
{
    match &bundle.binding {
        Some(target) => bound(alloc, rows, name, bundle, target),
        None => match action_at(rows, name) {
            Some(action) => Ok(made(alloc, action, None, Some(bundle))?),
            None => Err(PackageRefusal::NotFound),
        },
    }
}

// An action in the package that the binding binds.
fn bound<T: Lookup>(
    alloc: Global,
    rows: &T,
    name: &FullName,
    binding: &Package,
    target: &FullName,
) -> Result<Effective, PackageRefusal>
    ensures { Answers (behind_in (T.found rows.now) name.now binding.now (Some target.now)) result }
{
    let Some(bundle) = reached_package(rows, target, &binding.name.namespace) else {
        return Err(PackageRefusal::NotFound);
    };
    let name = lying_in(alloc, target, &name.name)?;
    match action_at(rows, &name) {
        Some(action) => Ok(made(alloc, action, Some(binding), Some(bundle))?),
        None => Err(PackageRefusal::NotFound),
    }
}

fn made(
    alloc: Global,
    action: &Shared<Action>,
    binding: Option<&Package>,
    inside: Option<&Package>,
) -> Result<Effective, NoMemory>
    ensures { IfOk result (λ e. e ≡ effective_of (record { action = action.now; binding = option_copied binding.entry; inside = option_copied inside.entry })) }
{
    let params = all_params(alloc, action.get(), binding, inside)?;
    let binding = match binding {
        Some(bundle) => Some(bundle.name.copy(alloc)?),
        None => None,
    };
    let action = action.copy(alloc)?;
    Ok(Effective {
        action,
        params,
        binding,
    })
}

fn all_params(
    alloc: Global,
    action: &Action,
    binding: Option<&Package>,
    inside: Option<&Package>,
) -> Result<Params, NoMemory>
    ensures { IfOk result (λ ps. ps ≡ params_over (option_copied inside.entry) (params_over (option_copied binding.entry) action.now.params)) }
{
    let over = params_over(alloc, binding, action.params.get())?;
    params_over(alloc, inside, &over)
}

// The parameters, with those of the package below them.
fn params_over(alloc: Global, below: Option<&Package>, params: &Params) -> Result<Params, NoMemory>
    ensures { IfOk result (λ ps. ps ≡ params_over (option_copied below.entry) params.now) }
{
    match below {
        Some(bundle) => merge(alloc, bundle.params.get(), params),
        None => params.copy(alloc),
    }
}
