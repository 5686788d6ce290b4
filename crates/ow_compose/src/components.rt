// What a component's name calls, and with which parameters.
ghost use Rattle.std.specs.Prelude.{◌≡◌, is_some, false, IfOk};
ghost use Rattle.std.specs.Result.{result_ok};
ghost use Rattle.ow_names.specs.Path.{resolved};
ghost use Rattle.ow_packages.specs.Effective.{effective};
ghost use Rattle.ow_packages.specs.Fixed.{first_fixed};
ghost use Rattle.ow_compose.specs.Refusal.{check_component, find_component, is_too_deep};

use crate::forms::form_of;
use crate::members::fitting;
use crate::{MOST_COMPONENTS, MOST_DEPTH, Untold};
use ow_entity::Lookup;
use ow_names::{EntityName, FullName, NameRefusal, resolve};
use ow_packages::{Effective, PackageRefusal, check_override, effective};
use ow_records::Used;
use ow_value::{NoMemory, Params};
use std::alloc::Global;

/// What the text calls for a composition that is charged to the namespace `from`, and whose action is in `home`, if anything.
pub fn find_component<T: Lookup>(
    alloc: Global,
    rows: &T,
    text: &str,
    from: &EntityName,
    home: &EntityName,
) -> Result<Option<Effective>, NoMemory>
    ensures { IfOk result (λ e. e ≡ find_component (T.found rows.now) text.now from.now home.now) }
{
    let Some(name) = name_of(alloc, text, from)? else {
        return Ok(None);
    };
    match reached(alloc, rows, &name, from)? {
        Some(called) => Ok(Some(called)),
        None => reached(alloc, rows, &name, home),
    }
}

fn name_of(alloc: Global, text: &str, from: &EntityName) -> Result<Option<FullName>, NoMemory>
    ensures { IfOk result (λ n. n ≡ result_ok (resolved from.now text.now)) }
{
    match resolve(alloc, text, from) {
        Ok(name) => Ok(Some(name)),
        Err(NameRefusal::NoMemory) => Err(NoMemory),
        Err(_) => Ok(None),
    }
}

fn reached<T: Lookup>(
    alloc: Global,
    rows: &T,
    name: &FullName,
    from: &EntityName,
) -> Result<Option<Effective>, NoMemory>
    ensures { IfOk result (λ e. e ≡ effective (T.found rows.now) name.now from.now) }
{
    match effective(alloc, rows, name, from) {
        Ok(called) => Ok(Some(called)),
        Err(PackageRefusal::NoMemory) => Err(NoMemory),
        Err(_) => Ok(None),
    }
}

/// The component's parameters with what is given over them, or why it isn't called: below a composite of depth `depth`, in a tree that has
/// used `used`.
pub fn check_component(
    alloc: Global,
    called: &Effective,
    given: &Params,
    used: Used,
    depth: u32,
) -> Result<Result<Params, Untold>, NoMemory>
    ensures { IfOk result (λ r. r ≡ check_component called.now given.now used depth) }
{
    if overrides(alloc, called, given)? {
        return Ok(Err(Untold::Fixed));
    }
    if used.components >= MOST_COMPONENTS {
        return Ok(Err(Untold::Components));
    }
    if is_too_deep(called, depth) {
        return Ok(Err(Untold::Depth));
    }
    match fitting(alloc, &called.params, given)? {
        Some(params) => Ok(Ok(params)),
        None => Ok(Err(Untold::Bytes)),
    }
}

fn is_too_deep(called: &Effective, depth: u32) -> bool
    ensures { result ≡ is_too_deep called.now depth }
{
    form_of(called.action.get()).is_composite() && depth >= MOST_DEPTH
}

fn overrides(alloc: Global, called: &Effective, given: &Params) -> Result<bool, NoMemory>
    ensures { IfOk result (λ b. b ≡ is_some (first_fixed called.now given.now false)) }
{
    match check_override(alloc, called, given, false) {
        Ok(()) => Ok(false),
        Err(PackageRefusal::NoMemory) => Err(NoMemory),
        Err(_) => Ok(true),
    }
}
