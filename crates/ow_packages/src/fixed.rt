// Parameters that a call can't give.
ghost use Rattle.std.specs.Prelude.{◌≡◌, ◌≢◌, None, Some, option_map, IfOk, MatchResult};
ghost use Rattle.ow_packages.specs.Fixed.{is_fixed, fixed_names, first_fixed};
ghost use Rattle.ow_packages.specs.declared.refusal.PackageRefusal.TheVariants.{Fixed};

use crate::effective_action::Effective;
use crate::refusal::PackageRefusal;
use ow_entity::is_set;
use ow_value::{Lines, NoMemory, Params, PlainData, Val};
use std::alloc::Global;

/// The names of the parameters that a call can't give, in the order of their bytes. `web` says that a web request calls.
pub fn fixed_names(alloc: Global, e: &Effective, web: bool) -> Result<Lines, NoMemory>
    ensures { IfOk result (λ names. names ≡ fixed_names e.now web) }
{
    let mut names = Vec::new(alloc);
    for pair in e.params.pairs() {
        if is_fixed(e, web, pair.name.as_str()) {
            names.push(pair.name.copy(alloc)?)?;
        }
    }
    Lines::from_vec(names)
}

/// Whether a call may give these parameters. An equal value is refused too.
pub fn check_override(
    alloc: Global,
    e: &Effective,
    given: &Params,
    web: bool,
) -> Result<(), PackageRefusal>
    ensures { MatchResult result (λ _. first_fixed e.now given.now web ≡ None)
        (λ r. r ≢ PackageRefusal.NoMemory → option_map Fixed (first_fixed e.now given.now web) ≡ Some r) }
{
    for pair in given.pairs() {
        if is_fixed(e, web, pair.name.as_str()) {
            return Err(PackageRefusal::Fixed {
                name: pair.name.copy(alloc)?,
            });
        }
    }
    Ok(())
}

fn is_fixed(e: &Effective, web: bool, name: &str) -> bool
    ensures { result ≡ is_fixed e.now web name.now }
{
    if !web && !is_set(e.action.get().notes.get(), "final") {
        return false;
    }
    match e.params.find(name) {
        None | Some(Val::Null) => false,
        Some(_) => true,
    }
}
