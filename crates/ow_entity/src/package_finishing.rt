// The package that a draft makes.
ghost use Rattle.std.specs.Prelude.{◌≡◌, ◌≢◌, Ok, Err, MatchResult};
ghost use Rattle.std.specs.Option.{option_copied};
ghost use Rattle.ow_entity.specs.declared.rows.Row.TheVariants as rows;
ghost use Rattle.ow_entity.specs.Chain.{result_map};
ghost use Rattle.ow_entity.specs.Finish.{package_made, as_package, new_package, next_package, package_over};

use crate::finishing::{FIRST_VERSION, LAST_VERSION};
use crate::packages::{Package, PackageDraft};
use crate::params::EntityParams;
use crate::refusal::EntityRefusal;
use crate::rows::Row;
use ow_value::{PlainData, Shared};
use std::alloc::Global;

/// The row that a draft of a package makes, over an old row or over none.
pub(crate) fn finish_package(
    alloc: Global,
    draft: PackageDraft,
    old: Option<&Row>,
) -> Result<Row, EntityRefusal>
    ensures { MatchResult result (λ r. result_map rows.Package (package_made draft (as_package (option_copied old.entry))) ≡ Ok r)
        (λ e. e ≢ EntityRefusal.NoMemory → result_map rows.Package (package_made draft (as_package (option_copied old.entry))) ≡ Err e) }
{
    match old {
        Some(Row::Package(old)) => package_row(alloc, next_package(alloc, draft, old.get())?),
        _ => package_row(alloc, new_package(draft)),
    }
}

fn package_row(alloc: Global, bundle: Package) -> Result<Row, EntityRefusal>
    ensures { MatchResult result (λ r. r ≡ rows.Package bundle) (λ e. e ≡ EntityRefusal.NoMemory) }
{
    Ok(Row::Package(Shared::new(alloc, bundle)?))
}

fn new_package(draft: PackageDraft) -> Package
    ensures { result ≡ new_package draft }
{
    let PackageDraft {
        name,
        publish,
        params,
        notes,
        binding,
    } = draft;
    Package {
        name,
        version: FIRST_VERSION,
        publish: publish.unwrap_or(false),
        params: params.unwrap_or(EntityParams::new()),
        notes: notes.unwrap_or(EntityParams::new()),
        binding: binding.unwrap_or(None),
    }
}

fn next_package(alloc: Global, draft: PackageDraft, old: &Package) -> Result<Package, EntityRefusal>
    ensures { MatchResult result (λ p. next_package draft old.now ≡ Ok p)
        (λ e. e ≢ EntityRefusal.NoMemory → next_package draft old.now ≡ Err e) }
{
    if old.version == LAST_VERSION {
        return Err(EntityRefusal::LastVersion);
    }
    Ok(package_over(draft, old.copy(alloc)?, old.version + 1))
}

// The package with what the draft gives, and else with the old values.
fn package_over(draft: PackageDraft, old: Package, version: u32) -> Package
    ensures { result ≡ package_over draft old version }
{
    let PackageDraft {
        name,
        publish,
        params,
        notes,
        binding,
    } = draft;
    Package {
        name,
        version,
        publish: publish.unwrap_or(old.publish),
        params: params.unwrap_or(old.params),
        notes: notes.unwrap_or(old.notes),
        binding: binding.unwrap_or(old.binding),
    }
}
