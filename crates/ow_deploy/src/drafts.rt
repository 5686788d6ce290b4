// The drafts of what a manifest lists.
ghost use Rattle.std.specs.Prelude.{◌≡◌, ◌≢◌, ◌++◌, [], ◌∷◌, true, Ok, Err, IfOk, OnOk, MatchResult, map, position};
ghost use Rattle.std.specs.List.{list_all};
ghost use Rattle.ow_names.specs.Slash.{is_slash};
ghost use Rattle.ow_names.specs.FullName.{IsFullName};
ghost use Rattle.ow_entity.specs.Given.{AreGiven, IsGiven, IsPlaced};
ghost use Rattle.ow_deploy.specs.EntryView.{entry_view};
ghost use Rattle.ow_deploy.specs.Manifest.{draft_at, drafts_at, is_path, is_shallow, name_at};

use crate::data::value_of;
use crate::entries::Entry;
use ow_entity::{Draft, Drafts, EntityKind, EntityRefusal, read_entity};
use ow_names::{EntityName, FullName, NameRefusal, resolve};
use ow_value::NoMemory;
use std::alloc::Global;

/// The drafts of all, none of whose bodies is too deep.
pub(crate) fn drafts_at(
    alloc: Global,
    home: &EntityName,
    entries: &[Entry<'_>],
) -> Result<Drafts, EntityRefusal>
    requires { list_all is_shallow (map entry_view entries.now) ≡ true }
    ensures value { MatchResult result (λ ds. drafts_at home.now (map entry_view entries.now) ≡ Ok ds)
        (λ e. e ≢ EntityRefusal.NoMemory → drafts_at home.now (map entry_view entries.now) ≡ Err e) }
    ensures given { IfOk result (λ ds. AreGiven ds) }
{
    let mut drafts = Vec::new(alloc);
    for entry in entries {
        let draft = draft_at(alloc, home, entry)?;
        put_draft(&mut drafts, draft)?;
    }
    Ok(Drafts::from_vec(drafts)?)
}

fn put_draft(drafts: &mut Vec<Draft>, draft: Draft) -> Result<(), NoMemory>
    ensures { OnOk result (drafts.new.items ≡ drafts.old.items ++ draft ∷ []) }
{
    drafts.push(draft)?;
    Ok(())
}

fn draft_at(alloc: Global, home: &EntityName, entry: &Entry<'_>) -> Result<Draft, EntityRefusal>
    requires { is_shallow (entry_view entry.now) ≡ true }
    ensures value { MatchResult result (λ d. draft_at home.now (entry_view entry.now) ≡ Ok d)
        (λ e. e ≢ EntityRefusal.NoMemory → draft_at home.now (entry_view entry.now) ≡ Err e) }
    ensures given { IfOk result (λ d. IsGiven d) }
{
    let name = name_at(alloc, home, entry.kind, entry.path)?;
    let body = value_of(alloc, entry.body)?;
    read_entity(alloc, entry.kind, &name, &body)
}

// The name that a path is in the namespace.
fn name_at(
    alloc: Global,
    home: &EntityName,
    kind: EntityKind,
    path: &str,
) -> Result<FullName, EntityRefusal>
    ensures value { MatchResult result (λ n. name_at home.now kind path.now ≡ Ok n)
        (λ e. e ≢ EntityRefusal.NoMemory → name_at home.now kind path.now ≡ Err e) }
    ensures full { IfOk result (λ n. IsFullName n) }
    ensures placed { IfOk result (λ n. IsPlaced kind n) }
{
    if !is_path(kind, path) {
        return Err(EntityRefusal::BadName(NameRefusal::BadPath));
    }
    match resolve(alloc, path, home) {
        Ok(name) => Ok(known(name)),
        Err(NameRefusal::NoMemory) => Err(EntityRefusal::NoMemory),
        Err(refusal) => Err(EntityRefusal::BadName(refusal)),
    }
}

// Makes known that each part is a name.
fn known(name: FullName) -> FullName
    ensures value { result ≡ name }
    ensures full { IsFullName result }
{
    name.namespace.as_str();
    if let Some(package) = &name.package {
        package.as_str();
    }
    name.name.as_str();
    name
}

fn is_path(kind: EntityKind, path: &str) -> bool
    ensures { result ≡ is_path kind path.now }
{
    match (kind, first_slash(path.as_bytes())) {
        (_, None) => true,
        (EntityKind::Action, Some(place)) => place > 0,
        _ => false,
    }
}

fn first_slash(path: &[u8]) -> Option<usize>
    ensures { result ≡ position is_slash path.now }
{
    path.iter().position(|b| *b == b'/')
}
