// A manifest as drafts.
ghost use Rattle.std.specs.Prelude.{◌≡◌, ◌≢◌, true, Some, None, Ok, Err, IfOk, MatchResult, find, map, not, option_copied};
ghost use Rattle.std.specs.List.{list_all};
ghost use Rattle.toml.specs.View.{view, table_view};
ghost use Rattle.ow_entity.specs.Given.{AreGiven};
ghost use Rattle.ow_deploy.specs.EntryView.{entry_view, text_in};
ghost use Rattle.ow_deploy.specs.Manifest.{document, drafts_unless, first_wrong, is_body, is_shallow, manifest_of, of_top, wrong_body};
ghost use Rattle.ow_deploy.specs.declared.refusal.ManifestRefusal.TheVariants.{NotToml};

use crate::data::{is_plain, is_within};
use crate::drafts::drafts_at;
use crate::entries::{Entry, listed};
use crate::refusal::ManifestRefusal;
use crate::top::{bad_manifest, namespace_of, wrong_name};
use ow_entity::{Drafts, EntityRefusal};
use ow_names::EntityName;
use ow_value::MOST_NESTED;
use std::alloc::Global;
use toml::{Table, Value};

/// The most bytes of a manifest.
pub const MOST_BYTES: usize = 4_194_304;

/// The drafts that a manifest gives: packages that bind none, packages that bind another, actions, triggers and rules,
/// each by the bytes of the path.
#[tactic(auto, unfolding(crate::specs::Manifest::manifest_of))]
pub fn read_manifest(alloc: Global, text: &[u8]) -> Result<Drafts, ManifestRefusal>
    ensures value { MatchResult result (λ ds. manifest_of text.now ≡ Ok ds)
        (λ e. e ≢ ManifestRefusal.NoMemory → manifest_of text.now ≡ Err e) }
    ensures given { IfOk result (λ ds. AreGiven ds) }
{
    if text.len() > MOST_BYTES {
        return Err(ManifestRefusal::TooLarge);
    }
    let top = read_table(alloc, text)?;
    read_top(alloc, &top)
}

#[tactic(auto, using(crate::proofs::ManifestLaws::document_read, crate::proofs::ManifestLaws::document_refused))]
fn read_table(alloc: Global, text: &[u8]) -> Result<Table, ManifestRefusal>
    ensures { MatchResult result (λ t. document text.now ≡ Some (table_view t))
        (λ e. e ≢ ManifestRefusal.NoMemory → (e ≡ NotToml) × (document text.now ≡ None)) }
{
    match toml::table_from_slice(alloc, text) {
        Ok(table) => Ok(table),
        Err(error) => {
            if error.is_memory() {
                Err(ManifestRefusal::NoMemory)
            } else {
                Err(ManifestRefusal::NotToml)
            }
        }
    }
}

fn read_top(alloc: Global, top: &Table) -> Result<Drafts, ManifestRefusal>
    ensures value { MatchResult result (λ ds. of_top (Some (table_view top.now)) ≡ Ok ds)
        (λ e. e ≢ ManifestRefusal.NoMemory → of_top (Some (table_view top.now)) ≡ Err e) }
    ensures given { IfOk result (λ ds. AreGiven ds) }
{
    let home = namespace_of(alloc, top)?;
    if let Some(name) = wrong_name(top) {
        return Err(bad_manifest(alloc, name));
    }
    let entries = listed(alloc, top)?;
    read_entries(alloc, &home, entries.as_slice())
}

fn read_entries(
    alloc: Global,
    home: &EntityName,
    entries: &[Entry<'_>],
) -> Result<Drafts, ManifestRefusal>
    ensures value { MatchResult result (λ ds. drafts_unless (first_wrong None (map entry_view entries.now)) home.now (map entry_view entries.now) ≡ Ok ds)
        (λ e. e ≢ ManifestRefusal.NoMemory → drafts_unless (first_wrong None (map entry_view entries.now)) home.now (map entry_view entries.now) ≡ Err e) }
    ensures given { IfOk result (λ ds. AreGiven ds) }
{
    if let Some(path) = wrong_body(entries) {
        return Err(bad_manifest(alloc, path));
    }
    if !are_shallow(entries) {
        return Err(ManifestRefusal::TooDeep);
    }
    match drafts_at(alloc, home, entries) {
        Ok(drafts) => Ok(drafts),
        Err(EntityRefusal::NoMemory) => Err(ManifestRefusal::NoMemory),
        Err(refusal) => Err(ManifestRefusal::BadDraft(refusal)),
    }
}

// The path of the first whose body is none.
fn wrong_body<'a>(entries: &[Entry<'a>]) -> Option<&'a str>
    ensures { text_in result ≡ wrong_body (map entry_view entries.now) }
{
    match first_wrong(entries) {
        Some(entry) => Some(entry.path),
        None => None,
    }
}

fn first_wrong<'e, 'a>(entries: &'e [Entry<'a>]) -> Option<&'e Entry<'a>>
    ensures { option_copied result ≡ find (λ e. not (is_body (view e.body.now))) entries.now }
{
    entries.iter().find(|entry| !is_body(entry.body))
}

fn is_body(value: &Value) -> bool
    ensures { result ≡ is_body (view value.now) }
{
    value.is_table() && is_plain(value)
}

fn are_shallow(entries: &[Entry<'_>]) -> bool
    ensures { result ≡ list_all is_shallow (map entry_view entries.now) }
{
    are_within(entries)
}

fn are_within(entries: &[Entry<'_>]) -> bool
    ensures { result ≡ list_all (λ e. is_shallow (entry_view e)) entries.now }
{
    entries
        .iter()
        .all(|entry| is_within(MOST_NESTED, entry.body))
}
