// The names at the top of a manifest, and its namespace.
ghost use Rattle.std.specs.Prelude.{◌≡◌, ◌≢◌, Some, None, MatchResult, option_map, codes};
ghost use Rattle.toml.specs.Data.{get_member};
ghost use Rattle.toml.specs.View.{view, table_view};
ghost use Rattle.ow_deploy.specs.declared.refusal.ManifestRefusal.TheVariants.{BadManifest};
ghost use Rattle.ow_deploy.specs.EntryView.{text_in};
ghost use Rattle.ow_deploy.specs.Manifest.{is_kind, is_right, namespace_of, wrong_name};

use crate::refusal::ManifestRefusal;
use ow_names::{EntityName, NameRefusal, read_name};
use ow_value::Str;
use std::alloc::Global;
use toml::{Table, Value};

/// The value of the name at the top.
pub(crate) fn value_at<'a>(top: &'a Table, name: &str) -> Option<&'a Value>
    ensures { option_map (λ v. view v.now) result ≡ get_member name.now (table_view top.now) }
{
    top.get(name)
}

/// The namespace of all drafts.
pub(crate) fn namespace_of(alloc: Global, top: &Table) -> Result<EntityName, ManifestRefusal>
    ensures { MatchResult result (λ n. namespace_of (table_view top.now) ≡ Some n)
        (λ e. e ≢ ManifestRefusal.NoMemory → (namespace_of (table_view top.now) ≡ None) × (e ≡ BadManifest (codes "namespace"))) }
{
    let Some(Value::String(text)) = value_at(top, "namespace") else {
        return Err(bad_manifest(alloc, "namespace"));
    };
    match read_name(alloc, text.as_bytes()) {
        Ok(name) => Ok(name),
        Err(NameRefusal::NoMemory) => Err(ManifestRefusal::NoMemory),
        Err(_) => Err(bad_manifest(alloc, "namespace")),
    }
}

/// That the name at the top, or the body of the path, is wrong.
pub(crate) fn bad_manifest(alloc: Global, field: &str) -> ManifestRefusal
    ensures { result ≢ ManifestRefusal.NoMemory → result ≡ BadManifest field.now }
{
    match Str::of(alloc, field) {
        Ok(field) => ManifestRefusal::BadManifest { field },
        Err(_) => ManifestRefusal::NoMemory,
    }
}

/// The first name that is unknown, or whose value is no table.
pub(crate) fn wrong_name(top: &Table) -> Option<&str>
    ensures { text_in result ≡ wrong_name (table_view top.now) }
{
    for (name, value) in top.iter() {
        if !is_right(name.as_str(), value) {
            return Some(name.as_str());
        }
    }
    None
}

fn is_right(name: &str, value: &Value) -> bool
    ensures { result ≡ is_right name.now (view value.now) }
{
    name == "namespace" || is_kind(name) && value.is_table()
}

fn is_kind(name: &str) -> bool
    ensures { result ≡ is_kind name.now }
{
    name == "packages" || name == "actions" || name == "triggers" || name == "rules"
}
