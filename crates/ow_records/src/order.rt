// The records by their ids, and by their namespaces and then their ids.
ghost use Rattle.std.specs.Prelude.{◌≡◌, ◌≤◌, filter, find, length};
ghost use Rattle.std.specs.Option.{option_copied};
ghost use Rattle.ow_value.specs.Value.{text_cmp};
ghost use Rattle.ow_records.specs.Order.{IsBehind, Rises, first_if, namespace_key, region, region_of};
ghost use Rattle.ow_records.specs.Records.{id_key, id_numbers, is_in, is_of_id};

use crate::{Id, Record};
use ow_names::EntityName;
use ow_value::Shared;
use std::cmp::Ordering;

/// The place after all records whose ids aren't greater.
pub(crate) fn place_by_id(records: &[Shared<Record>], id: &Id) -> usize
    requires { Rises id_key records.now }
    ensures bound { result ≤ length records.now }
    ensures place { IsBehind id_key (id_numbers id.now) records.now result }
{
    records.partition_point(|kept| id_order(kept.get(), id).is_le())
}

/// The place after all records of lower namespaces, and of the same namespace with ids that aren't greater.
pub(crate) fn place_by_namespace(records: &[Shared<Record>], added: &Record) -> usize
    requires { Rises namespace_key records.now }
    ensures bound { result ≤ length records.now }
    ensures place { IsBehind namespace_key (namespace_key added.now) records.now result }
{
    records.partition_point(|kept| namespace_id_order(kept.get(), added).is_le())
}

/// The first record of the activation.
pub(crate) fn first_of<'a>(records: &'a [Shared<Record>], id: &Id) -> Option<&'a Record>
    requires { Rises id_key records.now }
    ensures { option_copied result ≡ find (is_of_id id.now) records.now }
{
    let start = records.partition_point(|kept| id_order(kept.get(), id).is_lt());
    first_if(&records[start..], id)
}

// The first, if it is that of the activation.
fn first_if<'a>(records: &'a [Shared<Record>], id: &Id) -> Option<&'a Record>
    ensures { option_copied result ≡ first_if (is_of_id id.now) records.now }
{
    let [kept, ..] = records else {
        return None;
    };
    let kept = kept.get();
    if kept.id == *id { Some(kept) } else { None }
}

/// The records of the namespace, which are adjacent.
pub(crate) fn part<'a>(
    records: &'a [Shared<Record>],
    namespace: &EntityName,
) -> &'a [Shared<Record>]
    requires { Rises namespace_key records.now }
    ensures { result.now ≡ filter (is_in namespace.now) records.now }
{
    let start = records.partition_point(|kept| namespace_order(kept.get(), namespace).is_lt());
    let rest = &records[start..];
    let count = rest.partition_point(|kept| namespace_order(kept.get(), namespace).is_le());
    &rest[..count]
}

fn id_order(kept: &Record, id: &Id) -> Ordering
    ensures { result ≡ text_cmp (id_key kept.now) (id_numbers id.now) }
{
    kept.id
        .namespace
        .cmp(&id.namespace)
        .then(kept.id.count.cmp(&id.count))
}

// Names are ordered by their lengths, and names of one length by their bytes.
fn namespace_order(kept: &Record, namespace: &EntityName) -> Ordering
    ensures { result ≡ text_cmp (region_of kept.now) (region namespace.now) }
{
    let name = kept.namespace.as_str();
    let other = namespace.as_str();
    name.len().cmp(&other.len()).then(name.cmp(&other))
}

fn namespace_id_order(kept: &Record, other: &Record) -> Ordering
    ensures { result ≡ text_cmp (namespace_key kept.now) (namespace_key other.now) }
{
    namespace_order(kept, &other.namespace).then(id_order(kept, &other.id))
}
