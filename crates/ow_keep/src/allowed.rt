// Which items are allowed beside which rows.
ghost use Rattle.std.specs.Prelude.{◌≡◌, ◌≤◌, ◌&&◌, nat_le, IfOk};
ghost use Rattle.std.specs.Str.{bytes_eq};
ghost use Rattle.ow_value.specs.Value.{depth};
ghost use Rattle.ow_value.specs.Text.{compact};
ghost use Rattle.ow_value.specs.View.{view};
ghost use Rattle.ow_names.specs.Path.{home};
ghost use Rattle.ow_entity.specs.declared.rows.Row.TheVariants as rows;
ghost use Rattle.ow_row_text.specs.declared.item.Item.TheVariants as items;
ghost use Rattle.ow_keep.specs.Allowed.{are_durations, are_written, has_archive, has_note, has_record, is_allowed, is_archive, is_binding, is_called, is_cause, is_confirmed, is_drawn, is_duration, is_entity, is_formed, is_moment, is_note, is_note_key, is_reached, is_row_of, is_version_of, is_written, stands_alone};

use ow_entity::{Action, Package, Row, Rule, Trigger, write_entity};
use ow_names::{EntityName, FullName};
use ow_records::{ExecKind, Form, Id, Notes, Record, Unrecorded, write_record};
use ow_row_text::{
    Archive, Item, Note, RowsVersion, archive_row, count_key, count_row, done_key, entity_key,
    note_row, open_row, version_row,
};
use ow_tables::{MOST_COMPONENTS, is_builtin};
use ow_traits::Rows;
use ow_value::{MOST_NESTED, MOST_NESTED_RECORD, NoMemory, Str, Val, depth, digits_of, write_val};
use std::alloc::Global;

/// The greatest moment, in milliseconds: the last of the year 9999.
pub const GREATEST_MOMENT: u64 = 253_402_300_799_999;

/// The greatest last count of a namespace.
pub const GREATEST_COUNT: u64 = 9_223_372_036_854_775_807;

/// How many bytes the key of a note has at most.
pub const LONGEST_NOTE_KEY: usize = 1024;

/// Whether the item is written as the row, and is allowed among all rows.
pub(crate) fn is_confirmed(
    alloc: Global,
    all: &Rows,
    row: &(Str, Str),
    item: &Item,
) -> Result<bool, NoMemory>
    ensures { IfOk result (λ b. b ≡ is_confirmed all.now row.now item.now) }
{
    let written = is_row_of(alloc, row, item)?;
    if !written {
        return Ok(false);
    }
    is_allowed(alloc, all, item)
}

// ---- the row of an item

#[tactic(auto, unfolding(ow_row_text::specs::Item::item_text))]
fn is_row_of(alloc: Global, row: &(Str, Str), item: &Item) -> Result<bool, NoMemory>
    ensures { IfOk result (λ b. b ≡ is_row_of item.now row.now) }
{
    match item {
        Item::Version(version) => is_version_row(alloc, row, *version),
        Item::Archive(archive) => is_archive_row(alloc, row, *archive),
        Item::Count { namespace, count } => is_count_row(alloc, row, *namespace, *count),
        Item::Note(note) => is_note_row(alloc, row, note),
        Item::Row(entity) => is_entity_row(alloc, row, entity),
        Item::Open(activation) => is_open_row(alloc, row, activation),
        Item::Done(ended) => is_done_row(alloc, row, ended),
    }
}

#[tactic(auto, unfolding(ow_row_text::specs::Item::item_text))]
fn is_version_row(alloc: Global, row: &(Str, Str), version: RowsVersion) -> Result<bool, NoMemory>
    ensures { IfOk result (λ b. b ≡ is_row_of (items.Version version) row.now) }
{
    let (key, text) = version_row(alloc, version)?;
    Ok(key.as_str() == row.0.as_str() && text.as_str() == row.1.as_str())
}

#[tactic(auto, unfolding(ow_row_text::specs::Item::item_text))]
fn is_archive_row(alloc: Global, row: &(Str, Str), archive: Archive) -> Result<bool, NoMemory>
    ensures { IfOk result (λ b. b ≡ is_row_of (items.Archive archive) row.now) }
{
    let (key, text) = archive_row(alloc, archive)?;
    Ok(key.as_str() == row.0.as_str() && text.as_str() == row.1.as_str())
}

#[tactic(auto, unfolding(ow_row_text::specs::Item::item_text))]
fn is_note_row(alloc: Global, row: &(Str, Str), note: &Note) -> Result<bool, NoMemory>
    ensures { IfOk result (λ b. b ≡ is_row_of (items.Note note.now) row.now) }
{
    let (key, text) = note_row(alloc, note)?;
    Ok(key.as_str() == row.0.as_str() && text.as_str() == row.1.as_str())
}

#[tactic(auto, unfolding(ow_row_text::specs::Item::item_text))]
fn is_count_row(
    alloc: Global,
    row: &(Str, Str),
    namespace: u64,
    count: u64,
) -> Result<bool, NoMemory>
    ensures { IfOk result (λ b. b ≡ is_row_of (items.Count namespace count) row.now) }
{
    let (key, text) = count_row(alloc, namespace, count)?;
    Ok(key.as_str() == row.0.as_str() && text.as_str() == row.1.as_str())
}

#[tactic(auto, unfolding(ow_row_text::specs::Item::item_text))]
fn is_entity_row(alloc: Global, row: &(Str, Str), entity: &Row) -> Result<bool, NoMemory>
    ensures { IfOk result (λ b. b ≡ is_row_of (items.Row entity.now) row.now) }
{
    let key = entity_key(alloc, entity)?;
    let value = write_entity(alloc, entity)?;
    is_row(alloc, row, &key, &value, MOST_NESTED)
}

#[tactic(auto, using(crate::proofs::Opens::open_rows))]
fn is_open_row(alloc: Global, row: &(Str, Str), activation: &Unrecorded) -> Result<bool, NoMemory>
    ensures { IfOk result (λ b. b ≡ is_row_of (items.Open activation.now) row.now) }
{
    let (key, text) = open_row(alloc, activation)?;
    Ok(key.as_str() == row.0.as_str() && text.as_str() == row.1.as_str())
}

#[tactic(auto, unfolding(ow_row_text::specs::Item::item_text))]
fn is_done_row(alloc: Global, row: &(Str, Str), ended: &Record) -> Result<bool, NoMemory>
    ensures { IfOk result (λ b. b ≡ is_row_of (items.Done ended.now) row.now) }
{
    let key = done_key(alloc, ended.id)?;
    let value = write_record(alloc, ended)?;
    is_row(alloc, row, &key, &value, MOST_NESTED_RECORD)
}

// Whether the row has this key and the text of this value, which nests no deeper than the limit.
fn is_row(
    alloc: Global,
    row: &(Str, Str),
    key: &Str,
    value: &Val,
    limit: u32,
) -> Result<bool, NoMemory>
    requires { limit ≤ 127 }
    ensures { IfOk result (λ b. b ≡ bytes_eq key.now row.now.0 && (bytes_eq (compact (view value.now)) row.now.1 && nat_le (depth (view value.now)) limit)) }
{
    let same_key = key.as_str() == row.0.as_str();
    let shallow = is_shallow(value, limit);
    let same_text = is_text(alloc, row.1.as_str(), value)?;
    Ok(same_key && same_text && shallow)
}

fn is_shallow(value: &Val, limit: u32) -> bool
    requires { limit ≤ 127 }
    ensures { result ≡ nat_le (depth (view value.now)) limit }
{
    depth(value) <= limit
}

fn is_text(alloc: Global, text: &str, value: &Val) -> Result<bool, NoMemory>
    ensures { IfOk result (λ b. b ≡ bytes_eq (compact (view value.now)) text.now) }
{
    let written = write_val(alloc, value)?;
    Ok(written.as_slice() == text.as_bytes())
}

// ---- beside other rows

fn is_allowed(alloc: Global, all: &Rows, item: &Item) -> Result<bool, NoMemory>
    ensures { IfOk result (λ b. b ≡ is_allowed all.now item.now) }
{
    match item {
        Item::Version(version) => Ok(is_version_of(all, *version)),
        Item::Archive(archive) => Ok(is_archive(*archive)),
        Item::Count { count, .. } => Ok(1 <= *count && *count <= GREATEST_COUNT),
        Item::Note(note) => Ok(is_note(note)),
        Item::Row(entity) => Ok(is_entity(entity) && !is_builtin(entity)),
        Item::Open(activation) => is_allowed_open(alloc, all, activation),
        Item::Done(ended) => is_allowed_done(alloc, all, ended),
    }
}

// Whether the rows have an archive and notes as this version has them.
fn is_version_of(all: &Rows, version: RowsVersion) -> bool
    ensures { result ≡ is_version_of all.now version }
{
    let archived = has_archive(all);
    match version {
        RowsVersion::First => !archived && !has_note(all),
        RowsVersion::Second => archived,
    }
}

fn has_archive(all: &Rows) -> bool
    ensures { result ≡ has_archive all.now }
{
    all.find("archived").is_some()
}

fn has_note(all: &Rows) -> bool
    ensures { result ≡ has_note all.now }
{
    let rows = all.as_slice();
    for row in rows {
        if is_note_key(row.0.as_str()) {
            return true;
        }
    }
    false
}

fn is_note_key(key: &str) -> bool
    ensures { result ≡ is_note_key key.now }
{
    key.as_bytes().starts_with(b"note/".as_slice())
}

fn is_archive(archive: Archive) -> bool
    ensures { result ≡ is_archive archive }
{
    let moment = is_moment(archive.last);
    moment && (archive.number <= GREATEST_COUNT && (1 <= archive.number || archive.last == 0))
}

fn is_note(note: &Note) -> bool
    ensures { result ≡ is_note note.now }
{
    let moment = is_moment(note.value);
    let length = note.key.len();
    moment && (1 <= length && length <= LONGEST_NOTE_KEY)
}

fn is_allowed_open(alloc: Global, all: &Rows, activation: &Unrecorded) -> Result<bool, NoMemory>
    ensures { IfOk result (λ b. b ≡ is_allowed all.now (items.Open activation.now)) }
{
    let drawn = is_drawn(alloc, all, activation.id)?;
    let ended = has_record(alloc, all, activation.id)?;
    let moment = is_moment(activation.at);
    let called = is_called(activation.cause, activation.version, &activation.binding);
    let formed = is_formed(activation.form, activation.kind);
    Ok((drawn && !ended) && (moment && (called && formed)))
}

fn is_allowed_done(alloc: Global, all: &Rows, ended: &Record) -> Result<bool, NoMemory>
    ensures { IfOk result (λ b. b ≡ is_allowed all.now (items.Done ended.now)) }
{
    let drawn = is_drawn(alloc, all, ended.id)?;
    let moment = is_moment(ended.span.end());
    let called = is_called(ended.cause, ended.version, &ended.notes.binding);
    let durations = are_durations(&ended.notes);
    Ok(drawn && (moment && (called && durations)))
}

fn is_drawn(alloc: Global, all: &Rows, id: Id) -> Result<bool, NoMemory>
    ensures { IfOk result (λ b. b ≡ is_drawn all.now id) }
{
    let key = count_key(alloc, id.namespace)?;
    let Some(text) = all.find(key.as_str()) else {
        return Ok(false);
    };
    match digits_of(text.as_str().as_bytes()) {
        Some(last) => Ok(1 <= id.count && id.count <= last),
        None => Ok(false),
    }
}

fn has_record(alloc: Global, all: &Rows, id: Id) -> Result<bool, NoMemory>
    ensures { IfOk result (λ b. b ≡ has_record all.now id) }
{
    let key = done_key(alloc, id)?;
    Ok(all.find(key.as_str()).is_some())
}

fn is_moment(moment: u64) -> bool
    ensures { result ≡ is_moment moment }
{
    moment <= GREATEST_MOMENT
}

fn is_cause(cause: Option<Id>) -> bool
    ensures { result ≡ is_cause cause }
{
    match cause {
        None => true,
        Some(id) => 1 <= id.count,
    }
}

fn is_called(cause: Option<Id>, version: u32, binding: &Option<FullName>) -> bool
    ensures { result ≡ is_called cause version binding.now }
{
    let cause = is_cause(cause);
    let reached = is_reached(binding);
    cause && (1 <= version && reached)
}

// Whether the activation is that of a sequence exactly where its action is a sequence.
fn is_formed(form: Form, kind: ExecKind) -> bool
    ensures { result ≡ is_formed form kind }
{
    match form {
        Form::Sequence => match kind {
            ExecKind::Sequence => true,
            ExecKind::Plain | ExecKind::Program => false,
        },
        Form::Leaf | Form::Conductor => match kind {
            ExecKind::Sequence => false,
            ExecKind::Plain | ExecKind::Program => true,
        },
    }
}

fn is_reached(binding: &Option<FullName>) -> bool
    ensures { result ≡ is_reached binding.now }
{
    match binding {
        None => true,
        Some(binding) => stands_alone(binding),
    }
}

fn are_durations(notes: &Notes) -> bool
    ensures { result ≡ are_durations notes.now }
{
    let start = is_duration(notes.init_time);
    let wait = is_duration(notes.wait_time);
    start && wait
}

fn is_duration(duration: Option<u64>) -> bool
    ensures { result ≡ is_duration duration }
{
    match duration {
        None => true,
        Some(duration) => is_moment(duration),
    }
}

fn stands_alone(name: &FullName) -> bool
    ensures { result ≡ stands_alone name.now }
{
    name.package.is_none()
}

fn is_entity(entity: &Row) -> bool
    ensures { result ≡ is_entity entity.now }
{
    match entity {
        Row::Action(action) => is_action(action.get()),
        Row::Package(bundle) => is_package(bundle.get()),
        Row::Rule(rule) => is_rule(rule.get()),
        Row::Trigger(trigger) => is_trigger(trigger.get()),
    }
}

fn is_action(action: &Action) -> bool
    ensures { result ≡ is_entity (rows.Action action.now) }
{
    let components = action.exec.components();
    let few = components.len() <= MOST_COMPONENTS;
    let written = are_written(&action.name.namespace, components);
    1 <= action.version && (few && written)
}

fn are_written(here: &EntityName, names: &[FullName]) -> bool
    ensures { result ≡ are_written here.now names.now }
{
    for name in names {
        if !is_written(here, name) {
            return false;
        }
    }
    true
}

fn is_rule(rule: &Rule) -> bool
    ensures { result ≡ is_entity (rows.Rule rule.now) }
{
    let here = &rule.name.namespace;
    let alone = stands_alone(&rule.name);
    let trigger = is_written(here, &rule.trigger);
    let action = is_written(here, &rule.action);
    1 <= rule.version && (alone && (trigger && action))
}

fn is_trigger(trigger: &Trigger) -> bool
    ensures { result ≡ is_entity (rows.Trigger trigger.now) }
{
    1 <= trigger.version && stands_alone(&trigger.name)
}

fn is_package(bundle: &Package) -> bool
    ensures { result ≡ is_entity (rows.Package bundle.now) }
{
    let alone = stands_alone(&bundle.name);
    let bound = is_binding(&bundle.name.namespace, &bundle.binding);
    1 <= bundle.version && (alone && bound)
}

fn is_binding(here: &EntityName, binding: &Option<FullName>) -> bool
    ensures { result ≡ is_binding here.now binding.now }
{
    match binding {
        None => true,
        Some(bound) => stands_alone(bound) && is_written(here, bound),
    }
}

// Whether the name's text, read in this namespace, is the name again.
fn is_written(here: &EntityName, name: &FullName) -> bool
    ensures { result ≡ is_written here.now name.now }
{
    let text = name.namespace.as_str();
    text != "_" || here.as_str() == text
}
