// Where the components of a sequence lead.
ghost use Rattle.std.specs.Prelude.{◌≡◌, ◌≢◌, ◌++◌, ◌∷◌, [], zero, if◌then◌else◌, Some, None, IfOk, OnOk, MatchResult};
ghost use Rattle.std.specs.Option.{option_copied};
ghost use Rattle.ow_entity.specs.declared.rows.Row.TheVariants as entities;
ghost use Rattle.ow_entity.specs.Exec.{components_of};
ghost use Rattle.ow_packages.specs.Access.{action_at};
ghost use Rattle.ow_tables.specs.Sequences.{components_refusal, found_on, is_named, leads, leads_back, looked_at, named_action, no_trail, through, trail_with};

use crate::refusal::TableRefusal;
use crate::tables::Tables;
use ow_entity::{Action, EntityKind, Exec, Lookup, Row};
use ow_names::FullName;
use ow_packages::{lying_in, package_of};
use ow_value::{NoMemory, PlainData, Shared};
use std::alloc::Global;

/// The most components of a sequence.
pub const MOST_COMPONENTS: usize = 50;

/// Checks that the action, where it is a sequence, isn't too long and doesn't lead back to itself. At most `most` other sequences are
/// followed.
pub(crate) fn check_sequence<T: Lookup>(
    alloc: Global,
    rows: &T,
    most: usize,
    action: &Action,
) -> Result<(), TableRefusal>
    ensures { MatchResult result (λ _. components_refusal (T.found rows.now) most action.now ≡ None)
        (λ e. e ≢ TableRefusal.NoMemory → components_refusal (T.found rows.now) most action.now ≡ Some e) }
{
    if action.exec.components().len() > MOST_COMPONENTS {
        return Err(TableRefusal::SequenceTooLong);
    }
    if leads_back(alloc, rows, most, action)? {
        return Err(TableRefusal::SequenceLoops);
    }
    Ok(())
}

// Whether the components of the action lead back to it.
fn leads_back<T: Lookup>(
    alloc: Global,
    rows: &T,
    most: usize,
    action: &Action,
) -> Result<bool, NoMemory>
    ensures { IfOk result (λ b. b ≡ leads_back (T.found rows.now) most action.now) }
{
    let mut seen = Tables::empty(alloc);
    let mut queue = Vec::new(alloc);
    if looked_at(
        alloc,
        rows,
        &action.name,
        &action.exec,
        &mut seen,
        &mut queue,
    )? {
        return Ok(true);
    }
    leads(alloc, rows, most, &action.name, &mut seen, &mut queue)
}

// Whether one of the next `most` actions of the queue has the goal as a component.
fn leads<T: Lookup>(
    alloc: Global,
    rows: &T,
    most: usize,
    goal: &FullName,
    seen: &mut Tables,
    queue: &mut Vec<Shared<Action>>,
) -> Result<bool, NoMemory>
    ensures { IfOk result (λ b. b ≡ leads (T.found rows.now) goal.now most 0 (record { seen = seen.old.rows; queue = queue.old.items })) }
{
    for k in 0..most {
        if k >= queue.len() {
            return Ok(false);
        }
        let action = queue[k].copy(alloc)?;
        if looked_at(alloc, rows, goal, &action.get().exec, seen, queue)? {
            return Ok(true);
        }
    }
    Ok(false)
}

// Whether one of the components is the goal. The actions of the others are added to the actions that were found.
fn looked_at<T: Lookup>(
    alloc: Global,
    rows: &T,
    goal: &FullName,
    exec: &Exec,
    seen: &mut Tables,
    queue: &mut Vec<Shared<Action>>,
) -> Result<bool, NoMemory>
    ensures { IfOk result (λ back. looked_at (T.found rows.now) goal.now (components_of exec.now) (record { seen = seen.old.rows; queue = queue.old.items })
        ≡ if back then None else Some (record { seen = seen.new.rows; queue = queue.new.items })) }
{
    for component in exec.components() {
        let name = named_action(alloc, rows, component)?;
        if is_named(&name, goal) {
            return Ok(true);
        }
        find_on(alloc, rows, &name, seen, queue)?;
    }
    Ok(false)
}

// Adds the action of the name to the actions that were found, where there is one and it wasn't found before.
fn find_on<T: Lookup>(
    alloc: Global,
    rows: &T,
    name: &FullName,
    seen: &mut Tables,
    queue: &mut Vec<Shared<Action>>,
) -> Result<(), NoMemory>
    ensures { OnOk result (record { seen = seen.new.rows; queue = queue.new.items }
        ≡ found_on (T.found rows.now) name.now (record { seen = seen.old.rows; queue = queue.old.items })) }
{
    if seen.row(EntityKind::Action, name).is_some() {
        return Ok(());
    }
    match rows.row(EntityKind::Action, name) {
        Some(Row::Action(action)) => join(alloc, action, seen, queue),
        _ => Ok(()),
    }
}

fn join(
    alloc: Global,
    action: &Shared<Action>,
    seen: &mut Tables,
    queue: &mut Vec<Shared<Action>>,
) -> Result<(), NoMemory>
    ensures { OnOk result (record { seen = seen.new.rows; queue = queue.new.items }
        ≡ trail_with (Some action.now) (record { seen = seen.old.rows; queue = queue.old.items })) }
{
    seen.add(Row::Action(action.copy(alloc)?))?;
    queue.push(action.copy(alloc)?)?;
    Ok(())
}

// The full name of the action that the name means, through one binding.
fn named_action<T: Lookup>(alloc: Global, rows: &T, name: &FullName) -> Result<FullName, NoMemory>
    ensures { IfOk result (λ n. n ≡ named_action (T.found rows.now) name.now) }
{
    let Some(bundle) = package_of(alloc, name)? else {
        return name.copy(alloc);
    };
    match rows.row(EntityKind::Package, &bundle) {
        Some(Row::Package(bundle)) => through(alloc, name, &bundle.get().binding),
        _ => name.copy(alloc),
    }
}

fn through(alloc: Global, name: &FullName, binding: &Option<FullName>) -> Result<FullName, NoMemory>
    ensures { IfOk result (λ n. n ≡ through name.now binding.now) }
{
    match binding {
        Some(target) => lying_in(alloc, target, &name.name),
        None => name.copy(alloc),
    }
}

fn is_named(name: &FullName, goal: &FullName) -> bool
    ensures { result ≡ is_named name.now goal.now }
{
    name.compare(goal).is_eq()
}
