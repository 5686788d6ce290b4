// The trigger that a draft makes.
ghost use Rattle.std.specs.Prelude.{◌≡◌, ◌≢◌, Ok, Err, MatchResult};
ghost use Rattle.std.specs.Option.{option_copied};
ghost use Rattle.ow_entity.specs.declared.rows.Row.TheVariants as rows;
ghost use Rattle.ow_entity.specs.Chain.{result_map};
ghost use Rattle.ow_entity.specs.Finish.{trigger_made, as_trigger, new_trigger, next_trigger, trigger_over};

use crate::finishing::{FIRST_VERSION, LAST_VERSION};
use crate::params::EntityParams;
use crate::refusal::EntityRefusal;
use crate::rows::Row;
use crate::triggers::{Trigger, TriggerDraft};
use ow_value::{PlainData, Shared};
use std::alloc::Global;

/// The row that a draft of a trigger makes, over an old row or over none.
pub(crate) fn finish_trigger(
    alloc: Global,
    draft: TriggerDraft,
    old: Option<&Row>,
) -> Result<Row, EntityRefusal>
    ensures { MatchResult result (λ r. result_map rows.Trigger (trigger_made draft (as_trigger (option_copied old.entry))) ≡ Ok r)
        (λ e. e ≢ EntityRefusal.NoMemory → result_map rows.Trigger (trigger_made draft (as_trigger (option_copied old.entry))) ≡ Err e) }
{
    match old {
        Some(Row::Trigger(old)) => trigger_row(alloc, next_trigger(alloc, draft, old.get())?),
        _ => trigger_row(alloc, new_trigger(draft)),
    }
}

fn trigger_row(alloc: Global, trigger: Trigger) -> Result<Row, EntityRefusal>
    ensures { MatchResult result (λ r. r ≡ rows.Trigger trigger) (λ e. e ≡ EntityRefusal.NoMemory) }
{
    Ok(Row::Trigger(Shared::new(alloc, trigger)?))
}

fn new_trigger(draft: TriggerDraft) -> Trigger
    ensures { result ≡ new_trigger draft }
{
    let TriggerDraft {
        name,
        publish,
        params,
        notes,
    } = draft;
    Trigger {
        name,
        version: FIRST_VERSION,
        publish: publish.unwrap_or(false),
        params: params.unwrap_or(EntityParams::new()),
        notes: notes.unwrap_or(EntityParams::new()),
    }
}

fn next_trigger(alloc: Global, draft: TriggerDraft, old: &Trigger) -> Result<Trigger, EntityRefusal>
    ensures { MatchResult result (λ t. next_trigger draft old.now ≡ Ok t)
        (λ e. e ≢ EntityRefusal.NoMemory → next_trigger draft old.now ≡ Err e) }
{
    if old.version == LAST_VERSION {
        return Err(EntityRefusal::LastVersion);
    }
    Ok(trigger_over(draft, old.copy(alloc)?, old.version + 1))
}

// The trigger with what the draft gives, and else with the old values.
fn trigger_over(draft: TriggerDraft, old: Trigger, version: u32) -> Trigger
    ensures { result ≡ trigger_over draft old version }
{
    let TriggerDraft {
        name,
        publish,
        params,
        notes,
    } = draft;
    Trigger {
        name,
        version,
        publish: publish.unwrap_or(old.publish),
        params: params.unwrap_or(old.params),
        notes: notes.unwrap_or(old.notes),
    }
}
