// The row that a draft makes.
ghost use Rattle.std.specs.Prelude.{◌≡◌, ◌≢◌, unwrap_or, Some, None, Ok, Err, IfOk, MatchResult};
ghost use Rattle.std.specs.Option.{option_copied};
ghost use Rattle.ow_entity.specs.declared.rows.Row.TheVariants as rows;
ghost use Rattle.ow_entity.specs.Chain.{result_map};
ghost use Rattle.ow_entity.specs.Finish.{finished_row, action_made, as_action, new_action, next_action, action_over, limits_over};

use crate::actions::{Action, ActionDraft};
use crate::bounds::{GivenLimits, Limits};
use crate::field_name::FieldName;
use crate::package_finishing::finish_package;
use crate::params::EntityParams;
use crate::refusal::EntityRefusal;
use crate::rows::{Draft, Row};
use crate::rule_finishing::finish_rule;
use crate::trigger_finishing::finish_trigger;
use ow_value::{PlainData, Shared};
use std::alloc::Global;

/// The version of a new entity.
pub const FIRST_VERSION: u32 = 1;

/// The version that can't be raised.
pub(crate) const LAST_VERSION: u32 = u32::MAX;

/// The row that a draft makes over an old row of its kind, whose values are kept where the draft has none. Without an
/// old row the draft is completed with the defaults.
#[tactic(auto, unfolding(crate::specs::Finish::finished_row))]
pub fn finish(alloc: Global, draft: Draft, old: Option<&Row>) -> Result<Row, EntityRefusal>
    ensures { MatchResult result (λ r. finished_row draft (option_copied old.entry) ≡ Ok r)
        (λ e. e ≢ EntityRefusal.NoMemory → finished_row draft (option_copied old.entry) ≡ Err e) }
{
    match draft {
        Draft::Action(draft) => finish_action(alloc, draft, old),
        Draft::Package(draft) => finish_package(alloc, draft, old),
        Draft::Rule(draft) => finish_rule(alloc, draft, old),
        Draft::Trigger(draft) => finish_trigger(alloc, draft, old),
    }
}

fn finish_action(alloc: Global, draft: ActionDraft, old: Option<&Row>) -> Result<Row, EntityRefusal>
    ensures { MatchResult result (λ r. result_map rows.Action (action_made draft (as_action (option_copied old.entry))) ≡ Ok r)
        (λ e. e ≢ EntityRefusal.NoMemory → result_map rows.Action (action_made draft (as_action (option_copied old.entry))) ≡ Err e) }
{
    match old {
        Some(Row::Action(old)) => action_row(alloc, next_action(alloc, draft, old.get())?),
        _ => action_row(alloc, new_action(draft)?),
    }
}

fn action_row(alloc: Global, action: Action) -> Result<Row, EntityRefusal>
    ensures { MatchResult result (λ r. r ≡ rows.Action action) (λ e. e ≡ EntityRefusal.NoMemory) }
{
    Ok(Row::Action(Shared::new(alloc, action)?))
}

fn new_action(draft: ActionDraft) -> Result<Action, EntityRefusal>
    ensures { result ≡ new_action draft draft.exec }
{
    let ActionDraft {
        name,
        publish,
        params,
        notes,
        exec,
        limits,
    } = draft;
    let Some(exec) = exec else {
        return Err(EntityRefusal::MissingField {
            name: FieldName::Exec,
        });
    };
    Ok(Action {
        name,
        version: FIRST_VERSION,
        publish: publish.unwrap_or(false),
        params: params.unwrap_or(EntityParams::new()),
        notes: notes.unwrap_or(EntityParams::new()),
        exec,
        limits: limits_over(limits, Limits::DEFAULT),
    })
}

fn next_action(alloc: Global, draft: ActionDraft, old: &Action) -> Result<Action, EntityRefusal>
    ensures { MatchResult result (λ a. next_action draft old.now ≡ Ok a)
        (λ e. e ≢ EntityRefusal.NoMemory → next_action draft old.now ≡ Err e) }
{
    if old.version == LAST_VERSION {
        return Err(EntityRefusal::LastVersion);
    }
    Ok(action_over(draft, old.copy(alloc)?, old.version + 1))
}

// The action with what the draft gives, and else with the old values.
fn action_over(draft: ActionDraft, old: Action, version: u32) -> Action
    ensures { result ≡ action_over draft old version }
{
    let ActionDraft {
        name,
        publish,
        params,
        notes,
        exec,
        limits,
    } = draft;
    Action {
        name,
        version,
        publish: publish.unwrap_or(old.publish),
        params: params.unwrap_or(old.params),
        notes: notes.unwrap_or(old.notes),
        exec: exec.unwrap_or(old.exec),
        limits: limits_over(limits, old.limits),
    }
}

fn limits_over(given: GivenLimits, old: Limits) -> Limits
    ensures { result ≡ limits_over given old }
{
    Limits {
        timeout: given.timeout.unwrap_or(old.timeout),
        memory: given.memory.unwrap_or(old.memory),
        logs: given.logs.unwrap_or(old.logs),
    }
}
