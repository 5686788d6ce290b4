// The rule that a draft makes.
ghost use Rattle.std.specs.Prelude.{◌≡◌, ◌≢◌, Ok, Err, MatchResult};
ghost use Rattle.std.specs.Option.{option_copied};
ghost use Rattle.ow_entity.specs.declared.rows.Row.TheVariants as rows;
ghost use Rattle.ow_entity.specs.Chain.{result_map};
ghost use Rattle.ow_entity.specs.Finish.{rule_made, as_rule, new_rule, next_rule, rule_over};

use crate::field_name::FieldName;
use crate::finishing::{FIRST_VERSION, LAST_VERSION};
use crate::params::EntityParams;
use crate::refusal::EntityRefusal;
use crate::rows::Row;
use crate::rules::{Rule, RuleDraft};
use ow_value::{PlainData, Shared};
use std::alloc::Global;

/// The row that a draft of a rule makes, over an old row or over none.
pub(crate) fn finish_rule(
    alloc: Global,
    draft: RuleDraft,
    old: Option<&Row>,
) -> Result<Row, EntityRefusal>
    ensures { MatchResult result (λ r. result_map rows.Rule (rule_made draft (as_rule (option_copied old.entry))) ≡ Ok r)
        (λ e. e ≢ EntityRefusal.NoMemory → result_map rows.Rule (rule_made draft (as_rule (option_copied old.entry))) ≡ Err e) }
{
    match old {
        Some(Row::Rule(old)) => rule_row(alloc, next_rule(alloc, draft, old.get())?),
        _ => rule_row(alloc, new_rule(draft)?),
    }
}

fn rule_row(alloc: Global, rule: Rule) -> Result<Row, EntityRefusal>
    ensures { MatchResult result (λ r. r ≡ rows.Rule rule) (λ e. e ≡ EntityRefusal.NoMemory) }
{
    Ok(Row::Rule(Shared::new(alloc, rule)?))
}

fn new_rule(draft: RuleDraft) -> Result<Rule, EntityRefusal>
    ensures { result ≡ new_rule draft draft.trigger draft.action }
{
    let RuleDraft {
        name,
        publish,
        notes,
        trigger,
        action,
    } = draft;
    let Some(trigger) = trigger else {
        return Err(EntityRefusal::MissingField {
            name: FieldName::Trigger,
        });
    };
    let Some(action) = action else {
        return Err(EntityRefusal::MissingField {
            name: FieldName::Action,
        });
    };
    Ok(Rule {
        name,
        version: FIRST_VERSION,
        publish: publish.unwrap_or(false),
        notes: notes.unwrap_or(EntityParams::new()),
        trigger,
        action,
        active: true,
    })
}

fn next_rule(alloc: Global, draft: RuleDraft, old: &Rule) -> Result<Rule, EntityRefusal>
    ensures { MatchResult result (λ r. next_rule draft old.now ≡ Ok r)
        (λ e. e ≢ EntityRefusal.NoMemory → next_rule draft old.now ≡ Err e) }
{
    if old.version == LAST_VERSION {
        return Err(EntityRefusal::LastVersion);
    }
    Ok(rule_over(draft, old.copy(alloc)?, old.version + 1))
}

// The rule with what the draft gives, and else with the old values.
fn rule_over(draft: RuleDraft, old: Rule, version: u32) -> Rule
    ensures { result ≡ rule_over draft old version }
{
    let RuleDraft {
        name,
        publish,
        notes,
        trigger,
        action,
    } = draft;
    Rule {
        name,
        version,
        publish: publish.unwrap_or(old.publish),
        notes: notes.unwrap_or(old.notes),
        trigger: trigger.unwrap_or(old.trigger),
        action: action.unwrap_or(old.action),
        active: old.active,
    }
}
