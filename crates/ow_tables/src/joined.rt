// What rules join.
ghost use Rattle.std.specs.Prelude.{◌≡◌, ◌≢◌, Some, None, MatchResult};
ghost use Rattle.std.specs.Option.{option_copied};
ghost use Rattle.std.specs.Result.{result_err};
ghost use Rattle.ow_tables.specs.Joined.{rule_at, trigger_at, joined_trigger, joined_action, trigger_refusal, action_refusal, joined_refusal};

use crate::refusal::TableRefusal;
use ow_entity::{EntityKind, Lookup, Row, Rule, RuleDraft, Trigger};
use ow_names::{EntityName, FullName};
use ow_packages::effective;
use std::alloc::Global;

/// The rule of the name.
pub fn rule_at<'a, T: Lookup>(rows: &'a T, name: &FullName) -> Option<&'a Rule>
    ensures { option_copied result ≡ rule_at (T.found rows.now) name.now }
{
    match rows.row(EntityKind::Rule, name) {
        Some(Row::Rule(rule)) => Some(rule.get()),
        _ => None,
    }
}

/// Checks that the trigger of a draft over an old rule is in its namespace, and that its action can be called from there.
pub(crate) fn check_joined<T: Lookup>(
    alloc: Global,
    rows: &T,
    draft: &RuleDraft,
    old: Option<&Rule>,
) -> Result<(), TableRefusal>
    ensures { MatchResult result (λ _. joined_refusal (T.found rows.now) draft.now (option_copied old.entry) ≡ None)
        (λ e. e ≢ TableRefusal.NoMemory → joined_refusal (T.found rows.now) draft.now (option_copied old.entry) ≡ Some e) }
{
    let home = &draft.name.namespace;
    check_trigger(rows, joined_trigger(draft, old), home)?;
    check_action(alloc, rows, joined_action(draft, old), home)
}

fn joined_trigger<'a>(draft: &'a RuleDraft, old: Option<&'a Rule>) -> Option<&'a FullName>
    ensures { option_copied result ≡ joined_trigger draft.now (option_copied old.entry) }
{
    match (&draft.trigger, old) {
        (Some(trigger), _) => Some(trigger),
        (None, Some(rule)) => Some(&rule.trigger),
        (None, None) => None,
    }
}

fn joined_action<'a>(draft: &'a RuleDraft, old: Option<&'a Rule>) -> Option<&'a FullName>
    ensures { option_copied result ≡ joined_action draft.now (option_copied old.entry) }
{
    match (&draft.action, old) {
        (Some(action), _) => Some(action),
        (None, Some(rule)) => Some(&rule.action),
        (None, None) => None,
    }
}

fn check_trigger<T: Lookup>(
    rows: &T,
    trigger: Option<&FullName>,
    home: &EntityName,
) -> Result<(), TableRefusal>
    ensures { result_err result ≡ trigger_refusal (T.found rows.now) home.now (option_copied trigger.entry) }
{
    let Some(trigger) = trigger else {
        return Ok(());
    };
    let inside = trigger.namespace.as_str() == home.as_str();
    if inside && trigger_at(rows, trigger).is_some() {
        return Ok(());
    }
    Err(TableRefusal::NotFound)
}

// The trigger of the name.
fn trigger_at<'a, T: Lookup>(rows: &'a T, name: &FullName) -> Option<&'a Trigger>
    ensures { option_copied result ≡ trigger_at (T.found rows.now) name.now }
{
    match rows.row(EntityKind::Trigger, name) {
        Some(Row::Trigger(trigger)) => Some(trigger.get()),
        _ => None,
    }
}

fn check_action<T: Lookup>(
    alloc: Global,
    rows: &T,
    action: Option<&FullName>,
    home: &EntityName,
) -> Result<(), TableRefusal>
    ensures { MatchResult result (λ _. action_refusal (T.found rows.now) home.now (option_copied action.entry) ≡ None)
        (λ e. e ≢ TableRefusal.NoMemory → action_refusal (T.found rows.now) home.now (option_copied action.entry) ≡ Some e) }
{
    let Some(action) = action else {
        return Ok(());
    };
    match effective(alloc, rows, action, home) {
        Ok(found) => {
            drop(found);
            Ok(())
        }
        Err(e) => Err(TableRefusal::from(e)),
    }
}
