// Which rules a fire of a trigger follows.
ghost use Rattle.std.specs.Prelude.{◌≡◌, ◌++◌, IfOk, OnOk};
ghost use Rattle.std.specs.Str.{bytes_eq};
ghost use Rattle.ow_names.specs.FullName.{full_text};
ghost use Rattle.ow_rules.specs.Fired.{fired, follows, one_of};

use ow_entity::{EntityKind, Row, Rule};
use ow_names::FullName;
use ow_tables::Tables;
use ow_value::{Items, NoMemory, PlainData, Shared};
use std::alloc::Global;

/// A list of rules, which share their rows' memory.
pub type Rules = Items<Shared<Rule>>;

/// The active rules of the trigger in its namespace, by name.
pub fn fired(alloc: Global, tables: &Tables, trigger: &FullName) -> Result<Rules, NoMemory>
    ensures { IfOk result (λ rs. rs ≡ fired tables.now.rows trigger.now) }
{
    let mut rules = Vec::new(alloc);
    for row in tables.rows_in(EntityKind::Rule, &trigger.namespace) {
        push_one(alloc, &mut rules, row, trigger)?;
    }
    Rules::from_vec(rules)
}

// Appends the rule that the row is, where it is active and its trigger is this one.
fn push_one(
    alloc: Global,
    rules: &mut Vec<Shared<Rule>>,
    row: &Row,
    trigger: &FullName,
) -> Result<(), NoMemory>
    ensures { OnOk result (rules.new.items ≡ rules.old.items ++ one_of trigger.now row.now) }
{
    if let Row::Rule(rule) = row {
        if follows(rule.get(), trigger) {
            rules.push(rule.copy(alloc)?)?;
        }
    }
    Ok(())
}

fn follows(rule: &Rule, trigger: &FullName) -> bool
    ensures { result ≡ follows trigger.now rule.now }
{
    let same = is_trigger(rule, trigger);
    rule.active && same
}

#[tactic(auto, using(crate::proofs::FireLaws::equal_names))]
fn is_trigger(rule: &Rule, trigger: &FullName) -> bool
    ensures { result ≡ bytes_eq (full_text rule.now.trigger) (full_text trigger.now) }
{
    rule.trigger.compare(trigger).is_eq()
}
