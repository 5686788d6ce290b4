// How rules are put, and how their status is set.
ghost use Rattle.std.specs.Prelude.{◌≡◌, ◌≢◌, ◌≤◌, option_map, false, None, Some, Ok, IfOk, OnOk, IfErr, OnErr, IfSome, MatchResult};
ghost use Rattle.ow_entity.specs.Finish.{finished_row};
ghost use Rattle.ow_entity.specs.declared.rules.Rule.{Rule};
ghost use Rattle.ow_entity.specs.declared.rows.Row.TheVariants as rows;
ghost use Rattle.ow_tables.specs.Joined.{rule_at};
ghost use Rattle.ow_tables.specs.Refusal.{old_row, put_refusal};
ghost use Rattle.ow_tables.specs.Rows.{standing};
ghost use Rattle.ow_rules.specs.Joins.{IsJoined};
ghost use Rattle.ow_rules.specs.Status.{has_status, status_change, with_status};

use ow_entity::{Draft, Row, Rule};
use ow_names::FullName;
use ow_tables::{Ready, TableRefusal, Tables, rule_at};
use ow_value::{NoMemory, PlainData, Shared};
use std::alloc::Global;

/// Makes the rule of the draft ready for `Tables::apply`. That its trigger is in its namespace, and its action can be
/// called from there, is tested before all else.
#[tactic(auto, using(crate::proofs::JoinLaws::change_joins))]
pub fn prepare_rule(
    alloc: Global,
    tables: &mut Tables,
    draft: Draft,
    overwrite: bool,
) -> Result<Ready, TableRefusal>
    ensures unrefused { OnOk result (put_refusal draft overwrite tables.old.rows ≡ None) }
    ensures refused { IfErr result (λ e. e ≢ TableRefusal.NoMemory → put_refusal draft overwrite tables.old.rows ≡ Some e) }
    ensures row { IfOk result (λ r. finished_row draft (old_row draft tables.old.rows) ≡ Ok r.row) }
    ensures joins { IfOk result (λ c. (r : Rule) → c.row ≡ rows.Rule r → IsJoined tables.old.rows r) }
    ensures puts { IfOk result (λ r. r.removes ≡ false) }
    ensures rows { tables.new.rows ≡ tables.old.rows }
    ensures room { OnOk result (1 ≤ tables.new.room) }
    ensures unchanged { OnErr result (tables.new ≡ tables.old) }
{
    tables.prepare_put(alloc, draft, overwrite)
}

/// Makes the rule of the name ready for `Tables::apply` with the status, at its version; or nothing, where it has the
/// status already.
pub fn set_status(
    alloc: Global,
    tables: &mut Tables,
    name: &FullName,
    active: bool,
) -> Result<Option<Ready>, TableRefusal>
    ensures change { MatchResult result (λ c. option_map (λ r. status_change r active) (rule_at (standing tables.old.rows) name.now) ≡ Some c)
        (λ e. e ≢ TableRefusal.NoMemory → (e ≡ TableRefusal.NotFound) × (rule_at (standing tables.old.rows) name.now ≡ None)) }
    ensures rows { tables.new.rows ≡ tables.old.rows }
    ensures room { IfOk result (λ c. IfSome c (λ _. 1 ≤ tables.new.room)) }
    ensures unchanged { OnErr result (tables.new ≡ tables.old) }
{
    match changed_rule(alloc, tables, name, active)? {
        Some(rule) => Ok(Some(tables.prepare_row(rule)?)),
        None => Ok(None),
    }
}

// The row of the rule with the status, where it has another one.
fn changed_rule(
    alloc: Global,
    tables: &Tables,
    name: &FullName,
    active: bool,
) -> Result<Option<Row>, TableRefusal>
    ensures { MatchResult result (λ row. option_map (λ r. status_change r active) (rule_at (standing tables.now.rows) name.now)
        ≡ Some (option_map (λ r. record { row = r; removes = false }) row))
        (λ e. e ≢ TableRefusal.NoMemory → (e ≡ TableRefusal.NotFound) × (rule_at (standing tables.now.rows) name.now ≡ None)) }
{
    let Some(rule) = rule_at(tables, name) else {
        return Err(TableRefusal::NotFound);
    };
    if has_status(rule, active) {
        return Ok(None);
    }
    let rule = with_status(alloc, rule, active)?;
    Ok(Some(Row::Rule(Shared::new(alloc, rule)?)))
}

fn has_status(rule: &Rule, active: bool) -> bool
    ensures { result ≡ has_status active rule.now }
{
    if active { rule.active } else { !rule.active }
}

fn with_status(alloc: Global, rule: &Rule, active: bool) -> Result<Rule, NoMemory>
    ensures { IfOk result (λ r. r ≡ with_status active rule.now) }
{
    let mut rule = rule.copy(alloc)?;
    rule.active = active;
    Ok(rule)
}
