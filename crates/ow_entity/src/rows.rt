// Entities of any kind, and their look-up.
ghost use Rattle.std.specs.Prelude.{◌≡◌, Option, IfSome};
ghost use Rattle.std.specs.Option.{option_copied};
ghost use Rattle.ow_names.specs.declared.full.FullName.{FullName};
ghost use Rattle.ow_entity.specs.declared.kinds.EntityKind.{EntityKind};

use crate::actions::{Action, ActionDraft};
use crate::kinds::EntityKind;
use crate::packages::{Package, PackageDraft};
use crate::rules::{Rule, RuleDraft};
use crate::triggers::{Trigger, TriggerDraft};
use ow_names::FullName;
use ow_value::{Items, NoMemory, PlainData, Shared};
use std::alloc::Global;

/// A stored entity.
#[derive(Drop)]
pub enum Row {
    /// What can be called.
    Action(Shared<Action>),
    /// What actions lie in.
    Package(Shared<Package>),
    /// The link by which a trigger calls an action.
    Rule(Shared<Rule>),
    /// What is fired with an event.
    Trigger(Shared<Trigger>),
}

/// An entity as a body gives it.
#[derive(Drop)]
pub enum Draft {
    /// Of an action.
    Action(ActionDraft),
    /// Of a package.
    Package(PackageDraft),
    /// Of a rule.
    Rule(RuleDraft),
    /// Of a trigger.
    Trigger(TriggerDraft),
}

/// Drafts in the order in which they are to be put.
pub type Drafts = Items<Draft>;

/// A look-up of entities, with at most one entity under each kind and name.
pub trait Lookup {
    ghost use Rattle.ow_entity.specs.declared.rows.Row.{Row};
    ghost use Rattle.ow_entity.specs.Row.{kind_of, name_of};

    ghost found: { Self → EntityKind → FullName → Option Row };

    /// The entity of the kind and the name.
    fn row(&self, kind: EntityKind, name: &FullName) -> Option<&Row>
        ensures value { option_copied result ≡ found self.now kind name.now }
        ensures kind { IfSome result (λ r. kind_of r.now ≡ kind) }
        ensures name { IfSome result (λ r. name_of r.now ≡ name.now) };
}

impl Row {
    ghost use Rattle.ow_entity.specs.Row.{kind_of, name_of, version_of};

    /// Of which kind it is.
    pub fn kind(&self) -> EntityKind
        ensures { result ≡ kind_of self.now }
    {
        match self {
            Row::Action(_) => EntityKind::Action,
            Row::Package(_) => EntityKind::Package,
            Row::Rule(_) => EntityKind::Rule,
            Row::Trigger(_) => EntityKind::Trigger,
        }
    }

    /// What it is called.
    pub fn name(&self) -> &FullName
        ensures { result.now ≡ name_of self.now }
    {
        match self {
            Row::Action(action) => &action.get().name,
            Row::Package(package) => &package.get().name,
            Row::Rule(rule) => &rule.get().name,
            Row::Trigger(trigger) => &trigger.get().name,
        }
    }

    /// Its version, from 1.
    pub fn version(&self) -> u32
        ensures { result ≡ version_of self.now }
    {
        match self {
            Row::Action(action) => action.get().version,
            Row::Package(package) => package.get().version,
            Row::Rule(rule) => rule.get().version,
            Row::Trigger(trigger) => trigger.get().version,
        }
    }
}

impl PlainData for Row {
    fn same(&self, other: &Row) -> bool {
        match (self, other) {
            (Row::Action(a), Row::Action(b)) => a.same(b),
            (Row::Package(a), Row::Package(b)) => a.same(b),
            (Row::Rule(a), Row::Rule(b)) => a.same(b),
            (Row::Trigger(a), Row::Trigger(b)) => a.same(b),
            _ => false,
        }
    }

    fn copy(&self, alloc: Global) -> Result<Row, NoMemory> {
        match self {
            Row::Action(action) => Ok(Row::Action(action.copy(alloc)?)),
            Row::Package(package) => Ok(Row::Package(package.copy(alloc)?)),
            Row::Rule(rule) => Ok(Row::Rule(rule.copy(alloc)?)),
            Row::Trigger(trigger) => Ok(Row::Trigger(trigger.copy(alloc)?)),
        }
    }
}

impl Draft {
    ghost use Rattle.ow_entity.specs.Row.{draft_kind, draft_name};

    /// Of which kind the entity is.
    pub fn kind(&self) -> EntityKind
        ensures { result ≡ draft_kind self.now }
    {
        match self {
            Draft::Action(_) => EntityKind::Action,
            Draft::Package(_) => EntityKind::Package,
            Draft::Rule(_) => EntityKind::Rule,
            Draft::Trigger(_) => EntityKind::Trigger,
        }
    }

    /// What the entity is called.
    pub fn name(&self) -> &FullName
        ensures { result.now ≡ draft_name self.now }
    {
        match self {
            Draft::Action(draft) => &draft.name,
            Draft::Package(draft) => &draft.name,
            Draft::Rule(draft) => &draft.name,
            Draft::Trigger(draft) => &draft.name,
        }
    }
}

impl PlainData for Draft {
    fn same(&self, other: &Draft) -> bool {
        match (self, other) {
            (Draft::Action(a), Draft::Action(b)) => a.same(b),
            (Draft::Package(a), Draft::Package(b)) => a.same(b),
            (Draft::Rule(a), Draft::Rule(b)) => a.same(b),
            (Draft::Trigger(a), Draft::Trigger(b)) => a.same(b),
            _ => false,
        }
    }

    fn copy(&self, alloc: Global) -> Result<Draft, NoMemory> {
        match self {
            Draft::Action(draft) => Ok(Draft::Action(draft.copy(alloc)?)),
            Draft::Package(draft) => Ok(Draft::Package(draft.copy(alloc)?)),
            Draft::Rule(draft) => Ok(Draft::Rule(draft.copy(alloc)?)),
            Draft::Trigger(draft) => Ok(Draft::Trigger(draft.copy(alloc)?)),
        }
    }
}
