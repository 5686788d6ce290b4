// Rules: as they are stored, and as bodies give them.

use crate::params::EntityParams;
use ow_names::FullName;
use ow_value::{NoMemory, PlainData, copied4};
use std::alloc::Global;

/// A rule as it is stored: each fire of its trigger invokes its action, while the rule is active.
#[derive(Drop)]
pub struct Rule {
    /// Its namespace, and what it is called there. It lies in no package.
    pub name: FullName,
    /// Shown as `0.0.version`. The first is 1. A change of the status keeps it.
    pub version: u32,
    /// Kept and shown.
    pub publish: bool,
    /// The annotations.
    pub notes: EntityParams,
    /// The trigger, which was in the rule's namespace when the rule was put.
    pub trigger: FullName,
    /// The action, which was accessible from the rule's namespace when the rule was put.
    pub action: FullName,
    /// Whether a fire of the trigger invokes the action.
    pub active: bool,
}

/// A rule as a body gives it: each field, or none where the body leaves it out.
#[derive(Drop)]
pub struct RuleDraft {
    /// This comes from the path, and not from the body.
    pub name: FullName,
    /// Whether it is published.
    pub publish: Option<bool>,
    /// The annotations.
    pub notes: Option<EntityParams>,
    /// The trigger. A new rule must have it.
    pub trigger: Option<FullName>,
    /// The action. A new rule must have it.
    pub action: Option<FullName>,
}

impl PlainData for Rule {
    fn same(&self, other: &Rule) -> bool {
        self.name.same(&other.name)
            && self.version == other.version
            && self.publish == other.publish
            && self.notes.same(&other.notes)
            && self.trigger.same(&other.trigger)
            && self.action.same(&other.action)
            && self.active == other.active
    }

    fn copy(&self, alloc: Global) -> Result<Rule, NoMemory> {
        let (name, notes, trigger, action) = copied4(
            alloc,
            &self.name,
            &self.notes,
            &self.trigger,
            &self.action,
        )?;
        Ok(Rule {
            name,
            version: self.version,
            publish: self.publish,
            notes,
            trigger,
            action,
            active: self.active,
        })
    }
}

impl PlainData for RuleDraft {
    fn same(&self, other: &RuleDraft) -> bool {
        self.name.same(&other.name)
            && self.publish == other.publish
            && self.notes.same(&other.notes)
            && self.trigger.same(&other.trigger)
            && self.action.same(&other.action)
    }

    fn copy(&self, alloc: Global) -> Result<RuleDraft, NoMemory> {
        let (name, notes, trigger, action) = copied4(
            alloc,
            &self.name,
            &self.notes,
            &self.trigger,
            &self.action,
        )?;
        Ok(RuleDraft {
            name,
            publish: self.publish,
            notes,
            trigger,
            action,
        })
    }
}
