// Triggers: as they are stored, and as bodies give them.

use crate::params::EntityParams;
use ow_names::FullName;
use ow_value::{NoMemory, PlainData, copied3};
use std::alloc::Global;

/// A trigger as it is stored: what is fired with an event, and so invokes the actions of its active rules.
#[derive(Drop)]
pub struct Trigger {
    /// Its namespace, and what it is called there. It lies in no package.
    pub name: FullName,
    /// Shown as `0.0.version`. The first is 1.
    pub version: u32,
    /// Kept and shown.
    pub publish: bool,
    /// What each event is given, where it doesn't give another value itself.
    pub params: EntityParams,
    /// The annotations.
    pub notes: EntityParams,
}

/// A trigger as a body gives it: each field, or none where the body leaves it out.
#[derive(Drop)]
pub struct TriggerDraft {
    /// This comes from the path, and not from the body.
    pub name: FullName,
    /// Whether it is published.
    pub publish: Option<bool>,
    /// The parameters.
    pub params: Option<EntityParams>,
    /// The annotations.
    pub notes: Option<EntityParams>,
}

impl PlainData for Trigger {
    fn same(&self, other: &Trigger) -> bool {
        self.name.same(&other.name)
            && self.version == other.version
            && self.publish == other.publish
            && self.params.same(&other.params)
            && self.notes.same(&other.notes)
    }

    fn copy(&self, alloc: Global) -> Result<Trigger, NoMemory> {
        let (name, params, notes) = copied3(alloc, &self.name, &self.params, &self.notes)?;
        Ok(Trigger {
            name,
            version: self.version,
            publish: self.publish,
            params,
            notes,
        })
    }
}

impl PlainData for TriggerDraft {
    fn same(&self, other: &TriggerDraft) -> bool {
        self.name.same(&other.name)
            && self.publish == other.publish
            && self.params.same(&other.params)
            && self.notes.same(&other.notes)
    }

    fn copy(&self, alloc: Global) -> Result<TriggerDraft, NoMemory> {
        let (name, params, notes) = copied3(alloc, &self.name, &self.params, &self.notes)?;
        Ok(TriggerDraft {
            name,
            publish: self.publish,
            params,
            notes,
        })
    }
}
