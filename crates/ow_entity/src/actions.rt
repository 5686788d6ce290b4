// Actions: as they are stored, and as bodies give them.

use crate::bounds::{GivenLimits, Limits};
use crate::exec::Exec;
use crate::params::EntityParams;
use ow_names::FullName;
use ow_value::{NoMemory, PlainData, copied4};
use std::alloc::Global;

/// A stored action.
#[derive(Drop)]
pub struct Action {
    /// Its namespace, its package, if any, and what it is called there.
    pub name: FullName,
    /// Shown as `0.0.version`. The first is 1.
    pub version: u32,
    /// Kept and shown. Only a package is shared by it.
    pub publish: bool,
    /// What each call is given, where it doesn't give another value itself.
    pub params: EntityParams,
    /// The annotations.
    pub notes: EntityParams,
    /// What a run carries out.
    pub exec: Exec,
    /// What a run may take.
    pub limits: Limits,
}

/// An action as a body gives it: each field, or none where the body leaves it out.
#[derive(Drop)]
pub struct ActionDraft {
    /// This comes from the path, and not from the body.
    pub name: FullName,
    /// Whether it is published.
    pub publish: Option<bool>,
    /// The parameters.
    pub params: Option<EntityParams>,
    /// The annotations.
    pub notes: Option<EntityParams>,
    /// What a run carries out. A new action must have it.
    pub exec: Option<Exec>,
    /// Each limit is given or not by itself.
    pub limits: GivenLimits,
}

impl Action {
    ghost use Rattle.ow_value.specs.Value.{AreParams};
    ghost use Rattle.ow_entity.specs.FitAction.{IsFitAction};

    // Makes known that each field lies within its bounds.
    pub(crate) fn known(&self)
        ensures fits { IsFitAction self.now }
        ensures params { AreParams self.now.params }
        ensures notes { AreParams self.now.notes }
    {
        self.params.get();
        self.notes.get();
        self.exec.known();
        self.limits.known();
    }
}

impl PlainData for Action {
    fn same(&self, other: &Action) -> bool {
        self.name.same(&other.name)
            && self.version == other.version
            && self.publish == other.publish
            && self.params.same(&other.params)
            && self.notes.same(&other.notes)
            && self.exec.same(&other.exec)
            && self.limits == other.limits
    }

    fn copy(&self, alloc: Global) -> Result<Action, NoMemory> {
        let (name, params, notes, exec) = copied4(
            alloc,
            &self.name,
            &self.params,
            &self.notes,
            &self.exec,
        )?;
        Ok(Action {
            name,
            version: self.version,
            publish: self.publish,
            params,
            notes,
            exec,
            limits: self.limits,
        })
    }
}

impl PlainData for ActionDraft {
    fn same(&self, other: &ActionDraft) -> bool {
        self.name.same(&other.name)
            && self.publish == other.publish
            && self.params.same(&other.params)
            && self.notes.same(&other.notes)
            && self.exec.same(&other.exec)
            && self.limits == other.limits
    }

    fn copy(&self, alloc: Global) -> Result<ActionDraft, NoMemory> {
        let (name, params, notes, exec) = copied4(
            alloc,
            &self.name,
            &self.params,
            &self.notes,
            &self.exec,
        )?;
        Ok(ActionDraft {
            name,
            publish: self.publish,
            params,
            notes,
            exec,
            limits: self.limits,
        })
    }
}
