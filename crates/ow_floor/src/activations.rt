// Activations: as planned, and as open.
ghost use Rattle.std.specs.Prelude.{◌≡◌, ◌↔◌, IsTrue, IfOk};
ghost use Rattle.ow_floor.specs.Frames.{part_of};

use ow_names::EntityName;
use ow_packages::Effective;
use ow_records::{Activation, Form, Id, Role};
use ow_value::{NoMemory, Params, PlainData, Str, copied4};
use std::alloc::Global;

/// What is to be accepted.
#[derive(Drop)]
pub struct Plan {
    /// The next id of its namespace.
    pub id: Id,
    /// The namespace that is charged for it.
    pub namespace: EntityName,
    /// What its name calls at the acceptance: the action, its parameters, and the binding that the name goes through.
    pub effective: Effective,
    /// The merged parameters, with which it is run: what is given over the effective ones.
    pub params: Params,
    /// In whose name it is run.
    pub subject: Str,
    /// The activation that it is a part of.
    pub cause: Option<Id>,
    /// The moment until which the request that made it waits for the end, in milliseconds.
    pub until: Option<u64>,
    /// What it does.
    pub form: Form,
    /// What part it has in its cause.
    pub role: Role,
    /// The first activation of its composition, or itself.
    pub top: Id,
    /// How many composites there are from the first one of its composition down to this activation.
    pub depth: u32,
}

/// What part an activation has in its composition.
#[derive(Clone, Copy)]
pub(crate) struct Part {
    pub(crate) id: Id,
    pub(crate) form: Form,
    pub(crate) role: Role,
    pub(crate) cause: Option<Id>,
    pub(crate) top: Id,
}

/// Whether an activation waits, or the number of the run that carries it.
#[derive(Clone, Copy, Debug, PartialEq, Eq)]
pub enum State {
    /// It waits.
    Waiting,
    /// The run of this number carries it.
    Running(u64),
}

/// An activation that has not ended.
#[derive(Drop)]
pub struct Open {
    /// What was accepted.
    pub task: Activation,
    /// Whether it waits or runs.
    pub state: State,
}

impl PlainData for Plan {
    fn same(&self, other: &Plan) -> bool {
        self.id == other.id
            && self.namespace.same(&other.namespace)
            && self.effective.same(&other.effective)
            && self.params.same(&other.params)
            && self.subject.same(&other.subject)
            && self.cause == other.cause
            && self.until == other.until
            && self.form == other.form
            && self.role == other.role
            && self.top == other.top
            && self.depth == other.depth
    }

    fn copy(&self, alloc: Global) -> Result<Plan, NoMemory> {
        let (namespace, effective, params, subject) = copied4(
            alloc,
            &self.namespace,
            &self.effective,
            &self.params,
            &self.subject,
        )?;
        Ok(Plan {
            id: self.id,
            namespace,
            effective,
            params,
            subject,
            cause: self.cause,
            until: self.until,
            form: self.form,
            role: self.role,
            top: self.top,
            depth: self.depth,
        })
    }
}

impl PlainData for Open {
    fn same(&self, other: &Open) -> bool {
        self.state == other.state && self.task.same(&other.task)
    }

    fn copy(&self, alloc: Global) -> Result<Open, NoMemory> {
        Ok(Open {
            task: self.task.copy(alloc)?,
            state: self.state,
        })
    }
}

pub(crate) fn part_of(task: &Activation) -> Part
    ensures { result ≡ part_of task.now }
{
    Part {
        id: task.id,
        form: task.form,
        role: task.role,
        cause: task.cause,
        top: task.top,
    }
}
