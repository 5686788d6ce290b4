// Activations, as they were accepted.
ghost use Rattle.std.specs.Prelude.{◌≡◌, ◌↔◌, IsTrue, IfOk};

use crate::{Form, Id, Role};
use ow_entity::Action;
use ow_names::{EntityName, FullName};
use ow_value::{NoMemory, Params, PlainData, Shared, Str, copied3, joined2};
use std::alloc::Global;

/// What was accepted.
#[derive(Drop)]
pub struct Activation {
    /// The next id of its namespace.
    pub id: Id,
    /// The moment of the acceptance, in milliseconds.
    pub at: u64,
    /// The namespace that is charged for it.
    pub namespace: EntityName,
    /// The action as it was stored at the acceptance.
    pub action: Shared<Action>,
    /// The binding through which the action was called, if any.
    pub binding: Option<FullName>,
    /// The merged parameters, with which it is run.
    pub params: Params,
    /// In whose name it is run.
    pub subject: Str,
    /// The activation that it is a part of.
    pub cause: Option<Id>,
    /// The moment, in milliseconds, until which the request that made it waits for the end.
    pub until: Option<u64>,
    /// What it does.
    pub form: Form,
    /// What part it has in its cause.
    pub role: Role,
    /// The first activation of its composition, or itself.
    pub top: Id,
    /// How many composites there are from the first one of its composition down to this activation.
    pub depth: u32,
    /// The parameters of a conductor itself, with which each of its runs is made; none for others.
    pub own: Params,
}

impl PlainData for Activation {
    fn same(&self, other: &Activation) -> bool {
        self.id == other.id
            && self.at == other.at
            && self.namespace.same(&other.namespace)
            && self.action.same(&other.action)
            && self.binding.same(&other.binding)
            && self.params.same(&other.params)
            && self.subject.same(&other.subject)
            && self.cause == other.cause
            && self.until == other.until
            && self.form == other.form
            && self.role == other.role
            && self.top == other.top
            && self.depth == other.depth
            && self.own.same(&other.own)
    }

    fn copy(&self, alloc: Global) -> Result<Activation, NoMemory> {
        let called = copied3(alloc, &self.namespace, &self.action, &self.binding);
        let given = copied3(alloc, &self.params, &self.subject, &self.own);
        let ((namespace, action, binding), (params, subject, own)) = joined2(called, given)?;
        Ok(Activation {
            id: self.id,
            at: self.at,
            namespace,
            action,
            binding,
            params,
            subject,
            cause: self.cause,
            until: self.until,
            form: self.form,
            role: self.role,
            top: self.top,
            depth: self.depth,
            own,
        })
    }
}
