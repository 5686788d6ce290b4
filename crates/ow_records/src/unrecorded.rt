// Activations that have not ended.
ghost use Rattle.std.specs.Prelude.{◌≡◌, ◌↔◌, IsTrue, IfOk};
ghost use Rattle.ow_records.specs.Unrecorded.{unrecorded_of};

use crate::{Activation, ExecKind, Form, Id};
use ow_entity::Limits;
use ow_names::{EntityName, FullName};
use ow_value::{NoMemory, PlainData, Str};
use std::alloc::Global;

/// What is kept of an activation that has not ended.
#[derive(Drop)]
pub struct Unrecorded {
    /// The activation.
    pub id: Id,
    /// The moment of the acceptance, in milliseconds.
    pub at: u64,
    /// The binding through which the action was called, if any.
    pub binding: Option<FullName>,
    /// The activation that it is a part of.
    pub cause: Option<Id>,
    /// What it does.
    pub form: Form,
    /// What kind of code the action has.
    pub kind: ExecKind,
    /// The limits of the action.
    pub limits: Limits,
    /// The namespace that is charged for it.
    pub namespace: EntityName,
    /// The full name of the action.
    pub path: FullName,
    /// In whose name it is run.
    pub subject: Str,
    /// The version of the action.
    pub version: u32,
}

impl Unrecorded {
    /// What is kept of the activation.
    pub fn of(alloc: Global, activation: &Activation) -> Result<Unrecorded, NoMemory>
        ensures { IfOk result (λ u. u ≡ unrecorded_of activation.now) }
    {
        let action = activation.action.get();
        let binding = activation.binding.copy(alloc)?;
        let namespace = activation.namespace.copy(alloc)?;
        let path = action.name.copy(alloc)?;
        let subject = activation.subject.copy(alloc)?;
        Ok(Unrecorded {
            id: activation.id,
            at: activation.at,
            binding,
            cause: activation.cause,
            form: activation.form,
            kind: ExecKind::of(&action.exec),
            limits: action.limits,
            namespace,
            path,
            subject,
            version: action.version,
        })
    }
}

impl PlainData for Unrecorded {
    fn same(&self, other: &Unrecorded) -> bool {
        self.id == other.id
            && self.at == other.at
            && self.binding.same(&other.binding)
            && self.cause == other.cause
            && self.form == other.form
            && self.kind == other.kind
            && self.limits == other.limits
            && self.namespace.same(&other.namespace)
            && self.path.same(&other.path)
            && self.subject.same(&other.subject)
            && self.version == other.version
    }

    fn copy(&self, alloc: Global) -> Result<Unrecorded, NoMemory> {
        let binding = self.binding.copy(alloc)?;
        let namespace = self.namespace.copy(alloc)?;
        let path = self.path.copy(alloc)?;
        let subject = self.subject.copy(alloc)?;
        Ok(Unrecorded {
            id: self.id,
            at: self.at,
            binding,
            cause: self.cause,
            form: self.form,
            kind: self.kind,
            limits: self.limits,
            namespace,
            path,
            subject,
            version: self.version,
        })
    }
}
