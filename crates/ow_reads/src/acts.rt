// What a request is to do.
ghost use Rattle.std.specs.Prelude.{◌≡◌};
ghost use Rattle.ow_reads.specs.Acts.{act_in, act_of, change_in, opened_kind, reading_in, right_for};
ghost use Rattle.ow_reads.specs.Reading.{read_kind};

use ow_entity::EntityKind;
use ow_http::{CallKind, Part, Route, Verb};
use ow_tenant::Right;

/// What is read.
#[derive(Clone, Copy, Debug, PartialEq, Eq)]
pub enum Reading {
    /// The list of the namespaces in which the key has a right.
    Namespaces,
    /// The list of the rows of this kind.
    Rows(EntityKind),
    /// A row of this kind.
    Row(EntityKind),
    /// The list of the activations that have ended.
    Activations,
    /// This part of an activation that has ended.
    Activation(Part),
}

/// A read, a change of the rows, an invocation, or a fire.
#[derive(Clone, Copy, Debug, PartialEq, Eq)]
pub enum Act {
    /// Something is shown.
    Reads(Reading),
    /// A draft is put.
    Puts,
    /// A row of this kind is taken out.
    Removes(EntityKind),
    /// An action is invoked.
    Invokes,
    /// A trigger is fired.
    Fires,
    /// A rule is set active or inactive.
    Sets,
}

impl Act {
    /// The right that is wanted in the namespace of the path.
    pub(crate) fn right(self) -> Right
        ensures { result ≡ right_for self }
    {
        match self {
            Act::Reads(_) => Right::Read,
            Act::Puts | Act::Removes(_) | Act::Sets => Right::Write,
            Act::Invokes | Act::Fires => Right::Invoke,
        }
    }

    /// The kind of the entity that is shown alone or invoked: a shared package grants that.
    pub(crate) fn opened_kind(self) -> Option<EntityKind>
        ensures { result ≡ opened_kind self }
    {
        match self {
            Act::Reads(reading) => reading.kind(),
            Act::Invokes => Some(EntityKind::Action),
            _ => None,
        }
    }
}

impl Reading {
    fn kind(self) -> Option<EntityKind>
        ensures { result ≡ read_kind self }
    {
        match self {
            Reading::Row(kind) => Some(kind),
            _ => None,
        }
    }
}

/// What a request of this route and method is to do, where that is served yet.
pub fn act_of(route: &Route, method: Verb) -> Option<Act>
    ensures { result ≡ act_of route.now method }
{
    act_in(CallKind::of(route, method))
}

fn act_in(kind: CallKind) -> Option<Act>
    ensures { result ≡ act_in kind }
{
    match reading_in(kind) {
        Some(reading) => Some(Act::Reads(reading)),
        None => change_in(kind),
    }
}

fn reading_in(kind: CallKind) -> Option<Reading>
    ensures { result ≡ reading_in kind }
{
    match kind {
        CallKind::ListEntities(kind) => Some(Reading::Rows(kind)),
        CallKind::GetEntity(kind) => Some(Reading::Row(kind)),
        CallKind::ListNamespaces => Some(Reading::Namespaces),
        CallKind::ListActivations => Some(Reading::Activations),
        CallKind::GetActivation(part) => Some(Reading::Activation(part)),
        _ => None,
    }
}

fn change_in(kind: CallKind) -> Option<Act>
    ensures { result ≡ change_in kind }
{
    match kind {
        CallKind::PutEntity(_) => Some(Act::Puts),
        CallKind::DeleteEntity(kind) => Some(Act::Removes(kind)),
        CallKind::Invoke => Some(Act::Invokes),
        CallKind::Fire => Some(Act::Fires),
        CallKind::SetRule => Some(Act::Sets),
        _ => None,
    }
}
