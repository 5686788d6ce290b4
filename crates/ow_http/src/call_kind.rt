// What a route and a method call for.
ghost use Rattle.std.specs.Prelude.{◌≡◌};
ghost use Rattle.ow_http.specs.CallKind.{entity_kind, kind_of, read_alone};

use crate::route::{Part, Route};
use crate::verb::Verb;
use ow_entity::EntityKind;

/// What a route and a method call for.
#[derive(Clone, Copy, PartialEq, Eq, Debug, Drop)]
pub enum CallKind {
    /// The list of namespaces.
    ListNamespaces,
    /// The list of the entities of this kind.
    ListEntities(EntityKind),
    /// An entity of this kind.
    GetEntity(EntityKind),
    /// To make an entity of this kind, or to replace it.
    PutEntity(EntityKind),
    /// To remove an entity of this kind.
    DeleteEntity(EntityKind),
    /// To invoke an action.
    Invoke,
    /// To fire a trigger.
    Fire,
    /// To set whether a rule is active.
    SetRule,
    /// The list of the activations.
    ListActivations,
    /// An activation, or this part of it.
    GetActivation(Part),
    /// A web action, whatever the method is.
    Web,
    /// Nothing: the route doesn't take the method.
    NotTaken,
}

impl CallKind {
    ghost use Rattle.ow_http.specs.CallKind.{is_taken};

    /// What the route and the method call for.
    pub fn of(route: &Route, method: Verb) -> CallKind
        ensures { result ≡ kind_of route.now method }
    {
        match route {
            Route::Namespaces => read_alone(method, CallKind::ListNamespaces),
            Route::List { kind, .. } => read_alone(method, CallKind::ListEntities(*kind)),
            Route::Entity { kind, .. } => entity_kind(*kind, method),
            Route::Activations { .. } => read_alone(method, CallKind::ListActivations),
            Route::Activation { part, .. } => read_alone(method, CallKind::GetActivation(*part)),
            Route::Web { .. } => CallKind::Web,
        }
    }

    /// Whether the route takes the method.
    pub fn is_taken(self) -> bool
        ensures { result ≡ is_taken self }
    {
        match self {
            CallKind::NotTaken => false,
            _ => true,
        }
    }
}

// What takes GET alone.
fn read_alone(method: Verb, kind: CallKind) -> CallKind
    ensures { result ≡ read_alone method kind }
{
    match method {
        Verb::Get => kind,
        _ => CallKind::NotTaken,
    }
}

fn entity_kind(kind: EntityKind, method: Verb) -> CallKind
    ensures { result ≡ entity_kind kind method }
{
    match (method, kind) {
        (Verb::Get, _) => CallKind::GetEntity(kind),
        (Verb::Put, _) => CallKind::PutEntity(kind),
        (Verb::Delete, _) => CallKind::DeleteEntity(kind),
        (Verb::Post, EntityKind::Action) => CallKind::Invoke,
        (Verb::Post, EntityKind::Trigger) => CallKind::Fire,
        (Verb::Post, EntityKind::Rule) => CallKind::SetRule,
        _ => CallKind::NotTaken,
    }
}
