// Paths with their parts.
ghost use Rattle.std.specs.Prelude.{◌≡◌, ◌↔◌, IsTrue, IfOk};
ghost use Rattle.ow_http.specs.declared.route.Route.TheVariants as route;

use ow_entity::EntityKind;
use ow_value::{Bytes, NoMemory, PlainData, Str, copied2, copied3, copied4};
use std::alloc::Global;

/// Which part of an activation is requested.
#[derive(Clone, Copy, PartialEq, Eq, Debug, Drop)]
pub enum Part {
    /// The record.
    Whole,
    /// The response of the record.
    Response,
    /// The lines of the log.
    Logs,
}

/// What a path names, with its parts percent-decoded (RFC 3986, section 2.1). They needn't be names.
#[derive(Drop)]
pub enum Route {
    /// The list of namespaces.
    Namespaces,
    /// The entities of one kind in a namespace.
    List {
        /// `_` where it is the caller's own.
        namespace: Bytes,
        /// The kind of all that are listed.
        kind: EntityKind,
    },
    /// One entity.
    Entity {
        /// `_` where it is the caller's own.
        namespace: Bytes,
        /// The kind by which the path names it.
        kind: EntityKind,
        /// The package that contains it. Only an action has one.
        package: Option<Bytes>,
        /// Its own name, without namespace and package.
        name: Bytes,
    },
    /// The activations of a namespace.
    Activations {
        /// `_` where it is the caller's own.
        namespace: Bytes,
    },
    /// One activation, or a part of it.
    Activation {
        /// `_` where it is the caller's own.
        namespace: Bytes,
        /// As the path gives it, of any length.
        id: Bytes,
        /// What of it is requested.
        part: Part,
    },
    /// A web action.
    Web {
        /// That of the action.
        namespace: Bytes,
        /// `default` where the action is in no package.
        package: Bytes,
        /// The action's name with its extension.
        name: Bytes,
        /// What follows the slash after the name, with U+FFFD for what isn't UTF-8. It is empty where the path ends with the name.
        rest: Str,
    },
}

impl PlainData for Route {
    fn same(&self, other: &Route) -> bool {
        match self {
            Route::Namespaces => other.names_namespaces(),
            Route::List { namespace, kind } => other.names_list(namespace, *kind),
            Route::Entity {
                namespace,
                kind,
                package,
                name,
            } => other.names_entity(namespace, *kind, package, name),
            Route::Activations { namespace } => other.names_activations(namespace),
            Route::Activation {
                namespace,
                id,
                part,
            } => other.names_activation(namespace, id, *part),
            Route::Web {
                namespace,
                package,
                name,
                rest,
            } => other.names_web_action(namespace, package, name, rest),
        }
    }

    fn copy(&self, alloc: Global) -> Result<Route, NoMemory> {
        match self {
            Route::Namespaces => Ok(Route::Namespaces),
            Route::List { namespace, kind } => list_copy(alloc, namespace, *kind),
            Route::Entity {
                namespace,
                kind,
                package,
                name,
            } => entity_copy(alloc, namespace, *kind, package, name),
            Route::Activations { namespace } => activations_copy(alloc, namespace),
            Route::Activation {
                namespace,
                id,
                part,
            } => activation_copy(alloc, namespace, id, *part),
            Route::Web {
                namespace,
                package,
                name,
                rest,
            } => web_copy(alloc, namespace, package, name, rest),
        }
    }
}

impl Route {
    fn names_namespaces(&self) -> bool
        ensures { IsTrue result ↔ (self.now ≡ route.Namespaces) }
    {
        matches!(self, Route::Namespaces)
    }

    fn names_list(&self, home: &Bytes, listed: EntityKind) -> bool
        ensures { IsTrue result ↔ (self.now ≡ route.List home.now listed) }
    {
        match self {
            Route::List { namespace, kind } => namespace.same(home) && *kind == listed,
            _ => false,
        }
    }

    fn names_entity(
        &self,
        home: &Bytes,
        named: EntityKind,
        parent: &Option<Bytes>,
        own: &Bytes,
    ) -> bool
        ensures { IsTrue result ↔ (self.now ≡ route.Entity home.now named parent.now own.now) }
    {
        match self {
            Route::Entity {
                namespace,
                kind,
                package,
                name,
            } => {
                namespace.same(home) && *kind == named && package.same(parent) && name.same(own)
            }
            _ => false,
        }
    }

    fn names_activations(&self, home: &Bytes) -> bool
        ensures { IsTrue result ↔ (self.now ≡ route.Activations home.now) }
    {
        match self {
            Route::Activations { namespace } => namespace.same(home),
            _ => false,
        }
    }

    fn names_activation(&self, home: &Bytes, own: &Bytes, asked: Part) -> bool
        ensures { IsTrue result ↔ (self.now ≡ route.Activation home.now own.now asked) }
    {
        match self {
            Route::Activation {
                namespace,
                id,
                part,
            } => namespace.same(home) && id.same(own) && *part == asked,
            _ => false,
        }
    }

    fn names_web_action(&self, home: &Bytes, parent: &Bytes, own: &Bytes, more: &Str) -> bool
        ensures { IsTrue result ↔ (self.now ≡ route.Web home.now parent.now own.now more.now) }
    {
        match self {
            Route::Web {
                namespace,
                package,
                name,
                rest,
            } => namespace.same(home) && package.same(parent) && name.same(own) && rest.same(more),
            _ => false,
        }
    }
}

fn list_copy(alloc: Global, namespace: &Bytes, kind: EntityKind) -> Result<Route, NoMemory>
    ensures { IfOk result (λ r. r ≡ route.List namespace.now kind) }
{
    Ok(Route::List {
        namespace: namespace.copy(alloc)?,
        kind,
    })
}

fn entity_copy(
    alloc: Global,
    namespace: &Bytes,
    kind: EntityKind,
    inside: &Option<Bytes>,
    name: &Bytes,
) -> Result<Route, NoMemory>
    ensures { IfOk result (λ r. r ≡ route.Entity namespace.now kind inside.now name.now) }
{
    let (namespace, package, name) = copied3(alloc, namespace, inside, name)?;
    Ok(Route::Entity {
        namespace,
        kind,
        package,
        name,
    })
}

fn activations_copy(alloc: Global, namespace: &Bytes) -> Result<Route, NoMemory>
    ensures { IfOk result (λ r. r ≡ route.Activations namespace.now) }
{
    Ok(Route::Activations {
        namespace: namespace.copy(alloc)?,
    })
}

fn activation_copy(
    alloc: Global,
    namespace: &Bytes,
    id: &Bytes,
    part: Part,
) -> Result<Route, NoMemory>
    ensures { IfOk result (λ r. r ≡ route.Activation namespace.now id.now part) }
{
    let (namespace, id) = copied2(alloc, namespace, id)?;
    Ok(Route::Activation {
        namespace,
        id,
        part,
    })
}

fn web_copy(
    alloc: Global,
    namespace: &Bytes,
    inside: &Bytes,
    name: &Bytes,
    rest: &Str,
) -> Result<Route, NoMemory>
    ensures { IfOk result (λ r. r ≡ route.Web namespace.now inside.now name.now rest.now) }
{
    let (namespace, package, name, rest) = copied4(alloc, namespace, inside, name, rest)?;
    Ok(Route::Web {
        namespace,
        package,
        name,
        rest,
    })
}
