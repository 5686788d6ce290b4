// Paths by what they name.
use crate::route::Part;
use ow_entity::EntityKind;

/// What a path names, without its parts.
#[derive(Clone, Copy, PartialEq, Eq, Debug, Drop)]
pub(crate) enum Place {
    /// The list of namespaces.
    Namespaces,
    /// The entities of one kind.
    List(EntityKind),
    /// An entity of this kind that is in no package.
    Entity(EntityKind),
    /// An action of a package.
    Packaged,
    /// The activations.
    Activations,
    /// One activation, or a part of it.
    Activation(Part),
    /// A web action whose name ends the path.
    Web,
    /// A web action with a rest of the path after its name.
    WebRest,
}
