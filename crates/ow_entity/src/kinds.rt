// The kinds of entities.
/// What an entity is. Kinds are ordered as they are listed here.
#[derive(Clone, Copy, PartialEq, Eq, PartialOrd, Ord, Debug, Drop)]
pub enum EntityKind {
    /// What can be called.
    Action,
    /// What actions lie in.
    Package,
    /// The link by which a trigger calls an action.
    Rule,
    /// What is fired with an event.
    Trigger,
}
