// The names of the fields of bodies.
ghost use Rattle.std.specs.Prelude.{◌≡◌};
ghost use Rattle.ow_entity.specs.FieldName.{field_name};

/// The part of a body that a refusal names: a field at any depth, or the body itself.
#[derive(Clone, Copy, PartialEq, Eq, Debug, Drop)]
pub enum FieldName {
    /// The body itself, which is to be an object.
    Body,
    /// A list of pairs.
    Annotations,
    /// A list of pairs.
    Parameters,
    /// Whether the entity is published.
    Publish,
    /// What an action runs: an object of the next three.
    Exec,
    /// Of which kind the code is.
    Kind,
    /// The code, or the name of a program.
    Code,
    /// The names of the actions of a sequence.
    Components,
    /// What a run may take: an object of the next three.
    Limits,
    /// A number of milliseconds.
    Timeout,
    /// A number of MB.
    Memory,
    /// A number of MB.
    Logs,
    /// What a package binds: an object of the next two.
    Binding,
    /// The namespace of the bound package.
    BoundNamespace,
    /// What the bound package is called there.
    BoundName,
    /// The trigger whose fires a rule follows.
    Trigger,
    /// The action that a rule invokes.
    Action,
    /// Whether a rule is active.
    Status,
}

impl FieldName {
    /// The name of the field, as the body writes it.
    pub fn as_str(self) -> &'static str
        ensures { result.now ≡ field_name self }
    {
        match self {
            FieldName::Body => "body",
            FieldName::Annotations => "annotations",
            FieldName::Parameters => "parameters",
            FieldName::Publish => "publish",
            FieldName::Exec => "exec",
            FieldName::Kind => "kind",
            FieldName::Code => "code",
            FieldName::Components => "components",
            FieldName::Limits => "limits",
            FieldName::Timeout => "timeout",
            FieldName::Memory => "memory",
            FieldName::Logs => "logs",
            FieldName::Binding => "binding",
            FieldName::BoundNamespace => "namespace",
            FieldName::BoundName => "name",
            FieldName::Trigger => "trigger",
            FieldName::Action => "action",
            FieldName::Status => "status",
        }
    }
}
