// Why the service refuses what a request or a call asks for.
ghost use Rattle.std.specs.Prelude.{◌≡◌};

/// Why the service refuses what a request or a call asks for: by its rows, by rights, by limits, or by its own state.
#[derive(Clone, Copy, PartialEq, Eq, Debug, Drop)]
pub enum ServiceRefusal {
    /// There is no such entity.
    NotFound,
    /// The package to be bound binds another itself.
    BindsABinding,
    /// The entity exists, and isn't to be replaced.
    Exists,
    /// The sequence has more than 50 actions.
    SequenceTooLong,
    /// The sequence contains itself.
    SequenceLoops,
    /// The package holds actions.
    NotEmpty,
    /// No user has the key.
    UnknownKey,
    /// The right isn't granted in the namespace.
    NotGranted,
    /// `count` invocations were let through in the last minute, and at most `allowed` may be.
    MinuteLimit { count: u64, allowed: u64 },
    /// `count` activations haven't ended, and at most `allowed` may be open.
    ConcurrentLimit { count: u64, allowed: u64 },
    /// A trigger was fired so often in the last minute, and so often is allowed.
    FireLimit { count: u64, allowed: u64 },
    /// The store failed.
    StoreFault,
    /// No calls are taken any more.
    Draining,
    /// The book has no room for another entry.
    BookFull,
    /// The store has no room for another row.
    KeptFull,
    /// The action is no web action.
    NotExported,
    /// A web action has no such extension.
    BadExtension,
    /// The web action wants a key.
    NeedsAuth,
    /// The body of a web request is to be a text, and isn't UTF-8.
    NotText,
    /// Too many activations wait.
    OfficeBusy,
}

impl ServiceRefusal {
    ghost use Rattle.ow_http.specs.Number.{service_number};

    /// The number by which a client distinguishes the refusals.
    pub fn number(self) -> u32
        ensures { result ≡ service_number self }
    {
        match self {
            ServiceRefusal::NotFound => 14,
            ServiceRefusal::BindsABinding => 15,
            ServiceRefusal::Exists => 17,
            ServiceRefusal::SequenceTooLong => 19,
            ServiceRefusal::SequenceLoops => 20,
            ServiceRefusal::NotEmpty => 21,
            ServiceRefusal::UnknownKey => 23,
            ServiceRefusal::NotGranted => 24,
            ServiceRefusal::MinuteLimit { .. } => 25,
            ServiceRefusal::ConcurrentLimit { .. } => 26,
            ServiceRefusal::FireLimit { .. } => 27,
            ServiceRefusal::StoreFault => 31,
            ServiceRefusal::Draining => 32,
            ServiceRefusal::BookFull => 33,
            ServiceRefusal::KeptFull => 34,
            ServiceRefusal::NotExported => 41,
            ServiceRefusal::BadExtension => 42,
            ServiceRefusal::NeedsAuth => 44,
            ServiceRefusal::NotText => 10,
            ServiceRefusal::OfficeBusy => 46,
        }
    }
}
