// Why an invocation is over a limit.
ghost use Rattle.std.specs.Prelude.{◌≡◌};
ghost use Rattle.ow_counts.specs.Refusal.{limit_number};

use ow_tenant::WindowRefusal;

/// Why an invocation is over a limit.
#[derive(Clone, Copy, Debug, PartialEq, Eq, Drop)]
pub enum LimitRefusal {
    /// 1,000 invocations of all namespaces have not ended.
    OfficeBusy,
    /// The namespace has reached one of its own limits.
    OfNamespace(WindowRefusal),
}

impl LimitRefusal {
    /// The number by which a client distinguishes the refusals.
    pub fn number(self) -> u32
        ensures { result ≡ limit_number self }
    {
        match self {
            LimitRefusal::OfficeBusy => 46,
            LimitRefusal::OfNamespace(refusal) => refusal.number(),
        }
    }
}
