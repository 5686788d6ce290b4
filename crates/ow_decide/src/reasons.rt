// What the hall refuses, and what it makes of the refusals of the crates below.
ghost use Rattle.std.specs.Prelude.{◌≡◌};
ghost use Rattle.ow_decide.specs.Reasons.{limit_reason, table_reason, tells_full, window_reason};

use ow_counts::LimitRefusal;
use ow_http::{CallRefusal, Reason, ServiceRefusal};
use ow_tables::TableRefusal;
use ow_tenant::WindowRefusal;

/// A refusal of the tables.
pub fn table_reason(refusal: TableRefusal) -> Reason
    ensures { result ≡ table_reason refusal }
{
    match refusal {
        TableRefusal::NotFound => Reason::Service(ServiceRefusal::NotFound),
        TableRefusal::BindsABinding => Reason::Service(ServiceRefusal::BindsABinding),
        TableRefusal::Exists => Reason::Service(ServiceRefusal::Exists),
        TableRefusal::SequenceTooLong => Reason::Service(ServiceRefusal::SequenceTooLong),
        TableRefusal::SequenceLoops => Reason::Service(ServiceRefusal::SequenceLoops),
        TableRefusal::NotEmpty => Reason::Service(ServiceRefusal::NotEmpty),
        TableRefusal::Entity(refusal) => Reason::Call(CallRefusal::BadEntity(refusal)),
        TableRefusal::NoMemory => Reason::Call(CallRefusal::NoMemory),
    }
}

/// A limit that one more invocation would pass.
pub(crate) fn limit_reason(refusal: LimitRefusal) -> Reason
    ensures { result ≡ limit_reason refusal }
{
    match refusal {
        LimitRefusal::OfficeBusy => Reason::Service(ServiceRefusal::OfficeBusy),
        LimitRefusal::OfNamespace(refusal) => window_reason(refusal),
    }
}

fn window_reason(refusal: WindowRefusal) -> Reason
    ensures { result ≡ window_reason refusal }
{
    match refusal {
        WindowRefusal::MinuteLimit { count, allowed } => {
            Reason::Service(ServiceRefusal::MinuteLimit { count, allowed })
        }
        WindowRefusal::ConcurrentLimit { count, allowed } => {
            Reason::Service(ServiceRefusal::ConcurrentLimit { count, allowed })
        }
        WindowRefusal::FireLimit { count, allowed } => {
            Reason::Service(ServiceRefusal::FireLimit { count, allowed })
        }
    }
}

/// Whether the reason is that the book is full.
pub fn tells_full(reason: &Reason) -> bool
    ensures { result ≡ tells_full reason.now }
{
    matches!(reason, Reason::Service(ServiceRefusal::BookFull))
}
