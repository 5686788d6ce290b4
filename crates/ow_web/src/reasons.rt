// What clients receive for a web request that is refused.
ghost use Rattle.std.specs.Prelude.{◌≡◌, ◌≢◌};
ghost use Rattle.ow_web.specs.Refusal.{web_reason};

use crate::refusal::WebRefusal;
use ow_entity::{EntityRefusal, FieldName};
use ow_http::{CallRefusal, Reason, ServiceRefusal};

/// The reason that clients receive. The answer to a result that is no web response is `web_answer`.
pub fn web_reason(refusal: WebRefusal) -> Reason
    requires { refusal ≢ WebRefusal.BadWebResult }
    ensures { result ≡ web_reason refusal }
{
    match refusal {
        WebRefusal::NotExported => Reason::Service(ServiceRefusal::NotExported),
        WebRefusal::BadExtension => Reason::Service(ServiceRefusal::BadExtension),
        WebRefusal::NeedsAuth => Reason::Service(ServiceRefusal::NeedsAuth),
        WebRefusal::BadValue(refusal) => Reason::Call(CallRefusal::BadValue(refusal)),
        WebRefusal::NoObject => no_object(),
        WebRefusal::NoText => Reason::Service(ServiceRefusal::NotText),
        WebRefusal::Reserved { name } => Reason::Reserved { name },
        WebRefusal::NoMemory => Reason::Call(CallRefusal::NoMemory),
        WebRefusal::BadWebResult => unreachable!(),
    }
}

fn no_object() -> Reason
    ensures { result ≡ Reason.Call (CallRefusal.BadEntity (EntityRefusal.WrongType FieldName.Body)) }
{
    Reason::Call(CallRefusal::BadEntity(EntityRefusal::WrongType {
        name: FieldName::Body,
    }))
}
