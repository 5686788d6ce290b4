// What clients receive for refusals: a status and a text.
ghost use Rattle.std.specs.Prelude.{◌≡◌, ◌++◌, IfOk, codes, decimal};
ghost use Rattle.ow_http.specs.Reason.{call_notice, entity_notice, field_row, http_notice, limit_row, name_notice, notice_of, row, service_notice, value_notice};

use crate::call_refusal::CallRefusal;
use crate::http_refusal::HttpRefusal;
use crate::reason::Reason;
use crate::service_refusal::ServiceRefusal;
use ow_entity::{EntityRefusal, FieldName};
use ow_names::NameRefusal;
use ow_value::{NoMemory, Str, ValueRefusal};
use std::alloc::Global;

/// What a client receives for a refusal.
#[derive(Drop)]
pub(crate) struct Notice {
    /// Of three digits (RFC 9110, section 15).
    pub(crate) status: u16,
    /// For people.
    pub(crate) text: Str,
}

/// What a client receives for a reason.
#[tactic(auto, unfolding(crate::specs::Reason::notice_of))]
pub(crate) fn notice_of(alloc: Global, reason: &Reason) -> Result<Notice, NoMemory>
    ensures { IfOk result (λ n. n ≡ notice_of reason.now) }
{
    match reason {
        Reason::Http(refusal) => http_notice(alloc, *refusal),
        Reason::Call(refusal) => call_notice(alloc, refusal),
        Reason::Service(refusal) => service_notice(alloc, *refusal),
        Reason::Fixed { name } => with_name(alloc, "The parameter ", name.as_str(), " is fixed."),
        Reason::Reserved { name } => {
            with_name(alloc, "The parameter ", name.as_str(), " is reserved.")
        }
    }
}

#[tactic(auto, unfolding(crate::specs::Reason::http_notice))]
fn http_notice(alloc: Global, refusal: HttpRefusal) -> Result<Notice, NoMemory>
    ensures { IfOk result (λ n. n ≡ http_notice refusal) }
{
    match refusal {
        HttpRefusal::NoMemory => no_memory(alloc),
        HttpRefusal::BadHead => fixed(alloc, 400, "The request head is malformed."),
        HttpRefusal::NoRoute => fixed(alloc, 404, "There is no such route."),
        HttpRefusal::BadMethod => fixed(alloc, 405, "The method is not allowed."),
        HttpRefusal::BodyTooLarge => fixed(alloc, 413, "The body has too many bytes."),
        HttpRefusal::CutShort => fixed(alloc, 400, "The request is cut short."),
    }
}

#[tactic(auto, unfolding(crate::specs::Reason::call_notice))]
fn call_notice(alloc: Global, refusal: &CallRefusal) -> Result<Notice, NoMemory>
    ensures { IfOk result (λ n. n ≡ call_notice refusal.now) }
{
    match refusal {
        CallRefusal::NoMemory => no_memory(alloc),
        CallRefusal::BadQuery { name } => {
            with_name(alloc, "The query value ", name.as_str(), " is wrong.")
        }
        CallRefusal::BadName(refusal) => name_notice(alloc, *refusal),
        CallRefusal::BadValue(refusal) => value_notice(alloc, *refusal),
        CallRefusal::BadEntity(refusal) => entity_notice(alloc, *refusal),
    }
}

#[tactic(auto, unfolding(crate::specs::Reason::name_notice))]
fn name_notice(alloc: Global, refusal: NameRefusal) -> Result<Notice, NoMemory>
    ensures { IfOk result (λ n. n ≡ name_notice refusal) }
{
    match refusal {
        NameRefusal::NoMemory => no_memory(alloc),
        NameRefusal::Empty => fixed(alloc, 400, "A name is empty."),
        NameRefusal::TooLong => fixed(alloc, 400, "A name has more than 256 bytes."),
        NameRefusal::BadChar { place } => with_place(alloc, place),
        NameRefusal::EndsInSpace => fixed(alloc, 400, "A name ends in a space."),
        NameRefusal::BadPath => fixed(alloc, 400, "The path names no entity."),
    }
}

#[tactic(auto, unfolding(crate::specs::Reason::value_notice))]
fn value_notice(alloc: Global, refusal: ValueRefusal) -> Result<Notice, NoMemory>
    ensures { IfOk result (λ n. n ≡ value_notice refusal) }
{
    match refusal {
        ValueRefusal::NoMemory => no_memory(alloc),
        ValueRefusal::NotJson => fixed(alloc, 400, "The text is no JSON."),
        ValueRefusal::NotWhole => fixed(alloc, 400, "A number is not a whole number of 64 bits."),
        ValueRefusal::TooDeep => fixed(alloc, 400, "The value is nested deeper than 100."),
    }
}

#[tactic(auto, unfolding(crate::specs::Reason::entity_notice))]
fn entity_notice(alloc: Global, refusal: EntityRefusal) -> Result<Notice, NoMemory>
    ensures { IfOk result (λ n. n ≡ entity_notice refusal) }
{
    match refusal {
        EntityRefusal::NoMemory => no_memory(alloc),
        EntityRefusal::MissingField { name } => with_field(alloc, name, " is missing."),
        EntityRefusal::WrongType { name } => with_field(alloc, name, " has a wrong type."),
        EntityRefusal::OutOfRange { name } => with_field(alloc, name, " is out of range."),
        EntityRefusal::UnknownKind => fixed(alloc, 400, "The kind is unknown."),
        EntityRefusal::TooLarge => fixed(alloc, 413, "The value has too many bytes."),
        EntityRefusal::BadName(refusal) => name_notice(alloc, refusal),
        EntityRefusal::LastVersion => fixed(alloc, 400, "The version cannot be raised."),
    }
}

#[tactic(auto, unfolding(crate::specs::Reason::service_notice))]
fn service_notice(alloc: Global, refusal: ServiceRefusal) -> Result<Notice, NoMemory>
    ensures { IfOk result (λ n. n ≡ service_notice refusal) }
{
    match refusal {
        ServiceRefusal::NotFound => fixed(alloc, 404, "The resource does not exist."),
        ServiceRefusal::BindsABinding => fixed(alloc, 400, "The package is a binding."),
        ServiceRefusal::Exists => fixed(alloc, 409, "The resource exists."),
        ServiceRefusal::SequenceTooLong => {
            fixed(alloc, 400, "The sequence has more than 50 actions.")
        }
        ServiceRefusal::SequenceLoops => fixed(alloc, 400, "The sequence contains itself."),
        ServiceRefusal::NotEmpty => fixed(alloc, 409, "The package holds actions."),
        ServiceRefusal::UnknownKey => fixed(alloc, 401, "The key is unknown."),
        ServiceRefusal::NotGranted => fixed(alloc, 403, "The namespace is not granted."),
        ServiceRefusal::MinuteLimit { count, allowed } => {
            limited(
                alloc,
                "Too many invocations in the last minute: ",
                count,
                allowed,
            )
        }
        ServiceRefusal::ConcurrentLimit { count, allowed } => {
            limited(alloc, "Too many concurrent activations: ", count, allowed)
        }
        ServiceRefusal::FireLimit { count, allowed } => {
            limited(alloc, "Too many fires in the last minute: ", count, allowed)
        }
        ServiceRefusal::StoreFault => fixed(alloc, 503, "The store failed."),
        ServiceRefusal::Draining => fixed(alloc, 503, "The office is draining."),
        ServiceRefusal::BookFull => fixed(alloc, 503, "The book is full."),
        ServiceRefusal::KeptFull => fixed(alloc, 503, "The store is full."),
        ServiceRefusal::NotExported => fixed(alloc, 404, "The resource does not exist."),
        ServiceRefusal::BadExtension => fixed(alloc, 400, "The extension is unknown."),
        ServiceRefusal::NeedsAuth => fixed(alloc, 401, "Authentication is needed."),
        ServiceRefusal::NotText => fixed(alloc, 400, "The field __ow_body has a wrong type."),
        ServiceRefusal::OfficeBusy => fixed(alloc, 503, "The office is busy."),
    }
}

fn no_memory(alloc: Global) -> Result<Notice, NoMemory>
    ensures { IfOk result (λ n. n ≡ row 500 (codes "No memory.")) }
{
    fixed(alloc, 500, "No memory.")
}

fn fixed(alloc: Global, status: u16, text: &str) -> Result<Notice, NoMemory>
    ensures { IfOk result (λ n. n ≡ row status text.now) }
{
    let text = Str::of(alloc, text)?;
    Ok(Notice { status, text })
}

fn with_name(alloc: Global, before: &str, name: &str, after: &str) -> Result<Notice, NoMemory>
    ensures { IfOk result (λ n. n ≡ row 400 (before.now ++ name.now ++ after.now)) }
{
    let text = format!(in alloc; "{before}{name}{after}")?;
    Ok(Notice {
        status: 400,
        text: Str::from_string(text)?,
    })
}

fn with_field(alloc: Global, name: FieldName, after: &str) -> Result<Notice, NoMemory>
    ensures { IfOk result (λ n. n ≡ field_row name after.now) }
{
    let name = name.as_str();
    let text = format!(in alloc; "The field {name}{after}")?;
    Ok(Notice {
        status: 400,
        text: Str::from_string(text)?,
    })
}

fn with_place(alloc: Global, place: usize) -> Result<Notice, NoMemory>
    ensures { IfOk result (λ n. n ≡ row 400 (codes "A name has a wrong byte at " ++ decimal place ++ codes ".")) }
{
    let text = format!(in alloc; "A name has a wrong byte at {place}.")?;
    Ok(Notice {
        status: 400,
        text: Str::from_string(text)?,
    })
}

fn limited(alloc: Global, before: &str, count: u64, allowed: u64) -> Result<Notice, NoMemory>
    ensures { IfOk result (λ n. n ≡ limit_row before.now count allowed) }
{
    let text = format!(in alloc; "{before}{count} of {allowed}.")?;
    Ok(Notice {
        status: 429,
        text: Str::from_string(text)?,
    })
}
