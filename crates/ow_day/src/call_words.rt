// What the words of a call result in.
ghost use Rattle.std.specs.Prelude.{◌≡◌, ◌≢◌, Ok, Err, IfOk, MatchResult};
ghost use Rattle.ow_value.specs.Read.{reading};
ghost use Rattle.ow_value.specs.View.{view};
ghost use Rattle.ow_records.specs.FieldsIn.{as_object};
ghost use Rattle.ow_day.specs.CallWords.{called, full_name, or_wrong, params_in, with_name, with_params};

use ow_entity::{EntityRefusal, FieldName};
use ow_http::{CallRefusal, Reason, ServiceRefusal};
use ow_names::{FullName, NameRefusal, read_full_text};
use ow_value::{NoMemory, Params, Scratch, Val, ValueRefusal, read_val_in};
use percent_encoding::percent_decode;
use std::alloc::Global;

/// What the words of a call result in.
#[derive(Drop)]
pub enum CallWords {
    /// They are refused.
    Refused(Reason),
    /// The action of this name, with these parameters.
    Calls { name: FullName, params: Params },
}

/// What the words of a call result in, over a book that is full or not. The book is looked at first, then the name, then
/// the text.
pub fn call_words(
    alloc: Global,
    scratch: &mut Scratch,
    full: bool,
    name: &str,
    text: &str,
) -> Result<CallWords, NoMemory>
    ensures { IfOk result (λ w. w ≡ called full name.now text.now) }
{
    if full {
        return Ok(CallWords::Refused(Reason::Service(ServiceRefusal::BookFull)));
    }
    with_name(alloc, scratch, name.as_bytes(), text.as_bytes())
}

fn with_name(
    alloc: Global,
    scratch: &mut Scratch,
    name: &[u8],
    text: &[u8],
) -> Result<CallWords, NoMemory>
    ensures { IfOk result (λ w. w ≡ with_name text.now (full_name name.now)) }
{
    match full_name(alloc, name) {
        Ok(name) => with_text(alloc, scratch, name, text),
        Err(NameRefusal::NoMemory) => Err(NoMemory),
        Err(refusal) => Ok(refused(CallRefusal::BadName(refusal))),
    }
}

fn with_text(
    alloc: Global,
    scratch: &mut Scratch,
    name: FullName,
    text: &[u8],
) -> Result<CallWords, NoMemory>
    ensures { IfOk result (λ w. w ≡ with_params name (params_in (reading 100 text.now))) }
{
    match read_val_in(alloc, scratch, text) {
        Ok(value) => Ok(with_value(name, value)),
        Err(ValueRefusal::NoMemory) => Err(NoMemory),
        Err(refusal) => Ok(refused(CallRefusal::BadValue(refusal))),
    }
}

fn with_value(name: FullName, value: Val) -> CallWords
    ensures { result ≡ with_params name (or_wrong (as_object (view value))) }
{
    match object_in(value) {
        Some(params) => CallWords::Calls { name, params },
        None => {
            let name = FieldName::Body;
            refused(CallRefusal::BadEntity(EntityRefusal::WrongType { name }))
        }
    }
}

fn refused(refusal: CallRefusal) -> CallWords
    ensures { result ≡ CallWords.Refused (Reason.Call refusal) }
{
    CallWords::Refused(Reason::Call(refusal))
}

// The parameters of an object.
#[tactic(auto, using(crate::proofs::Objects::pairs_of_object))]
fn object_in(value: Val) -> Option<Params>
    ensures { result ≡ as_object (view value) }
{
    match value {
        Val::Object(params) => Some(params),
        _ => None,
    }
}

// The full name whose text is written in percent encoding.
#[tactic(auto, unfolding(crate::specs::CallWords::full_name))]
fn full_name(alloc: Global, name: &[u8]) -> Result<FullName, NameRefusal>
    ensures { MatchResult result (λ n. full_name name.now ≡ Ok n)
        (λ e. e ≢ NameRefusal.NoMemory → full_name name.now ≡ Err e) }
{
    let mut text = Vec::new(alloc);
    if percent_decode(name).append_to(&mut text).is_err() {
        return Err(NameRefusal::NoMemory);
    }
    read_full_text(alloc, &text)
}
