// Requests as calls.
ghost use Rattle.std.specs.Prelude.{◌≡◌, ◌≢◌, Ok, Err, MatchResult, option_copied};
ghost use Rattle.ow_value.specs.View.{view};
ghost use Rattle.ow_http.specs.CallOf.{active_of, bare_call, body_draft, body_params, body_status, body_value, call_of, checked_query, draft_of, filled_call, members_in, name_of, package_for, params_of};
ghost use Rattle.ow_http.specs.Request.{parts_of};

use crate::call::Call;
use crate::call_kind::CallKind;
use crate::call_refusal::CallRefusal;
use crate::request::Request;
use crate::route::Route;
use crate::values::{first_wrong, flag_of, limit_of, skip_of};
use ow_entity::{Draft, EntityKind, EntityRefusal, FieldName, read_entity, read_status};
use ow_names::{EntityName, FullName, NameRefusal, check_name, named_in};
use ow_value::{Bytes, Params, PlainData, Str, Val, ValueRefusal, kept_beside, read_val};
use std::alloc::Global;

/// What a request wants, with the namespace `_` read as this one. Only the values that count for it are looked at.
pub fn read_call(alloc: Global, request: &Request, home: &EntityName) -> Result<Call, CallRefusal>
    ensures { MatchResult result (λ c. call_of home.now (parts_of request.now) ≡ Ok c)
        (λ e. e ≢ CallRefusal.NoMemory → call_of home.now (parts_of request.now) ≡ Err e) }
{
    let query = request.query.as_slice();
    let body = request.body.as_slice();
    let kind = request.kind();
    check_query(alloc, kind, query)?;
    let name = name_of(alloc, &request.route, home)?;
    let draft = draft_of(alloc, kind, &name, body);
    let (name, draft) = kept_beside(name, draft)?;
    let given = kept_beside((name, draft), params_of(alloc, kind, body))?;
    let (((name, draft), params), active) = kept_beside(given, active_of(alloc, kind, body))?;
    Ok(filled_call(kind, name, draft, params, active, query))
}

fn check_query(alloc: Global, kind: CallKind, query: &[(Str, Str)]) -> Result<(), CallRefusal>
    ensures { MatchResult result (λ u. checked_query kind query.now ≡ Ok u)
        (λ e. e ≢ CallRefusal.NoMemory → checked_query kind query.now ≡ Err e) }
{
    match first_wrong(kind, query) {
        Some(pair) => Err(CallRefusal::BadQuery {
            name: pair.0.copy(alloc)?,
        }),
        None => Ok(()),
    }
}

fn filled_call(
    kind: CallKind,
    name: Option<FullName>,
    draft: Option<Draft>,
    params: Params,
    active: Option<bool>,
    query: &[(Str, Str)],
) -> Call
    ensures { result ≡ filled_call kind query.now (bare_call kind name draft params active) }
{
    let mut call = Call {
        kind,
        name,
        overwrite: false,
        blocking: false,
        result_only: false,
        skip: 0,
        limit: 0,
        draft,
        params,
        active,
    };
    match kind {
        CallKind::ListEntities(_) | CallKind::ListActivations => {
            call.skip = skip_of(query);
            call.limit = limit_of(query);
        }
        CallKind::PutEntity(_) => call.overwrite = flag_of(query, "overwrite"),
        CallKind::Invoke => {
            call.blocking = flag_of(query, "blocking");
            call.result_only = flag_of(query, "result");
        }
        _ => (),
    }
    call
}

// The names of the path.
fn name_of(alloc: Global, route: &Route, home: &EntityName) -> Result<Option<FullName>, CallRefusal>
    ensures { MatchResult result (λ n. name_of home.now route.now ≡ Ok n)
        (λ e. e ≢ CallRefusal.NoMemory → name_of home.now route.now ≡ Err e) }
{
    match route {
        Route::Entity {
            namespace,
            kind,
            package,
            name,
        } => match named_in(
            alloc,
            home,
            namespace.as_slice(),
            package_for(*kind, package),
            name.as_slice(),
        ) {
            Ok(name) => Ok(Some(name)),
            Err(NameRefusal::NoMemory) => Err(CallRefusal::NoMemory),
            Err(e) => Err(CallRefusal::BadName(e)),
        },
        Route::List { namespace, .. } | Route::Activations { namespace } => {
            match check_name(namespace.as_slice()) {
                Ok(()) => Ok(None),
                Err(e) => Err(CallRefusal::BadName(e)),
            }
        }
        _ => Ok(None),
    }
}

fn package_for(kind: EntityKind, inside: &Option<Bytes>) -> Option<&[u8]>
    ensures { option_copied result ≡ package_for kind inside.now }
{
    match kind {
        EntityKind::Action => slice_in(inside),
        _ => None,
    }
}

fn slice_in(bytes: &Option<Bytes>) -> Option<&[u8]>
    ensures { option_copied result ≡ bytes.now }
{
    match bytes {
        Some(bytes) => Some(bytes.as_slice()),
        None => None,
    }
}

// The entity that is put.
fn draft_of(
    alloc: Global,
    kind: CallKind,
    name: &Option<FullName>,
    body: &[u8],
) -> Result<Option<Draft>, CallRefusal>
    ensures { MatchResult result (λ d. draft_of kind name.now body.now ≡ Ok d)
        (λ e. e ≢ CallRefusal.NoMemory → draft_of kind name.now body.now ≡ Err e) }
{
    match (kind, name) {
        (CallKind::PutEntity(kind), Some(name)) => body_draft(alloc, kind, name, body),
        _ => Ok(None),
    }
}

fn body_draft(
    alloc: Global,
    kind: EntityKind,
    name: &FullName,
    body: &[u8],
) -> Result<Option<Draft>, CallRefusal>
    ensures { MatchResult result (λ d. body_draft kind name.now body.now ≡ Ok d)
        (λ e. e ≢ CallRefusal.NoMemory → body_draft kind name.now body.now ≡ Err e) }
{
    let value = match body_value(alloc, body) {
        Ok(value) => value,
        Err(ValueRefusal::NoMemory) => return Err(CallRefusal::NoMemory),
        Err(e) => return Err(CallRefusal::BadValue(e)),
    };
    match read_entity(alloc, kind, name, &value) {
        Ok(draft) => Ok(Some(draft)),
        Err(EntityRefusal::NoMemory) => Err(CallRefusal::NoMemory),
        Err(e) => Err(CallRefusal::BadEntity(e)),
    }
}

// The parameters of an invocation or a fire.
fn params_of(alloc: Global, kind: CallKind, body: &[u8]) -> Result<Params, CallRefusal>
    ensures { MatchResult result (λ ps. params_of kind body.now ≡ Ok ps)
        (λ e. e ≢ CallRefusal.NoMemory → params_of kind body.now ≡ Err e) }
{
    match kind {
        CallKind::Invoke | CallKind::Fire => body_params(alloc, body),
        _ => Ok(Params::new()),
    }
}

fn body_params(alloc: Global, body: &[u8]) -> Result<Params, CallRefusal>
    ensures { MatchResult result (λ ps. body_params body.now ≡ Ok ps)
        (λ e. e ≢ CallRefusal.NoMemory → body_params body.now ≡ Err e) }
{
    match body_value(alloc, body) {
        Ok(value) => members_in(value),
        Err(ValueRefusal::NoMemory) => Err(CallRefusal::NoMemory),
        Err(e) => Err(CallRefusal::BadValue(e)),
    }
}

// The status to which a rule is set.
fn active_of(alloc: Global, kind: CallKind, body: &[u8]) -> Result<Option<bool>, CallRefusal>
    ensures { MatchResult result (λ b. active_of kind body.now ≡ Ok b)
        (λ e. e ≢ CallRefusal.NoMemory → active_of kind body.now ≡ Err e) }
{
    match kind {
        CallKind::SetRule => body_status(alloc, body),
        _ => Ok(None),
    }
}

fn body_status(alloc: Global, body: &[u8]) -> Result<Option<bool>, CallRefusal>
    ensures { MatchResult result (λ b. body_status body.now ≡ Ok b)
        (λ e. e ≢ CallRefusal.NoMemory → body_status body.now ≡ Err e) }
{
    let value = match body_value(alloc, body) {
        Ok(value) => value,
        Err(ValueRefusal::NoMemory) => return Err(CallRefusal::NoMemory),
        Err(e) => return Err(CallRefusal::BadValue(e)),
    };
    match read_status(&value) {
        Ok(active) => Ok(Some(active)),
        Err(e) => Err(CallRefusal::BadEntity(e)),
    }
}

// The members of an object.
fn members_in(value: Val) -> Result<Params, CallRefusal>
    ensures { result ≡ members_in (view value) }
{
    match value {
        Val::Object(params) => Ok(params),
        _ => Err(CallRefusal::BadEntity(EntityRefusal::WrongType {
            name: FieldName::Body,
        })),
    }
}

fn body_value(alloc: Global, body: &[u8]) -> Result<Val, ValueRefusal>
    ensures { MatchResult result (λ v. body_value body.now ≡ Ok (view v))
        (λ e. e ≢ ValueRefusal.NoMemory → body_value body.now ≡ Err e) }
{
    if body.is_empty() {
        return Ok(Val::Object(Params::new()));
    }
    read_val(alloc, body)
}
