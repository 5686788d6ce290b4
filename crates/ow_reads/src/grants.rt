// Whether what a request asks for is granted.
ghost use Rattle.std.specs.Prelude.{◌≡◌, IfOk, option_copied};
ghost use Rattle.std.specs.Result.{result_ok};
ghost use Rattle.ow_http.specs.Request.{parts_of};
ghost use Rattle.ow_names.specs.Path.{named_in};
ghost use Rattle.ow_reads.specs.Acts.{grant_for, granted_call};
ghost use Rattle.ow_reads.specs.Reading.{entity_package, is_opened, namespace_of, path_package};

use crate::acts::{Act, Reading};
use crate::askers::may;
use ow_entity::EntityKind;
use ow_http::{Call, CallRefusal, Reason, Request, Route, ServiceRefusal, read_call};
use ow_names::{EntityName, FullName, NameRefusal, named_in};
use ow_packages::is_shared;
use ow_tables::Tables;
use ow_tenant::Holder;
use ow_value::{Bytes, NoMemory};
use std::alloc::Global;

/// The call that a request makes, where the caller may make it.
pub fn granted_call(
    alloc: Global,
    holder: &Holder,
    tables: &Tables,
    act: Act,
    request: &Request,
) -> Result<Result<Call, Reason>, NoMemory>
    ensures { IfOk result (λ r. r ≡ granted_call holder.now tables.now.rows act (parts_of request.now)) }
{
    if let Err(reason) = grant_for(alloc, holder, tables, act, request)? {
        return Ok(Err(reason));
    }
    match read_call(alloc, request, &holder.home) {
        Ok(call) => Ok(Ok(call)),
        Err(CallRefusal::NoMemory) => Err(NoMemory),
        Err(refusal) => Ok(Err(Reason::Call(refusal))),
    }
}

// Grants where the caller has the right that is wanted in the namespace of the path, or where a shared package grants what is wanted.
fn grant_for(
    alloc: Global,
    holder: &Holder,
    tables: &Tables,
    act: Act,
    request: &Request,
) -> Result<Result<(), Reason>, NoMemory>
    ensures { IfOk result (λ r. r ≡ grant_for holder.now tables.now.rows act (parts_of request.now)) }
{
    if let Act::Reads(Reading::Namespaces) = act {
        return Ok(Ok(()));
    }
    if may(holder, act.right(), namespace_of(&request.route)) {
        return Ok(Ok(()));
    }
    if is_opened(
        alloc,
        tables,
        &holder.home,
        &request.route,
        act.opened_kind(),
    )? {
        return Ok(Ok(()));
    }
    Ok(Err(Reason::Service(ServiceRefusal::NotGranted)))
}

/// The namespace of a path.
pub(crate) fn namespace_of(route: &Route) -> &[u8]
    ensures { result.now ≡ namespace_of route.now }
{
    match route {
        Route::List { namespace, .. }
        | Route::Entity { namespace, .. }
        | Route::Activations { namespace }
        | Route::Activation { namespace, .. } => namespace.as_slice(),
        _ => b"".as_slice(),
    }
}

// Whether there is a package of the path, and it is shared.
fn is_opened(
    alloc: Global,
    tables: &Tables,
    home: &EntityName,
    route: &Route,
    kind: Option<EntityKind>,
) -> Result<bool, NoMemory>
    ensures { IfOk result (λ b. b ≡ is_opened home.now tables.now.rows route.now kind) }
{
    let Some(kind) = kind else {
        return Ok(false);
    };
    match path_package(alloc, home, route, kind)? {
        Some(name) => Ok(is_shared(tables, &name)),
        None => Ok(false),
    }
}

fn path_package(
    alloc: Global,
    home: &EntityName,
    route: &Route,
    kind: EntityKind,
) -> Result<Option<FullName>, NoMemory>
    ensures { IfOk result (λ n. n ≡ path_package home.now route.now kind) }
{
    match route {
        Route::Entity {
            namespace,
            kind: named,
            package,
            name,
        } => match (named, package) {
            (EntityKind::Action, Some(inside)) => entity_package(
                alloc,
                home,
                namespace,
                Some(inside.as_slice()),
                name,
                kind,
            ),
            _ => entity_package(alloc, home, namespace, None, name, kind),
        },
        _ => Ok(None),
    }
}

fn entity_package(
    alloc: Global,
    home: &EntityName,
    namespace: &Bytes,
    inside: Option<&[u8]>,
    name: &Bytes,
    kind: EntityKind,
) -> Result<Option<FullName>, NoMemory>
    ensures { IfOk result (λ n. n ≡ entity_package home.now namespace.now (option_copied inside.entry) name.now kind) }
{
    match (kind, inside) {
        (EntityKind::Action, Some(inside)) => full_name(alloc, home, namespace, None, inside),
        (EntityKind::Package, _) => full_name(alloc, home, namespace, inside, name.as_slice()),
        _ => Ok(None),
    }
}

// The name of these parts, where they are one.
fn full_name(
    alloc: Global,
    home: &EntityName,
    namespace: &Bytes,
    inside: Option<&[u8]>,
    name: &[u8],
) -> Result<Option<FullName>, NoMemory>
    ensures { IfOk result (λ n. n ≡ result_ok (named_in home.now namespace.now (option_copied inside.entry) name.now)) }
{
    match named_in(alloc, home, namespace.as_slice(), inside, name) {
        Ok(name) => Ok(Some(name)),
        Err(NameRefusal::NoMemory) => Err(NoMemory),
        Err(_) => Ok(None),
    }
}
