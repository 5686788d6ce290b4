// What reads show, from what the caller may see.
ghost use Rattle.std.specs.Prelude.{◌≡◌, [], List, Some, None, Ok, true, if◌then◌else◌, IfOk, OnOk, option_copied};
ghost use Rattle.ow_value.specs.View.{view};
ghost use Rattle.ow_http.specs.Parts.{Parts};
ghost use Rattle.ow_http.specs.Request.{parts_of};
ghost use Rattle.ow_http.specs.declared.call.Call.{Call};
ghost use Rattle.ow_names.specs.Name.{first_fault};
ghost use Rattle.ow_names.specs.Path.{home};
ghost use Rattle.ow_records.specs.Records.{is_in};
ghost use Rattle.ow_records.specs.declared.record.Record.{Record};
ghost use Rattle.ow_entity.specs.declared.kinds.EntityKind.TheVariants as kinds;
ghost use Rattle.ow_entity.specs.declared.rows.Row.{Row};
ghost use Rattle.ow_packages.specs.Access.{lying_in, package_at, package_of, reached_package};
ghost use Rattle.ow_tables.specs.Rows.{found, standing};
ghost use Rattle.ow_reads.specs.Acts.{act_of, granted_call};
ghost use Rattle.ow_reads.specs.Reading.{action_read, id_of, namespace_of, part_value, read_done, read_value, recorded, recorded_under, row_read, shown_of};
ghost use Rattle.ow_reads.specs.Named.{AreNamed, IsNamed, action_bound, action_in, bound_name};
ghost use Rattle.ow_reads.specs.View.{AreOnce, may_read, seen_records, view_over};

use crate::acts::{Act, Reading};
use crate::askers::home_of;
use crate::grants::{granted_call, namespace_of};
use crate::shown::shown_row;
use ow_entity::{EntityKind, Lookup, Package, Row};
use ow_http::{Call, HttpRefusal, Part, Reason, Request, Route, ServiceRefusal};
use ow_names::{EntityName, FullName, NameRefusal, read_name};
use ow_packages::{package_of, reached_package};
use ow_records::{Id, Record, Records, write_logs, write_record, write_response};
use ow_tables::Tables;
use ow_tenant::Holder;
use ow_value::{NoMemory, PlainData, Val, copied3};
use std::alloc::Global;

/// What a read shows, or its first refusal. No two of the records may have one id.
pub fn read(
    alloc: Global,
    holder: &Holder,
    records: &Records,
    tables: &Tables,
    reading: Reading,
    request: &Request,
) -> Result<Result<Val, Reason>, NoMemory>
    requires { act_of request.now.route request.now.method ≡ Some (Act.Reads reading) }
    ensures { IfOk result (λ r. AreOnce records.now.items → shown_of r ≡ read_done (view_over tables.now.rows records.now.items holder.now) reading (parts_of request.now)) }
{
    tables.are_ordered();
    let granted = granted_call(alloc, holder, tables, Act::Reads(reading), request)?;
    match granted {
        Ok(call) => shown(alloc, holder, records, tables, reading, request, &call),
        Err(reason) => Ok(Err(reason)),
    }
}

// What a granted read shows.
fn shown(
    alloc: Global,
    holder: &Holder,
    records: &Records,
    tables: &Tables,
    reading: Reading,
    request: &Request,
    call: &Call,
) -> Result<Result<Val, Reason>, NoMemory>
    requires act { act_of request.now.route request.now.method ≡ Some (Act.Reads reading) }
    requires granted { granted_call holder.now tables.now.rows (Act.Reads reading) (parts_of request.now) ≡ Ok call.now }
    ensures { IfOk result (λ r. AreOnce records.now.items
        → shown_of r ≡ read_value (view_over tables.now.rows records.now.items holder.now) reading (parts_of request.now) call.now) }
{
    match reading {
        Reading::Namespaces => names_listed(alloc, holder),
        Reading::Rows(kind) => listed(alloc, holder, tables, kind, request, call),
        Reading::Row(kind) => row_shown(alloc, holder, tables, kind, request, call),
        Reading::Activations => records_listed(alloc, holder, records, request, call),
        Reading::Activation(part) => record_shown(alloc, holder, records, part, request, call),
    }
}

fn listed(
    alloc: Global,
    holder: &Holder,
    tables: &Tables,
    kind: EntityKind,
    request: &Request,
    call: &Call,
) -> Result<Result<Val, Reason>, NoMemory>
    requires act { act_of request.now.route request.now.method ≡ Some (Act.Reads (Reading.Rows kind)) }
    requires granted { granted_call holder.now tables.now.rows (Act.Reads (Reading.Rows kind)) (parts_of request.now) ≡ Ok call.now }
    ensures { IfOk result (λ r. (ended : List Record)
        → shown_of r ≡ read_value (view_over tables.now.rows ended holder.now) (Reading.Rows kind) (parts_of request.now) call.now) }
{
    let namespace = read_namespace(alloc, holder, request)?;
    let listed = tables.list(alloc, kind, &namespace, call.skip, call.limit)?;
    Ok(Ok(Val::List(listed)))
}

fn row_shown(
    alloc: Global,
    holder: &Holder,
    tables: &Tables,
    kind: EntityKind,
    request: &Request,
    call: &Call,
) -> Result<Result<Val, Reason>, NoMemory>
    requires { granted_call holder.now tables.now.rows (Act.Reads (Reading.Row kind)) (parts_of request.now) ≡ Ok call.now }
    ensures { IfOk result (λ r. (ended : List Record)
        → shown_of r ≡ read_value (view_over tables.now.rows ended holder.now) (Reading.Row kind) (parts_of request.now) call.now) }
{
    let Some(name) = &call.name else {
        return Ok(Err(Reason::Http(HttpRefusal::NoRoute)));
    };
    tables.are_ordered();
    match row_read(alloc, tables, kind, name)? {
        Some(row) => Ok(Ok(shown_row(alloc, tables, row)?)),
        None => Ok(Err(Reason::Service(ServiceRefusal::NotFound))),
    }
}

// The row of the name. Of an action in a binding it is the one that the name calls.
fn row_read<'a>(
    alloc: Global,
    tables: &'a Tables,
    kind: EntityKind,
    name: &FullName,
) -> Result<Option<&'a Row>, NoMemory>
    ensures value { IfOk result (λ r. option_copied r ≡ row_read tables.now.rows kind name.now) }
    ensures named { OnOk result (AreNamed tables.now.rows kind name.now) }
{
    match kind {
        EntityKind::Action => action_read(alloc, tables, name),
        _ => Ok(row_named(tables, kind, name)),
    }
}

// The stored row of the name.
fn row_named<'a>(tables: &'a Tables, kind: EntityKind, name: &FullName) -> Option<&'a Row>
    ensures value { option_copied result ≡ found kind name.now tables.now.rows }
    ensures named { IsNamed tables.now.rows kind name.now }
{
    tables.row(kind, name)
}

// The action of the name: in a binding the one that the name calls.
fn action_read<'a>(
    alloc: Global,
    tables: &'a Tables,
    name: &FullName,
) -> Result<Option<&'a Row>, NoMemory>
    ensures value { IfOk result (λ r. option_copied r ≡ action_read tables.now.rows name.now) }
    ensures named { OnOk result (AreNamed tables.now.rows kinds.Action name.now) }
{
    let Some(bundle) = package_of(alloc, name)? else {
        return Ok(row_named(tables, EntityKind::Action, name));
    };
    match package_named(tables, &bundle) {
        Some(bundle) => action_in(alloc, tables, name, bundle),
        None => Ok(row_named(tables, EntityKind::Action, name)),
    }
}

// The package of the name.
fn package_named<'a>(tables: &'a Tables, name: &FullName) -> Option<&'a Package>
    ensures value { option_copied result ≡ package_at (standing tables.now.rows) name.now }
    ensures named { IsNamed tables.now.rows kinds.Package name.now }
{
    match row_named(tables, EntityKind::Package, name) {
        Some(Row::Package(bundle)) => Some(bundle.get()),
        _ => None,
    }
}

// The action of the name in this package.
fn action_in<'a>(
    alloc: Global,
    tables: &'a Tables,
    name: &FullName,
    bundle: &Package,
) -> Result<Option<&'a Row>, NoMemory>
    ensures value { IfOk result (λ r. option_copied r ≡ action_in tables.now.rows name.now bundle.now.name.namespace bundle.now.binding) }
    ensures named { OnOk result (IsNamed tables.now.rows kinds.Action (bound_name name.now bundle.now.binding)) }
{
    match &bundle.binding {
        Some(target) => action_bound(alloc, tables, name, &bundle.name.namespace, target),
        None => Ok(row_named(tables, EntityKind::Action, name)),
    }
}

// The action of the name in the package that is bound, where the binding's namespace reaches that.
fn action_bound<'a>(
    alloc: Global,
    tables: &'a Tables,
    name: &FullName,
    from: &EntityName,
    target: &FullName,
) -> Result<Option<&'a Row>, NoMemory>
    ensures value { IfOk result (λ r. option_copied r ≡ action_bound tables.now.rows name.now from.now target.now) }
    ensures named { OnOk result (IsNamed tables.now.rows kinds.Action (lying_in target.now name.now.name)) }
{
    let inside = lying_in(alloc, target, name)?;
    let row = row_named(tables, EntityKind::Action, &inside);
    match reached_package(tables, target, from) {
        Some(_) => Ok(row),
        None => Ok(None),
    }
}

// What the name is called in the package.
fn lying_in(alloc: Global, bundle: &FullName, name: &FullName) -> Result<FullName, NoMemory>
    ensures { IfOk result (λ n. n ≡ lying_in bundle.now name.now.name) }
{
    let (namespace, inside, name) = copied3(alloc, &bundle.namespace, &bundle.name, &name.name)?;
    Ok(FullName {
        namespace,
        package: Some(inside),
        name,
    })
}

fn records_listed(
    alloc: Global,
    holder: &Holder,
    records: &Records,
    request: &Request,
    call: &Call,
) -> Result<Result<Val, Reason>, NoMemory>
    requires act { act_of request.now.route request.now.method ≡ Some (Act.Reads Reading.Activations) }
    requires granted { granted_call holder.now [] (Act.Reads Reading.Activations) (parts_of request.now) ≡ Ok call.now }
    ensures { IfOk result (λ r. (rows : List Row)
        → shown_of r ≡ read_value (view_over rows records.now.items holder.now) Reading.Activations (parts_of request.now) call.now) }
{
    let namespace = read_namespace(alloc, holder, request)?;
    let listed = records.list(alloc, &namespace, call.skip, call.limit)?;
    Ok(Ok(Val::List(listed)))
}

fn record_shown(
    alloc: Global,
    holder: &Holder,
    records: &Records,
    part: Part,
    request: &Request,
    call: &Call,
) -> Result<Result<Val, Reason>, NoMemory>
    requires { granted_call holder.now [] (Act.Reads (Reading.Activation part)) (parts_of request.now) ≡ Ok call.now }
    ensures { IfOk result (λ r. (rows : List Row) → AreOnce records.now.items
        → shown_of r ≡ read_value (view_over rows records.now.items holder.now) (Reading.Activation part) (parts_of request.now) call.now) }
{
    let namespace = namespace_read(holder, request);
    match visible_record(holder, records, namespace, id_of(&request.route)) {
        Some(record) => Ok(Ok(part_value(alloc, part, record)?)),
        None => Ok(Err(Reason::Service(ServiceRefusal::NotFound))),
    }
}

// The id that a path writes.
fn id_of(route: &Route) -> &[u8]
    ensures { result.now ≡ id_of route.now }
{
    match route {
        Route::Activation { id, .. } => id.as_slice(),
        _ => b"".as_slice(),
    }
}

fn part_value(alloc: Global, part: Part, ended: &Record) -> Result<Val, NoMemory>
    ensures { IfOk result (λ v. view v ≡ part_value part ended.now) }
{
    match part {
        Part::Whole => write_record(alloc, ended),
        Part::Response => write_response(alloc, &ended.response),
        Part::Logs => write_logs(alloc, ended),
    }
}

// The record whose id the text is, where it is of the namespace.
fn visible_record<'a>(
    holder: &Holder,
    records: &'a Records,
    namespace: &[u8],
    text: &[u8],
) -> Option<&'a Record>
    requires { may_read holder.now.rights namespace.now ≡ true }
    ensures { AreOnce records.now.items → option_copied result ≡ recorded namespace.now text.now (seen_records holder.now.rights records.now.items) }
{
    match Id::of_lower(text) {
        Some(id) => record_of(holder, records, namespace, id),
        None => None,
    }
}

fn record_of<'a>(
    holder: &Holder,
    records: &'a Records,
    namespace: &[u8],
    id: Id,
) -> Option<&'a Record>
    requires { may_read holder.now.rights namespace.now ≡ true }
    ensures { AreOnce records.now.items → option_copied result ≡ recorded_under namespace.now (Some id) (seen_records holder.now.rights records.now.items) }
{
    match records.get(&id) {
        Ok(ended) => record_in(namespace, ended),
        Err(_) => None,
    }
}

fn record_in<'a>(namespace: &[u8], ended: &'a Record) -> Option<&'a Record>
    ensures { option_copied result ≡ if is_in namespace.now ended.now then Some ended.now else None }
{
    if namespace == ended.namespace.as_str().as_bytes() {
        Some(ended)
    } else {
        None
    }
}

// The namespace that is read, `_` being the key's own.
fn namespace_read<'a>(holder: &'a Holder, request: &'a Request) -> &'a [u8]
    ensures { result.now ≡ home holder.now.home (namespace_of request.now.route) }
{
    home_of(holder, namespace_of(&request.route))
}

// The same as a name, where it is one.
fn read_namespace(alloc: Global, holder: &Holder, request: &Request) -> Result<EntityName, NoMemory>
    requires { first_fault (namespace_of request.now.route) ≡ None }
    ensures { IfOk result (λ n. n ≡ home holder.now.home (namespace_of request.now.route)) }
{
    let namespace = namespace_of(&request.route);
    if namespace == b"_".as_slice() {
        return holder.home.copy(alloc);
    }
    match read_name(alloc, namespace) {
        Ok(name) => Ok(name),
        Err(NameRefusal::NoMemory) => Err(NoMemory),
        Err(_) => unreachable!(),
    }
}

// The names of the namespaces in which the key has a right.
fn names_listed(alloc: Global, holder: &Holder) -> Result<Result<Val, Reason>, NoMemory>
    ensures { IfOk result (λ r. (rows : List Row) (ended : List Record) (p : Parts) (c : Call) → shown_of r ≡ read_value (view_over rows ended holder.now) Reading.Namespaces p c) }
{
    Ok(Ok(Val::List(holder.granted(alloc)?)))
}
