// Web requests as invocations.
ghost use Rattle.std.specs.Prelude.{◌≡◌, ◌≢◌, ◌+◌, List, None, Ok, Err, true, is_some, IfOk, MatchResult, option_copied};
ghost use Rattle.ow_names.specs.Path.{within};
ghost use Rattle.ow_entity.specs.declared.rows.Row.{Row};
ghost use Rattle.ow_counts.specs.View.{CountsView};
ghost use Rattle.ow_floor.specs.Laws.{Stands};
ghost use Rattle.ow_floor.specs.View.{last_of};
ghost use Rattle.ow_http.specs.Request.{parts_of};
ghost use Rattle.ow_commits.specs.Keeping.{KeepingView};
ghost use Rattle.ow_tenant.specs.Tenants.{holder_of};
ghost use Rattle.ow_web.specs.Target.{as_target, is_web};
ghost use Rattle.ow_decide.specs.Asking.{web_accepted, web_called, web_done, web_named, web_planned};
ghost use Rattle.ow_decide.specs.Sight.{Sight};
ghost use Rattle.ow_decide.specs.Making.{CommitsServed, IsNextOf, IsSeen, served_change, served_of};
ghost use Rattle.ow_decide.specs.WebCalling.{target_name, web_extension, web_given, web_name, web_plan};

use crate::call_steps::{Callee, called_plan, callee_in};
use crate::done::{Done, Served};
use crate::room::room_for;
use crate::step::Now;
use crate::waits::Shows;
use ow_floor::{Floor, Plan};
use ow_http::{CallRefusal, Reason, Request, ServiceRefusal};
use ow_names::{EntityName, FullName, NameRefusal, named_in, read_name};
use ow_packages::Effective;
use ow_tables::Tables;
use ow_tenant::Tenants;
use ow_value::{NoMemory, Params, Str};
use ow_web::{Extension, Target, WebRefusal, web_reason, web_request, web_target};
use std::alloc::Global;

/// The outcome of a web request, which needs neither a key nor a grant.
pub(crate) fn web_served(
    alloc: Global,
    tenants: &Tenants,
    floor: &Floor,
    tables: &Tables,
    now: Now,
    request: &Request,
) -> Result<Served, NoMemory>
    requires web { is_web request.now.route ≡ true }
    ensures done { IfOk result (λ d. (S : Sight) (k : CountsView) (b : KeepingView) → IsSeen S tenants.now tables.now.rows k b floor.now.now now → served_of S d ≡ web_done S (parts_of request.now)) }
    ensures commit { IfOk result (λ d. (S : Sight) → CommitsServed d S) }
    ensures change { IfOk result (λ d. served_change d ≡ None) }
    ensures next { IfOk result (IsNextOf floor.now.now.drawn) }
{
    if let Err(reason) = room_for(now.counted, request.size) {
        return Ok(Served::Done(Done::Refused(reason)));
    }
    match web_name(alloc, request)? {
        Ok(name) => web_named(alloc, tenants, floor, tables, now, request, &name),
        Err(reason) => Ok(Served::Done(Done::Refused(reason))),
    }
}

// The action that the path names.
fn web_name(alloc: Global, request: &Request) -> Result<Result<FullName, Reason>, NoMemory>
    requires { is_web request.now.route ≡ true }
    ensures { IfOk result (λ n. n ≡ web_name request.now.route) }
{
    target_name(alloc, web_target(request))
}

fn target_name(alloc: Global, target: Target<'_>) -> Result<Result<FullName, Reason>, NoMemory>
    ensures { IfOk result (λ n. n ≡ target_name (as_target target.entry)) }
{
    match full_name(alloc, target.namespace, target.package, target.name) {
        Ok(name) => Ok(Ok(name)),
        Err(NameRefusal::NoMemory) => Err(NoMemory),
        Err(e) => Ok(Err(Reason::Call(CallRefusal::BadName(e)))),
    }
}

// The full name of these parts. The namespace is read as it is written.
fn full_name(
    alloc: Global,
    namespace: &[u8],
    package: Option<&[u8]>,
    name: &[u8],
) -> Result<FullName, NameRefusal>
    ensures { MatchResult result (λ n. within namespace.now (option_copied «package».entry) name.now ≡ Ok n)
        (λ e. e ≢ NameRefusal.NoMemory → within namespace.now (option_copied «package».entry) name.now ≡ Err e) }
{
    let here = read_name(alloc, namespace)?;
    named_in(alloc, &here, namespace, package, name)
}

// The outcome of a request whose path names this action.
fn web_named(
    alloc: Global,
    tenants: &Tenants,
    floor: &Floor,
    tables: &Tables,
    now: Now,
    request: &Request,
    name: &FullName,
) -> Result<Served, NoMemory>
    requires web { is_web request.now.route ≡ true }
    ensures done { IfOk result (λ d. (S : Sight) (k : CountsView) (b : KeepingView) → IsSeen S tenants.now tables.now.rows k b floor.now.now now → served_of S d ≡ web_named S (parts_of request.now) name.now) }
    ensures commit { IfOk result (λ d. (S : Sight) → CommitsServed d S) }
    ensures change { IfOk result (λ d. served_change d ≡ None) }
    ensures next { IfOk result (IsNextOf floor.now.now.drawn) }
{
    match callee_in(alloc, tenants, tables, name, &name.namespace)? {
        Some(called) => web_called(alloc, tenants, floor, now, request, name, called),
        None => Ok(Served::Done(Done::Refused(Reason::Service(ServiceRefusal::NotFound)))),
    }
}

// The outcome of a request to what is called.
fn web_called(
    alloc: Global,
    tenants: &Tenants,
    floor: &Floor,
    now: Now,
    request: &Request,
    name: &FullName,
    called: Callee,
) -> Result<Served, NoMemory>
    requires web { is_web request.now.route ≡ true }
    ensures done { IfOk result (λ d. (S : Sight) (rs : List Row) (k : CountsView) (b : KeepingView) → IsSeen S tenants.now rs k b floor.now.now now → served_of S d ≡ web_called S (parts_of request.now) name.now called) }
    ensures commit { IfOk result (λ d. (S : Sight) → CommitsServed d S) }
    ensures change { IfOk result (λ d. served_change d ≡ None) }
    ensures next { IfOk result (IsNextOf floor.now.now.drawn) }
{
    match web_given(alloc, tenants, &called.effective, request) {
        Ok(Ok(given)) => web_accepted(alloc, floor, now, request, name, called, given),
        Ok(Err(reason)) => {
            drop(called);
            Ok(Served::Done(Done::Refused(reason)))
        }
        Err(e) => {
            drop(called);
            Err(e)
        }
    }
}

// The parameters that the request gives to what is called.
fn web_given(
    alloc: Global,
    tenants: &Tenants,
    called: &Effective,
    request: &Request,
) -> Result<Result<Params, Reason>, NoMemory>
    requires { is_web request.now.route ≡ true }
    ensures { IfOk result (λ g. g ≡ web_given tenants.now called.now (parts_of request.now)) }
{
    match web_request(alloc, request, called, is_known(tenants, &request.key)) {
        Ok(given) => Ok(Ok(given)),
        Err(WebRefusal::NoMemory) => Err(NoMemory),
        Err(refusal) => Ok(Err(web_reason(refusal))),
    }
}

// Whether the table has the key.
fn is_known(tenants: &Tenants, key: &Option<Str>) -> bool
    ensures { result ≡ is_some (holder_of key.now tenants.now) }
{
    let key = match key {
        Some(key) => Some(key.as_str()),
        None => None,
    };
    tenants.holder_of(key).is_some()
}

// The outcome for the parameters that are given.
fn web_accepted(
    alloc: Global,
    floor: &Floor,
    now: Now,
    request: &Request,
    name: &FullName,
    called: Callee,
    given: Params,
) -> Result<Served, NoMemory>
    requires web { is_web request.now.route ≡ true }
    ensures done { IfOk result (λ d. (S : Sight) → Stands floor.now.now S.trace → S.moment ≡ now.at → served_of S d ≡ web_accepted S (parts_of request.now) name.now called given) }
    ensures commit { IfOk result (λ d. (S : Sight) → CommitsServed d S) }
    ensures change { IfOk result (λ d. served_change d ≡ None) }
    ensures next { IfOk result (IsNextOf floor.now.now.drawn) }
{
    match web_extension(request) {
        Ok(extension) => web_planned(alloc, floor, now, &name.namespace, called, given, extension),
        Err(reason) => {
            drop((called, given));
            Ok(Served::Done(Done::Refused(reason)))
        }
    }
}

// How the end is answered.
fn web_extension(request: &Request) -> Result<Extension, Reason>
    requires { is_web request.now.route ≡ true }
    ensures { result ≡ web_extension request.now.route }
{
    match web_target(request).extension {
        Some(extension) => Ok(extension),
        None => Err(Reason::Service(ServiceRefusal::BadExtension)),
    }
}

// The outcome for the parameters that are given, where the end is answered by this extension.
fn web_planned(
    alloc: Global,
    floor: &Floor,
    now: Now,
    namespace: &EntityName,
    called: Callee,
    given: Params,
    extension: Extension,
) -> Result<Served, NoMemory>
    ensures done { IfOk result (λ d. (S : Sight) → Stands floor.now.now S.trace → S.moment ≡ now.at → served_of S d ≡ web_planned S namespace.now called given extension) }
    ensures commit { IfOk result (λ d. (S : Sight) → CommitsServed d S) }
    ensures change { IfOk result (λ d. served_change d ≡ None) }
    ensures next { IfOk result (IsNextOf floor.now.now.drawn) }
{
    match web_plan(alloc, floor, now, namespace, called, given)? {
        Ok(plan) => Ok(Served::Accepts {
            plan,
            shows: Shows::Web(extension),
        }),
        Err(reason) => Ok(Served::Done(Done::Refused(reason))),
    }
}

// What is to be accepted, in the name of the namespace of the path.
fn web_plan(
    alloc: Global,
    floor: &Floor,
    now: Now,
    namespace: &EntityName,
    called: Callee,
    given: Params,
) -> Result<Result<Plan, Reason>, NoMemory>
    ensures plan { IfOk result (λ p. (S : Sight) → Stands floor.now.now S.trace → S.moment ≡ now.at → p ≡ web_plan S namespace.now called given) }
    ensures next { IfOk result (λ p. IfOk p (λ q. q.id.count ≡ last_of floor.now.now.drawn q.id.namespace + 1)) }
{
    let Ok(subject) = Str::of(alloc, namespace.as_str()) else {
        drop((called, given));
        return Err(NoMemory);
    };
    called_plan(
        alloc, floor, now, &subject, namespace, true, true, called, &given,
    )
}
