// Which route a path has.
ghost use Rattle.std.specs.Prelude.{◌≡◌, IfOk, OnOk};
ghost use Rattle.ow_http.specs.Table.{office_routes, with_route, with_lists, with_entities, with_activations, with_web_actions};

use crate::place::Place;
use crate::route::Part;
use matchit::{InsertError, Router};
use ow_entity::EntityKind;
use ow_value::NoMemory;
use std::alloc::Global;
use std::marker::Model;

/// The routes of the service. To make them costs more than to read a request, so one that reads many requests keeps them.
#[derive(Drop)]
pub struct Routes {
    router: Router<Place>,
}

impl Model for Routes {
    ghost use Rattle.std.specs.Prelude.{◌≡◌};
    ghost use Rattle.ow_http.specs.Table.{office_routes};

    ghost Value = { Unit {0} };

    ghost view = { λ _. tt };

    ghost invariant = { λ r. r.router ≡ office_routes };
}

impl Routes {
    ghost use Rattle.ow_http.specs.PlaceOf.{place_of};

    /// All routes.
    pub fn new(alloc: Global) -> Result<Routes, NoMemory> {
        match office_router(alloc) {
            Ok(router) => Ok(Routes { router }),
            Err(_) => Err(NoMemory),
        }
    }

    /// What a path names.
    pub(crate) fn find(&self, path: &str) -> Option<Place>
        ensures { result ≡ place_of path.now }
    {
        match self.router.at(path) {
            Ok(found) => Some(*found.value),
            Err(_) => None,
        }
    }
}

fn add(router: &mut Router<Place>, route: &str, place: Place) -> Result<(), InsertError>
    ensures { OnOk result (router.new ≡ with_route route.now place router.old) }
{
    router.insert(route, place)
}

fn office_router(alloc: Global) -> Result<Router<Place>, InsertError>
    ensures { IfOk result (λ r. r ≡ office_routes) }
{
    let mut router = Router::new(alloc);
    add_lists(&mut router)?;
    add_entities(&mut router)?;
    add_activations(&mut router)?;
    add_web_actions(&mut router)?;
    Ok(router)
}

fn add_lists(router: &mut Router<Place>) -> Result<(), InsertError>
    ensures { OnOk result (router.new ≡ with_lists router.old) }
{
    add(router, "/api/v1/namespaces", Place::Namespaces)?;
    add(
        router,
        "/api/v1/namespaces/{namespace}/actions",
        Place::List(EntityKind::Action),
    )?;
    add(
        router,
        "/api/v1/namespaces/{namespace}/packages",
        Place::List(EntityKind::Package),
    )?;
    add(
        router,
        "/api/v1/namespaces/{namespace}/rules",
        Place::List(EntityKind::Rule),
    )?;
    add(
        router,
        "/api/v1/namespaces/{namespace}/triggers",
        Place::List(EntityKind::Trigger),
    )?;
    Ok(())
}

fn add_entities(router: &mut Router<Place>) -> Result<(), InsertError>
    ensures { OnOk result (router.new ≡ with_entities router.old) }
{
    add(
        router,
        "/api/v1/namespaces/{namespace}/actions/{name}",
        Place::Entity(EntityKind::Action),
    )?;
    add(
        router,
        "/api/v1/namespaces/{namespace}/packages/{name}",
        Place::Entity(EntityKind::Package),
    )?;
    add(
        router,
        "/api/v1/namespaces/{namespace}/rules/{name}",
        Place::Entity(EntityKind::Rule),
    )?;
    add(
        router,
        "/api/v1/namespaces/{namespace}/triggers/{name}",
        Place::Entity(EntityKind::Trigger),
    )?;
    add(
        router,
        "/api/v1/namespaces/{namespace}/actions/{package}/{name}",
        Place::Packaged,
    )?;
    Ok(())
}

fn add_activations(router: &mut Router<Place>) -> Result<(), InsertError>
    ensures { OnOk result (router.new ≡ with_activations router.old) }
{
    add(
        router,
        "/api/v1/namespaces/{namespace}/activations",
        Place::Activations,
    )?;
    add(
        router,
        "/api/v1/namespaces/{namespace}/activations/{id}",
        Place::Activation(Part::Whole),
    )?;
    add(
        router,
        "/api/v1/namespaces/{namespace}/activations/{id}/result",
        Place::Activation(Part::Response),
    )?;
    add(
        router,
        "/api/v1/namespaces/{namespace}/activations/{id}/logs",
        Place::Activation(Part::Logs),
    )?;
    Ok(())
}

fn add_web_actions(router: &mut Router<Place>) -> Result<(), InsertError>
    ensures { OnOk result (router.new ≡ with_web_actions router.old) }
{
    add(
        router,
        "/api/v1/web/{namespace}/{package}/{name}",
        Place::Web,
    )?;
    add(
        router,
        "/api/v1/web/{namespace}/{package}/{name}/{*rest}",
        Place::WebRest,
    )?;
    Ok(())
}
