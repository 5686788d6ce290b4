use crate::judging::{all_are_judged, joined, reads_as};
use ow_http::Routes;
use std::alloc::Global;
use std::test::Fail;

// A path, and its route or the number of the refusal.
const ROUTES: &str = "/api/v1/namespaces -> namespaces
/api/v1/namespaces?limit=1 -> namespaces
/api/v1/namespaces/a/actions -> actions a
/api/v1/namespaces/a/packages -> packages a
/api/v1/namespaces/_/rules -> rules _
/api/v1/namespaces/a%20b/triggers -> triggers a b
/api/v1/namespaces/a/actions/n -> action a n
/api/v1/namespaces/a/packages/p -> package a p
/api/v1/namespaces/a/rules/r?x=/y/z -> rule a r
/api/v1/namespaces/a/triggers/t -> trigger a t
/api/v1/namespaces/a/actions/p/n -> action a p n
/api/v1/namespaces/a/actions/p%2Fq/n -> action a p/q n
/api/v1/namespaces/a/actions/%61 -> action a a
/api/v1/namespaces/a/actions/%zz -> action a %zz
/api/v1/namespaces/a/actions/actions -> action a actions
/api/v1/namespaces/actions/actions/packages/rules -> action actions packages rules
/api/v1/namespaces/a/actions/n.json -> action a n.json
/api/v1/namespaces/a/actions/{name} -> action a {name}
/api/v1/namespaces/a/actions/%c3%a4 -> action a \u{e4}
/api/v1/namespaces/a/activations -> activations a
/api/v1/namespaces/a/activations/i -> record a i
/api/v1/namespaces/a/activations/i/result -> result a i
/api/v1/namespaces/a/activations/i/logs -> logs a i
/api/v1/namespaces/a/activations/result -> record a result
/api/v1/namespaces/a/activations/logs/logs -> logs a logs
/api/v1/web/a/p/n -> web a p n 
/api/v1/web/a/p/n.http -> web a p n.http 
/api/v1/web/a/default/n/x -> web a default n x
/api/v1/web/a/p/n/x/y/ -> web a p n x/y/
/api/v1/web/a/p/n//x -> web a p n /x
/api/v1/web/a/p/n/%41%ff -> web a p n A\u{fffd}
/api/v1/web/a/p/n// -> web a p n /
/api/v1/web/namespaces/actions/web/web -> web namespaces actions web web
/api/v1/namespacesx -> 36
/api/v1/namespaces/ -> 36
/api/v1/namespaces/a -> 36
/api/v1/namespaces/a/ -> 36
/api/v1/namespaces//actions -> 36
/api/v1/namespaces/a/actions/ -> 36
/api/v1/namespaces/a/actionss -> 36
/api/v1/namespaces/a/action -> 36
/api/v1/namespaces/a/Actions -> 36
/api/v1/namespaces/a/packages/p/q -> 36
/api/v1/namespaces/a/rules/r/s -> 36
/api/v1/namespaces/a/triggers/t/u -> 36
/api/v1/namespaces/a/actions/p/n/m -> 36
/api/v1/namespaces/a/actions//n -> 36
/api/v1/namespaces/a/actions/p/ -> 36
/api/v1/namespaces/a/activations/ -> 36
/api/v1/namespaces/a/activations/i/ -> 36
/api/v1/namespaces/a/activations/i/results -> 36
/api/v1/namespaces/a/activations/i/log -> 36
/api/v1/namespaces/a/activations/i/logs/ -> 36
/api/v1/namespaces/a/activations//logs -> 36
/api/v1/namespaces/a/act%69ons -> 36
/ -> 36
/api -> 36
/api/v1 -> 36
/api/v1/ -> 36
/api/v2/namespaces -> 36
/api/v1/namespace -> 36
/web/a/p/n -> 36
//api/v1/namespaces -> 36
/API/v1/namespaces -> 36
/api/v1//namespaces -> 36
http://h/api/v1/namespaces -> 36
* -> 36
/api/v1/web -> 36
/api/v1/web/a -> 36
/api/v1/web/a/p -> 36
/api/v1/web/a/p/ -> 36
/api/v1/web/a//n -> 36
/api/v1/web//p/n -> 36
/api/v1/web/a/p/n/ -> 36
";

#[test]
fn each_path_has_its_route(rt: HostRuntime) -> Result<(), Fail> {
    assert!(rt; all_are_judged(rt.alloc(), "GET ", ROUTES, " HTTP/1.1||")?);
    Ok(())
}

// A path, and the methods that its route takes.
const METHODS: &str = "/api/v1/namespaces -> GET
/api/v1/namespaces/a/actions -> GET
/api/v1/namespaces/a/packages -> GET
/api/v1/namespaces/a/rules -> GET
/api/v1/namespaces/a/triggers -> GET
/api/v1/namespaces/a/activations -> GET
/api/v1/namespaces/a/activations/i -> GET
/api/v1/namespaces/a/activations/i/result -> GET
/api/v1/namespaces/a/activations/i/logs -> GET
/api/v1/namespaces/a/packages/p -> GET PUT DELETE
/api/v1/namespaces/a/actions/n -> GET PUT DELETE POST
/api/v1/namespaces/a/actions/p/n -> GET PUT DELETE POST
/api/v1/namespaces/a/rules/n -> GET PUT DELETE POST
/api/v1/namespaces/a/triggers/n -> GET PUT DELETE POST
/api/v1/web/a/p/n -> GET PUT DELETE POST PATCH OPTIONS
/api/v1/web/a/p/n/rest -> GET PUT DELETE POST PATCH OPTIONS
";

const END: &str = " HTTP/1.1\r\n\r\n";

// Whether the method is refused exactly where it isn't among those of the path.
fn is_taken(
    alloc: Global,
    routes: &Routes,
    path: &str,
    method: &str,
    taken: bool,
) -> Result<bool, Fail> {
    let bytes = joined(alloc, &[method, " ", path, END])?;
    let refused = reads_as(alloc, routes, bytes.as_bytes(), "37")?;
    Ok(taken != refused)
}

fn takes_its_methods(alloc: Global, routes: &Routes, row: &str) -> Result<bool, Fail> {
    let Some((path, methods)) = row.split_once(" -> ") else {
        return Ok(false);
    };
    for method in "GET PUT POST DELETE PATCH OPTIONS HEAD get".split(' ') {
        if !is_taken(alloc, routes, path, method, methods.contains(method))? {
            return Ok(false);
        }
    }
    Ok(true)
}

fn all_take_their_methods(alloc: Global, table: &str) -> Result<bool, Fail> {
    let routes = Routes::new(alloc)?;
    for row in table.lines() {
        if !takes_its_methods(alloc, &routes, row)? {
            return Ok(false);
        }
    }
    Ok(true)
}

#[test]
fn each_route_takes_its_methods(rt: HostRuntime) -> Result<(), Fail> {
    assert!(rt; all_take_their_methods(rt.alloc(), METHODS)?);
    Ok(())
}
