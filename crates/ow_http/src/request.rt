// Requests as they were read.
ghost use Rattle.std.specs.Prelude.{◌≡◌, true};
ghost use Rattle.ow_http.specs.CallKind.{takes};
ghost use Rattle.ow_http.specs.Route.{is_whole};

use crate::call_kind::CallKind;
use crate::route::Route;
use crate::verb::Verb;
use ow_value::{Bytes, NoMemory, Pairs, PlainData, Str, copied3, kept_beside};
use std::alloc::Global;

/// A request that was read. Its route takes its method.
#[derive(Drop)]
pub struct Request {
    /// What the path names.
    pub route: Route,
    /// One that the route takes.
    pub method: Verb,
    /// The value of the last header `X-Whisk-Key`.
    pub key: Option<Str>,
    /// The decoded pairs of the query, in their order (URL Standard, section 5.1).
    pub query: Pairs,
    /// What follows the first `?` of the target, as it came.
    pub raw_query: Str,
    /// All headers in their order, with their names as they came.
    pub headers: Pairs,
    /// As many bytes as `Content-Length` says, or none.
    pub body: Bytes,
    /// How many bytes head and body have.
    pub size: u64,
    /// Whether the client wants the connection to end after the reply.
    pub close: bool,

    pub ghost allowed: { takes route method ≡ true },
    pub ghost whole: { is_whole route ≡ true },
}

impl Request {
    ghost use Rattle.std.specs.Prelude.{◌↔◌, IsTrue, IfOk};
    ghost use Rattle.ow_http.specs.CallKind.{kind_of};
    ghost use Rattle.ow_http.specs.Request.{parts_of};

    /// What it calls for.
    pub fn kind(&self) -> CallKind
        ensures { result ≡ kind_of self.now.route self.now.method }
    {
        CallKind::of(&self.route, self.method)
    }

    fn has_parts_of(&self, other: &Request) -> bool
        ensures { IsTrue result ↔ (parts_of self.now ≡ parts_of other.now) }
    {
        self.route.same(&other.route)
            && self.method == other.method
            && self.key.same(&other.key)
            && self.query.same(&other.query)
            && self.raw_query.same(&other.raw_query)
            && self.headers.same(&other.headers)
            && self.body.same(&other.body)
            && self.size == other.size
            && self.close == other.close
    }

    fn made_of_parts(&self, alloc: Global) -> Result<Request, NoMemory>
        ensures { IfOk result (λ r. parts_of r ≡ parts_of self.now) }
    {
        let ((route, key, query), (raw_query, headers, body)) = kept_beside(
            copied3(alloc, &self.route, &self.key, &self.query)?,
            copied3(alloc, &self.raw_query, &self.headers, &self.body),
        )?;
        Ok(Request {
            route,
            method: self.method,
            key,
            query,
            raw_query,
            headers,
            body,
            size: self.size,
            close: self.close,
        })
    }
}

impl PlainData for Request {
    fn same(&self, other: &Request) -> bool {
        self.has_parts_of(other)
    }

    fn copy(&self, alloc: Global) -> Result<Request, NoMemory> {
        self.made_of_parts(alloc)
    }
}

/// A request and how many bytes of the input it took.
#[derive(Drop)]
pub struct Read {
    /// The request that the input begins with.
    pub request: Request,
    /// The bytes of its head and body.
    pub used: usize,

    pub ghost sized: { used ≡ request.size },
}

impl PlainData for Read {
    fn same(&self, other: &Read) -> bool {
        self.request.same(&other.request)
    }

    fn copy(&self, alloc: Global) -> Result<Read, NoMemory> {
        Ok(Read {
            request: self.request.copy(alloc)?,
            used: self.used,
        })
    }
}
