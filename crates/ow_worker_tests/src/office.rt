// A hall over a store in memory, on a desk, and a board beside it.
ghost use Rattle.std.specs.Prelude.{◌≡◌, ◌≤◌, IfOk};
ghost use Rattle.ow_tenant.specs.Table.{IsPoolSized};
ghost use Rattle.ow_board.specs.Board.{size, IsPassOf};

use ow_board::{Board, Pass, board};
use ow_desk::{Desk, Issuer, Receipts};
use ow_hall::Hall;
use ow_http::{Request, read_request};
use ow_names::{FullName, read_name, resolve};
use ow_tenant::Tenants;
use ow_traits::{MemoryKeeper, MemorySource, Rows};
use ow_value::Params;
use std::alloc::Global;
use std::fmt::Debug;
use std::sync::{Mutex, Wait};
use std::test::Fail;

/// One namespace, and one key in it.
pub(crate) const TABLE: &str = "namespace,1,guest,,,\nkey,k1,anna,guest,,\n";

const LARGE: &str =
    r#"{"exec":{"kind":"plain:1","code":"{\"cases\":[]}"},"limits":{"memory":512}}"#;

const SMALL: &str =
    r#"{"exec":{"kind":"plain:1","code":"{\"cases\":[{\"when\":{},\"give\":{}}]}"}}"#;

/// What workers share: a desk, and a board of 512 slots.
#[derive(Drop)]
pub(crate) struct Office<C: Drop> {
    pub(crate) desk: Mutex<Desk<MemoryKeeper>>,
    pub(crate) issuer: Issuer<MemoryKeeper>,
    pub(crate) board: Board<C>,
    ghost wide: { 512 ≤ size board },
}

/// The value, in a box, since each return path of a function drops what it holds.
pub(crate) fn boxed<T: Drop, E: Debug + Drop>(
    alloc: Global,
    made: Result<T, E>,
) -> Result<Box<T>, Fail> {
    match Box::new(alloc, made?) {
        Ok(held) => Ok(held),
        Err(_) => Err("no memory")?,
    }
}

/// Whether it was made.
pub(crate) fn is_made<T: Drop, E: Drop>(made: Result<T, E>) -> bool {
    made.is_ok()
}

fn name_of(alloc: Global, path: &str) -> Result<Box<FullName>, Fail> {
    let guest = boxed(alloc, read_name(alloc, b"guest"))?;
    boxed(alloc, resolve(alloc, path, &guest))
}

fn open_hall(alloc: Global, rows: &str, failing: &[u64]) -> Result<Hall<MemoryKeeper>, Fail>
    ensures { IfOk result (λ hall. IsPoolSized hall.tenants.pool) }
{
    let failing = failing.to_vec(alloc)?;
    let mut source = MemorySource::new(rows.as_bytes().to_vec(alloc)?, Vec::new(alloc));
    let tenants = Tenants::read(alloc, &mut source)?;
    let store = MemoryKeeper::holding(Rows::new(alloc), failing);
    match Hall::start(alloc, store, tenants, 0) {
        Ok(hall) => Ok(hall),
        Err(refusal) => {
            drop(refusal);
            Err("not opened")?
        }
    }
}

// The office itself calls the action that is built in.
fn call(alloc: Global, hall: &mut Hall<MemoryKeeper>) -> Result<(), Fail>
    ensures { hall.new.tenants ≡ hall.old.tenants }
{
    let name = name_of(alloc, "/whisk.system/utils/echo")?;
    boxed(alloc, hall.call(alloc, 0, &name, Params::new()))?;
    Ok(())
}

fn call_often(alloc: Global, hall: &mut Hall<MemoryKeeper>, calls: u32) -> Result<(), Fail>
    ensures { hall.new.tenants ≡ hall.old.tenants }
{
    for _ in 0..calls {
        call(alloc, hall)?;
    }
    Ok(())
}

fn called(
    alloc: Global,
    rows: &str,
    failing: &[u64],
    calls: u32,
) -> Result<Hall<MemoryKeeper>, Fail>
    ensures { IfOk result (λ hall. IsPoolSized hall.tenants.pool) }
{
    let mut hall = open_hall(alloc, rows, failing)?;
    match call_often(alloc, &mut hall, calls) {
        Ok(()) => Ok(hall),
        Err(fail) => {
            drop(hall);
            Err(fail)
        }
    }
}

fn empty_board<C: Drop>(alloc: Global) -> Result<(Board<C>, Pass<C>), Fail>
    ensures { IfOk result (λ r. IsPassOf r.0 r.1 × (512 ≤ size r.0)) }
{
    match board(alloc, 512) {
        Ok(made) => Ok(made),
        Err(_) => Err("no memory")?,
    }
}

// It has one return path: a second one would drop the desk, which takes five minutes to prove.
fn office_of<C: Drop>(hall: Hall<MemoryKeeper>, board: Board<C>) -> Office<C>
    requires pool { IsPoolSized hall.tenants.pool }
    requires board { 512 ≤ size board }
    ensures { result.board ≡ board }
{
    let (desk, issuer) = Desk::of(hall);
    Office {
        desk: Mutex::new(desk),
        issuer,
        board,
    }
}

/// An office over the table of these rows, which has called the built-in action `calls` times, with the first pass of its board. The
/// calls of the store of these numbers fail: those of the opening have the numbers 0 and 1, and those of the calls follow.
pub(crate) fn open_office<C: Drop>(
    alloc: Global,
    rows: &str,
    failing: &[u64],
    calls: u32,
) -> Result<(Office<C>, Pass<C>), Fail>
    ensures { IfOk result (λ r. IsPassOf r.0.board r.1) }
{
    let (board, pass) = empty_board(alloc)?;
    match called(alloc, rows, failing, calls) {
        Ok(hall) => Ok((office_of(hall, board), pass)),
        Err(fail) => {
            drop((board, pass));
            Err(fail)
        }
    }
}

// The body of a put of an action: one of 512 MB, or one of 256.
fn body_of(method: &str, path: &str) -> &'static str {
    if method != "PUT" {
        ""
    } else if path == "guest/actions/large" {
        LARGE
    } else {
        SMALL
    }
}

fn request_text(alloc: Global, method: &str, path: &str) -> Result<String, Fail> {
    let body = body_of(method, path);
    let length = body.len();
    Ok(format!(in alloc;
        "{method} /api/v1/namespaces/{path} HTTP/1.1\r\nHost: localhost\r\nX-Whisk-Key: k1\r\nContent-Length: {length}\r\n\r\n{body}"
    )?)
}

impl<C: Drop> Office<C> {
    /// Asks a request of the one key, at the moment 0.
    pub(crate) fn ask<H: Wait>(
        &self,
        rt: &H,
        alloc: Global,
        method: &str,
        path: &str,
    ) -> Result<(), Fail> {
        let text = request_text(alloc, method, path)?;
        let read = boxed(alloc, read_request(alloc, text.as_bytes()))?;
        self.ask_request(rt, alloc, &read.request)
    }

    fn ask_request<H: Wait>(&self, rt: &H, alloc: Global, request: &Request) -> Result<(), Fail> {
        let mut notes = boxed(alloc, Receipts::new(alloc, &self.issuer))?;
        let asked = notes.ask(alloc, &mut *self.desk.lock(rt), 0, request);
        boxed(alloc, asked)?;
        Ok(())
    }
}
