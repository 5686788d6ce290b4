// Receipts of short days over two halls, compared with the book of the first.
ghost use Rattle.std.specs.Prelude.{◌≡◌, [], ◌∷◌, IfOk};
ghost use Rattle.ow_hall.specs.declared.entry.Entry.{Entry as EntryValue};

use ow_audit::{Difference, Side, first_difference};
use ow_decide::Event;
use ow_desk::{Desk, Issuer, Receipts};
use ow_hall::{Entry, Hall};
use ow_http::{Request, Verb, read_request};
use ow_tenant::Tenants;
use ow_traits::{MemoryKeeper, MemorySource, Rows};
use std::alloc::Global;
use std::test::Fail;

type Office = Desk<MemoryKeeper>;

type Held = Receipts<MemoryKeeper>;

// One namespace, and one key in it.
const TABLE: &str = "namespace,1,guest,,,\nkey,k1,anna,guest,,\n";

// A get of an action, a put and an invocation.
const GET: &str =
    "GET /api/v1/namespaces/_/actions/hello HTTP/1.1\r\nX-Whisk-Key: k1\r\nContent-Type: application/json\r\nContent-Length: 0\r\n\r\n";

const PUT: &str =
    "PUT /api/v1/namespaces/_/actions/hello HTTP/1.1\r\nX-Whisk-Key: k1\r\nContent-Type: application/json\r\nContent-Length: 98\r\n\r\n{\"exec\":{\"kind\":\"plain:1\",\"code\":\"{\\\"cases\\\":[{\\\"when\\\":{},\\\"give\\\":{\\\"greeting\\\":\\\"Hello\\\"}}]}\"}}";

const POST: &str =
    "POST /api/v1/namespaces/_/actions/hello HTTP/1.1\r\nX-Whisk-Key: k1\r\nContent-Type: application/json\r\nContent-Length: 2\r\n\r\n{}";

// The greatest size of a request for which a new book has room.
const MOST: u64 = 1_073_741_696;

// What is done, how many receipts are compared, and the first difference from the book of the first hall. A step is the receipts (A to
// D), the hall (0 or 1), what is done there, and the moment. What is done: g gets, f gets with the greatest size, p puts, i invokes,
// n asks what is to be run, b reports that a run began which isn't live, d drains. A holds the opening of the first hall, and each
// store fails at its first put. A difference is a place, what the receipts have and what the book has: what was done with its moment,
// a number after #, or - for nothing.
const DAYS: &str = "B0g1 C0n2 C0n3 C0b4 A0d5|3|match
A0d1|1|match
B0g1 C0p2 C0p3 A0d4 A0d5|3|match
C0f1 B0f2 A0d3|3|match
B0g1 A0d2 C0g3 A0d4|3|match
B0g1 A0d2|1|1 - g1
B0g1 C0g2 D0g3 A0d4|2|2 - g2
D0p1 C0p2 A0d3|2|1 - p2
D0f1 B0f2 A0d3|2|1 - f1
B0n1 D0g2 A0d3 B0n4 B0n5|2|2 - g2
D0g1 B1g2 A0d3|2|1 g2 g1
D0g1 B1g2 D0d3|2|1 g2 g1
D1g1 D1g1 B0g1 A0d2 C1g3|3|3 g3 -
D1g1 D1g1 B1g1 D0d2|2|1 - d2
C0p1 A0d2|2|2 #0 #1
B1p1 A0d2|2|2 #1 #0
A0d1 B0n2 C0n3|2|3 #0 #1
A0d1 B0b2 C0b3|2|2 #1 #2
D1f1 B1f2 A0d3|2|2 #1073741874 #128
D1f1 B1f2 B1b3 A0d4|2|2 #1 #0
|1|1 - -
A0n1|1|2 - -
B0g1|2|1 - g1
A0d1 B0g2|2|2 d1 g2
B0p1 B0p2 B0i3 A0d4|2|2 d4 i3
B0g1 A0d2 C1g1|3|1 #2 #1
B0g1 B1g1 A0d2|2|1 #2 #1
B0g1 D0g2 C0g3 D1g1 C1g2 A0d4|3|2 #3 #2
";

#[derive(Drop)]
struct Days {
    first: Office,
    second: Office,
    receipts: Vec<Held>,
}

// A hall on a desk. Its store loads and commits as it is opened, and the next commit fails.
fn office(alloc: Global) -> Result<(Office, Issuer<MemoryKeeper>), Fail>
    ensures { IfOk result (λ p. (e : EntryValue) × (p.0.hall.ledger.entries ≡ e ∷ [])) }
{
    let mut source = MemorySource::new(TABLE.as_bytes().to_vec(alloc)?, Vec::new(alloc));
    let tenants = Tenants::read(alloc, &mut source)?;
    let store = MemoryKeeper::holding(Rows::new(alloc), vec![in alloc; 2]?);
    match Hall::start(alloc, store, tenants, 0) {
        Ok(hall) => Ok(Desk::of(hall)),
        Err(_) => Err("not opened")?,
    }
}

// Of the opening of a hall, and three of nothing.
fn four_receipts(
    alloc: Global,
    issuer: &Issuer<MemoryKeeper>,
    opened: &Office,
) -> Result<Vec<Held>, Fail>
    requires { (e : EntryValue) × (opened.now.hall.ledger.entries ≡ e ∷ []) }
{
    let mut receipts = Vec::new(alloc);
    receipts.push(Receipts::opening(alloc, issuer, opened)?)?;
    receipts.push(Receipts::new(alloc, issuer)?)?;
    receipts.push(Receipts::new(alloc, issuer)?)?;
    receipts.push(Receipts::new(alloc, issuer)?)?;
    Ok(receipts)
}

fn open_days(alloc: Global) -> Result<Days, Fail> {
    let (first, issuer) = office(alloc)?;
    let receipts = four_receipts(alloc, &issuer, &first)?;
    let (second, _other) = office(alloc)?;
    Ok(Days {
        first,
        second,
        receipts,
    })
}

fn request(alloc: Global, text: &str) -> Result<Request, Fail> {
    let read = read_request(alloc, text.as_bytes())?;
    Ok(read.request)
}

// A get of the greatest size.
fn greatest(alloc: Global) -> Result<Request, Fail> {
    let mut request = request(alloc, GET)?;
    request.size = MOST;
    Ok(request)
}

fn asks(
    alloc: Global,
    held: &mut Held,
    desk: &mut Office,
    at: u64,
    request: &Request,
) -> Result<(), Fail> {
    let _reply = held.ask(alloc, desk, at, request)?;
    Ok(())
}

// Does what a letter means.
fn does(alloc: Global, held: &mut Held, desk: &mut Office, act: u8, at: u64) -> Result<(), Fail> {
    match act {
        b'g' => asks(alloc, held, desk, at, &request(alloc, GET)?),
        b'f' => asks(alloc, held, desk, at, &greatest(alloc)?),
        b'p' => asks(alloc, held, desk, at, &request(alloc, PUT)?),
        b'i' => asks(alloc, held, desk, at, &request(alloc, POST)?),
        b'n' => {
            let _order = held.next(alloc, desk, at)?;
            Ok(())
        }
        b'b' => {
            held.reserve(alloc, 1)?;
            let _taken = held.begun(desk, at, 99);
            Ok(())
        }
        b'd' => {
            let _drain = held.drain(alloc, desk, at)?;
            Ok(())
        }
        _ => Err("no such act")?,
    }
}

fn step(alloc: Global, days: &mut Days, step: &str) -> Result<(), Fail> {
    let [who, hall, act, moment @ ..] = step.as_bytes() else {
        return Err("no step")?;
    };
    let at = number(moment);
    let i = who.saturating_sub(b'A') as usize;
    if i >= days.receipts.len() {
        return Err("no such receipts")?;
    }
    if *hall == b'0' {
        does(alloc, &mut days.receipts[i], &mut days.first, *act, at)
    } else {
        does(alloc, &mut days.receipts[i], &mut days.second, *act, at)
    }
}

// The number that these digits write, below 10.
fn number(digits: &[u8]) -> u64 {
    match digits {
        [digit] => u64::from(digit.saturating_sub(b'0')),
        _ => 0,
    }
}

fn method_letter(request: &Request) -> &'static str {
    match request.method {
        Verb::Put => "p",
        Verb::Post => "i",
        _ if request.size == MOST => "f",
        _ => "g",
    }
}

// What was done.
fn letter(entry: &Entry) -> &'static str {
    match &entry.event {
        Event::Opened(_) => "o",
        Event::Asked(request) => method_letter(request.get()),
        Event::Next => "n",
        Event::Drain => "d",
        _ => "?",
    }
}

fn put_number(alloc: Global, text: &mut String, number: u64) -> Result<(), Fail> {
    let digits = format!(in alloc; "{number}")?;
    text.push_str(digits.as_str())?;
    Ok(())
}

fn put_side(alloc: Global, text: &mut String, side: &Side) -> Result<(), Fail> {
    text.push_str(" ")?;
    match side {
        Side::One(entry) => {
            text.push_str(letter(entry))?;
            put_number(alloc, text, entry.at)
        }
        Side::Count(count) => {
            text.push_str("#")?;
            put_number(alloc, text, *count)
        }
        Side::Nothing => {
            text.push_str("-")?;
            Ok(())
        }
    }
}

fn shown(alloc: Global, difference: &Option<Difference>) -> Result<String, Fail> {
    let mut text = String::new(alloc);
    match difference {
        None => text.push_str("match")?,
        Some(found) => {
            put_number(alloc, &mut text, found.place)?;
            put_side(alloc, &mut text, &found.held)?;
            put_side(alloc, &mut text, &found.kept)?;
        }
    }
    Ok(text)
}

// What is shown once the steps are done, where `count` receipts are compared.
fn compared(alloc: Global, days: &mut Days, steps: &str, count: usize) -> Result<String, Fail> {
    for it in steps.split_whitespace() {
        step(alloc, days, it)?;
    }
    if count > days.receipts.len() {
        return Err("too many receipts")?;
    }
    let found = first_difference(alloc, &days.receipts[..count], days.first.hall().book())?;
    shown(alloc, &found)
}

fn played(alloc: Global, steps: &str, count: usize) -> Result<String, Fail> {
    let mut days = open_days(alloc)?;
    let shown = compared(alloc, &mut days, steps, count);
    drop(days);
    shown
}

#[test]
fn days_match_their_book_or_differ_from_it(rt: HostRuntime) -> Result<(), Fail> {
    let alloc = rt.alloc();
    for row in DAYS.lines() {
        let mut parts = row.split('|');
        let (Some(steps), Some(count), Some(shown)) = (parts.next(), parts.next(), parts.next())
        else {
            return Err("no row")?;
        };
        let found = played(alloc, steps, number(count.as_bytes()) as usize)?;
        assert_eq!(rt; found.as_str(), shown, "{steps}");
    }
    Ok(())
}
