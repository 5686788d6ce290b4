// How the office ends, and what it says of that.
ghost use Rattle.std.specs.Prelude.{◌≡◌, ◌++◌, OnOk, OnErr, codes};
ghost use Rattle.std.specs.Fmt.{decimal};
ghost use Rattle.ow_traits.specs.Streams.{HasCause, Takes, TakesFront};
ghost use Rattle.ow_command_line.specs.Status.{IsPassed, err_text, refusal_line, status_number};

use crate::command::ServeWords;
use itoa::Buffer;
use ow_tenant::Tenants;
use ow_traits::{Failed, Sink, write_all};
use ow_value::Str;

/// How the office ended.
#[derive(Drop)]
pub enum Status {
    /// The day was read to `end` or its end, and all was written.
    Ok,
    /// The statement of this number, counted from 1, is none.
    BadDay { statement: u64 },
    /// The words of the command line aren't in the command set.
    BadWords,
    /// The office table or the day could not be read on.
    ReadFault,
    /// An answer could not be written.
    WriteFault,
    /// The store failed as the service was to be opened.
    StoreFault,
    /// The row of this number of the office table breaks a rule. They are counted from 1; it is 0 where the table is too long.
    BadTable { row: u64 },
    /// There is no memory.
    NoMemory,
    /// The day has more bytes than are allowed.
    DayTooLong,
    /// The store's rows are not allowed: the first bad one has this key.
    BadKept { key: Str },
    /// The input is no manifest: the number and the text of its refusal.
    BadManifest { number: u32, text: Str },
    /// A deployment is refused at the draft of this place, counted from 1, or as a whole, at 0. The number and the text of the refusal.
    Undeployed { place: u32, number: u32, text: Str },
    /// The words ask for a service over this office table. The caller serves it, and its end has a status of its own.
    Passed(ServeWords, Tenants),
}

impl Status {
    /// The exit status of the program. A service that is passed on has none yet, and its number is 0.
    pub fn number(&self) -> u8
        ensures { result ≡ status_number self.now }
    {
        match self {
            Status::Ok => 0,
            Status::BadDay { statement: _ } => 1,
            Status::BadWords => 2,
            Status::ReadFault => 3,
            Status::WriteFault => 4,
            Status::StoreFault => 5,
            Status::BadTable { row: _ } => 6,
            Status::NoMemory => 7,
            Status::DayTooLong => 8,
            Status::BadKept { key: _ } => 9,
            Status::BadManifest { number: _, text: _ } => 13,
            Status::Undeployed {
                place: _,
                number: _,
                text: _,
            } => 14,
            Status::Passed(_, _) => 0,
        }
    }
}

/// Writes the line of the status, where it has one. That takes no memory. After a fault a prefix of it was taken.
#[tactic(auto, using(crate::proofs::Results::takes_none))]
pub fn report<E: Sink>(status: &Status, err: &mut E) -> Result<(), Failed>
    ensures ok { OnOk result (Takes (E.taken err.old) (E.taken err.new) (err_text status.now)) }
    ensures err { OnErr result (TakesFront (E.taken err.old) (E.taken err.new) (err_text status.now)) }
    ensures cause { HasCause (E.faults err.old) (E.faults err.new) result }
    ensures quiet { status.now ≡ Status.Ok → err.new ≡ err.old }
    ensures passed { IsPassed status.now → err.new ≡ err.old }
{
    match status {
        Status::Ok | Status::Passed(_, _) => Ok(()),
        Status::BadDay { statement } => report_place(err, b"bad day at ", *statement),
        Status::BadTable { row } => report_place(err, b"bad table at ", *row),
        Status::BadWords => write_all(err, b"bad words\n"),
        Status::ReadFault => write_all(err, b"read fault\n"),
        Status::WriteFault => write_all(err, b"write fault\n"),
        Status::StoreFault => write_all(err, b"store fault\n"),
        Status::NoMemory => write_all(err, b"no memory\n"),
        Status::DayTooLong => write_all(err, b"day too long\n"),
        Status::BadKept { key } => {
            write_pieces(err, b"bad kept row ", key.as_str().as_bytes(), b"\n")
        }
        Status::BadManifest { number, text } => {
            report_refusal(err, b"bad manifest ", *number, text.as_str())
        }
        Status::Undeployed {
            place,
            number,
            text,
        } => report_undeployed(err, *place, *number, text.as_str()),
    }
}

// Writes words and a number, and a newline after them.
fn report_place<E: Sink>(err: &mut E, words: &[u8], place: u64) -> Result<(), Failed>
    ensures ok { OnOk result (Takes (E.taken err.old) (E.taken err.new) (words.now ++ (decimal place ++ codes "\n"))) }
    ensures err { OnErr result (TakesFront (E.taken err.old) (E.taken err.new) (words.now ++ (decimal place ++ codes "\n"))) }
    ensures cause { HasCause (E.faults err.old) (E.faults err.new) result }
{
    let mut digits = Buffer::new();
    let number = digits.format(place).as_bytes();
    write_pieces(err, words, number, b"\n")
}

// Writes words, and the number and the text of a refusal after them.
fn report_refusal<E: Sink>(err: &mut E, words: &[u8], number: u32, text: &str) -> Result<(), Failed>
    ensures ok { OnOk result (Takes (E.taken err.old) (E.taken err.new) (words.now ++ refusal_line number text.now)) }
    ensures err { OnErr result (TakesFront (E.taken err.old) (E.taken err.new) (words.now ++ refusal_line number text.now)) }
    ensures cause { HasCause (E.faults err.old) (E.faults err.new) result }
{
    let mut digits = Buffer::new();
    let number = digits.format(number).as_bytes();
    if let Err(failed) = write_all(err, words) {
        return Err(failed);
    }
    if let Err(failed) = write_all(err, number) {
        return Err(failed);
    }
    write_pieces(err, b" ", text.as_bytes(), b"\n")
}

// Writes at which place a deployment is refused, and why.
fn report_undeployed<E: Sink>(
    err: &mut E,
    place: u32,
    number: u32,
    text: &str,
) -> Result<(), Failed>
    ensures ok { OnOk result (Takes (E.taken err.old) (E.taken err.new) (codes "refused at " ++ (decimal place ++ (codes " " ++ refusal_line number text.now)))) }
    ensures err { OnErr result (TakesFront (E.taken err.old) (E.taken err.new) (codes "refused at " ++ (decimal place ++ (codes " " ++ refusal_line number text.now)))) }
    ensures cause { HasCause (E.faults err.old) (E.faults err.new) result }
{
    let mut digits = Buffer::new();
    let place = digits.format(place).as_bytes();
    if let Err(failed) = write_all(err, b"refused at ") {
        return Err(failed);
    }
    if let Err(failed) = write_all(err, place) {
        return Err(failed);
    }
    report_refusal(err, b" ", number, text)
}

// Writes the three pieces, one after the other.
fn write_pieces<O: Sink>(
    out: &mut O,
    first: &[u8],
    second: &[u8],
    third: &[u8],
) -> Result<(), Failed>
    ensures ok { OnOk result (Takes (O.taken out.old) (O.taken out.new) (first.now ++ (second.now ++ third.now))) }
    ensures err { OnErr result (TakesFront (O.taken out.old) (O.taken out.new) (first.now ++ (second.now ++ third.now))) }
    ensures cause { HasCause (O.faults out.old) (O.faults out.new) result }
{
    if let Err(failed) = write_all(out, first) {
        return Err(failed);
    }
    if let Err(failed) = write_all(out, second) {
        return Err(failed);
    }
    write_all(out, third)
}
