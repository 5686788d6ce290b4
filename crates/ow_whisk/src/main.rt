#![tactic(auto)]

//! The program: the words of the command line, standard input, output and error, sockets, the store, and the exit status.

mod serving;
mod unkept;

ghost use Rattle.std.specs.Prelude.{◌≡◌};
ghost use Rattle.std.specs.Process.{exit_status};
ghost use Rattle.ow_command_line.specs.Status.{status_number};
ghost use Rattle.ow_whisk.specs.Served.{IsSized};

use crate::serving::{System, served};
use crate::unkept::Unkept;
use ow_command_line::{Command, ServeWords, Status, WordsRefusal, read_words, report};
use ow_office::office;
use ow_sqlite::FileKeeper;
use ow_traits::{Keeper, MemorySource, ReaderSource, Source, WriterSink};
use ow_value::{NoMemory, Str};
use std::alloc::Global;
use std::fs::File;
use std::net::{Net, TcpListener, TcpStream};
use std::process::{ExitCode, Processes, SystemProcess};
use std::{env, io};

// The words of the command line, or how the office ends without them. A word that isn't UTF-8 is in no
// command.
fn words_of(rt: &HostRuntime) -> Result<Vec<String>, Status> {
    match env::args(rt) {
        Ok(words) => match words.skip(1).collect(rt.alloc()) {
            Ok(words) => Ok(words),
            Err(_) => Err(Status::NoMemory),
        },
        Err(e) => match e.kind() {
            io::ErrorKind::OutOfMemory => Err(Status::NoMemory),
            _ => Err(Status::BadWords),
        },
    }
}

// The exit status of the program.
fn code_of(status: &Status) -> ExitCode
    ensures { exit_status result ≡ status_number status.now }
{
    ExitCode::from(status.number())
}

// Does what the words say, over the standard streams, the source of a table, and a store, which is handed back.
fn run<T: Source + Drop, P: Keeper + Drop>(
    rt: &HostRuntime,
    words: &[String],
    mut table: T,
    store: P,
) -> (Status, Option<P>)
    ensures { IsSized result.0 }
{
    let alloc = rt.alloc();
    let mut day = ReaderSource::new(rt.stdin());
    let mut out = WriterSink::new(rt.stdout());
    let mut err = WriterSink::new(rt.stderr());
    office(
        alloc, words, &mut table, &mut day, &mut out, &mut err, store,
    )
}

// The same over the table in the file that was named, or else over none. Where the file can't be opened, the first read of it fails.
fn run_over<P: Keeper + Drop>(
    rt: &HostRuntime,
    words: &[String],
    table: Option<&Str>,
    store: P,
) -> (Status, Option<P>)
    ensures { IsSized result.0 }
{
    let Some(name) = table else {
        return run(rt, words, ReaderSource::new(io::empty()), store);
    };
    match File::open(rt, name.as_str()) {
        Ok(file) => run(rt, words, ReaderSource::new(file), store),
        Err(_) => match vec![in rt.alloc(); 0] {
            Ok(failing) => {
                let table = MemorySource::new(Vec::new(rt.alloc()), failing);
                run(rt, words, table, store)
            }
            Err(_) => (told(rt, Status::NoMemory), Some(store)),
        },
    }
}

// A status that is reported before the office is called.
fn told(rt: &HostRuntime, status: Status) -> Status
    ensures { result ≡ status }
{
    let _ = report(&status, &mut WriterSink::new(rt.stderr()));
    status
}

// The files of the table and of the store that the words name. Words that name none are read by the office again, which says what
// they are. Where there is no memory to read the words, that is the answer, since they may name a store.
fn named(alloc: Global, words: &[String]) -> Result<(Option<Str>, Option<Str>), NoMemory> {
    match read_words(alloc, words) {
        Ok(Command::Day { table, store }) => Ok((table, store)),
        Ok(Command::Serve(ServeWords { table, store, .. })) => Ok((table, store)),
        Ok(Command::Usage { store, .. }) => Ok((None, store)),
        Ok(Command::Drill { table, store, .. }) => Ok((table, store)),
        Ok(Command::Deploy { table, store }) => Ok((table, store)),
        Err(WordsRefusal::NoMemory) => Err(NoMemory),
        _ => Ok((None, None)),
    }
}

// Serves what the office passed on, and returns how the program ends. The store is handed back, where it was available.
fn ended<
    H: System
        + Net<Listener = TcpListener, Stream = TcpStream>
        + Processes<Started = SystemProcess>,
    P: Keeper + Drop + Send + 'static,
>(rt: &H, status: Status, store: Option<P>) -> (ExitCode, Option<P>)
    requires { IsSized status }
{
    match (status, store) {
        (Status::Passed(words, tenants), Some(store)) => served(rt, words, tenants, store),
        (status, store) => (code_of(&status), store),
    }
}

// Copies the log of a file into it. Where that fails, the log stays beside the file, and the next open reads it.
fn close(store: Option<FileKeeper>) {
    if let Some(store) = store {
        let _ = store.close();
    }
}

// Opens what the words name, and ends with the number of the office's status, or of the service's end. Where the file of a store can't
// be opened, each call of its keeper fails.
fn main(rt: HostRuntime) -> ExitCode {
    let words = match words_of(&rt) {
        Ok(words) => words,
        Err(status) => return code_of(&told(&rt, status)),
    };
    let Ok((table, store)) = named(rt.alloc(), &words) else {
        return code_of(&told(&rt, Status::NoMemory));
    };
    match store {
        Some(name) => {
            let keeper = FileKeeper::open(&rt, name.as_str());
            let (status, store) = run_over(&rt, &words, table.as_ref(), keeper);
            let (code, store) = ended(&rt, status, store);
            close(store);
            code
        }
        None => {
            let (status, store) = run_over(&rt, &words, table.as_ref(), Unkept::new());
            ended(&rt, status, store).0
        }
    }
}
