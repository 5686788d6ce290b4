// The command of the words.
ghost use Rattle.std.specs.Prelude.{◌≡◌, ◌≢◌, ◌∷◌, Some, None, Err, IfOk, map, option_and_then, option_map, string_bytes, true};
ghost use Rattle.ow_command_line.specs.Parse.{values_found};
ghost use Rattle.ow_command_line.specs.Words.{IsReading, alone, command_named, command_of, day_options, day_with, deploy_with, serve_options, serve_with, takes_options, values_of};

use crate::command::{Command, ServeWords, WordsRefusal};
use crate::drill::read_drill;
use crate::found::{connections_of, port_of, text_of, workers_of};
use crate::parse::find_options;
use crate::usage::read_usage;
use clap::ArgMatches;
use ow_value::NoMemory;
use std::alloc::Global;

/// The command that the words ask for, after the program's own name. They are `day`, `serve`, `usage`, `drill` or `deploy` with its
/// options after it, in any order, each at most once, or `--help` or `--version` alone. A day takes `--table` and `--store`, and so does a
/// deployment. A service takes these too, and three options of its own. It needs `--port`, a number of 16 bits; `--workers` is 1 to 64, and `--connections` a number of
/// 64 bits. Numbers are decimal digits, without a sign or a leading zero.
/// Usage needs `--from` and `--to`: days as 2026-12-01, from 1970-01-01 to 9999-12-31, the second no day before the first. It also takes
/// `--store`, and `--csv`, which has no value. A drill has two numbers, up to 1,000,000 and of 64 bits, anywhere among its options,
/// which are those of a day.
/// The value of an option comes after `=` in its word, or is the next word; it isn't empty, and begins with no `-`. Words that don't
/// begin with `day`, `serve`, `usage`, `drill` or `deploy` take no memory.
pub fn read_words(alloc: Global, words: &[String]) -> Result<Command, WordsRefusal>
    ensures command { IsReading (command_of (map string_bytes words.now)) result }
    ensures memory { result ≡ Err WordsRefusal.NoMemory → takes_options (map string_bytes words.now) ≡ true }
{
    let Some((word, behind)) = words.split_first() else {
        return Err(WordsRefusal::BadWords);
    };
    if word.as_str() == "day" {
        read_day(alloc, behind)
    } else if word.as_str() == "serve" {
        read_serve(alloc, behind)
    } else if word.as_str() == "usage" {
        read_usage(alloc, behind)
    } else if word.as_str() == "drill" {
        read_drill(alloc, behind)
    } else if word.as_str() == "deploy" {
        read_deploy(alloc, behind)
    } else {
        read_alone(word.as_str(), behind)
    }
}

// A command of one word.
fn read_alone(word: &str, behind: &[String]) -> Result<Command, WordsRefusal>
    ensures command { IsReading (alone (command_named word.now) (map string_bytes behind.now)) result }
    ensures memory { result ≢ Err WordsRefusal.NoMemory }
{
    if !behind.is_empty() {
        return Err(WordsRefusal::BadWords);
    }
    match word {
        "--help" => Ok(Command::Help),
        "--version" => Ok(Command::Version),
        _ => Err(WordsRefusal::BadWords),
    }
}

// A day, by the words after its name.
fn read_day(alloc: Global, words: &[String]) -> Result<Command, WordsRefusal>
    ensures { IsReading (option_map day_with (values_of day_options (map string_bytes words.now))) result }
{
    let found = find_options(alloc, &["table", "store"], words)?;
    Ok(day_with(alloc, &found)?)
}

// The day whose options were found.
fn day_with(alloc: Global, found: &ArgMatches<'_>) -> Result<Command, NoMemory>
    ensures { IfOk result (λ day. day ≡ day_with (values_found found.now)) }
{
    let table = text_of(alloc, found, "table")?;
    let store = text_of(alloc, found, "store")?;
    Ok(Command::Day { table, store })
}

// A deployment, by the words after its name.
fn read_deploy(alloc: Global, words: &[String]) -> Result<Command, WordsRefusal>
    ensures { IsReading (option_map deploy_with (values_of day_options (map string_bytes words.now))) result }
{
    let found = find_options(alloc, &["table", "store"], words)?;
    Ok(deploy_with(alloc, &found)?)
}

// The deployment whose options were found.
fn deploy_with(alloc: Global, found: &ArgMatches<'_>) -> Result<Command, NoMemory>
    ensures { IfOk result (λ deployment. deployment ≡ deploy_with (values_found found.now)) }
{
    let table = text_of(alloc, found, "table")?;
    let store = text_of(alloc, found, "store")?;
    Ok(Command::Deploy { table, store })
}

// A service, by the words after its name.
fn read_serve(alloc: Global, words: &[String]) -> Result<Command, WordsRefusal>
    ensures { IsReading (option_and_then serve_with (values_of serve_options (map string_bytes words.now))) result }
{
    let names = ["port", "workers", "connections", "table", "store"];
    let found = find_options(alloc, &names, words)?;
    serve_with(alloc, &found)
}

// The service whose options were found.
fn serve_with(alloc: Global, found: &ArgMatches<'_>) -> Result<Command, WordsRefusal>
    ensures { IsReading (serve_with (values_found found.now)) result }
{
    let (Some(port), Some(workers), Some(connections)) = (
        port_of(found),
        workers_of(found),
        connections_of(found),
    ) else {
        return Err(WordsRefusal::BadWords);
    };
    let table = text_of(alloc, found, "table")?;
    let store = text_of(alloc, found, "store")?;
    Ok(Command::Serve(ServeWords {
        port,
        workers,
        connections,
        table,
        store,
    }))
}
