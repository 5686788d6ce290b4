// The words of a command `usage`.
ghost use Rattle.std.specs.Prelude.{◌≡◌, ◌+◌, ◌++◌, ◌<◌, IfOk, IfSome, Some, OnOk, length, map, option_and_then, string_bytes, take, drop};
ghost use Rattle.std.specs.List.{position};
ghost use Rattle.ow_command_line.specs.Parse.{values_found};
ghost use Rattle.ow_command_line.specs.Words.{IsReading, day_of, is_csv, usage_at, usage_from, usage_of, usage_options, usage_with, values_of};

use crate::command::{Command, WordsRefusal};
use crate::days::day_in;
use crate::found::text_of;
use crate::parse::find_options;
use crate::plain::has_values;
use clap::ArgMatches;
use ow_value::NoMemory;
use std::alloc::Global;

/// A command `usage`, by the words after its name. `--csv` may occur once among the options.
pub(crate) fn read_usage(alloc: Global, words: &[String]) -> Result<Command, WordsRefusal>
    ensures { IsReading (usage_of (map string_bytes words.now)) result }
{
    if has_values(words) {
        return usage_from(alloc, words, false);
    }
    match csv_place(words) {
        None => usage_from(alloc, words, false),
        Some(place) => read_around(alloc, words, place),
    }
}

// The same, where the word at this place is the first `--csv`.
fn read_around(alloc: Global, words: &[String], place: usize) -> Result<Command, WordsRefusal>
    requires { place < length words.now }
    ensures { IsReading (usage_at (Some place) (map string_bytes words.now)) result }
{
    if !has_values(&words[..place]) {
        return Err(WordsRefusal::BadWords);
    }
    let rest = without(alloc, words, place)?;
    usage_from(alloc, rest.as_slice(), true)
}

// At which place the first `--csv` is.
fn csv_place(words: &[String]) -> Option<usize>
    ensures value { result ≡ position (λ word. is_csv (string_bytes word)) words.now }
    ensures within { IfSome result (λ place. place < length words.now) }
{
    words.iter().position(|word| word.as_str() == "--csv")
}

// The words except the one at this place.
fn without(alloc: Global, words: &[String], place: usize) -> Result<Vec<String>, NoMemory>
    requires { place < length words.now }
    ensures { IfOk result (λ rest. map string_bytes rest.items ≡ map string_bytes (take place words.now) ++ map string_bytes (drop (place + 1) words.now)) }
{
    let mut rest = Vec::new(alloc);
    push_all(&mut rest, &words[..place])?;
    push_all(&mut rest, &words[place + 1..])?;
    Ok(rest)
}

fn push_all(rest: &mut Vec<String>, words: &[String]) -> Result<(), NoMemory>
    ensures { OnOk result (map string_bytes rest.new.items ≡ map string_bytes rest.old.items ++ map string_bytes words.now) }
{
    for word in words {
        let copied = word.clone()?;
        rest.push(copied)?;
    }
    Ok(())
}

// Usage, by words that are options with values.
fn usage_from(alloc: Global, words: &[String], csv: bool) -> Result<Command, WordsRefusal>
    ensures { IsReading (usage_from csv (map string_bytes words.now)) result }
{
    let found = find_options(alloc, &["from", "to", "store"], words)?;
    usage_with(alloc, &found, csv)
}

// The usage whose options were found.
fn usage_with(alloc: Global, found: &ArgMatches<'_>, csv: bool) -> Result<Command, WordsRefusal>
    ensures { IsReading (usage_with csv (values_found found.now)) result }
{
    let (Some(from), Some(to)) = (day_of(found, "from"), day_of(found, "to")) else {
        return Err(WordsRefusal::BadWords);
    };
    if to < from {
        return Err(WordsRefusal::BadWords);
    }
    let store = text_of(alloc, found, "store")?;
    Ok(Command::Usage {
        from,
        to,
        csv,
        store,
    })
}

// The day of the option of this name, where it was found and is one.
fn day_of(found: &ArgMatches<'_>, name: &str) -> Option<u32>
    ensures { result ≡ day_of (values_found found.now name.now) }
{
    match found.get_str(name) {
        Some(text) => day_in(text.as_bytes()),
        None => None,
    }
}
