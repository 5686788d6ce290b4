// The options of a command, as `clap` reads them.
ghost use Rattle.std.specs.Prelude.{◌≡◌, IfOk, map, string_bytes};
ghost use Rattle.clap.specs.Words.{app_of, kind_of};
ghost use Rattle.clap.specs.declared.error.kind.ErrorKind.TheVariants.{OutOfMemory};
ghost use Rattle.ow_command_line.specs.Parse.{AreFound, app_with};
ghost use Rattle.ow_command_line.specs.Words.{values_of};

use crate::command::WordsRefusal;
use crate::plain::has_values;
use clap::error::ErrorKind;
use clap::{Arg, ArgMatches, Command, Error};
use ow_value::NoMemory;
use std::alloc::Global;

/// What the words give to the options with these names. Each occurs at most once, with its value.
pub(crate) fn find_options<'a>(
    alloc: Global,
    names: &[&'a str],
    words: &'a [String],
) -> Result<ArgMatches<'a>, WordsRefusal>
    ensures { AreFound (values_of (map (λ name. name.now) names.now) (map string_bytes words.entry.now)) result }
{
    if !has_values(words) {
        return Err(WordsRefusal::BadWords);
    }
    let command = command_with(alloc, names)?;
    match command.try_get_matches_from(words) {
        Ok(found) => Ok(found),
        Err(e) => Err(refusal_of(&e)),
    }
}

// A command that takes the options with these names.
fn command_with<'a>(alloc: Global, names: &[&'a str]) -> Result<Command<'a>, NoMemory>
    ensures { IfOk result (λ command. app_of command ≡ app_with (map (λ name. name.now) names.now)) }
{
    let mut command = Command::new(alloc, "ow_whisk")
        .no_binary_name(true)
        .disable_help_flag(true);
    for name in names {
        command = command.arg(Arg::new(alloc, name).long(name))?;
    }
    Ok(command)
}

// Why the words weren't read.
fn refusal_of(e: &Error) -> WordsRefusal
    ensures { result ≡ WordsRefusal.BadWords → (kind_of e.now ≡ OutOfMemory → ⊥) }
{
    match e.kind() {
        ErrorKind::OutOfMemory => WordsRefusal::NoMemory,
        _ => WordsRefusal::BadWords,
    }
}
