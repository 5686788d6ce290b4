// The words of a command `drill`.
ghost use Rattle.std.specs.Prelude.{◌≡◌, ◌∷◌, ◌++◌, [], IfOk, OnOk, if◌then◌else◌, map, string_bytes, false};
ghost use Rattle.clap.specs.Lexer.{long_of};
ghost use Rattle.ow_value.specs.Decimal.{decimal_of, number_within};
ghost use Rattle.ow_command_line.specs.Parse.{values_found};
ghost use Rattle.ow_command_line.specs.Words.{IsReading, drill_by, drill_of, drill_with, is_open, is_plain, leaves_open, option_words, plain_words};

use crate::command::{Command, WordsRefusal};
use crate::found::{number_within, text_of};
use crate::option_word::option_in;
use crate::parse::find_options;
use clap::ArgMatches;
use ow_value::{NoMemory, decimal_of};
use std::alloc::Global;

/// The most calls of a drill.
const MOST_CALLS: u32 = 1_000_000;

// Words, of which the plain ones are apart from the options and their values.
#[derive(Drop)]
struct Parted {
    plain: Vec<String>,
    options: Vec<String>,
}

impl Parted {
    // Puts a word last among its own kind.
    fn put(&mut self, word: String, is_plain: bool) -> Result<(), NoMemory>
        ensures plain { OnOk result (map string_bytes self.new.plain.items ≡ (if is_plain then map string_bytes self.old.plain.items ++ string_bytes word ∷ [] else map string_bytes self.old.plain.items)) }
        ensures options { OnOk result (map string_bytes self.new.options.items ≡ (if is_plain then map string_bytes self.old.options.items else map string_bytes self.old.options.items ++ string_bytes word ∷ [])) }
    {
        if is_plain {
            self.plain.push(word)?;
        } else {
            self.options.push(word)?;
        }
        Ok(())
    }
}

/// A command `drill`, by the words after its name. The two numbers may be anywhere among the options.
pub(crate) fn read_drill(alloc: Global, words: &[String]) -> Result<Command, WordsRefusal>
    ensures { IsReading (drill_of (map string_bytes words.now)) result }
{
    let parted = part(alloc, words)?;
    drill_by(alloc, &parted.plain, &parted.options)
}

// The same by the plain words and the options.
fn drill_by(alloc: Global, plain: &[String], options: &[String]) -> Result<Command, WordsRefusal>
    ensures { IsReading (drill_by (map string_bytes plain.now) (map string_bytes options.now)) result }
{
    let [n, seed] = plain else {
        return Err(WordsRefusal::BadWords);
    };
    let found = find_options(alloc, &["table", "store"], options)?;
    drill_with(alloc, n.as_str(), seed.as_str(), &found)
}

// The drill of these two numbers, whose options were found.
fn drill_with(
    alloc: Global,
    n: &str,
    seed: &str,
    found: &ArgMatches<'_>,
) -> Result<Command, WordsRefusal>
    ensures { IsReading (drill_with (number_within 0 MOST_CALLS n.now) (decimal_of seed.now) (values_found found.now)) result }
{
    let (Some(n), Some(seed)) = (number_within(0, MOST_CALLS, n), decimal_of(seed.as_bytes()))
    else {
        return Err(WordsRefusal::BadWords);
    };
    let table = text_of(alloc, found, "table")?;
    let store = text_of(alloc, found, "store")?;
    Ok(Command::Drill {
        n: u64::from(n),
        seed,
        table,
        store,
    })
}

// Parts the plain words from the options and their values.
fn part(alloc: Global, words: &[String]) -> Result<Parted, NoMemory>
    ensures plain { IfOk result (λ parted. map string_bytes parted.plain.items ≡ plain_words (map string_bytes words.now) false) }
    ensures options { IfOk result (λ parted. map string_bytes parted.options.items ≡ option_words (map string_bytes words.now) false) }
{
    let mut parted = Parted {
        plain: Vec::new(alloc),
        options: Vec::new(alloc),
    };
    let mut waits = false;
    for word in words {
        let plain = is_plain(word.as_str(), waits);
        let copied = word.clone()?;
        parted.put(copied, plain)?;
        waits = leaves_open(word.as_str(), waits);
    }
    Ok(parted)
}

// The word is neither an option nor the value of one.
fn is_plain(word: &str, waits: bool) -> bool
    ensures { result ≡ is_plain word.now waits }
{
    !waits && option_in(word).is_none()
}

// The word is an option whose value is the next word.
fn leaves_open(word: &str, waits: bool) -> bool
    ensures { result ≡ leaves_open word.now waits }
{
    !waits && is_open(word)
}

fn is_open(word: &str) -> bool
    ensures { result ≡ is_open (long_of word.now) }
{
    match option_in(word) {
        Some((_, value)) => value.is_none(),
        None => false,
    }
}
