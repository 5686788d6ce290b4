// The command line.
ghost use Rattle.std.specs.Prelude.{◌≡◌, Err, MatchResult, Some, None, map, option_map, string_bytes, true};
ghost use Rattle.ow_command_line.specs.Words.{command_of, takes_options};
ghost use Rattle.ow_command_line.specs.declared.command.WordsRefusal.TheVariants as refusals;
ghost use Rattle.ow_office.specs.Words.{asked_of};

use ow_command_line::{Command, ServeWords, WordsRefusal, read_words};
use std::alloc::Global;

/// What the office is asked to do.
#[derive(Drop)]
pub enum Asked {
    /// Carry out the statements of a day, over an office table or none.
    Day { has_table: bool },
    /// Pass a service on.
    Serve(ServeWords),
    /// Write what the records of these days count for, counted from 1970-01-01, perhaps as comma-separated values.
    Usage { from: u32, to: u32, csv: bool },
    /// Make `n` calls by a seed, over an office table or none.
    Drill { n: u64, seed: u64, has_table: bool },
    /// Put the entities of a manifest, over an office table or none.
    Deploy { has_table: bool },
    /// Print how the program is used.
    Help,
    /// Print the program's version.
    Version,
}

/// What `--help` writes.
pub const HELP: &[u8] = b"ow_whisk: a function service after Apache OpenWhisk

usage: ow_whisk day < FILE
           carries out the statements of a day, and writes each answer
       ow_whisk day --table TABLE --store STORE < FILE
           does so over the office table in the file TABLE, and the store in the file STORE. Either
           may be left out, they may be in any order, and also in one word, as --table=TABLE
       ow_whisk serve --port PORT
           answers HTTP requests that come to PORT, 0 to 65535; for 0 the system chooses one. Other
           words may follow, in any order: --workers W, how many runs are carried out at once, 1 to
           64, and 4 without it; --connections N, after which it stops listening; --table TABLE and
           --store STORE
       ow_whisk usage --from DAY --to DAY
           writes what the records in a store count for, by the day of their start and by namespace.
           A DAY is 1970-01-01 to 9999-12-31. Other words may follow, in any order: --csv, for
           comma-separated values, and --store STORE
       ow_whisk drill N SEED
           makes N calls of /whisk.system/utils/echo, at most 1000000, at moments made from SEED, a
           number of 64 bits, and after each accepted one a turn, and writes how many calls were
           accepted, refused and recorded. --table TABLE and --store STORE may be anywhere after drill
       ow_whisk deploy --table TABLE --store STORE < FILE
           puts the entities of a manifest, all or none, and writes how many it made, how many it
           changed, and how many were the same. Either file may be left out, as for a day
       ow_whisk --help
           writes this text
       ow_whisk --version
           writes the version

The office table is CSV without a header: the namespaces with their limits, the keys of requests, and
what each may do. Each row has six fields; those that have no name here are empty. Without a table no
request has a known key, and only actions of whisk.system can be called.

  namespace,NUMBER,NAME,PERMINUTE,CONCURRENT,FIRES
                     a namespace, its number from 1, how many activations it may start in a minute,
                     how many may be under way at once, and how many triggers may be fired in a
                     minute: 120, 100 and 60 where these are empty
  key,KEY,SUBJECT,NAMESPACE,,
                     requests whose header X-Whisk-Key has KEY are that subject's, and may do all in
                     the namespace
  grant,KEY,NAMESPACE,RIGHT,,
                     they may also read, write or invoke in this one
  pool,MB,,,,        the memory of all containers, 512 to 65536 MB, and 2048 where no row tells it
  prewarm,KIND,MB,COUNT,,
                     so many containers of the kind plain:1 or program:1 are started ahead
  program,NAME,PATH,,,
                     a program that actions of the kind program:1 may name, which serve runs
  retain,DAYS,,,,    a sweep archives the records of what ended so many days before, 1 to 3650: they
                     are not shown any more. Without this row nothing is archived

The store keeps entities, activations and their counts from one day or service to the next. Without a
store they end with it. What had not ended when one begins is recorded with code 3.

A manifest is TOML of at most 4194304 bytes: a text namespace, and the tables packages, actions, triggers
and rules. In each a name, which is NAME or PACKAGE/NAME for an action, has what the body of a PUT has.

A day has one statement a line, of at most 8388608 bytes. Its words are parted by one space, its
numbers are decimal without leading zeros. NAME is an action's full name, percent-encoded, as
/guest/hello, or /whisk.system/utils/echo, which is built in. TEXT is the rest of the line: a JSON
object with whole numbers of 64 bits, nested at most 100 deep. An ID has 32 hexadecimal digits. A
container stands in a SLOT, and GEN is its generation there, from 1: both are numbers of 32 bits.
Below each statement stand the forms of its answer.

  at MOMENT          sets the moment, in milliseconds, at most 253402300799999; it is 0 at first
         no answer
  ask N              is an HTTP request: N bytes, at most 8388608, follow the line, and a newline.
                     Its key stands in the header X-Whisk-Key
         reply M               on the lines behind it its M bytes, and a newline
         waiting ID            the request waits for this activation: see collect
  call NAME TEXT     calls an action with this object
         accepted ID           it waits; a sequence or a conductor has also the lines of
                               what it does next: see answer
         refused NUMBER WHY    it was not accepted
  next               asks what is to be done
         run RUN ID slot SLOT gen GEN START
                               RUN is its number, from 1. START is warm where its
                               container ran the action before, prewarmed where it
                               was started ahead, and cold where it is to be started
         prewarm RUN slot SLOT gen GEN KIND MEMORY
                               a container is to be started ahead
         remove SLOT:GEN ..    these containers, one to four, are to go
         nothing empty         nothing waits
         nothing no room       what waits needs memory or a slot that isn't free
  turn               asks what is to be done, and does it: a run is replied to, and its container
                     is kept for later turns
         as below next, and behind it
         recorded ID CODE      as below answer
         lost RUN              as if that were told: its container isn't there
         gone SLOT GEN         as if that were told
  begun RUN          tells that the container of that run is up, and initialised
         ok                    it was awaited
         refused 29 WHY        no such run awaits it
  answer RUN TEXT    is a runner's answer to that run, of at most 1048576 bytes
         recorded ID CODE      0 success, 1 it has the name error, 2 no such object
         accepted ID, recorded ID CODE
                               what a sequence or a conductor does next, a line for each:
                               its next component waits, or it has ended
         late RUN MOMENT       a sweep ended what it carries, at that moment
         refused 29 WHY        no such run is under way
  logged RUN K TEXT  is such an answer with logs: K lines follow, of at most 8388608 bytes each
         recorded, late or refused, as below answer
  exit RUN CODE      tells that the run's program ended with this status, up to 255, and no answer
         recorded ID 2         or late or refused, as below answer
  nostart RUN TEXT   tells why what was to run did not start
         recorded ID 3         or late or refused, as below answer
  fault RUN          tells that the run's runner failed
         recorded ID 3         or late or refused, as below answer
  lost RUN           tells that no reply to that run will come; what it carries waits again
         ok                    a slot had it
         refused 29 WHY        none has such a run
  gone SLOT GEN      tells that this container is gone
         ok                    its slot is free, once its run is replied to or lost
         refused 28 WHY        the slot has no container of that generation to go
  sweep              ends what has run longer than its time limit
         recorded ID 2         for each, with the lines of what a sequence or a conductor
                               does next
         swept N               behind these: there were N that ran too long
  collect ID         is how a request that waits for this activation is answered by now
         reply M               as below ask
         not yet               it has not ended, and its request still waits
         refused 14 WHY        no request waits for it
  drain              takes no more invocations from now on
         drained N             all N that were accepted have ended, with components
         open N                N have not ended
  reopen             begins anew over what is kept: no container or run of before is there
         recorded ID 3         for each that had not ended
         reopened              behind these
  end                ends the day; what follows is not acted on
         no answer

Where the store fails, nothing is done, and a statement that would have changed what it keeps is answered
  store fault        below turn, behind its order; an ask and a call are refused instead

exit status, and its line on standard error, where a service writes none at 5 and 9:
  0  none            all was carried out, or the service has closed
  1  bad day at N    what stands at the Nth place is no statement; an ask and its bytes are one,
                     as are a logged and its lines
  2  bad words       the command line is none of those above
  3  read fault      the office table, the day or the manifest could not be read on
  4  write fault     an answer could not be written
  5  store fault     the store could not be opened
  6  bad table at N  row N of the office table, empty lines not counted, breaks a rule; 0: it has more
                     than 4194304 bytes
  7  no memory       memory was wanted
  8  day too long    it has more than 1073741824 bytes
  9  bad kept row K  the store has a row with the key K that is not allowed there
 10  none            the port could not be listened on, or no connection accepted any more
 11  none            a worker, the sweeper or the reaper had no thread
 12  none            what was noted of the service is not what its book has
 13  bad manifest N WHY
                     the manifest is refused
 14  refused at P N WHY
                     what it asks for is refused: its entity at place P, or at 0 the whole
";

/// What `--version` writes.
pub const VERSION: &[u8] = b"ow_whisk 0.1.0\n";

/// What the words ask the office to do.
pub(crate) fn read_asked(alloc: Global, words: &[String]) -> Result<Asked, WordsRefusal>
    ensures asked { MatchResult result (λ asked. option_map asked_of (command_of (map string_bytes words.now)) ≡ Some asked) (λ e. e ≡ refusals.BadWords → command_of (map string_bytes words.now) ≡ None) }
    ensures memory { result ≡ Err refusals.NoMemory → takes_options (map string_bytes words.now) ≡ true }
{
    match read_words(alloc, words)? {
        Command::Day { table, .. } => Ok(Asked::Day {
            has_table: table.is_some(),
        }),
        Command::Serve(words) => Ok(Asked::Serve(words)),
        Command::Usage { from, to, csv, .. } => Ok(Asked::Usage { from, to, csv }),
        Command::Drill { n, seed, table, .. } => Ok(Asked::Drill {
            n,
            seed,
            has_table: table.is_some(),
        }),
        Command::Deploy { table, .. } => Ok(Asked::Deploy {
            has_table: table.is_some(),
        }),
        Command::Help => Ok(Asked::Help),
        Command::Version => Ok(Asked::Version),
    }
}
