// The top call: what the words of the command line ask for, over what lies outside.
ghost use Rattle.std.specs.Prelude.{◌≡◌, ◌⊎◌, ℕ, List, Some, None, IfSome, IsSome, false, map, string_bytes, true};
ghost use Rattle.ow_traits.specs.Streams.{Rose, Takes, TakesFront};
ghost use Rattle.ow_traits.specs.Prewarms.{AreWantsSized};
ghost use Rattle.ow_tenant.specs.Table.{IsPoolSized, Table};
ghost use Rattle.ow_hall.specs.Beginnings.{KeepsEach, KeepsLimits, KeepsSteps};
ghost use Rattle.ow_hall.specs.History.{History, IsLegal};
ghost use Rattle.ow_isolation.specs.Beginnings.{ReadsAreIsolated};
ghost use Rattle.ow_isolation.specs.Lists.{LogsAnswerAlike};
ghost use Rattle.ow_command_line.specs.Status.{IsPassed, err_text};
ghost use Rattle.ow_command_line.specs.Words.{command_of, takes_options};
ghost use Rattle.ow_command_line.specs.declared.command.Command.TheVariants as commands;
ghost use Rattle.ow_command_line.specs.declared.command.ServeWords.{ServeWords as Words};
ghost use Rattle.ow_day.specs.Carried.{HasLegalBooks, IsOpeningFault};
ghost use Rattle.ow_office.specs.Words.{asked_by, names_table, opens_store, reads_input, unread_words, writes_output};
ghost use Rattle.ow_office.specs.Sides.{sides, sink, source};
ghost use Rattle.ow_office.specs.Office.{TellsCommand};

use crate::day::do_day;
use crate::deploy::do_deploy;
use crate::drill::{Numbers, do_drill};
use crate::serve::pass_on;
use crate::text::write_text;
use crate::usage::do_usage;
use crate::words::{Asked, HELP, VERSION, read_asked};
use ow_command_line::{Status, WordsRefusal, report};
use ow_isolation::laws::{legal_books_isolate_reads, logs_answer_alike};
use ow_traits::{Keeper, Sink, Source};
use std::alloc::Global;

/// Does what the words say. For `day` it reads the office table that they name, opens the service over it and the store, carries
/// out the statements of the day as they come, and writes their answers. Each answer is written before more of the day is read,
/// or once a megabyte is ready; a clause says so of days whose read fails. The words are looked at first, then the table, then the
/// store. Where the words name no table, the table has no rows and `table` isn't touched. Of a named table at most one byte more is
/// read than a table may have. For `serve` it reads the words and the table alone, and passes both on: the caller serves. For `usage`
/// it reads the store alone. For `drill` it opens the service as for `day`, makes calls of its own, and doesn't touch the day. For
/// `deploy` it opens the service as for `day`, reads a manifest in place of the day, and puts its drafts. The store is handed back in each
/// case.
pub fn office<T: Source, S: Source, O: Sink, E: Sink, P: Keeper + Drop>(
    alloc: Global,
    words: &[String],
    table: &mut T,
    day: &mut S,
    out: &mut O,
    err: &mut E,
    store: P,
) -> (Status, Option<P>)
    // What was read, written and kept, by the command and the status.
    ensures back { IsSome result.1 }
    ensures told { IfSome result.1 (λ back. TellsCommand HELP.now VERSION.now
        (asked_by (map string_bytes words.now))
        (sides (source T.left T.faults table.old) (source S.left S.faults day.old)
        (sink O.taken O.faults out.old) (P.telling store))
        (sides (source T.left T.faults table.new) (source S.left S.faults day.new)
        (sink O.taken O.faults out.new) (P.telling back)) result.0) }

    // Each activation, that no acceptance passes the limits of its namespace, what sequences and conductors do, and that reads are
    // answered of what their keys may see, by every legal book and each of its beginnings; and the books of days are legal.
    ensures kept { (t : Table) (B : History) → IsLegal t B → KeepsEach t B }
    ensures limits { (t : Table) (B : History) → IsLegal t B → KeepsLimits t B }
    ensures steps { (t : Table) (B : History) → IsLegal t B → KeepsSteps t B }
    ensures reads { (t : Table) (B : History) → IsLegal t B → ReadsAreIsolated t B }
    ensures alike { LogsAnswerAlike }
    ensures legal { (t : Table) (bytes : List ℕ) → HasLegalBooks t bytes }

    // What was written of the end.
    ensures quiet { result.0 ≡ Status.Ok → err.new ≡ err.old }
    ensures line { TakesFront (E.taken err.old) (E.taken err.new) (err_text result.0) }
    ensures whole_line { (Rose (E.faults err.old) (E.faults err.new) → ⊥)
        → Takes (E.taken err.old) (E.taken err.new) (err_text result.0) }
    ensures passed_quiet { IsPassed result.0 → err.new ≡ err.old }

    // When the statuses come that several commands have.
    ensures words { result.0 ≡ Status.BadWords → command_of (map string_bytes words.now) ≡ None }
    ensures refused { command_of (map string_bytes words.now) ≡ None
        → (result.0 ≡ Status.BadWords)
        ⊎ ((result.0 ≡ Status.NoMemory) × (takes_options (map string_bytes words.now) ≡ true)) }
    ensures read { result.0 ≡ Status.ReadFault → Rose (S.faults day.old) (S.faults day.new)
        ⊎ (Rose (T.faults table.old) (T.faults table.new)
        × (result.1 ≡ Some store) × (day.new ≡ day.old) × (out.new ≡ out.old)) }
    ensures write { result.0 ≡ Status.WriteFault → Rose (O.faults out.old) (O.faults out.new) }
    ensures passed { (asked : Words) (t : Table) → result.0 ≡ Status.Passed asked t
        → (command_of (map string_bytes words.now) ≡ Some (commands.Serve asked))
        × AreWantsSized t.wants × IsPoolSized t.pool }

    // What isn't touched.
    ensures unbegun { IsOpeningFault result.0 → (day.new ≡ day.old) × (out.new ≡ out.old) }
    ensures bad_table { (row : ℕ) → result.0 ≡ Status.BadTable row
        → (result.1 ≡ Some store) × (day.new ≡ day.old) × (out.new ≡ out.old) }
    ensures untouched { opens_store (asked_by (map string_bytes words.now)) ≡ false
        → result.1 ≡ Some store }
    ensures idle { reads_input (asked_by (map string_bytes words.now)) ≡ false → day.new ≡ day.old }
    ensures silent { writes_output (asked_by (map string_bytes words.now)) ≡ false
        → out.new ≡ out.old }
    ensures unnamed { names_table (asked_by (map string_bytes words.now)) ≡ false
        → table.new ≡ table.old }
{
    legal_books_isolate_reads();
    logs_answer_alike();
    let (status, store) = perform(alloc, words, table, store, day, out);
    let _ = report(&status, err);
    (status, Some(store))
}

// Does what the words say, except for the line on standard error.
fn perform<T: Source, S: Source, O: Sink, P: Keeper + Drop>(
    alloc: Global,
    words: &[String],
    table: &mut T,
    store: P,
    day: &mut S,
    out: &mut O,
) -> (Status, P)
    ensures told { TellsCommand HELP.now VERSION.now (asked_by (map string_bytes words.now))
        (sides (source T.left T.faults table.old) (source S.left S.faults day.old)
        (sink O.taken O.faults out.old) (P.telling store))
        (sides (source T.left T.faults table.new) (source S.left S.faults day.new)
        (sink O.taken O.faults out.new) (P.telling result.1)) result.0 }
    ensures words { result.0 ≡ Status.BadWords → command_of (map string_bytes words.now) ≡ None }
    ensures refused { command_of (map string_bytes words.now) ≡ None
        → (result.0 ≡ Status.BadWords)
        ⊎ ((result.0 ≡ Status.NoMemory) × (takes_options (map string_bytes words.now) ≡ true)) }
    ensures read { result.0 ≡ Status.ReadFault → Rose (S.faults day.old) (S.faults day.new)
        ⊎ (Rose (T.faults table.old) (T.faults table.new)
        × (result.1 ≡ store) × (day.new ≡ day.old) × (out.new ≡ out.old)) }
    ensures write { result.0 ≡ Status.WriteFault → Rose (O.faults out.old) (O.faults out.new) }
    ensures passed { (asked : Words) (t : Table) → result.0 ≡ Status.Passed asked t
        → (command_of (map string_bytes words.now) ≡ Some (commands.Serve asked))
        × AreWantsSized t.wants × IsPoolSized t.pool }
    ensures unbegun { IsOpeningFault result.0 → (day.new ≡ day.old) × (out.new ≡ out.old) }
    ensures bad_table { (row : ℕ) → result.0 ≡ Status.BadTable row
        → (result.1 ≡ store) × (day.new ≡ day.old) × (out.new ≡ out.old) }
    ensures untouched { opens_store (asked_by (map string_bytes words.now)) ≡ false
        → result.1 ≡ store }
    ensures idle { reads_input (asked_by (map string_bytes words.now)) ≡ false → day.new ≡ day.old }
    ensures silent { writes_output (asked_by (map string_bytes words.now)) ≡ false
        → out.new ≡ out.old }
    ensures unnamed { names_table (asked_by (map string_bytes words.now)) ≡ false
        → table.new ≡ table.old }
{
    match read_asked(alloc, words) {
        Ok(Asked::Day { has_table }) => do_day(alloc, has_table, table, store, day, out),
        Ok(Asked::Serve(asked)) => (pass_on(alloc, asked, table), store),
        Ok(Asked::Usage { from, to, csv }) => do_usage(alloc, from, to, csv, store, out),
        Ok(Asked::Drill { n, seed, has_table }) => {
            do_drill(alloc, Numbers { n, seed }, has_table, table, store, out)
        }
        Ok(Asked::Deploy { has_table }) => do_deploy(alloc, has_table, table, store, day, out),
        Ok(Asked::Help) => (write_text(out, HELP), store),
        Ok(Asked::Version) => (write_text(out, VERSION), store),
        Err(refusal) => (unread_words(refusal), store),
    }
}

// How the office ends where its words aren't read.
fn unread_words(refusal: WordsRefusal) -> Status
    ensures { result ≡ unread_words refusal }
{
    match refusal {
        WordsRefusal::BadWords => Status::BadWords,
        WordsRefusal::NoMemory => Status::NoMemory,
    }
}
