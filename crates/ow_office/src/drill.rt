// The command `drill`.
ghost use Rattle.std.specs.Prelude.{◌≡◌, ℕ, false};
ghost use Rattle.ow_traits.specs.Streams.{Rose};
ghost use Rattle.ow_day.specs.Carried.{IsOpeningFault};
ghost use Rattle.ow_office.specs.Day.{EndsDay};
ghost use Rattle.ow_office.specs.Drill.{DoesDrill};
ghost use Rattle.ow_office.specs.Sides.{SourceView, sides, sink, source};
ghost use Rattle.ow_office.specs.Table.{TellsTable};

use crate::table::{read_table, unread};
use ow_command_line::Status;
use ow_drill::run_drill;
use ow_traits::{Keeper, Sink, Source};
use std::alloc::Global;

/// The calls of a drill, and the number that their moments are made from.
#[derive(Clone, Copy)]
pub(crate) struct Numbers {
    pub n: u64,
    pub seed: u64,
}

/// Reads the office table, and makes the drill over it. The input isn't touched.
pub(crate) fn do_drill<T: Source, O: Sink, P: Keeper + Drop>(
    alloc: Global,
    numbers: Numbers,
    named: bool,
    table: &mut T,
    store: P,
    out: &mut O,
) -> (Status, P)
    ensures told { (day : SourceView) → TellsTable (DoesDrill numbers.n numbers.seed) named
        (sides (source T.left T.faults table.old) day (sink O.taken O.faults out.old) (P.telling store))
        (sides (source T.left T.faults table.new) day (sink O.taken O.faults out.new) (P.telling result.1)) result.0 }
    ensures ends { EndsDay result.0 }
    ensures read { result.0 ≡ Status.ReadFault → Rose (T.faults table.old) (T.faults table.new) × (result.1 ≡ store) × (out.new ≡ out.old) }
    ensures write { result.0 ≡ Status.WriteFault → Rose (O.faults out.old) (O.faults out.new) }
    ensures unbegun { IsOpeningFault result.0 → out.new ≡ out.old }
    ensures bad_table { (row : ℕ) → result.0 ≡ Status.BadTable row → (result.1 ≡ store) × (out.new ≡ out.old) }
    ensures unnamed { named ≡ false → table.new ≡ table.old }
{
    match read_table(alloc, named, table) {
        Ok(tenants) => run_drill(alloc, tenants, store, numbers.n, numbers.seed, out),
        Err(refusal) => (unread(refusal), store),
    }
}
