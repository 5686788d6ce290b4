// The command `day`.
ghost use Rattle.std.specs.Prelude.{◌≡◌, ◌⊎◌, ℕ, false};
ghost use Rattle.ow_traits.specs.Streams.{Rose};
ghost use Rattle.ow_day.specs.Carried.{IsOpeningFault};
ghost use Rattle.ow_office.specs.Day.{DoesDay, EndsDay};
ghost use Rattle.ow_office.specs.Sides.{sides, sink, source};
ghost use Rattle.ow_office.specs.Table.{TellsTable};

use crate::table::{read_table, unread};
use ow_command_line::Status;
use ow_day::run_day;
use ow_traits::{Keeper, Sink, Source};
use std::alloc::Global;

/// Reads the office table, and carries out the day over it.
pub(crate) fn do_day<T: Source, S: Source, O: Sink, P: Keeper + Drop>(
    alloc: Global,
    named: bool,
    table: &mut T,
    store: P,
    day: &mut S,
    out: &mut O,
) -> (Status, P)
    ensures told { TellsTable DoesDay named
        (sides (source T.left T.faults table.old) (source S.left S.faults day.old) (sink O.taken O.faults out.old) (P.telling store))
        (sides (source T.left T.faults table.new) (source S.left S.faults day.new) (sink O.taken O.faults out.new) (P.telling result.1)) result.0 }
    ensures ends { EndsDay result.0 }
    ensures read { result.0 ≡ Status.ReadFault → Rose (S.faults day.old) (S.faults day.new) ⊎ (Rose (T.faults table.old) (T.faults table.new) × (result.1 ≡ store) × (day.new ≡ day.old) × (out.new ≡ out.old)) }
    ensures write { result.0 ≡ Status.WriteFault → Rose (O.faults out.old) (O.faults out.new) }
    ensures unbegun { IsOpeningFault result.0 → (day.new ≡ day.old) × (out.new ≡ out.old) }
    ensures bad_table { (row : ℕ) → result.0 ≡ Status.BadTable row → (result.1 ≡ store) × (day.new ≡ day.old) × (out.new ≡ out.old) }
    ensures unnamed { named ≡ false → table.new ≡ table.old }
{
    match read_table(alloc, named, table) {
        Ok(tenants) => run_day(alloc, tenants, store, day, out),
        Err(refusal) => (unread(refusal), store),
    }
}
