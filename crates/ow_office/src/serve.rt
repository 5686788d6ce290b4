// The command `serve`.
ghost use Rattle.std.specs.Prelude.{◌≡◌, false, is_some};
ghost use Rattle.ow_traits.specs.Prewarms.{AreWantsSized};
ghost use Rattle.ow_traits.specs.Streams.{Rose};
ghost use Rattle.ow_traits.specs.Telling.{Telling};
ghost use Rattle.ow_tenant.specs.Table.{IsPoolSized, Table};
ghost use Rattle.ow_command_line.specs.declared.command.ServeWords.{ServeWords as Words};
ghost use Rattle.ow_office.specs.Serve.{PassesOn};
ghost use Rattle.ow_office.specs.Sides.{SinkView, SourceView, sides, source};
ghost use Rattle.ow_office.specs.Table.{TellsTable};

use crate::table::{read_table, unread};
use ow_command_line::{ServeWords, Status};
use ow_traits::Source;
use std::alloc::Global;

/// A service, with the office table that its words name, or how the office ends where that isn't read. Nothing else is touched.
pub(crate) fn pass_on<T: Source>(alloc: Global, asked: ServeWords, table: &mut T) -> Status
    ensures told { (day : SourceView) (out : SinkView) (store : Telling) → TellsTable (PassesOn asked) (is_some asked.table)
        (sides (source T.left T.faults table.old) day out store) (sides (source T.left T.faults table.new) day out store) result }
    ensures own { (words : Words) (t : Table) → result ≡ Status.Passed words t → (words ≡ asked) × AreWantsSized t.wants × IsPoolSized t.pool }
    ensures read { result ≡ Status.ReadFault → Rose (T.faults table.old) (T.faults table.new) }
    ensures unnamed { is_some asked.table ≡ false → table.new ≡ table.old }
{
    match read_table(alloc, asked.table.is_some(), table) {
        Ok(tenants) => Status::Passed(asked, tenants),
        Err(refusal) => unread(refusal),
    }
}
