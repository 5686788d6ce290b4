// The commands that write a text.
ghost use Rattle.std.specs.Prelude.{◌≡◌};
ghost use Rattle.ow_traits.specs.Telling.{Telling};
ghost use Rattle.ow_traits.specs.Streams.{Rose};
ghost use Rattle.ow_office.specs.Sides.{SourceView, sides, sink};
ghost use Rattle.ow_office.specs.Texts.{TellsText, Writes};

use ow_command_line::Status;
use ow_traits::{Sink, write_all};

/// Writes a text. Nothing else is touched.
pub(crate) fn write_text<O: Sink>(out: &mut O, text: &[u8]) -> Status
    ensures told { (table day : SourceView) (store : Telling) → TellsText text.now (sides table day (sink O.taken O.faults out.old) store) (sides table day (sink O.taken O.faults out.new) store) result }
    ensures wrote { Writes text.now (sink O.taken O.faults out.old) (sink O.taken O.faults out.new) result }
    ensures write { result ≡ Status.WriteFault → Rose (O.faults out.old) (O.faults out.new) }
{
    match write_all(out, text) {
        Ok(()) => Status::Ok,
        Err(_) => Status::WriteFault,
    }
}
