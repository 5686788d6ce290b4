// The text of the row of the archive, written token by token.
ghost use Rattle.std.specs.Prelude.{◌≡◌, IfOk};
ghost use Rattle.ow_value.specs.Text.{compact};
ghost use Rattle.ow_row_text.specs.Item.{archive_value};

use crate::item::Archive;
use crate::tokens::put_number;
use ow_value::{NoMemory, Str, Writer, written_text};
use std::alloc::Global;

// No archive has a longer text.
const LONGEST: usize = 64;

/// The text of the row of the archive.
pub(crate) fn archive_text(alloc: Global, archive: Archive) -> Result<Str, NoMemory>
    ensures { IfOk result (λ s. s ≡ compact (archive_value archive)) }
{
    let mut out = Writer::new(Vec::with_capacity(alloc, LONGEST)?);
    out.begin_object()?;
    put_number(&mut out, "last", archive.last)?;
    put_number(&mut out, "number", archive.number)?;
    out.end_object()?;
    written_text(out)
}
