// What reads show, over a floor.
ghost use Rattle.std.specs.Prelude.{◌≡◌, Some, None, IfOk};
ghost use Rattle.ow_floor.specs.Laws.{Stands};
ghost use Rattle.ow_http.specs.Request.{parts_of};
ghost use Rattle.ow_reads.specs.Acts.{act_of};
ghost use Rattle.ow_reads.specs.Reading.{read_done};
ghost use Rattle.ow_decide.specs.Asking.{shown_done};
ghost use Rattle.ow_decide.specs.Making.{change_of, done_of};
ghost use Rattle.ow_decide.specs.Sight.{Sight, view_of};

use crate::done::Done;
use ow_floor::Floor;
use ow_http::Request;
use ow_reads::{Act, Reading};
use ow_tables::Tables;
use ow_tenant::Holder;
use ow_value::NoMemory;
use std::alloc::Global;

/// What a read shows, or its first refusal.
pub(crate) fn read(
    alloc: Global,
    holder: &Holder,
    floor: &Floor,
    tables: &Tables,
    reading: Reading,
    request: &Request,
) -> Result<Done, NoMemory>
    requires { act_of request.now.route request.now.method ≡ Some (Act.Reads reading) }
    ensures done { IfOk result (λ d. (S : Sight) → S.rows ≡ tables.now.rows → Stands floor.now.now S.trace
        → done_of d ≡ shown_done (read_done (view_of S holder.now) reading (parts_of request.now))) }
    ensures change { IfOk result (λ d. change_of d ≡ None) }
{
    let shown = ow_reads::read(alloc, holder, floor.records(), tables, reading, request)?;
    match shown {
        Ok(value) => Ok(Done::Shown(value)),
        Err(reason) => Ok(Done::Refused(reason)),
    }
}
