// What was done on the floor, what is to be committed of it, and whether the store has room for that.
ghost use Rattle.std.specs.Prelude.{◌≡◌, ◌+◌, IfOk};
ghost use Rattle.ow_floor.specs.Calls.{moved};
ghost use Rattle.ow_floor.specs.Growth.{AreRight};
ghost use Rattle.ow_floor.specs.Laws.{IsSound};
ghost use Rattle.ow_floor.specs.Trace.{Trace, shown};
ghost use Rattle.ow_row_text.specs.Bytes.{bytes_of};
ghost use Rattle.ow_commits.specs.Commits.{row_changes};
ghost use Rattle.ow_commits.specs.Keeping.{AreOwn, StandsForKept};
ghost use Rattle.ow_commits.specs.Kept.{OthersView, kept, others_bytes};
ghost use Rattle.ow_tables.specs.Rows.{changed as rows_changed};
ghost use Rattle.ow_traits.specs.Changes.{changed};
ghost use Rattle.ow_decide.specs.Making.{IsFollowingOf, IsMade, admits_made};
ghost use Rattle.ow_decide.specs.Sight.{Sight, is_store_full};

use crate::reasons::limit_reason;
use ow_commits::{Following, Keeping};
use ow_counts::LimitRefusal;
use ow_entity::Lookup;
use ow_floor::Moves;
use ow_http::{Reason, ServiceRefusal};
use ow_tables::{Ready, Tables};
use ow_value::NoMemory;
use std::alloc::Global;

// How many bytes of keys and texts the store holds at most.
const MOST_KEPT: u64 = 1_073_741_824;

/// All that moved on the floor, and what is to be committed of it.
#[derive(Drop)]
pub(crate) struct Made {
    pub(crate) moves: Moves,
    pub(crate) commit: Following,
}

/// These moves, with what is to be committed of them.
pub(crate) fn made_of(alloc: Global, keeping: &Keeping, moves: Moves) -> Result<Made, NoMemory>
    ensures same { IfOk result (λ m. m.moves ≡ moves) }
    ensures made { IfOk result (λ m. (S : Sight) (items : Trace) → StandsForKept keeping.now S.others S.rows S.trace → IsSound S.trace → AreRight items (shown S.trace) → AreOwn items
        → moves ≡ moved items → IsMade m items S) }
{
    let Ok(commit) = keeping.following(alloc, moves.items()) else {
        drop(moves);
        return Err(NoMemory);
    };
    Ok(Made { moves, commit })
}

/// Whether the store may keep this many bytes, and what a limit says of one more.
pub(crate) fn admit_made(bytes: u64, limit: Result<(), LimitRefusal>) -> Result<(), Reason>
    ensures { result ≡ admits_made bytes limit }
{
    if is_store_full(bytes) {
        return Err(Reason::Service(ServiceRefusal::KeptFull));
    }
    match limit {
        Ok(()) => Ok(()),
        Err(refusal) => Err(limit_reason(refusal)),
    }
}

/// What is to be committed for a change of the rows that was made ready.
pub(crate) fn changing(
    alloc: Global,
    keeping: &Keeping,
    tables: &Tables,
    ready: &Ready,
) -> Result<Following, NoMemory>
    ensures commit { IfOk result (λ c. (o : OthersView) (T : Trace) → StandsForKept keeping.now o tables.now.rows T
        → IsFollowingOf c (row_changes ready.now) o (rows_changed ready.now tables.now.rows) T) }
    ensures bytes { IfOk result (λ c. (o : OthersView) (T : Trace) → StandsForKept keeping.now o tables.now.rows T
        → c.bytes ≡ others_bytes o + bytes_of (changed (row_changes ready.now) (kept tables.now.rows T))) }
{
    let row = ready.row();
    keeping.following_change(alloc, tables.row(row.kind(), row.name()), ready)
}

/// Whether this many bytes of keys and texts exceed what the store holds.
#[tactic(auto, unfolding(crate::specs::Sight::is_store_full))]
pub(crate) fn is_store_full(bytes: u64) -> bool
    ensures { result ≡ is_store_full bytes }
{
    bytes > MOST_KEPT
}
