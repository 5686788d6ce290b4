// What is known of the kept rows.
ghost use Rattle.std.specs.Prelude.{◌≡◌, ◌+◌, ◌++◌, ℕ, List, [], IfOk};
ghost use Rattle.std.specs.List.{flat_map};
ghost use Rattle.std.specs.Option.{option_copied};
ghost use Rattle.ow_entity.specs.declared.rows.Row.{Row};
ghost use Rattle.ow_entity.specs.Row.{kind_of, name_of};
ghost use Rattle.ow_floor.specs.Growth.{AreRight};
ghost use Rattle.ow_floor.specs.Laws.{IsSound};
ghost use Rattle.ow_floor.specs.Trace.{Trace, shown};
ghost use Rattle.ow_row_text.specs.Bytes.{bytes_of};
ghost use Rattle.ow_tables.specs.Rows.{changed as rows_changed, found, resumed};
ghost use Rattle.ow_traits.specs.Changes.{changed};
ghost use Rattle.ow_floor.specs.Calls.{moved};
ghost use Rattle.ow_commits.specs.Commits.{changes_of, row_changes};
ghost use Rattle.ow_commits.specs.Keeping.{AreOwn, StandsFollowing, StandsForKept};
ghost use Rattle.ow_commits.specs.Kept.{OthersView, kept, others_bytes};
ghost use Rattle.ow_commits.specs.Opening.{AreNotBuiltin, opened_trace, opening_changes, others_of};
ghost use Rattle.ow_keep.specs.Split.{HoldsItems, parts_of};
ghost use Rattle.ow_tables.specs.Builtin.{builtin};
ghost use Rattle.ow_traits.specs.declared.prewarms.Prewarm.{Prewarm};

use crate::following::{Following, follow_all};
use crate::gathered::Gathered;
use crate::open_bytes::OpenBytes;
use crate::openings::{abandon_all, bytes_of, put_archive, put_version};
use crate::table_rows::change;
use ow_entity::Row;
use ow_floor::Moved;
use ow_keep::Kept;
use ow_row_text::Archive;
use ow_tables::Ready;
use ow_traits::Rows;
use ow_value::NoMemory;
use std::alloc::Global;
use std::marker::Model;

/// How many bytes the kept rows have: all of them, and that of each activation that has not ended.
#[derive(Drop)]
pub struct Keeping {
    bytes: u64,
    opens: Vec<OpenBytes>,
}

impl Model for Keeping {
    ghost use Rattle.std.specs.Coded.{codes};
    ghost use Rattle.ow_value.specs.Code.{value_code};
    ghost use Rattle.ow_commits.specs.Keeping.{KeepingView};

    ghost Value = { KeepingView };

    ghost coded = { Prim.hlevel (codes, value_code) };

    ghost view = { λ k. record { bytes = k.bytes; opens = k.opens.items } };
}

impl Keeping {
    /// Of no row. This takes no memory.
    pub fn new(alloc: Global) -> Keeping
        ensures bytes { result.bytes ≡ 0 }
        ensures opens { result.opens ≡ [] }
    {
        Keeping {
            bytes: 0,
            opens: Vec::new(alloc),
        }
    }

    /// What an opening commits at this moment, in milliseconds, over the rows and what they hold.
    pub fn opening(alloc: Global, at: u64, rows: &Rows, kept: &Kept) -> Result<Following, NoMemory>
        ensures changes { IfOk result (λ c. c.changes ≡ opening_changes at (parts_of kept.now)) }
        ensures stands { IfOk result (λ c. (pool : ℕ) (wants : List Prewarm) → HoldsItems rows.now (parts_of kept.now)
            → AreNotBuiltin (parts_of kept.now).entities → StandsFollowing c (others_of (parts_of kept.now)) (resumed (parts_of kept.now).entities builtin) (opened_trace at (parts_of kept.now) pool wants)) }
    {
        let bytes = bytes_of(rows.as_slice())?;
        let mut gathered = Gathered::new(alloc, bytes);
        put_version(alloc, &mut gathered, rows)?;
        put_archive(alloc, &mut gathered, rows, archive_of(kept))?;
        abandon_all(alloc, &mut gathered, at, &kept.unrecorded)?;
        let following = gathered.following(Vec::new(alloc))?;
        Ok(following)
    }

    /// How many bytes all kept rows have: those of their keys and of their texts.
    pub fn bytes(&self) -> u64
        ensures { result ≡ self.now.bytes }
    {
        self.bytes
    }

    /// What is committed of all that moved, in its order, whatever else happened that isn't kept.
    pub fn following(&self, alloc: Global, moves: &[Moved]) -> Result<Following, NoMemory>
        ensures changes { IfOk result (λ c. c.changes ≡ flat_map changes_of moves.now) }
        ensures bytes { IfOk result (λ c. (o : OthersView) (rs : List Row) (T items : Trace) → StandsForKept self.now o rs T → IsSound T → AreRight items (shown T)
            → AreOwn items → moves.now ≡ moved items → c.bytes ≡ others_bytes o + bytes_of (changed c.changes (kept rs T))) }
        ensures stands { IfOk result (λ c. (o : OthersView) (rs : List Row) (T items : Trace) → StandsForKept self.now o rs T → IsSound T → AreRight items (shown T)
            → AreOwn items → moves.now ≡ moved items → StandsFollowing c o rs (items ++ T)) }
    {
        let mut gathered = Gathered::new(alloc, self.bytes());
        let mut opens = copied(alloc, self.opens())?;
        follow_all(alloc, &mut gathered, &mut opens, moves)?;
        let following = gathered.following(opens)?;
        Ok(following)
    }

    /// What is committed where this change of the rows is made. The old row is that of its kind and name, where there is one.
    pub fn following_change(
        &self,
        alloc: Global,
        old: Option<&Row>,
        ready: &Ready,
    ) -> Result<Following, NoMemory>
        ensures changes { IfOk result (λ c. c.changes ≡ row_changes ready.now) }
        ensures bytes { IfOk result (λ c. (o : OthersView) (rs : List Row) (T : Trace) → StandsForKept self.now o rs T
            → option_copied old.entry ≡ found (kind_of ready.now.row) (name_of ready.now.row) rs → c.bytes ≡ others_bytes o + bytes_of (changed c.changes (kept rs T))) }
        ensures stands { IfOk result (λ c. (o : OthersView) (rs : List Row) (T : Trace) → StandsForKept self.now o rs T
            → option_copied old.entry ≡ found (kind_of ready.now.row) (name_of ready.now.row) rs → StandsFollowing c o (rows_changed ready.now rs) T) }
    {
        let mut gathered = Gathered::new(alloc, self.bytes());
        let opens = copied(alloc, self.opens())?;
        change(alloc, &mut gathered, old, ready)?;
        let following = gathered.following(opens)?;
        Ok(following)
    }

    /// What follows was made. This takes no memory.
    pub fn follow(&mut self, following: Following)
        ensures bytes { self.new.bytes ≡ following.bytes }
        ensures opens { self.new.opens ≡ following.opens }
        ensures stands { (o : OthersView) (rs : List Row) (T : Trace) → StandsFollowing following o rs T → StandsForKept self.new o rs T }
    {
        let Following { bytes, opens, .. } = following;
        self.bytes = bytes;
        self.opens = opens;
    }

    /// Of each activation that has not ended, copied.
    pub(crate) fn copied_opens(&self, alloc: Global) -> Result<Vec<OpenBytes>, NoMemory>
        ensures { IfOk result (λ os. os.items ≡ self.now.opens) }
    {
        copied(alloc, self.opens())
    }

    // Of each activation that has not ended.
    fn opens(&self) -> &[OpenBytes]
        ensures { result.now ≡ self.now.opens }
    {
        &self.opens
    }
}

fn copied(alloc: Global, opens: &[OpenBytes]) -> Result<Vec<OpenBytes>, NoMemory>
    ensures { IfOk result (λ os. os.items ≡ opens.now) }
{
    let mut copy = Vec::new(alloc);
    copy.extend_from_slice(opens)?;
    Ok(copy)
}

/// What was archived, of what rows hold: nothing, where they are of the first version.
pub fn archive_of(kept: &Kept) -> Archive
    ensures { result ≡ (others_of (parts_of kept.now)).archive }
{
    match kept.archive {
        Some(archive) => archive,
        None => Archive { last: 0, number: 0 },
    }
}
