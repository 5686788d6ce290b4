// What is committed of several changes of the rows.
ghost use Rattle.std.specs.Prelude.{◌≡◌, ◌++◌, List, [], IfOk, OnOk};
ghost use Rattle.std.specs.Option.{option_copied};
ghost use Rattle.ow_entity.specs.Row.{kind_of, name_of};
ghost use Rattle.ow_entity.specs.declared.rows.Row.{Row};
ghost use Rattle.ow_floor.specs.Trace.{Trace};
ghost use Rattle.ow_commits.specs.Commits.{row_changes};
ghost use Rattle.ow_commits.specs.Keeping.{StandsFollowing};
ghost use Rattle.ow_commits.specs.Kept.{OthersView};
ghost use Rattle.ow_tables.specs.Rows.{changed as rows_changed, found};

use crate::following::Following;
use crate::gathered::Gathered;
use crate::keeping::Keeping;
use crate::open_bytes::OpenBytes;
use crate::table_rows::change;
use ow_entity::Row;
use ow_tables::Ready;
use ow_value::NoMemory;
use std::alloc::Global;
use std::marker::Model;

/// Changes of the rows that are to be committed together, and what is known of the kept rows once they are made.
#[derive(Drop)]
pub struct RowChanges {
    gathered: Gathered,
    opens: Vec<OpenBytes>,
}

impl Model for RowChanges {
    ghost use Rattle.std.specs.Coded.{codes};
    ghost use Rattle.ow_value.specs.Code.{value_code};
    ghost use Rattle.ow_commits.specs.Keeping.{FollowingView};

    ghost Value = { FollowingView };

    ghost coded = { Prim.hlevel (codes, value_code) };

    ghost view = { λ c. record { changes = c.gathered.changes.items; bytes = c.gathered.bytes; opens = c.opens.items } };
}

impl Keeping {
    /// No change yet, over the rows that are kept now.
    pub fn row_changes(&self, alloc: Global) -> Result<RowChanges, NoMemory>
        ensures { IfOk result (λ c. c ≡ record { changes = []; bytes = self.now.bytes; opens = self.now.opens }) }
    {
        let opens = self.copied_opens(alloc)?;
        Ok(RowChanges {
            gathered: Gathered::new(alloc, self.bytes()),
            opens,
        })
    }
}

impl RowChanges {
    /// Adds a change. The old row is that of its kind and name, where there is one, after the changes that were added before.
    pub fn add(&mut self, alloc: Global, old: Option<&Row>, ready: &Ready) -> Result<(), NoMemory>
        ensures changes { OnOk result (self.new.changes ≡ self.old.changes ++ row_changes ready.now) }
        ensures stands { OnOk result ((o : OthersView) (rs : List Row) (T : Trace) → StandsFollowing self.old o rs T
            → option_copied old.entry ≡ found (kind_of ready.now.row) (name_of ready.now.row) rs → StandsFollowing self.new o (rows_changed ready.now rs) T) }
    {
        change(alloc, &mut self.gathered, old, ready)
    }

    /// How many bytes all kept rows have once the changes are made: the bytes of their keys and of their texts.
    pub fn bytes(&self) -> u64
        ensures { result ≡ self.now.bytes }
    {
        self.gathered.bytes
    }

    /// All of them.
    pub fn following(self) -> Result<Following, NoMemory>
        ensures { IfOk result (λ c. c ≡ self) }
    {
        let RowChanges { gathered, opens } = self;
        gathered.following(opens)
    }
}
