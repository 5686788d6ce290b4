// What is committed of moves, in their order.
ghost use Rattle.std.specs.Prelude.{◌≡◌, ◌+◌, ◌-◌, ◌++◌, IfOk, OnOk};
ghost use Rattle.std.specs.List.{AllByRecursion, flat_map};
ghost use Rattle.ow_row_text.specs.declared.item.Item.TheVariants as items;
ghost use Rattle.ow_commits.specs.Commits.{changes_of};
ghost use Rattle.ow_commits.specs.Keeping.{Follows, FollowsOne, IsKnownMove, last_bytes, row_bytes};

use crate::acceptance::{accept, last_bytes};
use crate::ends::{end, remove};
use crate::gathered::Gathered;
use crate::open_bytes::OpenBytes;
use ow_floor::Moved;
use ow_records::{Activation, Id, Record, Unrecorded, known_id};
use ow_row_text::{count_row, done_row};
use ow_traits::Changes;
use ow_value::NoMemory;
use std::alloc::Global;
use std::marker::Model;

/// Changes of kept rows that follow from moves or from a change of the rows, and what is known of the kept rows once they are made.
#[derive(Drop)]
pub struct Following {
    pub(crate) changes: Changes,
    pub(crate) bytes: u64,
    pub(crate) opens: Vec<OpenBytes>,
}

impl Model for Following {
    ghost use Rattle.std.specs.Coded.{codes};
    ghost use Rattle.ow_value.specs.Code.{value_code};
    ghost use Rattle.ow_commits.specs.Keeping.{FollowingView};

    ghost Value = { FollowingView };

    ghost coded = { Prim.hlevel (codes, value_code) };

    ghost view = { λ c. record { changes = c.changes; bytes = c.bytes; opens = c.opens.items } };
}

impl Following {
    /// The changes, which may be none.
    pub fn changes(&self) -> &Changes
        ensures { result.now ≡ self.now.changes }
    {
        &self.changes
    }

    /// How many bytes all kept rows have once the changes are made: those of their keys and of their texts.
    pub fn bytes(&self) -> u64
        ensures { result ≡ self.now.bytes }
    {
        self.bytes
    }
}

impl Gathered {
    /// What follows, where these activations have not ended then.
    pub(crate) fn following(self, opens: Vec<OpenBytes>) -> Result<Following, NoMemory>
        ensures { IfOk result (λ c. c ≡ record { changes = self.changes.items; bytes = self.bytes; opens = opens.items }) }
    {
        let Gathered { changes, bytes } = self;
        let Ok(changes) = Changes::from_vec(changes) else {
            drop(opens);
            return Err(NoMemory);
        };
        Ok(Following {
            changes,
            bytes,
            opens,
        })
    }
}

/// All that moved, one after another.
pub(crate) fn follow_all(
    alloc: Global,
    gathered: &mut Gathered,
    opens: &mut Vec<OpenBytes>,
    moves: &[Moved],
) -> Result<(), NoMemory>
    ensures changes { OnOk result (gathered.new.changes.items ≡ gathered.old.changes.items ++ flat_map changes_of moves.now) }
    ensures follows { OnOk result (Follows moves.now gathered.old.bytes opens.old.items gathered.new.bytes opens.new.items) }
    ensures known { OnOk result (AllByRecursion IsKnownMove moves.now) }
{
    for moved in moves {
        follow(alloc, gathered, opens, moved)?;
    }
    Ok(())
}

// One move.
fn follow(
    alloc: Global,
    gathered: &mut Gathered,
    opens: &mut Vec<OpenBytes>,
    moved: &Moved,
) -> Result<(), NoMemory>
    ensures changes { OnOk result (gathered.new.changes.items ≡ gathered.old.changes.items ++ changes_of moved.now) }
    ensures follows { OnOk result (FollowsOne moved.now gathered.old.bytes opens.old.items gathered.new.bytes opens.new.items) }
    ensures known { IsKnownMove moved.now }
{
    match moved {
        Moved::Accepted(task) => follow_acceptance(alloc, gathered, opens, task.get()),
        Moved::Ended(record) => follow_end(alloc, gathered, opens, record.get()),
        Moved::Drawn(id) => follow_draw(alloc, gathered, *id),
        Moved::Fired(record) => follow_fire(alloc, gathered, record.get()),
    }
}

fn follow_acceptance(
    alloc: Global,
    gathered: &mut Gathered,
    opens: &mut Vec<OpenBytes>,
    task: &Activation,
) -> Result<(), NoMemory>
    ensures changes { OnOk result (gathered.new.changes.items ≡ gathered.old.changes.items ++ changes_of (Moved.Accepted task.now)) }
    ensures follows { OnOk result (FollowsOne (Moved.Accepted task.now) gathered.old.bytes opens.old.items gathered.new.bytes opens.new.items) }
    ensures known { IsKnownMove (Moved.Accepted task.now) }
{
    known_id(task.id);
    let activation = Unrecorded::of(alloc, task)?;
    let opened = accept(alloc, gathered, &activation)?;
    opens.push(opened)?;
    Ok(())
}

fn follow_end(
    alloc: Global,
    gathered: &mut Gathered,
    opens: &mut Vec<OpenBytes>,
    ended: &Record,
) -> Result<(), NoMemory>
    ensures changes { OnOk result (gathered.new.changes.items ≡ gathered.old.changes.items ++ changes_of (Moved.Ended ended.now)) }
    ensures follows { OnOk result (FollowsOne (Moved.Ended ended.now) gathered.old.bytes opens.old.items gathered.new.bytes opens.new.items) }
    ensures known { IsKnownMove (Moved.Ended ended.now) }
{
    known_id(ended.id);
    end(alloc, gathered, opens, ended)?;
    remove(opens, ended.id);
    Ok(())
}

// The id is the last of its namespace.
fn follow_draw(alloc: Global, gathered: &mut Gathered, id: Id) -> Result<(), NoMemory>
    ensures changes { OnOk result (gathered.new.changes.items ≡ gathered.old.changes.items ++ changes_of (Moved.Drawn id)) }
    ensures bytes { OnOk result (gathered.new.bytes + last_bytes id.namespace (id.count - 1) ≡ gathered.old.bytes + row_bytes (items.Count id.namespace id.count)) }
    ensures known { IsKnownMove (Moved.Drawn id) }
{
    known_id(id);
    let less = last_bytes(alloc, id.namespace, id.count.saturating_sub(1))?;
    let counted = count_row(alloc, id.namespace, id.count)?;
    gathered.put(counted, less)?;
    Ok(())
}

// The fire has this record.
fn follow_fire(alloc: Global, gathered: &mut Gathered, fired: &Record) -> Result<(), NoMemory>
    ensures changes { OnOk result (gathered.new.changes.items ≡ gathered.old.changes.items ++ changes_of (Moved.Fired fired.now)) }
    ensures bytes { OnOk result (gathered.new.bytes ≡ gathered.old.bytes + row_bytes (items.Done fired.now)) }
    ensures known { IsKnownMove (Moved.Fired fired.now) }
{
    known_id(fired.id);
    let done = done_row(alloc, fired)?;
    gathered.put(done, 0)?;
    Ok(())
}
