// What moved on a floor: what was accepted, what ended, and fires.
ghost use Rattle.std.specs.Prelude.{◌≡◌, ◌++◌, ◌∷◌, [], List, OnOk};
ghost use Rattle.ow_records.specs.declared.record.Record.{Record};
ghost use Rattle.ow_floor.specs.declared.answers.Happening.TheVariants.{Recorded};

use crate::Happening;
use ow_records::{Activation, Id, Record, Records};
use ow_value::{NoMemory, PlainData, Shared};
use std::alloc::Global;
use std::marker::Model;

/// One activation that was accepted or has ended, or one half of a fire. The floor shares it.
#[derive(Drop)]
pub enum Moved {
    /// It was accepted, and waits.
    Accepted(Shared<Activation>),
    /// It has ended, with this record.
    Ended(Shared<Record>),
    /// This id was drawn for a fire.
    Drawn(Id),
    /// The fire was recorded, with this record.
    Fired(Shared<Record>),
}

impl Moved {
    ghost use Rattle.ow_floor.specs.Calls.{happening_of};

    /// What is reported of it.
    pub fn happening(&self) -> Happening
        ensures { result ≡ happening_of self.now }
    {
        match self {
            Moved::Accepted(task) => Happening::Accepted { id: task.get().id },
            Moved::Drawn(id) => Happening::Accepted { id: *id },
            Moved::Ended(record) => recorded(record.get()),
            Moved::Fired(record) => recorded(record.get()),
        }
    }
}

// What is reported of a record.
fn recorded(end: &Record) -> Happening
    ensures { result ≡ Recorded end.now.id end.now.response.code }
{
    Happening::Recorded {
        id: end.id,
        code: end.response.code(),
    }
}

/// What was accepted, what ended and what fired, in order.
#[derive(Drop)]
pub struct Moves {
    items: Vec<Moved>,
}

impl Model for Moves {
    ghost use Rattle.std.specs.Prelude.{List};
    ghost use Rattle.std.specs.Coded.{codes};
    ghost use Rattle.ow_value.specs.Code.{value_code};
    ghost use Rattle.ow_floor.specs.declared.moves.Moved.{Moved};

    ghost Value = { List Moved };

    ghost coded = { Prim.hlevel (codes, value_code) };

    ghost view = { λ m. m.items.items };
}

impl Moves {
    /// Nothing moved. This takes no memory.
    pub fn new(alloc: Global) -> Moves
        ensures { result ≡ [] }
    {
        Moves {
            items: Vec::new(alloc),
        }
    }

    /// What moved, the earliest first.
    pub fn items(&self) -> &[Moved]
        ensures { result.now ≡ self.now }
    {
        &self.items
    }

    // This activation was accepted.
    pub(crate) fn note_accepted(
        &mut self,
        alloc: Global,
        task: &Shared<Activation>,
    ) -> Result<(), NoMemory>
        ensures { OnOk result (self.new ≡ self.old ++ Moved.Accepted task.now ∷ []) }
    {
        self.items.reserve(1)?;
        let task = task.copy(alloc)?;
        self.items.push_reserved(Moved::Accepted(task));
        Ok(())
    }

    // The newest of these records is that of an end.
    pub(crate) fn note_ended(&mut self, alloc: Global, records: &Records) -> Result<(), NoMemory>
        ensures { OnOk result ((before : List Record) (r : Record) → records.now.items ≡ before ++ r ∷ [] → self.new ≡ self.old ++ Moved.Ended r ∷ []) }
    {
        let Some(newest) = records.items().last() else {
            return Ok(());
        };
        self.items.reserve(1)?;
        let newest = newest.copy(alloc)?;
        self.items.push_reserved(Moved::Ended(newest));
        Ok(())
    }

    // This id was drawn for a fire.
    pub(crate) fn note_drawn(&mut self, id: Id) -> Result<(), NoMemory>
        ensures { OnOk result (self.new ≡ self.old ++ Moved.Drawn id ∷ []) }
    {
        self.items.push(Moved::Drawn(id))?;
        Ok(())
    }

    // The newest of these records is that of a fire.
    pub(crate) fn note_fired(&mut self, alloc: Global, records: &Records) -> Result<(), NoMemory>
        ensures { OnOk result ((before : List Record) (r : Record) → records.now.items ≡ before ++ r ∷ [] → self.new ≡ self.old ++ Moved.Fired r ∷ []) }
    {
        let Some(newest) = records.items().last() else {
            return Ok(());
        };
        self.items.reserve(1)?;
        let newest = newest.copy(alloc)?;
        self.items.push_reserved(Moved::Fired(newest));
        Ok(())
    }
}
