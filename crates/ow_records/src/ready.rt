// Records that are ready to be added.
ghost use Rattle.std.specs.Prelude.{◌≡◌, IfOk};

use crate::Record;
use ow_value::{NoMemory, PlainData, Shared};
use std::alloc::Global;
use std::marker::Model;

/// A record that has its memory, to be added by `Records::add`.
#[derive(Drop)]
pub struct ReadyRecord {
    pub(crate) by_end: Shared<Record>,
    pub(crate) by_id: Shared<Record>,
    pub(crate) by_namespace: Shared<Record>,
}

impl Model for ReadyRecord {
    ghost use Rattle.std.specs.Prelude.{◌≡◌};
    ghost use Rattle.std.specs.Coded.{codes};
    ghost use Rattle.ow_value.specs.Code.{value_code};
    ghost use Rattle.ow_records.specs.declared.record.Record.{Record};

    ghost Value = { Record };

    ghost coded = { Prim.hlevel (codes, value_code) };

    ghost view = { λ a. a.by_end };

    ghost invariant = { λ a. (a.by_id ≡ a.by_end) × (a.by_namespace ≡ a.by_end) };
}

impl ReadyRecord {
    /// The record, ready to be added.
    pub fn new(alloc: Global, ended: Record) -> Result<ReadyRecord, NoMemory>
        ensures { IfOk result (λ r. r ≡ ended) }
    {
        let by_end = Shared::new(alloc, ended)?;
        let by_id = by_end.copy(alloc)?;
        let by_namespace = by_end.copy(alloc)?;
        Ok(ReadyRecord {
            by_end,
            by_id,
            by_namespace,
        })
    }

    /// The record.
    pub fn record(&self) -> &Record
        ensures { result.now ≡ self.now }
    {
        self.by_end.get()
    }
}
