// The cells of records, by day and namespace.
ghost use Rattle.std.specs.Prelude.{◌≡◌, ◌≤◌, IfOk, OnOk, if◌then◌else◌, Some, None};
ghost use Rattle.std.specs.List.{All};
ghost use Rattle.ow_usage.specs.Cells.{AreCells, AreFit, HasOneMore, HaveRoom, IsCountable, IsPart, cell_at, counted, day_of, is_within, or_nothing, total, totals_of};

use crate::Totals;
use ow_records::Record;
use ow_value::{NoMemory, Str};
use std::alloc::Global;
use std::collections::BTreeMap;
use std::marker::Model;

/// One day, in milliseconds.
const DAY: u64 = 86_400_000;

/// The last day of the calendar, 9999-12-31, counted from 1970-01-01.
pub const LAST_DAY: u32 = 2_932_896;

/// Totals by day, counted from 1970-01-01, and namespace: by day, and then by the bytes of the namespace.
#[derive(Drop)]
pub struct Usage {
    cells: BTreeMap<(u32, Str), Totals>,
    all: Totals,
}

impl Model for Usage {
    ghost use Rattle.std.specs.Prelude.{◌≡◌};
    ghost use Rattle.ow_usage.specs.Cells.{AreFit, total};

    ghost Value = { Rattle.ow_usage.specs.Cells.Cells };

    ghost view = { λ a. a.cells.entries };

    ghost invariant = { λ a. AreFit a.cells.entries × (a.all ≡ total a.cells.entries) };
}

/// The cells of these records, from one day to another, both counted from 1970-01-01.
pub fn cells(alloc: Global, records: &[Record], from: u32, to: u32) -> Result<Usage, NoMemory>
    requires { All IsCountable records.now }
    ensures cells { IfOk result (λ c. AreCells records.now from to c) }
    ensures total { IfOk result (λ c. total c ≡ totals_of (counted from to records.now)) }
{
    let mut cells = Usage {
        cells: BTreeMap::new(alloc),
        all: Totals::NONE,
    };
    for record in records {
        match day_within(record, from, to) {
            Some(day) => cells.add(alloc, record, day)?,
            None => {}
        }
    }
    Ok(cells)
}

impl Usage {
    /// The totals over all cells.
    pub fn total(&self) -> Totals
        ensures { result ≡ total self.now }
    {
        self.all
    }

    // Each cell by its place, in order, lent.
    pub(crate) fn map(&self) -> &BTreeMap<(u32, Str), Totals>
        ensures value { result.now.entries ≡ self.now }
        ensures fit { AreFit self.now }
    {
        &self.cells
    }

    // The totals at a place.
    fn at(&self, place: &(u32, Str)) -> Totals
        ensures value { result ≡ or_nothing (cell_at place.now self.now) }
        ensures part { IsPart result (total self.now) }
    {
        match self.cells.get(place) {
            Some(totals) => *totals,
            None => Totals::NONE,
        }
    }

    // One record more.
    fn add(&mut self, alloc: Global, record: &Record, day: u32) -> Result<(), NoMemory>
        requires record { IsCountable record.now }
        requires room { HaveRoom (total self.old) }
        requires day { day ≡ day_of record.now.span.start }
        ensures ok { OnOk result (HasOneMore self.old record.now self.new) }
    {
        let place = (day, Str::of(alloc, record.namespace.as_str())?);
        let one = Totals::of(record);
        let all = self.all.plus(one);
        let totals = self.at(&place).plus(one);
        self.cells.insert(place, totals)?;
        self.all = all;
        Ok(())
    }
}

// The day of its start, where it is one of these.
fn day_within(record: &Record, from: u32, to: u32) -> Option<u32>
    ensures { result ≡ if is_within from to record.now then Some (day_of record.now.span.start) else None }
{
    let day = record.span.start() / DAY;
    if u64::from(from) <= day && day <= u64::from(to) {
        Some(day as u32)
    } else {
        None
    }
}
