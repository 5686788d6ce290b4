// The state that goes with the book: the floor, the rows, who waits, and what counts against the limits. What is done at an event is held
// on the floor, and made ready beside it, until it is settled.
ghost use Rattle.std.specs.Prelude.{◌≡◌, ◌≤◌, [], true, false, Some, None, IfOk, IfSome, OnOk, OnErr};
ghost use Rattle.std.specs.List.{AllByRecursion};
ghost use Rattle.std.specs.Option.{option_copied};
ghost use Rattle.ow_floor.specs.Laws.{Stands};
ghost use Rattle.ow_floor.specs.Owed.{owed};
ghost use Rattle.ow_floor.specs.Trace.{Trace};
ghost use Rattle.ow_counts.specs.View.{HasRoomForMoves};
ghost use Rattle.ow_keep.specs.Known.{IsItem};
ghost use Rattle.ow_commits.specs.Kept.{kept_items, other_items};
ghost use Rattle.ow_commits.specs.Noting.{note_of};
ghost use Rattle.ow_decide.specs.Decisions.{decide, is_opening, taken_told, wants_memory};
ghost use Rattle.ow_decide.specs.Decision.{all_changed};
ghost use Rattle.ow_hall.specs.History.{waits_after};
ghost use Rattle.ow_hall.specs.Places.{nth_of};
ghost use Rattle.ow_decide.specs.Making.{HasRoom, changes_of, telling};
ghost use Rattle.ow_hall.specs.State.{KeepsNotes, Makes, NotesMoves, floor_kept, kept_with, others_kept};
ghost use Rattle.ow_tenant.specs.Table.{Table};

use crate::known::{known_archive, known_notes};
use crate::places::nth_row;
use ow_commits::{Following, Keeping, find_note, put_note};
use ow_counts::Counts;
use ow_decide::{Event, Now, OthersStep, RowChange, Step, Wait, Waits, step_for, take};
use ow_entity::{EntityKind, Row};
use ow_floor::{Floor, FloorRefusal, Moves};
use ow_keep::known_entities;
use ow_row_text::{Archive, Note};
use ow_tables::Tables;
use ow_tenant::Tenants;
use ow_value::NoMemory;
use std::alloc::Global;
use std::marker::Model;

/// What waits, runs and has ended, the entities, who waits for an end, what counts against the limits, the size of what is kept,
/// what was archived so far, and the notes.
#[derive(Drop)]
pub(crate) struct HallState {
    floor: Floor,
    tables: Tables,
    waits: Vec<Wait>,
    counts: Counts,
    keeping: Keeping,
    archive: Archive,
    notes: Vec<Note>,
}

impl Model for HallState {
    ghost use Rattle.std.specs.Prelude.{◌-◌, vec_len, vec_capacity};
    ghost use Rattle.ow_hall.specs.State.{StateView};
    ghost use Rattle.std.specs.Coded.{codes};
    ghost use Rattle.ow_value.specs.Code.{value_code};

    ghost Value = { StateView };

    ghost coded = { Prim.hlevel (codes, value_code) };

    ghost view = { λ w. record {
      floor = w.floor;
      rows = w.tables.rows;
      row_room = w.tables.room;
      waits = w.waits.items;
      wait_room = vec_capacity w.waits - vec_len w.waits;
      counts = w.counts;
      keeping = w.keeping;
      others = record { archive = w.archive; notes = w.notes.items };
      note_room = vec_capacity w.notes - vec_len w.notes;
    } };
}

impl HallState {
    /// A state of these parts, in which nobody waits.
    pub(crate) fn of(
        alloc: Global,
        floor: Floor,
        tables: Tables,
        counts: Counts,
        keeping: Keeping,
        archive: Archive,
        notes: Vec<Note>,
    ) -> HallState
        ensures floor { result.floor ≡ floor }
        ensures rows { result.rows ≡ tables.rows }
        ensures waits { result.waits ≡ [] }
        ensures counts { result.counts ≡ counts }
        ensures keeping { result.keeping ≡ keeping }
        ensures others { result.others ≡ record { archive = archive; notes = notes.items } }
    {
        HallState {
            floor,
            tables,
            waits: Vec::new(alloc),
            counts,
            keeping,
            archive,
            notes,
        }
    }

    /// How many entries are owed to the book.
    pub(crate) fn owed(&self) -> usize
        ensures { (T : Trace) → Stands self.now.floor.now T → result ≡ owed T }
    {
        self.floor.owed()
    }

    /// Makes known that each item that is kept of rows and floor, of the archive and of the notes is what its type says.
    pub(crate) fn known_items(&self)
        ensures kept { (T : Trace) → Stands self.now.floor.now T → AllByRecursion IsItem (kept_items self.now.rows T) }
        ensures others { AllByRecursion IsItem (other_items self.now.others) }
    {
        known_entities(self.tables.rows());
        self.floor.known_parts();
        known_archive(self.archive);
        known_notes(&self.notes);
    }

    /// The number of the note with the key, if there is one.
    pub(crate) fn note(&self, key: &str) -> Option<u64>
        ensures { result ≡ note_of key.now self.now.others.notes }
    {
        find_note(&self.notes, key)
    }

    /// The row of the kind at a place, counted from 0, by full text.
    pub(crate) fn nth(&self, kind: EntityKind, k: u64) -> Option<&Row>
        ensures { option_copied result ≡ nth_of kind k self.now.rows }
    {
        self.tables.are_ordered();
        nth_row(self.tables.rows(), kind, k)
    }

    /// Takes a beginning, a loss or a going. This takes no memory.
    pub(crate) fn take(&mut self, now: Now, event: &Event) -> Result<(), FloorRefusal>
        requires event { wants_memory event.now ≡ false }
        requires free { self.old.floor.before ≡ None }
        ensures ok { (t : Table) → Makes self.old self.new.floor.now t now (λ S. decide S event.now) (telling (taken_told result)) }
        ensures free { self.new.floor.before ≡ None }
        ensures rest { (self.new.rows ≡ self.old.rows) × (self.new.waits ≡ self.old.waits) }
        ensures counts { self.new.counts ≡ self.old.counts }
        ensures keeping { self.new.keeping ≡ self.old.keeping }
        ensures others { self.new.others ≡ self.old.others }
    {
        take(&mut self.floor, now, event)
    }

    /// Does what is decided at an event, and holds it, with all that is to be committed of it. There is room then for the notes of all
    /// that moved, for one who waits and for one note of the office. Without memory all is as before.
    pub(crate) fn attempt(
        &mut self,
        alloc: Global,
        tenants: &Tenants,
        now: Now,
        event: &Event,
    ) -> Result<Step, NoMemory>
        requires memory { wants_memory event.now ≡ true }
        requires unopened { is_opening event.now ≡ false }
        ensures ok { IfOk result (Makes self.old self.new.floor.now tenants.now now (λ S. decide S event.now)) }
        ensures held { OnOk result (self.new.floor.before ≡ Some self.old.floor.now) }
        ensures place { IfOk result (λ s. HasRoom s.change self.new.row_room) }
        ensures room { OnOk result ((1 ≤ self.new.wait_room) × (1 ≤ self.new.note_room)) }
        ensures counter { IfOk result (λ s. HasRoomForMoves s.moves self.new.counts) }
        ensures rest { (self.new.rows ≡ self.old.rows) × (self.new.waits ≡ self.old.waits) }
        ensures counts { KeepsNotes self.old.counts self.new.counts }
        ensures keeping { self.new.keeping ≡ self.old.keeping }
        ensures others { self.new.others ≡ self.old.others }
        ensures err { OnErr result (self.new.floor.now ≡ self.old.floor.now) }
        ensures free { OnErr result (self.old.floor.before ≡ None → self.new.floor.before ≡ None) }
    {
        self.reserve()?;
        self.hold();
        match self.counted_step(alloc, tenants, now, event) {
            Ok(step) => Ok(step),
            Err(e) => {
                self.settle(false);
                Err(e)
            }
        }
    }

    /// Ends the hold: what was done on the floor stays, or is taken back. This takes no memory.
    pub(crate) fn settle(&mut self, keep: bool)
        ensures kept { keep ≡ true → self.new.floor.now ≡ self.old.floor.now }
        ensures back { keep ≡ false → IfSome self.old.floor.before (λ v. self.new.floor.now ≡ v) }
        ensures free { self.new.floor.before ≡ None }
        ensures rest { (self.new.rows ≡ self.old.rows) × (self.new.waits ≡ self.old.waits) }
        ensures counts { self.new.counts ≡ self.old.counts }
        ensures room { (self.new.row_room ≡ self.old.row_room) × (self.new.wait_room ≡ self.old.wait_room) × (self.new.note_room ≡ self.old.note_room) }
        ensures keeping { self.new.keeping ≡ self.old.keeping }
        ensures others { self.new.others ≡ self.old.others }
    {
        self.floor.settle(keep);
    }

    /// Makes the changes that were made ready. This takes no memory.
    pub(crate) fn apply(&mut self, change: RowChange, waits: Waits)
        requires place { HasRoom change self.old.row_room }
        requires room { 1 ≤ self.old.wait_room }
        ensures floor { self.new.floor ≡ self.old.floor }
        ensures rows { self.new.rows ≡ all_changed (changes_of change) self.old.rows }
        ensures waits { self.new.waits ≡ waits_after waits self.old.waits }
        ensures counts { self.new.counts ≡ self.old.counts }
        ensures keeping { self.new.keeping ≡ self.old.keeping }
        ensures others { self.new.others ≡ self.old.others }
        ensures room { self.new.note_room ≡ self.old.note_room }
    {
        change_rows(&mut self.tables, change);
        match waits {
            Waits::Keep => {}
            Waits::Add(wait) => self.waits.push_reserved(wait),
            Waits::Clear => self.waits.clear(),
        }
    }

    /// Notes for the limits all that moved. This takes no memory.
    pub(crate) fn note_moves(&mut self, moves: &Moves)
        requires { HasRoomForMoves moves.now self.old.counts }
        ensures counts { NotesMoves moves.now self.old.counts self.new.counts }
        ensures floor { self.new.floor ≡ self.old.floor }
        ensures rest { (self.new.rows ≡ self.old.rows) × (self.new.waits ≡ self.old.waits) }
        ensures keeping { self.new.keeping ≡ self.old.keeping }
        ensures others { self.new.others ≡ self.old.others }
        ensures room { self.new.note_room ≡ self.old.note_room }
    {
        self.counts.note_moves(moves.items());
    }

    /// What was committed is kept, where there was something to commit. This takes no memory.
    pub(crate) fn follow(&mut self, commit: Option<Following>)
        ensures keeping { self.new.keeping ≡ kept_with commit self.old.keeping }
        ensures others { self.new.others ≡ self.old.others }
        ensures room { self.new.note_room ≡ self.old.note_room }
        ensures floor { self.new.floor ≡ self.old.floor }
        ensures rest { (self.new.rows ≡ self.old.rows) × (self.new.waits ≡ self.old.waits) }
        ensures counts { self.new.counts ≡ self.old.counts }
    {
        if let Some(following) = commit {
            self.keeping.follow(following);
        }
    }
}

impl HallState {
    /// The records that are due are archived, or a note is kept, where a step has that. This takes no memory.
    pub(crate) fn change_others(&mut self, others: Option<OthersStep>)
        requires free { self.old.floor.before ≡ None }
        requires room { 1 ≤ self.old.note_room }
        ensures floor { self.new.floor.now ≡ floor_kept others self.old.floor.now }
        ensures free { self.new.floor.before ≡ None }
        ensures others { self.new.others ≡ others_kept others self.old.others }
        ensures rest { (self.new.rows ≡ self.old.rows) × (self.new.waits ≡ self.old.waits) }
        ensures counts { self.new.counts ≡ self.old.counts }
        ensures keeping { self.new.keeping ≡ self.old.keeping }
    {
        match others {
            None => {}
            Some(OthersStep::Archives { until, archive }) => {
                self.floor.archive(until);
                self.archive = archive;
            }
            Some(OthersStep::KeepsNote(note)) => put_note(&mut self.notes, note),
        }
    }
}

impl HallState {
    // Makes room for one who waits, and for one note.
    fn reserve(&mut self) -> Result<(), NoMemory>
        ensures same { (self.new.floor ≡ self.old.floor) × (self.new.rows ≡ self.old.rows) × (self.new.waits ≡ self.old.waits) }
        ensures counts { self.new.counts ≡ self.old.counts }
        ensures keeping { self.new.keeping ≡ self.old.keeping }
        ensures others { self.new.others ≡ self.old.others }
        ensures room { OnOk result ((1 ≤ self.new.wait_room) × (1 ≤ self.new.note_room)) }
    {
        self.waits.reserve(1)?;
        self.notes.reserve(1)?;
        Ok(())
    }

    fn hold(&mut self)
        ensures now { self.new.floor.now ≡ self.old.floor.now }
        ensures held { self.new.floor.before ≡ Some self.old.floor.now }
        ensures rest { (self.new.rows ≡ self.old.rows) × (self.new.waits ≡ self.old.waits) }
        ensures room { (self.new.wait_room ≡ self.old.wait_room) × (self.new.note_room ≡ self.old.note_room) }
        ensures counts { self.new.counts ≡ self.old.counts }
        ensures keeping { self.new.keeping ≡ self.old.keeping }
        ensures others { self.new.others ≡ self.old.others }
    {
        self.floor.hold();
    }

    // A step, with room for the notes of all that moved.
    fn counted_step(
        &mut self,
        alloc: Global,
        tenants: &Tenants,
        now: Now,
        event: &Event,
    ) -> Result<Step, NoMemory>
        requires memory { wants_memory event.now ≡ true }
        requires unopened { is_opening event.now ≡ false }
        requires held { self.old.floor.before ≡ Some self.old.floor.now }
        ensures ok { IfOk result (Makes self.old self.new.floor.now tenants.now now (λ S. decide S event.now)) }
        ensures place { IfOk result (λ s. HasRoom s.change self.new.row_room) }
        ensures before { self.new.floor.before ≡ self.old.floor.before }
        ensures rest { (self.new.rows ≡ self.old.rows) × (self.new.waits ≡ self.old.waits) }
        ensures room { (self.new.wait_room ≡ self.old.wait_room) × (self.new.note_room ≡ self.old.note_room) }
        ensures counter { IfOk result (λ s. HasRoomForMoves s.moves self.new.counts) }
        ensures counts { KeepsNotes self.old.counts self.new.counts }
        ensures keeping { self.new.keeping ≡ self.old.keeping }
        ensures others { self.new.others ≡ self.old.others }
    {
        let step = self.step(alloc, tenants, now, event)?;
        let Ok(()) = self.counts.reserve_moves(alloc, step.moves.items()) else {
            drop(step);
            return Err(NoMemory);
        };
        Ok(step)
    }

    fn step(
        &mut self,
        alloc: Global,
        tenants: &Tenants,
        now: Now,
        event: &Event,
    ) -> Result<Step, NoMemory>
        requires memory { wants_memory event.now ≡ true }
        requires unopened { is_opening event.now ≡ false }
        requires held { self.old.floor.before ≡ Some self.old.floor.now }
        ensures ok { IfOk result (Makes self.old self.new.floor.now tenants.now now (λ S. decide S event.now)) }
        ensures place { IfOk result (λ s. HasRoom s.change self.new.row_room) }
        ensures before { self.new.floor.before ≡ self.old.floor.before }
        ensures rest { (self.new.rows ≡ self.old.rows) × (self.new.waits ≡ self.old.waits) }
        ensures room { (self.new.wait_room ≡ self.old.wait_room) × (self.new.note_room ≡ self.old.note_room) }
        ensures counts { self.new.counts ≡ self.old.counts }
        ensures keeping { self.new.keeping ≡ self.old.keeping }
        ensures others { self.new.others ≡ self.old.others }
    {
        step_for(
            alloc,
            tenants,
            &self.counts,
            &self.keeping,
            &mut self.floor,
            &mut self.tables,
            &self.waits,
            self.archive,
            &self.notes,
            now,
            event,
        )
    }
}

// Makes the change of the rows. This takes no memory.
fn change_rows(tables: &mut Tables, change: RowChange)
    requires { HasRoom change tables.old.room }
    ensures { tables.new.rows ≡ all_changed (changes_of change) tables.old.rows }
{
    match change {
        RowChange::Nothing => {}
        RowChange::One(ready) => tables.apply(ready),
        RowChange::Puts(rows) => tables.put_rows(rows),
    }
}
