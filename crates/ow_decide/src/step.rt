// What is done at each event, over the floor and the rows.
ghost use Rattle.std.specs.Prelude.{◌≡◌, [], None, Some, true, false, IfOk};
ghost use Rattle.ow_decide.specs.Decisions.{decide, is_opening, wants_memory};
ghost use Rattle.ow_decide.specs.Making.{HasRoom, MakesFor, telling};

use crate::ask_steps::ask;
use crate::call_steps::call;
use crate::collect_steps::collect;
use crate::deploy_steps::deploy;
use crate::events::{Event, Told};
use crate::floor_steps::{answered, drain, next, reopen, sweep};
use crate::office_steps::fire;
use crate::waits::{Wait, Waits};
use ow_commits::{Following, Keeping};
use ow_counts::Counts;
use ow_entity::Row;
use ow_floor::{Floor, Moves};
use ow_row_text::{Archive, Note};
use ow_tables::{Ready, Tables};
use ow_tenant::Tenants;
use ow_value::NoMemory;
use std::alloc::Global;

/// What was done: the answer, the change of the rows that was made ready, what becomes of the requests that wait, all that moved on the
/// floor, what is to be committed of it, and what becomes of the archive and the notes then. Where nothing is to be committed there may
/// be no commit.
#[derive(Drop)]
pub struct Step {
    pub told: Told,
    pub change: RowChange,
    pub waits: Waits,
    pub moves: Moves,
    pub commit: Option<Following>,
    pub others: Option<OthersStep>,
}

/// What is done to the archive or to the notes after a commit.
#[derive(Drop)]
pub enum OthersStep {
    /// The records whose end is at most the moment `until`, in milliseconds, are archived. `archive` is what was archived then, with what
    /// was archived before.
    Archives { until: u64, archive: Archive },
    /// This note is kept, in place of one with its key.
    KeepsNote(Note),
}

/// What becomes of the rows of entities.
#[derive(Drop)]
pub enum RowChange {
    /// They stay.
    Nothing,
    /// This change is made, which was made ready.
    One(Ready),
    /// These rows are put, one after another.
    Puts(Vec<Row>),
}

/// How many bytes the book counts, and the moment in milliseconds.
#[derive(Clone, Copy, Debug, PartialEq, Eq)]
pub struct Now {
    pub counted: u64,
    pub at: u64,
}

impl Step {
    /// A step with an answer alone: nothing else is made ready. This takes no memory.
    pub fn telling(alloc: Global, told: Told) -> Step
        ensures { result ≡ telling told }
    {
        Step {
            told,
            change: RowChange::Nothing,
            waits: Waits::Keep,
            moves: Moves::new(alloc),
            commit: None,
            others: None,
        }
    }
}

/// What is done at any event except a beginning, a loss, a going or an opening. On the floor it is done already; without memory some of
/// it may be.
pub fn step_for(
    alloc: Global,
    tenants: &Tenants,
    counts: &Counts,
    keeping: &Keeping,
    floor: &mut Floor,
    tables: &mut Tables,
    waits: &[Wait],
    archive: Archive,
    notes: &[Note],
    now: Now,
    event: &Event,
) -> Result<Step, NoMemory>
    requires event { wants_memory event.now ≡ true }
    requires opened { is_opening event.now ≡ false }
    requires held { floor.old.before ≡ Some floor.old.now }
    ensures ok { IfOk result (MakesFor waits.now (record { archive = archive; notes = notes.now }) tenants.now tables.old.rows counts.now keeping.now now floor.old.now floor.new.now (λ S. decide S event.now)) }
    ensures before { floor.new.before ≡ floor.old.before }
    ensures rows { tables.new.rows ≡ tables.old.rows }
    ensures place { IfOk result (λ s. HasRoom s.change tables.new.room) }
{
    match event {
        Event::Asked(request) => ask(
            alloc,
            tenants,
            counts,
            keeping,
            floor,
            tables,
            now,
            request.get(),
        ),
        Event::Called { name, params } => {
            call(
                alloc, tenants, counts, keeping, floor, tables, now, name, params,
            )
        }
        Event::Fired {
            trigger,
            params,
            note,
        } => fire(
            alloc, tenants, counts, keeping, floor, tables, notes, now, trigger, params, note,
        ),
        Event::Deployed(drafts) => deploy(alloc, tenants, keeping, floor, tables, now, drafts),
        Event::Next => next(alloc, floor, now),
        Event::Answered { run, reply } => {
            answered(alloc, keeping, floor, tables, now, *run, reply)
        }
        Event::Sweep => sweep(alloc, tenants, keeping, floor, tables, archive, now),
        Event::Begun { .. } | Event::Lost { .. } | Event::Gone { .. } | Event::Opened(_) => {
            unreachable!()
        }
        Event::Collected(id) => collect(alloc, floor, waits, now, *id),
        Event::Drain => Ok(drain(alloc, floor, now)),
        Event::Reopened => reopen(alloc, keeping, floor, now),
    }
}
