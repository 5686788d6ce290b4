// The office's own fires of triggers, in its name. A note is kept with each that isn't refused.
ghost use Rattle.std.specs.Prelude.{◌≡◌, ◌+◌, ◌++◌, ◌∷◌, [], ℕ, List, None, Some, IfOk, nat_lt};
ghost use Rattle.ow_entity.specs.declared.rows.Row.{Row};
ghost use Rattle.ow_row_text.specs.declared.item.Item.TheVariants as items;
ghost use Rattle.ow_floor.specs.Laws.{IsSound, Stands};
ghost use Rattle.ow_floor.specs.Trace.{Trace};
ghost use Rattle.ow_floor.specs.View.{last_of};
ghost use Rattle.ow_commits.specs.Commits.{put_of};
ghost use Rattle.ow_commits.specs.Keeping.{StandsFollowing, StandsForKept};
ghost use Rattle.ow_commits.specs.Kept.{OthersView, others_bytes};
ghost use Rattle.ow_commits.specs.Noting.{note_of, noting};
ghost use Rattle.ow_decide.specs.Decision.{held};
ghost use Rattle.ow_value.specs.Nesting.{most_nested};
ghost use Rattle.ow_value.specs.Value.{depth, members_of, object};
ghost use Rattle.ow_decide.specs.Making.{Carries, IsMade, IsSeen};
ghost use Rattle.ow_decide.specs.OfficeFiring.{IsNoted, noted_step, office_decision, office_made, office_quiet, office_shot, own_plan, shot_refused};
ghost use Rattle.ow_decide.specs.Sight.{Sight};

use crate::commits::{Made, admit_made, is_store_full, made_of};
use crate::events::Told;
use crate::fire_steps::{fire_plan, made_shot, trigger_at, within_fires};
use crate::replies::Fired;
use crate::room::room_for;
use crate::step::{Now, OthersStep, RowChange, Step};
use crate::waits::Waits;
use ow_commits::{Following, Keeping, find_note};
use ow_counts::Counts;
use ow_entity::Trigger;
use ow_floor::{Floor, Moves};
use ow_http::{CallRefusal, Reason, ServiceRefusal};
use ow_names::FullName;
use ow_reads::office;
use ow_records::{Fire, Id};
use ow_row_text::Note;
use ow_rules::Rules;
use ow_tables::Tables;
use ow_tenant::Tenants;
use ow_value::{MOST_NESTED, NoMemory, Params, PlainData, Val, ValueRefusal, depth, kept_beside};
use std::alloc::Global;

/// What is done at a fire of the office. Its note is kept, unless it is refused.
pub(crate) fn fire(
    alloc: Global,
    tenants: &Tenants,
    counts: &Counts,
    keeping: &Keeping,
    floor: &mut Floor,
    tables: &Tables,
    notes: &[Note],
    now: Now,
    trigger: &FullName,
    params: &Params,
    note: &Note,
) -> Result<Step, NoMemory>
    requires held { floor.old.before ≡ Some floor.old.now }
    ensures ok { IfOk result (λ s. (S : Sight) → IsSeen S tenants.now tables.now.rows counts.now keeping.now floor.old.now now → S.others.notes ≡ notes.now
        → Carries s (office_decision S.others note.now (office_shot S trigger.now params.now note.now)) S
        × Stands floor.new.now (held (office_decision S.others note.now (office_shot S trigger.now params.now note.now)) ++ S.trace)) }
    ensures change { IfOk result (λ s. s.change ≡ RowChange.Nothing) }
    ensures before { floor.new.before ≡ floor.old.before }
{
    if let Err(reason) = room_for(now.counted, 0) {
        return Ok(refused(alloc, reason));
    }
    let Some(fired) = trigger_at(tables, trigger) else {
        return Ok(refused(alloc, Reason::Service(ServiceRefusal::NotFound)));
    };
    let Some(number) = tenants.number_of(&trigger.namespace) else {
        return Ok(refused(alloc, Reason::Service(ServiceRefusal::NotFound)));
    };
    let rules = ow_rules::fired(alloc, tables, trigger)?;
    if rules.is_empty() {
        drop(rules);
        return quiet(alloc, keeping, notes, note);
    }
    match planned(alloc, floor, now, trigger, number, fired, params) {
        Ok(Ok(fire)) => shot(
            alloc, tenants, counts, keeping, floor, tables, notes, now, fire, rules, note,
        ),
        Ok(Err(reason)) => {
            drop(rules);
            Ok(refused(alloc, reason))
        }
        Err(e) => {
            drop(rules);
            Err(e)
        }
    }
}

// A fire that is refused.
fn refused(alloc: Global, reason: Reason) -> Step
    ensures { result ≡ shot_refused reason }
{
    Step::telling(alloc, Told::Fired(Fired::Refused(reason)))
}

// The fire in the name of the office, where the parameters aren't nested too deep, the merged ones have not too many bytes, and the floor
// takes calls.
fn planned(
    alloc: Global,
    floor: &Floor,
    now: Now,
    name: &FullName,
    number: u64,
    trigger: &Trigger,
    given: &Params,
) -> Result<Result<Fire, Reason>, NoMemory>
    ensures plan { IfOk result (λ r. (S : Sight) → Stands floor.now.now S.trace → S.moment ≡ now.at → r ≡ own_plan S name.now number trigger.now given.now) }
    ensures next { IfOk result (λ r. IfOk r (λ f. f.id.count ≡ last_of floor.now.now.drawn f.id.namespace + 1)) }
{
    if is_too_deep(alloc, given)? {
        return Ok(Err(Reason::Call(CallRefusal::BadValue(ValueRefusal::TooDeep))));
    }
    let subject = office(alloc)?;
    fire_plan(alloc, floor, now, &subject, name, number, trigger, given)
}

// Whether the parameters nest deeper than a body may.
fn is_too_deep(alloc: Global, given: &Params) -> Result<bool, NoMemory>
    ensures { IfOk result (λ b. b ≡ nat_lt most_nested (depth (object (members_of given.now)))) }
{
    let value = Val::Object(given.copy(alloc)?);
    let nested = depth(&value);
    drop(value);
    Ok(nested > MOST_NESTED)
}

// What is done at a fire of a trigger without an active rule.
fn quiet(alloc: Global, keeping: &Keeping, notes: &[Note], note: &Note) -> Result<Step, NoMemory>
    ensures ok { IfOk result (λ s. (S : Sight) → StandsForKept keeping.now S.others S.rows S.trace → IsSound S.trace → S.others.notes ≡ notes.now
        → Carries s (office_decision S.others note.now (office_quiet S note.now)) S) }
    ensures change { IfOk result (λ s. s.change ≡ RowChange.Nothing) }
{
    let made = made_of(alloc, keeping, Moves::new(alloc))?;
    let noted = made_noted(alloc, notes, note, made)?;
    if is_store_full(noted.commit.bytes()) {
        drop(noted);
        return Ok(refused(alloc, Reason::Service(ServiceRefusal::KeptFull)));
    }
    Ok(noted.step(Fired::Quiet))
}

// What is done at a fire of these rules. Where it is refused, all of it is taken back.
fn shot(
    alloc: Global,
    tenants: &Tenants,
    counts: &Counts,
    keeping: &Keeping,
    floor: &mut Floor,
    tables: &Tables,
    notes: &[Note],
    now: Now,
    fire: Fire,
    rules: Rules,
    note: &Note,
) -> Result<Step, NoMemory>
    requires next { fire.id.count ≡ last_of floor.old.now.drawn fire.id.namespace + 1 }
    requires held { floor.old.before ≡ Some floor.old.now }
    ensures ok { IfOk result (λ s. (S : Sight) → IsSeen S tenants.now tables.now.rows counts.now keeping.now floor.old.now now → S.others.notes ≡ notes.now
        → Carries s (office_decision S.others note.now (office_made S note.now rules fire)) S
        × Stands floor.new.now (held (office_decision S.others note.now (office_made S note.now rules fire)) ++ S.trace)) }
    ensures change { IfOk result (λ s. s.change ≡ RowChange.Nothing) }
    ensures before { floor.new.before ≡ floor.old.before }
{
    let id = fire.id;
    let limit = within_fires(tenants, counts, &fire.namespace, now.at);
    let made = made_shot(
        alloc, tenants, counts, keeping, floor, tables, now, fire, rules,
    )?;
    let noted = made_noted(alloc, notes, note, made)?;
    match admit_made(noted.commit.bytes(), limit) {
        Ok(()) => Ok(noted.step(Fired::Made { id })),
        Err(reason) => {
            drop(noted);
            floor.back();
            Ok(refused(alloc, reason))
        }
    }
}

// ---- the note

// All that moved on the floor, what is to be committed of it and of a note, and what becomes of the notes.
#[derive(Drop)]
pub(crate) struct Noted {
    moves: Moves,
    commit: Following,
    others: Option<OthersStep>,
}

// What was made, with this note. Where the note is kept already, it isn't committed again.
fn made_noted(alloc: Global, notes: &[Note], note: &Note, made: Made) -> Result<Noted, NoMemory>
    ensures { IfOk result (λ n. (S : Sight) (items : Trace) → IsMade made items S → S.others.notes ≡ notes.now → IsNoted n items note.now S) }
{
    let Made { moves, commit } = made;
    let old = find_note(notes, note.key.as_str());
    if old == Some(note.value) {
        return Ok(Noted {
            moves,
            commit,
            others: None,
        });
    }
    let committed = noting(alloc, commit, old, note);
    let (moves, (commit, kept)) = kept_beside(moves, committed)?;
    Ok(Noted {
        moves,
        commit,
        others: Some(OthersStep::KeepsNote(kept)),
    })
}

// What is to be committed with this note as well, and a copy of the note.
fn noting(
    alloc: Global,
    commit: Following,
    old: Option<u64>,
    note: &Note,
) -> Result<(Following, Note), NoMemory>
    ensures note { IfOk result (λ r. r.1 ≡ note.now) }
    ensures changes { IfOk result (λ r. r.0.changes ≡ commit.changes ++ put_of (items.Note note.now) ∷ []) }
    ensures bytes { IfOk result (λ r. (o : OthersView) (rest : ℕ) → commit.bytes ≡ others_bytes o + rest → old ≡ note_of note.now.key o.notes → r.0.bytes ≡ others_bytes (noting note.now o) + rest) }
    ensures stands { IfOk result (λ r. (o : OthersView) (rs : List Row) (T : Trace) → StandsFollowing commit o rs T → old ≡ note_of note.now.key o.notes → StandsFollowing r.0 (noting note.now o) rs T) }
{
    let Ok(kept) = note.copy(alloc) else {
        drop(commit);
        return Err(NoMemory);
    };
    match commit.noting(alloc, old, note) {
        Ok(commit) => Ok((commit, kept)),
        Err(e) => {
            drop(kept);
            Err(e)
        }
    }
}

impl Noted {
    // The step with this answer.
    fn step(self, fired: Fired) -> Step
        ensures { result ≡ noted_step self fired }
    {
        let Noted {
            moves,
            commit,
            others,
        } = self;
        Step {
            told: Told::Fired(fired),
            change: RowChange::Nothing,
            waits: Waits::Keep,
            moves,
            commit: Some(commit),
            others,
        }
    }
}
