// What became of an activation for whose end a request waits.
ghost use Rattle.std.specs.Prelude.{◌≡◌, List, None, IfOk};
ghost use Rattle.ow_entity.specs.declared.rows.Row.{Row};
ghost use Rattle.ow_value.specs.View.{view};
ghost use Rattle.ow_floor.specs.Collecting.{collection_of};
ghost use Rattle.ow_decide.specs.Decisions.{decide};
ghost use Rattle.ow_decide.specs.Making.{MakesFor};
ghost use Rattle.ow_decide.specs.Waiting.{collected_told, ended_answer, ended_status, shown_answer, shows_for, wait_shows};
ghost use Rattle.ow_tenant.specs.Table.{Table};
ghost use Rattle.ow_counts.specs.View.{CountsView};
ghost use Rattle.ow_commits.specs.Keeping.{KeepingView};
ghost use Rattle.ow_commits.specs.Kept.{OthersView};
ghost use Rattle.ow_decide.specs.declared.events.Event.TheVariants as events;

use crate::events::Told;
use crate::replies::HallCollected;
use crate::step::{Now, RowChange, Step};
use crate::waits::{Shows, Wait, accepted_answer};
use ow_floor::{Collected, Floor, FloorRefusal};
use ow_http::Answer;
use ow_records::{Id, Record, write_record};
use ow_value::{Bytes, NoMemory, Pairs, PlainData, Val, write_val};
use ow_web::web_answer;
use std::alloc::Global;

/// The step that answers the collection of an activation.
pub(crate) fn collect(
    alloc: Global,
    floor: &Floor,
    waits: &[Wait],
    now: Now,
    id: Id,
) -> Result<Step, NoMemory>
    ensures ok { IfOk result (λ s. (t : Table) (rs : List Row) (k : CountsView) (b : KeepingView) (o : OthersView) → MakesFor waits.now o t rs k b now floor.now.now floor.now.now (λ S. decide S (events.Collected id)) s) }
    ensures change { IfOk result (λ s. s.change ≡ RowChange.Nothing) }
{
    let shows = shows_for(waits, id);
    let collected = told(alloc, id, shows, floor.collect(now.at, &id))?;
    Ok(Step::telling(alloc, Told::Collected(collected)))
}

fn told(
    alloc: Global,
    id: Id,
    shows: Shows,
    collected: Result<Collected, FloorRefusal>,
) -> Result<HallCollected, NoMemory>
    ensures { IfOk result (λ c. c ≡ collected_told id shows (collection_of collected.entry)) }
{
    match collected {
        Ok(Collected::Recorded(ended)) => {
            Ok(HallCollected::Reply(ended_answer(alloc, shows, ended)?))
        }
        Ok(Collected::NotYet) => Ok(HallCollected::NotYet),
        Ok(Collected::Elapsed) => Ok(HallCollected::Reply(accepted_answer(alloc, id)?)),
        Err(_) => Ok(HallCollected::Unknown),
    }
}

// What the request that waits for the activation is shown. Where none waits, that is the record.
fn shows_for(waits: &[Wait], id: Id) -> Shows
    ensures { result ≡ shows_for waits.now id }
{
    match wait_shows(waits, id) {
        Some(shows) => shows,
        None => Shows::Whole,
    }
}

// What the newest wait for this id is shown.
fn wait_shows(waits: &[Wait], id: Id) -> Option<Shows>
    ensures { result ≡ wait_shows id waits.now }
{
    for i in (0..waits.len()).rev() {
        if waits[i].id == id {
            return Some(waits[i].shows);
        }
    }
    None
}

// The answer to a request that waited for this record.
fn ended_answer(alloc: Global, shows: Shows, ended: &Record) -> Result<Answer, NoMemory>
    ensures { IfOk result (λ a. a ≡ ended_answer shows ended.now) }
{
    let response = &ended.response;
    match shows {
        Shows::Whole => shown_answer(alloc, response.code(), write_record(alloc, ended)?),
        Shows::ResultAlone => {
            let result = Val::Object(response.result().copy(alloc)?);
            shown_answer(alloc, response.code(), result)
        }
        Shows::Web(extension) => web_answer(alloc, extension, response),
    }
}

// The answer that shows a value of an activation that ended with this code.
fn shown_answer(alloc: Global, code: u8, value: Val) -> Result<Answer, NoMemory>
    ensures { IfOk result (λ a. a ≡ shown_answer code (view value)) }
{
    let body = Bytes::from_vec(write_val(alloc, &value)?)?;
    Ok(Answer {
        status: ended_status(code),
        headers: Pairs::new(),
        body,
    })
}

fn ended_status(code: u8) -> u16
    ensures { result ≡ ended_status code }
{
    if code == 0 { 200 } else { 502 }
}
