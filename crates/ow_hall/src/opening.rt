// How a service is opened over what a store keeps.
ghost use Rattle.std.specs.Prelude.{◌≡◌, ◌++◌, [], ◌∷◌, None, max, IfOk, IfErr};
ghost use Rattle.ow_traits.specs.Prewarms.{AreWantsSized};
ghost use Rattle.ow_floor.specs.Growth.{AreResumable};
ghost use Rattle.ow_floor.specs.Laws.{Stands};
ghost use Rattle.ow_floor.specs.Trace.{Opened as FloorOpened, Resumed};
ghost use Rattle.ow_tables.specs.Builtin.{builtin};
ghost use Rattle.ow_tables.specs.Rows.{resumed};
ghost use Rattle.ow_tenant.specs.Tenants.{pool_of};
ghost use Rattle.ow_keep.specs.Moments.{parts_moment};
ghost use Rattle.ow_keep.specs.Split.{HoldsItems, parts_of};
ghost use Rattle.ow_commits.specs.Opening.{abandoned, resumed_records};
ghost use Rattle.ow_decide.specs.Opening.{abandoned_told};
ghost use Rattle.ow_decide.specs.declared.events.Event.TheVariants as events;
ghost use Rattle.ow_decide.specs.declared.events.Told.TheVariants as told;
ghost use Rattle.ow_hall.specs.History.{moment};
ghost use Rattle.ow_hall.specs.Ledger.{no_entries, posted};
ghost use Rattle.ow_hall.specs.Readied.{IsKeptBy, IsLoaded, IsOpenedOver, IsOver, IsReadied, IsRefused, TellsUnready, fault_of};

use crate::book::Book;
use crate::refusals::StartFault;
use crate::state::HallState;
use crate::store_answer::StoreAnswer;
use ow_commits::{Following, Keeping, archive_of};
use ow_counts::Counts;
use ow_decide::{Event, Told};
use ow_entity::Row;
use ow_floor::{Floor, Happened, Happening};
use ow_keep::{KeepRefusal, Kept, kept_rows};
use ow_records::{Id, Record, Unrecorded, abandoned};
use ow_tables::Tables;
use ow_tenant::Tenants;
use ow_traits::{Keeper, KeeperError, Rows};
use ow_value::{NoMemory, PlainData, joined2, kept_beside};
use std::alloc::Global;

/// The parts of a service after an opening.
#[derive(Drop)]
pub(crate) struct Opened {
    pub(crate) state: HallState,
    pub(crate) book: Book,
    pub(crate) failed: StoreAnswer,
}

/// An opening that is made ready, and what is to be committed of it.
#[derive(Drop)]
pub(crate) struct Ready {
    pub(crate) opened: Opened,
    pub(crate) commit: Following,
}

/// Opens over what the store keeps, and commits the opening.
#[tactic(auto, using(crate::proofs::OpenLaws::asked_none, crate::proofs::OpenLaws::asked_one))]
pub(crate) fn open_over<P: Keeper>(
    alloc: Global,
    store: &mut P,
    tenants: &Tenants,
    at: u64,
) -> Result<Opened, StartFault>
    requires { AreWantsSized tenants.now.wants }
    ensures opened { IfOk result (λ o. IsOpenedOver P.telling store.old store.new tenants.now at o) }
    ensures refused { IfErr result (λ fault. IsRefused P.telling store.old store.new fault) }
{
    let rows = load(alloc, store)?;
    let ready = match make_ready(alloc, tenants, rows, at) {
        Ok(ready) => ready,
        Err(fault) => return Err(fault),
    };
    match store.commit(alloc, ready.commit.changes()) {
        Ok(()) => Ok(ready.keep()),
        Err(error) => {
            drop(ready);
            Err(fault_of(error))
        }
    }
}

#[tactic(auto, using(crate::proofs::OpenLaws::asked_none))]
fn load<P: Keeper>(alloc: Global, store: &mut P) -> Result<Rows, StartFault>
    ensures loaded { IfOk result (λ rows. IsLoaded P.telling store.old store.new rows) }
    ensures refused { IfErr result (λ fault. IsRefused P.telling store.old store.new fault) }
{
    match store.load(alloc) {
        Ok(rows) => Ok(rows),
        Err(error) => Err(fault_of(error)),
    }
}

fn fault_of(error: KeeperError) -> StartFault
    ensures { result ≡ fault_of error }
{
    match error {
        KeeperError::Failed => StartFault::StoreFault,
        KeeperError::NoMemory => StartFault::NoMemory,
    }
}

// The service once these rows are taken over, and what is to be committed of that.
fn make_ready(alloc: Global, tenants: &Tenants, rows: Rows, at: u64) -> Result<Ready, StartFault>
    requires { AreWantsSized tenants.now.wants }
    ensures ready { IfOk result (λ r. IsReadied tenants.now rows at r) }
    ensures bad { IfErr result (TellsUnready rows) }
{
    match kept_rows(alloc, &rows) {
        Ok(kept) => match take_over(alloc, tenants, rows, kept, at) {
            Ok(ready) => Ok(ready),
            Err(NoMemory) => Err(StartFault::NoMemory),
        },
        Err(KeepRefusal::BadKept { key }) => {
            drop(rows);
            Err(StartFault::BadKept(key))
        }
        Err(KeepRefusal::NoMemory) => {
            drop(rows);
            Err(StartFault::NoMemory)
        }
    }
}

fn take_over(
    alloc: Global,
    tenants: &Tenants,
    rows: Rows,
    kept: Kept,
    at: u64,
) -> Result<Ready, NoMemory>
    requires wants { AreWantsSized tenants.now.wants }
    requires holds { HoldsItems rows (parts_of kept) }
    ensures ready { IfOk result (λ r. IsReadied tenants.now rows at r) }
{
    let at = first_moment(alloc, &kept, at);
    let opening = Keeping::opening(alloc, at, &rows, &kept)?;
    let entries = book_over(alloc, rows, &kept.unrecorded, at);
    let stands = state_over(alloc, tenants, kept, at);
    let first = kept_beside(opening, entries);
    let second = joined2(stands, StoreAnswer::new(alloc));
    let ((commit, book), (state, failed)) = joined2(first, second)?;
    Ok(Ready {
        opened: Opened {
            state,
            book,
            failed,
        },
        commit,
    })
}

// The moment of the opening: none of what was kept is later.
fn first_moment(alloc: Global, kept: &Kept, at: u64) -> u64
    ensures { result ≡ max (parts_moment (parts_of kept.now)) (moment [] at) }
{
    Book::new(alloc).moment(at).max(kept.greatest_moment())
}

// A book of the opening alone.
fn book_over(alloc: Global, rows: Rows, left: &[Unrecorded], at: u64) -> Result<Book, NoMemory>
    ensures ledger { IfOk result (λ b. b.ledger ≡ posted no_entries at (events.Opened rows) (told.Opened (abandoned_told left.now))) }
{
    let (rows, told) = kept_beside(rows, abandoned_told(alloc, left))?;
    let event = Event::Opened(rows);
    let told = Told::Opened(told);
    let mut book = Book::new(alloc);
    let bytes = book.reserve(0, &event, &told);
    let ((event, told, book), bytes) = kept_beside((event, told, book), bytes)?;
    let mut book = book;
    book.post(at, event, told, bytes);
    Ok(book)
}

// The state over what was kept.
fn state_over(alloc: Global, tenants: &Tenants, kept: Kept, at: u64) -> Result<HallState, NoMemory>
    requires wants { AreWantsSized tenants.now.wants }
    requires resumable { AreResumable (parts_of kept).counts (resumed_records at (parts_of kept).unrecorded (parts_of kept).records) }
    ensures over { IfOk result (λ w. IsOver tenants.now at (parts_of kept) w) }
{
    let archive = archive_of(&kept);
    let Kept {
        counts,
        notes,
        unrecorded,
        records,
        entities,
        ..
    } = kept;
    let recorded = with_abandoned(alloc, records, &unrecorded, at);
    drop(unrecorded);
    let ((counts, entities, notes), records) = kept_beside((counts, entities, notes), recorded)?;
    let resumed = floor_over(alloc, tenants, counts, records);
    let ((entities, notes), floor) = kept_beside((entities, notes), resumed)?;
    let ((floor, notes), tables) = kept_beside((floor, notes), tables_over(alloc, entities))?;
    let ((floor, tables, notes), limits) = kept_beside((floor, tables, notes), Counts::new(alloc))?;
    Ok(HallState::of(
        alloc,
        floor,
        tables,
        limits,
        Keeping::new(alloc),
        archive,
        notes,
    ))
}

// A floor with the table's pool that has taken over the last ids and the records of an earlier run.
fn floor_over(
    alloc: Global,
    tenants: &Tenants,
    counts: Vec<Id>,
    records: Vec<Record>,
) -> Result<Floor, NoMemory>
    requires wants { AreWantsSized tenants.now.wants }
    requires resumable { AreResumable counts.items records.items }
    ensures stands { IfOk result (λ f. Stands f.now (Resumed counts.items records.items ∷ FloorOpened (pool_of tenants.now) tenants.now.wants ∷ [])) }
    ensures free { IfOk result (λ f. f.before ≡ None) }
{
    let wants = tenants.wants().copy(alloc)?;
    let mut floor = Floor::new(alloc, tenants.pool(), wants)?;
    floor.resume(alloc, counts, records)?;
    Ok(floor)
}

// The built-in rows, and these.
fn tables_over(alloc: Global, entities: Vec<Row>) -> Result<Tables, NoMemory>
    ensures { IfOk result (λ t. t.rows ≡ resumed entities.items builtin) }
{
    let mut tables = Tables::new(alloc)?;
    tables.resume(entities)?;
    Ok(tables)
}

// The records, followed by those of what had not ended, which is abandoned at a moment.
fn with_abandoned(
    alloc: Global,
    records: Vec<Record>,
    left: &[Unrecorded],
    at: u64,
) -> Result<Vec<Record>, NoMemory>
    ensures { IfOk result (λ rs. rs.items ≡ records.items ++ abandoned at left.now) }
{
    let mut records = records;
    for activation in left {
        let ended = abandoned(alloc, activation, at)?;
        records.push(ended)?;
    }
    Ok(records)
}

// What is reported of the activations that had not ended.
fn abandoned_told(alloc: Global, left: &[Unrecorded]) -> Result<Happened, NoMemory>
    ensures { IfOk result (λ h. h ≡ abandoned_told left.now) }
{
    let mut told = Vec::new(alloc);
    for activation in left {
        told.push(Happening::Recorded {
            id: activation.id,
            code: 3,
        })?;
    }
    Happened::of(told)
}

impl Ready {
    // The commit was made.
    fn keep(self) -> Opened
        ensures { IsKeptBy self result }
    {
        let Ready { opened, commit } = self;
        let Opened {
            state,
            book,
            failed,
        } = opened;
        let mut state = state;
        state.follow(Some(commit));
        Opened {
            state,
            book,
            failed,
        }
    }
}
