// Deployments of the office: drafts are put in their order over a copy of the rows, all or none.
ghost use Rattle.std.specs.Prelude.{◌≡◌, ◌≤◌, ◌+◌, ◌++◌, ◌∷◌, [], false, IfOk, OnOk};
ghost use Rattle.ow_counts.specs.View.{CountsView};
ghost use Rattle.ow_decide.specs.Asking.{put_of};
ghost use Rattle.ow_decide.specs.Deployment.{ArePut, IsAdded, IsPut, IsSettled, IsStepOf, StaysGathered, counted_put, over_for};
ghost use Rattle.ow_decide.specs.Deploying.{begun, deploy_decision, deployed, drafted_row, put_drafts, put_over, with_put};
ghost use Rattle.ow_decide.specs.Making.{HasRoom, Makes, telling};
ghost use Rattle.ow_decide.specs.Sight.{Sight};
ghost use Rattle.ow_decide.specs.declared.events.Told.TheVariants as told;
ghost use Rattle.ow_decide.specs.declared.replies.Deployed.TheVariants as deployed_so;
ghost use Rattle.ow_entity.specs.Row.{kind_of, name_of};
ghost use Rattle.ow_tables.specs.Refusal.{old_row};
ghost use Rattle.ow_tables.specs.Rows.{found};

use crate::commits::is_store_full;
use crate::events::Told;
use crate::reasons::table_reason;
use crate::replies::Deployed;
use crate::room::room_for;
use crate::step::{Now, RowChange, Step};
use crate::waits::Waits;
use ow_commits::{Keeping, RowChanges};
use ow_entity::{Draft, Drafts, Lookup, Row};
use ow_floor::{Floor, Moves};
use ow_http::{Reason, ServiceRefusal};
use ow_row_text::is_unchanged;
use ow_tables::{Ready, TableRefusal, Tables};
use ow_tenant::Tenants;
use ow_value::{NoMemory, PlainData};
use std::alloc::Global;
use std::marker::Model;

/// What the drafts so far have made: a copy of the rows with all that was put, the rows that were put, what is to be committed of them,
/// and how many drafts had no row, replaced one, and were left out.
#[derive(Drop)]
struct Deployment {
    tables: Tables,
    puts: Vec<Row>,
    changes: RowChanges,
    made: u32,
    changed: u32,
    same: u32,
}

impl Model for Deployment {
    ghost use Rattle.std.specs.Coded.{codes};
    ghost use Rattle.std.specs.Prelude.{map};
    ghost use Rattle.ow_value.specs.Code.{value_code};
    ghost use Rattle.ow_decide.specs.Asking.{put_of};
    ghost use Rattle.ow_decide.specs.Deployment.{DeploymentView};

    ghost Value = { DeploymentView };

    ghost coded = { Prim.hlevel (codes, value_code) };

    ghost view = { λ d. record {
      progress = record { rows = d.tables.rows; changes = map put_of d.puts.items; made = d.made; changed = d.changed; same = d.same };
      commit = d.changes;
      room = d.tables.room;
    } };
}

/// What becomes of a row that a draft has made.
#[derive(Clone, Copy, Debug, PartialEq, Eq)]
enum Over {
    /// There is no row of its kind and name.
    Nothing,
    /// It replaces one.
    Other,
    /// It differs from the one in its version alone.
    Same,
}

/// Puts drafts in their order, all or none. The floor stays as it is.
pub(crate) fn deploy(
    alloc: Global,
    tenants: &Tenants,
    keeping: &Keeping,
    floor: &Floor,
    tables: &mut Tables,
    now: Now,
    drafts: &Drafts,
) -> Result<Step, NoMemory>
    ensures ok { IfOk result (λ s. (k : CountsView) → Makes tenants.now tables.old.rows k keeping.now now floor.now.now floor.now.now (λ S. deploy_decision (deployed S drafts.now)) s) }
    ensures rows { tables.new.rows ≡ tables.old.rows }
    ensures place { IfOk result (λ s. HasRoom s.change tables.new.room) }
{
    if let Err(reason) = room_for(now.counted, 0) {
        return Ok(refused(alloc, 0, reason));
    }
    let mut work = Deployment::begin(alloc, keeping, tables)?;
    match work.put_all(alloc, tenants, drafts.as_slice()) {
        Ok(Ok(())) => settled(alloc, tables, work),
        Ok(Err((place, reason))) => {
            drop(work);
            Ok(refused(alloc, place, reason))
        }
        Err(e) => {
            drop(work);
            Err(e)
        }
    }
}

// A refusal, with the place of the draft that is refused, or 0.
fn refused(alloc: Global, place: u32, reason: Reason) -> Step
    ensures { result ≡ telling (told.Deployed (deployed_so.Refused place reason)) }
{
    Step::telling(alloc, Told::Deployed(Deployed::Refused { place, reason }))
}

// The step of a deployment whose drafts were all put, where the store has room for it.
fn settled(alloc: Global, tables: &mut Tables, work: Deployment) -> Result<Step, NoMemory>
    ensures ok { IfOk result (λ s. IsSettled work s) }
    ensures rows { tables.new.rows ≡ tables.old.rows }
    ensures place { IfOk result (λ s. HasRoom s.change tables.new.room) }
{
    if is_store_full(work.changes.bytes()) {
        drop(work);
        let reason = Reason::Service(ServiceRefusal::KeptFull);
        return Ok(refused(alloc, 0, reason));
    }
    match tables.reserve(work.puts.len()) {
        Ok(()) => work.step(alloc),
        Err(e) => {
            drop(work);
            Err(e)
        }
    }
}

impl Deployment {
    // Before the first draft.
    fn begin(alloc: Global, keeping: &Keeping, tables: &Tables) -> Result<Deployment, NoMemory>
        ensures progress { IfOk result (λ d. d.progress ≡ begun tables.now.rows) }
        ensures commit { IfOk result (λ d. d.commit ≡ record { changes = []; bytes = keeping.now.bytes; opens = keeping.now.opens }) }
    {
        let tables = tables.copy(alloc)?;
        match keeping.row_changes(alloc) {
            Ok(changes) => Ok(Deployment {
                tables,
                puts: Vec::new(alloc),
                changes,
                made: 0,
                changed: 0,
                same: 0,
            }),
            Err(e) => {
                drop(tables);
                Err(e)
            }
        }
    }

    // Puts drafts in their order, up to the first that is refused, whose place is counted from 1.
    fn put_all(
        &mut self,
        alloc: Global,
        tenants: &Tenants,
        drafts: &[Draft],
    ) -> Result<Result<(), (u32, Reason)>, NoMemory>
        ensures put { IfOk result (λ r. ArePut r (put_drafts tenants.now 1 drafts.now self.old.progress) self.new.progress) }
        ensures commit { OnOk result (StaysGathered self.old self.new) }
    {
        let mut place = 0u32;
        for draft in drafts {
            place = one_more(place)?;
            if let Err(reason) = self.put(alloc, tenants, draft)? {
                return Ok(Err((place, reason)));
            }
        }
        Ok(Ok(()))
    }

    // Puts one draft, unless it is refused.
    fn put(
        &mut self,
        alloc: Global,
        tenants: &Tenants,
        draft: &Draft,
    ) -> Result<Result<(), Reason>, NoMemory>
        ensures put { IfOk result (λ r. IsPut r (drafted_row tenants.now self.old.progress.rows draft.now) (old_row draft.now self.old.progress.rows) self.old.progress self.new.progress) }
        ensures commit { OnOk result (StaysGathered self.old self.new) }
    {
        if !tenants.is_listed(&draft.name().namespace) {
            return Ok(Err(Reason::Service(ServiceRefusal::NotGranted)));
        }
        let draft = draft.copy(alloc)?;
        match self.tables.prepare_put(alloc, draft, true) {
            Ok(ready) => {
                self.put_ready(alloc, ready)?;
                Ok(Ok(()))
            }
            Err(TableRefusal::NoMemory) => Err(NoMemory),
            Err(refusal) => Ok(Err(table_reason(refusal))),
        }
    }

    // Puts a row that was made ready, unless it changes nothing.
    fn put_ready(&mut self, alloc: Global, ready: Ready) -> Result<(), NoMemory>
        requires puts { ready.removes ≡ false }
        requires room { 1 ≤ self.old.room }
        ensures put { OnOk result (self.new.progress ≡ put_over (found (kind_of ready.row) (name_of ready.row) self.old.progress.rows) ready.row self.old.progress) }
        ensures commit { OnOk result (StaysGathered self.old self.new) }
    {
        let over = match self.over(alloc, ready.row()) {
            Ok(over) => over,
            Err(e) => {
                drop(ready);
                return Err(e);
            }
        };
        if over == Over::Same {
            drop(ready);
            self.same = one_more(self.same)?;
            return Ok(());
        }
        self.take(alloc, ready)?;
        self.count(over == Over::Nothing)
    }

    // What becomes of a row that a draft has made.
    fn over(&self, alloc: Global, row: &Row) -> Result<Over, NoMemory>
        ensures { IfOk result (λ o. o ≡ over_for (found (kind_of row.now) (name_of row.now) self.now.progress.rows) row.now) }
    {
        match self.tables.row(row.kind(), row.name()) {
            None => Ok(Over::Nothing),
            Some(old) => {
                if is_unchanged(alloc, old, row)? {
                    return Ok(Over::Same);
                }
                Ok(Over::Other)
            }
        }
    }

    // Puts a row that was made ready.
    fn take(&mut self, alloc: Global, ready: Ready) -> Result<(), NoMemory>
        requires puts { ready.removes ≡ false }
        requires room { 1 ≤ self.old.room }
        ensures put { OnOk result (self.new.progress ≡ with_put ready.row self.old.progress) }
        ensures commit { OnOk result (StaysGathered self.old self.new) }
    {
        match self.gather(alloc, &ready) {
            Ok(()) => {
                self.tables.apply(ready);
                Ok(())
            }
            Err(e) => {
                drop(ready);
                Err(e)
            }
        }
    }

    // Gathers a put for the commit, and its row.
    fn gather(&mut self, alloc: Global, ready: &Ready) -> Result<(), NoMemory>
        requires puts { ready.now.removes ≡ false }
        ensures rows { OnOk result (self.new.progress ≡ record self.old.progress { changes = self.old.progress.changes ++ put_of ready.now.row ∷ [] }) }
        ensures room { self.new.room ≡ self.old.room }
        ensures commit { OnOk result (IsAdded ready.now self.old self.new) }
    {
        let row = ready.row();
        let old = self.tables.row(row.kind(), row.name());
        self.changes.add(alloc, old, ready)?;
        self.puts.push(row.copy(alloc)?)?;
        Ok(())
    }

    // Counts a draft that had no row, or one that replaced one.
    fn count(&mut self, is_new: bool) -> Result<(), NoMemory>
        ensures put { OnOk result (self.new.progress ≡ counted_put is_new self.old.progress) }
        ensures rest { (self.new.commit ≡ self.old.commit) × (self.new.room ≡ self.old.room) }
    {
        if is_new {
            self.made = one_more(self.made)?;
        } else {
            self.changed = one_more(self.changed)?;
        }
        Ok(())
    }

    // The step that puts all rows and commits them.
    fn step(self, alloc: Global) -> Result<Step, NoMemory>
        ensures ok { IfOk result (λ s. IsStepOf self s) }
    {
        let Deployment {
            tables,
            puts,
            changes,
            made,
            changed,
            same,
        } = self;
        drop(tables);
        match changes.following() {
            Ok(commit) => Ok(Step {
                told: Told::Deployed(Deployed::Done {
                    made,
                    changed,
                    same,
                }),
                change: RowChange::Puts(puts),
                waits: Waits::Keep,
                moves: Moves::new(alloc),
                commit: Some(commit),
                others: None,
            }),
            Err(e) => {
                drop(puts);
                Err(e)
            }
        }
    }
}

// One more. A count that the type doesn't hold is as running out of memory.
fn one_more(count: u32) -> Result<u32, NoMemory>
    ensures { IfOk result (λ n. n ≡ count + 1) }
{
    match count.checked_add(1) {
        Some(n) => Ok(n),
        None => Err(NoMemory),
    }
}
