// The command `deploy`.
ghost use Rattle.std.specs.Prelude.{◌≡◌, ◌⊎◌, ℕ, Ok, Err, IfErr, IfOk, false, string_bytes};
ghost use Rattle.ow_entity.specs.Given.{AreGiven};
ghost use Rattle.ow_traits.specs.Prewarms.{AreWantsSized};
ghost use Rattle.ow_traits.specs.Streams.{Rose};
ghost use Rattle.ow_tenant.specs.Reading.{ReadsUpTo, most_read};
ghost use Rattle.ow_day.specs.Carried.{IsOpeningFault};
ghost use Rattle.ow_decide.specs.declared.events.Event.TheVariants as events;
ghost use Rattle.ow_decide.specs.declared.replies.Deployed.TheVariants as deployments;
ghost use Rattle.ow_hall.specs.Comes.{Comes, IsDeployed, Outcome};
ghost use Rattle.ow_office.specs.Day.{EndsDay};
ghost use Rattle.ow_office.specs.Deploy.{DoesDeploy, GivesManifest, deploy_text};
ghost use Rattle.ow_office.specs.Putting.{DeploysIn, IsRefusalOf, IsUngiven, IsUnput, PutsSo, WritesLine};
ghost use Rattle.ow_office.specs.Sides.{SourceView, sides, sink, source};
ghost use Rattle.ow_office.specs.Table.{TellsTable};

use crate::input::read_input;
use crate::table::{read_table, unread};
use ow_command_line::Status;
use ow_day::not_opened;
use ow_decide::Deployed;
use ow_deploy::{ManifestRefusal, read_manifest, refusal_text};
use ow_entity::Drafts;
use ow_hall::{Hall, StartRefusal};
use ow_http::{Reason, reason_text};
use ow_tenant::Tenants;
use ow_traits::{Keeper, Sink, Source, write_all};
use ow_value::NoMemory;
use std::alloc::Global;

/// What a deployment comes to: how many drafts had no row, how many replaced one, and how many were left out.
#[derive(Clone, Copy)]
pub(crate) struct Counts {
    pub made: u32,
    pub changed: u32,
    pub same: u32,
}

/// Reads the office table, and deploys the manifest that the input is over it.
pub(crate) fn do_deploy<T: Source, S: Source, O: Sink, P: Keeper + Drop>(
    alloc: Global,
    named: bool,
    table: &mut T,
    store: P,
    day: &mut S,
    out: &mut O,
) -> (Status, P)
    ensures told { TellsTable DoesDeploy named
        (sides (source T.left T.faults table.old) (source S.left S.faults day.old) (sink O.taken O.faults out.old) (P.telling store))
        (sides (source T.left T.faults table.new) (source S.left S.faults day.new) (sink O.taken O.faults out.new) (P.telling result.1)) result.0 }
    ensures ends { EndsDay result.0 }
    ensures read { result.0 ≡ Status.ReadFault → Rose (S.faults day.old) (S.faults day.new) ⊎ (Rose (T.faults table.old) (T.faults table.new) × (result.1 ≡ store) × (day.new ≡ day.old) × (out.new ≡ out.old)) }
    ensures write { result.0 ≡ Status.WriteFault → Rose (O.faults out.old) (O.faults out.new) }
    ensures unbegun { IsOpeningFault result.0 → (day.new ≡ day.old) × (out.new ≡ out.old) }
    ensures bad_table { (row : ℕ) → result.0 ≡ Status.BadTable row → (result.1 ≡ store) × (day.new ≡ day.old) × (out.new ≡ out.old) }
    ensures unnamed { named ≡ false → table.new ≡ table.old }
{
    match read_table(alloc, named, table) {
        Ok(tenants) => deploy_over(alloc, tenants, store, day, out),
        Err(refusal) => (unread(refusal), store),
    }
}

// Opens the service over a store and an office table, at moment 0, and deploys the manifest there. The store is handed back in each case.
fn deploy_over<S: Source, O: Sink, P: Keeper + Drop>(
    alloc: Global,
    tenants: Tenants,
    store: P,
    day: &mut S,
    out: &mut O,
) -> (Status, P)
    requires { AreWantsSized tenants.wants }
    ensures does { (table left : SourceView) → DoesDeploy tenants
        (sides table (source S.left S.faults day.old) (sink O.taken O.faults out.old) (P.telling store))
        (sides left (source S.left S.faults day.new) (sink O.taken O.faults out.new) (P.telling result.1)) result.0 }
    ensures unbegun { IsOpeningFault result.0 → (day.new ≡ day.old) × (out.new ≡ out.old) }
{
    match Hall::start(alloc, store, tenants, 0) {
        Ok(hall) => {
            let mut hall = hall;
            let status = deploy_in(alloc, &mut hall, day, out);
            let (store, _) = hall.finish();
            (status, store)
        }
        Err(StartRefusal { why, store, .. }) => (not_opened(why), store),
    }
}

// Reads the manifest, deploys its drafts in the service, and writes the line.
fn deploy_in<S: Source, O: Sink, P: Keeper + Drop>(
    alloc: Global,
    hall: &mut Hall<P>,
    day: &mut S,
    out: &mut O,
) -> Status
    ensures deploys { DeploysIn P.telling hall.old hall.new (source S.left S.faults day.old) (source S.left S.faults day.new)
        (sink O.taken O.faults out.old) (sink O.taken O.faults out.new) result }
    ensures reads { ReadsUpTo most_read (S.left day.old) (S.left day.new) }
{
    let drafts = match read_drafts(alloc, day) {
        Ok(drafts) => drafts,
        Err(status) => return status,
    };
    match put(alloc, hall, drafts) {
        Ok(counts) => write_line(alloc, counts, out),
        Err(status) => status,
    }
}

// The drafts of the manifest that the input is, or how the command ends without them.
fn read_drafts<S: Source>(alloc: Global, day: &mut S) -> Result<Drafts, Status>
    ensures ok { IfOk result (λ ds. GivesManifest (source S.left S.faults day.old) (source S.left S.faults day.new) (Ok ds)) }
    ensures given { IfOk result (λ ds. AreGiven ds) }
    ensures err { IfErr result (λ status. IsUngiven (source S.left S.faults day.old) (source S.left S.faults day.new) status) }
    ensures reads { ReadsUpTo most_read (S.left day.old) (S.left day.new) }
{
    let text = read_input(alloc, day)?;
    match read_manifest(alloc, text.as_slice()) {
        Ok(drafts) => Ok(drafts),
        Err(refusal) => Err(refused(alloc, &refusal)),
    }
}

// How the command ends where the manifest is refused.
fn refused(alloc: Global, refusal: &ManifestRefusal) -> Status
    ensures { IsRefusalOf refusal.now result }
{
    if let ManifestRefusal::NoMemory = refusal {
        return Status::NoMemory;
    }
    match refusal_text(alloc, refusal) {
        Ok(text) => Status::BadManifest {
            number: refusal.number(),
            text,
        },
        Err(_) => Status::NoMemory,
    }
}

// Deploys the drafts in the service, at moment 0.
fn put<P: Keeper + Drop>(
    alloc: Global,
    hall: &mut Hall<P>,
    drafts: Drafts,
) -> Result<Counts, Status>
    requires { AreGiven drafts }
    ensures { (outcome : Outcome) × Comes P.telling hall.old hall.new 0 (events.Deployed drafts) outcome × PutsSo outcome result }
{
    match hall.deploy(alloc, 0, drafts) {
        Ok(
            Deployed::Done {
                made,
                changed,
                same,
            },
        ) => Ok(Counts {
            made,
            changed,
            same,
        }),
        Ok(Deployed::Refused { place, reason }) => Err(undeployed(alloc, place, &reason)),
        Err(_) => Err(Status::NoMemory),
    }
}

// How the command ends where the deployment is refused.
fn undeployed(alloc: Global, place: u32, reason: &Reason) -> Status
    ensures { (outcome : Outcome) → IsDeployed (Ok (deployments.Refused place reason.now)) outcome → IsUnput outcome result }
{
    match reason_text(alloc, reason) {
        Ok(text) => Status::Undeployed {
            place,
            number: reason.number(),
            text,
        },
        Err(_) => Status::NoMemory,
    }
}

// Writes the line of a deployment.
fn write_line<O: Sink>(alloc: Global, counts: Counts, out: &mut O) -> Status
    ensures { WritesLine counts (sink O.taken O.faults out.old) (sink O.taken O.faults out.new) result }
{
    let Ok(line) = deploy_text(alloc, counts) else {
        return Status::NoMemory;
    };
    match write_all(out, line.as_bytes()) {
        Ok(()) => Status::Ok,
        Err(_) => Status::WriteFault,
    }
}

fn deploy_text(alloc: Global, counts: Counts) -> Result<String, NoMemory>
    ensures { IfOk result (λ text. string_bytes text ≡ deploy_text counts.made counts.changed counts.same) }
{
    let Counts {
        made,
        changed,
        same,
    } = counts;
    Ok(format!(in alloc; "deployed made {made} changed {changed} same {same}\n")?)
}
