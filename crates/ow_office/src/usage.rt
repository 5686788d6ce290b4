// The command `usage`.
ghost use Rattle.std.specs.Prelude.{◌≡◌, IfOk, IfErr};
ghost use Rattle.ow_traits.specs.Streams.{Rose};
ghost use Rattle.std.specs.List.{All};
ghost use Rattle.ow_keep.specs.Split.{parts_of};
ghost use Rattle.ow_day.specs.Carried.{IsOpeningFault};
ghost use Rattle.ow_usage.specs.Cells.{IsCountable};
ghost use Rattle.ow_usage.specs.Text.{IsUsageText};
ghost use Rattle.ow_office.specs.Sides.{sink};
ghost use Rattle.ow_office.specs.Usage.{IsUnkept, IsUnshown, ShowsRecords, ShowsStore, ShowsUsage, StaysRead, WritesUsage};

use crate::text::write_text;
use ow_command_line::Status;
use ow_keep::{KeepRefusal, Kept, kept_rows, moments_are_small};
use ow_traits::{Keeper, KeeperError, Rows, Sink};
use ow_usage::{Usage, cells, usage_text};
use std::alloc::Global;

/// Writes what the records that the store keeps count for, from one day to another, both counted from 1970-01-01. Nothing else is
/// touched, and the store's rows stay.
pub(crate) fn do_usage<O: Sink, P: Keeper + Drop>(
    alloc: Global,
    from: u32,
    to: u32,
    csv: bool,
    mut store: P,
    out: &mut O,
) -> (Status, P)
    ensures writes { WritesUsage from to csv (P.telling store) (P.telling result.1) (sink O.taken O.faults out.old) (sink O.taken O.faults out.new) result.0 }
    ensures stays { StaysRead (P.telling store) (P.telling result.1) }
    ensures write { result.0 ≡ Status.WriteFault → Rose (O.faults out.old) (O.faults out.new) }
    ensures unbegun { IsOpeningFault result.0 → out.new ≡ out.old }
{
    let status = match text_of(alloc, from, to, csv, &mut store) {
        Ok(text) => write_text(out, text.as_slice()),
        Err(status) => status,
    };
    (status, store)
}

// The text for the records of a store.
fn text_of<P: Keeper>(
    alloc: Global,
    from: u32,
    to: u32,
    csv: bool,
    store: &mut P,
) -> Result<Vec<u8>, Status>
    ensures ok { IfOk result (λ text. ShowsStore from to csv (P.telling store.old) text.items) }
    ensures err { IfErr result (λ e. IsUnshown (P.telling store.old) (P.telling store.new) e) }
    ensures stays { StaysRead (P.telling store.old) (P.telling store.new) }
{
    match store.load(alloc) {
        Ok(rows) => text_over(alloc, from, to, csv, &rows),
        Err(KeeperError::Failed) => Err(Status::StoreFault),
        Err(KeeperError::NoMemory) => Err(Status::NoMemory),
    }
}

// The text for the records of these rows.
fn text_over(alloc: Global, from: u32, to: u32, csv: bool, rows: &Rows) -> Result<Vec<u8>, Status>
    ensures ok { IfOk result (λ text. ShowsUsage from to csv rows.now text.items) }
    ensures err { IfErr result (λ e. IsUnkept rows.now e) }
{
    match kept_rows(alloc, rows) {
        Ok(kept) => {
            moments_are_small();
            text_for(alloc, from, to, csv, &kept)
        }
        Err(KeepRefusal::BadKept { key }) => Err(Status::BadKept { key }),
        Err(KeepRefusal::NoMemory) => Err(Status::NoMemory),
    }
}

// The text for the records of what was kept.
fn text_for(alloc: Global, from: u32, to: u32, csv: bool, kept: &Kept) -> Result<Vec<u8>, Status>
    requires { All IsCountable (parts_of kept.now).records }
    ensures ok { IfOk result (λ text. ShowsRecords from to csv (parts_of kept.now).records text.items) }
    ensures err { IfErr result (λ e. e ≡ Status.NoMemory) }
{
    match cells(alloc, kept.records.as_slice(), from, to) {
        Ok(usage) => shown(alloc, csv, &usage),
        Err(_) => Err(Status::NoMemory),
    }
}

fn shown(alloc: Global, csv: bool, usage: &Usage) -> Result<Vec<u8>, Status>
    ensures ok { IfOk result (λ text. IsUsageText csv usage.now text.items) }
    ensures err { IfErr result (λ e. e ≡ Status.NoMemory) }
{
    match usage_text(alloc, usage, csv) {
        Ok(text) => Ok(text),
        Err(_) => Err(Status::NoMemory),
    }
}
