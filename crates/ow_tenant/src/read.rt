// The bytes of the table, and its rows.
ghost use Rattle.std.specs.Prelude.{◌≡◌, ◌≢◌, ◌≤◌, ◌<◌, ◌+◌, ◌++◌, ℕ, List, Option, length, Some, None, Err, IfOk, IfErr, OnOk, OnErr};
ghost use Rattle.csv.specs.Reading.{Ready, default_config, reader_config, reader_state, reader_trim, source_of, strip_bom};
ghost use Rattle.csv.specs.Records.{fields_of};
ghost use Rattle.csv.specs.declared.parser.State.TheVariants as st;
ghost use Rattle.csv.specs.declared.reader.Trim.TheVariants as trim;
ghost use Rattle.ow_traits.specs.Streams.{Rose};
ghost use Rattle.ow_tenant.specs.Reading.{HasRead, IsAtEnd, ReadsBytes, ReadsUpTo, Tells, most_read};
ghost use Rattle.ow_tenant.specs.Table.{most_bytes, rows_of, with_row};

use crate::line::RowFault;
use crate::refusal::TenantRefusal;
use crate::row::read_row;
use crate::table::Draft;
use crate::tenants::MOST_BYTES;
use csv::{ByteRecord, Reader, ReaderBuilder};
use ow_traits::{Source, read_some};
use ow_value::NoMemory;
use std::alloc::Global;

/// The most bytes that are read at once.
const PIECE: usize = 65_536;

/// The bytes of the source, but at most one more than a table may have.
pub(crate) fn read_bytes<S: Source>(alloc: Global, source: &mut S) -> Result<Vec<u8>, TenantRefusal>
    ensures told { IfOk result (λ v. ReadsBytes (S.left source.old) (S.left source.new) v.items) }
    ensures most { ReadsUpTo most_read (S.left source.old) (S.left source.new) }
    ensures faults_grow { S.faults source.old ≤ S.faults source.new }
    ensures why { IfErr result (λ e. e ≢ TenantRefusal.NoMemory → e ≡ TenantRefusal.ReadFault) }
    ensures cause { result ≡ Err TenantRefusal.ReadFault → Rose (S.faults source.old) (S.faults source.new) }
{
    let mut room = make_room(alloc)?;
    let mut text = Vec::new(alloc);
    while text.len() <= MOST_BYTES {
        let space = (MOST_BYTES + 1 - text.len()).min(PIECE);
        let count = read_piece(source, &mut text, &mut room, space)?;
        if count == 0 {
            return Ok(text);
        }
    }
    Ok(text)
}

// Into which a piece is read.
fn make_room(alloc: Global) -> Result<Vec<u8>, TenantRefusal>
    ensures size { IfOk result (λ v. length v.items ≡ 65536) }
    ensures why { OnErr result (result ≡ Err TenantRefusal.NoMemory) }
{
    match vec![in alloc; 0u8; PIECE] {
        Ok(room) => Ok(room),
        Err(_) => Err(TenantRefusal::NoMemory),
    }
}

// Reads up to `space` bytes and appends them to `text`. Answers how many.
fn read_piece<S: Source>(
    source: &mut S,
    text: &mut Vec<u8>,
    room: &mut [u8],
    space: usize,
) -> Result<usize, TenantRefusal>
    requires some { 0 < space }
    requires within { space ≤ length room.old }
    ensures count { IfOk result (λ n. (n ≤ space) × (length text.new.items ≡ length text.old.items + n)) }
    ensures told { OnOk result ((before : Option (List ℕ)) → HasRead before (S.left source.old) text.old.items → HasRead before (S.left source.new) text.new.items) }
    ensures most { (before : Option (List ℕ)) → HasRead before (S.left source.old) text.old.items → ReadsUpTo (length text.old.items + space) before (S.left source.new) }
    ensures end { IfOk result (λ n. n ≡ 0 → IsAtEnd (S.left source.new)) }
    ensures faults_grow { S.faults source.old ≤ S.faults source.new }
    ensures why { IfErr result (λ e. e ≢ TenantRefusal.NoMemory → e ≡ TenantRefusal.ReadFault) }
    ensures cause { result ≡ Err TenantRefusal.ReadFault → Rose (S.faults source.old) (S.faults source.new) }
{
    let Ok(count) = read_some(source, room, space) else {
        return Err(TenantRefusal::ReadFault);
    };
    let Ok(()) = append(text, &room[..count]) else {
        return Err(TenantRefusal::NoMemory);
    };
    Ok(count)
}

fn append(text: &mut Vec<u8>, piece: &[u8]) -> Result<(), NoMemory>
    ensures { OnOk result (text.new.items ≡ text.old.items ++ piece.now) }
{
    text.extend_from_slice(piece)?;
    Ok(())
}

/// What the rows of the text make.
pub(crate) fn read_rows(alloc: Global, text: &[u8]) -> Result<Draft, TenantRefusal>
    requires { length text.now ≤ most_bytes }
    ensures told { Tells (rows_of text.now) result }
    ensures no_fault { result ≢ Err TenantRefusal.ReadFault }
{
    let mut reader = table_reader(alloc, text);
    let mut row = ByteRecord::new(alloc);
    let mut draft = Draft::new(alloc);
    for number in 1..text.len() + 2 {
        let Ok(found) = reader.read_byte_record(&mut row) else {
            return Err(TenantRefusal::NoMemory);
        };
        if !found {
            return Ok(draft);
        }
        if let Err(refusal) = take_row(alloc, &mut draft, &row, number as u64) {
            return Err(refusal);
        }
    }
    Ok(draft)
}

// Rows have no header and may have any number of fields.
fn table_reader(alloc: Global, text: &[u8]) -> Reader<&[u8]>
    ensures config { reader_config result ≡ default_config }
    ensures trim { reader_trim result ≡ trim.None }
    ensures ready { Ready result }
    ensures state { reader_state result ≡ st.StartRecord }
    ensures source { source_of (λ s. Some s.now) result ≡ Some (strip_bom text.now) }
{
    ReaderBuilder::new()
        .has_headers(false)
        .flexible(true)
        .from_reader(alloc, text)
}

fn take_row(
    alloc: Global,
    draft: &mut Draft,
    row: &ByteRecord,
    number: u64,
) -> Result<(), TenantRefusal>
    ensures ok { OnOk result (with_row draft.old (fields_of row.now) ≡ Some draft.new) }
    ensures bad { IfErr result (λ e. e ≢ TenantRefusal.NoMemory → (e ≡ TenantRefusal.BadRow number) × (with_row draft.old (fields_of row.now) ≡ None)) }
{
    match take_line(alloc, draft, row) {
        Ok(()) => Ok(()),
        Err(RowFault::Bad) => Err(TenantRefusal::BadRow { row: number }),
        Err(RowFault::NoMemory) => Err(TenantRefusal::NoMemory),
    }
}

fn take_line(alloc: Global, draft: &mut Draft, row: &ByteRecord) -> Result<(), RowFault>
    ensures ok { OnOk result (with_row draft.old (fields_of row.now) ≡ Some draft.new) }
    ensures bad { result ≡ Err RowFault.Bad → with_row draft.old (fields_of row.now) ≡ None }
{
    match read_row(alloc, row) {
        Ok(line) => draft.take(alloc, line),
        Err(fault) => Err(fault),
    }
}
