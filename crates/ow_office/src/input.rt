// The input, read whole.
ghost use Rattle.std.specs.Prelude.{◌≡◌, ◌≤◌, ◌<◌, ◌+◌, ◌++◌, ℕ, List, Option, length, Err, IfOk, IfErr, OnOk, OnErr};
ghost use Rattle.ow_traits.specs.Streams.{Rose};
ghost use Rattle.ow_tenant.specs.Reading.{HasRead, IsAtEnd, ReadsBytes, ReadsUpTo, most_read};
ghost use Rattle.ow_office.specs.Putting.{IsReadEnd};

use ow_command_line::Status;
use ow_deploy::MOST_BYTES;
use ow_traits::{Source, read_some};
use ow_value::NoMemory;
use std::alloc::Global;

/// The most bytes that are read at once.
const PIECE: usize = 65_536;

/// The bytes of the input, but at most one more than a manifest may have.
pub(crate) fn read_input<S: Source>(alloc: Global, source: &mut S) -> Result<Vec<u8>, Status>
    ensures told { IfOk result (λ text. ReadsBytes (S.left source.old) (S.left source.new) text.items) }
    ensures most { ReadsUpTo most_read (S.left source.old) (S.left source.new) }
    ensures faults_grow { S.faults source.old ≤ S.faults source.new }
    ensures why { IfErr result IsReadEnd }
    ensures cause { result ≡ Err Status.ReadFault → Rose (S.faults source.old) (S.faults source.new) }
{
    let mut room = make_room(alloc)?;
    let mut text = Vec::new(alloc);
    while text.len() <= MOST_BYTES {
        let space = (MOST_BYTES + 1 - text.len()).min(PIECE);
        let count = read_piece(source, &mut text, &mut room, space)?;
        if count == 0 {
            return Ok(text);
        }
    }
    Ok(text)
}

// Into which a piece is read.
fn make_room(alloc: Global) -> Result<Vec<u8>, Status>
    ensures size { IfOk result (λ room. length room.items ≡ 65536) }
    ensures why { OnErr result (result ≡ Err Status.NoMemory) }
{
    match vec![in alloc; 0u8; PIECE] {
        Ok(room) => Ok(room),
        Err(_) => Err(Status::NoMemory),
    }
}

// Reads up to `space` bytes, appends them to `text`, and returns how many they are.
fn read_piece<S: Source>(
    source: &mut S,
    text: &mut Vec<u8>,
    room: &mut [u8],
    space: usize,
) -> Result<usize, Status>
    requires some { 0 < space }
    requires within { space ≤ length room.old }
    ensures count { IfOk result (λ n. (n ≤ space) × (length text.new.items ≡ length text.old.items + n)) }
    ensures told { OnOk result ((before : Option (List ℕ)) → HasRead before (S.left source.old) text.old.items → HasRead before (S.left source.new) text.new.items) }
    ensures most { (before : Option (List ℕ)) → HasRead before (S.left source.old) text.old.items → ReadsUpTo (length text.old.items + space) before (S.left source.new) }
    ensures end { IfOk result (λ n. n ≡ 0 → IsAtEnd (S.left source.new)) }
    ensures faults_grow { S.faults source.old ≤ S.faults source.new }
    ensures why { IfErr result IsReadEnd }
    ensures cause { result ≡ Err Status.ReadFault → Rose (S.faults source.old) (S.faults source.new) }
{
    let Ok(count) = read_some(source, room, space) else {
        return Err(Status::ReadFault);
    };
    let Ok(()) = append(text, &room[..count]) else {
        return Err(Status::NoMemory);
    };
    Ok(count)
}

fn append(text: &mut Vec<u8>, piece: &[u8]) -> Result<(), NoMemory>
    ensures { OnOk result (text.new.items ≡ text.old.items ++ piece.now) }
{
    text.extend_from_slice(piece)?;
    Ok(())
}
