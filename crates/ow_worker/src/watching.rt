// The sweeper.
ghost use Rattle.ow_worker.specs.Noted.{Watched};

use crate::outcome::Watch;
use ow_desk::{Desk, Receipts};
use ow_hall::SweepRefusal;
use ow_threads::{Clock, hold};
use ow_traits::Keeper;
use std::alloc::Global;
use std::sync::{Mutex, Wait};

/// Makes one sweep: what late runs carry ends.
pub fn watch<H: Wait, P: Keeper + Drop, C: Clock>(
    rt: &H,
    alloc: Global,
    desk: &Mutex<Desk<P>>,
    clock: &C,
    notes: &mut Receipts<P>,
) -> Watch
    ensures { Watched (C.tells clock.now) notes.old.notes notes.new.notes result }
{
    match notes.sweep(alloc, &mut *hold(rt, desk), clock.now()) {
        Ok(_) => Watch::Swept,
        Err(SweepRefusal::StoreFault) => Watch::StoreFault,
        Err(SweepRefusal::NoMemory) => Watch::NoMemory,
    }
}
