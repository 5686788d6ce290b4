// What runners report, over one book.
use crate::of_hall::{Office, called, copies, ended, office, ordered};
use ow_floor::{Answered, FloorRefusal, Happened, Happening, Order};
use ow_records::Id;
use ow_traits::RunReply;
use std::alloc::Global;
use std::test::Fail;

// The first activation of `whisk.system`.
const ID: Id = Id {
    namespace: 0,
    count: 1,
};

// The number of the refusal, or 0 where the event is taken.
fn number(taken: Result<(), FloorRefusal>) -> u32 {
    match taken {
        Ok(()) => 0,
        Err(refusal) => refusal.number(),
    }
}

// The slot and the generation of the run that is ordered.
fn container(alloc: Global, hall: &mut Office, at: u64) -> Result<(u32, u32), Fail> {
    match hall.next(alloc, at)? {
        Order::Run(order) => Ok((order.slot, order.generation)),
        _ => Ok((0, 0)),
    }
}

// Whether each of these is taken once: the run begins, it is lost, and its container is gone.
fn tells(alloc: Global, hall: &mut Office) -> Result<bool, Fail> {
    let (slot, generation) = container(alloc, hall, 6)?;
    let begun = (number(hall.begun(7, 1)), number(hall.begun(7, 1)));
    let lost = (number(hall.lost(8, 1)), number(hall.lost(8, 1)));
    let gone = (
        number(hall.gone(9, slot, generation)),
        number(hall.gone(9, slot, generation)),
    );
    Ok((begun, lost, gone) == ((0, 29), (0, 29), (0, 28)))
}

// Whether what a lost run carried runs again, and what was refused isn't booked.
fn runs_again(alloc: Global, hall: &mut Office) -> Result<bool, Fail> {
    let accepted = called(alloc, hall, 5)? == 0;
    let told = tells(alloc, hall)?;
    let again = ordered(alloc, hall, 10)? == 2 && ended(alloc, hall, 11, 2)?;
    let book = hall.book();
    let booked = (book.entries().len(), book.counted(), book.denied()) == (8, 514, 3);
    Ok(accepted && told && again && booked && copies(alloc, book.entries())?)
}

#[test]
fn a_run_is_lost_and_its_container_is_gone(rt: HostRuntime) -> Result<(), Fail> {
    let alloc = rt.alloc();
    let mut hall = office(alloc)?;
    let again = runs_again(alloc, &mut hall);
    drop(hall);
    assert!(rt; again?);
    Ok(())
}

// Whether the end of the activation by its run's time limit is all that happened.
fn overran(happened: &Happened) -> bool {
    happened.items() == [Happening::Recorded { id: ID, code: 2 }].as_slice()
}

// Whether a sweep finds one late run, whose activation ends.
fn sweeps_one(alloc: Global, hall: &mut Office, at: u64) -> Result<bool, Fail> {
    let swept = hall.sweep(alloc, at)?;
    Ok(swept.late == 1 && overran(&swept.happened))
}

// Whether a sweep finds no late run.
fn sweeps_none(alloc: Global, hall: &mut Office, at: u64) -> Result<bool, Fail> {
    let swept = hall.sweep(alloc, at)?;
    Ok(swept.late == 0 && swept.happened.items().is_empty())
}

// Whether the reply of the run is late, since its activation ended at this moment.
fn is_late(alloc: Global, hall: &mut Office, since: u64) -> bool {
    match hall.answered(alloc, 60_010, 1, RunReply::Fault) {
        Ok(Answered::Late { run, at }) => (run, at) == (1, since),
        _ => false,
    }
}

// Whether a run of 60 seconds that was ordered at 7 is swept one millisecond after its limit, once, and each sweep is booked.
fn is_swept(alloc: Global, hall: &mut Office) -> Result<bool, Fail> {
    let accepted = called(alloc, hall, 5)? == 0;
    let ran = ordered(alloc, hall, 7)? == 1;
    let swept = sweeps_none(alloc, hall, 60_007)?
        && sweeps_one(alloc, hall, 60_008)?
        && sweeps_none(alloc, hall, 60_009)?;
    let late = is_late(alloc, hall, 60_008);
    let entries = hall.book().entries();
    Ok(accepted && ran && swept && late && entries.len() == 7 && copies(alloc, entries)?)
}

#[test]
fn a_late_run_is_swept_and_its_reply_is_late(rt: HostRuntime) -> Result<(), Fail> {
    let alloc = rt.alloc();
    let mut hall = office(alloc)?;
    let swept = is_swept(alloc, &mut hall);
    drop(hall);
    assert!(rt; swept?);
    Ok(())
}
