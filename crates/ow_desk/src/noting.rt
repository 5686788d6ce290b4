// One call of the hall, and what is noted of it.
ghost use Rattle.std.specs.Prelude.{◌≡◌, ◌+◌, ◌≤◌, ◌++◌, ℕ, true, false, IfErr, OnOk};
ghost use Rattle.ow_tenant.specs.Table.{IsPoolSized};
ghost use Rattle.ow_decide.specs.Decisions.{is_opening, wants_memory};
ghost use Rattle.ow_hall.specs.Comes.{Answers};
ghost use Rattle.ow_hall.specs.History.{History};
ghost use Rattle.ow_decide.specs.Given.{IsGivenEvent};
ghost use Rattle.ow_hall.specs.Ledger.{one_more};
ghost use Rattle.ow_hall.specs.Performing.{outcome};
ghost use Rattle.ow_desk.specs.Desks.{IsReceived};
ghost use Rattle.ow_desk.specs.Notes.{IsStanding, denials_of, denied_marks, full_marks, noted, refused_full};

use crate::desk::Desk;
use crate::marks::{Denial, Mark};
use crate::placed::Placed;
use crate::receipts::Receipts;
use crate::standing::Standing;
use ow_decide::{Event, Fired, Told};
use ow_hall::{Entry, Posting, Undone, posting_of};
use ow_traits::Keeper;
use ow_value::PlainData;
use std::alloc::Global;

impl<P: Keeper + Drop> Receipts<P> {
    // The result of an event that may run out of memory. The memory of its receipt is taken first.
    pub(crate) fn perform(
        &mut self,
        alloc: Global,
        desk: &mut Desk<P>,
        at: u64,
        event: Event,
    ) -> Result<Told, Undone>
        requires unopened { is_opening event ≡ false }
        requires memory { wants_memory event ≡ true }
        requires given { IsGivenEvent event }
        ensures received { IsReceived P.telling desk.old desk.new at event (outcome result) self.old.notes self.new.notes }
        ensures back { IfErr result (λ undone. undone.event ≡ event) }
        ensures pool { OnOk result (IsPoolSized desk.old.hall.tenants.pool) }
        ensures room { self.old.room ≤ self.new.room + 1 }
    {
        let Ok(copied) = event.copy(alloc) else {
            return Err(Undone {
                event,
                failed: false,
            });
        };
        let Ok(()) = self.reserve(alloc, 1) else {
            drop(copied);
            return Err(Undone {
                event,
                failed: false,
            });
        };
        let before = Standing::of(desk.hall.book(), at);
        match desk.hall.perform(alloc, at, event) {
            Ok((told, kept)) => {
                self.note(before, copied, kept);
                Ok(told)
            }
            Err(undone) => {
                drop(copied);
                if undone.failed {
                    self.marks.push(Mark::Stored);
                }
                Err(undone)
            }
        }
    }

    // Notes an answer to an event. This takes no memory.
    pub(crate) fn note(&mut self, before: Standing, event: Event, told: Told)
        requires { 1 ≤ self.old.room }
        ensures notes { (B : History) (at : ℕ) → IsStanding B at before → self.new.notes ≡ noted B before.at event (Answers told) self.old.notes }
        ensures room { self.old.room ≤ self.new.room + 1 }
    {
        match posting_of(before.idle, &told) {
            Posting::Booked => self.entries.push(Placed {
                place: before.place,
                entry: Entry {
                    at: before.at,
                    event,
                    answer: told,
                },
            }),
            Posting::Quiet => {
                drop((event, told));
                self.note_quiet();
            }
            Posting::Denied => {
                self.note_denied(&event);
                drop((event, told));
            }
            Posting::Unbooked => {
                self.note_full(before.counted, &told, &event);
                drop((event, told));
            }
        }
    }

    #[tactic(auto, unfolding(ow_hall::specs::Ledger::one_more))]
    fn note_quiet(&mut self)
        ensures notes { self.new.notes ≡ record self.old.notes { quiet = one_more self.old.notes.quiet } }
        ensures room { self.new.room ≡ self.old.room }
    {
        self.quiet = self.quiet.saturating_add(1);
    }

    #[tactic(auto, unfolding(ow_hall::specs::Ledger::one_more))]
    fn note_denied(&mut self, event: &Event)
        requires { 1 ≤ self.old.room }
        ensures notes { self.new.notes ≡ record self.old.notes { marks = self.old.notes.marks ++ denials_of event.now; denied = one_more self.old.notes.denied } }
        ensures room { self.old.room ≤ self.new.room + 1 }
    {
        self.denied = self.denied.saturating_add(1);
        if let Some(denial) = denial_of(event) {
            self.marks.push(Mark::Denied(denial));
        }
    }

    fn note_full(&mut self, counted: u64, told: &Told, event: &Event)
        requires { 1 ≤ self.old.room }
        ensures notes { self.new.notes ≡ record self.old.notes { marks = self.old.notes.marks ++ refused_full counted told.now event.now } }
        ensures room { self.old.room ≤ self.new.room + 1 }
    {
        if let Some(size) = refused_size(told, event) {
            self.marks.push(Mark::Full { counted, size });
        }
    }
}

// How many bytes the request has that finds the book full, 0 of a fire of the office.
fn refused_size(told: &Told, event: &Event) -> Option<u64>
    ensures { (counted : ℕ) → refused_full counted told.now event.now ≡ full_marks counted result }
{
    match (told, event) {
        (Told::Full(_), Event::Asked(request)) => Some(request.get().size),
        (Told::Fired(Fired::Refused(_)), Event::Fired { .. }) => Some(0),
        _ => None,
    }
}

// The event of a runner, where it is one.
fn denial_of(event: &Event) -> Option<Denial>
    ensures { denials_of event.now ≡ denied_marks result }
{
    match event {
        Event::Begun { run } => Some(Denial::Begun { run: *run }),
        Event::Answered { run, .. } => Some(Denial::Answered { run: *run }),
        Event::Lost { run } => Some(Denial::Lost { run: *run }),
        Event::Gone { slot, generation } => Some(Denial::Gone {
            slot: *slot,
            generation: *generation,
        }),
        _ => None,
    }
}
