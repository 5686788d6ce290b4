// The hall and its calls: each answers, and is posted.
ghost use Rattle.std.specs.Prelude.{if◌then◌else◌, ◌≡◌, ◌≤◌, [], true, false, Ok, Err, IfOk, IfErr, OnErr};
ghost use Rattle.ow_entity.specs.Given.{AreGiven};
ghost use Rattle.ow_floor.specs.Laws.{Stands};
ghost use Rattle.ow_floor.specs.Owed.{owed};
ghost use Rattle.ow_floor.specs.Trace.{Trace};
ghost use Rattle.ow_floor.specs.Calls.{HandsBack};
ghost use Rattle.ow_hall.specs.Comes.{Answers, Comes, HoldsBook, IsCalled, IsDeployed, IsFired, Outcome, Replies, collect_outcome, done_outcome, drain_outcome, next_outcome, reopened_outcome, reply_outcome, store_reply, swept_outcome};
ghost use Rattle.ow_hall.specs.Commits.{CommitsTo, changes_in};
ghost use Rattle.ow_hall.specs.History.{IsLegal, posting};
ghost use Rattle.ow_decide.specs.Given.{IsGivenEvent};
ghost use Rattle.ow_keep.specs.Allowed.{is_note};
ghost use Rattle.ow_hall.specs.Ledger.{IsReady};
ghost use Rattle.ow_hall.specs.Performing.{outcome, outcome_twice, unanswered};
ghost use Rattle.ow_decide.specs.Decisions.{is_opening, wants_memory};
ghost use Rattle.ow_decide.specs.declared.events.Event.TheVariants as events;

use crate::book::Book;
use crate::fronts::{
    answered_in, called_in, collected_in, deployed_in, drain_in, fired_in, order_in, reopened_in,
    reply_in, reply_of, store_called, store_deployed, store_fired, swept_in,
};
use crate::posting::Posting;
use crate::refusals::SweepRefusal;
use crate::state::HallState;
use crate::store_answer::StoreAnswer;
use ow_commits::Following;
use ow_decide::{
    Called, Deployed, Event, Fired, HallCollected, Now, Reply, Step, Told, taken_told,
};
use ow_entity::Drafts;
use ow_floor::{AnswerRefusal, Answered, Drain, FloorRefusal, Happened, Order, Swept};
use ow_http::Request;
use ow_names::FullName;
use ow_records::Id;
use ow_row_text::Note;
use ow_tenant::Tenants;
use ow_traits::{Changes, Keeper, KeeperError, RunReply};
use ow_value::{NoMemory, Params, PlainData, Shared, copied2, kept_beside};
use std::alloc::Global;
use std::marker::Model;

/// The service, with one book. Moments are milliseconds; one that is before the last booked one counts as that.
#[derive(Drop)]
pub struct Hall<P: Keeper + Drop> {
    pub(crate) tenants: Tenants,
    pub(crate) state: HallState,
    pub(crate) book: Book,
    pub(crate) store: P,
    // What requests are answered where the store fails.
    pub(crate) failed: StoreAnswer,
}

impl<P: Keeper + Drop> Model for Hall<P> {
    ghost use Rattle.ow_hall.specs.Comes.{HallView, HoldsBook};
    ghost use Rattle.ow_hall.specs.History.{seen};
    ghost use Rattle.ow_hall.specs.Ledger.{HasRoom};
    ghost use Rattle.ow_hall.specs.State.{Keeps};
    ghost use Rattle.std.specs.Coded.{codes};
    ghost use Rattle.ow_value.specs.Code.{value_code};

    ghost Value = { HallView P };

    ghost coded = { Prim.hlevel (codes, value_code) };

    ghost view = { λ h. record { tenants = h.tenants; ledger = h.book.ledger; store = h.store } };

    ghost invariant = { λ h. Keeps h.state h.tenants h.book.ledger
        × HasRoom (seen h.tenants h.book.ledger.entries).trace h.book.ledger h.book.room
        × HoldsBook (P.telling h.store).rows h.tenants h.book.ledger };
}

/// An event that wasn't carried out, since the store failed or no memory was left.
#[derive(Drop)]
pub struct Undone {
    /// The event, which is handed back.
    pub event: Event,
    /// Whether the store failed.
    pub failed: bool,
}

impl Undone {
    // Whether the store failed. The event is dropped.
    fn has_failed(self) -> bool
        ensures { result ≡ self.failed }
    {
        let failed = self.failed;
        drop(self);
        failed
    }
}

impl<P: Keeper + Drop> Hall<P> {
    /// The book so far.
    pub fn book(&self) -> &Book
        ensures ledger { result.now.ledger ≡ self.now.ledger }
        ensures legal { IsLegal self.now.tenants self.now.ledger.entries }
        ensures kept { HoldsBook (P.telling self.now.store).rows self.now.tenants self.now.ledger }
    {
        &self.book
    }

    /// The store and the book.
    pub fn finish(self) -> (P, Book)
        ensures store { result.0 ≡ self.store }
        ensures ledger { result.1.ledger ≡ self.ledger }
        ensures legal { IsLegal self.tenants self.ledger.entries }
        ensures kept { HoldsBook (P.telling self.store).rows self.tenants self.ledger }
    {
        let Hall {
            tenants,
            state,
            book,
            store,
            failed,
        } = self;
        drop((tenants, state, failed));
        (store, book)
    }

    /// Answers a request. A sequence or a conductor that it invokes makes its first step in the same event.
    pub fn ask(&mut self, alloc: Global, at: u64, request: &Request) -> Result<Reply, NoMemory>
        ensures { (o : Outcome) × Replies result o × Comes P.telling self.old self.new at (events.Asked request.now) o }
    {
        let request = Shared::new(alloc, request.copy(alloc)?)?;
        let (request, failed) = kept_beside(request, self.failed.reply(alloc))?;
        match self.tell(alloc, at, Event::Asked(request)) {
            Ok(told) => {
                drop(failed);
                Ok(reply_in(told))
            }
            Err(undone) => {
                if undone.has_failed() {
                    return Ok(failed);
                }
                drop(failed);
                Err(NoMemory)
            }
        }
    }

    /// The office's own invocation of an action: it is charged to the namespace that the name states, in the name of the office. It
    /// returns all that was accepted and all that has ended, in order.
    pub fn call(
        &mut self,
        alloc: Global,
        at: u64,
        name: &FullName,
        params: Params,
    ) -> Result<Called, NoMemory>
        ensures { (o : Outcome) × IsCalled result o × Comes P.telling self.old self.new at (events.Called name.now params) o }
    {
        let Ok(name) = name.copy(alloc) else {
            drop(params);
            return Err(NoMemory);
        };
        match self.tell(alloc, at, Event::Called { name, params }) {
            Ok(told) => Ok(called_in(told)),
            Err(undone) => {
                if undone.has_failed() {
                    Ok(store_called())
                } else {
                    Err(NoMemory)
                }
            }
        }
    }

    /// The office's own fire of a trigger, in the name of the office. Unless it is refused the note is kept with it, in place of a note with
    /// its key.
    pub fn fire(
        &mut self,
        alloc: Global,
        at: u64,
        trigger: &FullName,
        params: Params,
        note: &Note,
    ) -> Result<Fired, NoMemory>
        requires noted { is_note note.now ≡ true }
        ensures { (o : Outcome) × IsFired result o × Comes P.telling self.old self.new at (events.Fired trigger.now params note.now) o }
    {
        let Ok((trigger, note)) = copied2(alloc, trigger, note) else {
            drop(params);
            return Err(NoMemory);
        };
        let event = Event::Fired {
            trigger,
            params,
            note,
        };
        match self.tell(alloc, at, event) {
            Ok(told) => Ok(fired_in(told)),
            Err(undone) => {
                if undone.has_failed() {
                    Ok(store_fired())
                } else {
                    Err(NoMemory)
                }
            }
        }
    }

    /// Puts entities of the office, in the order of the drafts, all or none. A draft whose row would differ from the stored one in its
    /// version alone is left out. The drafts are such as bodies give, so their rows can be read back.
    pub fn deploy(&mut self, alloc: Global, at: u64, drafts: Drafts) -> Result<Deployed, NoMemory>
        requires { AreGiven drafts }
        ensures { (o : Outcome) × IsDeployed result o × Comes P.telling self.old self.new at (events.Deployed drafts) o }
    {
        match self.tell(alloc, at, Event::Deployed(drafts)) {
            Ok(told) => Ok(deployed_in(told)),
            Err(undone) => {
                if undone.has_failed() {
                    Ok(store_deployed())
                } else {
                    Err(NoMemory)
                }
            }
        }
    }

    /// The next order for a runner. It takes room in the book for what a runner may report of it later.
    pub fn next(&mut self, alloc: Global, at: u64) -> Result<Order, NoMemory>
        ensures { Comes P.telling self.old self.new at events.Next (next_outcome result) }
    {
        match self.tell(alloc, at, Event::Next) {
            Ok(told) => Ok(order_in(told)),
            Err(undone) => {
                drop(undone);
                Err(NoMemory)
            }
        }
    }

    /// The container of the run is up, and its action initialised. Refused where no slot awaits the run: refusal 29. This takes no
    /// memory.
    pub fn begun(&mut self, at: u64, run: u64) -> Result<(), FloorRefusal>
        ensures { Comes P.telling self.old self.new at (events.Begun run) (done_outcome result) }
    {
        self.take(at, Event::Begun { run })
    }

    /// The run is lost: what it carries waits again at its place by acceptance, unless it has ended. Refused where no slot has the
    /// run: refusal 29. This takes no memory.
    pub fn lost(&mut self, at: u64, run: u64) -> Result<(), FloorRefusal>
        ensures { Comes P.telling self.old self.new at (events.Lost run) (done_outcome result) }
    {
        self.take(at, Event::Lost { run })
    }

    /// The container of the slot is gone. Refused where the slot has no container of this generation that could be gone: refusal
    /// 28. This takes no memory.
    pub fn gone(&mut self, at: u64, slot: u32, generation: u32) -> Result<(), FloorRefusal>
        ensures { Comes P.telling self.old self.new at (events.Gone slot generation) (done_outcome result) }
    {
        self.take(at, Event::Gone { slot, generation })
    }

    /// Records the ends of what all late runs carry, by the runs' numbers, each with the steps that sequences and conductors make then.
    /// Records that were retained for as long as the office table says are archived with it: their rows leave for the old rows of the
    /// store. It is booked also where no run is late.
    pub fn sweep(&mut self, alloc: Global, at: u64) -> Result<Swept, SweepRefusal>
        ensures { Comes P.telling self.old self.new at events.Sweep (swept_outcome result) }
    {
        match self.tell(alloc, at, Event::Sweep) {
            Ok(told) => Ok(swept_in(told)),
            Err(undone) => Err(sweep_refusal(undone.has_failed())),
        }
    }

    /// Opens the service again: each activation that has not ended is recorded as abandoned, by id, all containers are gone, nobody
    /// waits, and calls are taken again. It returns what was recorded. Where the store fails or no memory is left, the service goes on as
    /// it was.
    pub fn reopen_in_place(&mut self, alloc: Global, at: u64) -> Result<Happened, SweepRefusal>
        ensures { Comes P.telling self.old self.new at events.Reopened (reopened_outcome result) }
    {
        match self.tell(alloc, at, Event::Reopened) {
            Ok(told) => Ok(reopened_in(told)),
            Err(undone) => Err(sweep_refusal(undone.has_failed())),
        }
    }

    /// Records the end of what the run carries, with the steps that sequences and conductors make then. A refusal hands the reply back.
    pub fn answered(
        &mut self,
        alloc: Global,
        at: u64,
        run: u64,
        reply: RunReply,
    ) -> Result<Answered, AnswerRefusal>
        ensures comes { Comes P.telling self.old self.new at (events.Answered run reply) (reply_outcome result) }
        ensures back { IfErr result (λ refusal. HandsBack run reply refusal) }
    {
        match self.tell(alloc, at, Event::Answered { run, reply }) {
            Ok(told) => answered_in(told),
            Err(Undone { event, failed }) => Err(unanswered(reply_of(event), failed)),
        }
    }

    /// What became of an activation that a blocking request accepted: the answer to that request, once the activation has ended or the
    /// moment is there until which the request waits. Where there is no answer yet it isn't booked.
    pub fn collect(&mut self, alloc: Global, at: u64, id: &Id) -> Result<HallCollected, NoMemory>
        ensures { Comes P.telling self.old self.new at (events.Collected id.now) (collect_outcome result) }
    {
        match self.tell(alloc, at, Event::Collected(*id)) {
            Ok(told) => Ok(collected_in(told)),
            Err(undone) => {
                drop(undone);
                Err(NoMemory)
            }
        }
    }

    /// Takes no more invocations from now on. It returns whether all that was accepted has ended.
    pub fn drain(&mut self, alloc: Global, at: u64) -> Result<Drain, NoMemory>
        ensures { Comes P.telling self.old self.new at events.Drain (drain_outcome result) }
    {
        match self.tell(alloc, at, Event::Drain) {
            Ok(told) => Ok(drain_in(told)),
            Err(undone) => {
                drop(undone);
                Err(NoMemory)
            }
        }
    }
}

impl<P: Keeper + Drop> Hall<P> {
    // Carries out a beginning, a loss or a going. The room for its entry was taken before.
    fn take(&mut self, at: u64, event: Event) -> Result<(), FloorRefusal>
        requires { wants_memory event ≡ false }
        ensures { Comes P.telling self.old self.new at event (done_outcome result) }
    {
        let now = Now {
            counted: self.book.counted(),
            at: self.book.moment(at),
        };
        let taken = self.state.take(now, &event);
        self.book.post(now.at, event, taken_told(taken), 0);
        taken
    }

    // Carries out any other event.
    fn tell(&mut self, alloc: Global, at: u64, event: Event) -> Result<Told, Undone>
        requires unopened { is_opening event ≡ false }
        requires memory { wants_memory event ≡ true }
        requires given { IsGivenEvent event }
        ensures comes { Comes P.telling self.old self.new at event (outcome result) }
        ensures back { IfErr result (λ undone. undone.event ≡ event) }
    {
        match self.perform(alloc, at, event) {
            Ok((told, kept)) => {
                drop(kept);
                Ok(told)
            }
            Err(undone) => Err(undone),
        }
    }
}

impl<P: Keeper + Drop> Hall<P> {
    /// Carries out an event that may take memory; the calls above make the event from their arguments. The answer is returned twice, so
    /// that one copy can be kept beside the book. The event is held until all memory that it takes is there and its changes to what is
    /// kept were committed, as is to be seen in the code.
    pub fn perform(&mut self, alloc: Global, at: u64, event: Event) -> Result<(Told, Told), Undone>
        requires unopened { is_opening event ≡ false }
        requires memory { wants_memory event ≡ true }
        requires given { IsGivenEvent event }
        ensures comes { Comes P.telling self.old self.new at event (outcome_twice result) }
        ensures same { IfOk result (λ r. r.1 ≡ r.0) }
        ensures back { IfErr result (λ undone. undone.event ≡ event) }
    {
        let now = Now {
            counted: self.book.counted(),
            at: self.book.moment(at),
        };
        let failed = false;
        let Ok(step) = self.state.attempt(alloc, &self.tenants, now, &event) else {
            return Err(Undone { event, failed });
        };
        let Ok((copied, kept, bytes)) = prepare(
            alloc,
            &self.state,
            &mut self.book,
            &event,
            &step.told,
        ) else {
            drop(step);
            self.state.settle(false);
            return Err(Undone { event, failed });
        };
        if let Err(error) = commit(alloc, &mut self.store, &step.commit) {
            drop((step, copied, kept));
            self.state.settle(false);
            let failed = self.book.note_uncommitted(error);
            return Err(Undone { event, failed });
        }
        self.state.settle(true);
        let Step {
            told,
            change,
            waits,
            moves,
            commit,
            others,
        } = step;
        self.state.apply(change, waits);
        self.state.note_moves(&moves);
        drop(moves);
        self.state.follow(commit);
        self.state.change_others(others);
        self.book.post(now.at, event, copied, bytes);
        Ok((told, kept))
    }

    /// What a request is answered where the store fails.
    pub fn store_reply(&self, alloc: Global) -> Result<Reply, NoMemory>
        ensures { IfOk result (λ r. r ≡ store_reply) }
    {
        self.failed.reply(alloc)
    }

    /// How many calls of the store have failed.
    pub fn faults(&self) -> u64
        ensures { result ≡ (P.telling self.now.store).faults }
    {
        self.store.faults()
    }
}

// Commits what is to be committed of a step, if anything.
fn commit<P: Keeper>(
    alloc: Global,
    store: &mut P,
    commit: &Option<Following>,
) -> Result<(), KeeperError>
    ensures { CommitsTo P.telling (changes_in commit.now) store.old store.new result }
{
    match commit {
        Some(following) => commit_all(alloc, store, following.changes()),
        None => Ok(()),
    }
}

// Commits changes by one commit. Where nothing changes in what is kept, the store isn't asked.
#[tactic(auto, using(crate::proofs::KeepLaws::commits_to))]
fn commit_all<P: Keeper>(alloc: Global, store: &mut P, changes: &Changes) -> Result<(), KeeperError>
    ensures { CommitsTo P.telling changes.now store.old store.new result }
{
    if changes.is_empty() {
        return Ok(());
    }
    store.commit(alloc, changes)
}

/// Why a runner's reply isn't taken. The reply is handed back.
pub fn unanswered(reply: RunReply, failed: bool) -> AnswerRefusal
    ensures { result ≡ unanswered reply failed }
{
    if failed {
        AnswerRefusal::StoreFault(reply)
    } else {
        AnswerRefusal::NoMemory(reply)
    }
}

// Why nothing is swept.
fn sweep_refusal(failed: bool) -> SweepRefusal
    ensures { result ≡ (if failed then SweepRefusal.StoreFault else SweepRefusal.NoMemory) }
{
    if failed {
        SweepRefusal::StoreFault
    } else {
        SweepRefusal::NoMemory
    }
}

// Makes room in the book for an answer, where it is booked, and for the entries that are owed after it. It returns two copies of the
// answer, and how many bytes the entry counts beside its 64.
fn prepare(
    alloc: Global,
    state: &HallState,
    book: &mut Book,
    event: &Event,
    told: &Told,
) -> Result<(Told, Told, u64), NoMemory>
    ensures ledger { book.new.ledger ≡ book.old.ledger }
    ensures keeps { book.old.room ≤ book.new.room }
    ensures told { IfOk result (λ r. r.0 ≡ told.now) }
    ensures kept { IfOk result (λ r. r.1 ≡ told.now) }
    ensures ready { IfOk result (λ r. (T : Trace) → Stands state.now.floor.now T → posting book.old.ledger.entries told.now ≡ Posting.Booked
        → IsReady book.old.ledger.entries book.new.room (owed T) event.now told.now r.2) }
{
    let bytes = book.reserve(state.owed(), event, told)?;
    let (first, second) = copied2(alloc, told, told)?;
    Ok((first, second, bytes))
}
