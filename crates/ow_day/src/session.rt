// A day under way: statements carried out over the hall.
ghost use Rattle.std.specs.Prelude.{◌≡◌, pos, [], IfErr, IfOk};
ghost use Rattle.ow_decide.specs.declared.events.Event.TheVariants as events;
ghost use Rattle.ow_hall.specs.Comes.{HoldsBook};
ghost use Rattle.ow_hall.specs.History.{IsLegal};
ghost use Rattle.ow_http.specs.Read.{IsRead};
ghost use Rattle.ow_traits.specs.Prewarms.{AreWantsSized};
ghost use Rattle.ow_traits.specs.declared.replies.RunReply.TheVariants as replies;
ghost use Rattle.ow_day.specs.Line.{lines_of, statement};
ghost use Rattle.ow_day.specs.Machine.{Calls, Does, Meets, unread};
ghost use Rattle.ow_day.specs.Session.{Begins, CarriesOut, ComesTo, Denies, GoesTo, IsHandedBack, machine_of, told_of};
ghost use Rattle.ow_day.specs.Statement.{Answer, Ask, At, Call, Exit, Fault, Logged, NoStart, Turn};

use crate::call_words::{CallWords, call_words};
use crate::line::Statement;
use crate::logs::lines_of;
use crate::statement_outcome::StatementOutcome;
use crate::texts::push_outcome;
use ow_decide::Reply;
use ow_floor::{AnswerRefusal, FloorRefusal};
use ow_hall::{Hall, StartFault, StartRefusal, SweepRefusal};
use ow_http::{HttpRefusal, Reason, Request, Routes, refusal};
use ow_invoker::{PlainContainer, PlainRunner, Shelf, day_turn};
use ow_names::FullName;
use ow_records::Id;
use ow_tenant::Tenants;
use ow_traits::{Keeper, RunReply};
use ow_value::{Lines, NoMemory, Params, Scratch, Str};
use std::alloc::Global;

/// The hall, and the moment in milliseconds that the day gave last.
#[derive(Drop)]
pub struct Session<P: Keeper + Drop> {
    pub hall: Hall<P>,
    pub given: u64,
    /// In which the texts of calls are read.
    pub scratch: Scratch,
    /// By which requests are read.
    pub routes: Routes,
    /// Which runs what a turn orders.
    pub runner: PlainRunner,
    /// Where containers lie between turns.
    pub shelf: Shelf<PlainContainer>,
}

/// What became of the first statement of a day.
#[derive(Clone, Copy, Debug, PartialEq, Eq)]
pub enum StepOutcome {
    /// It was carried out.
    Done,
    /// It ends the day, or the day has no more.
    End,
    /// It is none.
    Bad,
    /// More of it is to be read.
    Cut,
    /// There is no memory.
    NoMemory,
}

/// Why no service is opened, with the store, which is handed back.
#[derive(Drop)]
pub struct Unopened<P: Keeper + Drop> {
    pub why: StartFault,
    pub store: P,
}

impl<P: Keeper + Drop> Session<P> {
    /// A service that was just opened over a store and an office table, at moment 0.
    pub fn new(alloc: Global, tenants: Tenants, store: P) -> Result<Self, Unopened<P>>
        requires { AreWantsSized tenants.wants }
        ensures begins { IfOk result (λ s. Begins P.telling store tenants s) }
        ensures unopened { IfErr result (λ u. IsHandedBack P.telling store u) }
    {
        let Ok((routes, shelf)) = tools(alloc) else {
            return Err(Unopened {
                why: StartFault::NoMemory,
                store,
            });
        };
        match Hall::start(alloc, store, tenants, 0) {
            Ok(hall) => Ok(Session {
                hall,
                given: 0,
                scratch: Scratch::new(alloc),
                routes,
                runner: PlainRunner::new(),
                shelf,
            }),
            Err(StartRefusal { why, store, .. }) => Err(Unopened { why, store }),
        }
    }

    /// The store.
    pub fn finish(self) -> P
        ensures store { result ≡ self.hall.store }
        ensures legal { IsLegal self.hall.tenants self.hall.ledger.entries }
        ensures kept { HoldsBook (P.telling self.hall.store).rows self.hall.tenants self.hall.ledger }
    {
        let Session { hall, .. } = self;
        let (store, _) = hall.finish();
        store
    }

    /// Carries out a statement, unless it ends the day, and appends its lines to the answers.
    pub fn carry_out(
        &mut self,
        alloc: Global,
        said: Statement<'_>,
        answers: &mut Vec<u8>,
    ) -> StepOutcome
        ensures { CarriesOut P.telling self.old self.new (statement said.entry) answers.old.items answers.new.items result }
    {
        if let Statement::End = said {
            return StepOutcome::End;
        }
        let Ok(outcome) = self.perform(alloc, said) else {
            return StepOutcome::NoMemory;
        };
        let pushed = push_outcome(alloc, answers, &outcome);
        drop(outcome);
        match pushed {
            Ok(()) => StepOutcome::Done,
            Err(NoMemory) => StepOutcome::NoMemory,
        }
    }

    // The outcome of a statement.
    fn perform(&mut self, alloc: Global, said: Statement<'_>) -> Result<StatementOutcome, NoMemory>
        ensures { ComesTo P.telling self.old self.new (Does (machine_of self.old) (statement said.entry)) result }
    {
        match said {
            Statement::At(moment) => Ok(self.set_moment(moment)),
            Statement::Call(name, text) => self.call(alloc, name, text),
            Statement::Ask(request) => self.ask(alloc, request),
            Statement::Next => self.next(alloc),
            Statement::Begun(run) => Ok(self.begun(run)),
            Statement::Answer(run, text) => self.answer(alloc, run, text),
            Statement::Logged(run, text, count, logs) => {
                self.logged(alloc, run, text, count, logs)
            }
            Statement::Exit(run, code) => self.exit(alloc, run, code),
            Statement::NoStart(run, text) => self.no_start(alloc, run, text),
            Statement::Fault(run) => self.reply(alloc, run, RunReply::Fault),
            Statement::Lost(run) => Ok(self.lost(run)),
            Statement::Gone(slot, generation) => Ok(self.gone(slot, generation)),
            Statement::Sweep => self.sweep(alloc),
            Statement::Collect(id) => self.collect(alloc, id),
            Statement::Turn => self.turn(alloc),
            Statement::Drain => self.drain(alloc),
            Statement::Reopen => self.reopen(alloc),
            Statement::End => Ok(StatementOutcome::Silent),
        }
    }

    /// Sets the moment of the statements that follow, in milliseconds.
    pub fn set_moment(&mut self, moment: u64) -> StatementOutcome
        ensures { GoesTo P.telling self.old self.new (Does (machine_of self.old) (At moment)) result }
    {
        self.given = moment;
        StatementOutcome::Silent
    }

    /// Calls an action by its percent-encoded full name, with parameters as JSON text.
    pub fn call(
        &mut self,
        alloc: Global,
        name: &str,
        text: &str,
    ) -> Result<StatementOutcome, NoMemory>
        ensures { ComesTo P.telling self.old self.new (Does (machine_of self.old) (Call name.now text.now)) result }
    {
        let full = self.hall.book().is_full(0);
        let words = call_words(alloc, &mut self.scratch, full, name, text)?;
        self.call_with(alloc, words)
    }

    fn call_with(&mut self, alloc: Global, words: CallWords) -> Result<StatementOutcome, NoMemory>
        ensures { ComesTo P.telling self.old self.new (Calls (machine_of self.old) words) result }
    {
        match words {
            CallWords::Refused(reason) => Ok(StatementOutcome::Refused(reason)),
            CallWords::Calls { name, params } => self.invoke(alloc, &name, params),
        }
    }

    fn invoke(
        &mut self,
        alloc: Global,
        name: &FullName,
        params: Params,
    ) -> Result<StatementOutcome, NoMemory>
        ensures { ComesTo P.telling self.old self.new (Meets (machine_of self.old) (events.Called name.now params)) result }
    {
        let called = self.hall.call(alloc, self.given, name, params)?;
        Ok(StatementOutcome::Called(called))
    }

    fn ask(&mut self, alloc: Global, bytes: &[u8]) -> Result<StatementOutcome, NoMemory>
        ensures { ComesTo P.telling self.old self.new (Does (machine_of self.old) (Ask bytes.now)) result }
    {
        match read(alloc, &self.routes, bytes)? {
            Ok(request) => self.request(alloc, &request),
            Err(refused) => unread(alloc, refused),
        }
    }

    fn request(&mut self, alloc: Global, request: &Request) -> Result<StatementOutcome, NoMemory>
        ensures { ComesTo P.telling self.old self.new (Meets (machine_of self.old) (events.Asked request.now)) result }
    {
        let reply = self.hall.ask(alloc, self.given, request)?;
        Ok(StatementOutcome::Asked(reply))
    }

    fn next(&mut self, alloc: Global) -> Result<StatementOutcome, NoMemory>
        ensures { ComesTo P.telling self.old self.new (Meets (machine_of self.old) events.Next) result }
    {
        let order = self.hall.next(alloc, self.given)?;
        Ok(StatementOutcome::Ordered(order))
    }

    fn answer(&mut self, alloc: Global, run: u64, text: &str) -> Result<StatementOutcome, NoMemory>
        ensures { ComesTo P.telling self.old self.new (Does (machine_of self.old) (Answer run text.now)) result }
    {
        let text = Str::of(alloc, text)?;
        let logs = Lines::new();
        self.reply(alloc, run, RunReply::Answer { text, logs })
    }

    fn logged(
        &mut self,
        alloc: Global,
        run: u64,
        text: &str,
        count: u64,
        logs: &[u8],
    ) -> Result<StatementOutcome, NoMemory>
        ensures { ComesTo P.telling self.old self.new (Does (machine_of self.old) (Logged run text.now (lines_of count logs.now))) result }
    {
        let text = Str::of(alloc, text)?;
        let logs = lines_of(alloc, count, logs)?;
        self.reply(alloc, run, RunReply::Answer { text, logs })
    }

    fn exit(&mut self, alloc: Global, run: u64, code: u8) -> Result<StatementOutcome, NoMemory>
        ensures { ComesTo P.telling self.old self.new (Does (machine_of self.old) (Exit run code)) result }
    {
        let ended = exited(code);
        self.reply(alloc, run, ended)
    }

    fn no_start(
        &mut self,
        alloc: Global,
        run: u64,
        text: &str,
    ) -> Result<StatementOutcome, NoMemory>
        ensures { ComesTo P.telling self.old self.new (Does (machine_of self.old) (NoStart run text.now)) result }
    {
        let text = Str::of(alloc, text)?;
        self.reply(alloc, run, RunReply::NoStart { text })
    }

    fn reply(
        &mut self,
        alloc: Global,
        run: u64,
        reply: RunReply,
    ) -> Result<StatementOutcome, NoMemory>
        ensures { ComesTo P.telling self.old self.new (Meets (machine_of self.old) (events.Answered run reply)) result }
    {
        match self.hall.answered(alloc, self.given, run, reply) {
            Ok(answered) => Ok(StatementOutcome::Answered(answered)),
            Err(refused) => unanswered(refused),
        }
    }

    fn begun(&mut self, run: u64) -> StatementOutcome
        ensures { GoesTo P.telling self.old self.new (Meets (machine_of self.old) (events.Begun run)) result }
    {
        told_of(self.hall.begun(self.given, run))
    }

    fn lost(&mut self, run: u64) -> StatementOutcome
        ensures { GoesTo P.telling self.old self.new (Meets (machine_of self.old) (events.Lost run)) result }
    {
        told_of(self.hall.lost(self.given, run))
    }

    fn gone(&mut self, slot: u32, generation: u32) -> StatementOutcome
        ensures { GoesTo P.telling self.old self.new (Meets (machine_of self.old) (events.Gone slot generation)) result }
    {
        told_of(self.hall.gone(self.given, slot, generation))
    }

    fn sweep(&mut self, alloc: Global) -> Result<StatementOutcome, NoMemory>
        ensures { ComesTo P.telling self.old self.new (Meets (machine_of self.old) events.Sweep) result }
    {
        match self.hall.sweep(alloc, self.given) {
            Ok(swept) => Ok(StatementOutcome::Swept(swept)),
            Err(SweepRefusal::StoreFault) => Ok(StatementOutcome::StoreFault),
            Err(SweepRefusal::NoMemory) => Err(NoMemory),
        }
    }

    fn collect(&mut self, alloc: Global, id: Id) -> Result<StatementOutcome, NoMemory>
        ensures { ComesTo P.telling self.old self.new (Meets (machine_of self.old) (events.Collected id)) result }
    {
        let collected = self.hall.collect(alloc, self.given, &id)?;
        Ok(StatementOutcome::Collected(collected))
    }

    /// Asks what is to be done, and does it.
    pub fn turn(&mut self, alloc: Global) -> Result<StatementOutcome, NoMemory>
        ensures { ComesTo P.telling self.old self.new (Does (machine_of self.old) Turn) result }
    {
        let turned = day_turn(
            alloc,
            &mut self.hall,
            &mut self.shelf,
            &mut self.runner,
            self.given,
        )?;
        Ok(StatementOutcome::Turned(turned))
    }

    /// Takes no more invocations from now on, and returns whether all that were accepted have ended.
    pub fn drain(&mut self, alloc: Global) -> Result<StatementOutcome, NoMemory>
        ensures { ComesTo P.telling self.old self.new (Meets (machine_of self.old) events.Drain) result }
    {
        let drain = self.hall.drain(alloc, self.given)?;
        Ok(StatementOutcome::Drained(drain))
    }

    fn reopen(&mut self, alloc: Global) -> Result<StatementOutcome, NoMemory>
        ensures { ComesTo P.telling self.old self.new (Meets (machine_of self.old) events.Reopened) result }
    {
        match self.hall.reopen_in_place(alloc, self.given) {
            Ok(happened) => Ok(StatementOutcome::Reopened(happened)),
            Err(SweepRefusal::StoreFault) => Ok(StatementOutcome::StoreFault),
            Err(SweepRefusal::NoMemory) => Err(NoMemory),
        }
    }
}

// By which requests are read, and where containers lie.
fn tools(alloc: Global) -> Result<(Routes, Shelf<PlainContainer>), NoMemory>
    ensures { IfOk result (λ tools. tools.1 ≡ []) }
{
    let routes = Routes::new(alloc)?;
    let shelf = Shelf::new(alloc)?;
    Ok((routes, shelf))
}

// The request that the bytes begin with, or why they begin with none.
fn read(
    alloc: Global,
    routes: &Routes,
    bytes: &[u8],
) -> Result<Result<Request, HttpRefusal>, NoMemory>
    ensures { IfOk result (λ read. IsRead bytes.now read) }
{
    match routes.read(alloc, bytes) {
        Ok(read) => Ok(Ok(read.request)),
        Err(refusal) => {
            if refusal == HttpRefusal::NoMemory {
                return Err(NoMemory);
            }
            Ok(Err(refusal))
        }
    }
}

// The reply to bytes that are no request.
fn unread(alloc: Global, refused: HttpRefusal) -> Result<StatementOutcome, NoMemory>
    ensures { IfOk result (λ outcome. outcome ≡ unread refused) }
{
    let answer = refusal(alloc, &Reason::Http(refused))?;
    Ok(StatementOutcome::Asked(Reply::Now(answer)))
}

// The reply of a program that ended with this status, and gave no result.
fn exited(code: u8) -> RunReply
    ensures { result ≡ replies.Exit (pos code) [] }
{
    let code = i32::from(code);
    let logs = Lines::new();
    RunReply::Exit { code, logs }
}

// The report on a container was accepted, or why not.
fn told_of(told: Result<(), FloorRefusal>) -> StatementOutcome
    ensures { result ≡ told_of told }
{
    match told {
        Ok(()) => StatementOutcome::Taken,
        Err(refusal) => StatementOutcome::Denied(refusal),
    }
}

// Why a runner's reply isn't taken.
fn unanswered(refused: AnswerRefusal) -> Result<StatementOutcome, NoMemory>
    ensures { Denies refused result }
{
    match refused {
        AnswerRefusal::NoRun { run, .. } => Ok(StatementOutcome::NoRun(run)),
        AnswerRefusal::StoreFault(_) => Ok(StatementOutcome::StoreFault),
        AnswerRefusal::NoMemory(_) => Err(NoMemory),
    }
}
