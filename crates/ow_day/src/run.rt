// A day read as a stream. Each statement is carried out as soon as its bytes are there. The answers are written before more of the
// day is read, and as soon as a megabyte of them is ready.
ghost use Rattle.std.specs.Prelude.{◌≡◌, ◌≢◌, ◌<◌, ◌≤◌, if◌then◌else◌, length, false, true, [], Some, None, OnOk, OnErr, IfSome, IfNone};
ghost use Rattle.ow_hall.specs.Comes.{HoldsBook};
ghost use Rattle.ow_hall.specs.History.{IsLegal};
ghost use Rattle.ow_traits.specs.Streams.{HasCause, Rose, Takes, TakesFront};
ghost use Rattle.ow_traits.specs.Prewarms.{AreWantsSized};
ghost use Rattle.ow_day.specs.Day.{Cut as CutFirst, first_statement};
ghost use Rattle.ow_day.specs.Limits.{most_ready};
ghost use Rattle.ow_day.specs.Carried.{IsOpeningFault, IsOverTable, TellsDay, not_opened};
ghost use Rattle.ow_day.specs.Reads.{IsAnsweredOver, LeavesRest};
ghost use Rattle.ow_day.specs.Session.{IsLater};
ghost use Rattle.ow_day.specs.Run.{Closes, IsBounded, IsOfDay, StepsOn, Turns, WritesOn, work};

use crate::first::{First, first_statement};
use crate::input::{FillError, Filled, Input};
use crate::session::{Session, StepOutcome, Unopened};
use ow_command_line::Status;
use ow_hall::StartFault;
use ow_tenant::Tenants;
use ow_traits::{Failed, Keeper, Sink, Source, write_all};
use std::alloc::Global;

/// As soon as this many bytes of answers are ready, they are written.
const MOST_READY: usize = 1_048_576;

/// The reader of a day: the session that carries out its statements, what was read of it, and the answers that aren't written yet.
/// `number` is that of the next statement, counted from 1.
#[derive(Drop)]
pub struct DayReader<P: Keeper + Drop> {
    pub session: Session<P>,
    pub input: Input,
    /// The end of the day was read.
    pub ended: bool,
    pub answers: Vec<u8>,
    pub number: u64,
}

impl<P: Keeper + Drop> DayReader<P> {
    // Nothing is read of the day yet.
    fn new(alloc: Global, session: Session<P>, input: Input) -> Self
        ensures session { result.session ≡ session }
        ensures input { result.input ≡ input }
        ensures ended { result.ended ≡ false }
        ensures answers { result.answers.items ≡ [] }
        ensures number { result.number ≡ 1 }
    {
        DayReader {
            session,
            input,
            ended: false,
            answers: Vec::new(alloc),
            number: 1,
        }
    }

    // Carries out the first statement of what waits.
    fn step(&mut self, alloc: Global) -> StepOutcome
        requires { IsBounded self.old }
        ensures steps { StepsOn P.telling self.old self.new result }
        ensures bounded { result ≡ StepOutcome.Done → IsBounded self.new }
        ensures falls { result ≡ StepOutcome.Done → work self.new < work self.old }
        ensures faults_grow { IsLater P.telling self.old.session self.new.session }
    {
        if self.input.len() == 0 {
            return self.without_bytes();
        }
        if self.input.is_cut(!self.ended) {
            return StepOutcome::Cut;
        }
        let newline = self.input.newline();
        match first_statement(!self.ended, self.input.pending(), newline) {
            First::Found { statement, used } => {
                let step = self.session.carry_out(alloc, statement, &mut self.answers);
                if let StepOutcome::Done = step {
                    self.input.skip(used);
                    self.number += 1;
                }
                step
            }
            First::Wrong => StepOutcome::Bad,
            First::Cut => StepOutcome::Cut,
            First::Awaits { line, left } => {
                self.input.await_lines(line, left);
                StepOutcome::Cut
            }
        }
    }

    // No byte waits.
    fn without_bytes(&self) -> StepOutcome
        ensures { result ≡ (if self.now.ended then StepOutcome.End else StepOutcome.Cut) }
    {
        if self.ended {
            StepOutcome::End
        } else {
            StepOutcome::Cut
        }
    }

    // Writes the answers, and ends as the step does.
    fn close<O: Sink>(&self, out: &mut O, step: StepOutcome) -> Status
        ensures told { Closes (O.taken out.old) (O.taken out.new) self.now step result }
        ensures own { IsOfDay result }
        ensures read { result ≢ Status.ReadFault }
        ensures write { result ≡ Status.WriteFault → Rose (O.faults out.old) (O.faults out.new) }
        ensures faults_grow { O.faults out.old ≤ O.faults out.new }
    {
        let status = match step {
            StepOutcome::End => Status::Ok,
            StepOutcome::Bad => Status::BadDay {
                statement: self.number,
            },
            StepOutcome::Done | StepOutcome::Cut | StepOutcome::NoMemory => return Status::NoMemory,
        };
        match write_all(out, &self.answers) {
            Ok(()) => status,
            Err(_) => Status::WriteFault,
        }
    }

    // Reads on, where the first statement is cut. The answers are written before.
    fn read_on<S: Source, O: Sink>(&mut self, day: &mut S, out: &mut O) -> Option<Status>
        requires bounded { IsBounded self.old }
        requires unended { self.old.ended ≡ false }
        requires cut { first_statement true self.old.input.pending ≡ CutFirst }
        ensures told { Turns P.telling (S.left day.old) (S.left day.new) (O.taken out.old) (O.taken out.new) self.old self.new result }
        ensures bounded { IfNone result (IsBounded self.new) }
        ensures falls { IfNone result (work self.new < work self.old) }
        ensures ready { IfNone result (length self.new.answers.items < most_ready) }
        ensures own { IfSome result IsOfDay }
        ensures session { self.new.session ≡ self.old.session }
        ensures read { result ≡ Some Status.ReadFault → Rose (S.faults day.old) (S.faults day.new) }
        ensures write { result ≡ Some Status.WriteFault → Rose (O.faults out.old) (O.faults out.new) }
        ensures day_later { S.faults day.old ≤ S.faults day.new }
        ensures out_later { O.faults out.old ≤ O.faults out.new }
    {
        if flush(&mut self.answers, out).is_err() {
            return Some(Status::WriteFault);
        }
        match self.input.fill(day) {
            Ok(Filled::More) => None,
            Ok(Filled::End) => {
                self.ended = true;
                None
            }
            Ok(Filled::Past) => Some(Status::DayTooLong),
            Err(FillError::Failed) => Some(Status::ReadFault),
            Err(FillError::NoMemory) => Some(Status::NoMemory),
        }
    }

    // Writes the answers, where enough of them are ready.
    fn write_ready<O: Sink>(&mut self, out: &mut O) -> Option<Status>
        requires { IsBounded self.old }
        ensures told { WritesOn P.telling (O.taken out.old) (O.taken out.new) self.old self.new result }
        ensures bounded { IsBounded self.new }
        ensures work { work self.new ≡ work self.old }
        ensures ready { IfNone result (length self.new.answers.items < most_ready) }
        ensures session { self.new.session ≡ self.old.session }
        ensures fault { IfSome result (λ status. status ≡ Status.WriteFault) }
        ensures write { IfSome result (λ status. Rose (O.faults out.old) (O.faults out.new)) }
        ensures faults_grow { O.faults out.old ≤ O.faults out.new }
    {
        if self.answers.len() < MOST_READY {
            return None;
        }
        match flush(&mut self.answers, out) {
            Ok(()) => None,
            Err(_) => Some(Status::WriteFault),
        }
    }

    // Carries out one statement, and writes the answers where enough of them are ready; or reads on.
    fn turn<S: Source, O: Sink>(
        &mut self,
        alloc: Global,
        day: &mut S,
        out: &mut O,
    ) -> Option<Status>
        requires { IsBounded self.old }
        ensures told { Turns P.telling (S.left day.old) (S.left day.new) (O.taken out.old) (O.taken out.new) self.old self.new result }
        ensures bounded { IfNone result (IsBounded self.new) }
        ensures falls { IfNone result (work self.new < work self.old) }
        ensures ready { IfNone result (length self.new.answers.items < most_ready) }
        ensures own { IfSome result IsOfDay }
        ensures faults_grow { IsLater P.telling self.old.session self.new.session }
        ensures read { result ≡ Some Status.ReadFault → Rose (S.faults day.old) (S.faults day.new) }
        ensures write { result ≡ Some Status.WriteFault → Rose (O.faults out.old) (O.faults out.new) }
        ensures day_later { S.faults day.old ≤ S.faults day.new }
        ensures out_later { O.faults out.old ≤ O.faults out.new }
    {
        match self.step(alloc) {
            StepOutcome::Done => self.write_ready(out),
            StepOutcome::Cut => self.read_on(day, out),
            step => Some(self.close(out, step)),
        }
    }

    // The store.
    fn finish(self) -> P
        ensures store { result ≡ self.session.hall.store }
        ensures legal { IsLegal self.session.hall.tenants self.session.hall.ledger.entries }
        ensures kept { HoldsBook (P.telling self.session.hall.store).rows self.session.hall.tenants self.session.hall.ledger }
    {
        let DayReader { session, .. } = self;
        session.finish()
    }
}

/// Opens the service over a store and an office table, carries out the statements of a day, as they come, and writes their answers.
/// The store is handed back in each case.
pub fn run_day<S: Source, O: Sink, P: Keeper + Drop>(
    alloc: Global,
    tenants: Tenants,
    store: P,
    day: &mut S,
    out: &mut O,
) -> (Status, P)
    requires { AreWantsSized tenants.wants }
    ensures told { TellsDay tenants (P.telling store) (P.telling result.1) (S.left day.old) (O.taken out.old) (O.taken out.new) result.0 }
    ensures reads { IfSome (S.left day.old) (λ bytes. LeavesRest bytes (S.left day.new)) }
    ensures answered { result.0 ≡ Status.ReadFault → IfSome (S.left day.old) (λ bytes. IsAnsweredOver tenants (P.telling store) bytes (S.left day.new) (O.taken out.old) (O.taken out.new)) }
    ensures own { IsOverTable result.0 }
    ensures read { result.0 ≡ Status.ReadFault → Rose (S.faults day.old) (S.faults day.new) }
    ensures write { result.0 ≡ Status.WriteFault → Rose (O.faults out.old) (O.faults out.new) }
    ensures unbegun { IsOpeningFault result.0 → (day.new ≡ day.old) × (out.new ≡ out.old) }
{
    let Ok(input) = Input::new(alloc) else {
        drop(tenants);
        return (Status::NoMemory, store);
    };
    let session = match Session::new(alloc, tenants, store) {
        Ok(session) => session,
        Err(Unopened { why, store }) => {
            drop(input);
            return (not_opened(why), store);
        }
    };
    let mut reader = DayReader::new(alloc, session, input);
    'turns: loop {
        if let Some(status) = reader.turn(alloc, day, out) {
            return (status, reader.finish());
        }
    }
}

/// How the office ends where the service isn't opened.
pub fn not_opened(why: StartFault) -> Status
    ensures { result ≡ not_opened why }
{
    match why {
        StartFault::BadKept(key) => Status::BadKept { key },
        StartFault::StoreFault => Status::StoreFault,
        StartFault::NoMemory => Status::NoMemory,
    }
}

// Writes the answers, and drops them.
fn flush<O: Sink>(answers: &mut Vec<u8>, out: &mut O) -> Result<(), Failed>
    ensures ok { OnOk result (Takes (O.taken out.old) (O.taken out.new) answers.old.items) }
    ensures none { OnOk result (answers.new.items ≡ []) }
    ensures err { OnErr result (TakesFront (O.taken out.old) (O.taken out.new) answers.old.items) }
    ensures cause { HasCause (O.faults out.old) (O.faults out.new) result }
{
    write_all(out, answers)?;
    answers.clear();
    Ok(())
}
