// A worker with what it works with, and what it does by a word.
ghost use Rattle.std.specs.Prelude.{◌≡◌, ◌<◌};
ghost use Rattle.ow_board.specs.Board.{IsPassOf};

use crate::office::{Office, is_made};
use crate::texts::notes_text;
use ow_board::Pass;
use ow_desk::Receipts;
use ow_threads::{FixedClock, Gate, OpenGate};
use ow_traits::{Kind, MemoryKeeper, Runner, Started};
use ow_value::NoMemory;
use ow_worker::{Job, Turn, Watch, again, reap, turn, watch};
use std::alloc::Global;
use std::process::Abort;
use std::sync::Wait;
use std::test::Fail;

/// Works at an office, with a pass of its board, a runner, and receipts of what it does.
#[derive(Drop)]
pub(crate) struct Worker<'a, R: Runner + Drop> {
    pub(crate) office: &'a Office<R::Container>,
    pub(crate) pass: Pass<R::Container>,
    pub(crate) runner: R,
    pub(crate) notes: Receipts<MemoryKeeper>,
    ghost own: { IsPassOf office.now.board pass },
}

// A turn that ends the tests, since it leaves a reply that is to be booked.
fn end<H: Abort>(rt: &H, _job: Job) -> &'static str {
    rt.abort()
}

fn lost_word(seen: u64) -> &'static str {
    if seen == 0 { "lost at 0" } else { "lost" }
}

/// What a turn came to, as a word.
pub(crate) fn word_of<H: Abort>(rt: &H, turned: Turn) -> &'static str {
    match turned {
        Turn::Ran => "ran",
        Turn::Removed => "removed",
        Turn::Warmed => "warmed",
        Turn::Lost { seen } => lost_word(seen),
        Turn::Idle => "idle",
        Turn::StoreFault(job) => end(rt, job),
        Turn::NoMemory(job) => match job {
            Some(job) => end(rt, job),
            None => "no memory",
        },
    }
}

fn watch_word(watched: Watch) -> &'static str {
    match watched {
        Watch::Swept => "swept",
        Watch::StoreFault => "store fault",
        Watch::NoMemory => "no memory",
    }
}

impl<'a, R: Runner + Drop> Worker<'a, R> {
    /// A worker of this pass.
    pub(crate) fn of(
        alloc: Global,
        office: &'a Office<R::Container>,
        pass: Pass<R::Container>,
        runner: R,
    ) -> Result<Worker<'a, R>, Fail>
        requires { IsPassOf office.now.board pass }
    {
        let notes = Receipts::new(alloc, &office.issuer)?;
        Ok(Worker {
            office,
            pass,
            runner,
            notes,
        })
    }

    /// Another worker at the same office.
    pub(crate) fn other(&mut self, alloc: Global, runner: R) -> Result<Worker<'a, R>, Fail> {
        let pass = self.office.board.split(&mut self.pass);
        Worker::of(alloc, self.office, pass, runner)
    }

    /// Makes a turn at this moment.
    pub(crate) fn turn<H: Wait, G: Gate>(
        &mut self,
        rt: &H,
        alloc: Global,
        gate: &G,
        at: u64,
    ) -> Turn {
        turn(
            rt,
            alloc,
            &self.office.desk,
            &self.office.board,
            &mut self.pass,
            &mut self.runner,
            &FixedClock::new(at),
            gate,
            0,
            &mut self.notes,
        )
    }

    /// Books the reply that a turn left, at this moment.
    pub(crate) fn again<H: Wait>(&mut self, rt: &H, alloc: Global, at: u64, job: Job) -> Turn {
        again(
            rt,
            alloc,
            &self.office.desk,
            &self.office.board,
            &mut self.pass,
            &mut self.runner,
            &FixedClock::new(at),
            &mut self.notes,
            job,
        )
    }

    /// How many containers it reaps at this moment.
    pub(crate) fn reap<H: Wait>(
        &mut self,
        rt: &H,
        alloc: Global,
        at: u64,
    ) -> Result<u32, NoMemory> {
        reap(
            rt,
            alloc,
            &self.office.desk,
            &self.office.board,
            &mut self.pass,
            &mut self.runner,
            &FixedClock::new(at),
            &OpenGate::new(),
            0,
            &mut self.notes,
        )
    }

    /// What a sweep at this moment came to, as a word.
    pub(crate) fn sweep<H: Wait>(&mut self, rt: &H, alloc: Global, at: u64) -> &'static str {
        let clock = FixedClock::new(at);
        watch_word(watch(rt, alloc, &self.office.desk, &clock, &mut self.notes))
    }

    /// The word of the slot.
    pub(crate) fn look(&mut self, slot: u32) -> u64
        requires { slot < 512 }
    {
        self.office.board.look(&mut self.pass, slot)
    }

    /// Whether a container is put into the slot.
    pub(crate) fn put(
        &mut self,
        alloc: Global,
        slot: u32,
        generation: u32,
        second: u32,
    ) -> Result<bool, Fail>
        requires { (slot < 512) × (generation < 1073741824) }
    {
        match self.runner.start(alloc, Kind::Plain, 256)? {
            Started::Up(container) => Ok(is_made(
                self.office
                    .board
                    .put(&mut self.pass, slot, generation, second, container),
            )),
            Started::Down(reply) => {
                drop(reply);
                Ok(false)
            }
        }
    }

    /// The text of its receipts.
    pub(crate) fn noted(&self, alloc: Global) -> Result<String, Fail> {
        notes_text(alloc, &self.notes)
    }
}
