// What the calls of a floor answer.
ghost use Rattle.std.specs.Prelude.{◌≡◌, ◌↔◌, [], ◌∷◌, IsTrue, IfOk};

use crate::{Moved, Run};
use ow_records::{Activation, Id, Record};
use ow_slots::{Start, kind_of};
use ow_traits::{Kind, RunReply};
use ow_value::{Items, NoMemory, Params, PlainData, Str, kept_beside};
use std::alloc::Global;
use std::marker::Model;

/// What a runner needs to run an activation.
#[derive(Drop)]
pub struct RunOrder {
    /// The number of the run, from 1.
    pub run: u64,
    /// The activation that it carries.
    pub id: Id,
    /// The number of its slot.
    pub slot: u32,
    /// The generation of the slot, from 1.
    pub generation: u32,
    /// From which container it starts.
    pub start: Start,
    /// The kind of runner that the code needs.
    pub kind: Kind,
    /// The code of the action.
    pub code: Str,
    /// In MB.
    pub memory: u32,
    /// The merged parameters.
    pub params: Params,
    /// In milliseconds.
    pub timeout: u32,
}

/// A container that is to be started ahead of any run of an action.
#[derive(Clone, Copy, Debug, PartialEq, Eq)]
pub struct PrewarmOrder {
    /// The number of its run, from 1. Runs of actions are numbered together with these.
    pub run: u64,
    /// The number of its slot.
    pub slot: u32,
    /// The generation of the slot, from 1.
    pub generation: u32,
    /// The runner that it is for.
    pub kind: Kind,
    /// In MB.
    pub memory: u32,
}

/// One container of a slot.
#[derive(Clone, Copy, Debug, PartialEq, Eq, Drop)]
pub struct Container {
    /// The number of the slot.
    pub slot: u32,
    /// The generation of the slot, from 1.
    pub generation: u32,
}

/// Why nothing is to be done.
#[derive(Clone, Copy, Debug, PartialEq, Eq)]
pub enum Idle {
    /// No activation waits, and no more containers are wanted ahead.
    Empty,
    /// An activation waits. The memory that it needs is held, and can't be freed now.
    NoRoom,
}

/// What is to be done next.
#[derive(Drop)]
pub enum Order {
    /// This run.
    Run(RunOrder),
    /// This container is started ahead.
    Prewarm(PrewarmOrder),
    /// These containers are removed, one to four.
    Remove(Items<Container>),
    /// Nothing, for this reason.
    Nothing(Idle),
}

/// One thing that happened to an activation.
#[derive(Clone, Copy, Debug, PartialEq, Eq)]
pub enum Happening {
    /// It was accepted, and waits.
    Accepted { id: Id },
    /// Its end was recorded. The code is that of the response: 0 success, 1 application error, 2 error of the action's
    /// developer, 3 internal error.
    Recorded { id: Id, code: u8 },
}

/// What happened in one call, in order.
#[derive(Drop)]
pub struct Happened {
    items: Items<Happening>,
}

impl Model for Happened {
    ghost use Rattle.std.specs.Prelude.{List};
    ghost use Rattle.ow_floor.specs.declared.answers.Happening.{Happening};

    ghost Value = { List Happening };

    ghost view = { λ h. h.items };
}

/// What became of a runner's reply.
#[derive(Drop)]
pub enum Answered {
    /// The end of what the run carries is recorded: this happened.
    Recorded(Happened),
    /// What the run carries had ended before, at this moment, in milliseconds.
    Late { run: u64, at: u64 },
}

/// What a sweep did.
#[derive(Drop)]
pub struct Swept {
    /// The ends of what late runs carried, by the orders of the runs.
    pub happened: Happened,
    /// How many these are.
    pub late: u64,
}

/// Why a runner's reply was not taken. Each hands the reply back.
#[derive(Drop)]
pub enum AnswerRefusal {
    /// No live run has this number.
    NoRun { run: u64, reply: RunReply },
    /// Out of memory.
    NoMemory(RunReply),
    /// The store failed. A floor has none, and never answers so.
    StoreFault(RunReply),
}

/// The answer about the end of an activation for which a request waits.
#[derive(Clone, Copy)]
pub enum Collected<'a> {
    /// It has ended: its record.
    Recorded(&'a Record),
    /// It hasn't ended, and its request still waits.
    NotYet,
    /// It hasn't ended, and its request waits no longer.
    Elapsed,
}

/// Why a call of a floor does nothing.
#[derive(Clone, Copy, Debug, PartialEq, Eq)]
pub enum FloorRefusal {
    /// No request waits for the end of an activation of this id that was accepted since the last opening.
    NotFound,
    /// No slot has such a run.
    NoRun { run: u64 },
    /// The slot has no container of the generation that could be gone. `kept` is the generation that the slot has, 0 where it isn't there.
    NoSlot { slot: u32, kept: u32 },
}

/// Whether all activations have ended.
#[derive(Clone, Copy, Debug, PartialEq, Eq)]
pub enum Drain {
    /// All have. This many were accepted since the last opening.
    Drained(u64),
    /// This many have not, at least one.
    StillOpen(u64),
}

impl AnswerRefusal {
    ghost use Rattle.ow_floor.specs.Calls.{answer_number};

    /// The number by which a client distinguishes the refusals. Out of memory and a fault of the store have 0.
    pub fn number(&self) -> u32
        ensures { result ≡ answer_number self.now }
    {
        match self {
            AnswerRefusal::NoRun { .. } => 29,
            AnswerRefusal::NoMemory(_) | AnswerRefusal::StoreFault(_) => 0,
        }
    }
}

impl FloorRefusal {
    ghost use Rattle.ow_floor.specs.Collecting.{refusal_number};

    /// The number by which a client distinguishes the refusals.
    pub fn number(&self) -> u32
        ensures { result ≡ refusal_number self.now }
    {
        match self {
            FloorRefusal::NotFound => 14,
            FloorRefusal::NoSlot { .. } => 28,
            FloorRefusal::NoRun { .. } => 29,
        }
    }
}

impl RunOrder {
    ghost use Rattle.ow_floor.specs.View.{order_for};

    // The order to run an activation so.
    pub(crate) fn of(alloc: Global, run: Run, task: &Activation) -> Result<RunOrder, NoMemory>
        ensures { IfOk result (λ order. order ≡ order_for run.number run.slot run.generation run.start task.now) }
    {
        let action = task.action.get();
        let code = action.exec.code(alloc)?;
        let (code, params) = kept_beside(code, task.params.copy(alloc))?;
        Ok(RunOrder {
            run: run.number,
            id: task.id,
            slot: run.slot,
            generation: run.generation,
            start: run.start,
            kind: kind_of(&action.exec),
            code,
            memory: action.limits.memory.get(),
            params,
            timeout: action.limits.timeout.get(),
        })
    }
}

impl PlainData for RunOrder {
    fn same(&self, other: &RunOrder) -> bool {
        self.run == other.run
            && self.id == other.id
            && self.slot == other.slot
            && self.generation == other.generation
            && self.start == other.start
            && self.kind == other.kind
            && self.code.same(&other.code)
            && self.memory == other.memory
            && self.params.same(&other.params)
            && self.timeout == other.timeout
    }

    fn copy(&self, alloc: Global) -> Result<RunOrder, NoMemory> {
        let code = self.code.copy(alloc)?;
        let params = self.params.copy(alloc)?;
        Ok(RunOrder {
            run: self.run,
            id: self.id,
            slot: self.slot,
            generation: self.generation,
            start: self.start,
            kind: self.kind,
            code,
            memory: self.memory,
            params,
            timeout: self.timeout,
        })
    }
}

impl PlainData for Container {
    fn same(&self, other: &Container) -> bool {
        *self == *other
    }

    fn copy(&self, _alloc: Global) -> Result<Container, NoMemory> {
        Ok(*self)
    }
}

impl Order {
    ghost use Rattle.ow_floor.specs.View.{is_nothing};

    /// Whether nothing is to be done.
    pub fn is_nothing(&self) -> bool
        ensures { result ≡ is_nothing self.now }
    {
        matches!(self, Order::Nothing(_))
    }
}

impl PlainData for Order {
    fn same(&self, other: &Order) -> bool {
        match (self, other) {
            (Order::Run(a), Order::Run(b)) => a.same(b),
            (Order::Prewarm(a), Order::Prewarm(b)) => a == b,
            (Order::Remove(a), Order::Remove(b)) => a.same(b),
            (Order::Nothing(a), Order::Nothing(b)) => a == b,
            _ => false,
        }
    }

    fn copy(&self, alloc: Global) -> Result<Order, NoMemory> {
        match self {
            Order::Run(order) => Ok(Order::Run(order.copy(alloc)?)),
            Order::Prewarm(order) => Ok(Order::Prewarm(*order)),
            Order::Remove(containers) => Ok(Order::Remove(containers.copy(alloc)?)),
            Order::Nothing(idle) => Ok(Order::Nothing(*idle)),
        }
    }
}

impl Happened {
    ghost use Rattle.ow_floor.specs.Calls.{happened_of};

    /// Nothing happened. This takes no memory.
    pub fn none() -> Happened
        ensures { result ≡ [] }
    {
        Happened {
            items: Items::new(),
        }
    }

    /// What is reported of these moves.
    pub fn of_moves(alloc: Global, moves: &[Moved]) -> Result<Happened, NoMemory>
        ensures { IfOk result (λ h. h ≡ happened_of moves.now) }
    {
        let mut items = Vec::with_capacity(alloc, moves.len())?;
        for moved in moves {
            items.push(moved.happening())?;
        }
        Happened::of(items)
    }

    /// These things happened.
    pub fn of(items: Vec<Happening>) -> Result<Happened, NoMemory>
        ensures { IfOk result (λ h. h ≡ items.items) }
    {
        Ok(Happened {
            items: Items::from_vec(items)?,
        })
    }

    /// What happened, the earliest first.
    pub fn items(&self) -> &[Happening]
        ensures { result.now ≡ self.now }
    {
        self.items.as_slice()
    }
}

impl PlainData for Happening {
    fn same(&self, other: &Happening) -> bool {
        *self == *other
    }

    fn copy(&self, _alloc: Global) -> Result<Happening, NoMemory> {
        Ok(*self)
    }
}

impl PlainData for Happened {
    fn same(&self, other: &Happened) -> bool {
        self.items.same(&other.items)
    }

    fn copy(&self, alloc: Global) -> Result<Happened, NoMemory> {
        Ok(Happened {
            items: self.items.copy(alloc)?,
        })
    }
}

impl PlainData for Answered {
    fn same(&self, other: &Answered) -> bool {
        match (self, other) {
            (Answered::Recorded(happened), Answered::Recorded(other_happened)) => {
                happened.same(other_happened)
            }
            (
                Answered::Late { run, at },
                Answered::Late {
                    run: other_run,
                    at: other_at,
                },
            ) => *run == *other_run && *at == *other_at,
            _ => false,
        }
    }

    fn copy(&self, alloc: Global) -> Result<Answered, NoMemory> {
        match self {
            Answered::Recorded(happened) => Ok(Answered::Recorded(happened.copy(alloc)?)),
            Answered::Late { run, at } => Ok(Answered::Late { run: *run, at: *at }),
        }
    }
}

impl PlainData for Swept {
    fn same(&self, other: &Swept) -> bool {
        self.happened.same(&other.happened) && self.late == other.late
    }

    fn copy(&self, alloc: Global) -> Result<Swept, NoMemory> {
        let happened = self.happened.copy(alloc)?;
        Ok(Swept {
            happened,
            late: self.late,
        })
    }
}
