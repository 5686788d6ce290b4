// Slots and their states, and what each event makes of one.
ghost use Rattle.std.specs.Prelude.{◌≡◌, ◌+◌, ◌↔◌, IsTrue, Some, true, if◌then◌else◌};
ghost use Rattle.ow_slots.specs.Slots.{slot_answer};
ghost use Rattle.ow_slots.specs.State.{CanGo, IsVacant, StartFits, after_gone, answered_state, assigned, awaits, begun_state, can_open, gone_state, goes, holds, is_cold, is_idle, is_prewarmed, lost_state, opened, overrun_state, recorded_of, removed_state, runs, state_memory, takes_gone, with_state};
ghost use Rattle.ow_slots.specs.declared.states.State.TheVariants.{Busy, Vacant};

use crate::keys::{Key, Start};
use crate::refusal::SlotRefusal;
use ow_traits::Kind;
use ow_value::{NoMemory, PlainData};
use std::alloc::Global;
use std::mem;

/// The greatest generation. A slot that has it takes no new container.
pub const GREATEST_GENERATION: u32 = 1_073_741_823;

/// A run in its container.
#[derive(Drop)]
pub struct Work {
    pub run: u64,
    pub key: Key,
    pub start: Start,
    /// The moment of its order, in milliseconds.
    pub at: u64,
    /// The moment at which its activation was recorded as overrun.
    pub recorded: Option<u64>,
    /// The moment at which a container that wasn't warm was initialised.
    pub begun: Option<u64>,
    /// Whether its container is gone.
    pub gone: bool,
}

/// What a slot holds. Memories are in MB.
#[derive(Drop)]
pub enum State {
    /// No container.
    Vacant,
    /// A container that is started ahead.
    Opening { run: u64, kind: Kind, memory: u32 },
    /// A container that was started ahead, and waits for the first run.
    Prewarmed { kind: Kind, memory: u32 },
    /// A container that runs an action.
    Busy(Work),
    /// A container that waits for a run of its key.
    Idle { key: Key, last_used: u64 },
    /// A container that is being removed.
    Closing { memory: u32 },
}

/// A place for one container at a time.
#[derive(Drop)]
pub struct Slot {
    /// How many containers it has had.
    pub generation: u32,
    pub state: State,
}

impl Work {
    fn begun(self, at: u64) -> Work
        ensures { result ≡ record self { begun = Some at } }
    {
        let mut work = self;
        work.begun = Some(at);
        work
    }

    fn overrun(self, at: u64) -> Work
        ensures { result ≡ record self { recorded = Some at } }
    {
        let mut work = self;
        work.recorded = Some(at);
        work
    }

    fn gone(self) -> Work
        ensures { result ≡ record self { gone = true } }
    {
        let mut work = self;
        work.gone = true;
        work
    }

    // What its container is after the answer.
    fn answered(self, alive: bool, at: u64) -> State
        ensures { result ≡ answered_state alive at (Busy self) }
    {
        let memory = self.key.memory;
        if self.gone {
            State::Vacant
        } else if alive && self.recorded.is_none() {
            State::Idle {
                key: self.key,
                last_used: at,
            }
        } else {
            State::Closing { memory }
        }
    }
}

impl State {
    /// The memory that it holds, in MB.
    pub fn memory(&self) -> u32
        ensures { result ≡ state_memory self.now }
    {
        match self {
            State::Vacant => 0,
            State::Opening { memory, .. } => *memory,
            State::Prewarmed { memory, .. } => *memory,
            State::Busy(work) => { if work.gone { 0 } else { work.key.memory } }
            State::Idle { key, .. } => key.memory,
            State::Closing { memory } => *memory,
        }
    }

    fn is_idle(&self) -> bool
        ensures { result ≡ is_idle self.now }
    {
        matches!(self, State::Idle { .. })
    }

    fn is_prewarmed(&self) -> bool
        ensures { result ≡ is_prewarmed self.now }
    {
        matches!(self, State::Prewarmed { .. })
    }

    // Whether it has this run, which may still begin.
    pub(crate) fn awaits(&self, run: u64) -> bool
        ensures { result ≡ awaits run self.now }
    {
        match self {
            State::Opening { run: own, .. } => *own == run,
            State::Busy(work) => match work.start {
                Start::Warm => false,
                _ => work.begun.is_none() && work.run == run,
            },
            _ => false,
        }
    }

    // Whether it is busy with this run.
    pub(crate) fn runs(&self, run: u64) -> bool
        ensures { result ≡ runs run self.now }
    {
        match self {
            State::Busy(work) => work.run == run,
            _ => false,
        }
    }

    // Whether it has this run, busy or opening.
    pub(crate) fn holds(&self, run: u64) -> bool
        ensures { result ≡ holds run self.now }
    {
        match self {
            State::Opening { run: own, .. } => *own == run,
            State::Busy(work) => work.run == run,
            _ => false,
        }
    }

    // Whether its container can be reported as gone.
    fn takes_gone(&self) -> bool
        ensures { result ≡ takes_gone self.now }
    {
        match self {
            State::Vacant => false,
            State::Opening { .. } => false,
            State::Busy(work) => !work.gone,
            _ => true,
        }
    }

    // The moment at which its run was recorded as overrun.
    pub(crate) fn recorded(&self) -> Option<u64>
        ensures { result ≡ recorded_of self.now }
    {
        match self {
            State::Busy(work) => work.recorded,
            _ => None,
        }
    }

    fn begun(self, at: u64) -> State
        ensures { result ≡ begun_state at self }
    {
        match self {
            State::Opening { kind, memory, .. } => State::Prewarmed { kind, memory },
            State::Busy(work) => State::Busy(work.begun(at)),
            other => other,
        }
    }

    fn answered(self, alive: bool, at: u64) -> State
        ensures { result ≡ answered_state alive at self }
    {
        match self {
            State::Busy(work) => work.answered(alive, at),
            other => other,
        }
    }

    fn lost(self) -> State
        ensures { result ≡ lost_state self }
    {
        match self {
            State::Opening { memory, .. } => State::Closing { memory },
            State::Busy(work) => {
                if work.gone {
                    State::Vacant
                } else {
                    State::Closing {
                        memory: work.key.memory,
                    }
                }
            }
            other => other,
        }
    }

    fn gone(self) -> State
        ensures { result ≡ gone_state self }
    {
        match self {
            State::Busy(work) => State::Busy(work.gone()),
            _ => State::Vacant,
        }
    }

    fn overrun(self, at: u64) -> State
        ensures { result ≡ overrun_state at self }
    {
        match self {
            State::Busy(work) => State::Busy(work.overrun(at)),
            other => other,
        }
    }

    fn removed(self) -> State
        ensures { result ≡ removed_state self }
    {
        match self {
            State::Idle { key, .. } => State::Closing { memory: key.memory },
            State::Prewarmed { memory, .. } => State::Closing { memory },
            other => other,
        }
    }
}

impl Slot {
    /// Whether it is vacant, and can take a new container.
    pub fn can_open(&self) -> bool
        ensures { result ≡ can_open self.now }
    {
        match self.state {
            State::Vacant => self.generation < GREATEST_GENERATION,
            _ => false,
        }
    }

    /// Whether a run can start in it so.
    #[tactic(auto, using(crate::proofs::Offers::open_told))]
    pub fn fits(&self, start: Start) -> bool
        ensures { IsTrue result ↔ StartFits start self.now }
    {
        match start {
            Start::Warm => self.state.is_idle(),
            Start::Prewarmed => self.state.is_prewarmed(),
            Start::Cold => self.is_vacant(),
        }
    }

    /// Whether its container can be removed.
    pub fn can_go(&self) -> bool
        ensures { IsTrue result ↔ CanGo self.now }
    {
        self.state.is_idle() || self.state.is_prewarmed()
    }

    #[tactic(auto, using(crate::proofs::Offers::open_told))]
    fn is_vacant(&self) -> bool
        ensures { IsTrue result ↔ IsVacant self.now }
    {
        self.can_open()
    }

    // Whether its container, of this generation, can be reported as gone.
    fn goes(&self, generation: u32) -> bool
        ensures { result ≡ goes generation self.now }
    {
        self.generation == generation && self.state.takes_gone()
    }

    // With no container.
    pub(crate) fn vacated(&self) -> Slot
        ensures { result ≡ with_state (λ state. Vacant) self.now }
    {
        Slot {
            generation: self.generation,
            state: State::Vacant,
        }
    }

    pub(crate) fn assign(&mut self, run: u64, key: Key, start: Start, at: u64)
        requires { StartFits start self.old }
        ensures { self.new ≡ assigned run key start at self.old }
    {
        self.generation = self.generation_after(start);
        self.put(State::Busy(Work {
            run,
            key,
            start,
            at,
            recorded: None,
            begun: None,
            gone: false,
        }));
    }

    // The generation of the container from which a run starts.
    fn generation_after(&self, start: Start) -> u32
        requires { StartFits start self.now }
        ensures { result ≡ self.now.generation + (if is_cold start then 1 else 0) }
    {
        match start {
            Start::Cold => self.generation + 1,
            _ => self.generation,
        }
    }

    pub(crate) fn open(&mut self, run: u64, kind: Kind, memory: u32)
        requires { IsVacant self.old }
        ensures { self.new ≡ opened run kind memory self.old }
    {
        self.generation += 1;
        self.put(State::Opening { run, kind, memory });
    }

    pub(crate) fn begin(&mut self, at: u64)
        ensures { self.new ≡ with_state (begun_state at) self.old }
    {
        let state = self.take();
        self.put(state.begun(at));
    }

    // Returns the moment at which the run was recorded as overrun, where it was.
    pub(crate) fn answer(&mut self, alive: bool, at: u64) -> Option<u64>
        ensures slot { self.new ≡ with_state (answered_state alive at) self.old }
        ensures recorded { result ≡ recorded_of self.old.state }
    {
        let recorded = self.state.recorded();
        let state = self.take();
        self.put(state.answered(alive, at));
        recorded
    }

    // Returns the moment at which the run was recorded as overrun, where it was.
    pub(crate) fn lose(&mut self) -> Option<u64>
        ensures slot { self.new ≡ with_state lost_state self.old }
        ensures recorded { result ≡ recorded_of self.old.state }
    {
        let recorded = self.state.recorded();
        let state = self.take();
        self.put(state.lost());
        recorded
    }

    // Its container is gone, where it is of this generation and can be.
    pub(crate) fn go(&mut self, slot: u32, generation: u32) -> Result<(), SlotRefusal>
        ensures slot { self.new ≡ after_gone generation self.old }
        ensures answer { result ≡ slot_answer slot generation self.old }
    {
        if self.goes(generation) {
            let state = self.take();
            self.put(state.gone());
            Ok(())
        } else {
            Err(SlotRefusal::NoSlot {
                slot,
                generation: self.generation,
            })
        }
    }

    pub(crate) fn overrun(&mut self, at: u64)
        ensures { self.new ≡ with_state (overrun_state at) self.old }
    {
        let state = self.take();
        self.put(state.overrun(at));
    }

    pub(crate) fn remove(&mut self)
        ensures { self.new ≡ with_state removed_state self.old }
    {
        let state = self.take();
        self.put(state.removed());
    }

    // The state, in whose place none is left.
    fn take(&mut self) -> State
        ensures state { result ≡ self.old.state }
        ensures slot { self.new ≡ record self.old { state = Vacant } }
    {
        mem::replace(&mut self.state, State::Vacant)
    }

    // Replaces the state. One call drops what the old one held.
    fn put(&mut self, state: State)
        ensures { self.new ≡ record self.old { state = state } }
    {
        drop(mem::replace(&mut self.state, state));
    }
}

impl PlainData for Work {
    fn same(&self, other: &Work) -> bool {
        self.run == other.run
            && self.start == other.start
            && self.at == other.at
            && self.recorded == other.recorded
            && self.begun == other.begun
            && self.gone == other.gone
            && self.key.same(&other.key)
    }

    fn copy(&self, alloc: Global) -> Result<Work, NoMemory> {
        Ok(Work {
            run: self.run,
            key: self.key.copy(alloc)?,
            start: self.start,
            at: self.at,
            recorded: self.recorded,
            begun: self.begun,
            gone: self.gone,
        })
    }
}

impl PlainData for State {
    fn same(&self, other: &State) -> bool {
        match (self, other) {
            (State::Vacant, State::Vacant) => true,
            (
                State::Opening { run, kind, memory },
                State::Opening {
                    run: other_run,
                    kind: other_kind,
                    memory: other_memory,
                },
            ) => *run == *other_run && *kind == *other_kind && *memory == *other_memory,
            (
                State::Prewarmed { kind, memory },
                State::Prewarmed {
                    kind: other_kind,
                    memory: other_memory,
                },
            ) => *kind == *other_kind && *memory == *other_memory,
            (State::Busy(work), State::Busy(other_work)) => work.same(other_work),
            (
                State::Idle { key, last_used },
                State::Idle {
                    key: other_key,
                    last_used: other_last,
                },
            ) => *last_used == *other_last && key.same(other_key),
            (State::Closing { memory }, State::Closing { memory: other }) => *memory == *other,
            _ => false,
        }
    }

    fn copy(&self, alloc: Global) -> Result<State, NoMemory> {
        match self {
            State::Vacant => Ok(State::Vacant),
            State::Opening { run, kind, memory } => Ok(State::Opening {
                run: *run,
                kind: *kind,
                memory: *memory,
            }),
            State::Prewarmed { kind, memory } => Ok(State::Prewarmed {
                kind: *kind,
                memory: *memory,
            }),
            State::Busy(work) => Ok(State::Busy(work.copy(alloc)?)),
            State::Idle { key, last_used } => Ok(State::Idle {
                key: key.copy(alloc)?,
                last_used: *last_used,
            }),
            State::Closing { memory } => Ok(State::Closing { memory: *memory }),
        }
    }
}

impl PlainData for Slot {
    fn same(&self, other: &Slot) -> bool {
        self.generation == other.generation && self.state.same(&other.state)
    }

    fn copy(&self, alloc: Global) -> Result<Slot, NoMemory> {
        Ok(Slot {
            generation: self.generation,
            state: self.state.copy(alloc)?,
        })
    }
}
