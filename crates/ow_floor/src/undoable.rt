// Lists that can be held: what was before is kept as the steps that undo what was done since.
ghost use Rattle.std.specs.Prelude.{◌≡◌, ◌<◌, ◌≤◌, ◌++◌, [], ◌∷◌, length, slice_set, true, false, IsOk, OnOk, OnErr, vec_len, vec_capacity};
ghost use Rattle.ow_floor.specs.Undoable.{noted, past, undo, undone};

use ow_value::NoMemory;
use std::alloc::Global;
use std::marker::Model;
use std::mem;

/// What undoes one change.
#[derive(Drop)]
pub(crate) enum Step<T: Drop> {
    /// The last one was added.
    Added,
    /// This one was at this place.
    Was(usize, T),
    /// It was this.
    All(Vec<T>),
}

/// A list that can be held.
#[derive(Drop)]
pub(crate) struct Undoable<T: Drop> {
    items: Vec<T>,
    steps: Vec<Step<T>>,
}

impl<T: Drop> Model for Undoable<T> {
    ghost use Rattle.std.specs.Prelude.{◌-◌, vec_len, vec_capacity};
    ghost use Rattle.ow_floor.specs.Undoable.{UndoableView, undone};

    ghost Value = { UndoableView T };

    ghost view = { λ k. record {
      now = k.items.items;
      before = undone k.steps.items k.items.items;
      space = vec_capacity k.items - vec_len k.items;
      slack = vec_capacity k.steps - vec_len k.steps;
    } };
}

impl<T: Drop> Undoable<T> {
    /// An empty list. This takes no memory.
    pub(crate) fn new(alloc: Global) -> Undoable<T>
        ensures now { result.now ≡ [] }
        ensures before { result.before ≡ [] }
    {
        Undoable {
            items: Vec::new(alloc),
            steps: Vec::new(alloc),
        }
    }

    /// Its present items.
    pub(crate) fn items(&self) -> &[T]
        ensures { result.now ≡ self.now.now }
    {
        self.items.as_slice()
    }

    /// Makes room for one more.
    pub(crate) fn reserve(&mut self) -> Result<(), NoMemory>
        ensures now { self.new.now ≡ self.old.now }
        ensures before { self.new.before ≡ self.old.before }
        ensures slack { self.old.slack ≤ self.new.slack }
        ensures space { OnOk result (1 ≤ self.new.space) }
    {
        self.items.reserve(1)?;
        Ok(())
    }

    /// Makes room for one change, where it is held.
    pub(crate) fn reserve_step(&mut self, held: bool) -> Result<(), NoMemory>
        ensures now { self.new.now ≡ self.old.now }
        ensures before { self.new.before ≡ self.old.before }
        ensures space { self.old.space ≤ self.new.space }
        ensures slack { OnOk result (held ≡ true → 1 ≤ self.new.slack) }
        ensures free { held ≡ false → IsOk result }
    {
        if held {
            self.steps.reserve(1)?;
        }
        Ok(())
    }

    /// One more at the end. There is room.
    pub(crate) fn push(&mut self, held: bool, item: T)
        requires space { 1 ≤ self.old.space }
        requires slack { held ≡ true → 1 ≤ self.old.slack }
        ensures now { self.new.now ≡ self.old.now ++ item ∷ [] }
        ensures held { past held self.new.before ≡ past held self.old.before }
    {
        self.items.push_reserved(item);
        note(&mut self.steps, held, Step::Added);
    }

    /// Another at this place. There is room for the change.
    pub(crate) fn set(&mut self, held: bool, place: usize, item: T)
        requires place { place < length self.old.now }
        requires slack { held ≡ true → 1 ≤ self.old.slack }
        ensures now { self.new.now ≡ slice_set self.old.now place item }
        ensures held { past held self.new.before ≡ past held self.old.before }
    {
        let old = mem::replace(&mut self.items[place], item);
        note(&mut self.steps, held, Step::Was(place, old));
    }

    /// Another list. There is room for the change.
    pub(crate) fn replace(&mut self, held: bool, items: Vec<T>)
        requires { held ≡ true → 1 ≤ self.old.slack }
        ensures now { self.new.now ≡ items.items }
        ensures held { past held self.new.before ≡ past held self.old.before }
    {
        let old = mem::replace(&mut self.items, items);
        note(&mut self.steps, held, Step::All(old));
    }

    /// Holds the list: from now on its present state is kept. This takes no memory.
    pub(crate) fn hold(&mut self)
        ensures now { self.new.now ≡ self.old.now }
        ensures before { self.new.before ≡ self.old.now }
    {
        self.steps.clear();
    }

    /// It is again what it was at the hold. It takes no memory.
    pub(crate) fn take_back(&mut self)
        ensures { self.new.now ≡ self.old.before }
    {
        take_all_back(&mut self.items, &mut self.steps);
    }
}

// Keeps a step, where it is held.
fn note<T: Drop>(steps: &mut Vec<Step<T>>, held: bool, step: Step<T>)
    requires { held ≡ true → vec_len steps.old < vec_capacity steps.old }
    ensures { steps.new.items ≡ noted held step steps.old.items }
{
    if held {
        steps.push_reserved(step);
    }
}

// Undoes one change.
fn take_back<T: Drop>(items: &mut Vec<T>, step: Step<T>)
    ensures { items.new.items ≡ undo step items.old.items }
{
    match step {
        Step::Added => {
            let _ = items.pop();
        }
        Step::Was(place, item) => {
            if place < items.len() {
                items[place] = item;
            }
        }
        Step::All(old) => *items = old,
    }
}

// Undoes all changes, the last first.
fn take_all_back<T: Drop>(items: &mut Vec<T>, steps: &mut Vec<Step<T>>)
    ensures { items.new.items ≡ undone steps.old.items items.old.items }
{
    while let Some(step) = steps.pop() {
        take_back(items, step);
    }
}
