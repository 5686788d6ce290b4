// What is kept of open composites. It can be held.
ghost use Rattle.std.specs.Prelude.{◌≡◌, ◌<◌, ◌++◌, ◌∷◌, [], Some, length, option_copied, option_map, slice_set, IfOk, MatchResult, OnOk};
ghost use Rattle.std.specs.List.{find};
ghost use Rattle.ow_records.specs.Frame.{first_frame, with_child, with_end, with_used};
ghost use Rattle.ow_slots.specs.Slots.{change_first};
ghost use Rattle.ow_floor.specs.Frames.{frames_accepted, frames_ended, is_frame};
ghost use Rattle.ow_floor.specs.Undoable.{past};
ghost use Rattle.ow_floor.specs.Places.{FrameOf, has};
ghost use Rattle.ow_floor.specs.Store.{AreGone, CellOf, there};
ghost use Rattle.ow_floor.specs.View.{remove_first};

use crate::activations::Part;
use crate::lists::{make_room, set_cell};
use crate::undoable::Undoable;
use ow_records::{Form, Frame, Id, Response, Role};
use ow_value::NoMemory;
use std::alloc::Global;
use std::marker::Model;

/// The frames of open composites, by their acceptance. What is taken out leaves its place empty.
#[derive(Drop)]
pub(crate) struct KeptFrames {
    cells: Undoable<Option<Frame>>,
    // How many first places hold no frame any more.
    gone: usize,
}

impl Model for KeptFrames {
    ghost use Rattle.std.specs.Coded.{codes};
    ghost use Rattle.ow_value.specs.Code.{value_code};
    ghost use Rattle.ow_floor.specs.Undoable.{FramesView};
    ghost use Rattle.ow_floor.specs.Store.{AreGone, there};

    ghost Value = { FramesView };

    ghost coded = { Prim.hlevel (codes, value_code) };

    ghost view = { λ k. record { now = there (λ f. f) k.cells.now; before = there (λ f. f) k.cells.before } };

    ghost invariant = { λ k. AreGone k.gone k.cells.now };
}

impl KeptFrames {
    /// No frame. This takes no memory.
    pub(crate) fn new(alloc: Global) -> KeptFrames
        ensures { result.now ≡ [] }
    {
        KeptFrames {
            cells: Undoable::new(alloc),
            gone: 0,
        }
    }

    /// The frame of the composite.
    pub(crate) fn frame(&self, id: Id) -> Option<&Frame>
        ensures { option_copied result ≡ find (is_frame id) self.now.now }
    {
        match found(self.cells.items(), self.gone, id) {
            Some((_, frame)) => Some(frame),
            None => None,
        }
    }

    /// An activation of this part is accepted.
    pub(crate) fn accept(&mut self, alloc: Global, held: bool, part: Part) -> Result<(), NoMemory>
        ensures now { OnOk result (self.new.now ≡ frames_accepted part self.old.now) }
        ensures held { past held self.new.before ≡ past held self.old.before }
    {
        if let Some(cause) = part.cause {
            self.gone = note_use(alloc, &mut self.cells, self.gone, held, part.top, part.role)?;
            self.gone = note_child(alloc, &mut self.cells, self.gone, held, cause, part.id)?;
        }
        match part.form {
            Form::Leaf => Ok(()),
            Form::Sequence | Form::Conductor => add(&mut self.cells, self.gone, held, part.id),
        }
    }

    /// An activation of this part ends with this response.
    pub(crate) fn end(
        &mut self,
        alloc: Global,
        held: bool,
        part: Part,
        response: &Response,
    ) -> Result<(), NoMemory>
        ensures now { OnOk result (self.new.now ≡ frames_ended part response.now self.old.now) }
        ensures held { past held self.new.before ≡ past held self.old.before }
    {
        match part.form {
            Form::Leaf => {}
            Form::Sequence | Form::Conductor => {
                self.gone = take_out(&mut self.cells, self.gone, held, part.id)?;
            }
        }
        if let Some(cause) = part.cause {
            self.gone = note_end(
                alloc,
                &mut self.cells,
                self.gone,
                held,
                cause,
                part.role,
                response,
            )?;
        }
        Ok(())
    }

    /// From now on what it is now is kept. It takes no memory.
    pub(crate) fn hold(&mut self)
        ensures now { self.new.now ≡ self.old.now }
        ensures before { self.new.before ≡ self.old.now }
    {
        self.cells.hold();
    }

    /// It is again what it was at the hold. It takes no memory.
    pub(crate) fn take_back(&mut self)
        ensures { self.new.now ≡ self.old.before }
    {
        self.cells.take_back();
        self.gone = 0;
    }
}

// The place of the composite's frame. The first `gone` places hold none.
fn frame_place(cells: &[Option<Frame>], gone: usize, id: Id) -> Option<usize>
    requires { AreGone gone cells.now }
    ensures { CellOf (λ f. f) (is_frame id) cells.now result }
{
    for i in gone..cells.len() {
        if is_frame(&cells[i], id) {
            return Some(i);
        }
    }
    None
}

// Whether this place holds the frame of the composite.
fn is_frame(cell: &Option<Frame>, id: Id) -> bool
    ensures { result ≡ has (λ f. f) (is_frame id) cell.now }
{
    match cell {
        Some(frame) => frame.id == id,
        None => false,
    }
}

// The composite's frame, and its place. The first `gone` places hold none.
fn found(cells: &[Option<Frame>], gone: usize, id: Id) -> Option<(usize, &Frame)>
    requires { AreGone gone cells.now }
    ensures { FrameOf (is_frame id) cells.now (option_map (λ p. (p.0, p.1.now)) result) }
{
    let place = frame_place(cells, gone, id)?;
    let Some(frame) = &cells[place] else {
        return None;
    };
    Some((place, frame))
}

// Puts another frame, or none, at this place. Returns how many first places are known to hold none.
#[tactic(auto, using(crate::proofs::Framing::past_seen))]
fn put(
    cells: &mut Undoable<Option<Frame>>,
    gone: usize,
    held: bool,
    place: usize,
    cell: Option<Frame>,
) -> Result<usize, NoMemory>
    requires place { place < length cells.old.now }
    requires gone { AreGone gone cells.old.now }
    ensures now { OnOk result (cells.new.now ≡ slice_set cells.old.now place cell) }
    ensures gone { MatchResult result (λ g. AreGone g cells.new.now) (λ _. AreGone gone cells.new.now) }
    ensures held { past held (there (λ f. f) cells.new.before) ≡ past held (there (λ f. f) cells.old.before) }
{
    if cells.reserve_step(held).is_err() {
        drop(cell);
        return Err(NoMemory);
    }
    Ok(set_cell(cells, gone, held, place, cell))
}

// A composite is accepted.
#[tactic(auto, using(crate::proofs::Framing::frame_added, crate::proofs::Framing::past_seen, crate::proofs::Going::gone_added))]
fn add(cells: &mut Undoable<Option<Frame>>, gone: usize, held: bool, id: Id) -> Result<(), NoMemory>
    requires { AreGone gone cells.old.now }
    ensures now { OnOk result (there (λ f. f) cells.new.now ≡ there (λ f. f) cells.old.now ++ first_frame id ∷ []) }
    ensures gone { AreGone gone cells.new.now }
    ensures held { past held (there (λ f. f) cells.new.before) ≡ past held (there (λ f. f) cells.old.before) }
{
    make_room(cells, held)?;
    cells.push(held, Some(Frame::new(id)));
    Ok(())
}

// The tree of this composite has used one more activation of this role.
fn note_use(
    alloc: Global,
    cells: &mut Undoable<Option<Frame>>,
    gone: usize,
    held: bool,
    top: Id,
    role: Role,
) -> Result<usize, NoMemory>
    requires { AreGone gone cells.old.now }
    ensures now { OnOk result (there (λ f. f) cells.new.now ≡ change_first (is_frame top) (with_used role) (there (λ f. f) cells.old.now)) }
    ensures gone { MatchResult result (λ g. AreGone g cells.new.now) (λ _. AreGone gone cells.new.now) }
    ensures held { past held (there (λ f. f) cells.new.before) ≡ past held (there (λ f. f) cells.old.before) }
{
    let Some((place, frame)) = found(cells.items(), gone, top) else {
        return Ok(gone);
    };
    let frame = frame.with_used(alloc, role)?;
    put(cells, gone, held, place, Some(frame))
}

// This composite has one more child.
fn note_child(
    alloc: Global,
    cells: &mut Undoable<Option<Frame>>,
    gone: usize,
    held: bool,
    cause: Id,
    child: Id,
) -> Result<usize, NoMemory>
    requires { AreGone gone cells.old.now }
    ensures now { OnOk result (there (λ f. f) cells.new.now ≡ change_first (is_frame cause) (with_child child) (there (λ f. f) cells.old.now)) }
    ensures gone { MatchResult result (λ g. AreGone g cells.new.now) (λ _. AreGone gone cells.new.now) }
    ensures held { past held (there (λ f. f) cells.new.before) ≡ past held (there (λ f. f) cells.old.before) }
{
    let Some((place, frame)) = found(cells.items(), gone, cause) else {
        return Ok(gone);
    };
    let frame = frame.with_child(alloc, child)?;
    put(cells, gone, held, place, Some(frame))
}

// The last child of this composite has ended.
fn note_end(
    alloc: Global,
    cells: &mut Undoable<Option<Frame>>,
    gone: usize,
    held: bool,
    cause: Id,
    role: Role,
    response: &Response,
) -> Result<usize, NoMemory>
    requires { AreGone gone cells.old.now }
    ensures now { OnOk result (there (λ f. f) cells.new.now ≡ change_first (is_frame cause) (with_end role response.now) (there (λ f. f) cells.old.now)) }
    ensures gone { MatchResult result (λ g. AreGone g cells.new.now) (λ _. AreGone gone cells.new.now) }
    ensures held { past held (there (λ f. f) cells.new.before) ≡ past held (there (λ f. f) cells.old.before) }
{
    let Some((place, frame)) = found(cells.items(), gone, cause) else {
        return Ok(gone);
    };
    let frame = frame.with_end(alloc, role, response)?;
    put(cells, gone, held, place, Some(frame))
}

// A composite has ended.
fn take_out(
    cells: &mut Undoable<Option<Frame>>,
    gone: usize,
    held: bool,
    id: Id,
) -> Result<usize, NoMemory>
    requires { AreGone gone cells.old.now }
    ensures now { OnOk result (there (λ f. f) cells.new.now ≡ remove_first (is_frame id) (there (λ f. f) cells.old.now)) }
    ensures gone { MatchResult result (λ g. AreGone g cells.new.now) (λ _. AreGone gone cells.new.now) }
    ensures held { past held (there (λ f. f) cells.new.before) ≡ past held (there (λ f. f) cells.old.before) }
{
    match frame_place(cells.items(), gone, id) {
        Some(place) => put(cells, gone, held, place, None),
        None => Ok(gone),
    }
}
