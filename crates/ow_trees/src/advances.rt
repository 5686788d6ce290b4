// What a composite does next, with all that it takes.
ghost use Rattle.std.specs.Prelude.{◌≡◌, IfOk, IfSome, Some};
ghost use Rattle.std.specs.List.{find};
ghost use Rattle.std.specs.Option.{option_copied};
ghost use Rattle.ow_floor.specs.Frames.{is_frame};
ghost use Rattle.ow_floor.specs.Trace.{task_by};
ghost use Rattle.ow_floor.specs.View.{is_of};
ghost use Rattle.ow_trees.specs.Advance.{advance_in, advance_with, child_plan, component_plan, depth_below, found_advance, next_id, next_step, own_action, plain_advance, refused_advance, run_plan, step_advance, used_by};

use ow_compose::{
    Step, Untold, check_component, conduct_next, find_component, form_of, refused, seq_next,
};
use ow_entity::Lookup;
use ow_floor::{Floor, Plan};
use ow_packages::Effective;
use ow_records::{Activation, Form, Frame, Id, Response, Role, Used};
use ow_value::{NoMemory, Params, PlainData, Str, copied2, kept_beside};
use std::alloc::Global;

/// What a composite does next.
#[derive(Drop)]
pub enum Advance {
    /// It calls an activation.
    Call {
        /// What is to be accepted.
        plan: Plan,
    },
    /// It ends.
    End {
        /// What it answers.
        response: Response,
    },
}

/// What the composite of this id does next: nothing where it isn't open, or its last child is.
pub(crate) fn next_advance<L: Lookup>(
    alloc: Global,
    rows: &L,
    floor: &Floor,
    id: Id,
) -> Result<Option<Advance>, NoMemory>
    ensures { IfOk result (λ a. a ≡ advance_in (L.found rows.now) floor.now.now (task_by (find (is_of id) floor.now.now.open_items)) (find (is_frame id) floor.now.now.frames)) }
{
    let Some(composite) = floor.activation(&id) else {
        return Ok(None);
    };
    let Some(frame) = floor.framed(&id) else {
        return Ok(None);
    };
    let Some(next) = next_id(floor, composite.id.namespace) else {
        return Err(NoMemory);
    };
    let top = floor.framed(&composite.top);
    let used = used_by(top);
    composite_advance(alloc, rows, next, composite, used, frame)
}

// What a composite of this frame does next. A child gets this id.
fn composite_advance<L: Lookup>(
    alloc: Global,
    rows: &L,
    id: Id,
    composite: &Activation,
    used: Used,
    frame: &Frame,
) -> Result<Option<Advance>, NoMemory>
    ensures { IfOk result (λ a. a ≡ advance_with (L.found rows.now) id composite.now used frame.now) }
{
    let Some(step) = next_step(alloc, composite, used, frame)? else {
        return Ok(None);
    };
    step_advance(alloc, rows, id, composite, used, frame, step)
}

// The next id of a namespace, unless the greatest one is drawn.
fn next_id(floor: &Floor, namespace: u64) -> Option<Id>
    ensures { IfSome result (λ id. id ≡ next_id floor.now.now.drawn namespace) }
{
    let count = floor.last(namespace).checked_add(1)?;
    Some(Id { namespace, count })
}

// What the tree has used, by the frame of its first composite.
fn used_by(frame: Option<&Frame>) -> Used
    ensures { result ≡ used_by (option_copied frame.entry) }
{
    match frame {
        Some(frame) => frame.used,
        None => Used {
            components: 0,
            conductors: 0,
        },
    }
}

// The step of a sequence or of a conductor.
fn next_step(
    alloc: Global,
    composite: &Activation,
    used: Used,
    frame: &Frame,
) -> Result<Option<Step>, NoMemory>
    ensures { IfOk result (λ s. s ≡ next_step composite.now used frame.now) }
{
    match composite.form {
        Form::Leaf => Ok(None),
        Form::Sequence => {
            let components = composite.action.get().exec.components();
            seq_next(alloc, components, &composite.params, frame)
        }
        Form::Conductor => conduct_next(alloc, &composite.own, &composite.params, used, frame),
    }
}

// What the step results in.
fn step_advance<L: Lookup>(
    alloc: Global,
    rows: &L,
    id: Id,
    composite: &Activation,
    used: Used,
    frame: &Frame,
    step: Step,
) -> Result<Option<Advance>, NoMemory>
    ensures { IfOk result (λ a. a ≡ step_advance (L.found rows.now) id composite.now used frame.now step) }
{
    match step {
        Step::Named { text, params } => {
            named_advance(alloc, rows, id, composite, used, frame, &text, &params)
        }
        Step::Conductor { params } => run_advance(alloc, id, composite, params),
        Step::Done { response } => Ok(Some(Advance::End { response })),
    }
}

// A component is called by this text, with these parameters, or isn't called.
fn named_advance<L: Lookup>(
    alloc: Global,
    rows: &L,
    id: Id,
    composite: &Activation,
    used: Used,
    frame: &Frame,
    text: &Str,
    params: &Params,
) -> Result<Option<Advance>, NoMemory>
    ensures { IfOk result (λ a. a ≡ step_advance (L.found rows.now) id composite.now used frame.now (Step.Named text.now params.now)) }
{
    let home = &composite.action.get().name.namespace;
    match find_component(alloc, rows, text.as_str(), &composite.namespace, home)? {
        Some(called) => found_advance(alloc, id, composite, used, frame, params, called),
        None => refused_advance(alloc, id, composite, used, frame, Untold::Missing),
    }
}

// This component is called, or isn't called.
fn found_advance(
    alloc: Global,
    id: Id,
    composite: &Activation,
    used: Used,
    frame: &Frame,
    given: &Params,
    called: Effective,
) -> Result<Option<Advance>, NoMemory>
    ensures { IfOk result (λ a. a ≡ found_advance id composite.now used frame.now given.now (Some called)) }
{
    match check_component(alloc, &called, given, used, composite.depth) {
        Ok(Ok(params)) => component_advance(alloc, id, composite, called, params),
        Ok(Err(why)) => {
            drop(called);
            refused_advance(alloc, id, composite, used, frame, why)
        }
        Err(e) => {
            drop(called);
            Err(e)
        }
    }
}

// This component is called.
fn component_advance(
    alloc: Global,
    id: Id,
    composite: &Activation,
    called: Effective,
    params: Params,
) -> Result<Option<Advance>, NoMemory>
    ensures { IfOk result (λ a. a ≡ Some (Advance.Call (component_plan id composite.now called params))) }
{
    let form = form_of(called.action.get());
    let depth = depth_below(form, composite.depth);
    let plan = child_plan(
        alloc,
        id,
        composite,
        called,
        params,
        form,
        Role::Component,
        depth,
    )?;
    Ok(Some(Advance::Call { plan }))
}

// A component isn't called: the composite ends, or runs its own code.
fn refused_advance(
    alloc: Global,
    id: Id,
    composite: &Activation,
    used: Used,
    frame: &Frame,
    why: Untold,
) -> Result<Option<Advance>, NoMemory>
    ensures { IfOk result (λ a. a ≡ refused_advance id composite.now used frame.now why) }
{
    let step = refused(
        alloc,
        composite.form,
        &composite.own,
        used,
        &frame.conducted,
        why,
    )?;
    plain_advance(alloc, id, composite, step)
}

// A step that names no component.
fn plain_advance(
    alloc: Global,
    id: Id,
    composite: &Activation,
    step: Step,
) -> Result<Option<Advance>, NoMemory>
    ensures { IfOk result (λ a. a ≡ plain_advance id composite.now step) }
{
    match step {
        Step::Named { .. } => Ok(None),
        Step::Conductor { params } => run_advance(alloc, id, composite, params),
        Step::Done { response } => Ok(Some(Advance::End { response })),
    }
}

// The conductor's own code runs.
fn run_advance(
    alloc: Global,
    id: Id,
    composite: &Activation,
    params: Params,
) -> Result<Option<Advance>, NoMemory>
    ensures { IfOk result (λ a. a ≡ Some (Advance.Call (run_plan id composite.now params))) }
{
    let (params, called) = kept_beside(params, own_action(alloc, composite))?;
    let plan = child_plan(
        alloc,
        id,
        composite,
        called,
        params,
        Form::Leaf,
        Role::Run,
        composite.depth,
    )?;
    Ok(Some(Advance::Call { plan }))
}

// The conductor's own action, as it was when the conductor was accepted.
fn own_action(alloc: Global, composite: &Activation) -> Result<Effective, NoMemory>
    ensures { IfOk result (λ e. e ≡ own_action composite.now) }
{
    let (action, binding) = copied2(alloc, &composite.action, &composite.binding)?;
    Ok(Effective {
        action,
        params: Params::new(),
        binding,
    })
}

// How many composites there are from the first one down to a child of this form.
fn depth_below(form: Form, depth: u32) -> u32
    ensures { result ≡ depth_below form depth }
{
    if form.is_composite() {
        depth.saturating_add(1)
    } else {
        depth
    }
}

// A child is charged to the namespace of its cause, and made in the same name.
fn child_plan(
    alloc: Global,
    id: Id,
    cause: &Activation,
    called: Effective,
    params: Params,
    form: Form,
    role: Role,
    depth: u32,
) -> Result<Plan, NoMemory>
    ensures { IfOk result (λ p. p ≡ child_plan id cause.now called params form role depth) }
{
    let namespace = cause.namespace.copy(alloc)?;
    let subject = cause.subject.copy(alloc)?;
    Ok(Plan {
        id,
        namespace,
        effective: called,
        params,
        subject,
        cause: Some(cause.id),
        until: None,
        form,
        role,
        top: cause.top,
        depth,
    })
}
