// One activation on its way over a floor.
ghost use Rattle.std.specs.Prelude.{◌≡◌, ◌+◌, None, IfOk};
ghost use Rattle.ow_floor.specs.View.{last_of};

use ow_entity::{Action, EntityParams, Exec, Limits, ProgramName};
use ow_floor::{Answered, Drain, Floor, FloorRefusal, Happened, Happening, Order, Plan};
use ow_names::{EntityName, read_name, resolve};
use ow_packages::Effective;
use ow_records::{Form, Id, Role};
use ow_traits::{Kind, RunReply};
use ow_value::{Items, Lines, NoMemory, Params, PlainData, Shared, Str};
use std::alloc::Global;
use std::test::Fail;

const ID: Id = Id {
    namespace: 7,
    count: 1,
};

// A floor of 2,048 MB that wants no container ahead.
fn floor(alloc: Global) -> Result<Floor, NoMemory>
    ensures fresh { IfOk result (λ floor. last_of floor.now.drawn 7 ≡ 0) }
    ensures free { IfOk result (λ floor. floor.before ≡ None) }
{
    Floor::new(alloc, 2_048, Items::new())
}

// The number of the refusal, or 0 where the event is taken.
fn number(taken: Result<(), FloorRefusal>) -> u32 {
    match taken {
        Ok(()) => 0,
        Err(refusal) => refusal.number(),
    }
}

fn action(alloc: Global, namespace: &EntityName) -> Result<Action, Fail> {
    let code = ProgramName::read(alloc, "greet")?;
    let name = resolve(alloc, "hello", namespace)?;
    Ok(Action {
        name,
        version: 1,
        publish: false,
        params: EntityParams::new(),
        notes: EntityParams::new(),
        exec: Exec::Program { code },
        limits: Limits::DEFAULT,
    })
}

fn plan(alloc: Global, id: Id) -> Result<Plan, Fail>
    ensures { IfOk result (λ plan. plan.id ≡ id) }
{
    let subject = Str::of(alloc, "anna")?;
    let namespace = read_name(alloc, b"guest")?;
    let action = Shared::new(alloc, action(alloc, &namespace)?)?;
    let effective = Effective {
        action,
        params: Params::new(),
        binding: None,
    };
    Ok(Plan {
        id,
        namespace,
        effective,
        params: Params::new(),
        subject,
        cause: None,
        until: None,
        form: Form::Leaf,
        role: Role::Alone,
        top: id,
        depth: 0,
    })
}

// Whether an equal one is made of it.
fn copies<T: PlainData + Drop>(alloc: Global, value: &T) -> Result<bool, NoMemory> {
    let copied = value.copy(alloc)?;
    Ok(copied.same(value))
}

// Whether an equal one is made of the first record.
fn copies_record(alloc: Global, floor: &Floor) -> Result<bool, NoMemory> {
    match floor.records().items().first() {
        Some(ended) => copies(alloc, ended.get()),
        None => Ok(false),
    }
}

// Whether the plan is accepted.
fn accepts(alloc: Global, floor: &mut Floor) -> Result<bool, Fail>
    requires { last_of floor.old.now.drawn 7 ≡ 0 }
    ensures { floor.new.before ≡ floor.old.before }
{
    let plan = plan(alloc, ID)?;
    let copied = copies(alloc, &plan);
    let happened = floor.accept(alloc, 1000, plan)?;
    Ok(copied? && happened.items() == [Happening::Accepted { id: ID }].as_slice())
}

// Whether the order is to run what was planned, under this number, in the first slot.
fn is_run(order: &Order, number: u64) -> bool {
    match order {
        Order::Run(order) => {
            (order.run, order.id, order.timeout) == (number, ID, 60_000)
                && order.slot == 0
                && (order.kind, order.memory) == (Kind::Program, 256)
                && order.code.as_str() == "greet"
        }
        _ => false,
    }
}

// Whether it is ordered to run, under this number.
fn runs(alloc: Global, floor: &mut Floor, number: u64) -> Result<bool, NoMemory>
    ensures { floor.new.before ≡ floor.old.before }
{
    let order = floor.next(alloc, 1001)?;
    Ok(is_run(&order, number) && copies(alloc, &order)?)
}

// Whether nothing is ordered.
fn idles(alloc: Global, floor: &mut Floor) -> Result<bool, NoMemory> {
    let order = floor.next(alloc, 1001)?;
    Ok(order.is_nothing())
}

fn tells(happened: &Happened, code: u8) -> bool {
    happened.items() == [Happening::Recorded { id: ID, code }].as_slice()
}

// Whether the answer reports the end of the activation, with this code.
fn is_recorded(answered: &Answered, code: u8) -> bool {
    match answered {
        Answered::Recorded(happened) => tells(happened, code),
        Answered::Late { .. } => false,
    }
}

// Whether its end by an answer is recorded.
fn ends(alloc: Global, floor: &mut Floor, run: u64) -> Result<bool, Fail>
    ensures { floor.new.before ≡ floor.old.before }
{
    let text = Str::of(alloc, "{\"a\":1}")?;
    let logs = Lines::new();
    match floor.answered(alloc, 1003, run, RunReply::Answer { text, logs }) {
        Ok(answered) => Ok(is_recorded(&answered, 0) && copies(alloc, &answered)?),
        Err(_) => Ok(false),
    }
}

// Whether one activation is accepted by a new floor, and waits there.
fn waits(alloc: Global, floor: &mut Floor) -> Result<bool, Fail>
    requires { last_of floor.old.now.drawn 7 ≡ 0 }
    ensures { floor.new.before ≡ floor.old.before }
{
    let before = floor.last(7);
    let accepted = accepts(alloc, floor)?;
    Ok((before, accepted, floor.last(7), floor.busy()) == (0, true, 1, 1))
}

// Whether what waits runs, and ends.
fn runs_and_ends(alloc: Global, floor: &mut Floor) -> Result<bool, Fail> {
    let ran = runs(alloc, floor, 1)?;
    let open = floor.drain(1002) == Drain::StillOpen(1);
    let ended = ends(alloc, floor, 1)?;
    let drained = floor.drain(1004) == Drain::Drained(1);
    let latest = floor.latest() == 1004 && floor.is_draining();
    Ok(ran && open && ended && drained && latest && copies_record(alloc, floor)?)
}

// Whether one activation goes its whole way over this floor.
fn goes_its_way(alloc: Global, floor: &mut Floor) -> Result<bool, Fail>
    requires { last_of floor.old.now.drawn 7 ≡ 0 }
{
    let waited = waits(alloc, floor)?;
    let ended = runs_and_ends(alloc, floor)?;
    Ok(waited && ended)
}

#[test]
fn one_activation_waits_runs_and_is_recorded(rt: HostRuntime) -> Result<(), Fail> {
    let alloc = rt.alloc();
    let mut floor = floor(alloc)?;
    let recorded = goes_its_way(alloc, &mut floor);
    drop(floor);
    assert!(rt; recorded?);
    Ok(())
}

// Whether the end without a reply is reported as that of an error inside the service.
fn fails(alloc: Global, floor: &mut Floor) -> bool {
    match floor.answered(alloc, 1003, 1, RunReply::Fault) {
        Ok(answered) => is_recorded(&answered, 3),
        Err(_) => false,
    }
}

// Whether a run of this floor fails, and is recorded.
fn fails_to_run(alloc: Global, floor: &mut Floor) -> Result<bool, Fail>
    requires { last_of floor.old.now.drawn 7 ≡ 0 }
{
    let accepted = accepts(alloc, floor)?;
    let ran = runs(alloc, floor, 1)?;
    Ok(accepted && ran && fails(alloc, floor))
}

#[test]
fn a_run_that_fails_is_recorded(rt: HostRuntime) -> Result<(), Fail> {
    let alloc = rt.alloc();
    let mut floor = floor(alloc)?;
    let recorded = fails_to_run(alloc, &mut floor);
    drop(floor);
    assert!(rt; recorded?);
    Ok(())
}

// Whether a run begins once, is lost once, and what it carried runs again; and whether the container is gone once.
fn is_lost_and_runs(alloc: Global, floor: &mut Floor) -> Result<bool, Fail>
    requires { floor.old.before ≡ None }
{
    let ran = runs(alloc, floor, 1)?;
    let owed = floor.owed();
    let begun = (number(floor.begun(1002, 1)), number(floor.begun(1002, 1)));
    let lost = (number(floor.lost(1002, 1)), number(floor.lost(1002, 1)));
    let gone = (
        number(floor.gone(1002, 0, 1)),
        number(floor.gone(1002, 0, 1)),
    );
    let again = runs(alloc, floor, 2)?;
    let ended = ends(alloc, floor, 2)?;
    Ok(ran && owed == 3 && again && ended && (begun, lost, gone) == ((0, 29), (0, 29), (0, 28)))
}

// Whether that holds of an activation of this floor.
fn is_lost(alloc: Global, floor: &mut Floor) -> Result<bool, Fail>
    requires drawn { last_of floor.old.now.drawn 7 ≡ 0 }
    requires free { floor.old.before ≡ None }
{
    let accepted = accepts(alloc, floor)?;
    Ok(accepted && is_lost_and_runs(alloc, floor)?)
}

#[test]
fn what_a_lost_run_carried_runs_again(rt: HostRuntime) -> Result<(), Fail> {
    let alloc = rt.alloc();
    let mut floor = floor(alloc)?;
    let lost = is_lost(alloc, &mut floor);
    drop(floor);
    assert!(rt; lost?);
    Ok(())
}

// How many ends a sweep at this moment makes.
fn swept(alloc: Global, floor: &mut Floor, at: u64) -> Result<u64, NoMemory> {
    let swept = floor.sweep(alloc, at)?;
    Ok(swept.late)
}

// Whether a reply is late, since what its run carries ended at this moment.
fn is_late(alloc: Global, floor: &mut Floor, since: u64) -> Result<bool, NoMemory> {
    match floor.replied(alloc, 70_000, 1, &RunReply::Fault)? {
        Some(Answered::Late { run, at }) => Ok((run, at) == (1, since)),
        Some(Answered::Recorded(_)) | None => Ok(false),
    }
}

// Whether a run of 60 seconds that was ordered at 1001 is swept one millisecond after its limit, and its reply is late.
fn overruns(alloc: Global, floor: &mut Floor) -> Result<bool, Fail>
    requires { last_of floor.old.now.drawn 7 ≡ 0 }
{
    let accepted = accepts(alloc, floor)?;
    let ran = runs(alloc, floor, 1)?;
    let swept = (swept(alloc, floor, 61_001)?, swept(alloc, floor, 61_002)?);
    Ok(accepted && ran && swept == (0, 1) && is_late(alloc, floor, 61_002)?)
}

#[test]
fn a_reply_behind_a_sweep_is_late(rt: HostRuntime) -> Result<(), Fail> {
    let alloc = rt.alloc();
    let mut floor = floor(alloc)?;
    let late = overruns(alloc, &mut floor);
    drop(floor);
    assert!(rt; late?);
    Ok(())
}

// Whether an order that is taken back is made again, and an opening that is kept ends what runs.
fn settles(alloc: Global, floor: &mut Floor) -> Result<bool, NoMemory> {
    floor.hold();
    let ran = runs(alloc, floor, 1);
    floor.settle(false);
    let again = runs(alloc, floor, 1);
    floor.hold();
    let reopened = floor.abandon(alloc, 1002);
    floor.settle(true);
    Ok(ran? && again? && tells(&reopened?, 3) && floor.busy() == 0)
}

// Whether that holds of an activation that waits on this floor.
fn is_settled(alloc: Global, floor: &mut Floor) -> Result<bool, Fail>
    requires { last_of floor.old.now.drawn 7 ≡ 0 }
{
    let accepted = accepts(alloc, floor)?;
    let settled = settles(alloc, floor)?;
    Ok(accepted && settled && idles(alloc, floor)?)
}

#[test]
fn what_is_held_is_taken_back_or_kept(rt: HostRuntime) -> Result<(), Fail> {
    let alloc = rt.alloc();
    let mut floor = floor(alloc)?;
    let settled = is_settled(alloc, &mut floor);
    drop(floor);
    assert!(rt; settled?);
    Ok(())
}

// The number of the refusal of a reply to this run, or 0 where it is taken.
fn refused(alloc: Global, floor: &mut Floor, run: u64) -> u32 {
    match floor.answered(alloc, 0, run, RunReply::Fault) {
        Ok(_) => 0,
        Err(refusal) => refusal.number(),
    }
}

#[test]
fn a_reply_to_no_run_has_its_number(rt: HostRuntime) -> Result<(), Fail> {
    let alloc = rt.alloc();
    let mut floor = floor(alloc)?;
    let number = refused(alloc, &mut floor, 1);
    drop(floor);
    assert_eq!(rt; number, 29);
    Ok(())
}
