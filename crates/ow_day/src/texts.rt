// The lines that answer statements. Out of memory, a prefix of a line may have been appended to the lines before it.
ghost use Rattle.std.specs.Prelude.{◌≡◌, ◌++◌, OnOk, codes};
ghost use Rattle.std.specs.Fmt.{decimal};
ghost use Rattle.ow_records.specs.Id.{id_text};
ghost use Rattle.ow_day.specs.Texts.{answered_text, asked_text, called_text, collected_text, container_text, containers_text, denied_text, drain_text, happening_text, happenings_text, idle_text, kind_text, late_text, lines_of, no_run_text, order_text, place_text, prewarm_text, refused_text, reopened_text, reply_text, run_text, start_text, step_text, steps_text, swept_text, turned_text};

use crate::statement_outcome::StatementOutcome;
use itoa::Buffer;
use ow_decide::{Called, HallCollected, Reply};
use ow_floor::{
    Answered, Container, Drain, FloorRefusal, Happened, Happening, Idle, Order, PrewarmOrder,
    RunOrder, Swept,
};
use ow_http::{Answer, Reason, reason_text, write_reply};
use ow_invoker::{TurnStep, Turned};
use ow_records::Id;
use ow_slots::Start;
use ow_traits::Kind;
use ow_value::NoMemory;
use std::alloc::Global;

/// Puts the lines of the outcome of a statement.
pub fn push_outcome(
    alloc: Global,
    answers: &mut Vec<u8>,
    outcome: &StatementOutcome,
) -> Result<(), NoMemory>
    ensures ok { OnOk result (answers.new.items ≡ answers.old.items ++ lines_of outcome.now) }
{
    match outcome {
        StatementOutcome::Silent => Ok(()),
        StatementOutcome::Refused(reason) => push_refused(alloc, answers, reason),
        StatementOutcome::Asked(reply) => push_asked(alloc, answers, reply),
        StatementOutcome::Called(called) => push_called(alloc, answers, called),
        StatementOutcome::Ordered(order) => push_order(answers, order),
        StatementOutcome::Answered(answered) => push_answered(answers, answered),
        StatementOutcome::NoRun(run) => push_no_run(answers, *run),
        StatementOutcome::Taken => push(answers, b"ok\n"),
        StatementOutcome::Denied(refusal) => push_denied(answers, *refusal),
        StatementOutcome::Swept(swept) => push_swept(answers, swept),
        StatementOutcome::Collected(collected) => push_collected(alloc, answers, collected),
        StatementOutcome::Turned(turned) => push_turned(answers, turned),
        StatementOutcome::Drained(drain) => push_drain(answers, *drain),
        StatementOutcome::Reopened(happened) => push_reopened(answers, happened),
        StatementOutcome::StoreFault => push(answers, b"store fault\n"),
    }
}

// Appends the bytes to the answers.
fn push(answers: &mut Vec<u8>, bytes: &[u8]) -> Result<(), NoMemory>
    ensures ok { OnOk result (answers.new.items ≡ answers.old.items ++ bytes.now) }
{
    Ok(answers.extend_from_slice(bytes)?)
}

fn push_number(answers: &mut Vec<u8>, number: u64) -> Result<(), NoMemory>
    ensures ok { OnOk result (answers.new.items ≡ answers.old.items ++ decimal number) }
{
    let mut digits = Buffer::new();
    push(answers, digits.format(number).as_bytes())
}

fn push_happening(answers: &mut Vec<u8>, happening: Happening) -> Result<(), NoMemory>
    ensures ok { OnOk result (answers.new.items ≡ answers.old.items ++ happening_text happening) }
{
    match happening {
        Happening::Accepted { id } => {
            push(answers, b"accepted ")?;
            id.push_text(answers)?;
            push(answers, b"\n")
        }
        Happening::Recorded { id, code } => {
            push(answers, b"recorded ")?;
            id.push_text(answers)?;
            push(answers, b" ")?;
            push_number(answers, u64::from(code))?;
            push(answers, b"\n")
        }
    }
}

// Puts a line for each thing that happened.
fn push_happened(answers: &mut Vec<u8>, happened: &Happened) -> Result<(), NoMemory>
    ensures ok { OnOk result (answers.new.items ≡ answers.old.items ++ happenings_text happened.now) }
{
    for happening in happened.items() {
        push_happening(answers, *happening)?;
    }
    Ok(())
}

// Puts the line of an order.
fn push_order(answers: &mut Vec<u8>, order: &Order) -> Result<(), NoMemory>
    ensures ok { OnOk result (answers.new.items ≡ answers.old.items ++ order_text order.now) }
{
    match order {
        Order::Run(order) => push_run(answers, order),
        Order::Prewarm(order) => push_prewarm(answers, *order),
        Order::Remove(containers) => push_removal(answers, containers.as_slice()),
        Order::Nothing(idle) => push_idle(answers, *idle),
    }
}

fn push_idle(answers: &mut Vec<u8>, idle: Idle) -> Result<(), NoMemory>
    ensures ok { OnOk result (answers.new.items ≡ answers.old.items ++ idle_text idle) }
{
    match idle {
        Idle::Empty => push(answers, b"nothing empty\n"),
        Idle::NoRoom => push(answers, b"nothing no room\n"),
    }
}

fn push_run(answers: &mut Vec<u8>, order: &RunOrder) -> Result<(), NoMemory>
    ensures ok { OnOk result (answers.new.items ≡ answers.old.items ++ run_text order.now) }
{
    push_with(answers, b"run ", order.run, b" ")?;
    order.id.push_text(answers)?;
    push_place(answers, order.slot, order.generation)?;
    push_start(answers, order.start)
}

// Puts where a container is.
fn push_place(answers: &mut Vec<u8>, slot: u32, generation: u32) -> Result<(), NoMemory>
    ensures ok { OnOk result (answers.new.items ≡ answers.old.items ++ place_text slot generation) }
{
    push_with(answers, b" slot ", u64::from(slot), b" gen ")?;
    push_number(answers, u64::from(generation))
}

fn push_start(answers: &mut Vec<u8>, start: Start) -> Result<(), NoMemory>
    ensures ok { OnOk result (answers.new.items ≡ answers.old.items ++ start_text start) }
{
    match start {
        Start::Warm => push(answers, b" warm\n"),
        Start::Prewarmed => push(answers, b" prewarmed\n"),
        Start::Cold => push(answers, b" cold\n"),
    }
}

fn push_prewarm(answers: &mut Vec<u8>, order: PrewarmOrder) -> Result<(), NoMemory>
    ensures ok { OnOk result (answers.new.items ≡ answers.old.items ++ prewarm_text order) }
{
    push_with(answers, b"prewarm ", order.run, b"")?;
    push_place(answers, order.slot, order.generation)?;
    push_kind(answers, order.kind)?;
    push_counted(answers, b" ", u64::from(order.memory))
}

fn push_kind(answers: &mut Vec<u8>, kind: Kind) -> Result<(), NoMemory>
    ensures ok { OnOk result (answers.new.items ≡ answers.old.items ++ kind_text kind) }
{
    match kind {
        Kind::Plain => push(answers, b" plain:1"),
        Kind::Program => push(answers, b" program:1"),
    }
}

fn push_removal(answers: &mut Vec<u8>, containers: &[Container]) -> Result<(), NoMemory>
    ensures ok { OnOk result (answers.new.items ≡ answers.old.items ++ order_text (Order.Remove containers.now)) }
{
    push(answers, b"remove")?;
    push_containers(answers, containers)?;
    push(answers, b"\n")
}

fn push_containers(answers: &mut Vec<u8>, containers: &[Container]) -> Result<(), NoMemory>
    ensures ok { OnOk result (answers.new.items ≡ answers.old.items ++ containers_text containers.now) }
{
    for container in containers {
        push_container(answers, *container)?;
    }
    Ok(())
}

fn push_container(answers: &mut Vec<u8>, container: Container) -> Result<(), NoMemory>
    ensures ok { OnOk result (answers.new.items ≡ answers.old.items ++ container_text container) }
{
    push_with(answers, b" ", u64::from(container.slot), b":")?;
    push_number(answers, u64::from(container.generation))
}

// Puts what became of a runner's reply.
fn push_answered(answers: &mut Vec<u8>, answered: &Answered) -> Result<(), NoMemory>
    ensures ok { OnOk result (answers.new.items ≡ answers.old.items ++ answered_text answered.now) }
{
    match answered {
        Answered::Recorded(happened) => push_happened(answers, happened),
        Answered::Late { run, at } => push_late(answers, *run, *at),
    }
}

// Puts the line of a reply that comes after the end of what its run carried.
fn push_late(answers: &mut Vec<u8>, run: u64, at: u64) -> Result<(), NoMemory>
    ensures ok { OnOk result (answers.new.items ≡ answers.old.items ++ late_text run at) }
{
    push(answers, b"late ")?;
    push_number(answers, run)?;
    push(answers, b" ")?;
    push_number(answers, at)?;
    push(answers, b"\n")
}

// Puts the line of a reply to a number that no live run has.
fn push_no_run(answers: &mut Vec<u8>, run: u64) -> Result<(), NoMemory>
    ensures ok { OnOk result (answers.new.items ≡ answers.old.items ++ no_run_text run) }
{
    push_with(answers, b"refused 29 No run ", run, b".\n")
}

// Puts the line of a report on a container that isn't accepted.
fn push_denied(answers: &mut Vec<u8>, refusal: FloorRefusal) -> Result<(), NoMemory>
    ensures ok { OnOk result (answers.new.items ≡ answers.old.items ++ denied_text refusal) }
{
    match refusal {
        FloorRefusal::NoRun { run } => push_no_run(answers, run),
        FloorRefusal::NoSlot { slot, kept } => push_no_slot(answers, slot, kept),
        FloorRefusal::NotFound => push(answers, b"refused 14 The resource does not exist.\n"),
    }
}

fn push_no_slot(answers: &mut Vec<u8>, slot: u32, kept: u32) -> Result<(), NoMemory>
    ensures ok { OnOk result (answers.new.items ≡ answers.old.items ++ denied_text (FloorRefusal.NoSlot slot kept)) }
{
    push_with(
        answers,
        b"refused 28 No slot ",
        u64::from(slot),
        b" of that generation: ",
    )?;
    push_with(answers, b"", u64::from(kept), b" kept.\n")
}

// Puts what a sweep did.
fn push_swept(answers: &mut Vec<u8>, swept: &Swept) -> Result<(), NoMemory>
    ensures ok { OnOk result (answers.new.items ≡ answers.old.items ++ swept_text swept.now) }
{
    push_happened(answers, &swept.happened)?;
    push_counted(answers, b"swept ", swept.late)
}

fn push_lost(answers: &mut Vec<u8>, run: u64) -> Result<(), NoMemory>
    ensures ok { OnOk result (answers.new.items ≡ answers.old.items ++ (codes "lost " ++ (decimal run ++ codes "\n"))) }
{
    push_counted(answers, b"lost ", run)
}

fn push_gone(answers: &mut Vec<u8>, slot: u32, generation: u32) -> Result<(), NoMemory>
    ensures ok { OnOk result (answers.new.items ≡ answers.old.items ++ (codes "gone " ++ (decimal slot ++ (codes " " ++ (decimal generation ++ codes "\n"))))) }
{
    push_with(answers, b"gone ", u64::from(slot), b" ")?;
    push_number(answers, u64::from(generation))?;
    push(answers, b"\n")
}

// Puts the line of one thing that a turn reports.
fn push_step(answers: &mut Vec<u8>, step: &TurnStep) -> Result<(), NoMemory>
    ensures ok { OnOk result (answers.new.items ≡ answers.old.items ++ step_text step.now) }
{
    match step {
        TurnStep::Lost { run } => push_lost(answers, *run),
        TurnStep::Gone { slot, generation } => push_gone(answers, *slot, *generation),
        TurnStep::Happened(happened) => push_happened(answers, happened),
        TurnStep::StoreFault => push(answers, b"store fault\n"),
    }
}

// Puts a line for each of them.
fn push_steps(answers: &mut Vec<u8>, steps: &[TurnStep]) -> Result<(), NoMemory>
    ensures ok { OnOk result (answers.new.items ≡ answers.old.items ++ steps_text steps.now) }
{
    for step in steps {
        push_step(answers, step)?;
    }
    Ok(())
}

// Puts the lines of a turn.
fn push_turned(answers: &mut Vec<u8>, turned: &Turned) -> Result<(), NoMemory>
    ensures ok { OnOk result (answers.new.items ≡ answers.old.items ++ turned_text turned.now) }
{
    push_order(answers, &turned.order)?;
    push_steps(answers, turned.steps.as_slice())
}

// Puts what a reopening recorded.
fn push_reopened(answers: &mut Vec<u8>, happened: &Happened) -> Result<(), NoMemory>
    ensures ok { OnOk result (answers.new.items ≡ answers.old.items ++ reopened_text happened.now) }
{
    push_happened(answers, happened)?;
    push(answers, b"reopened\n")
}

// Puts the line of a drain.
fn push_drain(answers: &mut Vec<u8>, drain: Drain) -> Result<(), NoMemory>
    ensures ok { OnOk result (answers.new.items ≡ answers.old.items ++ drain_text drain) }
{
    match drain {
        Drain::Drained(n) => push_counted(answers, b"drained ", n),
        Drain::StillOpen(n) => push_counted(answers, b"open ", n),
    }
}

fn push_counted(answers: &mut Vec<u8>, word: &[u8], n: u64) -> Result<(), NoMemory>
    ensures ok { OnOk result (answers.new.items ≡ answers.old.items ++ (word.now ++ (decimal n ++ codes "\n"))) }
{
    push_with(answers, word, n, b"\n")
}

// Puts a number between two words.
fn push_with(answers: &mut Vec<u8>, before: &[u8], n: u64, behind: &[u8]) -> Result<(), NoMemory>
    ensures ok { OnOk result (answers.new.items ≡ answers.old.items ++ (before.now ++ (decimal n ++ behind.now))) }
{
    push(answers, before)?;
    push_number(answers, n)?;
    push(answers, behind)
}

// Puts the line of a refusal.
fn push_refused(alloc: Global, answers: &mut Vec<u8>, reason: &Reason) -> Result<(), NoMemory>
    ensures ok { OnOk result (answers.new.items ≡ answers.old.items ++ refused_text reason.now) }
{
    let text = reason_text(alloc, reason)?;
    push(answers, b"refused ")?;
    push_number(answers, u64::from(reason.number()))?;
    push(answers, b" ")?;
    push(answers, text.as_str().as_bytes())?;
    push(answers, b"\n")
}

// Puts what became of a call.
fn push_called(alloc: Global, answers: &mut Vec<u8>, called: &Called) -> Result<(), NoMemory>
    ensures ok { OnOk result (answers.new.items ≡ answers.old.items ++ called_text called.now) }
{
    match called {
        Called::Happened(happened) => push_happened(answers, happened),
        Called::Refused(reason) => push_refused(alloc, answers, reason),
    }
}

// Puts the bytes of a reply, with how many they are.
fn push_reply(alloc: Global, answers: &mut Vec<u8>, answer: &Answer) -> Result<(), NoMemory>
    ensures ok { OnOk result (answers.new.items ≡ answers.old.items ++ reply_text answer.now) }
{
    let reply = write_reply(alloc, answer)?;
    push(answers, b"reply ")?;
    push_number(answers, reply.len() as u64)?;
    push(answers, b"\n")?;
    push(answers, &reply)?;
    push(answers, b"\n")
}

// Puts what is answered of an activation that is collected.
fn push_collected(
    alloc: Global,
    answers: &mut Vec<u8>,
    collected: &HallCollected,
) -> Result<(), NoMemory>
    ensures ok { OnOk result (answers.new.items ≡ answers.old.items ++ collected_text collected.now) }
{
    match collected {
        HallCollected::Reply(answer) => push_reply(alloc, answers, answer),
        HallCollected::NotYet => push(answers, b"not yet\n"),
        HallCollected::Unknown => push(answers, b"refused 14 The resource does not exist.\n"),
    }
}

fn push_waiting(answers: &mut Vec<u8>, id: Id) -> Result<(), NoMemory>
    ensures ok { OnOk result (answers.new.items ≡ answers.old.items ++ (codes "waiting " ++ (id_text id ++ codes "\n"))) }
{
    push(answers, b"waiting ")?;
    id.push_text(answers)?;
    push(answers, b"\n")
}

// Puts the answer to a request, or the id for which it waits.
fn push_asked(alloc: Global, answers: &mut Vec<u8>, reply: &Reply) -> Result<(), NoMemory>
    ensures ok { OnOk result (answers.new.items ≡ answers.old.items ++ asked_text reply.now) }
{
    match reply {
        Reply::Now(answer) => push_reply(alloc, answers, answer),
        Reply::Waiting { id, .. } => push_waiting(answers, *id),
    }
}
