// A reply whose record the store doesn't take at first.
ghost use Rattle.ow_board.specs.Board.{IsPassOf};

use crate::cases::check_notes;
use crate::office::{Office, TABLE, open_office};
use crate::worker::{Worker, word_of};
use ow_board::Pass;
use ow_invoker::{PlainContainer, PlainRunner};
use ow_threads::OpenGate;
use ow_traits::RunReply;
use ow_worker::{Job, Laid, Turn};
use std::alloc::Global;
use std::process::Abort;
use std::sync::Wait;
use std::test::Fail;

// After the turn, and after what is booked again.
const FIRST: &str = "2 at 0: run 1 of 0/1 in 0:1 cold
3 at 0: begun 1
stored
";

const BOTH: &str = "2 at 0: run 1 of 0/1 in 0:1 cold
3 at 0: begun 1
4 at 7: answered 1, recorded 0/1 0
stored
";

// The reply that is to be booked. Any other turn ends the tests.
fn job_of<H: Abort>(rt: &H, turned: Turn) -> Job {
    match turned {
        Turn::StoreFault(job) => job,
        other => {
            word_of(rt, other);
            rt.abort()
        }
    }
}

// Whether it is the answer of the first run, whose container lies on the board.
fn is_job(job: &Job) -> bool {
    let answers = match job.reply() {
        RunReply::Answer { text, .. } => text.as_str() == "{}",
        _ => false,
    };
    answers && job.order().run == 1 && job.laid() == Laid::Put
}

// The store fails at the reply, which is then booked.
fn check_booked<H: Wait + Abort>(
    rt: &H,
    alloc: Global,
    worker: &mut Worker<PlainRunner>,
) -> Result<(), Fail> {
    let turned = worker.turn(rt, alloc, &OpenGate::new(), 0);
    let job = job_of(rt, turned);
    let checked = check_notes(rt, alloc, worker, FIRST);
    let is_left = is_job(&job);
    let turned = worker.again(rt, alloc, 7, job);
    assert_eq!(rt; word_of(rt, turned), "ran");
    assert!(rt; is_left);
    checked?;
    check_notes(rt, alloc, worker, BOTH)
}

fn check_at<H: Wait + Abort>(
    rt: &H,
    alloc: Global,
    office: &Office<PlainContainer>,
    pass: Pass<PlainContainer>,
) -> Result<(), Fail>
    requires { IsPassOf office.now.board pass }
{
    let mut worker = Worker::of(alloc, office, pass, PlainRunner::new())?;
    let checked = check_booked(rt, alloc, &mut worker);
    drop(worker);
    checked
}

#[test]
fn a_reply_at_which_the_store_fails_is_booked_again(rt: HostRuntime) -> Result<(), Fail> {
    let (office, pass) = open_office(rt.alloc(), TABLE, &[3], 1)?;
    let checked = check_at(&rt, rt.alloc(), &office, pass);
    drop(office);
    checked
}
