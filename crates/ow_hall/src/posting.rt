// How an answer is posted.
ghost use Rattle.std.specs.Prelude.{◌≡◌};
ghost use Rattle.ow_hall.specs.Posting.{call_posting, collected_posting, deployed_posting, fired_posting, posting_by};

use ow_decide::{Called, Deployed, Fired, HallCollected, Told, tells_full};
use ow_floor::Order;

/// What becomes of an answer in the book.
#[derive(Clone, Copy, Debug, PartialEq, Eq)]
pub enum Posting {
    /// It is an entry.
    Booked,
    /// It is tallied as a `next` that ordered nothing again.
    Quiet,
    /// It is tallied as an event of a runner that was refused.
    Denied,
    /// It leaves nothing.
    Unbooked,
}

/// How an answer is posted after an entry that ordered nothing, or after another.
pub fn posting_of(idle: bool, told: &Told) -> Posting
    ensures { result ≡ posting_by idle told.now }
{
    match told {
        Told::Next(Order::Nothing(_)) => {
            if idle {
                Posting::Quiet
            } else {
                Posting::Booked
            }
        }
        Told::NoRun { .. } | Told::Refused(_) => Posting::Denied,
        Told::Full(_) => Posting::Unbooked,
        Told::Called(called) => call_posting(called),
        Told::Fired(fired) => fired_posting(fired),
        Told::Deployed(deployed) => deployed_posting(deployed),
        Told::Collected(collected) => collected_posting(collected),
        _ => Posting::Booked,
    }
}

fn collected_posting(collected: &HallCollected) -> Posting
    ensures { result ≡ collected_posting collected.now }
{
    match collected {
        HallCollected::Reply(_) => Posting::Booked,
        HallCollected::NotYet | HallCollected::Unknown => Posting::Unbooked,
    }
}

fn deployed_posting(deployed: &Deployed) -> Posting
    ensures { result ≡ deployed_posting deployed.now }
{
    match deployed {
        Deployed::Refused { reason, .. } => {
            if tells_full(reason) {
                Posting::Unbooked
            } else {
                Posting::Booked
            }
        }
        Deployed::Done { .. } => Posting::Booked,
    }
}

fn call_posting(called: &Called) -> Posting
    ensures { result ≡ call_posting called.now }
{
    match called {
        Called::Refused(reason) => {
            if tells_full(reason) {
                Posting::Unbooked
            } else {
                Posting::Booked
            }
        }
        Called::Happened(_) => Posting::Booked,
    }
}

fn fired_posting(fired: &Fired) -> Posting
    ensures { result ≡ fired_posting fired.now }
{
    match fired {
        Fired::Refused(reason) => {
            if tells_full(reason) {
                Posting::Unbooked
            } else {
                Posting::Booked
            }
        }
        Fired::Made { .. } | Fired::Quiet => Posting::Booked,
    }
}
