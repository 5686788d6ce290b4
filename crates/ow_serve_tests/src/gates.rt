// A gate at which one run waits for another.
use ow_threads::{Gate, Stage};
use std::sync::atomic::{AtomicBool, Ordering};
use std::thread;
use std::time::{Clock, Duration};

// How often the gate looks for the second run, and how long it sleeps between two looks, in milliseconds.
const LOOKS: u32 = 200;

const SLEEP: u64 = 50;

/// Holds the first run before it begins until the second one has been carried out, or until it has looked for that 200 times. Both can be
/// at the gate only where two threads carry them out.
#[derive(Drop)]
pub(crate) struct Turnstile<H: Clock + Drop> {
    rt: H,
    is_second_out: AtomicBool,
    have_met: AtomicBool,
}

impl<H: Clock + Drop> Turnstile<H> {
    /// A gate to which no run came.
    pub(crate) fn new(rt: H) -> Turnstile<H> {
        Turnstile {
            rt,
            is_second_out: AtomicBool::new(false),
            have_met: AtomicBool::new(false),
        }
    }

    /// Whether the second run was carried out while the first one was held.
    pub(crate) fn have_met(&self) -> bool {
        self.have_met.load(Ordering::SeqCst)
    }

    fn hold(&self) {
        for _ in 0..LOOKS {
            if self.is_second_out.load(Ordering::SeqCst) {
                self.have_met.store(true, Ordering::SeqCst);
                return;
            }
            thread::sleep(&self.rt, Duration::from_millis(SLEEP));
        }
    }
}

impl<H: Clock + Drop> Gate for Turnstile<H> {
    fn pass(&self, stage: Stage) {
        match stage {
            Stage::BeforeRun(1) => self.hold(),
            Stage::AfterRun(2) => self.is_second_out.store(true, Ordering::SeqCst),
            _ => {}
        }
    }
}
