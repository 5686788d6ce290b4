// A gate at which another worker acts while a worker waits there.
use crate::worker::Worker;
use ow_threads::{Gate, Stage};
use ow_traits::Runner;
use std::alloc::Global;
use std::sync::{Mutex, Wait};

/// What another one does.
#[derive(Clone, Copy, Debug, PartialEq, Eq)]
pub(crate) enum Act {
    Sweep,
    Reap,
}

/// What another worker does, at which moment, and the stage at which a worker waits meanwhile.
#[derive(Clone, Copy, Debug, PartialEq, Eq)]
pub(crate) struct Between {
    pub(crate) stage: Stage,
    pub(crate) act: Act,
    pub(crate) at: u64,
}

/// A gate at which another one acts, where it is to.
#[derive(Drop)]
pub(crate) struct ActingGate<'a, H: Wait, R: Runner + Drop> {
    pub(crate) rt: &'a H,
    pub(crate) alloc: Global,
    pub(crate) between: Option<Between>,
    pub(crate) other: Mutex<Worker<'a, R>>,
}

fn perform<H: Wait, R: Runner + Drop>(
    rt: &H,
    alloc: Global,
    between: Between,
    other: &mut Worker<'_, R>,
) {
    match between.act {
        Act::Sweep => {
            other.sweep(rt, alloc, between.at);
        }
        Act::Reap => {
            let _ = other.reap(rt, alloc, between.at);
        }
    }
}

impl<H: Wait, R: Runner + Drop> Gate for ActingGate<'_, H, R> {
    fn pass(&self, stage: Stage) {
        if let Some(between) = self.between
            && between.stage == stage
        {
            perform(self.rt, self.alloc, between, &mut *self.other.lock(self.rt));
        }
    }
}
