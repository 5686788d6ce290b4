// The bells that end pauses early.
ghost use Rattle.std.specs.Prelude.{◌<◌};

use ow_threads::Bell;
use std::array;
use std::sync::{Condvar, Mutex, Wait};
use std::time::{Clock, Duration};

// How many bells ring for the ends of activations. The counts of activations that share a bell are equal modulo this number.
const END_BELLS: usize = 1024;

/// The bells that the clocks of one server share, so that a ring of one ends the pauses of all that wait for it.
///
/// A ring of work ends one pause, where one is under way, and any other ring all of them. That of the close ends those for work too. A
/// ring that finds no pause ends the next one for the same bell, unless another bell rang in its place since. Ends of activations whose
/// counts are equal modulo 1,024 share a place, and a ring of one may end the pause for another.
#[derive(Drop)]
pub struct Bells {
    work: Place,
    close: Place,
    ends: [Place; END_BELLS],
}

impl Bells {
    /// Bells for which no pause waits. This takes no memory.
    pub fn new() -> Bells {
        Bells {
            work: Place::new(),
            close: Place::new(),
            ends: array::from_fn(|_| Place::new()),
        }
    }

    /// Waits for the bell, or so long.
    pub(crate) fn wait<R: Wait + Clock>(&self, rt: &R, bell: Bell, limit: Duration) {
        match bell {
            Bell::Work => self.work.wait(rt, bell, limit),
            Bell::End(count) => self.ends[place_of(count)].wait(rt, bell, limit),
            Bell::Close => self.close.wait(rt, bell, limit),
        }
    }

    /// Rings the bell.
    pub(crate) fn ring<R: Wait>(&self, rt: &R, bell: Bell) {
        match bell {
            Bell::Work => self.work.ring_for_one(rt, bell),
            Bell::End(count) => self.ends[place_of(count)].ring_for_all(rt, bell),
            Bell::Close => {
                self.close.ring_for_all(rt, bell);
                self.work.ring_for_all(rt, bell);
            }
        }
    }
}

// The place of the bell of an end.
fn place_of(count: u64) -> usize
    ensures { result < 1024 }
{
    (count % END_BELLS as u64) as usize
}

// Where pauses wait, and the bell that rang last, unless a pause ended for it.
#[derive(Drop)]
struct Place {
    rung: Mutex<Option<Bell>>,
    rings: Condvar,
}

impl Place {
    fn new() -> Place {
        Place {
            rung: Mutex::new(None),
            rings: Condvar::new(),
        }
    }

    fn wait<R: Wait + Clock>(&self, rt: &R, bell: Bell, limit: Duration) {
        let mut rung = self.rung.lock(rt);
        if *rung != Some(bell) {
            rung = self.rings.wait_timeout(rt, rung, limit).0;
        }
        if *rung == Some(bell) {
            *rung = None;
        }
    }

    fn ring_for_one<R: Wait>(&self, rt: &R, bell: Bell) {
        *self.rung.lock(rt) = Some(bell);
        self.rings.notify_one();
    }

    fn ring_for_all<R: Wait>(&self, rt: &R, bell: Bell) {
        *self.rung.lock(rt) = Some(bell);
        self.rings.notify_all();
    }
}
