// The system's clock.
ghost use Rattle.std.specs.Prelude.{None};

use crate::Bells;
use ow_threads::{Bell, Clock};
use std::alloc::Global;
use std::sync::{Arc, Wait};
use std::time;
use std::time::{Duration, SystemTime};

/// The system's clock, in milliseconds since the start of 1970 (UTC). One that can't be read answers 0.
///
/// A pause ends at a ring of any clock with the same bells, or after its milliseconds.
#[derive(Drop)]
pub struct SystemClock<R: Wait + time::Clock + Drop> {
    rt: R,
    bells: Arc<Bells, Global>,
}

impl<R: Wait + time::Clock + Drop> SystemClock<R> {
    /// A clock that reads the system's by this handle.
    pub fn new(rt: R, bells: Arc<Bells, Global>) -> Self {
        SystemClock { rt, bells }
    }
}

impl<R: Wait + time::Clock + Drop> Clock for SystemClock<R> {
    ghost tells = { λ c. None };

    fn now(&self) -> u64 {
        let Ok(moment) = SystemTime::now(&self.rt) else {
            return 0;
        };
        let Ok(since) = moment.duration_since(SystemTime::UNIX_EPOCH) else {
            return 0;
        };
        u64::try_from(since.as_millis()).unwrap_or(0)
    }

    fn pause(&self, bell: Bell, ms: u64) {
        self.bells.wait(&self.rt, bell, Duration::from_millis(ms));
    }

    fn ring(&self, bell: Bell) {
        self.bells.ring(&self.rt, bell);
    }
}
