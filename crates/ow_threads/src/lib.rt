#![tactic(auto)]

//! What a service of many threads needs of the outside: a clock, gates at which a worker may be held, tasks with who begins them, and
//! locks that are mostly held for microseconds.
mod clock;
mod gate;
mod locks;
mod refusing_spawner;
mod tasks;

pub use clock::{Bell, Clock, FixedClock};
pub use gate::{Gate, OpenGate, Stage};
pub use locks::hold;
pub use refusing_spawner::RefusingSpawner;
pub use tasks::{Begun, Spawner, Task};
