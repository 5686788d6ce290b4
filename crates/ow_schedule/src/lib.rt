#![tactic(auto)]

//! Schedules of alarms: how they are read from a value, and at which moments they are due.
mod cron;
mod due;
mod fields;
pub mod laws;
mod next;
mod period;
mod read;
mod refusal;
mod skip;
mod span;
mod text;
mod window;
mod zone;

pub use due::{Fields, LAST_CRON, Schedule, is_due};
pub use next::next_due;
pub use period::{GREATEST_MOMENT, LEAST_PERIOD, MOST_PERIOD, Period};
pub use read::read_schedule;
pub use refusal::{AlarmRefusal, ScheduleField, refusal_text};
pub use span::Span;
pub use window::{WEEK, due_moments, next_pending};
