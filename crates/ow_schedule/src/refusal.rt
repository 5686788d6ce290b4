// Why a value is no schedule.
ghost use Rattle.std.specs.Prelude.{◌≡◌, ◌++◌, IfOk, codes};
ghost use Rattle.ow_schedule.specs.Refusal.{field_name, refusal_number, refusal_text};

use ow_value::{NoMemory, Str};
use std::alloc::Global;

/// The part of a schedule that a refusal names.
#[derive(Clone, Copy, PartialEq, Eq, Debug, Drop)]
pub enum ScheduleField {
    /// The value itself, which must be an object with exactly one of the next three.
    Alarm,
    /// A distance in milliseconds.
    Every,
    /// A moment.
    Once,
    /// Five cron fields.
    Cron,
    /// The moment from which `every` and `cron` are due.
    From,
    /// The time zone of `cron`, as a POSIX rule.
    Zone,
}

impl ScheduleField {
    /// The name of the field, as the value writes it.
    pub fn as_str(self) -> &'static str
        ensures { result.now ≡ field_name self }
    {
        match self {
            ScheduleField::Alarm => "alarm",
            ScheduleField::Every => "every",
            ScheduleField::Once => "once",
            ScheduleField::Cron => "cron",
            ScheduleField::From => "from",
            ScheduleField::Zone => "zone",
        }
    }
}

/// Why a value gives no schedule.
#[derive(Clone, Copy, PartialEq, Eq, Debug, Drop)]
pub enum AlarmRefusal {
    /// The first field that is wrong or missing.
    BadSchedule { field: ScheduleField },
    /// Out of memory. This says nothing about the value.
    NoMemory,
}

impl AlarmRefusal {
    /// The number by which a caller distinguishes the refusals. Out of memory has 0.
    pub fn number(self) -> u32
        ensures { result ≡ refusal_number self }
    {
        match self {
            AlarmRefusal::NoMemory => 0,
            AlarmRefusal::BadSchedule { .. } => 47,
        }
    }
}

impl From<NoMemory> for AlarmRefusal {
    ghost use Rattle.std.specs.Prelude.{◌≡◌};
    ghost use Rattle.ow_schedule.specs.declared.refusal.AlarmRefusal.TheVariants.{NoMemory};

    ghost from_gives = { λ _ e. e ≡ NoMemory };

    fn from(_refused: NoMemory) -> AlarmRefusal {
        AlarmRefusal::NoMemory
    }
}

/// The text of a refusal, for people.
pub fn refusal_text(alloc: Global, refusal: AlarmRefusal) -> Result<Str, NoMemory>
    ensures { IfOk result (λ t. t ≡ refusal_text refusal) }
{
    match refusal {
        AlarmRefusal::NoMemory => Str::of(alloc, "No memory."),
        AlarmRefusal::BadSchedule { field } => field_text(alloc, field.as_str()),
    }
}

fn field_text(alloc: Global, field: &str) -> Result<Str, NoMemory>
    ensures { IfOk result (λ t. t ≡ codes "The schedule field " ++ field.now ++ codes " is wrong.") }
{
    let text = format!(in alloc; "The schedule field {field} is wrong.")?;
    Str::from_string(text)
}
