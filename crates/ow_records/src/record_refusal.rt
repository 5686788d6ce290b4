// Why there is no such record.
ghost use Rattle.std.specs.Prelude.{◌≡◌};
ghost use Rattle.ow_records.specs.RecordRefusal.{record_refusal_number};

use ow_value::NoMemory;

/// Why there is no such record.
#[derive(Clone, Copy, PartialEq, Eq, Debug, Drop)]
pub enum RecordRefusal {
    /// No activation of the id has ended.
    NotFound,
    /// No record is written as the value.
    BadRecord,
    /// No memory was left for a record.
    NoMemory,
}

impl RecordRefusal {
    /// The number by which a client distinguishes the refusals. Out of memory has 0.
    pub fn number(self) -> u32
        ensures { result ≡ record_refusal_number self }
    {
        match self {
            RecordRefusal::NoMemory => 0,
            RecordRefusal::NotFound => 14,
            RecordRefusal::BadRecord => 30,
        }
    }
}

impl From<NoMemory> for RecordRefusal {
    ghost use Rattle.std.specs.Prelude.{◌≡◌};
    ghost use Rattle.ow_records.specs.declared.record_refusal.RecordRefusal.TheVariants.{NoMemory};

    ghost from_gives = { λ _ e. e ≡ NoMemory };

    fn from(_refused: NoMemory) -> RecordRefusal {
        RecordRefusal::NoMemory
    }
}
