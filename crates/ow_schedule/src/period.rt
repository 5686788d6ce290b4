// Moments at equal distances.
ghost use Rattle.std.specs.Prelude.{◌≤◌};

/// The greatest moment that a schedule names: the end of 9999, in milliseconds since 1970.
pub const GREATEST_MOMENT: u64 = 253_402_300_799_999;

/// The shortest distance, in milliseconds: a minute.
pub const LEAST_PERIOD: u64 = 60_000;

/// The longest distance, in milliseconds: 366 days.
pub const MOST_PERIOD: u64 = 31_622_400_000;

/// The moments `from`, `from + every`, and so on, in milliseconds.
#[derive(Clone, Copy)]
pub struct Period {
    /// The first moment.
    pub from: u64,
    /// The distance.
    pub every: u64,
    pub ghost from_is_moment: { from ≤ 253402300799999 },
    pub ghost every_is_long: { 60000 ≤ every },
    pub ghost every_is_bounded: { every ≤ 31622400000 },
}
