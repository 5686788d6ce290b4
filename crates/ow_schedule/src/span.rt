// Numbers in steps.
ghost use Rattle.std.specs.Prelude.{◌<◌};

/// Each `step`-th number from `first`, up to `last`.
#[derive(Clone, Copy)]
pub struct Span {
    /// The least number.
    pub first: u8,
    /// No number is greater.
    pub last: u8,
    /// The distance of the numbers.
    pub step: u8,
    pub ghost steps: { 0 < step },
}
