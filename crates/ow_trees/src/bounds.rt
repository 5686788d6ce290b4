// How many steps one composition makes.

/// How many steps follow one event at most: 50 components and 101 runs of conductors' own code are called, and 51 composites end.
pub const MOST_STEPS: u32 = 202;
