// How large compositions get.

/// How many components the tree of one composition may call.
pub const MOST_COMPONENTS: u32 = 50;

/// How many runs of conductors' own code the tree of one composition may make.
pub const MOST_RUNS: u32 = 101;

/// How deep composites may be nested; the first one has depth 1.
pub const MOST_DEPTH: u32 = 16;
