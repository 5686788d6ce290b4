// What the words ask for, and why they ask for nothing.
ghost use Rattle.std.specs.Prelude.{◌≡◌};

use ow_value::{NoMemory, Str};

/// What the words ask for.
#[derive(Drop)]
pub enum Command {
    /// Carry out the statements of a day.
    Day {
        /// The file with the office table.
        table: Option<Str>,
        /// The file that the rows and records are kept in.
        store: Option<Str>,
    },
    /// Serve requests that come over sockets.
    Serve(ServeWords),
    /// Write what the records of these days count for.
    Usage {
        /// The first day, counted from 1970-01-01.
        from: u32,
        /// The last day, which isn't before the first.
        to: u32,
        /// Whether it is written as comma-separated values.
        csv: bool,
        /// The file that the records are kept in.
        store: Option<Str>,
    },
    /// Carry out made calls, and write what they result in.
    Drill {
        /// How many calls, at most 1,000,000.
        n: u64,
        /// The number from which their moments are made.
        seed: u64,
        /// The file with the office table.
        table: Option<Str>,
        /// The file that the rows and records are kept in.
        store: Option<Str>,
    },
    /// Put the entities that a manifest lists.
    Deploy {
        /// The file with the office table.
        table: Option<Str>,
        /// The file that the rows and records are kept in.
        store: Option<Str>,
    },
    /// Print how the program is used.
    Help,
    /// Print the program's version.
    Version,
}

/// What the words say of a service.
#[derive(Drop)]
pub struct ServeWords {
    /// The port that it listens on. For 0 the system chooses one.
    pub port: u16,
    /// How many workers there are, 1 to 64: 4 where the words don't say.
    pub workers: u32,
    /// How many connections are accepted before it stops listening, or none where it doesn't stop for their number.
    pub connections: Option<u64>,
    /// The file with the office table.
    pub table: Option<Str>,
    /// The file that the rows and records are kept in.
    pub store: Option<Str>,
}

/// Why there is no command.
#[derive(Clone, Copy, Debug, PartialEq, Eq, Drop)]
pub enum WordsRefusal {
    /// The words aren't in the command set.
    BadWords,
    /// No memory was left to read them.
    NoMemory,
}

impl From<NoMemory> for WordsRefusal {
    ghost use Rattle.std.specs.Prelude.{◌≡◌};
    ghost use Rattle.ow_command_line.specs.declared.command.WordsRefusal.TheVariants.{NoMemory};

    ghost from_gives = { λ _ e. e ≡ NoMemory };

    fn from(_none: NoMemory) -> WordsRefusal {
        WordsRefusal::NoMemory
    }
}
