// What is true of the text of every day. The functions do nothing: their contracts are the laws.
ghost use Rattle.std.specs.Prelude.{◌≡◌, ℕ, Bool, List, length, ◌≤◌};
ghost use Rattle.std.specs.List.{All};
ghost use Rattle.ow_day.specs.Limits.{most_bytes};
ghost use Rattle.ow_day.specs.Statement.{Statement};
ghost use Rattle.ow_day.specs.Day.{Found, day_of, first_statement};
ghost use Rattle.ow_day.specs.Printed.{DayIsReadBack, IsPrintable, IsPrintedAt, IsReadBack, printed_day};

/// Each statement that can be printed is read back from its line.
pub fn printed_statements_are_read_back()
    ensures { (s : Statement) → IsPrintable s → IsReadBack s }
{}

/// Each statement that is read can be printed, and the bytes that it was read from are what is printed.
pub fn read_statements_are_printed()
    ensures { (more : Bool) (bytes later : List ℕ) (s : Statement) → first_statement more bytes ≡ Found s later
        → IsPrintable s × IsPrintedAt bytes s later }
{}

/// Statements that are printed one after another are read back as a day of these statements, up to its `end`.
pub fn printed_days_are_read_back()
    ensures { (ss : List Statement) → All IsPrintable ss → length (printed_day ss) ≤ most_bytes → DayIsReadBack ss }
{}

/// Each statement of a day can be printed, whatever its bytes are.
pub fn days_can_be_printed()
    ensures { (bytes : List ℕ) → All IsPrintable (day_of bytes).statements }
{}
