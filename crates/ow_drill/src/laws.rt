// What is so of every drill.
ghost use Rattle.std.specs.Prelude.{◌≡◌, ◌+◌, ℕ};
ghost use Rattle.ow_day.specs.Machine.{Machine};
ghost use Rattle.ow_drill.specs.Drill.{Drills, moment_of};
ghost use Rattle.ow_drill.specs.declared.tally.Tally.{Tally as Counts};

/// Each call of a drill is counted once, as accepted or as refused.
pub fn each_call_is_counted()
    ensures { (seed n failed : ℕ) (M N : Machine) (tally : Counts) → Drills seed n M tally failed N → tally.accepted + tally.refused ≡ n }
{}

/// The first call by the seed 1 is at moment 774.
pub fn a_drill_is_worked()
    ensures { moment_of 1 1 ≡ 774 }
{}
