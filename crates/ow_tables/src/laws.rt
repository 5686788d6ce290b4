// Laws of the tables, for the crates above.
ghost use Rattle.ow_tables.specs.Paths.{LoopsAreFound};

/// A sequence that is put is taken to contain itself exactly where a path of components leads back to it.
#[tactic(auto, using(crate::proofs::LoopLaws::loops_are_found))]
pub fn loops_are_found()
    ensures { LoopsAreFound }
{}
