// Laws of rules, for the crates above.
ghost use Rattle.ow_rules.specs.Joins.{PutsJoin};

/// Each rule that a put makes joins a trigger of its namespace and an action that can be called from there.
pub fn puts_join()
    ensures { PutsJoin }
{}
