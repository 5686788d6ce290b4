// What is true of each book. The functions do nothing: their contracts are the laws.
ghost use Rattle.std.specs.Prelude.{◌∷◌, ℕ};
ghost use Rattle.ow_decide.specs.declared.events.Event.{Event};
ghost use Rattle.ow_tenant.specs.Table.{Table};
ghost use Rattle.ow_hall.specs.Beginnings.{ChildrenAreSteps, EndsAreSteps, KeepsEach, KeepsLimits, KeepsSteps};
ghost use Rattle.ow_hall.specs.Comes.{Comes, HallView, Outcome};
ghost use Rattle.ow_hall.specs.History.{History, IsLegal};
ghost use Rattle.ow_hall.specs.declared.entry.Entry.{Entry};
ghost use Rattle.ow_hall.specs.Stops.{StopsWell};

use ow_traits::Keeper;

/// By a legal book and each of its beginnings every accepted activation is exactly one of waiting, running and recorded, once, and
/// has one live run at most; each fire of a trigger is recorded, once, in the event that draws its id; what has ended was accepted, as
/// it was planned; where all have ended, each is recorded, once; and the containers hold no more memory than the pool.
pub fn legal_books_keep_activations()
    ensures { (t : Table) (B : History) → IsLegal t B → KeepsEach t B }
{}

/// By a legal book and each of its beginnings no acceptance and no fire passes the limits of its namespace: as an activation that no
/// other caused was accepted, the counts before it were below the allowed numbers, and fewer than 1,000 of all namespaces had not
/// ended; and as a trigger was fired, the fires of its namespace in the minute before it were below the allowed number.
pub fn legal_books_keep_limits()
    ensures { (t : Table) (B : History) → IsLegal t B → KeepsLimits t B }
{}

/// By a legal book and each of its beginnings every activation that another caused is what the definition of its cause, a sequence or a
/// conductor, calls next. A sequence or a conductor that ended of itself ended where its definition answers, and so.
pub fn legal_books_keep_steps()
    ensures steps { (t : Table) (B : History) → IsLegal t B → KeepsSteps t B }
    ensures children { (t : Table) (e : Entry) (B : History) → IsLegal t (e ∷ B) → ChildrenAreSteps t e B }
    ensures ends { (t : Table) (e : Entry) (B : History) → IsLegal t (e ∷ B) → EndsAreSteps t e B }
{}

/// A stop at any moment of a call leaves the rows of before the call or those of after it, whatever the outcome of the call.
pub fn stops_leave_whole_calls<P: Keeper>()
    ensures { (old new : HallView P) (at : ℕ) (event : Event) (o : Outcome) → Comes P.telling old new at event o → StopsWell P.telling old.store new.store }
{}
