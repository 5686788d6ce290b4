// What is true of the steps that follow an event, and of a sweep. The functions do nothing: their contracts are the laws.
ghost use Rattle.ow_trees.specs.Laws.{StepsAreDriven, StepsAreOwed, StepsArePlain, StepsAreRight};

/// The steps that follow what may come may come too, and so may what a sweep adds. So they keep traces sound.
pub fn steps_are_right()
    ensures { StepsAreRight }
{}

/// Each step is one of an open composite: it calls a component, runs its own code, or ends.
pub fn steps_are_driven()
    ensures { StepsAreDriven }
{}

/// Each child that is accepted, and each composite that ends, is the step that is owed there.
pub fn steps_are_owed()
    ensures { StepsAreOwed }
{}

/// Steps are acceptances of children and ends of composites at the moment of the event, and raise nothing that is owed to the book.
pub fn steps_are_plain()
    ensures { StepsArePlain }
{}
