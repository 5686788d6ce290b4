// A frame determines the step that its children make. The functions do nothing: their contracts are the laws.
ghost use Rattle.ow_compose.specs.Laws.{ConductorFramesAgree, SequenceFramesAgree};

/// What a sequence owes by its frame is what it owes by its children.
pub fn sequence_frames_agree()
    ensures { SequenceFramesAgree }
{}

/// What a conductor owes by its frame is what it owes by its children.
pub fn conductor_frames_agree()
    ensures { ConductorFramesAgree }
{}
