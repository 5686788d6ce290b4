//! Laws of schedules: each function does nothing, and its contract is a law.
ghost use Rattle.ow_schedule.specs.Laws.{ShowsOne, DueIsOneList, DueRises, DueIsSound, DueIsComplete, PendingIsDueAfterTheNote, RestIsPending, SaidDecidesDue};

/// An instant has one civil time in a time zone.
pub fn an_instant_has_one_civil_time()
    ensures { ShowsOne }
{}

/// What a value says decides when the schedule that is read from it is due.
pub fn what_is_said_decides_when_it_is_due()
    ensures { SaidDecidesDue }
{}

/// The due moments of a range are one list.
pub fn due_moments_are_one_list()
    ensures { DueIsOneList }
{}

/// They rise strictly.
pub fn due_moments_rise()
    ensures { DueRises }
{}

/// Each of them is due, and in the range.
pub fn due_moments_are_sound()
    ensures { DueIsSound }
{}

/// Each moment of the range at which the schedule is due is one of them.
pub fn due_moments_are_complete()
    ensures { DueIsComplete }
{}

/// The pending moments are the due moments after the moment that was noted last.
pub fn pending_moments_are_due_after_the_note()
    ensures { PendingIsDueAfterTheNote }
{}

/// Once the first pending moment is noted, the others are pending.
pub fn the_others_stay_pending()
    ensures { RestIsPending }
{}
