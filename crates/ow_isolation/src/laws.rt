// Isolation of reads. The contracts are the laws; the functions call the laws that they rest on.
ghost use Rattle.ow_isolation.specs.Archived.{ArchivedAreUnseen};
ghost use Rattle.ow_isolation.specs.Beginnings.{ReadsAreIsolated};
ghost use Rattle.ow_isolation.specs.Causes.{AreOfCauses, RecordsAreSeenAsCauses};
ghost use Rattle.ow_isolation.specs.Lists.{HallsAnswerAlike, LogsAnswerAlike};
ghost use Rattle.ow_isolation.specs.Reads.{AnswersOfView, LeavesAll, LeavesHalls, LeavesViews, RepliesOfView};
ghost use Rattle.ow_isolation.specs.Unseen.{FiresLeave, InvocationsLeave, OfficeFiresLeave, QuietFiresLeave, RepliesLeave, UnseenLeaves};
ghost use Rattle.ow_hall.specs.History.{History, IsLegal, seen};
ghost use Rattle.ow_tenant.specs.Table.{Table};

use ow_decide::{reads_are_answered_of_the_view, reads_change_nothing};
use ow_traits::Keeper;

/// A read with a known key is answered by what the key may see after the entries of a log, and by nothing else, unless the log is full.
/// Its entry leaves all that came of the entries before it: the entities, the trace, who waits, and so what each key may see.
pub fn reads_of_a_log_are_isolated()
    ensures answered { (t : Table) (B : History) → AnswersOfView t B }
    ensures left { (t : Table) (B : History) → LeavesAll t B }
    ensures views { (t : Table) (B : History) → LeavesViews t B }
{
    reads_are_answered_of_the_view();
    reads_change_nothing();
}

/// The same holds of each read that a controller is asked: a reply is that of the view, or that the log is full, and no other. Whatever
/// comes of the read, it leaves each key's view, the office table and the store as they were.
pub fn reads_of_a_hall_are_isolated<P: Keeper>()
    ensures replied { RepliesOfView P.telling }
    ensures left { LeavesHalls P.telling }
{
    reads_are_answered_of_the_view();
    reads_change_nothing();
}

/// After two logs, of any two office tables, two keys with equal views get equal answers to each list of reads that ask the same, where
/// no answer is that the log is full.
pub fn logs_answer_alike()
    ensures { LogsAnswerAlike }
{
    reads_are_answered_of_the_view();
    reads_change_nothing();
}

/// Two controllers, of any two office tables and stores, give two keys with equal views equal replies to each list of reads that ask the
/// same, where no reply is that the log is full.
pub fn halls_answer_alike<P: Keeper, Q: Keeper>()
    ensures { HallsAnswerAlike P.telling Q.telling }
{
    reads_are_answered_of_the_view();
    reads_change_nothing();
}

/// By a legal book and each of its beginnings the answer to a read with a known key is what the key may see after the entries before it, or
/// that the log is full; and the entry of a read leaves the view of each key.
pub fn legal_books_isolate_reads()
    ensures { (t : Table) (B : History) → IsLegal t B → ReadsAreIsolated t B }
{
    reads_are_answered_of_the_view();
    reads_change_nothing();
}

/// No key's view has a record that a sweep archived, so no read shows one.
pub fn archived_records_are_unseen()
    ensures { (t : Table) (B : History) → ArchivedAreUnseen t B }
{}

/// An event that changes only rules and triggers of namespaces in which a key may not read, and ends and archives only activations of such
/// namespaces, leaves the key's view: a change of a rule's status, for one.
pub fn unseen_events_leave_views()
    ensures { (t : Table) (B : History) → UnseenLeaves t B }
{}

/// A fire leaves the view of each key that may not read in the namespace of the trigger, whether it is refused or not.
pub fn unseen_fires_leave_views()
    ensures { (t : Table) (B : History) → FiresLeave t B }
{}

/// A fire of the office does so too, whether it is refused or not. Where no rule of the trigger is active it leaves the view of each key,
/// so nobody sees its note.
pub fn unseen_office_fires_leave_views()
    ensures hidden { (t : Table) (B : History) → OfficeFiresLeave t B }
    ensures quiet { (t : Table) (B : History) → QuietFiresLeave t B }
{}

/// An invocation leaves the view of each key that may not read in the namespace that is charged, also where a composition ends at once.
pub fn unseen_invocations_leave_views()
    ensures { (t : Table) (B : History) → InvocationsLeave t B }
{}

/// A runner's reply leaves the view of each key that may not read in the namespace of what the run carries. So do the steps that follow, of
/// the compositions that this is a part of.
pub fn unseen_replies_leave_views()
    ensures { (t : Table) (B : History) → RepliesLeave t B }
{}

/// Whatever a composition calls is charged to the namespace that its first activation is charged to, and made in the name of the same
/// subject. So the record of each child is shown to a key exactly where the key may read in the namespace of its cause.
pub fn children_are_of_their_causes()
    ensures causes { (t : Table) (B : History) → AreOfCauses (seen t B).trace }
    ensures shown { (t : Table) (B : History) → RecordsAreSeenAsCauses (seen t B).trace }
{}
