// What requests and calls are answered.
use ow_floor::Happened;
use ow_http::{Answer, Reason};
use ow_records::Id;
use ow_value::{NoMemory, PlainData};
use std::alloc::Global;

/// What a request is answered.
#[derive(Drop)]
pub enum Reply {
    /// This, at once.
    Now(Answer),
    /// The answer comes once the activation has ended, or the moment `until`, in milliseconds, is there.
    Waiting { id: Id, until: u64 },
}

/// What the office's own invocation is answered.
#[derive(Drop)]
pub enum Called {
    /// The invocation was accepted. This happened.
    Happened(Happened),
    /// The invocation was refused, for this reason.
    Refused(Reason),
}

/// What a fire of the office is answered.
#[derive(Drop)]
pub enum Fired {
    /// The trigger has an active rule: this is the id of the trigger's activation. The note is kept.
    Made { id: Id },
    /// No rule of the trigger is active. The note is kept.
    Quiet,
    /// The fire was refused, for this reason. The note isn't kept.
    Refused(Reason),
}

/// What a deployment is answered.
#[derive(Drop)]
pub enum Deployed {
    /// All drafts were put: how many had no row, how many replaced one, and how many were left out, as only a version would have changed.
    Done { made: u32, changed: u32, same: u32 },
    /// The deployment was refused, for this reason: at the draft with this place, counted from 1, or as a whole at place 0. No row has
    /// changed.
    Refused { place: u32, reason: Reason },
}

/// What is answered of an activation that is collected.
#[derive(Drop)]
pub enum HallCollected {
    /// What is answered to the request that waited for it.
    Reply(Answer),
    /// The activation hasn't ended, and the moment until which the request waits isn't there yet.
    NotYet,
    /// Since the last opening no blocking request was accepted under this id: refusal 14.
    Unknown,
}

impl PlainData for Reply {
    fn same(&self, other: &Reply) -> bool {
        match (self, other) {
            (Reply::Now(a), Reply::Now(b)) => a.same(b),
            (
                Reply::Waiting { id, until },
                Reply::Waiting {
                    id: other_id,
                    until: other_until,
                },
            ) => id == other_id && until == other_until,
            _ => false,
        }
    }

    fn copy(&self, alloc: Global) -> Result<Reply, NoMemory> {
        match self {
            Reply::Now(answer) => Ok(Reply::Now(answer.copy(alloc)?)),
            Reply::Waiting { id, until } => Ok(Reply::Waiting {
                id: *id,
                until: *until,
            }),
        }
    }
}

impl PlainData for HallCollected {
    fn same(&self, other: &HallCollected) -> bool {
        match (self, other) {
            (HallCollected::Reply(a), HallCollected::Reply(b)) => a.same(b),
            (HallCollected::NotYet, HallCollected::NotYet)
            | (HallCollected::Unknown, HallCollected::Unknown) => true,
            _ => false,
        }
    }

    fn copy(&self, alloc: Global) -> Result<HallCollected, NoMemory> {
        match self {
            HallCollected::Reply(answer) => Ok(HallCollected::Reply(answer.copy(alloc)?)),
            HallCollected::NotYet => Ok(HallCollected::NotYet),
            HallCollected::Unknown => Ok(HallCollected::Unknown),
        }
    }
}

impl PlainData for Called {
    fn same(&self, other: &Called) -> bool {
        match (self, other) {
            (Called::Happened(a), Called::Happened(b)) => a.same(b),
            (Called::Refused(a), Called::Refused(b)) => a.same(b),
            _ => false,
        }
    }

    fn copy(&self, alloc: Global) -> Result<Called, NoMemory> {
        match self {
            Called::Happened(happened) => Ok(Called::Happened(happened.copy(alloc)?)),
            Called::Refused(reason) => Ok(Called::Refused(reason.copy(alloc)?)),
        }
    }
}

impl PlainData for Fired {
    fn same(&self, other: &Fired) -> bool {
        match (self, other) {
            (Fired::Made { id }, Fired::Made { id: other_id }) => id == other_id,
            (Fired::Quiet, Fired::Quiet) => true,
            (Fired::Refused(a), Fired::Refused(b)) => a.same(b),
            _ => false,
        }
    }

    fn copy(&self, alloc: Global) -> Result<Fired, NoMemory> {
        match self {
            Fired::Made { id } => Ok(Fired::Made { id: *id }),
            Fired::Quiet => Ok(Fired::Quiet),
            Fired::Refused(reason) => Ok(Fired::Refused(reason.copy(alloc)?)),
        }
    }
}

impl PlainData for Deployed {
    fn same(&self, other: &Deployed) -> bool {
        match (self, other) {
            (
                Deployed::Done {
                    made,
                    changed,
                    same,
                },
                Deployed::Done {
                    made: other_made,
                    changed: other_changed,
                    same: other_same,
                },
            ) => made == other_made && changed == other_changed && same == other_same,
            (
                Deployed::Refused { place, reason },
                Deployed::Refused {
                    place: other_place,
                    reason: other_reason,
                },
            ) => place == other_place && reason.same(other_reason),
            _ => false,
        }
    }

    fn copy(&self, alloc: Global) -> Result<Deployed, NoMemory> {
        match self {
            Deployed::Done {
                made,
                changed,
                same,
            } => Ok(Deployed::Done {
                made: *made,
                changed: *changed,
                same: *same,
            }),
            Deployed::Refused { place, reason } => Ok(Deployed::Refused {
                place: *place,
                reason: reason.copy(alloc)?,
            }),
        }
    }
}
