// The first four of the candidates, and how many of them make room.
ghost use Rattle.std.specs.Prelude.{◌≡◌, ◌<◌, ◌+◌, ◌^◌, [], length, take};
ghost use Rattle.ow_pool.specs.Candidates.{candidates_from, numbers_of};
ghost use Rattle.ow_pool.specs.Four.{IsFilled, freeing, items, put_fourth, put_in, put_second, put_third};

use crate::candidates::{Candidate, candidate_of};
use crate::removal::Removal;
use ow_slots::Slot;

/// At most four candidates.
#[derive(Clone, Copy, Debug, PartialEq, Eq)]
pub struct Four {
    pub first: Option<Candidate>,
    pub second: Option<Candidate>,
    pub third: Option<Candidate>,
    pub fourth: Option<Candidate>,
}

fn put_fourth(
    x: Candidate,
    a: Candidate,
    b: Candidate,
    c: Candidate,
    fourth: Option<Candidate>,
) -> Four
    ensures { result ≡ put_fourth x a b c fourth }
{
    let last = match fourth {
        None => x,
        Some(d) => { if d.is_before(&x) { d } else { x } }
    };
    Four {
        first: Some(a),
        second: Some(b),
        third: Some(c),
        fourth: Some(last),
    }
}

fn put_third(
    x: Candidate,
    a: Candidate,
    b: Candidate,
    third: Option<Candidate>,
    fourth: Option<Candidate>,
) -> Four
    ensures { result ≡ put_third x a b third fourth }
{
    match third {
        None => Four {
            first: Some(a),
            second: Some(b),
            third: Some(x),
            fourth: None,
        },
        Some(c) => {
            if c.is_before(&x) {
                put_fourth(x, a, b, c, fourth)
            } else {
                Four {
                    first: Some(a),
                    second: Some(b),
                    third: Some(x),
                    fourth: Some(c),
                }
            }
        }
    }
}

fn put_second(
    x: Candidate,
    a: Candidate,
    second: Option<Candidate>,
    third: Option<Candidate>,
    fourth: Option<Candidate>,
) -> Four
    ensures { result ≡ put_second x a second third fourth }
{
    match second {
        None => Four {
            first: Some(a),
            second: Some(x),
            third: None,
            fourth: None,
        },
        Some(b) => {
            if b.is_before(&x) {
                put_third(x, a, b, third, fourth)
            } else {
                Four {
                    first: Some(a),
                    second: Some(x),
                    third: Some(b),
                    fourth: third,
                }
            }
        }
    }
}

impl Four {
    /// With one more at its place, without the fifth.
    pub(crate) fn put(self, x: Candidate) -> Four
        ensures { result ≡ put_in x self }
    {
        match self.first {
            None => Four {
                first: Some(x),
                second: None,
                third: None,
                fourth: None,
            },
            Some(a) => {
                if a.is_before(&x) {
                    put_second(x, a, self.second, self.third, self.fourth)
                } else {
                    Four {
                        first: Some(x),
                        second: Some(a),
                        third: self.second,
                        fourth: self.third,
                    }
                }
            }
        }
    }
}

/// The first four candidates.
pub(crate) fn first_four(slots: &[Slot]) -> Four
    requires { length slots.now < 2 ^ 32 }
    ensures items { items result ≡ take 4 (candidates_from 0 slots.now) }
    ensures filled { IsFilled result }
{
    let mut four = Four {
        first: None,
        second: None,
        third: None,
        fourth: None,
    };
    let mut i = slots.len();
    while i > 0 {
        i -= 1;
        if let Some(x) = candidate_of(i as u32, &slots[i].state) {
            four = four.put(x);
        }
    }
    four
}

/// The first of these, as many as make room, of at most four.
pub(crate) fn freeing(four: &Four, rest: u64, memory: u64, pool: u64) -> Option<Removal>
    requires { rest + memory < 2 ^ 64 }
    ensures { result ≡ numbers_of (freeing rest memory pool [] (items four.now)) }
{
    let a = four.first?;
    let rest = rest.saturating_sub(u64::from(a.memory));
    if rest + memory <= pool {
        return Some(Removal::one(a.slot));
    }
    let b = four.second?;
    let rest = rest.saturating_sub(u64::from(b.memory));
    if rest + memory <= pool {
        return Some(Removal::two(a.slot, b.slot));
    }
    let c = four.third?;
    let rest = rest.saturating_sub(u64::from(c.memory));
    if rest + memory <= pool {
        return Some(Removal::three(a.slot, b.slot, c.slot));
    }
    let d = four.fourth?;
    let rest = rest.saturating_sub(u64::from(d.memory));
    if rest + memory <= pool {
        return Some(Removal::four(a.slot, b.slot, c.slot, d.slot));
    }
    None
}
