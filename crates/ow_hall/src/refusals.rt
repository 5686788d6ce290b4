// Why a call of the hall isn't carried out.
use crate::hall::Hall;
use ow_tenant::Tenants;
use ow_traits::Keeper;
use ow_value::Str;

/// Why nothing is swept.
#[derive(Clone, Copy, Debug, PartialEq, Eq)]
pub enum SweepRefusal {
    /// The store failed. Nothing has ended.
    StoreFault,
    /// No memory was left.
    NoMemory,
}

/// Why the service isn't opened.
#[derive(Drop)]
pub enum StartFault {
    /// The kept rows are not allowed: the first bad one has this key. Refusal 30.
    BadKept(Str),
    /// The store failed. Refusal 31.
    StoreFault,
    /// No memory was left.
    NoMemory,
}

/// Why the service isn't opened, with the store and the office table, which are handed back.
#[derive(Drop)]
pub struct StartRefusal<P: Keeper + Drop> {
    pub why: StartFault,
    pub store: P,
    pub tenants: Tenants,
}

/// Why the service isn't opened again. It goes on as it was.
#[derive(Drop)]
pub enum Reopened<P: Keeper + Drop> {
    /// The store failed.
    StoreFault(Hall<P>),
    /// No memory was left.
    NoMemory(Hall<P>),
}
