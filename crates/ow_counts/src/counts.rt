// What is kept for the counts.
ghost use Rattle.std.specs.Prelude.{◌≡◌, ◌≤◌, ◌<◌, ◌∷◌, ◌+◌, ◌-◌, ◌++◌, [], ℕ, List, IfOk, OnOk, count_by};
ghost use Rattle.ow_floor.specs.Calls.{moved};
ghost use Rattle.ow_floor.specs.Trace.{Trace};
ghost use Rattle.ow_floor.specs.Laws.{IsSound};
ghost use Rattle.ow_tenant.specs.Notes.{Notes, ended, fired, invoked, is_ended, is_invoked, latest};
ghost use Rattle.ow_tenant.specs.Windows.{HasRoomIn, StandsAs};
ghost use Rattle.ow_counts.specs.Counts.{admitted, admitted_by, fire_admitted};
ghost use Rattle.ow_counts.specs.View.{AreUpTo, HasRoomFor, HasRoomForMoves, HasRoomOf, MayAllMove, MayEnd, StandsFor, comes, comes_at, comes_in, leaves, leaves_in, noted_moves, notes_of};

use crate::moves::{comes, comes_at, comes_in, leaves, leaves_in, note_all, reserve_all};
use crate::refusal::LimitRefusal;
use ow_floor::Moved;
use ow_names::EntityName;
use ow_tenant::{NamespaceLimits, WindowRefusal, Windows};
use ow_value::NoMemory;
use std::alloc::Global;
use std::marker::Model;

/// How many invocations of all namespaces may be there at once that have not ended.
const MOST_BUSY: u64 = 1000;

/// How many invocations and fires there were in the last minute, and how many invocations have not ended.
#[derive(Drop)]
pub struct Counts {
    windows: Windows,
    busy: u64,
}

impl Model for Counts {
    ghost use Rattle.ow_counts.specs.View.{CountsView};

    ghost Value = { CountsView };

    ghost view = { λ c. record { windows = c.windows; busy = c.busy } };
}

impl Counts {
    /// Nothing was noted.
    pub fn new(alloc: Global) -> Result<Counts, NoMemory>
        ensures { IfOk result (λ c. StandsFor c []) }
    {
        let windows = Windows::new(alloc)?;
        Ok(Counts { windows, busy: 0 })
    }

    /// Whether the limits allow one more invocation of the namespace now, in milliseconds.
    pub fn admit(
        &self,
        namespace: &EntityName,
        limits: &NamespaceLimits,
        now: u64,
    ) -> Result<(), LimitRefusal>
        ensures { (T : Trace) → StandsFor self.now (notes_of T) → IsSound T → AreUpTo now T → result ≡ admitted T namespace.now limits.now now }
    {
        if self.busy >= MOST_BUSY {
            return Err(LimitRefusal::OfficeBusy);
        }
        match self.windows.admit(namespace, limits, now) {
            Ok(()) => Ok(()),
            Err(refusal) => Err(LimitRefusal::OfNamespace(refusal)),
        }
    }

    /// Whether the limits allow one more invocation of the namespace now, in milliseconds, after these moves, which the counts don't have
    /// yet.
    pub fn admit_after(
        &self,
        moves: &[Moved],
        namespace: &EntityName,
        limits: &NamespaceLimits,
        now: u64,
    ) -> Result<Result<(), LimitRefusal>, NoMemory>
        ensures { IfOk result (λ answer. (T items : Trace) → StandsFor self.now (notes_of T) → IsSound (items ++ T) → AreUpTo now (items ++ T) → AreUpTo now T
            → moves.now ≡ moved items → answer ≡ admitted (items ++ T) namespace.now limits.now now) }
    {
        let noted = self.windows.minute(namespace, now);
        let minute = count_after(noted, comes_at(moves, namespace, now), 0)?;
        let open = self.windows.concurrent(namespace);
        let running = count_after(
            open,
            comes_in(moves, namespace),
            leaves_in(moves, namespace),
        )?;
        let busy = count_after(self.busy, comes(moves), leaves(moves))?;
        Ok(admitted_by(busy, minute, running, limits))
    }

    /// Whether the limits allow one more fire of the namespace now, in milliseconds.
    pub fn admit_fire(
        &self,
        namespace: &EntityName,
        limits: &NamespaceLimits,
        now: u64,
    ) -> Result<(), LimitRefusal>
        ensures { (T : Trace) → StandsFor self.now (notes_of T) → AreUpTo now T → result ≡ fire_admitted T namespace.now limits.now now }
    {
        match self.windows.admit_fire(namespace, limits, now) {
            Ok(()) => Ok(()),
            Err(refusal) => Err(LimitRefusal::OfNamespace(refusal)),
        }
    }

    /// Makes room for the notes of all that moved.
    pub fn reserve_moves(&mut self, alloc: Global, moves: &[Moved]) -> Result<(), NoMemory>
        ensures notes { (notes : Notes) → StandsFor self.old notes → StandsFor self.new notes }
        ensures room { OnOk result (HasRoomForMoves moves.now self.new) }
    {
        let Ok(count) = u32::try_from(moves.len()) else {
            return Err(NoMemory);
        };
        if u64::MAX - self.busy < u64::from(count) {
            return Err(NoMemory);
        }
        reserve_all(self, alloc, moves, count)
    }

    /// Notes all that moved, except what other activations caused. It takes no memory.
    pub fn note_moves(&mut self, moves: &[Moved])
        requires { HasRoomForMoves moves.now self.old }
        ensures { (notes : Notes) → MayAllMove moves.now notes → StandsFor self.old notes → StandsFor self.new (noted_moves moves.now notes) }
    {
        note_all(self, moves);
    }

    /// Makes room for that many invocations of the namespace and as many fires.
    pub(crate) fn reserve_many(
        &mut self,
        alloc: Global,
        namespace: &EntityName,
        count: u32,
    ) -> Result<(), NoMemory>
        ensures notes { (notes : Notes) → StandsFor self.old notes → StandsFor self.new notes }
        ensures busy { self.new.busy ≡ self.old.busy }
        ensures keeps { (name : List ℕ) (n : ℕ) → HasRoomOf name n self.old → HasRoomOf name n self.new }
        ensures room { OnOk result (HasRoomOf namespace.now count self.new) }
    {
        self.windows.reserve_many(alloc, namespace, count)
    }

    /// An invocation that is charged to the namespace was accepted at the moment, which is none before the latest. It takes no
    /// memory.
    pub(crate) fn invoked(&mut self, namespace: &EntityName, at: u64)
        requires { HasRoomFor namespace.now 1 self.old }
        ensures notes { (notes : Notes) → latest notes ≤ at → StandsFor self.old notes → StandsFor self.new (invoked namespace.now at ∷ notes) }
        ensures room { (name : List ℕ) (n : ℕ) → HasRoomOf name (n + 1) self.old → HasRoomOf name n self.new }
        ensures busy { self.new.busy ≡ self.old.busy + 1 }
    {
        self.windows.note(namespace, at);
        self.busy += 1;
    }

    /// An invocation that was charged to the namespace has ended. It takes no memory.
    pub(crate) fn ended(&mut self, namespace: &EntityName)
        ensures notes { (notes : Notes) → MayEnd namespace.now notes → StandsFor self.old notes → StandsFor self.new (ended namespace.now ∷ notes) }
        ensures room { (name : List ℕ) (n : ℕ) → HasRoomOf name n self.old → HasRoomOf name n self.new }
        ensures busy { self.new.busy ≤ self.old.busy }
    {
        end_in(&mut self.windows, namespace);
        self.busy = self.busy.saturating_sub(1);
    }

    /// A trigger of the namespace was fired at the moment, which is none before the latest. It takes no memory.
    pub(crate) fn fired(&mut self, namespace: &EntityName, at: u64)
        requires { HasRoomOf namespace.now 1 self.old }
        ensures notes { (notes : Notes) → latest notes ≤ at → StandsFor self.old notes → StandsFor self.new (fired namespace.now at ∷ notes) }
        ensures room { (name : List ℕ) (n : ℕ) → HasRoomOf name (n + 1) self.old → HasRoomOf name n self.new }
        ensures busy { self.new.busy ≡ self.old.busy }
    {
        self.windows.note_fire(namespace, at);
    }
}

// The count with `more` added, and then without `less`. A count that the type doesn't hold is as running out of memory.
fn count_after(count: u64, more: u64, less: u64) -> Result<u64, NoMemory>
    ensures { IfOk result (λ n. n ≡ count + more - less) }
{
    match count.checked_add(more) {
        Some(sum) => Ok(sum.saturating_sub(less)),
        None => Err(NoMemory),
    }
}

// Whether the limits allow one more invocation by these counts.
fn admitted_by(
    busy: u64,
    minute: u64,
    running: u64,
    limits: &NamespaceLimits,
) -> Result<(), LimitRefusal>
    ensures { result ≡ admitted_by busy minute running limits.now }
{
    if busy >= MOST_BUSY {
        return Err(LimitRefusal::OfficeBusy);
    }
    let allowed = u64::from(limits.per_minute);
    if minute >= allowed {
        let refusal = WindowRefusal::MinuteLimit {
            count: minute,
            allowed,
        };
        return Err(LimitRefusal::OfNamespace(refusal));
    }
    let allowed = u64::from(limits.concurrent);
    if running >= allowed {
        let refusal = WindowRefusal::ConcurrentLimit {
            count: running,
            allowed,
        };
        return Err(LimitRefusal::OfNamespace(refusal));
    }
    Ok(())
}

fn end_in(windows: &mut Windows, namespace: &EntityName)
    ensures notes { (notes : Notes) → count_by (is_ended namespace.now) notes < count_by (is_invoked namespace.now) notes → StandsAs windows.old notes → StandsAs windows.new (ended namespace.now ∷ notes) }
    ensures room { (name : List ℕ) (n : ℕ) → HasRoomIn name n n windows.old → HasRoomIn name n n windows.new }
{
    if windows.concurrent(namespace) > 0 {
        windows.ended(namespace);
    }
}
