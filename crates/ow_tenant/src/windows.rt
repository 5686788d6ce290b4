// What was noted of invocations and fires, as far as it counts against the limits of namespaces.
ghost use Rattle.std.specs.Prelude.{◌≡◌, ◌≤◌, ◌<◌, ◌+◌, ◌∷◌, [], ℕ, List, None, IfOk, OnOk, IsSome};
ghost use Rattle.ow_value.specs.ByText.{StandsAt, value_at};
ghost use Rattle.ow_tenant.specs.Notes.{Notes, admitted, concurrent, ended, fire_admitted, fired, fires, invoked, latest, minute};
ghost use Rattle.ow_tenant.specs.Windows.{HasRoomIn, KeepsOthers, StandsAs, window_of};

use crate::limits::NamespaceLimits;
use crate::refusal::WindowRefusal;
use crate::window::Window;
use ow_names::EntityName;
use ow_value::{ByText, NoMemory, Str};
use std::alloc::Global;
use std::marker::Model;

/// What was noted of invocations and fires, as far as it counts against the limits of namespaces. Moments are in
/// milliseconds.
#[derive(Drop)]
pub struct Windows {
    windows: ByText<Window>,
}

impl Model for Windows {
    ghost use Rattle.ow_value.specs.ByText.{ByText};
    ghost use Rattle.ow_tenant.specs.declared.window.Window.{Window};

    ghost Value = { ByText Window };

    ghost view = { λ w. w.windows };
}

impl Windows {
    /// Nothing was noted.
    pub fn new(alloc: Global) -> Result<Windows, NoMemory>
        ensures { IfOk result (λ w. StandsAs w []) }
    {
        Ok(Windows {
            windows: ByText::new(alloc),
        })
    }

    /// Whether the limits of the namespace allow one more invocation now.
    pub fn admit(
        &self,
        namespace: &EntityName,
        limits: &NamespaceLimits,
        now: u64,
    ) -> Result<(), WindowRefusal>
        ensures { (notes : Notes) → StandsAs self.now notes → latest notes ≤ now → result ≡ admitted notes namespace.now limits.now now }
    {
        let count = self.minute(namespace, now);
        let allowed = u64::from(limits.per_minute);
        if count >= allowed {
            return Err(WindowRefusal::MinuteLimit { count, allowed });
        }
        let running = self.concurrent(namespace);
        let allowed = u64::from(limits.concurrent);
        if running >= allowed {
            return Err(WindowRefusal::ConcurrentLimit {
                count: running,
                allowed,
            });
        }
        Ok(())
    }

    /// Whether the limits of the namespace allow one more fire now.
    pub fn admit_fire(
        &self,
        namespace: &EntityName,
        limits: &NamespaceLimits,
        now: u64,
    ) -> Result<(), WindowRefusal>
        ensures { (notes : Notes) → StandsAs self.now notes → latest notes ≤ now → result ≡ fire_admitted notes namespace.now limits.now now }
    {
        let fires = self.fires(namespace, now);
        let allowed = u64::from(limits.fires);
        if fires >= allowed {
            return Err(WindowRefusal::FireLimit {
                count: fires,
                allowed,
            });
        }
        Ok(())
    }

    /// How many invocations of the namespace there were in the last minute.
    pub fn minute(&self, namespace: &EntityName, now: u64) -> u64
        ensures { (notes : Notes) → StandsAs self.now notes → latest notes ≤ now → result ≡ minute notes namespace.now now }
    {
        match self.windows.find(namespace.as_str().as_bytes()) {
            Some(window) => window.invocations.count(now) as u64,
            None => 0,
        }
    }

    /// How many invocations of the namespace have not ended.
    pub fn concurrent(&self, namespace: &EntityName) -> u64
        ensures notes { (notes : Notes) → StandsAs self.now notes → result ≡ concurrent notes namespace.now }
        ensures window { result ≡ (window_of namespace.now self.now).running }
    {
        match self.windows.find(namespace.as_str().as_bytes()) {
            Some(window) => window.running,
            None => 0,
        }
    }

    /// Makes room for one `note` or one `note_fire`.
    pub fn reserve(&mut self, alloc: Global, namespace: &EntityName) -> Result<(), NoMemory>
        ensures notes { (notes : Notes) → StandsAs self.old notes → StandsAs self.new notes }
        ensures others { KeepsOthers namespace.now self.old self.new }
        ensures keeps { (n f : ℕ) → HasRoomIn namespace.now n f self.old → HasRoomIn namespace.now n f self.new }
        ensures running { (window_of namespace.now self.new).running ≡ (window_of namespace.now self.old).running }
        ensures room { OnOk result (HasRoomIn namespace.now 1 1 self.new) }
    {
        self.reserve_many(alloc, namespace, 1)
    }

    /// Makes room for that many `note`s and as many `note_fire`s.
    pub fn reserve_many(
        &mut self,
        alloc: Global,
        namespace: &EntityName,
        count: u32,
    ) -> Result<(), NoMemory>
        ensures notes { (notes : Notes) → StandsAs self.old notes → StandsAs self.new notes }
        ensures others { KeepsOthers namespace.now self.old self.new }
        ensures keeps { (n f : ℕ) → HasRoomIn namespace.now n f self.old → HasRoomIn namespace.now n f self.new }
        ensures running { (window_of namespace.now self.new).running ≡ (window_of namespace.now self.old).running }
        ensures room { OnOk result (HasRoomIn namespace.now count count self.new) }
    {
        if self.windows.find(namespace.as_str().as_bytes()).is_none() {
            return self.start(alloc, namespace, count);
        }
        let (place, mut window) = self.open(namespace);
        let reserved = window.reserve(count);
        self.close(namespace, place, window);
        reserved
    }

    // A window with that room for a namespace that has none.
    fn start(&mut self, alloc: Global, namespace: &EntityName, count: u32) -> Result<(), NoMemory>
        requires { value_at namespace.now self.old ≡ None }
        ensures notes { (notes : Notes) → StandsAs self.old notes → StandsAs self.new notes }
        ensures others { KeepsOthers namespace.now self.old self.new }
        ensures keeps { (n f : ℕ) → HasRoomIn namespace.now n f self.old → HasRoomIn namespace.now n f self.new }
        ensures running { (window_of namespace.now self.new).running ≡ (window_of namespace.now self.old).running }
        ensures room { OnOk result (HasRoomIn namespace.now count count self.new) }
    {
        let mut window = Window::new(alloc);
        window.reserve(count)?;
        let text = Str::of(alloc, namespace.as_str())?;
        self.windows.put(text, window)?;
        Ok(())
    }

    // Takes the namespace's window out, and puts an empty one in its place.
    fn open(&mut self, namespace: &EntityName) -> (usize, Window)
        requires { IsSome (value_at namespace.now self.old) }
        ensures window { result.1 ≡ window_of namespace.now self.old }
        ensures place { StandsAt namespace.now self.new result.0 }
        ensures others { KeepsOthers namespace.now self.old self.new }
    {
        let Some(place) = self.windows.place(namespace.as_str().as_bytes()) else {
            unreachable!()
        };
        let empty = Window::new(self.windows.alloc());
        let window = self.windows.replace(place, empty);
        (place, window)
    }

    // Puts the namespace's window back.
    fn close(&mut self, namespace: &EntityName, place: usize, window: Window)
        requires { StandsAt namespace.now self.old place }
        ensures window { window_of namespace.now self.new ≡ window }
        ensures others { KeepsOthers namespace.now self.old self.new }
    {
        let _ = self.windows.replace(place, window);
    }

    /// An invocation was accepted at the moment, which is none before the latest.
    pub fn note(&mut self, namespace: &EntityName, at: u64)
        requires { HasRoomIn namespace.now 1 0 self.old }
        ensures notes { (notes : Notes) → latest notes ≤ at → StandsAs self.old notes → StandsAs self.new (invoked namespace.now at ∷ notes) }
        ensures others { KeepsOthers namespace.now self.old self.new }
        ensures room { (n f : ℕ) → HasRoomIn namespace.now (n + 1) f self.old → HasRoomIn namespace.now n f self.new }
        ensures running { (window_of namespace.now self.new).running ≡ (window_of namespace.now self.old).running + 1 }
    {
        let (place, mut window) = self.open(namespace);
        window.note(at);
        self.close(namespace, place, window);
    }

    /// A trigger was fired at the moment, which is none before the latest.
    pub fn note_fire(&mut self, namespace: &EntityName, at: u64)
        requires { HasRoomIn namespace.now 0 1 self.old }
        ensures notes { (notes : Notes) → latest notes ≤ at → StandsAs self.old notes → StandsAs self.new (fired namespace.now at ∷ notes) }
        ensures others { KeepsOthers namespace.now self.old self.new }
        ensures room { (n f : ℕ) → HasRoomIn namespace.now n (f + 1) self.old → HasRoomIn namespace.now n f self.new }
        ensures running { (window_of namespace.now self.new).running ≡ (window_of namespace.now self.old).running }
    {
        let (place, mut window) = self.open(namespace);
        window.note_fire(at);
        self.close(namespace, place, window);
    }

    /// An invocation of the namespace has ended. One is counted as running.
    pub fn ended(&mut self, namespace: &EntityName)
        requires { 0 < (window_of namespace.now self.old).running }
        ensures notes { (notes : Notes) → StandsAs self.old notes → StandsAs self.new (ended namespace.now ∷ notes) }
        ensures others { KeepsOthers namespace.now self.old self.new }
        ensures room { (n f : ℕ) → HasRoomIn namespace.now n f self.old → HasRoomIn namespace.now n f self.new }
    {
        let (place, mut window) = self.open(namespace);
        window.end();
        self.close(namespace, place, window);
    }
}

impl Windows {
    fn fires(&self, namespace: &EntityName, now: u64) -> u64
        ensures { (notes : Notes) → StandsAs self.now notes → latest notes ≤ now → result ≡ fires notes namespace.now now }
    {
        match self.windows.find(namespace.as_str().as_bytes()) {
            Some(window) => window.fires.count(now) as u64,
            None => 0,
        }
    }
}
