// What a container can run, and how a run starts.
ghost use Rattle.std.specs.Prelude.{◌≡◌, ◌↔◌, IsTrue};
ghost use Rattle.ow_slots.specs.Key.{kind_of, same_key, same_kind};

use ow_entity::Exec;
use ow_names::{EntityName, FullName};
use ow_traits::Kind;
use ow_value::{NoMemory, PlainData, copied3};
use std::alloc::Global;

/// What a container that ran an action can run again: the same version of the same action, for the same namespace.
#[derive(Drop)]
pub struct Key {
    /// The namespace of the activation.
    pub namespace: EntityName,
    pub action: FullName,
    pub version: u32,
    pub exec: Exec,
    /// In MB.
    pub memory: u32,
}

/// From which container a run starts.
#[derive(Clone, Copy, Debug, PartialEq, Eq)]
pub enum Start {
    /// One that ran the action before.
    Warm,
    /// One that was started ahead, for its kind and memory.
    Prewarmed,
    /// A new one.
    Cold,
}

impl Key {
    /// The runner that its code needs.
    pub fn kind(&self) -> Kind
        ensures { result ≡ kind_of self.now.exec }
    {
        kind_of(&self.exec)
    }

    /// Whether both are equal. The code, which may be long, is compared last.
    pub fn is_same(&self, other: &Key) -> bool
        ensures value { result ≡ same_key self.now other.now }
        ensures equal { IsTrue result ↔ (self.now ≡ other.now) }
    {
        self.same(other)
    }
}

impl PlainData for Key {
    fn same(&self, other: &Key) -> bool {
        self.version == other.version
            && self.memory == other.memory
            && self.namespace.same(&other.namespace)
            && self.action.same(&other.action)
            && self.exec.same(&other.exec)
    }

    fn copy(&self, alloc: Global) -> Result<Key, NoMemory> {
        let (namespace, action, exec) = copied3(alloc, &self.namespace, &self.action, &self.exec)?;
        Ok(Key {
            namespace,
            action,
            version: self.version,
            exec,
            memory: self.memory,
        })
    }
}

/// The runner that an action's code needs. A sequence has no code and starts no container; its kind means nothing.
pub fn kind_of(exec: &Exec) -> Kind
    ensures { result ≡ kind_of exec.now }
{
    match exec {
        Exec::Plain { .. } => Kind::Plain,
        Exec::Program { .. } => Kind::Program,
        Exec::Sequence { .. } => Kind::Plain,
    }
}

/// Whether both are the same kind.
pub fn same_kinds(a: Kind, b: Kind) -> bool
    ensures { result ≡ same_kind a b }
{
    match a {
        Kind::Plain => match b {
            Kind::Plain => true,
            Kind::Program => false,
        },
        Kind::Program => match b {
            Kind::Plain => false,
            Kind::Program => true,
        },
    }
}
