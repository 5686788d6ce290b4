// The annotations of a record.
ghost use Rattle.std.specs.Prelude.{◌≡◌, ◌↔◌, IsTrue, IfOk};
ghost use Rattle.ow_records.specs.Notes.{kind_of, kind_text};

use ow_entity::{Exec, Limits};
use ow_names::FullName;
use ow_value::{NoMemory, PlainData};
use std::alloc::Global;

/// What kind of code an action has.
#[derive(Clone, Copy, Debug, PartialEq, Eq)]
pub enum ExecKind {
    /// Code that the service itself answers for.
    Plain,
    /// A program of the office.
    Program,
    /// A list of components.
    Sequence,
}

impl ExecKind {
    /// The kind of the code.
    pub fn of(exec: &Exec) -> ExecKind
        ensures { result ≡ kind_of exec.now }
    {
        match exec {
            Exec::Plain { .. } => ExecKind::Plain,
            Exec::Program { .. } => ExecKind::Program,
            Exec::Sequence { .. } => ExecKind::Sequence,
        }
    }

    /// As a body names the kind.
    pub fn text(self) -> &'static str
        ensures { result.now ≡ kind_text self }
    {
        match self {
            ExecKind::Plain => "plain:1",
            ExecKind::Program => "program:1",
            ExecKind::Sequence => "sequence",
        }
    }
}

/// The annotations of a record: each has its value, or isn't there.
#[derive(Drop)]
pub struct Notes {
    /// The binding through which the action was called.
    pub binding: Option<FullName>,
    /// Whether another activation caused this one.
    pub caused_by: bool,
    /// How long the start of the container took, in milliseconds.
    pub init_time: Option<u64>,
    /// What kind of code the action has.
    pub kind: Option<ExecKind>,
    /// The limits of the action.
    pub limits: Option<Limits>,
    /// The full name of the action.
    pub path: Option<FullName>,
    /// Whether it is the first of its composition.
    pub topmost: bool,
    /// How long the activation waited for its start, in milliseconds.
    pub wait_time: Option<u64>,
}

impl PlainData for Notes {
    fn same(&self, other: &Notes) -> bool {
        self.binding.same(&other.binding)
            && self.caused_by == other.caused_by
            && self.init_time == other.init_time
            && self.kind == other.kind
            && self.limits == other.limits
            && self.path.same(&other.path)
            && self.topmost == other.topmost
            && self.wait_time == other.wait_time
    }

    fn copy(&self, alloc: Global) -> Result<Notes, NoMemory> {
        let binding = self.binding.copy(alloc)?;
        let path = self.path.copy(alloc)?;
        Ok(Notes {
            binding,
            caused_by: self.caused_by,
            init_time: self.init_time,
            kind: self.kind,
            limits: self.limits,
            path,
            topmost: self.topmost,
            wait_time: self.wait_time,
        })
    }
}
